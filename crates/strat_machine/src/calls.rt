//! Calls of definitions, whose term arguments have their places.
ghost use Rattle.std.specs.Prelude.{◌≡◌, OnOk, map};
ghost use Rattle.strat_code.specs.CodeOf.{argument_of};
ghost use Rattle.strat_machine.specs.Stacks.{state_of};
ghost use Rattle.strat_machine.specs.Entered.{entered};
ghost use Rattle.strat_machine.specs.declared.stacks.Next.TheVariants.{Running};

use crate::stacks::{Position, Stacks};
use std::alloc::AllocError;
use strat_code::Argument;
use term_model::TermSpace;

/// A definition that is called: how many frames up the one of its layer is, the address of its code, for how many places
/// more than its terms its frame has room, and the address where the code goes on afterwards.
#[derive(Clone, Copy)]
pub(crate) struct Callee {
    pub(crate) frames: usize,
    pub(crate) entry: usize,
    pub(crate) room: usize,
    pub(crate) next_address: usize,
}

/// Calls a definition whose term arguments have the places from `base` on.
pub(crate) fn enter_definition<S: TermSpace>(
    stacks: &mut Stacks<S::Ref, S::Mark>,
    callee: &Callee,
    arguments: &[Argument],
    base: usize,
    position: &mut Position<S::Ref>,
) -> Result<(), AllocError>
    ensures { OnOk result (state_of Running position.new stacks.new ≡
        entered stacks.old callee.now.frames callee.now.entry callee.now.room
        callee.now.next_address
        position.old.frame (map argument_of arguments.now) base position.old.term) }
{
    let inner = stacks.frames.len();
    let here = position.frame;
    let up = stacks.frames.frames_up(here, callee.frames);
    stacks.frames.push_call(base, up, here, arguments)?;
    stacks.places.extend(callee.room)?;
    let records = &mut stacks.records.records;
    records.push_call(callee.next_address, here)?;
    position.address = callee.entry;
    position.frame = inner;
    Ok(())
}
