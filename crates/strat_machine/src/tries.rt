//! A part of a term is tried: the record that a failure on it goes back to.
ghost use Rattle.std.specs.Prelude.{OnOk, IsTrue};
ghost use Rattle.strat_machine.specs.Stacks.{TriesPart};
ghost use Rattle.strat_machine.specs.declared.records.Record.TheVariants as records;

use crate::records::Traversed;
use crate::stacks::{Position, Stacks};
use std::alloc::AllocError;
use term_model::TermSpace;

/// Tries a part of one(s), which is no longer among those that are left.
pub(crate) fn try_one<S: TermSpace>(
    space: &S,
    stacks: &mut Stacks<S::Ref, S::Mark>,
    traversed: Traversed<S::Ref>,
    part: S::Ref,
    position: &mut Position<S::Ref>,
) -> Result<(), AllocError>
    requires { IsTrue (S.space.stands space.now part) }
    ensures { OnOk result (TriesPart S.space space.now stacks.old (records.One traversed part)
        traversed.body
        position.old.frame part position.new stacks.new) }
{
    position.term = space.dup(&part)?;
    position.address = traversed.body;
    let saved = stacks.state_to_restore(position.frame);
    let mark = space.mark();
    stacks
        .records
        .records
        .push_one(traversed, part, saved, mark)?;
    stacks.places.guard();
    Ok(())
}

/// Tries a part of some(s), which is no longer among those that are left.
pub(crate) fn try_some<S: TermSpace>(
    space: &S,
    stacks: &mut Stacks<S::Ref, S::Mark>,
    traversed: Traversed<S::Ref>,
    part: S::Ref,
    found: bool,
    position: &mut Position<S::Ref>,
) -> Result<(), AllocError>
    requires { IsTrue (S.space.stands space.now part) }
    ensures { OnOk result (TriesPart S.space space.now stacks.old
        (records.Some traversed part found) traversed.body
        position.old.frame part position.new stacks.new) }
{
    position.term = space.dup(&part)?;
    position.address = traversed.body;
    let saved = stacks.state_to_restore(position.frame);
    let mark = space.mark();
    let records = &mut stacks.records.records;
    records.push_some(traversed, part, found, saved, mark)?;
    stacks.places.guard();
    Ok(())
}
