//! Steps that change the stacks alone.
ghost use Rattle.std.specs.Prelude.{◌≡◌, ℕ, suc, IsTrue, OnOk};
ghost use Rattle.term_model.specs.Flat.{Meaning};
ghost use Rattle.strat_code.specs.Code.{enter, leave, extend, shrink, commit, call_closure, end_definition, end_argument};
ghost use Rattle.strat_machine.specs.Stacks.{Performs, PutsChoice};
ghost use Rattle.strat_machine.specs.declared.stacks.Next.TheVariants.{Running};

use crate::stacks::{Next, Position, Stacks};
use core_lang::Coordinate;
use std::alloc::AllocError;
use term_model::TermSpace;

/// A new frame with `places` places.
pub(crate) fn enter_scope<S: TermSpace>(
    stacks: &mut Stacks<S::Ref, S::Mark>,
    places: usize,
    position: &mut Position<S::Ref>,
) -> Result<(), AllocError>
    ensures { OnOk result ((M : Meaning) (w : S) (n i : ℕ) → position.old.address ≡ suc i →
        Performs S.space M (enter n places) i position.old w stacks.old w Running position.new
        stacks.new) }
{
    let inner = stacks.frames.len();
    stacks
        .frames
        .push_scope(stacks.places.len(), position.frame)?;
    stacks.places.extend(places)?;
    position.frame = inner;
    Ok(())
}

/// The end of a frame.
pub(crate) fn leave_scope<S: TermSpace>(
    stacks: &mut Stacks<S::Ref, S::Mark>,
    position: &mut Position<S::Ref>,
) -> Next
    ensures { (M : Meaning) (w : S) (i : ℕ) → position.old.address ≡ suc i →
        Performs S.space M leave i position.old w stacks.old w result position.new stacks.new }
{
    let Some((base, up)) = stacks.frames.base_of(position.frame) else {
        return Next::Stuck;
    };
    if base < stacks.places.barrier() {
        return Next::Stuck;
    }
    stacks.places.cut(base);
    stacks.frames.cut(position.frame);
    position.frame = up;
    Next::Running
}

/// So many places more.
pub(crate) fn extend_scope<S: TermSpace>(
    stacks: &mut Stacks<S::Ref, S::Mark>,
    places: usize,
    position: &Position<S::Ref>,
) -> Result<(), AllocError>
    ensures { OnOk result ((M : Meaning) (w : S) (n i : ℕ) → position.now.address ≡ suc i →
        Performs S.space M (extend n places) i position.now w stacks.old w Running position.now
        stacks.new) }
{
    stacks.places.extend(places)
}

/// The end of `places` places.
pub(crate) fn shrink_scope<S: TermSpace>(
    stacks: &mut Stacks<S::Ref, S::Mark>,
    places: usize,
    position: &Position<S::Ref>,
) -> Next
    ensures { (M : Meaning) (w : S) (i : ℕ) → position.now.address ≡ suc i →
        Performs S.space M (shrink places) i position.now w stacks.old w result position.now
        stacks.new }
{
    let kept = stacks.places.len().saturating_sub(places);
    if kept < stacks.places.barrier() {
        return Next::Stuck;
    }
    stacks.places.cut(kept);
    Next::Running
}

/// Calls a strategy parameter.
pub(crate) fn call_parameter<S: TermSpace>(
    stacks: &mut Stacks<S::Ref, S::Mark>,
    parameter: Coordinate,
    position: &mut Position<S::Ref>,
) -> Result<(), AllocError>
    ensures { OnOk result ((M : Meaning) (w : S) (n i : ℕ) → position.old.address ≡ suc i →
        Performs S.space M (call_closure n parameter) i position.old w stacks.old w Running
        position.new stacks.new) }
{
    let closure = stacks.frames.closure_of(position.frame, parameter);
    let records = &mut stacks.records.records;
    records.push_call(position.address, position.frame)?;
    position.address = closure.entry as usize;
    position.frame = closure.frame as usize;
    Ok(())
}

/// The end of an argument's code.
pub(crate) fn leave_argument<S: TermSpace>(
    stacks: &mut Stacks<S::Ref, S::Mark>,
    position: &mut Position<S::Ref>,
) -> Next
    ensures { (M : Meaning) (w : S) (i : ℕ) →
        Performs S.space M end_argument i position.old w stacks.old w
        result position.new stacks.new }
{
    let Some((next_address, frame)) = stacks.records.pop_call() else {
        return Next::Stuck;
    };
    position.address = next_address;
    position.frame = frame;
    Next::Running
}

/// The end of a definition's code.
pub(crate) fn leave_definition<S: TermSpace>(
    stacks: &mut Stacks<S::Ref, S::Mark>,
    position: &mut Position<S::Ref>,
) -> Next
    ensures { (M : Meaning) (w : S) (i : ℕ) →
        Performs S.space M end_definition i position.old w stacks.old w result position.new
        stacks.new }
{
    let Some((next_address, frame)) = stacks.records.pop_call() else {
        return Next::Stuck;
    };
    let Some((base, _)) = stacks.frames.base_of(position.frame) else {
        return Next::Stuck;
    };
    if base < stacks.places.barrier() {
        return Next::Stuck;
    }
    stacks.end_frame(position.frame, base);
    position.address = next_address;
    position.frame = frame;
    Next::Running
}

/// Takes the choice record off.
pub(crate) fn commit_choice<S: TermSpace>(
    stacks: &mut Stacks<S::Ref, S::Mark>,
    next_address: usize,
    position: &mut Position<S::Ref>,
) -> Next
    ensures { (M : Meaning) (w : S) (n i : ℕ) →
        Performs S.space M (commit n next_address) i position.old w stacks.old w result position.new
        stacks.new }
{
    let Some(saved) = stacks.records.drop_choice() else {
        return Next::Stuck;
    };
    stacks.places.trim(saved.height, saved.barrier);
    position.address = next_address;
    Next::Running
}

/// Puts a choice record on, with the address at which a failure goes on.
pub(crate) fn put_choice<S: TermSpace>(
    space: &S,
    stacks: &mut Stacks<S::Ref, S::Mark>,
    otherwise: usize,
    position: &Position<S::Ref>,
) -> Result<(), AllocError>
    requires { IsTrue (S.space.stands space.now position.now.term) }
    ensures { OnOk result (PutsChoice S.space space.now stacks.old otherwise position.now
        stacks.new) }
{
    let term = space.dup(&position.term)?;
    let saved = stacks.state_to_restore(position.frame);
    let records = &mut stacks.records.records;
    records.push_choice(otherwise, term, saved, space.mark())?;
    stacks.places.guard();
    Ok(())
}
