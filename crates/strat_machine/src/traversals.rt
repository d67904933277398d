//! Traversals: the parts of a term one after another, and the whole made of what they have become.
ghost use Rattle.std.specs.Prelude.{◌≡◌, ◌≤◌, ◌+◌, ℕ, suc, IfOk, OnOk, IsTrue, true, false, [], ◌∷◌, ◌++◌, length, map, take, drop, reverse};
ghost use Rattle.term_model.specs.Flat.{Meaning};
ghost use Rattle.term_model.specs.Space.{Keeps};
ghost use Rattle.term_model.specs.TermParts.{parts_of};
ghost use Rattle.strat_code.specs.Code.{traverse, part_done};
ghost use Rattle.strat_code.specs.CodeOf.{traversal_of};
ghost use Rattle.strat_steps.specs.References.{AllRefs, record_tree};
ghost use Rattle.strat_machine.specs.CompactRecords.{HasNoAll};
ghost use Rattle.strat_machine.specs.RecordStack.{records_of, records_in};
ghost use Rattle.strat_machine.specs.Stacks.{Performs, IsSafe, state_of};
ghost use Rattle.strat_machine.specs.Opened.{AllOpened};
ghost use Rattle.strat_machine.specs.Traversing.{RebuildsTo, GoesOnAll, GoesOnSome, HasParts, HasTried, StaysOpened, TakesPortion, without_left};
ghost use Rattle.strat_machine.specs.declared.stacks.Next.TheVariants.{Running};
ghost use Rattle.strat_steps.specs.Counted.{AllCounted};

use crate::portions::{TakenPart, is_at_end, open_parts, take_part};
use crate::records::{Record, Traversed};
use crate::stacks::{Next, Position, Stacks};
use crate::tries::{try_one, try_some};
use std::alloc::{AllocError, Global};
use strat_code::Traversal;
use term_model::{Made, TermSpace};

/// Begins a traversal, whose code for a part is at the position.
pub(crate) fn traverse_parts<S: TermSpace>(
    space: &mut S,
    alloc: Global,
    stacks: &mut Stacks<S::Ref, S::Mark>,
    traversal: Traversal,
    next_address: usize,
    position: &mut Position<S::Ref>,
) -> Result<Next, AllocError>
    requires { IsTrue (S.space.stands space.old position.old.term) }
    ensures keeps { Keeps S.space space.old space.new }
    ensures step { IfOk result (λ next. (M : Meaning) (n i : ℕ) → position.old.address ≡ suc i →
        Performs S.space M (traverse n (traversal_of traversal) next_address) i position.old
        space.old stacks.old space.new next position.new stacks.new) }
    ensures stays { IfOk result (λ next. StaysOpened S.space (records_of stacks.old.records)
        space.new next position.new stacks.new) }
{
    let Some(taken) = open_parts(space, &mut stacks.records, &position.term)? else {
        let Traversal::All = traversal else {
            return Ok(Next::Failing);
        };
        position.address = next_address;
        return Ok(Next::Running);
    };
    begin_parts(space, stacks, traversal, next_address, taken, position)?;
    Ok(Next::Running)
}

/// Goes on with the first part of a term, which was taken, with the record of a traversal of this kind.
fn begin_parts<S: TermSpace>(
    space: &S,
    stacks: &mut Stacks<S::Ref, S::Mark>,
    traversal: Traversal,
    next_address: usize,
    taken: TakenPart<S::Ref>,
    position: &mut Position<S::Ref>,
) -> Result<(), AllocError>
    requires stands { IsTrue (S.space.stands space.now position.old.term) }
    requires taken { TakesPortion S.space space.now position.old.term 0
        (drop taken.left stacks.old.records.left) taken.part taken.left stacks.old.records.left }
    ensures step { OnOk result ((M : Meaning) (n i : ℕ) → position.old.address ≡ suc i →
        Performs S.space M (traverse n (traversal_of traversal) next_address) i position.old
        space.now (without_left taken.left stacks.old) space.now Running position.new stacks.new) }
    ensures stays { OnOk result (StaysOpened S.space
        (records_of (without_left taken.left stacks.old).records)
        space.now Running position.new stacks.new) }
{
    let traversed = Traversed {
        body: position.address,
        next_address,
        whole: space.dup(&position.term)?,
        done: 0,
        left: taken.left,
    };
    match traversal {
        Traversal::All => {
            position.term = taken.part;
            stacks.records.records.push_all(traversed)?;
            Ok(())
        }
        Traversal::One => {
            try_one(space, stacks, traversed, taken.part, position)?;
            Ok(())
        }
        Traversal::Some => {
            try_some(space, stacks, traversed, taken.part, false, position)?;
            Ok(())
        }
    }
}

/// Goes on with the next part of all(s), whose record is off, or makes the whole.
#[inline(never)]
fn next_of_all<S: TermSpace>(
    space: &mut S,
    alloc: Global,
    stacks: &mut Stacks<S::Ref, S::Mark>,
    traversed: Traversed<S::Ref>,
    position: &mut Position<S::Ref>,
) -> Result<Next, AllocError>
    requires { HasParts S.space space.old stacks.old.records traversed }
    ensures keeps { Keeps S.space space.old space.new }
    ensures step { IfOk result (λ next. GoesOnAll S.space space.old stacks.old traversed
        (take traversed.done stacks.old.records.done) position.old.frame
        space.new next position.new stacks.new) }
{
    let Some(taken) = take_part(space, &mut stacks.records, &traversed, 0)? else {
        return rebuild_whole(space, alloc, stacks, traversed, position);
    };
    let others = traversed.with_left(taken.left);
    position.address = others.body;
    position.term = taken.part;
    stacks.records.records.push_all(others)?;
    Ok(Next::Running)
}

/// Goes on with the next part of some(s), whose record is off; where none is left, makes the whole or fails.
fn next_of_some<S: TermSpace>(
    space: &mut S,
    alloc: Global,
    stacks: &mut Stacks<S::Ref, S::Mark>,
    traversed: Traversed<S::Ref>,
    found: bool,
    position: &mut Position<S::Ref>,
) -> Result<Next, AllocError>
    requires { HasParts S.space space.old stacks.old.records traversed }
    ensures keeps { Keeps S.space space.old space.new }
    ensures step { IfOk result (λ next. GoesOnSome S.space space.old stacks.old traversed
        (take traversed.done stacks.old.records.done) found position.old.frame
        space.new next position.new stacks.new) }
{
    let Some(taken) = take_part(space, &mut stacks.records, &traversed, 0)? else {
        if found {
            return rebuild_whole(space, alloc, stacks, traversed, position);
        }
        stacks.records.cut(traversed.done, traversed.left);
        return Ok(Next::Failing);
    };
    let others = traversed.with_left(taken.left);
    try_some(space, stacks, others, taken.part, found, position)?;
    Ok(Next::Running)
}

/// Makes the whole of what the first parts have become, and of the parts after them.
fn rebuild_whole<S: TermSpace>(
    space: &mut S,
    alloc: Global,
    stacks: &mut Stacks<S::Ref, S::Mark>,
    traversed: Traversed<S::Ref>,
    position: &mut Position<S::Ref>,
) -> Result<Next, AllocError>
    requires whole { IsTrue (S.space.stands space.old traversed.whole) }
    requires parts { AllRefs (λ r. IsTrue (S.space.stands space.old r))
        (take traversed.done stacks.old.records.done) }
    requires count { length (take traversed.done stacks.old.records.done) ≤
        length (parts_of (S.space.term_of space.old traversed.whole)) }
    ensures keeps { Keeps S.space space.old space.new }
    ensures step { IfOk result (λ next. RebuildsTo S.space space.old traversed.whole
        (reverse (take traversed.done stacks.old.records.done)) stacks.old
        (records_in stacks.old.records.records (drop traversed.done stacks.old.records.done)
        (drop traversed.left stacks.old.records.left)) traversed.next_address position.old.frame
        space.new (state_of next position.new stacks.new)) }
{
    let parts = stacks.records.done.newest(traversed.done);
    let made = space.rebuild(alloc, &traversed.whole, parts)?;
    stacks.records.cut(traversed.done, traversed.left);
    match made {
        Made::Fits(term) => {
            position.address = traversed.next_address;
            position.term = term;
            Ok(Next::Running)
        }
        Made::Oversize => Ok(Next::Oversize),
    }
}

/// The end of the code for a part.
pub(crate) fn end_part<S: TermSpace>(
    space: &mut S,
    alloc: Global,
    stacks: &mut Stacks<S::Ref, S::Mark>,
    position: &mut Position<S::Ref>,
) -> Result<Next, AllocError>
    requires stands { IsTrue (S.space.stands space.old position.old.term) }
    requires safe { IsSafe S.space space.old stacks.old (records_of stacks.old.records) }
    requires counted { AllCounted (map (record_tree (S.space.term_of space.old))
        (records_of stacks.old.records)) }
    requires opened { AllOpened S.space space.old (records_of stacks.old.records) }
    ensures keeps { Keeps S.space space.old space.new }
    ensures step { IfOk result (λ next. (M : Meaning) (i : ℕ) →
        Performs S.space M part_done i position.old space.old stacks.old space.new next position.new
        stacks.new) }
    ensures stays { IfOk result (λ next. StaysOpened S.space (records_of stacks.old.records)
        space.new next position.new stacks.new) }
{
    if stacks.records.records.is_all() {
        return end_part_of_all(space, alloc, stacks, position);
    }
    end_tried_part(space, alloc, stacks, position)
}

/// A part has become this, where the newest record is not of all(s). It is not inlined, so that the loop of the machine stays small.
#[inline(never)]
fn end_tried_part<S: TermSpace>(
    space: &mut S,
    alloc: Global,
    stacks: &mut Stacks<S::Ref, S::Mark>,
    position: &mut Position<S::Ref>,
) -> Result<Next, AllocError>
    requires stands { IsTrue (S.space.stands space.old position.old.term) }
    requires safe { IsSafe S.space space.old stacks.old (records_of stacks.old.records) }
    requires counted { AllCounted (map (record_tree (S.space.term_of space.old))
        (records_of stacks.old.records)) }
    requires all { HasNoAll stacks.old.records.records }
    requires opened { AllOpened S.space space.old (records_of stacks.old.records) }
    ensures keeps { Keeps S.space space.old space.new }
    ensures step { IfOk result (λ next. (M : Meaning) (i : ℕ) →
        Performs S.space M part_done i position.old space.old stacks.old space.new next position.new
        stacks.new) }
    ensures stays { IfOk result (λ next. StaysOpened S.space (records_of stacks.old.records)
        space.new next position.new stacks.new) }
{
    let Some(record) = stacks.records.records.pop() else {
        return Ok(Next::Stuck);
    };
    match record {
        Record::Call { .. } => Ok(Next::Stuck),
        Record::Choice { .. } => Ok(Next::Stuck),
        Record::All { .. } => unreachable!(),
        Record::One {
            traversed,
            saved,
            ..
        } => {
            stacks.places.trim(saved.height, saved.barrier);
            end_part_of_one(space, alloc, stacks, traversed, position)
        }
        Record::Some {
            traversed,
            saved,
            ..
        } => {
            stacks.places.trim(saved.height, saved.barrier);
            end_part_of_some(space, alloc, stacks, traversed, position)
        }
    }
}

/// A part of all(s), whose record is on, has become this.
fn end_part_of_all<S: TermSpace>(
    space: &mut S,
    alloc: Global,
    stacks: &mut Stacks<S::Ref, S::Mark>,
    position: &mut Position<S::Ref>,
) -> Result<Next, AllocError>
    requires stands { IsTrue (S.space.stands space.old position.old.term) }
    requires safe { IsSafe S.space space.old stacks.old (records_of stacks.old.records) }
    requires counted { AllCounted (map (record_tree (S.space.term_of space.old))
        (records_of stacks.old.records)) }
    requires all { HasNoAll stacks.old.records.records → stacks.old.records.records ≡ [] }
    requires opened { AllOpened S.space space.old (records_of stacks.old.records) }
    ensures keeps { Keeps S.space space.old space.new }
    ensures step { IfOk result (λ next. (M : Meaning) (i : ℕ) →
        Performs S.space M part_done i position.old space.old stacks.old space.new next position.new
        stacks.new) }
    ensures stays { IfOk result (λ next. StaysOpened S.space (records_of stacks.old.records)
        space.new next position.new stacks.new) }
{
    let records = &mut stacks.records;
    if let Some((body, part)) = records.records.advance_all(&mut records.left) {
        let done = space.dup(&position.term)?;
        records.done.push(done)?;
        position.address = body;
        position.term = part;
        return Ok(Next::Running);
    }
    let Some(traversed) = stacks.records.records.pop_all() else {
        return Ok(Next::Stuck);
    };
    end_part_off(space, alloc, stacks, traversed, position)
}

/// A part of all(s), whose record is off, has become this.
fn end_part_off<S: TermSpace>(
    space: &mut S,
    alloc: Global,
    stacks: &mut Stacks<S::Ref, S::Mark>,
    traversed: Traversed<S::Ref>,
    position: &mut Position<S::Ref>,
) -> Result<Next, AllocError>
    requires { HasTried S.space space.old stacks.old.records traversed position.old.term }
    ensures keeps { Keeps S.space space.old space.new }
    ensures step { IfOk result (λ next. GoesOnAll S.space space.old stacks.old traversed
        (position.old.term ∷ take traversed.done stacks.old.records.done) position.old.frame
        space.new next position.new stacks.new) }
{
    let done = space.dup(&position.term)?;
    stacks.records.done.push(done)?;
    let more = traversed.one_more()?;
    if is_at_end(&more) {
        return rebuild_whole(space, alloc, stacks, more, position);
    }
    next_of_all(space, alloc, stacks, more, position)
}

/// The part of one(s), whose record is off, has become this: the whole is made.
fn end_part_of_one<S: TermSpace>(
    space: &mut S,
    alloc: Global,
    stacks: &mut Stacks<S::Ref, S::Mark>,
    traversed: Traversed<S::Ref>,
    position: &mut Position<S::Ref>,
) -> Result<Next, AllocError>
    requires { HasTried S.space space.old stacks.old.records traversed position.old.term }
    ensures keeps { Keeps S.space space.old space.new }
    ensures step { IfOk result (λ next. RebuildsTo S.space space.old traversed.whole
        (reverse (take traversed.done stacks.old.records.done) ++ position.old.term ∷
        take traversed.left stacks.old.records.left) stacks.old
        (records_in stacks.old.records.records (drop traversed.done stacks.old.records.done)
        (drop traversed.left stacks.old.records.left)) traversed.next_address position.old.frame
        space.new (state_of next position.new stacks.new)) }
{
    let done = space.dup(&position.term)?;
    stacks.records.done.push(done)?;
    let records = &mut stacks.records;
    let moved = records.left.move_to(&mut records.done, traversed.left)?;
    let ended = traversed.with_part_done(moved)?;
    rebuild_whole(space, alloc, stacks, ended, position)
}

/// A part of some(s), whose record is off, has become this.
fn end_part_of_some<S: TermSpace>(
    space: &mut S,
    alloc: Global,
    stacks: &mut Stacks<S::Ref, S::Mark>,
    traversed: Traversed<S::Ref>,
    position: &mut Position<S::Ref>,
) -> Result<Next, AllocError>
    requires { HasTried S.space space.old stacks.old.records traversed position.old.term }
    ensures keeps { Keeps S.space space.old space.new }
    ensures step { IfOk result (λ next. GoesOnSome S.space space.old stacks.old traversed
        (position.old.term ∷ take traversed.done stacks.old.records.done) true position.old.frame
        space.new next position.new stacks.new) }
{
    let done = space.dup(&position.term)?;
    stacks.records.done.push(done)?;
    let more = traversed.one_more()?;
    next_of_some(space, alloc, stacks, more, true, position)
}
