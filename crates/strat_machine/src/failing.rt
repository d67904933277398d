//! Steps after a failure.
ghost use Rattle.std.specs.Prelude.{◌≡◌, [], IfOk, IsTrue};
ghost use Rattle.strat_steps.specs.Marks.{MarksCover};
ghost use Rattle.term_model.specs.Space.{KeepsNames};
ghost use Rattle.term_model.specs.Flat.{Meaning};
ghost use Rattle.strat_code.specs.Code.{Code};
ghost use Rattle.strat_machine.specs.CompactRecords.{HasNoCall, HasNoChoice};
ghost use Rattle.strat_machine.specs.RecordStack.{records_of, with_record};
ghost use Rattle.strat_machine.specs.Opened.{AllOpened};
ghost use Rattle.strat_machine.specs.Stacks.{FailsTo, IsSafe};
ghost use Rattle.strat_machine.specs.declared.stacks.Next.TheVariants.{Running};

use crate::compact_records::Choice;
use crate::portions::take_part;
use crate::records::{Record, Saved, Traversed};
use crate::stacks::{Next, Position, Stacks};
use crate::tries::{try_one, try_some};
use std::alloc::AllocError;
use term_model::TermSpace;

/// Takes the newest record off, and goes back to it where it is one to go back to.
pub(crate) fn fail<S: TermSpace>(
    space: &mut S,
    stacks: &mut Stacks<S::Ref, S::Mark>,
    position: &mut Position<S::Ref>,
) -> Result<Next, AllocError>
    requires safe { IsSafe S.space space.old stacks.old (records_of stacks.old.records) }
    requires opened { AllOpened S.space space.old (records_of stacks.old.records) }
    ensures names { KeepsNames S.space space.old space.new }
    ensures covered { (r : S.Ref) → MarksCover S.space r (records_of stacks.old.records) →
        IsTrue (S.space.stands space.old r) → IsTrue (S.space.stands space.new r) ×
        (S.space.term_of space.new r ≡ S.space.term_of space.old r) }
    ensures step { IfOk result (λ next. (code : Code) (M : Meaning) →
        FailsTo S.space code M space.old stacks.old (records_of stacks.old.records) space.new next
        position.new stacks.new) }
{
    if stacks.records.records.is_choice() {
        return Ok(fail_newest_choice(space, stacks, position));
    }
    if stacks.records.records.is_call() {
        let _call = stacks.records.records.pop_call();
        return Ok(Next::Failing);
    }
    fail_traversal(space, stacks, position)
}

/// After a failure where the newest record is neither of a choice nor of a call.
fn fail_traversal<S: TermSpace>(
    space: &mut S,
    stacks: &mut Stacks<S::Ref, S::Mark>,
    position: &mut Position<S::Ref>,
) -> Result<Next, AllocError>
    requires safe { IsSafe S.space space.old stacks.old (records_of stacks.old.records) }
    requires call { HasNoCall stacks.old.records.records }
    requires choice { HasNoChoice stacks.old.records.records }
    requires opened { AllOpened S.space space.old (records_of stacks.old.records) }
    ensures names { KeepsNames S.space space.old space.new }
    ensures covered { (r : S.Ref) → MarksCover S.space r (records_of stacks.old.records) →
        IsTrue (S.space.stands space.old r) → IsTrue (S.space.stands space.new r) ×
        (S.space.term_of space.new r ≡ S.space.term_of space.old r) }
    ensures step { IfOk result (λ next. (code : Code) (M : Meaning) →
        FailsTo S.space code M space.old stacks.old (records_of stacks.old.records) space.new next
        position.new stacks.new) }
{
    let Some(record) = stacks.records.records.pop() else {
        return Ok(Next::Failed);
    };
    match record {
        Record::Call { .. } => unreachable!(),
        Record::All { traversed } => {
            stacks.records.cut(traversed.done, traversed.left);
            Ok(Next::Failing)
        }
        Record::Choice { .. } => unreachable!(),
        Record::One {
            traversed,
            part,
            saved,
            mark,
        } => fail_one(space, stacks, traversed, part, saved, mark, position),
        Record::Some {
            traversed,
            part,
            found,
            saved,
            mark,
        } => fail_some(space, stacks, traversed, part, found, saved, mark, position),
    }
}

/// After a failure in the first alternative of a choice, whose record is on.
fn fail_newest_choice<S: TermSpace>(
    space: &mut S,
    stacks: &mut Stacks<S::Ref, S::Mark>,
    position: &mut Position<S::Ref>,
) -> Next
    requires safe { IsSafe S.space space.old stacks.old (records_of stacks.old.records) }
    requires choice { HasNoChoice stacks.old.records.records → stacks.old.records.records ≡ [] }
    ensures names { KeepsNames S.space space.old space.new }
    ensures covered { (r : S.Ref) → MarksCover S.space r (records_of stacks.old.records) →
        IsTrue (S.space.stands space.old r) → IsTrue (S.space.stands space.new r) ×
        (S.space.term_of space.new r ≡ S.space.term_of space.old r) }
    ensures step { (code : Code) (M : Meaning) →
        FailsTo S.space code M space.old stacks.old (records_of stacks.old.records) space.new result
        position.new stacks.new }
{
    let Some(choice) = stacks.records.records.pop_choice() else {
        return Next::Failed;
    };
    let Choice {
        otherwise,
        term,
        saved,
        mark,
    } = choice;
    fail_choice(space, stacks, otherwise, term, saved, mark, position);
    Next::Running
}

/// After a failure in the first alternative of a choice, whose record is off.
fn fail_choice<S: TermSpace>(
    space: &mut S,
    stacks: &mut Stacks<S::Ref, S::Mark>,
    otherwise: usize,
    term: S::Ref,
    saved: Saved,
    mark: S::Mark,
    position: &mut Position<S::Ref>,
)
    requires { IsSafe S.space space.old stacks.old
        (with_record (Record.Choice otherwise term saved mark) stacks.old.records) }
    ensures names { KeepsNames S.space space.old space.new }
    ensures covered { (r : S.Ref) → MarksCover S.space r
        (with_record (Record.Choice otherwise term saved mark) stacks.old.records) →
        IsTrue (S.space.stands space.old r) → IsTrue (S.space.stands space.new r) ×
        (S.space.term_of space.new r ≡ S.space.term_of space.old r) }
    ensures step { (code : Code) (M : Meaning) →
        FailsTo S.space code M space.old stacks.old
        (with_record (Record.Choice otherwise term saved mark) stacks.old.records) space.new Running
        position.new stacks.new }
{
    space.back_to(mark); // Gives back what the first alternative made.
    stacks.places.go_back(saved.height, saved.barrier);
    stacks.frames.cut(saved.frames);
    position.address = otherwise;
    position.frame = saved.frame;
    position.term = term;
}

/// After a failure on a part of one(s), whose record is off: the next part is tried, if there is one.
fn fail_one<S: TermSpace>(
    space: &mut S,
    stacks: &mut Stacks<S::Ref, S::Mark>,
    traversed: Traversed<S::Ref>,
    part: S::Ref,
    saved: Saved,
    mark: S::Mark,
    position: &mut Position<S::Ref>,
) -> Result<Next, AllocError>
    requires safe { IsSafe S.space space.old stacks.old
        (with_record (Record.One traversed part saved mark) stacks.old.records) }
    requires opened { AllOpened S.space space.old
        (with_record (Record.One traversed part saved mark) stacks.old.records) }
    ensures names { KeepsNames S.space space.old space.new }
    ensures covered { (r : S.Ref) → MarksCover S.space r
        (with_record (Record.One traversed part saved mark) stacks.old.records) →
        IsTrue (S.space.stands space.old r) → IsTrue (S.space.stands space.new r) ×
        (S.space.term_of space.new r ≡ S.space.term_of space.old r) }
    ensures step { IfOk result (λ next. (code : Code) (M : Meaning) →
        FailsTo S.space code M space.old stacks.old
        (with_record (Record.One traversed part saved mark) stacks.old.records) space.new next
        position.new stacks.new) }
{
    space.back_to(mark); // Gives back what was made of the part that failed.
    stacks.places.go_back(saved.height, saved.barrier);
    stacks.frames.cut(saved.frames);
    let Some(taken) = take_part(space, &mut stacks.records, &traversed, 1)? else {
        stacks.records.cut(traversed.done, traversed.left);
        return Ok(Next::Failing);
    };
    let others = traversed.one_more()?.with_left(taken.left);
    stacks.records.done.push(part)?;
    position.frame = saved.frame;
    try_one(space, stacks, others, taken.part, position)?;
    Ok(Next::Running)
}

/// After a failure on a part of some(s), whose record is off: the next part is tried, or the traversal ends.
fn fail_some<S: TermSpace>(
    space: &mut S,
    stacks: &mut Stacks<S::Ref, S::Mark>,
    traversed: Traversed<S::Ref>,
    part: S::Ref,
    found: bool,
    saved: Saved,
    mark: S::Mark,
    position: &mut Position<S::Ref>,
) -> Result<Next, AllocError>
    requires safe { IsSafe S.space space.old stacks.old
        (with_record (Record.Some traversed part found saved mark) stacks.old.records) }
    requires opened { AllOpened S.space space.old
        (with_record (Record.Some traversed part found saved mark) stacks.old.records) }
    ensures names { KeepsNames S.space space.old space.new }
    ensures covered { (r : S.Ref) → MarksCover S.space r
        (with_record (Record.Some traversed part found saved mark) stacks.old.records) →
        IsTrue (S.space.stands space.old r) → IsTrue (S.space.stands space.new r) ×
        (S.space.term_of space.new r ≡ S.space.term_of space.old r) }
    ensures step { IfOk result (λ next. (code : Code) (M : Meaning) →
        FailsTo S.space code M space.old stacks.old
        (with_record (Record.Some traversed part found saved mark) stacks.old.records) space.new
        next position.new stacks.new) }
{
    space.back_to(mark); // Gives back what was made of it, and of no part before it.
    stacks.places.go_back(saved.height, saved.barrier);
    stacks.frames.cut(saved.frames);
    let Some(taken) = take_part(space, &mut stacks.records, &traversed, 1)? else {
        if !found {
            stacks.records.cut(traversed.done, traversed.left);
            return Ok(Next::Failing);
        }
        position.address = traversed.next_address.saturating_sub(1);
        position.frame = saved.frame;
        position.term = part;
        stacks.records.left.cut(traversed.left);
        stacks.records.records.push_all(traversed.with_left(0))?;
        return Ok(Next::Running);
    };
    let others = traversed.one_more()?.with_left(taken.left);
    stacks.records.done.push(part)?;
    position.frame = saved.frame;
    try_some(space, stacks, others, taken.part, found, position)?;
    Ok(Next::Running)
}
