//! The parts of a term that is traversed, of which a stack has some: they are put there in portions, of which each has as many parts as the
//! traversal has come to. So a traversal that ends early, or waits, does not pay for the parts that it never comes to.
ghost use Rattle.std.specs.Prelude.{◌≡◌, ◌<◌, ◌≤◌, ◌+◌, min, IfOk, MatchOption, IsTrue, length, take};
ghost use Rattle.strat_machine.specs.Opened.{HasOpened};
ghost use Rattle.strat_machine.specs.Traversing.{HasNone, HasNoneAfter, TakesPart, TakesPortion};

use crate::records::{Records, Traversed};
use crate::stack::push_parts_between;
use std::alloc::AllocError;
use term_model::TermSpace;

/// The most parts of the first portion.
const FIRST_PORTION: usize = 8;

/// The next part of a traversal, and how many of the parts after it stand on the stack.
#[derive(Drop)]
pub(crate) struct TakenPart<R: Drop> {
    pub(crate) part: R,
    pub(crate) left: usize,
}

/// Puts the first portion of the parts of a term where those that are left stand, but for the first part, and returns that; `None` where
/// the term has none.
#[inline]
pub(crate) fn open_parts<S: TermSpace>(
    space: &S,
    records: &mut Records<S::Ref, S::Mark>,
    of: &S::Ref,
) -> Result<Option<TakenPart<S::Ref>>, AllocError>
    requires { IsTrue (S.space.stands space.now of.now) }
    ensures kept { IfOk result (λ _. records.new ≡ record records.old {
      left = records.new.left;
    }) }
    ensures part { IfOk result (λ found. MatchOption found
        (HasNoneAfter S.space space.now of.now 0 records.old.left records.new.left)
        (λ taken. TakesPortion S.space space.now of.now 0
        records.old.left taken.part taken.left records.new.left)) }
{
    take_portion(space, records, of, 0)
}

/// Takes the next part of a traversal, whose record is off, after the parts that are done and `tried` further ones; `None` where none is
/// left.
#[inline]
pub(crate) fn take_part<S: TermSpace>(
    space: &S,
    records: &mut Records<S::Ref, S::Mark>,
    traversed: &Traversed<S::Ref>,
    tried: usize,
) -> Result<Option<TakenPart<S::Ref>>, AllocError>
    requires stands { IsTrue (S.space.stands space.now traversed.now.whole) }
    requires enough { HasOpened S.space space.now traversed.now.whole
        (tried + length (take traversed.now.done records.old.done) +
        length (take traversed.now.left records.old.left)) }
    ensures kept { IfOk result (λ _. records.new ≡ record records.old {
      left = records.new.left;
    }) }
    ensures part { IfOk result (λ found. MatchOption found
        (HasNone S.space space.now traversed.now
        (tried + length (take traversed.now.done records.old.done))
        records.old.left records.new.left)
        (λ taken. TakesPart S.space space.now traversed.now
        (tried + length (take traversed.now.done records.old.done))
        records.old.left taken.part taken.left records.new.left)) }
{
    if let Some(part) = records.next_part(traversed.left) {
        let left = traversed.left.saturating_sub(1);
        return Ok(Some(TakenPart { part, left }));
    }
    if traversed.done.saturating_add(tried) < FIRST_PORTION {
        return Ok(None);
    }
    let Some(index) = tried.checked_add(records.done_count(traversed.done)) else {
        return Err(AllocError);
    };
    take_later_part(space, records, &traversed.whole, index)
}

/// Whether no part of a traversal is left, since it has come to fewer than a first portion may have.
#[inline]
pub(crate) fn is_at_end<R: Drop>(traversed: &Traversed<R>) -> bool
    ensures { IsTrue result → (traversed.now.left ≡ 0) × (traversed.now.done < FIRST_PORTION) }
{
    traversed.left == 0 && traversed.done < FIRST_PORTION
}

/// Takes the part at an index of a term that a traversal has come to, with a further portion. It is not inlined, so that the common case stays
/// small.
#[inline(never)]
fn take_later_part<S: TermSpace>(
    space: &S,
    records: &mut Records<S::Ref, S::Mark>,
    whole: &S::Ref,
    index: usize,
) -> Result<Option<TakenPart<S::Ref>>, AllocError>
    requires { IsTrue (S.space.stands space.now whole.now) }
    ensures kept { IfOk result (λ _. records.new ≡ record records.old {
      left = records.new.left;
    }) }
    ensures part { IfOk result (λ found. MatchOption found
        (HasNoneAfter S.space space.now whole.now index records.old.left records.new.left)
        (λ taken. TakesPortion S.space space.now whole.now index
        records.old.left taken.part taken.left records.new.left)) }
{
    take_portion(space, records, whole, index)
}

/// Takes the part at an index of a term, and puts the others of a portion where those that are left stand; `None` where the term has no
/// more parts.
#[inline(always)]
fn take_portion<S: TermSpace>(
    space: &S,
    records: &mut Records<S::Ref, S::Mark>,
    whole: &S::Ref,
    index: usize,
) -> Result<Option<TakenPart<S::Ref>>, AllocError>
    requires { IsTrue (S.space.stands space.now whole.now) }
    ensures kept { IfOk result (λ _. records.new ≡ record records.old {
      left = records.new.left;
    }) }
    ensures part { IfOk result (λ found. MatchOption found
        (HasNoneAfter S.space space.now whole.now index records.old.left records.new.left)
        (λ taken. TakesPortion S.space space.now whole.now index
        records.old.left taken.part taken.left records.new.left)) }
{
    let count = space.count(whole);
    if count <= index {
        return Ok(None);
    }
    let end = portion_end(index, count);
    push_parts_between(space, &mut records.left, whole, index, end)?;
    let Some(part) = records.next_part(end - index) else {
        return Err(AllocError);
    };
    let left = (end - index).saturating_sub(1);
    Ok(Some(TakenPart { part, left }))
}

/// The index at which the portion ends that begins at an index, of this number of parts.
fn portion_end(index: usize, count: usize) -> usize
    requires { index < count }
    ensures some { index < result }
    ensures within { result ≤ count }
    ensures enough { min FIRST_PORTION count ≤ result }
{
    let size = index.max(FIRST_PORTION);
    index + size.min(count - index)
}
