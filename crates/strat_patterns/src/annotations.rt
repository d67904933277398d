//! The annotations of a term, and the term without them.
ghost use Rattle.std.specs.Prelude.{◌≡◌, ◌↔◌, ◌<◌, IfOk, IsTrue, Some, [], length, slice_get};
ghost use Rattle.term_model.specs.Space.{Keeps};
ghost use Rattle.term_model.specs.Term.{term};
ghost use Rattle.term_model.specs.TermParts.{annos_of, head_of, parts_of};

use std::alloc::{AllocError, Global};
use term_model::{Made, TermSpace};

/// Whether a term has exactly `count` annotations. Goes along no more of them than that.
pub(crate) fn has_annos<S: TermSpace>(space: &S, at: &S::Ref, count: usize) -> bool
    requires { IsTrue (S.space.stands space.now at.now) }
    ensures { IsTrue result ↔ (length (annos_of (S.space.term_of space.now at.now)) ≡ count) }
{
    space.annos(at).has_len(count)
}

/// The annotation at an index.
pub(crate) fn anno<S: TermSpace>(space: &S, at: &S::Ref, index: usize) -> Result<S::Ref, AllocError>
    requires stands { IsTrue (S.space.stands space.now at.now) }
    requires within { index < length (annos_of (S.space.term_of space.now at.now)) }
    ensures stands { IfOk result (λ r. IsTrue (S.space.stands space.now r)) }
    ensures term { IfOk result (λ r. slice_get (annos_of (S.space.term_of space.now at.now)) index ≡
        Some (S.space.term_of space.now r)) }
{
    match space.shape(at).annos.get(index) {
        Some(reference) => { space.dup(reference) }
        None => unreachable!(),
    }
}

/// The term without its annotations: the same reference where it has none.
pub(crate) fn bare<S: TermSpace>(
    space: &mut S,
    alloc: Global,
    at: &S::Ref,
) -> Result<S::Ref, AllocError>
    requires { IsTrue (S.space.stands space.old at.now) }
    ensures keeps { Keeps S.space space.old space.new }
    ensures stands { IfOk result (λ r. IsTrue (S.space.stands space.new r)) }
    ensures term { IfOk result (λ r. S.space.term_of space.new r ≡
        term (head_of (S.space.term_of space.old at.now))
        (parts_of (S.space.term_of space.old at.now)) []) }
{
    if has_annos(space, at, 0) {
        let same = space.dup(at)?;
        return Ok(same);
    }
    match space.with_annos(alloc, at, &[])? {
        Made::Fits(reference) => Ok(reference),
        Made::Oversize => unreachable!(),
    }
}
