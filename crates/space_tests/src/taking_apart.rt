//! A client that takes terms apart over any space and makes them again.
ghost use Rattle.std.specs.Prelude.{◌≤◌, All, IfOk, IfSome, IsTrue, length};
ghost use Rattle.term_model.specs.Space.{Keeps};

use aterm_text::read_term;
use std::alloc::{AllocError, Global};
use std::test::Fail;
use term_model::{Made, Term, TermSpace, Top};

/// Texts of terms that are taken apart.
const TAKEN: &[&[u8]] = &[b"[2,F(1,2)]{1}", b"F(1,F(1)){[]}", b"7{1}", b"[1,1,1,1,1]"];

/// The term of these parts, if it is the one that is there.
fn same_again<S: TermSpace>(
    alloc: Global,
    space: &mut S,
    at: &S::Ref,
    parts: &[S::Ref],
) -> Result<Option<S::Ref>, AllocError>
    requires stands { IsTrue (S.space.stands space.old at.now) }
    requires stand { All (λ r. IsTrue (S.space.stands space.old r)) parts.now }
    ensures keeps { Keeps S.space space.old space.new }
    ensures stands { IfOk result (λ made. IfSome made (λ r. IsTrue (S.space.stands space.new r))) }
{
    if parts.len() != space.count(at) {
        return Ok(None);
    }
    match space.rebuild(alloc, at, parts)? {
        Made::Fits(again) if space.same(at, &again) => Ok(Some(again)),
        _ => Ok(None),
    }
}

/// The list of the first of these elements, as many as the place says, and then of those that the list has from the place on.
fn list_again<S: TermSpace>(
    alloc: Global,
    space: &mut S,
    at: &S::Ref,
    elements: &[S::Ref],
    place: usize,
) -> Result<Option<S::Ref>, AllocError>
    requires stands { IsTrue (S.space.stands space.old at.now) }
    requires stand { All (λ r. IsTrue (S.space.stands space.old r)) elements.now }
    requires place { place ≤ length elements.now }
    ensures keeps { Keeps S.space space.old space.new }
    ensures stands { IfOk result (λ made. IfSome made (λ r. IsTrue (S.space.stands space.new r))) }
{
    let Some(count) = space.list_len(at) else {
        return Ok(None);
    };
    if count < place {
        return Ok(None);
    }
    let others = space.rest(alloc, at, place)?;
    match space.prepend(alloc, &elements[..place], &others)? {
        Made::Fits(whole) => Ok(Some(whole)),
        Made::Oversize => Ok(None),
    }
}

/// The list that is put together at the place, if it is the list of these elements.
fn whole_again<S: TermSpace>(
    alloc: Global,
    space: &mut S,
    at: &S::Ref,
    elements: &[S::Ref],
    place: usize,
) -> Result<Option<S::Ref>, AllocError>
    requires stands { IsTrue (S.space.stands space.old at.now) }
    requires stand { All (λ r. IsTrue (S.space.stands space.old r)) elements.now }
    requires place { place ≤ length elements.now }
{
    let Made::Fits(list) = space.list(alloc, elements)? else {
        return Ok(None);
    };
    match list_again(alloc, space, at, elements, place)? {
        Some(whole) if space.same(&whole, &list) => Ok(Some(whole)),
        _ => Ok(None),
    }
}

/// Takes a term apart and makes it again, and a list from this place on; returns what was made last, where all is as it was.
pub(crate) fn takes_apart<S: TermSpace>(
    alloc: Global,
    space: &mut S,
    from: &Term,
    place: usize,
) -> Result<Option<S::Ref>, AllocError> {
    let at = space.enter(alloc, from)?;
    let mut stack = Vec::new(alloc);
    space.push_parts(&at, &mut stack)?;
    if stack.len() < place {
        return Ok(None);
    }
    let again = same_again(alloc, space, &at, &stack[..])?;
    if again.is_none() || space.list_len(&at).is_none() {
        return Ok(again);
    }
    whole_again(alloc, space, &at, &stack[..], place)
}

/// The second part of an application: as an integer, and as it is lent.
fn second<S: TermSpace>(
    alloc: Global,
    space: &mut S,
    from: &Term,
) -> Result<Option<(Option<i64>, Term)>, AllocError> {
    let at = space.enter(alloc, from)?;
    if space.count(&at) < 2 || !matches!(space.head(&at), Top::App(_)) {
        return Ok(None);
    }
    let part = space.part(&at, 1)?;
    let Some(lent) = space.shape(&at).parts.get(1) else {
        return Ok(None);
    };
    let term = space.leave(alloc, lent)?;
    Ok(Some((space.int_of(&part), term)))
}

/// Whether the term is as it was, wherever it is taken apart.
fn is_as_it_was<S: TermSpace>(alloc: Global, space: &mut S, text: &[u8]) -> Result<bool, Fail> {
    let term = read_term(alloc, text)?;
    for place in 0..term.children().len() {
        if takes_apart(alloc, space, &term, place)?.is_none() {
            return Ok(false);
        }
    }
    Ok(true)
}

/// Whether the second part of a pair is 2.
fn is_second<S: TermSpace>(alloc: Global, space: &mut S) -> Result<bool, Fail> {
    let pair = read_term(alloc, b"(1,2){3}")?;
    Ok(second(alloc, space, &pair)? == Some((Some(2), Term::int(alloc, 2)?)))
}

/// Takes terms apart over a space, and looks at their parts.
pub(crate) fn run_takers<S: TermSpace>(alloc: Global, space: &mut S) -> Result<(), Fail> {
    for text in TAKEN {
        if !is_as_it_was(alloc, space, text)? {
            return Err(Fail::new(text.escape_ascii()));
        }
    }
    if !is_second(alloc, space)? {
        return Err(Fail::new("another second part"));
    }
    Ok(())
}
