//! A client that changes the parts and the annotations of terms over any space, and writes what it made.
ghost use Rattle.std.specs.Prelude.{◌≡◌, ◌≤◌, All, IfOk, IsTrue, length};
ghost use Rattle.term_model.specs.Space.{Keeps};
ghost use Rattle.term_model.specs.TermParts.{parts_of};

use aterm_text::{read_term, write_term};
use std::alloc::{AllocError, Global};
use std::test::Fail;
use term_model::{Made, Term, TermSpace};

/// Texts of terms with two parts, and what `change_term` makes of each.
const CHANGED: &[(&[u8], &[u8])] = &[
    (b"[1,2]{7}", b"[2,1]{7} [1,2]{2,1} [2] "),
    (b"[F,F]{F}", b"[F,F]{F} [F,F]{F,F} [F] "),
    (b"F(1,2){7}", b"F(2,1){7} F(1,2){2,1} "),
    (b"(1,[3]){7,8}", b"([3],1){7,8} (1,[3]){[3],1} "),
];

/// Writes the term of the reference, and a space.
fn write_term_of<S: TermSpace>(
    alloc: Global,
    space: &S,
    at: &S::Ref,
    written: &mut Vec<u8>,
) -> Result<(), AllocError>
    requires { IsTrue (S.space.stands space.now at.now) }
{
    write_term(&space.leave(alloc, at)?, written)?;
    written.push(b' ')?;
    Ok(())
}

/// Writes the term with these parts.
fn write_rebuilt<S: TermSpace>(
    alloc: Global,
    space: &mut S,
    at: &S::Ref,
    parts: &[S::Ref],
    written: &mut Vec<u8>,
) -> Result<(), AllocError>
    requires stands { IsTrue (S.space.stands space.old at.now) }
    requires stand { All (λ r. IsTrue (S.space.stands space.old r)) parts.now }
    requires count { length parts.now ≡ length (parts_of (S.space.term_of space.old at.now)) }
    ensures keeps { Keeps S.space space.old space.new }
{
    match space.rebuild(alloc, at, parts)? {
        Made::Fits(made) => write_term_of(alloc, space, &made, written),
        Made::Oversize => Ok(()),
    }
}

/// Writes the term with these annotations.
fn write_noted<S: TermSpace>(
    alloc: Global,
    space: &mut S,
    at: &S::Ref,
    annos: &[S::Ref],
    written: &mut Vec<u8>,
) -> Result<(), AllocError>
    requires stands { IsTrue (S.space.stands space.old at.now) }
    requires stand { All (λ r. IsTrue (S.space.stands space.old r)) annos.now }
    ensures keeps { Keeps S.space space.old space.new }
{
    match space.with_annos(alloc, at, annos)? {
        Made::Fits(made) => write_term_of(alloc, space, &made, written),
        Made::Oversize => Ok(()),
    }
}

/// Writes the list after its first element; nothing of another term.
fn write_rest<S: TermSpace>(
    alloc: Global,
    space: &mut S,
    at: &S::Ref,
    written: &mut Vec<u8>,
) -> Result<(), AllocError>
    requires stands { IsTrue (S.space.stands space.old at.now) }
    requires some { 1 ≤ length (parts_of (S.space.term_of space.old at.now)) }
{
    if space.list_len(at).is_none() {
        return Ok(());
    }
    let rest = space.rest(alloc, at, 1)?;
    write_term_of(alloc, space, &rest, written)
}

/// The two parts of the term, the second one first.
fn turned_parts<S: TermSpace>(
    alloc: Global,
    space: &S,
    at: &S::Ref,
) -> Result<Vec<S::Ref>, AllocError>
    requires stands { IsTrue (S.space.stands space.now at.now) }
    requires two { length (parts_of (S.space.term_of space.now at.now)) ≡ 2 }
    ensures stand { IfOk result (λ made.
        All (λ r. IsTrue (S.space.stands space.now r)) made.items) }
    ensures two { IfOk result (λ made. length made.items ≡ 2) }
{
    let mut turned = Vec::new(alloc);
    turned.push(space.part(at, 1)?)?;
    turned.push(space.part(at, 0)?)?;
    Ok(turned)
}

/// Writes a term with its two parts the other way round, with these as its annotations, and the list after its first
/// element.
fn change_term<S: TermSpace>(
    alloc: Global,
    space: &mut S,
    from: &Term,
    written: &mut Vec<u8>,
) -> Result<(), AllocError> {
    let at = space.enter(alloc, from)?;
    if space.count(&at) != 2 {
        return Ok(());
    }
    let turned = turned_parts(alloc, space, &at)?;
    write_rebuilt(alloc, space, &at, &turned[..], written)?;
    write_noted(alloc, space, &at, &turned[..], written)?;
    write_rest(alloc, space, &at, written)
}

/// Changes terms over a space.
pub(crate) fn run_changes<S: TermSpace>(alloc: Global, space: &mut S) -> Result<(), Fail> {
    for (text, wanted) in CHANGED {
        let mut written = Vec::new(alloc);
        change_term(alloc, space, &read_term(alloc, text)?, &mut written)?;
        if &written[..] != *wanted {
            return Err(Fail::new(text.escape_ascii()));
        }
    }
    Ok(())
}
