//! Brackets that open and close.
ghost use Rattle.std.specs.Prelude.{◌≡◌, ◌==◌, ◌≤◌, ◌<◌, ◌+◌, List, [], ◌∷◌, ◌++◌, length, slice_index, IfOk, OnOk, IsTrue, true, false};
ghost use Rattle.aterm_text.specs.Brackets.{Closing, Holds, IsAt, IsPushed, IsPut, Keeping, Reached, closing, next_after};
ghost use Rattle.aterm_text.specs.Depth.{Open};
ghost use Rattle.aterm_text.specs.Reading.{closed, Named};
ghost use Rattle.term_model.specs.declared.term.Head.TheVariants.{App};
ghost use Rattle.term_model.specs.Space.{Keeps};
ghost use Rattle.term_model.specs.Term.{Tree, node, end};

use crate::open::{Bracket, Enclosing, Next, Reader};
use crate::scan::blanks_end;
use std::alloc::{AllocError, Global};
use term_model::{Made, TermSpace};

/// The byte that closes the bracket.
#[inline(always)]
pub(crate) fn closer<N: Drop>(enclosing: &Enclosing<N>) -> u8
    ensures { result ≡ closing enclosing.now }
{
    match enclosing {
        Enclosing::Parts(_) => b')',
        Enclosing::Elements => b']',
        Enclosing::Annotations => b'}',
    }
}

/// Puts a term in place of those from the bottom on, if it fits.
#[inline(always)]
pub(crate) fn put<R: Drop, N: Drop>(
    reader: &mut Reader<R, N>,
    bottom: usize,
    made: Made<R>,
) -> Result<(), AllocError>
    ensures { OnOk result (IsPut made bottom reader.old reader.new) }
{
    reader.terms.truncate(bottom);
    match made {
        Made::Fits(term) => reader.terms.push(term)?,
        Made::Oversize => reader.fits = false,
    }
    Ok(())
}

/// Opens a bracket.
#[inline(always)]
pub(crate) fn open<R: Drop, N: Drop>(
    reader: &mut Reader<R, N>,
    enclosing: Enclosing<N>,
) -> Result<(), AllocError>
    ensures { OnOk result (IsPushed enclosing reader.old reader.new) }
{
    let bottom = reader.terms.len();
    reader.open.push(Bracket { enclosing, bottom })?;
    Ok(())
}

/// What may come after a bracket that closes.
fn after_closing<N: Drop>(enclosing: &Enclosing<N>) -> Next
    ensures { result ≡ next_after enclosing.now }
{
    match enclosing {
        Enclosing::Parts(_) | Enclosing::Elements => Next::Whole,
        Enclosing::Annotations => Next::Done,
    }
}

/// Closes a bracket that was taken off: the terms in it become one, and one that does not fit where any of those so far does not.
pub(crate) fn close<S: TermSpace>(
    space: &mut S,
    alloc: Global,
    reader: &mut Reader<S::Ref, S::Name>,
    bracket: Bracket<S::Name>,
) -> Result<Next, AllocError>
    requires { (o : Open) × (s : List Open) × (ts : List Tree) ×
        Closing S.space space.old reader.old bracket o s ts }
    ensures keeps { Keeps S.space space.old space.new }
    ensures closed { (o : Open) (s : List Open) (ts : List Tree) →
        Closing S.space space.old reader.old bracket o s ts →
        IfOk result (λ next. IsAt S.space space.new reader.new next
        (closed o.opening ts s)) }
{
    if !reader.fits {
        return Ok(after_closing(&bracket.enclosing));
    }
    let bottom = bracket.bottom;
    match &bracket.enclosing {
        Enclosing::Parts(name) => {
            let made = space.app(alloc, name, &reader.terms[bottom..])?;
            put(reader, bottom, made)?;
            Ok(Next::Whole)
        }
        Enclosing::Elements => {
            let made = space.list(alloc, &reader.terms[bottom..])?;
            put(reader, bottom, made)?;
            Ok(Next::Whole)
        }
        Enclosing::Annotations => {
            let below = bottom - 1;
            let made = space.with_annos(alloc, &reader.terms[below], &reader.terms[bottom..])?;
            put(reader, below, made)?;
            Ok(Next::Done)
        }
    }
}

/// A symbol that ends before the index: it is applied where a bracket follows.
#[inline(always)]
pub(crate) fn apply<S: TermSpace>(
    space: &mut S,
    alloc: Global,
    reader: &mut Reader<S::Ref, S::Name>,
    name: S::Name,
    text: &[u8],
    index: usize,
) -> Result<(Next, usize), AllocError>
    requires known { IsTrue (S.space.knows space.old name) }
    requires at { Holds S.space space.old text.now reader.old []
        (Named (S.space.symbol_of space.old name)) index }
    ensures keeps { Keeps S.space space.old space.new }
    ensures low { IfOk result (λ r. index ≤ r.1) }
    ensures reached { IfOk result (λ r. Reached S.space space.new
        text.now reader.new r.0 r.1) }
{
    let index = blanks_end(text, index);
    if has_byte(text, index, b'(') {
        open(reader, Enclosing::Parts(name))?;
        return Ok((Next::First, index + 1));
    }
    add_symbol(space, alloc, reader, &name)?;
    Ok((Next::Whole, index))
}

/// Whether this byte is at the index.
#[inline(always)]
fn has_byte(text: &[u8], index: usize, byte: u8) -> bool
    ensures yes { result ≡ true → (index < length text.now) × (slice_index text.now index ≡ byte) }
    ensures no { result ≡ false → index < length text.now →
        (slice_index text.now index == byte) ≡ false }
{
    index < text.len() && text[index] == byte
}

/// Adds a symbol without parts, if all terms fit.
#[inline(always)]
fn add_symbol<S: TermSpace>(
    space: &mut S,
    alloc: Global,
    reader: &mut Reader<S::Ref, S::Name>,
    name: &S::Name,
) -> Result<(), AllocError>
    requires known { IsTrue (S.space.knows space.old name.now) }
    requires at { (s : List Open) × Keeping S.space space.old
        reader.old s [] }
    ensures keeps { Keeps S.space space.old space.new }
    ensures added { (s : List Open) → Keeping S.space space.old
        reader.old s [] → OnOk result (Keeping S.space space.new
        reader.new s (node (App (S.space.symbol_of space.old name.now)) end end ∷ [])) }
{
    if !reader.fits {
        return Ok(());
    }
    let bottom = reader.terms.len();
    let made = space.app(alloc, name, &[])?;
    put(reader, bottom, made)?;
    Ok(())
}
