//! Reading a term into a space, in one pass over its text.
ghost use Rattle.std.specs.Prelude.{false, ◌≡◌, ◌+◌, ◌<◌, List, [], ◌∷◌, reverse, length, slice_index, IfOk, IfErr, IsTrue};
ghost use Rattle.aterm_text.specs.Brackets.{Holds, Reached, awaits_term, closes_first, closing_state};
ghost use Rattle.aterm_text.specs.Reading.{Answers, Refuses, first as first_state, next as next_state, outcome_of};
ghost use Rattle.aterm_text.specs.ReadIn.{map_ok};
ghost use Rattle.term_model.specs.Bytes.{is_blank};
ghost use Rattle.term_model.specs.Space.{Keeps};
ghost use Rattle.term_model.specs.Term.{Tree};
ghost use Rattle.aterm_text.specs.declared.open.Next.TheVariants as nexts;

use crate::brackets::{apply, close, closer, open};
use crate::numbers::{read_negative, read_number};
use crate::open::{Bracket, Enclosing, Next, Reader};
use crate::quoted::{read_plain, read_quoted};
use crate::scan::{blanks_end, is_first};
use std::alloc::Global;
use term_model::bytes::is_digit_byte;
use term_model::symbol::{Kind, begins};
use term_model::term::MAX_DEPTH;
use term_model::{Fault, TermSpace};

/// Whether the byte closes the innermost bracket.
#[inline(always)]
fn closes<N: Drop>(brackets: &[Bracket<N>], byte: u8) -> bool
    ensures { result ≡ closes_first (reverse brackets.now) byte }
{
    match brackets.split_last() {
        Some((bracket, _)) => byte == closer(&bracket.enclosing),
        None => false,
    }
}

/// Closes the innermost bracket at the index, if it is the byte there that closes it.
fn close_at<S: TermSpace>(
    space: &mut S,
    alloc: Global,
    reader: &mut Reader<S::Ref, S::Name>,
    text: &[u8],
    index: usize,
) -> Result<(Next, usize), Fault>
    requires within { index < length text.now }
    requires at { (hand : List Tree) × Holds S.space space.old
        text.now reader.old hand (λ s. closing_state hand s (slice_index text.now index))
        (index + 1) }
    ensures keeps { Keeps S.space space.old space.new }
    ensures past { IfOk result (λ r. index < r.1) }
    ensures reached { IfOk result (λ r. Reached S.space space.new
        text.now reader.new r.0 r.1) }
    ensures err { IfErr result (λ e. Refuses e (outcome_of text.now)) }
{
    let Some(bracket) = reader.open.pop() else {
        return Err(Fault::TermSyntax { at: index as u64 });
    };
    if text[index] != closer(&bracket.enclosing) {
        return Err(Fault::TermSyntax { at: index as u64 });
    }
    let next = close(space, alloc, reader, bracket)?;
    Ok((next, index + 1))
}

/// The first byte of a term, which may begin here.
fn read_first_byte<S: TermSpace>(
    space: &mut S,
    alloc: Global,
    reader: &mut Reader<S::Ref, S::Name>,
    text: &[u8],
    index: usize,
) -> Result<(Next, usize), Fault>
    requires within { index < length text.now }
    requires at { Holds S.space space.old text.now reader.old []
        (λ s. first_state s (slice_index text.now index)) (index + 1) }
    ensures keeps { Keeps S.space space.old space.new }
    ensures past { IfOk result (λ r. index < r.1) }
    ensures reached { IfOk result (λ r. Reached S.space space.new
        text.now reader.new r.0 r.1) }
    ensures err { IfErr result (λ e. Refuses e (outcome_of text.now)) }
{
    let byte = text[index];
    if begins(byte) {
        let (name, end) = read_plain(space, alloc, text, index)?;
        return Ok(apply(space, alloc, reader, name, text, end)?);
    }
    if is_digit_byte(byte) {
        return read_number(space, alloc, reader, false, text, index);
    }
    match byte {
        b'"' => {
            let (name, end) = read_quoted(space, alloc, text, index + 1)?;
            Ok(apply(space, alloc, reader, name, text, end)?)
        }
        b'(' => {
            let name = space.name_spelled(alloc, Kind::Tuple, &[])?;
            open(reader, Enclosing::Parts(name))?;
            Ok((Next::First, index + 1))
        }
        b'[' => {
            open(reader, Enclosing::Elements)?;
            Ok((Next::First, index + 1))
        }
        b'-' => read_negative(space, alloc, reader, text, index + 1),
        _ => Err(Fault::TermSyntax { at: index as u64 }),
    }
}

/// A term that begins at the index.
fn begin_term<S: TermSpace>(
    space: &mut S,
    alloc: Global,
    reader: &mut Reader<S::Ref, S::Name>,
    text: &[u8],
    index: usize,
) -> Result<(Next, usize), Fault>
    requires within { index < length text.now }
    requires mark { is_blank (slice_index text.now index) ≡ false }
    requires at { Reached S.space space.old text.now reader.old
        nexts.Term index }
    ensures keeps { Keeps S.space space.old space.new }
    ensures past { IfOk result (λ r. index < r.1) }
    ensures reached { IfOk result (λ r. Reached S.space space.new
        text.now reader.new r.0 r.1) }
    ensures err { IfErr result (λ e. Refuses e (outcome_of text.now)) }
{
    if !is_first(text[index]) {
        return Err(Fault::TermSyntax { at: index as u64 });
    }
    if reader.open.len() == MAX_DEPTH as usize {
        return Err(Fault::TermOversize { at: index as u64 });
    }
    read_first_byte(space, alloc, reader, text, index)
}

/// The byte after a bracket that opens.
fn begin_or_close<S: TermSpace>(
    space: &mut S,
    alloc: Global,
    reader: &mut Reader<S::Ref, S::Name>,
    text: &[u8],
    index: usize,
) -> Result<(Next, usize), Fault>
    requires within { index < length text.now }
    requires mark { is_blank (slice_index text.now index) ≡ false }
    requires at { Reached S.space space.old text.now reader.old
        nexts.First index }
    ensures keeps { Keeps S.space space.old space.new }
    ensures past { IfOk result (λ r. index < r.1) }
    ensures reached { IfOk result (λ r. Reached S.space space.new
        text.now reader.new r.0 r.1) }
    ensures err { IfErr result (λ e. Refuses e (outcome_of text.now)) }
{
    if closes(&reader.open, text[index]) {
        return close_at(space, alloc, reader, text, index);
    }
    begin_term(space, alloc, reader, text, index)
}

/// A byte after a term that takes no annotations.
fn follow<S: TermSpace>(
    space: &mut S,
    alloc: Global,
    reader: &mut Reader<S::Ref, S::Name>,
    text: &[u8],
    index: usize,
) -> Result<(Next, usize), Fault>
    requires within { index < length text.now }
    requires at { (t : Tree) × Holds S.space space.old text.now
        reader.old (t ∷ []) (λ s. next_state t s (slice_index text.now index)) (index + 1) }
    ensures keeps { Keeps S.space space.old space.new }
    ensures past { IfOk result (λ r. index < r.1) }
    ensures reached { IfOk result (λ r. Reached S.space space.new
        text.now reader.new r.0 r.1) }
    ensures err { IfErr result (λ e. Refuses e (outcome_of text.now)) }
{
    if reader.open.is_empty() {
        return Err(Fault::TermSyntax { at: index as u64 });
    }
    if text[index] == b',' {
        return Ok((Next::Term, index + 1));
    }
    close_at(space, alloc, reader, text, index)
}

/// A byte after a term that may take annotations.
fn annotate_or_follow<S: TermSpace>(
    space: &mut S,
    alloc: Global,
    reader: &mut Reader<S::Ref, S::Name>,
    text: &[u8],
    index: usize,
) -> Result<(Next, usize), Fault>
    requires within { index < length text.now }
    requires mark { is_blank (slice_index text.now index) ≡ false }
    requires at { Reached S.space space.old text.now reader.old
        nexts.Whole index }
    ensures keeps { Keeps S.space space.old space.new }
    ensures past { IfOk result (λ r. index < r.1) }
    ensures reached { IfOk result (λ r. Reached S.space space.new
        text.now reader.new r.0 r.1) }
    ensures err { IfErr result (λ e. Refuses e (outcome_of text.now)) }
{
    if text[index] == b'{' {
        open(reader, Enclosing::Annotations)?;
        return Ok((Next::First, index + 1));
    }
    follow(space, alloc, reader, text, index)
}

/// The byte at the index, which is no blank.
fn step<S: TermSpace>(
    space: &mut S,
    alloc: Global,
    reader: &mut Reader<S::Ref, S::Name>,
    next: Next,
    text: &[u8],
    index: usize,
) -> Result<(Next, usize), Fault>
    requires within { index < length text.now }
    requires mark { is_blank (slice_index text.now index) ≡ false }
    requires at { Reached S.space space.old text.now reader.old next
        index }
    ensures keeps { Keeps S.space space.old space.new }
    ensures past { IfOk result (λ r. index < r.1) }
    ensures reached { IfOk result (λ r. Reached S.space space.new
        text.now reader.new r.0 r.1) }
    ensures err { IfErr result (λ e. Refuses e (outcome_of text.now)) }
{
    match next {
        Next::Term => begin_term(space, alloc, reader, text, index),
        Next::First => begin_or_close(space, alloc, reader, text, index),
        Next::Whole => annotate_or_follow(space, alloc, reader, text, index),
        Next::Done => follow(space, alloc, reader, text, index),
    }
}

/// The term that is read at the end of the text; the space is that of the references.
fn finish<S: TermSpace>(
    space: &S,
    reader: Reader<S::Ref, S::Name>,
    next: Next,
    text: &[u8],
) -> Result<S::Ref, Fault>
    requires at { Reached S.space space.now text.now reader next
        (length text.now) }
    ensures stands { IfOk result (λ r. IsTrue (S.space.stands space.now r)) }
    ensures answers { Answers (map_ok (S.space.term_of space.now) result) (outcome_of text.now) }
{
    let _ = space;
    let at = text.len() as u64;
    if !reader.open.is_empty() {
        return Err(Fault::TermSyntax { at });
    }
    if needs_term(next) {
        return Err(Fault::TermSyntax { at });
    }
    if !reader.fits {
        return Err(Fault::TermOversize { at });
    }
    let mut terms = reader.terms;
    match terms.pop() {
        Some(term) => Ok(term),
        None => Err(Fault::TermSyntax { at }),
    }
}

/// Whether no term is whole.
fn needs_term(next: Next) -> bool
    ensures { result ≡ awaits_term next }
{
    match next {
        Next::Term | Next::First => true,
        Next::Whole | Next::Done => false,
    }
}

/// The term that the text spells, in the space.
pub(crate) fn read_in<S: TermSpace>(
    space: &mut S,
    alloc: Global,
    text: &[u8],
) -> Result<S::Ref, Fault>
    ensures keeps { Keeps S.space space.old space.new }
    ensures stands { IfOk result (λ r. IsTrue (S.space.stands space.new r)) }
    ensures answers { Answers (map_ok (S.space.term_of space.new) result) (outcome_of text.now) }
{
    let mut reader = Reader::new(alloc);
    let mut next = Next::Term;
    let mut index = blanks_end(text, 0);
    while index < text.len() {
        let (then, end) = step(space, alloc, &mut reader, next, text, index)?;
        next = then;
        index = blanks_end(text, end);
    }
    finish(space, reader, next, text)
}
