//! Symbols: names and quoted text, of raw bytes and escapes.
ghost use Rattle.std.specs.Prelude.{◌≡◌, ◌≤◌, ◌<◌, ◌+◌, ◌-◌, ◌^◌, ℕ, List, [], ◌∷◌, ◌++◌, length, slice_index, slice_range, IfOk, IfErr, IsTrue, true};
ghost use Rattle.aterm_text.specs.Depth.{Open};
ghost use Rattle.aterm_text.specs.Reading.{InName, InText, InEscape, InOctal, InOctals, Named, Refuses, outcome_from, first};
ghost use Rattle.term_model.specs.Bytes.{is_between, is_octal};
ghost use Rattle.term_model.specs.Space.{Keeps};
ghost use Rattle.term_model.specs.Symbol.{Quoted, begins_name};
ghost use Rattle.term_model.specs.Results.{Returns};

use crate::scan::{name_end, raw_end};
use std::alloc::{AllocError, Global};
use term_model::bytes::{is_octal_byte, unescaped};
use term_model::symbol::Kind;
use term_model::{Fault, TermSpace};

/// The name that begins at the index, and where it ends.
#[inline(always)]
pub(crate) fn read_plain<S: TermSpace>(
    space: &mut S,
    alloc: Global,
    text: &[u8],
    index: usize,
) -> Result<(S::Name, usize), AllocError>
    requires within { index < length text.now }
    requires begins { begins_name (slice_index text.now index) ≡ true }
    ensures keeps { Keeps S.space space.old space.new }
    ensures known { IfOk result (λ r. IsTrue (S.space.knows space.new r.0)) }
    ensures past { IfOk result (λ r. index < r.1) }
    ensures within { IfOk result (λ r. r.1 ≤ length text.now) }
    ensures read { (s : List Open) → IfOk result
        (λ r. outcome_from text.now (first s (slice_index text.now index)) (index + 1) ≡
        outcome_from text.now (Named (S.space.symbol_of space.new r.0) s) r.1) }
{
    let end = name_end(text, index + 1);
    let name = space.name_spelled(alloc, Kind::Plain, &text[index..end])?;
    Ok((name, end))
}

/// The symbol of the quoted text that begins at the index, and the index after the closing quote.
#[inline(always)]
pub(crate) fn read_quoted<S: TermSpace>(
    space: &mut S,
    alloc: Global,
    text: &[u8],
    index: usize,
) -> Result<(S::Name, usize), Fault>
    requires within { index ≤ length text.now }
    ensures keeps { Keeps S.space space.old space.new }
    ensures known { IfOk result (λ r. IsTrue (S.space.knows space.new r.0)) }
    ensures past { IfOk result (λ r. index < r.1) }
    ensures within { IfOk result (λ r. r.1 ≤ length text.now) }
    ensures read { (s : List Open) → IfOk result
        (λ r. outcome_from text.now (InText [] s) index ≡
        outcome_from text.now (Named (S.space.symbol_of space.new r.0) s) r.1) }
    ensures err { (s : List Open) → IfErr result
        (λ e. Refuses e (outcome_from text.now (InText [] s) index)) }
{
    let end = raw_end(text, index);
    if end < text.len() && text[end] == b'"' {
        let name = space.name_spelled(alloc, Kind::Quoted, &text[index..end])?;
        return Ok((name, end + 1));
    }
    let (bytes, after) = read_escaped(alloc, text, index)?;
    let name = space.name_spelled(alloc, Kind::Quoted, &bytes)?;
    Ok((name, after))
}

/// The bytes that a quoted text stands for, and the index after the closing quote.
fn read_escaped(alloc: Global, text: &[u8], index: usize) -> Result<(Vec<u8>, usize), Fault>
    requires within { index ≤ length text.now }
    ensures past { IfOk result (λ r. index < r.1) }
    ensures within { IfOk result (λ r. r.1 ≤ length text.now) }
    ensures read { (s : List Open) → IfOk result
        (λ r. outcome_from text.now (InText [] s) index ≡
        outcome_from text.now (Named (Quoted r.0.items) s) r.1) }
    ensures err { (s : List Open) → IfErr result
        (λ e. Refuses e (outcome_from text.now (InText [] s) index)) }
{
    let mut bytes = Vec::new(alloc);
    let mut from = index;
    loop {
        let end = raw_end(text, from);
        bytes.extend_from_slice(&text[from..end])?;
        if end == text.len() {
            return Err(Fault::TermSyntax { at: end as u64 });
        }
        let byte = text[end];
        if byte == b'\n' {
            return Err(Fault::TermSyntax { at: end as u64 });
        }
        if byte == b'"' {
            return Ok((bytes, end + 1));
        }
        let (byte, after) = read_escape(text, end + 1)?;
        bytes.push(byte)?;
        from = after;
    }
}

/// The byte of an escape, of which the index is after the backslash, and where it ends.
fn read_escape(text: &[u8], index: usize) -> Result<(u8, usize), Fault>
    requires within { index ≤ length text.now }
    ensures low { IfOk result (λ r. index < r.1) }
    ensures within { IfOk result (λ r. r.1 ≤ length text.now) }
    ensures read { (b : List ℕ) (s : List Open) →
        IfOk result (λ r. outcome_from text.now (InEscape b s) index ≡
        outcome_from text.now (InText (b ++ r.0 ∷ []) s) r.1) }
    ensures err { (b : List ℕ) (s : List Open) →
        IfErr result (λ e. Refuses e (outcome_from text.now (InEscape b s) index)) }
{
    if index == text.len() {
        return Err(Fault::TermSyntax { at: index as u64 });
    }
    let byte = text[index];
    if let Some(meant) = unescaped(byte) {
        return Ok((meant, index + 1));
    }
    if !begins_octal(byte) {
        return Err(Fault::TermSyntax { at: index as u64 });
    }
    let second = octal_digit(text, index + 1)?;
    let third = octal_digit(text, index + 2)?;
    Ok((8 * (8 * (byte - b'0') + second) + third, index + 3))
}

/// Whether the byte is the first of three octal digits of a byte.
fn begins_octal(byte: u8) -> bool
    ensures { result ≡ is_between 48 51 byte }
{
    matches!(byte, b'0'..=b'3')
}

/// The octal digit at the index.
fn octal_digit(text: &[u8], index: usize) -> Result<u8, Fault>
    requires within { index ≤ length text.now }
    ensures within { IfOk result (λ d. index < length text.now) }
    ensures octal { IfOk result (λ d. is_octal (slice_index text.now index) ≡ true) }
    ensures value { Returns result (slice_index text.now index - 48) }
    ensures small { IfOk result (λ d. d ≤ 7) }
    ensures err { (b : List ℕ) (v : ℕ) (s : List Open) →
        IfErr result (λ e. Refuses e (outcome_from text.now (InOctal b v s) index)) }
    ensures errs { (b : List ℕ) (v : ℕ) (s : List Open) →
        IfErr result (λ e. Refuses e (outcome_from text.now (InOctals b v s) index)) }
{
    if index == text.len() {
        return Err(Fault::TermSyntax { at: index as u64 });
    }
    let byte = text[index];
    if !is_octal_byte(byte) {
        return Err(Fault::TermSyntax { at: index as u64 });
    }
    Ok(byte - b'0')
}
