//! Integers.
ghost use Rattle.std.specs.Prelude.{true, false, ◌≡◌, ◌≤◌, ◌<◌, ◌+◌, ◌-◌, List, [], ◌∷◌, OnOk, length, slice_index, IfOk, IfErr, IsTrue};
ghost use Rattle.aterm_text.specs.Brackets.{Holds, Keeping, Reached};
ghost use Rattle.aterm_text.specs.Depth.{Open};
ghost use Rattle.aterm_text.specs.Reading.{InDigits, InSign, Refuses, outcome_from, outcome_of};
ghost use Rattle.term_model.specs.Bytes.{is_digit};
ghost use Rattle.term_model.specs.declared.term.Head.TheVariants.{Int};
ghost use Rattle.term_model.specs.IntegerBounds.{max_magnitude};
ghost use Rattle.term_model.specs.Space.{Keeps};
ghost use Rattle.term_model.specs.Term.{node, end};

use crate::brackets::put;
use crate::open::{Next, Reader};
use std::alloc::{AllocError, Global};
use term_model::bytes::{is_digit_byte, signed, with_digit};
use term_model::{Fault, Made, TermSpace};

/// The integer of the digits from the index on.
#[inline(always)]
pub(crate) fn read_number<S: TermSpace>(
    space: &mut S,
    alloc: Global,
    reader: &mut Reader<S::Ref, S::Name>,
    negative: bool,
    text: &[u8],
    index: usize,
) -> Result<(Next, usize), Fault>
    requires within { index < length text.now }
    requires digit { is_digit (slice_index text.now index) ≡ true }
    requires at { Holds S.space space.old text.now reader.old []
        (InDigits negative 0) index }
    ensures keeps { Keeps S.space space.old space.new }
    ensures past { IfOk result (λ r. index < r.1) }
    ensures reached { IfOk result (λ r. Reached S.space space.new
        text.now reader.new r.0 r.1) }
    ensures err { IfErr result (λ e. Refuses e (outcome_of text.now)) }
{
    let (magnitude, end) = digits_end(text, index, negative)?;
    add_int(space, alloc, reader, signed(negative, magnitude))?;
    Ok((Next::Whole, end))
}

/// Adds an integer, if all terms fit.
#[inline(always)]
fn add_int<S: TermSpace>(
    space: &mut S,
    alloc: Global,
    reader: &mut Reader<S::Ref, S::Name>,
    value: i64,
) -> Result<(), AllocError>
    requires at { (s : List Open) × Keeping S.space space.old
        reader.old s [] }
    ensures keeps { Keeps S.space space.old space.new }
    ensures added { (s : List Open) → Keeping S.space space.old
        reader.old s [] → OnOk result (Keeping S.space space.new
        reader.new s (node (Int value) end end ∷ [])) }
{
    if !reader.fits {
        return Ok(());
    }
    let bottom = reader.terms.len();
    let term = space.int(alloc, value)?;
    put(reader, bottom, Made::Fits(term))?;
    Ok(())
}

/// The integer of the digits from the index on, which comes after a minus.
#[inline(always)]
pub(crate) fn read_negative<S: TermSpace>(
    space: &mut S,
    alloc: Global,
    reader: &mut Reader<S::Ref, S::Name>,
    text: &[u8],
    index: usize,
) -> Result<(Next, usize), Fault>
    requires at { Holds S.space space.old text.now reader.old []
        InSign index }
    ensures keeps { Keeps S.space space.old space.new }
    ensures past { IfOk result (λ r. index < r.1) }
    ensures reached { IfOk result (λ r. Reached S.space space.new
        text.now reader.new r.0 r.1) }
    ensures err { IfErr result (λ e. Refuses e (outcome_of text.now)) }
{
    if index == text.len() {
        return Err(Fault::TermSyntax { at: index as u64 });
    }
    if !is_digit_byte(text[index]) {
        return Err(Fault::TermSyntax { at: index as u64 });
    }
    read_number(space, alloc, reader, true, text, index)
}

/// The number of the digits from the index on, and where they end.
#[inline(always)]
fn digits_end(text: &[u8], index: usize, negative: bool) -> Result<(u64, usize), Fault>
    requires { index ≤ length text.now }
    ensures low { IfOk result (λ r. index ≤ r.1) }
    ensures high { IfOk result (λ r. r.1 ≤ length text.now) }
    ensures value { IfOk result (λ r. r.0 ≤ max_magnitude negative) }
    ensures read { (s : List Open) → IfOk result
        (λ r. outcome_from text.now (InDigits negative 0 s) index ≡
        outcome_from text.now (InDigits negative r.0 s) r.1) }
    ensures stop { IfOk result (λ r. r.1 < length text.now →
        is_digit (slice_index text.now r.1) ≡ false) }
    ensures err { (s : List Open) → IfErr result
        (λ e. Refuses e (outcome_from text.now (InDigits negative 0 s) index)) }
{
    let mut end = index;
    let mut magnitude = 0;
    while end < text.len() && is_digit_byte(text[end]) {
        let Some(longer) = with_digit(negative, magnitude, text[end]) else {
            return Err(Fault::TermSyntax { at: end as u64 });
        };
        magnitude = longer;
        end += 1;
    }
    Ok((magnitude, end))
}
