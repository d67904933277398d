//! The standard primitives on strings. Each function takes the arguments of a call, of whatever number and kinds.
ghost use Rattle.std.specs.Prelude.{◌≡◌, ◌<◌, ◌≤◌, codes, length, map, pos, true, IfOk, MatchOption};
ghost use Rattle.std.specs.List.{list_all};
ghost use Rattle.std.specs.Option.{option_map};
ghost use Rattle.prim_registry.specs.Standard.{bytes_of as bytes_of_integers, integer_in as integer_in_text, spelled as spelled_value, standard};
ghost use Rattle.prim_registry.specs.Values.{answer_of, values_of};
ghost use Rattle.term_model.specs.Bytes.{is_digit, value_from};
ghost use Rattle.term_model.specs.IntegerBounds.{max_magnitude};

use crate::arguments::{one_integer, one_list, one_text, two_texts};
use crate::flat::{Bytes, Flat, Numbers};
use itoa::Buffer;
use std::alloc::{AllocError, Global};
use term_model::bytes::{is_digit_byte, signed, with_digit};

/// Returns the bytes of the first of two strings, followed by those of the second; `None` at other arguments.
pub fn concat(alloc: Global, args: &[Flat]) -> Result<Option<Flat>, AllocError>
    ensures { IfOk result (λ answer. answer_of answer ≡
        standard (codes "concat") (values_of args.now)) }
{
    let Some((first, second)) = two_texts(args) else {
        return Ok(None);
    };
    let mut bytes = Vec::from_slice(alloc, first)?;
    bytes.extend_from_slice(second)?;
    Ok(Some(Flat::Str(Bytes::new(bytes))))
}

/// The bytes as integers.
fn integers(alloc: Global, bytes: &[u8]) -> Result<Vec<i64>, AllocError>
    ensures { IfOk result (λ integers. integers.items ≡ map pos bytes.now) }
{
    let mut integers = Vec::with_capacity(alloc, bytes.len())?;
    for byte in bytes {
        integers.push(i64::from(*byte))?;
    }
    Ok(integers)
}

/// Returns the bytes of a string as a list of integers from 0 to 255; `None` at other arguments.
pub fn explode(alloc: Global, args: &[Flat]) -> Result<Option<Flat>, AllocError>
    ensures { IfOk result (λ answer. answer_of answer ≡
        standard (codes "explode") (values_of args.now)) }
{
    let Some(text) = one_text(args) else {
        return Ok(None);
    };
    let integers = integers(alloc, text)?;
    Ok(Some(Flat::Ints(Numbers::new(integers))))
}

/// The integers as bytes, where each is one.
fn bytes(alloc: Global, integers: &[i64]) -> Result<Option<Vec<u8>>, AllocError>
    ensures { IfOk result (λ bytes. option_map (λ v. v.items) bytes ≡
        bytes_of_integers integers.now) }
{
    let mut bytes = Vec::with_capacity(alloc, integers.len())?;
    for integer in integers {
        if *integer < 0 || *integer > 255 {
            return Ok(None);
        }
        bytes.push(*integer as u8)?;
    }
    Ok(Some(bytes))
}

/// Returns the string of the bytes that a list of integers has. `None` where one of them is not from 0 to 255, and at other
/// arguments.
pub fn implode(alloc: Global, args: &[Flat]) -> Result<Option<Flat>, AllocError>
    ensures { IfOk result (λ answer. answer_of answer ≡
        standard (codes "implode") (values_of args.now)) }
{
    let Some(integers) = one_list(args) else {
        return Ok(None);
    };
    let Some(bytes) = bytes(alloc, integers)? else {
        return Ok(None);
    };
    Ok(Some(Flat::Str(Bytes::new(bytes))))
}

/// Returns the decimal digits of an integer as a string, after a minus where it is negative; `None` at other arguments.
pub fn int_text(alloc: Global, args: &[Flat]) -> Result<Option<Flat>, AllocError>
    ensures { IfOk result (λ answer. answer_of answer ≡
        standard (codes "int_text") (values_of args.now)) }
{
    let Some(value) = one_integer(args) else {
        return Ok(None);
    };
    let mut buffer = Buffer::new();
    let text = Vec::from_slice(alloc, buffer.format(value).as_bytes())?;
    Ok(Some(Flat::Str(Bytes::new(text))))
}

/// Whether each of the bytes is a digit.
fn are_digits(bytes: &[u8]) -> bool
    ensures { result ≡ list_all is_digit bytes.now }
{
    bytes.iter().all(|byte| is_digit_byte(*byte))
}

/// The magnitude that the digits spell, unless no integer of this sign has it.
fn magnitude(negative: bool, digits: &[u8]) -> Option<u64>
    requires { list_all is_digit digits.now ≡ true }
    ensures { MatchOption result (max_magnitude negative < value_from 0 digits.now)
        (λ n. (n ≡ value_from 0 digits.now) × (n ≤ max_magnitude negative)) }
{
    let mut value = 0;
    for digit in digits {
        let Some(longer) = with_digit(negative, value, *digit) else {
            return None;
        };
        value = longer;
    }
    Some(value)
}

/// The integer of this sign that the bytes spell.
fn parse_integer(negative: bool, bytes: &[u8]) -> Option<Flat>
    ensures { answer_of result ≡ spelled_value negative bytes.now }
{
    if bytes.is_empty() || !are_digits(bytes) {
        return None;
    }
    let magnitude = magnitude(negative, bytes)?;
    Some(Flat::Int(signed(negative, magnitude)))
}

/// The integer that the bytes spell, with a minus before the digits where it is negative.
fn integer_in(bytes: &[u8]) -> Option<Flat>
    ensures { answer_of result ≡ integer_in_text bytes.now }
{
    let (first, others) = bytes.split_first()?;
    if *first == b'-' {
        return parse_integer(true, others);
    }
    parse_integer(false, bytes)
}

/// Returns the integer that a string spells by one or more digits, with a minus before them where it is negative. `None` where the
/// string is no such text or the integer has more than 64 bits, and at other arguments.
pub fn text_int(args: &[Flat]) -> Option<Flat>
    ensures { answer_of result ≡ standard (codes "text_int") (values_of args.now) }
{
    let text = one_text(args)?;
    integer_in(text)
}
