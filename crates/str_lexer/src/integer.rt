//! Integers.
ghost use Rattle.std.specs.Prelude.{true, false, ◌≡◌, ℕ, ◌≤◌, ◌^◌, ◌<◌, MatchOption, length};
ghost use Rattle.term_model.specs.IntegerBounds.{max_magnitude};
ghost use Rattle.term_model.specs.Bytes.{is_digit, value_from};
ghost use Rattle.str_lexer.specs.Tokens.{first_is};
ghost use Rattle.str_lexer.specs.Readings.{run_length, begins_integer, IsIntegerRead, IsSignedRead};

use crate::runs::digit_count;
use term_model::bytes::{is_digit_byte, signed, with_digit};

fn begins_digit(text: &[u8]) -> bool
    ensures { result ≡ first_is is_digit text.now }
{
    let Some((first, _)) = text.split_first() else {
        return false;
    };
    is_digit_byte(*first)
}

/// Whether the bytes begin with a digit, or with a sign and a digit.
pub(crate) fn begins(text: &[u8]) -> bool
    ensures { result ≡ begins_integer text.now }
{
    let Some((first, others)) = text.split_first() else {
        return false;
    };
    if *first == b'-' {
        return begins_digit(others);
    }
    is_digit_byte(*first)
}

/// The magnitude that the digits spell, unless no integer of this sign has it.
fn magnitude(negative: bool, digits: &[u8]) -> Option<u64>
    requires { run_length (first_is is_digit) digits.now ≡ length digits.now }
    ensures { MatchOption result (max_magnitude negative < value_from 0 digits.now)
        (λ n. (n ≡ value_from 0 digits.now) × (n ≤ max_magnitude negative)) }
{
    let mut value = 0;
    for digit in digits {
        let Some(longer) = with_digit(negative, value, *digit) else {
            return None;
        };
        value = longer;
    }
    Some(value)
}

/// The integer that the bytes begin with after its sign, and the bytes after it.
fn unsigned<'a>(negative: bool, text: &'a [u8]) -> Option<(i64, &'a [u8])>
    requires { first_is is_digit text.now ≡ true }
    ensures { IsSignedRead negative text.now result }
{
    let end = digit_count(text);
    let (digits, rest) = text.split_at(end);
    let Some(value) = magnitude(negative, digits) else {
        return None;
    };
    Some((signed(negative, value), rest))
}

/// The integer that the bytes begin with, and the bytes after it.
pub(crate) fn integer<'a>(text: &'a [u8]) -> Option<(i64, &'a [u8])>
    requires { begins_integer text.now ≡ true }
    ensures { IsIntegerRead text.now result }
{
    let Some((first, others)) = text.split_first() else {
        return None;
    };
    if *first == b'-' {
        return unsigned(true, others);
    }
    unsigned(false, text)
}
