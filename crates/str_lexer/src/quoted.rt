//! Quoted texts.
ghost use Rattle.std.specs.Prelude.{true, ◌≡◌, ◌==◌, IfOk};
ghost use Rattle.str_lexer.specs.Tokens.{first_is};
ghost use Rattle.str_lexer.specs.Readings.{IsItemRead, IsEscapeRead, IsOctalRead, IsQuotedRead};

use crate::token::QuotedText;
use std::alloc::{AllocError, Global};
use term_model::bytes::{is_octal_byte, unescaped};

/// The byte of three octal digits, and the bytes after them.
fn octal<'a>(text: &'a [u8]) -> Option<(u8, &'a [u8])>
    ensures { IsOctalRead text.now result }
{
    let (high, others) = text.split_first()?;
    let (middle, others) = others.split_first()?;
    let (low, rest) = others.split_first()?;
    if !is_octal_byte(*high) || *high > b'3' {
        return None;
    }
    if !is_octal_byte(*middle) || !is_octal_byte(*low) {
        return None;
    }
    let byte = 8 * (8 * (*high - b'0') + (*middle - b'0')) + (*low - b'0');
    Some((byte, rest))
}

/// The byte that stands after a backslash, and the bytes after what spells it.
fn escape<'a>(text: &'a [u8]) -> Option<(u8, &'a [u8])>
    ensures { IsEscapeRead text.now result }
{
    let (first, others) = text.split_first()?;
    let Some(byte) = unescaped(*first) else {
        return octal(text);
    };
    Some((byte, others))
}

/// Returns the byte that the first item of a quoted text stands for, and the bytes after the item. An item is a byte as it is, a backslash with
/// a letter, or a backslash with three octal digits. `None` if the bytes begin with none, as at a quote or a line feed.
pub fn item<'a>(text: &'a [u8]) -> Option<(u8, &'a [u8])>
    ensures { IsItemRead text.now result }
{
    let (first, others) = text.split_first()?;
    if *first == b'\\' {
        return escape(others);
    }
    if *first == b'"' || *first == b'\n' {
        return None;
    }
    Some((*first, others))
}

/// The quoted text that the bytes begin with, and the bytes after it.
pub(crate) fn quoted_text<'a>(
    alloc: Global,
    text: &'a [u8],
) -> Result<Option<(QuotedText, &'a [u8])>, AllocError>
    requires { first_is (λ b. b == 34) text.now ≡ true }
    ensures { IfOk result (λ found. IsQuotedRead text.now found) }
{
    let mut bytes = Vec::new(alloc);
    let mut rest = &text[1..];
    while let Some((byte, following)) = item(rest) {
        bytes.push(byte)?;
        rest = following;
    }
    let Some((first, others)) = rest.split_first() else {
        return Ok(None);
    };
    if *first != b'"' {
        return Ok(None);
    }
    let text = QuotedText::new(alloc, bytes)?;
    Ok(Some((text, others)))
}
