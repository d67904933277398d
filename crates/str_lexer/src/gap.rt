//! What stands between tokens.
ghost use Rattle.str_lexer.specs.Readings.{IsGapRead};

use crate::runs::{after_comment, line_length};
use term_model::bytes::is_blank_byte;

/// The bytes after the blank or the comment that the bytes begin with.
pub(crate) fn gap<'a>(text: &'a [u8]) -> Option<&'a [u8]>
    ensures { IsGapRead text.now result }
{
    let (first, others) = text.split_first()?;
    if is_blank_byte(*first) {
        return Some(others);
    }
    if *first != b'/' {
        return None;
    }
    let (second, inner) = others.split_first()?;
    if *second == b'/' {
        return Some(&inner[line_length(inner)..]);
    }
    if *second != b'*' {
        return None;
    }
    after_comment(inner)
}
