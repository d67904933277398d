//! The marks.
ghost use Rattle.std.specs.Prelude.{false, ◌≡◌};
ghost use Rattle.str_lexer.specs.Readings.{begins_longer, IsMarkRead, IsByteRead, IsShortMark};

use crate::token::Mark;

/// The bytes after this one, if they begin with it.
pub(crate) fn after_byte<'a>(byte: u8, text: &'a [u8]) -> Option<&'a [u8]>
    ensures { IsByteRead byte text.now result }
{
    let (first, others) = text.split_first()?;
    if *first != byte {
        return None;
    }
    Some(others)
}

/// The mark of this byte alone.
fn short_mark(byte: u8) -> Option<Mark>
    requires { begins_longer byte ≡ false }
    ensures { IsShortMark byte result }
{
    match byte {
        b'(' => Some(Mark::OpenParenthesis),
        b')' => Some(Mark::CloseParenthesis),
        b'[' => Some(Mark::OpenBracket),
        b']' => Some(Mark::CloseBracket),
        b'{' => Some(Mark::OpenBrace),
        b'}' => Some(Mark::CloseBrace),
        b'|' => Some(Mark::Bar),
        b',' => Some(Mark::Comma),
        b':' => Some(Mark::Colon),
        b';' => Some(Mark::Semicolon),
        b'?' => Some(Mark::Question),
        b'!' => Some(Mark::Exclamation),
        b'@' => Some(Mark::At),
        b'*' => Some(Mark::Star),
        b'+' => Some(Mark::Plus),
        b'\\' => Some(Mark::Backslash),
        b'>' => Some(Mark::Greater),
        _ => None,
    }
}

/// The mark that the bytes begin with, the longest, and the bytes after it.
pub(crate) fn mark<'a>(text: &'a [u8]) -> Option<(Mark, &'a [u8])>
    ensures { IsMarkRead text.now result }
{
    let (first, others) = text.split_first()?;
    if *first == b'=' {
        let Some(following) = after_byte(b'>', others) else {
            return Some((Mark::Equals, others));
        };
        return Some((Mark::DoubleArrow, following));
    }
    if *first == b'<' {
        let Some(following) = after_byte(b'+', others) else {
            return Some((Mark::Less, others));
        };
        return Some((Mark::LeftChoice, following));
    }
    if *first == b'-' {
        return Some((Mark::Arrow, after_byte(b'>', others)?));
    }
    Some((short_mark(*first)?, others))
}
