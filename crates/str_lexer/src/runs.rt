//! Classes of bytes, and how long a run of them is.
ghost use Rattle.std.specs.Prelude.{◌≡◌, ◌≤◌, ◌==◌, length};
ghost use Rattle.term_model.specs.Bytes.{is_digit};
ghost use Rattle.term_model.specs.Symbol.{begins_name};
ghost use Rattle.str_lexer.specs.Tokens.{continues_word, first_is, goes_on as word_goes_on, stays_on_line};
ghost use Rattle.str_lexer.specs.Readings.{run_length, IsCloseAt, IsCloseRead};

use crate::mark::after_byte;
use term_model::bytes::is_digit_byte;
use term_model::symbol::begins;

fn continues(byte: u8) -> bool
    ensures { result ≡ continues_word byte }
{
    begins(byte) || is_digit_byte(byte) || byte == b'\''
}

fn begins_greater(text: &[u8]) -> bool
    ensures { result ≡ first_is (λ c. c == 62) text.now }
{
    let Some((first, _)) = text.split_first() else {
        return false;
    };
    *first == b'>'
}

/// Whether a word goes on with the first of these bytes.
fn goes_on(text: &[u8]) -> bool
    ensures { result ≡ word_goes_on text.now }
{
    let Some((first, others)) = text.split_first() else {
        return false;
    };
    if *first == b'-' {
        return !begins_greater(others);
    }
    continues(*first)
}

/// How many bytes a word goes on with.
pub(crate) fn word_length(text: &[u8]) -> usize
    ensures counts { result ≡ run_length word_goes_on text.now }
    ensures within { result ≤ length text.now }
{
    for index in 0..text.len() {
        if !goes_on(&text[index..]) {
            return index;
        }
    }
    text.len()
}

/// How many digits the bytes begin with.
pub(crate) fn digit_count(text: &[u8]) -> usize
    ensures counts { result ≡ run_length (first_is is_digit) text.now }
    ensures within { result ≤ length text.now }
{
    for (index, byte) in text.iter().enumerate() {
        if !is_digit_byte(*byte) {
            return index;
        }
    }
    text.len()
}

fn is_on_line(byte: u8) -> bool
    ensures { result ≡ stays_on_line byte }
{
    byte != b'\n'
}

/// How many bytes stand before the end of the line.
pub(crate) fn line_length(text: &[u8]) -> usize
    ensures counts { result ≡ run_length (first_is stays_on_line) text.now }
    ensures within { result ≤ length text.now }
{
    for (index, byte) in text.iter().enumerate() {
        if !is_on_line(*byte) {
            return index;
        }
    }
    text.len()
}

/// The bytes after `*/`, if they begin with it.
fn after_close<'a>(text: &'a [u8]) -> Option<&'a [u8]>
    ensures { IsCloseAt text.now result }
{
    after_byte(b'/', after_byte(b'*', text)?)
}

/// The bytes after the first `*/`, if there is one.
pub(crate) fn after_comment<'a>(text: &'a [u8]) -> Option<&'a [u8]>
    ensures { IsCloseRead text.now result }
{
    for index in 0..text.len() {
        let Some(following) = after_close(&text[index..]) else {
            continue;
        };
        return Some(following);
    }
    None
}
