//! Runs of bytes in a text.
ghost use Rattle.std.specs.Prelude.{◌≡◌, ◌≤◌, ◌<◌, ℕ, length, slice_index, true, false};
ghost use Rattle.aterm_text.specs.Depth.{begins_term};
ghost use Rattle.term_model.specs.Bytes.{is_blank, is_raw};
ghost use Rattle.term_model.specs.Symbol.{continues_name};

use term_model::bytes::{is_blank_byte, is_digit_byte};
use term_model::symbol::{begins, continues};

/// Whether a term may begin with the byte.
#[inline(always)]
pub(crate) fn is_first(byte: u8) -> bool
    ensures { result ≡ begins_term byte }
{
    begins(byte) || is_digit_byte(byte) || matches!(byte, b'-' | b'"' | b'(' | b'[')
}

/// Where the blanks end.
#[inline(always)]
pub(crate) fn blanks_end(text: &[u8], index: usize) -> usize
    requires { index ≤ length text.now }
    ensures low { index ≤ result }
    ensures high { result ≤ length text.now }
    ensures within { (k : ℕ) → index ≤ k → k < result → is_blank (slice_index text.now k) ≡ true }
    ensures stop { result < length text.now → is_blank (slice_index text.now result) ≡ false }
{
    let mut end = index;
    while end < text.len() && is_blank_byte(text[end]) {
        end += 1;
    }
    end
}

/// Where the bytes of a name end.
#[inline(always)]
pub(crate) fn name_end(text: &[u8], index: usize) -> usize
    requires { index ≤ length text.now }
    ensures low { index ≤ result }
    ensures high { result ≤ length text.now }
    ensures within { (k : ℕ) → index ≤ k → k < result →
        continues_name (slice_index text.now k) ≡ true }
    ensures stop { result < length text.now → continues_name (slice_index text.now result) ≡ false }
{
    let mut end = index;
    while end < text.len() && continues(text[end]) {
        end += 1;
    }
    end
}

/// Where the raw bytes of a quoted text end.
#[inline(always)]
pub(crate) fn raw_end(text: &[u8], index: usize) -> usize
    requires { index ≤ length text.now }
    ensures low { index ≤ result }
    ensures high { result ≤ length text.now }
    ensures within { (k : ℕ) → index ≤ k → k < result → is_raw (slice_index text.now k) ≡ true }
    ensures stop { result < length text.now → is_raw (slice_index text.now result) ≡ false }
{
    let mut end = index;
    while end < text.len() && !matches!(text[end], b'"' | b'\\' | b'\n') {
        end += 1;
    }
    end
}
