//! Pieces of a line of an explanation.

use crate::shown::is_continuation;
use itoa::Buffer;
use std::alloc::AllocError;

/// The most bytes of a name that are shown.
pub const MOST_OF_NAME: usize = 60;

/// Puts a number on the line. An error is a refused growth; the line then stays as it is.
pub fn push_number(number: u64, line: &mut Vec<u8>) -> Result<(), AllocError> {
    let mut digits = Buffer::new();
    line.extend_from_slice(digits.format(number).as_bytes())
}

/// Puts bytes on the line, this number of them at most, and `..` after them where they are not all. No character is cut in two. An error is a
/// refused growth; the line then stays as it is, or has the bytes without the `..`.
pub fn push_cut(bytes: &[u8], most: usize, line: &mut Vec<u8>) -> Result<(), AllocError> {
    if bytes.len() <= most {
        return line.extend_from_slice(bytes);
    }
    let shown = &bytes[..most];
    let last = shown.iter().rposition(|byte| !is_continuation(*byte));
    let whole = match last {
        Some(last) if begins_character(shown[last]) => &shown[..last],
        _ => shown,
    };
    line.extend_from_slice(whole)?;
    line.extend_from_slice(b"..")
}

/// Whether a character of several bytes begins with the byte, in UTF-8.
fn begins_character(byte: u8) -> bool {
    byte >= 0xC0
}
