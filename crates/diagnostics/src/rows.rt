//! Rows of tables of what a run did.

use itoa::Buffer;
use std::alloc::AllocError;

/// One line of a table: its text and, if it is about a line of the definitions, that line, whose file and number come after the text.
#[derive(Drop)]
pub struct Row {
    pub text: Vec<u8>,
    pub line: Option<usize>,
    /// What comes last.
    pub note: &'static str,
}

/// Puts bytes on the line, with as many blanks in front as make them this wide. An error is a refused growth; the line then stays as it is,
/// or has blanks more.
pub fn push_right(bytes: &[u8], width: usize, line: &mut Vec<u8>) -> Result<(), AllocError> {
    for _ in bytes.len()..width {
        line.push(b' ')?;
    }
    line.extend_from_slice(bytes)
}

/// Puts a number on the line, with as many blanks in front as make it this wide. An error is a refused growth; the line then stays as it is, or
/// has blanks more.
pub fn push_number_right(number: u64, width: usize, line: &mut Vec<u8>) -> Result<(), AllocError> {
    let mut digits = Buffer::new();
    push_right(digits.format(number).as_bytes(), width, line)
}
