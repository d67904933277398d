//! Pieces of a text, and where they stand.

use crate::excerpt::{bytes_in_line, line_feeds};
use crate::explanation::Position;

/// The bytes of a text from one offset up to another, as far as they are there.
pub fn piece(text: &[u8], from: usize, to: usize) -> &[u8] {
    let to = to.min(text.len());
    &text[from.min(to)..to]
}

/// The line and the column of a byte of a text.
pub fn position_in(text: &[u8], offset: usize) -> Position {
    let before = piece(text, 0, offset);
    Position {
        line: line_feeds(before).saturating_add(1),
        column: bytes_in_line(before).saturating_add(1),
    }
}
