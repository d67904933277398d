//! The line of a text around a place, for a person.

use crate::shown::{Shown, is_continuation};
use std::fmt;

/// The most bytes of the line that are shown in front of the place.
const FRONT: usize = 48;

/// A place of a text, and what of its line is shown: 72 bytes at most. Has a fixed size, and takes no memory.
#[derive(Clone, Copy)]
pub struct Excerpt {
    line: usize,
    column: usize,
    shown: Shown,
    /// How many of the characters that are shown stand in front of the place.
    front: usize,
    is_cut: bool,
}

/// Returns the line that the text begins with, without what ends it.
fn first_line(text: &[u8]) -> &[u8] {
    let line = match text.iter().position(|byte| *byte == b'\n') {
        Some(end) => &text[..end],
        None => text,
    };
    match line.split_last() {
        Some((b'\r', rest)) => rest,
        _ => line,
    }
}

/// Returns how many line feeds the text has.
pub fn line_feeds(text: &[u8]) -> usize {
    let mut count: usize = 0;
    for byte in text {
        if *byte == b'\n' {
            count = count.saturating_add(1);
        }
    }
    count
}

/// Returns how many bytes stand after the last line feed.
pub(crate) fn bytes_in_line(text: &[u8]) -> usize {
    let mut count: usize = 0;
    for byte in text {
        count = if *byte == b'\n' {
            0
        } else {
            count.saturating_add(1)
        };
    }
    count
}

/// Returns the first offset of the line from this one on at which no character of UTF-8 is cut in two.
fn boundary_after(line: &[u8], offset: usize) -> usize {
    let rest = &line[offset.min(line.len())..];
    let skipped = rest
        .iter()
        .take(3)
        .take_while(|byte| is_continuation(**byte));
    offset.saturating_add(skipped.count())
}

impl Excerpt {
    /// Shows the line of the text in which the byte of this offset stands. An offset beyond the text is that of its end.
    pub fn new(text: &[u8], offset: usize) -> Excerpt {
        let at = offset.min(text.len());
        let before = &text[..at];
        let in_line = bytes_in_line(before);
        let line = first_line(&text[at.saturating_sub(in_line)..]);
        let left_out = boundary_after(line, in_line.saturating_sub(FRONT));
        let shown = Shown::new(&line[left_out.min(line.len())..]);
        Excerpt {
            line: line_feeds(before).saturating_add(1),
            column: in_line.saturating_add(1),
            shown,
            front: shown.characters(in_line.saturating_sub(left_out)),
            is_cut: left_out > 0,
        }
    }

    /// The number of the line, from 1. A line ends at its line feed.
    pub fn line(&self) -> usize {
        self.line
    }

    /// How many bytes of the line stand in front of the place, and one more.
    pub fn column(&self) -> usize {
        self.column
    }
}

/// Two lines without the end of the second: what is shown, and a mark under the place.
impl fmt::Display for Excerpt {
    fn fmt<W: fmt::Write>(&self, f: &mut fmt::Formatter<W>) -> fmt::Result {
        let margin = if self.is_cut { "  .." } else { "    " };
        let shown = self.shown;
        write!(f, "{margin}{shown}\n    ")?;
        for _ in 0..self.front {
            write!(f, " ")?;
        }
        write!(f, "^")
    }
}
