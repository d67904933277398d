//! Pieces of a text for a person, of a fixed size.
ghost use Rattle.std.specs.Prelude.{◌≤◌};

use std::{fmt, str};

/// The most bytes that are shown.
const MOST_SHOWN: usize = 72;

/// The first bytes of a piece of text, at most 72 and without half a character at the end. A tab is a blank, and each other ASCII byte that is
/// not printable is `?`; so is each byte above ASCII, unless the bytes shown are UTF-8 in which each character above ASCII can be seen.
#[derive(Clone, Copy)]
pub struct Shown {
    bytes: [u8; MOST_SHOWN],
    length: usize,
    is_cut: bool,
    /// The first byte, if it is no printable character of ASCII.
    unprintable_first_byte: Option<u8>,
    ghost within: { length ≤ 72 },
}

/// Returns what is shown for the byte.
fn printable(byte: u8) -> u8 {
    if byte == b'\t' {
        return b' ';
    }
    if byte.is_ascii_graphic() || byte == b' ' {
        return byte;
    }
    b'?'
}

/// Returns how many bytes of the text are shown: at most 72, and no half of a character.
fn whole_length(text: &[u8]) -> usize
    ensures { result ≤ 72 }
{
    let most = text.len().min(MOST_SHOWN);
    let last = text[..most]
        .iter()
        .rposition(|byte| !is_continuation(*byte));
    let whole = match last {
        Some(last) if most < text.len() && !text[last].is_ascii() => last,
        _ => most,
    };
    whole.min(MOST_SHOWN)
}

/// Whether the byte goes on with a character of several bytes, in UTF-8.
pub(crate) fn is_continuation(byte: u8) -> bool {
    (0x80..0xC0).contains(&byte)
}

/// Whether the text is UTF-8 in which each character can be seen.
fn is_readable(text: &[u8]) -> bool {
    let mut before: u8 = 0;
    let mut last: u8 = 0;
    for byte in text {
        if is_unseen(before, last, *byte) {
            return false;
        }
        before = last;
        last = *byte;
    }
    str::from_utf8(text).is_ok()
}

/// Whether these bytes end with a control character above ASCII, one without width, one that turns the direction, or a byte order mark.
fn is_unseen(first: u8, second: u8, third: u8) -> bool {
    match (first, second) {
        (_, 0xC2) => third < 0xA0,
        (0xE2, 0x80) => (0x8B..0x90).contains(&third) || (0xA8..0xAF).contains(&third),
        (0xE2, 0x81) => (0xA0..0xB0).contains(&third),
        (0xEF, 0xBB) => third == 0xBF,
        _ => false,
    }
}

impl Shown {
    /// Shows the piece of text.
    pub fn new(text: &[u8]) -> Shown {
        let length = whole_length(text);
        let is_readable = is_readable(&text[..length.min(text.len())]);
        let mut bytes = [0; MOST_SHOWN];
        for (place, byte) in bytes.iter_mut().zip(text) {
            *place = if is_readable && !byte.is_ascii() {
                *byte
            } else {
                printable(*byte)
            };
        }
        Shown {
            bytes,
            length,
            is_cut: text.len() > length,
            unprintable_first_byte: text
                .first()
                .copied()
                .filter(|byte| printable(*byte) != *byte),
        }
    }

    /// The first byte, if it is no printable character of ASCII.
    pub(crate) fn unprintable_first_byte(&self) -> Option<u8> {
        self.unprintable_first_byte
    }

    /// How many characters the first bytes are, this number of them.
    pub(crate) fn characters(&self, count: usize) -> usize {
        let mut found: usize = 0;
        for byte in self.bytes.iter().take(count) {
            if !is_continuation(*byte) {
                found = found.saturating_add(1);
            }
        }
        found
    }
}

/// The bytes, and `..` after them where they are not all.
impl fmt::Display for Shown {
    fn fmt<W: fmt::Write>(&self, f: &mut fmt::Formatter<W>) -> fmt::Result {
        let bytes = str::from_utf8(&self.bytes[..self.length]).unwrap_or("?");
        let dots = if self.is_cut { ".." } else { "" };
        write!(f, "{bytes}{dots}")
    }
}
