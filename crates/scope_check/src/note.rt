//! Where a file is at fault, for a person.
ghost use Rattle.std.specs.Prelude.{◌≡◌, ◌≤◌};

use crate::detail::Detail;
use std::{fmt, str};
use str_syntax::Name;

/// The most bytes of a name that are kept.
const MOST: usize = 64;

/// Where the name stands in the file. A name of the library has offset 0, where in a file the word of a section begins.
pub(crate) fn place_of(name: &Name) -> Option<u64> {
    match name.offset() {
        0 => None,
        offset => Some(offset),
    }
}

/// A place of a file that is at fault: the name that stands there, cut to 64 bytes, and what is wrong with it.
#[derive(Clone, Copy)]
pub struct Note {
    detail: Detail,
    offset: Option<u64>,
    bytes: [u8; MOST],
    length: usize,
    is_cut: bool,
    ghost within: { length ≤ 64 },
}

/// Returns the byte where it is a printable character of ASCII, and `?` for any other.
fn printable(byte: u8) -> u8 {
    if byte.is_ascii_graphic() || byte == b' ' {
        return byte;
    }
    b'?'
}

impl Note {
    /// Makes the note about this name.
    pub(crate) fn new(detail: Detail, offset: Option<u64>, name: &[u8]) -> Note
        ensures { result.detail ≡ detail }
    {
        let length = name.len().min(MOST);
        let mut bytes = [0; MOST];
        for (place, byte) in bytes.iter_mut().zip(name) {
            *place = printable(*byte);
        }
        Note {
            detail,
            offset,
            bytes,
            length,
            is_cut: name.len() > MOST,
        }
    }

    /// What is wrong with the name.
    pub fn detail(&self) -> Detail
        ensures { result ≡ self.now.detail }
    {
        self.detail
    }

    /// The byte of the file at which the name stands. Of a primitive, of the name that was asked for and of a name of the library none
    /// is known.
    pub fn offset(&self) -> Option<u64> {
        self.offset
    }

    /// The first 64 bytes of the name, with `?` for each that is no printable character of ASCII.
    pub fn name(&self) -> &[u8] {
        &self.bytes[..self.length]
    }

    /// The offset, and where none is known one after all others.
    pub(crate) fn order(&self) -> u64 {
        self.offset.unwrap_or(u64::MAX)
    }
}

/// One line of text without its end: the name, what it is a name of, and what is wrong with it.
impl fmt::Display for Note {
    fn fmt<W: fmt::Write>(&self, f: &mut fmt::Formatter<W>) -> fmt::Result {
        let subject = self.detail.subject();
        let name = str::from_utf8(self.name()).unwrap_or("?");
        let dots = if self.is_cut { ".." } else { "" };
        let detail = self.detail;
        write!(f, "{subject} {name}{dots}{detail}")
    }
}
