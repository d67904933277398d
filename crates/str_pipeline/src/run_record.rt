//! A run whose instructions were counted, and the definitions that it was of.

use crate::counters::Counters;
use crate::definition_counts::{DefinitionCounts, NamePlace};
use diagnostics::{Listing, MOST_OF_NAME, Row, push_cut, push_number};
use std::alloc::{AllocError, Global};

/// A run whose instructions were counted, and the definitions that it was of.
#[derive(Clone, Copy)]
pub(crate) struct RunRecord<'a> {
    pub(crate) alloc: Global,
    pub(crate) listing: &'a Listing<'a>,
    /// How many bytes of the definitions, from the first on, are those of files in front of the last one.
    pub(crate) library: usize,
    pub(crate) counters: Counters<'a>,
    pub(crate) definitions: &'a [DefinitionCounts],
    /// The names of the definitions of the library.
    pub(crate) library_names: &'a [&'a [u8]],
}

impl<'a> RunRecord<'a> {
    /// Returns the name of a definition.
    pub(crate) fn name_of(self, definition: &DefinitionCounts) -> &'a [u8] {
        match definition.name {
            NamePlace::InLibrary(index) => match self.library_names.get(index) {
                Some(name) => *name,
                None => b"?",
            },
            NamePlace::InText(offset) => match self.listing.head_before(offset) {
                Some(head) => self.listing.name_of(head),
                None => b"?",
            },
        }
    }

    /// Returns the line of a byte of the definitions; nothing for the library.
    pub(crate) fn line_of(self, offset: usize) -> Option<usize> {
        if offset == 0 {
            return None;
        }
        Some(self.listing.position(offset).line)
    }

    /// Returns the line of a byte in the last file of definitions; nothing for one of the files in front of it.
    pub(crate) fn line_in_last_file(self, offset: usize) -> Option<usize> {
        if offset < self.library {
            return None;
        }
        let before = self.listing.position(self.library).line.saturating_sub(1);
        Some(self.listing.position(offset).line.saturating_sub(before))
    }
}

/// Adds a row that is about no line.
pub(crate) fn push_text(text: Vec<u8>, rows: &mut Vec<Row>) -> Result<(), AllocError> {
    rows.push(Row {
        text,
        line: None,
        note: "",
    })?;
    Ok(())
}

/// Puts a name on the line, as much of it as is shown.
pub(crate) fn push_name(name: &[u8], line: &mut Vec<u8>) -> Result<(), AllocError> {
    push_cut(name, MOST_OF_NAME, line)
}

/// Adds a row that says how many rows more there would be, if any.
pub(crate) fn push_hidden(
    alloc: Global,
    hidden: usize,
    rows: &mut Vec<Row>,
) -> Result<(), AllocError> {
    if hidden == 0 {
        return Ok(());
    }
    let mut text = b"  .. and ".to_vec(alloc)?;
    push_number(hidden as u64, &mut text)?;
    text.extend_from_slice(b" more of these")?;
    push_text(text, rows)
}
