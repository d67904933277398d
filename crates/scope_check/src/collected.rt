//! The notes of a file that are collected.

use crate::note::Note;
use std::alloc::Global;

/// The most notes that are collected.
const MOST: usize = 100;

/// The first hundred notes in the text, and how many there were.
#[derive(Drop)]
pub(crate) struct Collected {
    /// In the order of the text, and after them those whose place is not known. Those for which memory is refused are left out.
    pub(crate) notes: Vec<Note>,
    pub(crate) count: usize,
}

impl Collected {
    /// No notes.
    pub(crate) fn new(alloc: Global) -> Collected {
        Collected {
            notes: Vec::new(alloc),
            count: 0,
        }
    }

    /// Whether a note at the offset would be among those that are kept.
    pub(crate) fn has_room_at(&self, offset: u64) -> bool {
        match self.notes.last() {
            Some(last) => self.notes.len() < MOST || offset < last.order(),
            None => true,
        }
    }

    /// Puts the note where it stands in the text, after those at the same place.
    pub(crate) fn add(&mut self, note: Note) {
        self.count = self.count.saturating_add(1);
        let notes = &mut self.notes;
        let after = notes
            .iter()
            .rposition(|other| other.order() <= note.order())
            .map_or(0, |last| last.saturating_add(1));
        if after >= MOST {
            return;
        }
        if notes.len() >= MOST {
            let _ = notes.pop();
        }
        let _ = notes.insert(after.min(notes.len()), note);
    }
}
