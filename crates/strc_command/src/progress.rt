//! How far files were read.
use std::alloc::{AllocError, Global};
use str_pipeline::FileProgress;

/// How far files were read that are read one after another.
#[derive(Drop)]
pub(crate) struct Progress {
    files: Vec<FileProgress>,
    /// The index of the file that is read.
    current: usize,
}

impl Progress {
    /// Returns the progress of this number of files, of which nothing was read.
    pub(crate) fn new(alloc: Global, count: usize) -> Result<Progress, AllocError> {
        let unread = FileProgress {
            bytes: 0,
            line_feeds: 0,
            is_ended: false,
        };
        Ok(Progress {
            files: Vec::from_elem(alloc, unread, count)?,
            current: 0,
        })
    }

    /// Notes that these bytes were read for the file that is read.
    pub(crate) fn note(&mut self, piece: &[u8]) {
        let Some(file) = self.files.get_mut(self.current) else {
            return;
        };
        file.bytes = file.bytes.saturating_add(piece.len());
        for byte in piece {
            if *byte == b'\n' {
                file.line_feeds = file.line_feeds.saturating_add(1);
            }
        }
    }

    /// Notes that all of the file was read.
    pub(crate) fn end(&mut self) {
        if let Some(file) = self.files.get_mut(self.current) {
            file.is_ended = true;
        }
    }

    /// Notes that all of the file was read, and that the next one is read now.
    pub(crate) fn advance(&mut self) {
        self.end();
        self.current = self.current.saturating_add(1);
    }

    /// Returns how far each file was read, in their order.
    pub(crate) fn files(&self) -> &[FileProgress] {
        &self.files
    }
}
