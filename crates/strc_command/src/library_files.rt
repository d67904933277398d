//! Files that are read in front of definitions that come from elsewhere.
ghost use Rattle.std.specs.Prelude.{◌≡◌, map, IfOk};
ghost use Rattle.strc_command.specs.Files.{libraries_left, library_calls, library_failures, text_in_front};

use crate::progress::Progress;
use std::alloc::{AllocError, Global};
use std::collections::VecDeque;
use std::io::ErrorKind;
use str_pipeline::{Count, FileProgress, Source};

/// A reader of files as one text: the bytes of the files one after another, and a line feed after each of them. Each read is at most one read
/// of a file, and takes no memory.
#[derive(Drop)]
pub(crate) struct LibraryFiles<R> {
    /// The readers of the files that are not read to their ends.
    waiting: VecDeque<R>,
    calls: Count,
    failed: Count,
    progress: Progress,
}

impl<R: Source + Drop> LibraryFiles<R> {
    /// Makes a reader of these files, in their order, with no call counted yet.
    pub(crate) fn new(alloc: Global, files: VecDeque<R>) -> Result<LibraryFiles<R>, AllocError>
        ensures readers { IfOk result (λ f. libraries_left f ≡ files.items) }
    {
        let progress = Progress::new(alloc, files.len())?;
        Ok(LibraryFiles {
            waiting: files,
            calls: Count::new(),
            failed: Count::new(),
            progress,
        })
    }
}

impl<R: Source + Drop> Source for LibraryFiles<R> {
    ghost reader = { record {
      coming = λ f. text_in_front (map R.reader.coming (libraries_left f));
      reads = λ f. library_calls f;
      failed_reads = λ f. library_failures f;
    } };

    /// Reads from the first file that is not read to its end. The call that finds its end gives the line feed after it.
    fn read(&mut self, piece: &mut [u8]) -> Option<usize> {
        self.calls.step();
        let Some(file) = self.waiting.front_mut() else {
            return Some(0);
        };
        let Some(count) = file.read(piece) else {
            self.failed.step();
            return None;
        };
        if count > 0 || piece.is_empty() {
            self.progress.note(&piece[..count]);
            return Some(count);
        }
        let _ = self.waiting.pop_front();
        piece[0] = b'\n';
        self.progress.note(&piece[..1]);
        self.progress.advance();
        Some(1)
    }

    fn failure(&self) -> Option<ErrorKind> {
        match self.waiting.front() {
            Some(file) => file.failure(),
            None => None,
        }
    }

    fn files(&self) -> &[FileProgress] {
        self.progress.files()
    }
}
