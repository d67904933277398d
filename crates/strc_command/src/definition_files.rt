//! Definitions that come from several files.
ghost use Rattle.std.specs.Prelude.{◌≡◌, ◌∷◌, ◌++◌, [], map, IfOk};
ghost use Rattle.strc_command.specs.Files.{whole_text, readers_of, calls_of, failures_of};

use crate::progress::Progress;
use std::alloc::{AllocError, Global};
use std::collections::VecDeque;
use std::io::ErrorKind;
use str_pipeline::{Count, FileProgress, Source};

/// A reader of files as one text: the bytes of the files one after another, and a line feed between a file and the next one. Each read is at
/// most one read of a file, and takes no memory.
#[derive(Drop)]
pub(crate) struct DefinitionFiles<R> {
    /// The reader of the file that is read.
    current: R,
    /// Those of the files that come after it.
    waiting: VecDeque<R>,
    calls: Count,
    failed: Count,
    progress: Progress,
}

impl<R: Source + Drop> DefinitionFiles<R> {
    /// Makes a reader of the files of a library, in their order, and of the file of the definitions after them, with no call counted yet.
    pub(crate) fn new(
        alloc: Global,
        libraries: VecDeque<R>,
        definitions: R,
    ) -> Result<DefinitionFiles<R>, AllocError>
        ensures readers { IfOk result (λ f. readers_of f ≡ libraries.items ++ definitions ∷ []) }
        ensures calls { IfOk result (λ f. calls_of f ≡ 0) }
        ensures failures { IfOk result (λ f. failures_of f ≡ 0) }
    {
        let progress = Progress::new(alloc, libraries.len().saturating_add(1))?;
        let mut waiting = libraries;
        let current = match waiting.pop_front() {
            Some(first) => {
                waiting.push_back(definitions)?;
                first
            }
            None => definitions,
        };
        Ok(DefinitionFiles {
            current,
            waiting,
            calls: Count::new(),
            failed: Count::new(),
            progress,
        })
    }
}

impl<R: Source + Drop> Source for DefinitionFiles<R> {
    ghost reader = { record {
      coming = λ f. whole_text (map R.reader.coming (readers_of f));
      reads = λ f. calls_of f;
      failed_reads = λ f. failures_of f;
    } };

    /// Reads from the file that is read. If it is at its end and another file waits, that one is read from the next call on, and this call
    /// gives the line feed between the two.
    fn read(&mut self, piece: &mut [u8]) -> Option<usize> {
        self.calls.step();
        let Some(count) = self.current.read(piece) else {
            self.failed.step();
            return None;
        };
        if count > 0 || piece.is_empty() {
            self.progress.note(&piece[..count]);
            return Some(count);
        }
        let Some(next) = self.waiting.pop_front() else {
            self.progress.end();
            return Some(0);
        };
        self.current = next;
        piece[0] = b'\n';
        self.progress.note(&piece[..1]);
        self.progress.advance();
        Some(1)
    }

    fn failure(&self) -> Option<ErrorKind> {
        self.current.failure()
    }

    fn files(&self) -> &[FileProgress] {
        self.progress.files()
    }
}
