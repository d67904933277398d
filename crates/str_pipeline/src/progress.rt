//! How far files were read.

/// How far a file was read, of several that are read as one text.
#[derive(Clone, Copy, Debug, PartialEq, Eq)]
pub struct FileProgress {
    /// The number of bytes that were read for it: its own, and a line feed after them if another file comes next.
    pub bytes: usize,
    /// How many of them are line feeds.
    pub line_feeds: usize,
    /// Whether all of it was read.
    pub is_ended: bool,
}

/// Returns how many bytes were read for all files but the last.
pub(crate) fn library_bytes(files: &[FileProgress]) -> usize {
    let Some((_, library)) = files.split_last() else {
        return 0;
    };
    let mut sum: usize = 0;
    for file in library {
        sum = sum.saturating_add(file.bytes);
    }
    sum
}
