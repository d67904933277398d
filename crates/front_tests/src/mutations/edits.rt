//! The edits of a row of words.
use super::words::{Word, word_of};
use std::alloc::{AllocError, Global};

/// What is done to a word.
#[derive(Clone, Copy, PartialEq, Eq)]
pub(crate) enum Edit {
    Dropped,
    Doubled,
    /// It changes places with the next word.
    Swapped,
    Replaced(&'static str),
}

/// What is put in the place of the word.
fn put<'a>(
    edited: &mut Vec<Word<'a>>,
    edit: Edit,
    old: Word<'a>,
    next: Option<Word<'a>>,
) -> Result<(), AllocError> {
    match edit {
        Edit::Dropped => Ok(()),
        Edit::Doubled => edited.extend_from_slice(&[old, old]),
        Edit::Swapped => {
            if let Some(next) = next {
                edited.push(next)?;
            }
            edited.push(old)?;
            Ok(())
        }
        Edit::Replaced(other) => {
            edited.push(word_of(other))?;
            Ok(())
        }
    }
}

/// The words with this edit of the word of this number.
pub(crate) fn words_with<'a>(
    alloc: Global,
    words: &[Word<'a>],
    edit: Edit,
    at: usize,
) -> Result<Vec<Word<'a>>, AllocError> {
    let next = at.saturating_add(1);
    let mut edited = Vec::new(alloc);
    for (number, old) in words.iter().enumerate() {
        if number == at {
            put(&mut edited, edit, *old, words.get(next).copied())?;
        } else if number != next || edit != Edit::Swapped {
            edited.push(*old)?;
        }
    }
    Ok(edited)
}
