//! What was probably meant by bytes that begin no token, by words that are left out, and by a text that is no term.

use crate::advice::Advice;
use crate::hint::Hint;
use crate::operations::sign_hint;
use crate::shown::Shown;
use std::alloc::Global;
use term_model::bytes::{is_blank_byte, is_digit_byte};

/// What a run prints in place of a term.
const OUTCOMES: &[&str] = &["#failed", "#refused", "#spent", "#oversize"];

/// The words with which definitions begin.
const BEGINNINGS: &[&str] = &["module", "imports", "signature", "rules", "strategies"];

/// The words that are left out, and what to write instead.
const LEFT_OUT: &[(&str, Advice)] = &[
    ("module", Advice::Module),
    ("imports", Advice::Imports),
    ("overlays", Advice::Overlays),
    ("with", Advice::With),
    ("switch", Advice::Conditional),
    ("case", Advice::Conditional),
    ("otherwise", Advice::Otherwise),
    ("external", Advice::External),
];

/// What was probably meant where no token of definitions begins, between these two parts of the text.
pub(crate) fn lexical_hint(alloc: Global, before: &[u8], after: &[u8]) -> Option<Hint> {
    if begins_with_outcome(after) {
        return Some(Hint::Advice(Advice::Outcome));
    }
    let follows_name = before.last().is_some_and(|last| continues_word(*last));
    match after.first() {
        Some(b'#') if follows_name && after.starts_with(b"#(") => {
            Some(Hint::Advice(Advice::AnyConstructor))
        }
        Some(b'#') if !after.starts_with(b"#term") => Some(Hint::Advice(Advice::Comment)),
        Some(b'$') => Some(Hint::Advice(Advice::Interpolation)),
        Some(b'\'') => Some(Hint::Advice(Advice::SingleQuotes)),
        Some(b'-' | b'/') => sign_hint(alloc, before, after),
        _ => common_hint(before, after),
    }
}

/// What to write in place of the word that is left out, with which the text begins.
pub(crate) fn left_out_hint(text: &[u8]) -> Option<Hint> {
    for (word, advice) in LEFT_OUT {
        if begins_with_word(text, word.as_bytes()) {
            return Some(if is_name_before(&text[word.len().min(text.len())..]) {
                Hint::KeywordAsName(Shown::new(word.as_bytes()))
            } else {
                Hint::Advice(*advice)
            });
        }
    }
    None
}

/// Whether what comes before this text seems to be a name: one that is defined, a variable or an argument.
fn is_name_before(text: &[u8]) -> bool {
    let at = text.iter().position(|byte| !is_blank_byte(*byte));
    let next = at.and_then(|index| text.get(index));
    matches!(
        next,
        Some(b',' | b')' | b'-' | b'=' | b':' | b';' | b']' | b'@')
    )
}

/// What was probably meant where the text stops being a term, between these two parts of it.
pub(crate) fn term_hint(text: &[u8], before: &[u8], after: &[u8]) -> Option<Hint> {
    let start = text
        .iter()
        .position(|byte| !is_blank_byte(*byte))
        .unwrap_or(text.len());
    let trimmed = &text[start.min(text.len())..];
    if begins_with_outcome(trimmed) {
        return Some(Hint::Advice(Advice::Outcome));
    }
    let mut beginnings = BEGINNINGS.iter();
    if beginnings.any(|word| begins_with_word(trimmed, word.as_bytes())) {
        return Some(Hint::Advice(Advice::Definitions));
    }
    match after.first() {
        Some(b'/') => Some(Hint::Advice(Advice::CommentInTerm)),
        Some(b'\'') => Some(Hint::Advice(Advice::SingleQuotes)),
        _ => common_hint(before, after),
    }
}

/// What was probably meant by bytes that can stand there neither in definitions nor in a term.
fn common_hint(before: &[u8], after: &[u8]) -> Option<Hint> {
    if after.starts_with(b"\xEF\xBB\xBF") {
        return Some(Hint::Advice(Advice::ByteOrderMark));
    }
    let follows_digit = before.last().is_some_and(|last| is_digit_byte(*last));
    match after.first() {
        Some(b'.') if follows_digit => Some(Hint::Advice(Advice::RealNumber)),
        Some(byte) if !byte.is_ascii() => Some(Hint::Advice(Advice::NotAscii)),
        _ => None,
    }
}

/// Whether the text begins with what a run prints in place of a term.
fn begins_with_outcome(text: &[u8]) -> bool {
    OUTCOMES
        .iter()
        .any(|outcome| begins_with_word(text, outcome.as_bytes()))
}

/// Whether the text begins with the word, and with no longer one.
fn begins_with_word(text: &[u8], word: &[u8]) -> bool {
    match text.strip_prefix(word) {
        Some(rest) => !rest.first().is_some_and(|next| continues_word(*next)),
        None => false,
    }
}

/// Whether a name or another word of definitions may go on with the byte.
pub(crate) fn continues_word(byte: u8) -> bool {
    byte.is_ascii_alphanumeric() || matches!(byte, b'_' | b'-' | b'\'')
}
