//! The words of a file, each with its kind.
use std::alloc::{AllocError, Global};

/// What a word is.
#[derive(Clone, Copy, PartialEq, Eq)]
pub(crate) enum Kind {
    PlainName,
    /// A name with a '.
    PrimedName,
    Integer,
    Quoted,
    /// A mark, a keyword, the wildcard or no token.
    Other,
}

/// A word of a file.
#[derive(Clone, Copy)]
pub(crate) struct Word<'a> {
    pub(crate) kind: Kind,
    pub(crate) text: &'a str,
}

const KEYWORDS: [&str; 20] = [
    "signature",
    "sorts",
    "constructors",
    "rules",
    "strategies",
    "id",
    "fail",
    "where",
    "not",
    "if",
    "then",
    "else",
    "end",
    "all",
    "one",
    "some",
    "rec",
    "let",
    "in",
    "prim",
];

/// The kind of a word that begins with a letter or _.
fn kind_of_name(text: &str) -> Kind {
    if text == "_" || KEYWORDS.iter().any(|keyword| *keyword == text) {
        return Kind::Other;
    }
    if text.as_bytes().contains(&b'\'') {
        return Kind::PrimedName;
    }
    Kind::PlainName
}

/// The kind of a word that begins and ends so.
fn kind_of(first: u8, last: u8, text: &str) -> Kind {
    if first.is_ascii_alphabetic() || first == b'_' {
        return kind_of_name(text);
    }
    if last.is_ascii_digit() {
        return Kind::Integer;
    }
    if first == b'"' {
        return Kind::Quoted;
    }
    Kind::Other
}

/// The word of this text.
pub(crate) fn word_of<'a>(text: &'a str) -> Word<'a> {
    let bytes = text.as_bytes();
    let kind = match (bytes.first(), bytes.last()) {
        (Some(first), Some(last)) => kind_of(*first, *last, text),
        _ => Kind::Other,
    };
    Word { kind, text }
}

/// The words of a text, which has blanks between them.
pub(crate) fn words<'a>(alloc: Global, text: &'a str) -> Result<Vec<Word<'a>>, AllocError> {
    let mut words = Vec::new(alloc);
    for part in text.split_whitespace() {
        words.push(word_of(part))?;
    }
    Ok(words)
}
