//! What is wrong at the place of a refusal, in words.

use crate::hint::plural;
use crate::notes::Subject;
use crate::shown::Shown;
use crate::term_gap::{TermExpected, TermGap};
use crate::text_hints::continues_word;
use scope_check::Note;
use std::fmt;
use str_parser::SyntaxReason;
use term_model::bytes::{is_digit_byte, is_octal_byte, unescaped};
use term_model::symbol::continues;

/// What could stand at the place of a refusal instead, or which rule is broken there.
#[derive(Clone, Copy, Debug, PartialEq, Eq)]
pub enum Wanted {
    InDefinitions(SyntaxReason),
    InTerm(TermExpected),
}

/// As `expected ',' or ')'`, or the rule.
impl fmt::Display for Wanted {
    fn fmt<W: fmt::Write>(&self, f: &mut fmt::Formatter<W>) -> fmt::Result {
        match self {
            Wanted::InDefinitions(reason) => write!(f, "{reason}"),
            Wanted::InTerm(expected) => write!(f, "expected {}", expected.words()),
        }
    }
}

/// What is wrong with a text that is refused.
#[derive(Clone, Copy)]
pub enum Reason {
    OpenComment,
    /// A quoted text is not closed on its line.
    OpenText,
    UnknownEscape,
    IntegerOutOfRange,
    ByteOrderMark,
    /// A line of definitions has `#term` and something else.
    NearlyTermLine,
    /// A line of definitions is `#term`: they are not in the joined form.
    TermLine,
    NoToken(Shown),
    /// A word of a part of the language that is left out.
    LeftOut(Shown),
    /// No phrase goes on with this token.
    Misplaced {
        token: Shown,
        wanted: Wanted,
    },
    /// The text ends where it would have to go on.
    EndsEarly {
        wanted: Wanted,
    },
    /// Definitions are nested deeper than 200 levels.
    NestedTooDeeply,
    NoTerm,
    /// There is no term, since the joined form has no line `#term`.
    NoTermLine,
    /// A term begins at level 1,001.
    TermTooDeep,
    TermTooLarge,
    TermUndeclared,
    /// An application in the term that is not declared, and the number of parts with which its name is.
    UndeclaredApplication {
        name: Shown,
        parts: usize,
        declared: Option<usize>,
    },
    DefinitionsTooLong,
    TermTooLong,
    /// The checks found it.
    Checked(Note),
}

/// Writes a token between quotes, or the number of a byte that cannot be shown.
fn write_token<W: fmt::Write>(token: &Shown, f: &mut fmt::Formatter<W>) -> fmt::Result {
    match token.unprintable_first_byte() {
        Some(byte) => write!(f, "byte 0x{byte:02x}"),
        None => write!(f, "'{token}'"),
    }
}

/// Writes that an application with this number of parts is not declared, and with which number its name is.
fn write_undeclared<W: fmt::Write>(
    name: &Shown,
    parts: usize,
    declared: Option<usize>,
    f: &mut fmt::Formatter<W>,
) -> fmt::Result {
    let s = plural(parts);
    write!(f, "constructor {name} with {parts} part{s} is not declared")?;
    match declared {
        Some(number) => write!(f, " (it is declared with {number})"),
        None => Ok(()),
    }
}

/// A part of a sentence, without a full stop.
impl fmt::Display for Reason {
    fn fmt<W: fmt::Write>(&self, f: &mut fmt::Formatter<W>) -> fmt::Result {
        match self {
            Reason::NoToken(bytes) => {
                write_token(bytes, f)?;
                f.write_str(" begins no token")
            }
            Reason::LeftOut(word) => write!(f, "'{word}' is not supported"),
            Reason::Misplaced { token, wanted } => {
                f.write_str("unexpected ")?;
                write_token(token, f)?;
                write!(f, ": {wanted}")
            }
            Reason::EndsEarly { wanted } => write!(f, "unexpected end of file: {wanted}"),
            Reason::UndeclaredApplication {
                name,
                parts,
                declared,
            } => write_undeclared(name, *parts, *declared, f),
            Reason::Checked(note) => write!(f, "{note}"),
            _ => f.write_str(self.words()),
        }
    }
}

impl Reason {
    /// What is said where no piece of the text is named.
    fn words(&self) -> &'static str {
        match self {
            Reason::OpenComment => "the comment is not closed",
            Reason::OpenText => "the quoted text is not closed on its line",
            Reason::UnknownEscape => "the quoted text has an unknown escape",
            Reason::IntegerOutOfRange => {
                "the integer is not in the range from -9223372036854775808 to 9223372036854775807"
            }
            Reason::ByteOrderMark => "unexpected byte order mark",
            Reason::NearlyTermLine => {
                "'#term' has to be a line of its own, without blanks before or after it"
            }
            Reason::TermLine => {
                "a file of definitions has no line '#term': the joined form is read from standard input"
            }
            Reason::NestedTooDeeply => "this is nested deeper than 200 levels",
            Reason::NoTerm => "there is no term",
            Reason::NoTermLine => "there is no term, since no line of the input is '#term'",
            Reason::TermTooDeep => "the term is deeper than 1000 levels",
            Reason::TermTooLarge => {
                "the term has a weight of more than 16777216 or is deeper than 1000 levels"
            }
            Reason::TermUndeclared => "an application of the term is not declared",
            Reason::DefinitionsTooLong => "the definitions have more than 1048576 bytes",
            Reason::TermTooLong => "the text of the term has more than 16777216 bytes",
            _ => "",
        }
    }
}

/// Whether a name of such a text may go on with the byte.
fn is_in_name(subject: Subject, byte: u8) -> bool {
    match subject {
        Subject::Definitions => continues_word(byte),
        Subject::Term => continues(byte),
    }
}

/// Returns how many bytes of the text belong to the quoted text that it begins with.
fn quoted_length(text: &[u8]) -> usize {
    let mut is_escaped = true;
    for (index, byte) in text.iter().enumerate() {
        if *byte == b'"' && !is_escaped {
            return index.saturating_add(1);
        }
        is_escaped = *byte == b'\\' && !is_escaped;
    }
    text.len()
}

/// Shows the token or word that the text begins with, or its first byte.
fn token_of(subject: Subject, text: &[u8]) -> Shown {
    let length = match text.first() {
        Some(b'"') => quoted_length(text),
        Some(first) if is_in_name(subject, *first) => text
            .iter()
            .position(|byte| !is_in_name(subject, *byte))
            .unwrap_or(text.len()),
        _ => 1,
    };
    let is_arrow = text.starts_with(b"->") || text.starts_with(b"=>");
    let length = if is_arrow || text.starts_with(b"<+") {
        2
    } else {
        length
    };
    Shown::new(&text[..length.min(text.len())])
}

/// Returns what is wrong with the quoted text that the text begins with.
fn quoted_text_reason(text: &[u8]) -> Reason {
    let mut is_escaped = false;
    for byte in text.iter().skip(1) {
        if is_escaped {
            if unescaped(*byte).is_none() && !is_octal_byte(*byte) {
                return Reason::UnknownEscape;
            }
            is_escaped = false;
            continue;
        }
        match *byte {
            b'\\' => is_escaped = true,
            b'\n' => return Reason::OpenText,
            b'"' => return Reason::UnknownEscape,
            _ => {}
        }
    }
    Reason::OpenText
}

/// Whether a line ends after `#term`, with which the text begins.
fn ends_term_line(text: &[u8]) -> bool {
    let rest = text.strip_prefix(b"#term").unwrap_or(text);
    rest.is_empty() || rest.starts_with(b"\n") || rest.starts_with(b"\r\n")
}

/// Returns why definitions have no token where this text begins, which has this text before it.
pub(crate) fn no_token_reason(before: &[u8], text: &[u8]) -> Reason {
    if text.starts_with(b"\"") {
        return quoted_text_reason(text);
    }
    if text.starts_with(b"/*") {
        return Reason::OpenComment;
    }
    if text.starts_with(b"#term") {
        let is_begun = before.is_empty() || before.ends_with(b"\n");
        if is_begun && ends_term_line(text) {
            return Reason::TermLine;
        }
        return Reason::NearlyTermLine;
    }
    if text.starts_with(b"\xEF\xBB\xBF") {
        return Reason::ByteOrderMark;
    }
    match text {
        [b'-', next, ..] if is_digit_byte(*next) => Reason::IntegerOutOfRange,
        [b'-', ..] => Reason::NoToken(Shown::new(b"-")),
        [byte, ..] if is_digit_byte(*byte) => Reason::IntegerOutOfRange,
        _ => Reason::NoToken(token_of(Subject::Definitions, text)),
    }
}

/// Returns the reason for the word with which this text begins, which is left out of the language.
pub(crate) fn left_out_reason(text: &[u8]) -> Reason {
    Reason::LeftOut(token_of(Subject::Definitions, text))
}

/// Returns why no phrase goes on with this rest of a text, where something else is wanted.
pub(crate) fn syntax_reason(subject: Subject, text: &[u8], wanted: Wanted) -> Reason {
    if text.is_empty() {
        return Reason::EndsEarly { wanted };
    }
    let token = token_of(subject, text);
    Reason::Misplaced { token, wanted }
}

/// Whether the text ends with a digit, and the other begins with one.
fn cuts_number(before: &[u8], after: &[u8]) -> bool {
    match (before.last(), after.first()) {
        (Some(last), Some(first)) => is_digit_byte(*last) && is_digit_byte(*first),
        _ => false,
    }
}

/// Returns why this text of a term is no term at the place that has this part of it before it and this part after it.
pub(crate) fn term_syntax_reason(text: &[u8], before: &[u8], after: &[u8]) -> Reason {
    if cuts_number(before, after) {
        return Reason::IntegerOutOfRange;
    }
    let gap = TermGap::after(before);
    match gap.quote() {
        Some(quote) => quoted_text_reason(text.get(quote..).unwrap_or(after)),
        None => {
            let wanted = Wanted::InTerm(gap.expected());
            syntax_reason(Subject::Term, after, wanted)
        }
    }
}
