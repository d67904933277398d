//! What a text is read as, by `lex` and `parse`, and what words are by the second reading.
use super::chart::Chart;
use super::grammar::Grammar;
use super::words::Word;
use std::alloc::{AllocError, Global};
use str_lexer::lex;
use str_parser::parse;
use term_model::Fault;

/// A file, or the refusal and the byte at which it stands.
#[derive(Clone, Copy, PartialEq, Eq)]
pub(crate) enum Reading {
    File,
    Lexical(u64),
    ReservedWord(u64),
    Syntax(u64),
    Nesting(u64),
    OtherFault,
}

fn refusal(fault: Fault) -> Reading {
    match fault {
        Fault::Lexical { at } => Reading::Lexical(at),
        Fault::ReservedWord { at } => Reading::ReservedWord(at),
        Fault::Syntax { at } => Reading::Syntax(at),
        Fault::Nesting { at } => Reading::Nesting(at),
        _ => Reading::OtherFault,
    }
}

/// What `lex` and `parse` read the text as.
pub(crate) fn reading_of(alloc: Global, text: &[u8]) -> Reading {
    let tokens = match lex(alloc, text) {
        Ok(tokens) => tokens,
        Err(fault) => return refusal(fault),
    };
    match parse(alloc, text, &tokens) {
        Ok(_) => Reading::File,
        Err(fault) => refusal(fault),
    }
}

/// What they read the text of these pieces as.
pub(crate) fn reading_of_pieces(
    alloc: Global,
    front: &str,
    back: &str,
) -> Result<Reading, AllocError> {
    let mut text = String::from_str(alloc, front)?;
    text.push_str(back)?;
    Ok(reading_of(alloc, text.as_bytes()))
}

/// The words, with a blank after each.
pub(crate) fn text(alloc: Global, words: &[Word<'_>]) -> Result<String, AllocError> {
    let mut text = String::new(alloc);
    for word in words {
        text.push_str(word.text)?;
        text.push_str(" ")?;
    }
    Ok(text)
}

/// Where the word of this number begins in the text of the words; after the last word the text ends.
fn offset(words: &[Word<'_>], number: usize) -> u64 {
    let mut offset = 0u64;
    for word in words.iter().take(number) {
        offset = offset
            .saturating_add(word.text.len() as u64)
            .saturating_add(1);
    }
    offset
}

/// Where the first of these words begins.
fn first_offset(words: &[Word<'_>], sought: &str) -> Option<u64> {
    let number = words.iter().position(|word| word.text == sought)?;
    Some(offset(words, number))
}

/// What the words are by the second reading: `#` is no token, and `module` a word of a part that is left out.
pub(crate) fn second_reading(
    alloc: Global,
    grammar: &Grammar,
    words: &[Word<'_>],
) -> Result<Reading, AllocError> {
    if let Some(at) = first_offset(words, "#") {
        return Ok(Reading::Lexical(at));
    }
    if let Some(at) = first_offset(words, "module") {
        return Ok(Reading::ReservedWord(at));
    }
    let chart = Chart::read(alloc, grammar, words)?;
    Ok(match chart.fault {
        Some(number) => Reading::Syntax(offset(words, number)),
        None => Reading::File,
    })
}
