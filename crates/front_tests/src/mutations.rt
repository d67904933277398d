//! Each edit of a word of valid files is read as a second, plain reading of the grammar says.
mod chart;
mod edits;
mod files;
mod grammar;
pub(crate) mod levels;
mod places;
pub(crate) mod readings;
mod tokens;
mod words;

use chart::Chart;
use edits::{Edit, words_with};
use grammar::{Grammar, grammar_of_tables};
use readings::{Reading, reading_of, second_reading, text};
use std::alloc::{AllocError, Global};
use std::test::Fail;
use words::{Word, words};

const EDITS: [Edit; 5] = [
    Edit::Dropped,
    Edit::Doubled,
    Edit::Swapped,
    Edit::Replaced("#"),
    Edit::Replaced("module"),
];

/// Fails with their text where the readings of the words are not the same.
fn compare(alloc: Global, grammar: &Grammar, words: &[Word<'_>]) -> Result<(), Fail> {
    let text = text(alloc, words)?;
    let found = reading_of(alloc, text.as_bytes());
    let expected = second_reading(alloc, grammar, words)?;
    if found != expected {
        return Err(Fail::new(text));
    }
    Ok(())
}

/// Compares the readings of the edits of the word of this number.
fn compare_edits(
    alloc: Global,
    grammar: &Grammar,
    words: &[Word<'_>],
    at: usize,
) -> Result<(), Fail> {
    for edit in EDITS {
        let edited = words_with(alloc, words, edit, at)?;
        compare(alloc, grammar, &edited)?;
    }
    Ok(())
}

/// Compares the readings of all edits of the words.
fn compare_all(alloc: Global, grammar: &Grammar, words: &[Word<'_>]) -> Result<(), Fail> {
    for at in 0..words.len() {
        compare_edits(alloc, grammar, words, at)?;
    }
    Ok(())
}

/// Compares the readings of all edits of the file.
fn compare_file(alloc: Global, grammar: &Grammar, file: &str) -> Result<(), Fail> {
    let words = words(alloc, file)?;
    compare_all(alloc, grammar, &words)
}

#[test]
fn edits_of_files(rt: HostRuntime) -> Result<(), Fail> {
    let grammar = grammar_of_tables(rt.alloc())?;
    for file in files::ALL {
        compare_file(rt.alloc(), &grammar, file)?;
    }
    Ok(())
}

/// The number of words of the file, which is one by both readings.
fn words_of_file(alloc: Global, grammar: &Grammar, file: &str) -> Result<usize, Fail> {
    if reading_of(alloc, file.as_bytes()) != Reading::File {
        return Err(Fail::new(file));
    }
    let words = words(alloc, file)?;
    compare(alloc, grammar, &words)?;
    Ok(words.len())
}

#[test]
fn unedited_files_are_files(rt: HostRuntime) -> Result<(), Fail> {
    let grammar = grammar_of_tables(rt.alloc())?;
    let mut edits = 0usize;
    for file in files::ALL {
        let number = words_of_file(rt.alloc(), &grammar, file)?;
        edits = edits.saturating_add(EDITS.len().saturating_mul(number));
    }
    if edits < 500 {
        return Err("few edits".into());
    }
    Ok(())
}

/// The unedited file, as a chart.
fn chart_of<'a>(alloc: Global, grammar: &'a Grammar, file: &str) -> Result<Chart<'a>, AllocError> {
    let words = words(alloc, file)?;
    Chart::read(alloc, grammar, &words)
}

/// The unedited files, as charts.
fn charts<'a>(alloc: Global, grammar: &'a Grammar) -> Result<Vec<Chart<'a>>, AllocError> {
    let mut charts = Vec::new(alloc);
    for file in files::ALL {
        charts.push(chart_of(alloc, grammar, file)?)?;
    }
    Ok(charts)
}

/// Whether some chart has each form of the grammar but the empty ones.
fn have_each_form(grammar: &Grammar, charts: &[Chart<'_>]) -> bool {
    for (phrase, forms) in grammar.phrases.iter().enumerate() {
        for (form, symbols) in forms.iter().enumerate() {
            let has_form = charts.iter().any(|chart| chart.has_form(phrase, form));
            if !has_form && !symbols.is_empty() {
                return false;
            }
        }
    }
    true
}

#[test]
fn files_have_each_form(rt: HostRuntime) -> Result<(), Fail> {
    let grammar = grammar_of_tables(rt.alloc())?;
    let charts = charts(rt.alloc(), &grammar)?;
    if !have_each_form(&grammar, &charts) {
        return Err("no file has some form".into());
    }
    Ok(())
}
