//! The second reading: a chart of all phrases that the words can be part of, over the table of productions.
use super::grammar::{Grammar, Symbol, begins_build};
use super::words::Word;
use std::alloc::{AllocError, Global};

/// More than the entries of any place of a chart.
const MOST_ENTRIES: usize = 100_000;

/// A form of a phrase that begins at a place, read up to its part of this number.
#[derive(Clone, Copy, PartialEq, Eq)]
struct Entry {
    phrase: usize,
    form: usize,
    part: usize,
    from: usize,
}

/// The entries of each place between words that were read.
#[derive(Drop)]
pub(crate) struct Chart<'a> {
    grammar: &'a Grammar,
    places: Vec<Vec<Entry>>,
    /// The number of the first word with which no file goes on, or that of all words where more would have to follow.
    pub(crate) fault: Option<usize>,
}

impl Entry {
    /// None of this form of this phrase, which begins at this place.
    fn new(phrase: usize, form: usize, from: usize) -> Entry {
        Entry {
            phrase,
            form,
            part: 0,
            from,
        }
    }

    /// The entry one part further.
    fn next_entry(self) -> Entry {
        Entry {
            part: self.part.saturating_add(1),
            ..self
        }
    }
}

/// Adds the entry, where it is not there yet.
fn add(entries: &mut Vec<Entry>, entry: Entry) -> Result<(), AllocError> {
    if !entries.contains(&entry) {
        entries.push(entry)?;
    }
    Ok(())
}

/// Whether the form can begin with this word, as far as its first symbol says.
fn can_begin(form: &[Symbol], word: Option<Word<'_>>) -> bool {
    match form.first() {
        None | Some(Symbol::Phrase(_)) => true,
        Some(symbol) => word.is_some_and(|word| symbol.is_for(word)),
    }
}

impl<'a> Chart<'a> {
    /// What comes next in the entry.
    fn next(&self, entry: Entry) -> Option<Symbol> {
        let forms = self.grammar.phrases.get(entry.phrase)?;
        forms.get(entry.form)?.get(entry.part).copied()
    }

    /// Adds the forms of a phrase that comes next in an entry, but for those that cannot begin with this word.
    fn predict(
        &self,
        entries: &mut Vec<Entry>,
        entry: Entry,
        phrase: usize,
        word: Option<Word<'_>>,
    ) -> Result<(), AllocError> {
        let Some(forms) = self.grammar.phrases.get(phrase) else {
            return Ok(());
        };
        for (form, symbols) in forms.iter().enumerate() {
            if symbols.is_empty() {
                add(entries, entry.next_entry())?;
            } else if can_begin(symbols, word) {
                add(entries, Entry::new(phrase, form, self.places.len()))?;
            }
        }
        Ok(())
    }

    /// Adds what goes on after a phrase that is whole.
    fn complete(&self, entries: &mut Vec<Entry>, whole: Entry) -> Result<(), AllocError> {
        let Some(waiting) = self.places.get(whole.from) else {
            return Ok(());
        };
        for entry in waiting {
            if self.next(*entry) == Some(Symbol::Phrase(whole.phrase)) {
                add(entries, entry.next_entry())?;
            }
        }
        Ok(())
    }

    /// Adds what follows from an entry before this word, or before the end.
    fn follow(
        &self,
        entries: &mut Vec<Entry>,
        entry: Entry,
        word: Option<Word<'_>>,
    ) -> Result<(), AllocError> {
        match self.next(entry) {
            None => self.complete(entries, entry),
            Some(Symbol::Phrase(phrase)) => self.predict(entries, entry, phrase, word),
            Some(Symbol::NoBuild) if !word.is_some_and(begins_build) => {
                add(entries, entry.next_entry())
            }
            Some(_) => Ok(()),
        }
    }

    /// Makes a place of these entries, and of all that follow from them before this word.
    fn close(&mut self, entries: Vec<Entry>, word: Option<Word<'_>>) -> Result<(), AllocError> {
        let mut entries = entries;
        for number in 0..MOST_ENTRIES {
            let Some(entry) = entries.get(number).copied() else {
                break;
            };
            self.follow(&mut entries, entry, word)?;
        }
        self.places.push(entries)?;
        Ok(())
    }

    /// The entries of the last place that this word goes on with, one part further.
    fn scan(&self, alloc: Global, word: Word<'_>) -> Result<Vec<Entry>, AllocError> {
        let mut entries = Vec::new(alloc);
        let Some(last) = self.places.last() else {
            return Ok(entries);
        };
        for entry in last {
            if self.next(*entry).is_some_and(|symbol| symbol.is_for(word)) {
                add(&mut entries, entry.next_entry())?;
            }
        }
        Ok(entries)
    }

    /// Whether what was read is a file.
    fn is_file(&self) -> bool {
        let Some(last) = self.places.last() else {
            return false;
        };
        last.iter().any(|entry| entry.phrase == 0 && entry.from == 0 && self.next(*entry).is_none())
    }

    /// The entries before the first word.
    fn first(&self, alloc: Global) -> Result<Vec<Entry>, AllocError> {
        let mut entries = Vec::new(alloc);
        let Some(forms) = self.grammar.phrases.first() else {
            return Ok(entries);
        };
        for form in 0..forms.len() {
            entries.push(Entry::new(0, form, 0))?;
        }
        Ok(entries)
    }

    /// Reads the words, up to the first with which no file goes on.
    pub(crate) fn read(
        alloc: Global,
        grammar: &'a Grammar,
        words: &[Word<'_>],
    ) -> Result<Chart<'a>, AllocError> {
        let mut chart = Chart {
            grammar,
            places: Vec::new(alloc),
            fault: None,
        };
        let mut entries = chart.first(alloc)?;
        for (number, word) in words.iter().enumerate() {
            chart.close(entries, Some(*word))?;
            entries = chart.scan(alloc, *word)?;
            if entries.is_empty() {
                chart.fault = Some(number);
                return Ok(chart);
            }
        }
        chart.close(entries, None)?;
        if !chart.is_file() {
            chart.fault = Some(words.len());
        }
        Ok(chart)
    }

    /// Whether some of the words are this form of this phrase.
    pub(crate) fn has_form(&self, phrase: usize, form: usize) -> bool {
        self.places.iter().any(|entries| {
            entries.iter().any(|entry| entry.phrase == phrase
                && entry.form == form
                && self.next(*entry).is_none())
        })
    }
}
