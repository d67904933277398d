//! What a run did in each definition.

use crate::alternatives::{AlternativeCounts, count_alternatives};
use crate::counters::{Counters, Stretch};
use diagnostics::Listing;
use std::alloc::{AllocError, Global};
use str_syntax::{Definition, DefinitionForm, File, Origin, Section};

/// Where the name of a definition is.
#[derive(Clone, Copy, Debug, PartialEq, Eq)]
pub(crate) enum NamePlace {
    /// At this byte of the definitions.
    InText(usize),
    /// Among those of the library, from 0.
    InLibrary(usize),
}

/// What a run did in a definition of a program, and in each of its alternatives.
#[derive(Drop)]
pub(crate) struct DefinitionCounts {
    pub(crate) name: NamePlace,
    pub(crate) code: Stretch,
    pub(crate) calls: u64,
    pub(crate) rules: u64,
    pub(crate) steps: u64,
    pub(crate) alternatives: Vec<AlternativeCounts>,
    /// Whether one of them matched or, if it begins with no match, succeeded.
    pub(crate) has_matched: bool,
}

impl DefinitionCounts {
    /// Returns the byte of its name in the definitions; 0 for the library.
    pub(crate) fn offset(&self) -> usize {
        match self.name {
            NamePlace::InText(offset) => offset,
            NamePlace::InLibrary(_) => 0,
        }
    }
}

/// Returns what a run did in the definitions of a program, in the order of its core: those of the listing, whose alternatives have names at
/// these bytes, and then this number of the library.
pub(crate) fn count_definitions(
    alloc: Global,
    counters: Counters<'_>,
    heads: &[Vec<u64>],
    listing: &Listing<'_>,
    library: usize,
) -> Result<Vec<DefinitionCounts>, AllocError> {
    let of_file = heads.len().saturating_sub(library);
    let mut made = Vec::with_capacity(alloc, heads.len())?;
    let mut end = counters.code.len();
    for (number, names) in heads.iter().enumerate() {
        let entry = counters.code.entries().get(number).copied().unwrap_or(end);
        let code = Stretch {
            from: entry,
            to: end,
        };
        end = entry;
        let name = match number.checked_sub(of_file) {
            Some(index) => NamePlace::InLibrary(index),
            None => NamePlace::InText(first_of(names)),
        };
        let parameters = parameters_of(listing, name);
        let alternatives = count_alternatives(alloc, counters, names, parameters, code)?;
        made.push(with_alternatives(counters, name, code, alternatives))?;
    }
    Ok(made)
}

/// Returns the first of these bytes.
fn first_of(names: &[u64]) -> usize {
    let first = names.first().copied().unwrap_or(0);
    usize::try_from(first).unwrap_or(0)
}

/// Returns how many term parameters a definition has. None of the library has any.
fn parameters_of(listing: &Listing<'_>, name: NamePlace) -> usize {
    let NamePlace::InText(offset) = name else {
        return 0;
    };
    match listing.head_before(offset) {
        Some(head) => listing.terms_of_head(head),
        None => 0,
    }
}

/// Returns what a run did in a definition with these alternatives.
fn with_alternatives(
    counters: Counters<'_>,
    name: NamePlace,
    code: Stretch,
    alternatives: Vec<AlternativeCounts>,
) -> DefinitionCounts {
    let has_matched = alternatives
        .iter()
        .any(|alternative| alternative.has_matched());
    DefinitionCounts {
        name,
        code,
        calls: counters.reached(code.from),
        rules: counters.rules_of(code),
        steps: counters.steps_of(code),
        alternatives,
        has_matched,
    }
}

/// Returns the names of the definitions of the library, in their order.
pub(crate) fn library_names(alloc: Global, file: &File) -> Result<Vec<&[u8]>, AllocError> {
    let mut names = Vec::new(alloc);
    for section in &file.sections {
        match section {
            Section::Signature(_) => {}
            Section::Rules(definitions) | Section::Strategies(definitions) => {
                add_library_names(definitions, &mut names)?;
            }
        }
    }
    Ok(names)
}

/// Adds the names of those of these definitions that are the library's.
fn add_library_names<'a>(
    definitions: &'a [Definition],
    names: &mut Vec<&'a [u8]>,
) -> Result<(), AllocError> {
    for definition in definitions {
        if definition.origin == Origin::Library {
            names.push(name_of(&definition.form))?;
        }
    }
    Ok(())
}

/// Returns the name of a rule or a definition.
fn name_of(form: &DefinitionForm) -> &[u8] {
    match form {
        DefinitionForm::Rule(rule) => rule.head.name.bytes(),
        DefinitionForm::Strategy(definition) => definition.head.name.bytes(),
    }
}
