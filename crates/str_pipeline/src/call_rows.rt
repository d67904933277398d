//! Rows that tell of the calls of some definitions.

use crate::alternatives::AlternativeCounts;
use crate::causes::file_offset;
use crate::definition_counts::DefinitionCounts;
use crate::explainer::push_term;
use crate::run_record::{RunRecord, push_name, push_text};
use diagnostics::{NameHint, Row, push_number, similar_name};
use std::alloc::AllocError;
use strat_machine::{Call, CallResult, CallsKept, Trace, Watched};

/// The most calls deep that a call is indented.
const MOST_INDENTED: usize = 20;

/// A trace of a run, and how it is shown.
#[derive(Clone, Copy)]
pub(crate) struct CallRows<'a> {
    pub(crate) record: RunRecord<'a>,
    /// The names of the definitions whose calls are shown.
    pub(crate) names: &'a [Vec<u8>],
    /// Whether only those that fail are shown.
    pub(crate) only_failures: bool,
}

impl<'a> CallRows<'a> {
    /// Returns the definitions that have one of the names, and which of their calls are kept.
    pub(crate) fn watched(&self) -> Result<Watched, AllocError> {
        let mut entries = Vec::new(self.record.alloc);
        let mut alternatives = Vec::new(self.record.alloc);
        for definition in self.record.definitions {
            if !self.is_named(definition) {
                continue;
            }
            entries.push(definition.code.from)?;
            for alternative in &definition.alternatives {
                alternatives.push(alternative.start)?;
            }
        }
        Ok(Watched {
            entries,
            alternatives,
            kept: if self.only_failures {
                CallsKept::FirstToFail
            } else {
                CallsKept::First
            },
        })
    }

    /// Returns whether a definition has one of the names.
    fn is_named(&self, definition: &DefinitionCounts) -> bool {
        let name = self.record.name_of(definition);
        self.names.iter().any(|wanted| wanted.as_slice() == name)
    }

    /// Adds what is to be said of names that no definition has.
    pub(crate) fn add_unknown(&self, rows: &mut Vec<Row>) -> Result<(), AllocError> {
        let mut known = Vec::with_capacity(self.record.alloc, self.record.definitions.len())?;
        for definition in self.record.definitions {
            known.push(self.record.name_of(definition))?;
        }
        for wanted in self.names {
            if known.iter().any(|name| *name == wanted.as_slice()) {
                continue;
            }
            let mut text = b"  no definition has the name ".to_vec(self.record.alloc)?;
            push_name(wanted, &mut text)?;
            if let Some(name) = similar_name(wanted, &known) {
                let hint = NameHint::Similar(name);
                let alloc = self.record.alloc;
                text.extend_from_slice(format!(in alloc; "; {hint}")?.as_bytes())?;
            }
            push_text(text, rows)?;
        }
        Ok(())
    }

    /// Adds the calls, and how many there were.
    pub(crate) fn add_trace(&self, trace: &Trace, rows: &mut Vec<Row>) -> Result<(), AllocError> {
        for call in &trace.calls {
            self.add_call(call, rows)?;
        }
        let all = if self.only_failures {
            trace.failures
        } else {
            trace.count
        };
        let mut text = b"  calls: ".to_vec(self.record.alloc)?;
        push_number(trace.count, &mut text)?;
        text.extend_from_slice(b"; of these fail: ")?;
        push_number(trace.failures, &mut text)?;
        let hidden = all.saturating_sub(trace.calls.len() as u64);
        if hidden > 0 {
            text.extend_from_slice(b"; not shown: ")?;
            push_number(hidden, &mut text)?;
        }
        push_text(text, rows)
    }

    /// Returns the beginning of a row of a call: two blanks, and two for each call in which it stands.
    fn indentation(&self, call: &Call) -> Result<Vec<u8>, AllocError> {
        let depth = if self.only_failures { 0 } else { call.depth };
        let mut text = b"  ".to_vec(self.record.alloc)?;
        for _ in 0..depth.min(MOST_INDENTED) {
            text.extend_from_slice(b"  ")?;
        }
        Ok(text)
    }

    /// Adds two rows for a call: what was called on which terms, with the line of the alternative, and what came of it.
    fn add_call(&self, call: &Call, rows: &mut Vec<Row>) -> Result<(), AllocError> {
        let definition = self
            .record
            .definitions
            .iter()
            .find(|definition| definition.code.from == call.entry);
        let Some(definition) = definition else {
            return Ok(());
        };
        let taken = taken_by(definition, call);
        let mut text = self.indentation(call)?;
        push_name(self.record.name_of(definition), &mut text)?;
        self.push_arguments(call, &mut text)?;
        text.extend_from_slice(b" of ")?;
        push_term(self.record.alloc, &call.term, &mut text)?;
        let offset = match taken {
            Some(alternative) => alternative.offset,
            None => definition.offset(),
        };
        rows.push(Row {
            text,
            line: self.record.line_of(offset),
            note: "",
        })?;
        self.add_result(call, rows)
    }

    /// Puts the term arguments of a call on the line, if it has any.
    fn push_arguments(&self, call: &Call, text: &mut Vec<u8>) -> Result<(), AllocError> {
        if call.arguments.is_empty() {
            return Ok(());
        }
        text.extend_from_slice(b"(| ")?;
        for (index, argument) in call.arguments.iter().enumerate() {
            if index > 0 {
                text.extend_from_slice(b", ")?;
            }
            push_term(self.record.alloc, argument, text)?;
        }
        text.extend_from_slice(b")")
    }

    /// Adds what came of a call.
    fn add_result(&self, call: &Call, rows: &mut Vec<Row>) -> Result<(), AllocError> {
        let mut text = self.indentation(call)?;
        text.extend_from_slice(b"-> ")?;
        let mut line = None;
        match &call.result {
            CallResult::Rewritten(term) => push_term(self.record.alloc, term, &mut text)?,
            CallResult::Unfinished => text.extend_from_slice(b"the run ended in this call")?,
            CallResult::Failed => match call.furthest {
                Some(reach) => {
                    text.extend_from_slice(b"fails")?;
                    line = self.line_at(reach.address);
                }
                None => text.extend_from_slice(b"fails: no left side matches")?,
            },
        }
        rows.push(Row {
            text,
            line,
            note: "",
        })?;
        Ok(())
    }

    /// Returns the line of the instruction at an address; nothing for the library.
    fn line_at(&self, address: usize) -> Option<usize> {
        let offset = file_offset(self.record.counters.code.mark_at(address))?;
        self.record.line_of(offset)
    }
}

/// Returns the alternative that a call took, or the last of those that it tried that got past its first instruction.
fn taken_by<'a>(definition: &'a DefinitionCounts, call: &Call) -> Option<&'a AlternativeCounts> {
    let start = call.furthest?.alternative;
    definition
        .alternatives
        .iter()
        .find(|alternative| alternative.start == start)
}
