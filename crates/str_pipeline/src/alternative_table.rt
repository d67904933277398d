//! The table of how often each alternative was tried, matched and succeeded.
//!
//! In front stands what may be wrong: alternatives that never succeeded, and then those that seldom did, by how many terms speak against
//! them. Which of them never matched does not come first: in a program that rewrites by many rules most never match on one input, and would
//! hide the others. A comparison succeeds seldom in many right programs, so what never succeeded is stronger evidence.

use crate::alternatives::AlternativeCounts;
use crate::definition_counts::DefinitionCounts;
use crate::run_record::{RunRecord, push_hidden, push_name, push_text};
use diagnostics::{Coverage, Row, push_number, push_number_right, push_right};
use std::alloc::AllocError;

/// The most rows of what may be wrong, in all parts that tell of that.
const SUSPECTS: usize = 5;

/// The most rows of those that succeeded, and the most places in a line.
const LISTED: usize = 50;

/// An alternative that failed more than this number of times as often as it succeeded succeeds seldom.
const SELDOM: u64 = 20;

/// The parts of the table, in their order.
#[derive(Clone, Copy, Debug, PartialEq, Eq, PartialOrd, Ord)]
enum Part {
    /// It never succeeded, and terms speak against it.
    Never,
    /// It succeeded seldom.
    Seldom,
    /// It never matched, but others of its definition did, and perhaps no term had its root.
    PassedBy,
    Succeeded,
    /// It never succeeded, but a call of it had not ended when the run had.
    NotEnded,
    NeverTried,
}

/// An alternative in its part of the table.
#[derive(Clone, Copy)]
struct Entry<'a> {
    part: Part,
    /// How much speaks for its place in front of others of the part: terms against it, or its rules.
    weight: u64,
    definition: &'a DefinitionCounts,
    alternative: &'a AlternativeCounts,
}

impl<'a> Entry<'a> {
    /// Returns the entry of an alternative of a definition.
    fn new(definition: &'a DefinitionCounts, alternative: &'a AlternativeCounts) -> Entry<'a> {
        let against = terms_against(definition, alternative);
        let (part, weight) = if alternative.tried == 0 {
            (Part::NeverTried, 0)
        } else if succeeds_seldom(alternative) {
            (Part::Seldom, against)
        } else if alternative.succeeded > 0 {
            (Part::Succeeded, alternative.rules)
        } else if against > 0 {
            (Part::Never, against)
        } else if alternative.unfinished > 0 {
            (Part::NotEnded, 0)
        } else {
            (Part::PassedBy, 0)
        };
        Entry {
            part,
            weight,
            definition,
            alternative,
        }
    }

    /// Returns what orders it among others: its part, its weight, whether nothing is known of its match, and where it stands.
    fn place(&self) -> (Part, u64, bool, usize) {
        let counts = self.alternative;
        (
            self.part,
            u64::MAX - self.weight,
            counts.matched.is_none(),
            counts.offset,
        )
    }

    /// Returns what is noted in its row.
    fn note(&self) -> &'static str {
        match self.part {
            Part::Succeeded | Part::NotEnded | Part::NeverTried => "",
            Part::Seldom => "  seldom succeeded",
            _ if self.alternative.matched == Some(0) => "  never matched",
            _ => "  never succeeded",
        }
    }
}

/// Returns whether an alternative succeeded, but failed for nearly all of the many terms that it matched.
fn succeeds_seldom(alternative: &AlternativeCounts) -> bool {
    alternative.succeeded > 0 && alternative.succeeded < alternative.failures() / SELDOM
}

/// Returns how many terms speak against an alternative that never succeeded, or seldom: those that matched and failed; or, if none matched,
/// those that a selection took to it for their root; or, if nothing in its definition ever matched, all of them.
fn terms_against(definition: &DefinitionCounts, alternative: &AlternativeCounts) -> u64 {
    let failures = alternative.failures();
    if failures > 0 || alternative.unfinished > 0 {
        return failures;
    }
    let selected = alternative.selected.unwrap_or(0);
    if selected > 0 {
        return selected;
    }
    if definition.has_matched {
        0
    } else {
        alternative.tried
    }
}

/// The table of alternatives.
#[derive(Drop)]
pub(crate) struct AlternativeTable<'a> {
    record: RunRecord<'a>,
    /// Its entries, in their order.
    entries: Vec<Entry<'a>>,
}

impl<'a> AlternativeTable<'a> {
    /// Returns the table of the alternatives in these files.
    pub(crate) fn new(
        record: RunRecord<'a>,
        coverage: Coverage,
    ) -> Result<AlternativeTable<'a>, AllocError> {
        let from = match coverage {
            Coverage::LastFile => record.library,
            Coverage::AllFiles => 0,
        };
        let mut entries = Vec::new(record.alloc);
        for definition in record.definitions {
            for alternative in &definition.alternatives {
                if alternative.offset > 0 && alternative.offset >= from {
                    entries.push(Entry::new(definition, alternative))?;
                }
            }
        }
        entries.sort_by_key(|entry| entry.place())?;
        Ok(AlternativeTable { record, entries })
    }

    /// Adds the rows of the table.
    pub(crate) fn add_rows(&self, rows: &mut Vec<Row>) -> Result<(), AllocError> {
        let alloc = self.record.alloc;
        let heading = b"       tried     matched   succeeded        rules  alternative";
        push_text(heading.to_vec(alloc)?, rows)?;
        let label = b"  never succeeded, either:";
        let left = self.add_suspects(Part::Never, SUSPECTS, label, rows)?;
        let left = self.add_suspects(Part::Seldom, left, b"  seldom succeeded, too:", rows)?;
        let _ = self.add_suspects(Part::PassedBy, left, b"  never matched, either:", rows)?;
        let (first, rest) = split(part_of(&self.entries, Part::Succeeded), LISTED);
        self.add_entries(first, rows)?;
        push_hidden(alloc, rest.len(), rows)?;
        self.add_places(
            b"  not ended:",
            part_of(&self.entries, Part::NotEnded),
            rows,
        )?;
        self.add_places(
            b"  never tried:",
            part_of(&self.entries, Part::NeverTried),
            rows,
        )
    }

    /// Adds the rows of the first entries of a part, this number of them at most, and a line that begins so and names the others. Returns
    /// how many rows more there may be.
    fn add_suspects(
        &self,
        part: Part,
        most: usize,
        label: &[u8],
        rows: &mut Vec<Row>,
    ) -> Result<usize, AllocError> {
        let (first, rest) = split(part_of(&self.entries, part), most);
        self.add_entries(first, rows)?;
        self.add_places(label, rest, rows)?;
        Ok(most.saturating_sub(first.len()))
    }

    /// Adds the rows of these entries.
    fn add_entries(&self, entries: &[Entry<'a>], rows: &mut Vec<Row>) -> Result<(), AllocError> {
        for entry in entries {
            self.add_row(entry, rows)?;
        }
        Ok(())
    }

    /// Adds the row of an entry: its numbers, its name, and its file and line.
    fn add_row(&self, entry: &Entry<'a>, rows: &mut Vec<Row>) -> Result<(), AllocError> {
        let counts = entry.alternative;
        let mut text = Vec::new(self.record.alloc);
        push_number_right(counts.tried, 12, &mut text)?;
        match counts.matched {
            Some(matched) => push_number_right(matched, 12, &mut text)?,
            None => push_right(b"-", 12, &mut text)?,
        }
        push_number_right(counts.succeeded, 12, &mut text)?;
        push_number_right(counts.rules, 13, &mut text)?;
        text.extend_from_slice(b"  ")?;
        self.push_alternative(entry, &mut text)?;
        rows.push(Row {
            text,
            line: self.record.line_of(counts.offset),
            note: entry.note(),
        })?;
        Ok(())
    }

    /// Puts the name of the definition on the line and, if it has several alternatives, the number of this one.
    fn push_alternative(&self, entry: &Entry<'a>, line: &mut Vec<u8>) -> Result<(), AllocError> {
        push_name(self.record.name_of(entry.definition), line)?;
        let count = entry.definition.alternatives.len();
        if count < 2 {
            return Ok(());
        }
        line.extend_from_slice(b" ")?;
        push_number(entry.alternative.number.saturating_add(1) as u64, line)?;
        line.extend_from_slice(b"/")?;
        push_number(count as u64, line)
    }

    /// Adds a line that names the places of these entries, if there are any, and how many more there are than it names.
    fn add_places(
        &self,
        label: &[u8],
        entries: &[Entry<'a>],
        rows: &mut Vec<Row>,
    ) -> Result<(), AllocError> {
        if entries.is_empty() {
            return Ok(());
        }
        let mut text = label.to_vec(self.record.alloc)?;
        let mut before = None;
        for entry in entries.iter().take(LISTED) {
            self.push_place(entry, before, &mut text)?;
            before = Some(entry.definition.offset());
        }
        let hidden = entries.len().saturating_sub(LISTED);
        if hidden > 0 {
            text.extend_from_slice(b", .. (")?;
            push_number(hidden as u64, &mut text)?;
            text.extend_from_slice(b" more)")?;
        }
        push_text(text, rows)
    }

    /// Puts the place of an entry on the line, after that of an alternative of the definition whose name stands at the byte `before`, if
    /// there is one: the name, unless it is the same, and the line, if it is one of the last file.
    fn push_place(
        &self,
        entry: &Entry<'a>,
        before: Option<usize>,
        text: &mut Vec<u8>,
    ) -> Result<(), AllocError> {
        let line = self.record.line_in_last_file(entry.alternative.offset);
        if before == Some(entry.definition.offset()) {
            return match line {
                Some(line) => {
                    text.extend_from_slice(b", ")?;
                    push_number(line as u64, text)
                }
                None => Ok(()),
            };
        }
        text.extend_from_slice(if before.is_some() {
            b"; ".as_slice()
        } else {
            b" ".as_slice()
        })?;
        push_name(self.record.name_of(entry.definition), text)?;
        match line {
            Some(line) => {
                text.extend_from_slice(b" line ")?;
                push_number(line as u64, text)
            }
            None => Ok(()),
        }
    }
}

/// Returns the entries of a part, of entries in their order.
fn part_of<'e, 'a>(entries: &'e [Entry<'a>], part: Part) -> &'e [Entry<'a>] {
    let from = entries.partition_point(|entry| entry.part < part);
    let to = entries.partition_point(|entry| entry.part <= part);
    let to = to.min(entries.len());
    &entries[from.min(to)..to]
}

/// Returns the first entries, this number of them at most, and the others.
fn split<'e, 'a>(entries: &'e [Entry<'a>], most: usize) -> (&'e [Entry<'a>], &'e [Entry<'a>]) {
    entries.split_at(entries.len().min(most))
}
