//! The table of how many rules each definition took.

use crate::definition_counts::DefinitionCounts;
use crate::run_record::{RunRecord, push_hidden, push_name, push_text};
use diagnostics::{Row, push_number, push_number_right};
use std::alloc::AllocError;

/// The most definitions that are listed.
const LISTED: usize = 20;

/// Adds the table of the definitions that were called, those with most rules first.
pub(crate) fn add_profile(record: RunRecord<'_>, rows: &mut Vec<Row>) -> Result<(), AllocError> {
    let mut called = Vec::new(record.alloc);
    for definition in record.definitions {
        if definition.calls > 0 {
            called.push(definition)?;
        }
    }
    called.sort_by_key(|definition| (u64::MAX - definition.rules, definition.code.from))?;
    let heading = b"       rules      %       steps       calls  definition";
    push_text(heading.to_vec(record.alloc)?, rows)?;
    let all = record.counters.all_rules();
    for definition in called.iter().take(LISTED) {
        add_row(record, definition, all, rows)?;
    }
    push_hidden(record.alloc, called.len().saturating_sub(LISTED), rows)
}

/// Adds the row of a definition in a run that took `all` rules.
fn add_row(
    record: RunRecord<'_>,
    definition: &DefinitionCounts,
    all: u64,
    rows: &mut Vec<Row>,
) -> Result<(), AllocError> {
    let mut text = Vec::new(record.alloc);
    push_number_right(definition.rules, 12, &mut text)?;
    let thousandths = definition.rules.saturating_mul(1000) / all.max(1);
    push_number_right(thousandths / 10, 5, &mut text)?;
    text.push(b'.')?;
    push_number(thousandths % 10, &mut text)?;
    push_number_right(definition.steps, 12, &mut text)?;
    push_number_right(definition.calls, 12, &mut text)?;
    text.extend_from_slice(b"  ")?;
    push_name(record.name_of(definition), &mut text)?;
    let line = record.line_of(definition.offset());
    if line.is_none() {
        text.extend_from_slice(b"  of the library")?;
    }
    rows.push(Row {
        text,
        line,
        note: "",
    })?;
    Ok(())
}
