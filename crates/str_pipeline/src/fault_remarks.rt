//! The places at which the checks refuse definitions, as remarks.

use diagnostics::{
    FaultPlace, OtherPlace, Position, RefusedDefinitions, Remark, add_count, fault_place,
    name_hint, position_in, primitive_place,
};
use scope_check::{Detail, FileFaults, Note};
use std::alloc::{AllocError, Global};
use str_lexer::{Token, lex};
use term_model::{Fault, PrimNames};

/// A fault, the index of its note, and where it is reported.
#[derive(Clone, Copy)]
struct PlacedFault<'a> {
    note: &'a Note,
    index: usize,
    place: FaultPlace,
}

impl PlacedFault<'_> {
    /// The byte at which it is reported, and one after all others where there is none.
    fn order(&self) -> u64 {
        self.place.offset.unwrap_or(u64::MAX)
    }

    /// Whether the other one is reported at the same place for the same reason.
    fn is_like(&self, other: &PlacedFault<'_>) -> bool {
        let are_moved = self.place.other.is_some() && other.place.other.is_some();
        are_moved && self.place.offset == other.place.offset
    }
}

/// Adds the faults of these definitions as remarks, in the order of their places, each with a hint if there is one.
pub(crate) fn add_faults(
    alloc: Global,
    definitions: &RefusedDefinitions<'_>,
    faults: &FileFaults,
    primitives: &PrimNames,
    remarks: &mut Vec<Remark>,
) -> Result<(), Fault> {
    let notes = faults.notes();
    if notes.is_empty() {
        return Ok(());
    }
    let tokens = lex(alloc, definitions.text)?;
    let placed = placed_faults(alloc, definitions, notes)?;
    let mut before: Option<PlacedFault<'_>> = None;
    for fault in &placed {
        let is_repeated = before.is_some_and(|other| fault.is_like(&other));
        before = Some(*fault);
        if is_repeated {
            continue;
        }
        let position = position_of(definitions, &tokens, notes, fault);
        add_fault(alloc, fault, position, remarks)?;
        if let Some(hint) = name_hint(alloc, definitions, fault.note, primitives) {
            remarks.push(Remark {
                position: None,
                text: format!(in alloc; "hint: {hint}")?.into_bytes(),
                on_line: None,
            })?;
        }
    }
    add_count(alloc, faults.count(), b" faults", remarks)?;
    Ok(())
}

/// The faults of these notes, but for those in place of which others are reported, in the order of their places.
fn placed_faults<'n>(
    alloc: Global,
    definitions: &RefusedDefinitions<'_>,
    notes: &'n [Note],
) -> Result<Vec<PlacedFault<'n>>, AllocError> {
    let mut placed = Vec::new(alloc);
    for (index, note) in notes.iter().enumerate() {
        if let Some(place) = fault_place(alloc, definitions, note) {
            placed.push(PlacedFault { note, index, place })?;
        }
    }
    placed.sort_by_key(|fault| fault.order())?;
    Ok(placed)
}

/// Adds a fault at its position, with the other place that it is about if there is one.
fn add_fault(
    alloc: Global,
    fault: &PlacedFault<'_>,
    position: Position,
    remarks: &mut Vec<Remark>,
) -> Result<(), AllocError> {
    let note = fault.note;
    let text = match fault.place.other {
        Some(other) => format!(in alloc; "{note}: {other}")?,
        None => format!(in alloc; "{note}")?,
    };
    remarks.push(Remark {
        position: Some(position),
        text: text.into_bytes(),
        on_line: fault.place.other.map(line_of),
    })?;
    Ok(())
}

fn line_of(other: OtherPlace) -> usize {
    other.line
}

/// The position at which a fault is reported in the text of these tokens. What has no place is at the beginning, after the library.
fn position_of(
    definitions: &RefusedDefinitions<'_>,
    tokens: &[Token],
    notes: &[Note],
    fault: &PlacedFault<'_>,
) -> Position {
    let place = match fault.place.offset {
        Some(at) => Some(at),
        None => call_place(tokens, notes, fault),
    };
    let offset = match place {
        Some(at) => usize::try_from(at).unwrap_or(usize::MAX),
        None => definitions.library,
    };
    position_in(definitions.text, offset)
}

/// The byte at which the call of an unknown primitive begins, if all calls of this primitive are noted.
fn call_place(tokens: &[Token], notes: &[Note], fault: &PlacedFault<'_>) -> Option<u64> {
    let Detail::UnknownPrimitive { .. } = fault.note.detail() else {
        return None;
    };
    let before = notes.iter().take(fault.index);
    let before = before.filter(|other| is_alike(fault.note, other)).count();
    let count = notes
        .iter()
        .filter(|other| is_alike(fault.note, other))
        .count();
    primitive_place(tokens, fault.note.name(), before, count)
}

/// Whether both notes are about unknown primitives of one name.
fn is_alike(note: &Note, other: &Note) -> bool {
    match other.detail() {
        Detail::UnknownPrimitive { .. } => note.name() == other.name(),
        _ => false,
    }
}
