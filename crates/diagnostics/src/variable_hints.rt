//! What was probably meant where a variable is called as a strategy.

use crate::fault_places::RefusedDefinitions;
use crate::hint::{Hint, NameHint};
use crate::pieces::piece;
use crate::shown::Shown;
use crate::unbound::Walk;
use crate::warnings::alternatives_of;
use scope_check::{Detail, Note};
use std::alloc::Global;
use term_model::bytes::is_blank_byte;

/// That the name in the note is that of a variable, if the note is about a strategy without arguments that is not defined and a variable of
/// this name stands in front of the call in the same definition.
pub(crate) fn variable_hint(
    alloc: Global,
    definitions: &RefusedDefinitions<'_>,
    note: &Note,
) -> Option<Hint> {
    let Detail::UnknownStrategy {
        strategies: 0,
        terms: 0,
        ..
    } = note.detail()
    else {
        return None;
    };
    let offset = note.offset()?;
    let alternatives = alternatives_of(alloc, definitions.file).ok()?;
    let after = alternatives.partition_point(|other| other.head().name.offset() <= offset);
    let own = alternatives.get(after.checked_sub(1)?)?;
    let mut walk = Walk::to_call(alloc, offset);
    walk.look_at(own.form).ok()?;
    if !walk.is_variable_called() {
        return None;
    }
    let from = usize::try_from(offset).ok()?;
    Some(Hint::OnName(NameHint::OfVariable {
        name: Shown::new(note.name()),
        is_applied: is_applied(definitions.text, from, note.name().len()),
    }))
}

/// Whether the name from this byte on, which has this length, stands alone in `<..>`.
fn is_applied(text: &[u8], from: usize, length: usize) -> bool {
    let before = piece(text, 0, from);
    let after = piece(text, from.saturating_add(length), text.len());
    let mut behind = before.iter().rev().skip_while(|byte| is_blank_byte(**byte));
    let mut ahead = after.iter().skip_while(|byte| is_blank_byte(**byte));
    behind.next() == Some(&b'<') && ahead.next() == Some(&b'>')
}
