//! Definitions that may be meant to be applied to a term.

use crate::fault_places::RefusedDefinitions;
use crate::groups::Key;
use crate::hint::{Hint, NameHint};
use crate::shown::Shown;
use crate::unbound::Walk;
use crate::warnings::{Alternative, alternatives_of};
use std::alloc::{AllocError, Global};

/// The most definitions that are named.
const MOST_NAMED: usize = 5;

/// The names of the first definitions after the library that have no parameters and that no definition calls or, if all are called, of
/// the first that have no parameters. Nothing if there are none, or if memory is refused.
pub(crate) fn entry_points_hint(
    alloc: Global,
    definitions: &RefusedDefinitions<'_>,
) -> Option<Hint> {
    let alternatives = alternatives_of(alloc, definitions.file).ok()?;
    let called = keys_called(alloc, &alternatives).ok()?;
    let is_behind = |alternative: &Alternative<'_>| alternative.offset() >= definitions.library;
    let first = alternatives.iter().position(is_behind)?;
    let own = alternatives.get(first..)?;
    let mut names = names_without_parameters(alloc, own, &called).ok()?;
    if names.is_empty() {
        names = names_without_parameters(alloc, own, &[]).ok()?;
    }
    if names.is_empty() {
        return None;
    }
    let shown = names_shown(alloc, &names).ok()?;
    Some(Hint::OnName(NameHint::WithoutParameters(shown)))
}

/// The keys that these definitions call, but for those that they call themselves by, in order.
fn keys_called<'a>(
    alloc: Global,
    alternatives: &[Alternative<'a>],
) -> Result<Vec<Key<'a>>, AllocError> {
    let mut walk = Walk::for_calls(alloc);
    for alternative in alternatives {
        walk.look_at(alternative.form)?;
    }
    let (mut called, _) = walk.into_parts();
    called.sort()?;
    Ok(called)
}

/// The first names of definitions without parameters among these whose keys are not called: one more than are named.
fn names_without_parameters<'a>(
    alloc: Global,
    alternatives: &[Alternative<'a>],
    called: &[Key<'_>],
) -> Result<Vec<&'a [u8]>, AllocError> {
    let mut names: Vec<&'a [u8]> = Vec::new(alloc);
    for alternative in alternatives {
        let head = alternative.head();
        let name = head.name.bytes();
        let is_plain = head.parameters.strategies() == 0 && head.parameters.terms() == 0;
        if !is_plain || (&*called).binary_search(&Key::of_head(head)).is_ok() {
            continue;
        }
        if names.len() <= MOST_NAMED && !names.iter().any(|other| *other == name) {
            names.push(name)?;
        }
    }
    Ok(names)
}

/// The names as they are shown, and `..` in place of the one that is not named.
fn names_shown(alloc: Global, names: &[&[u8]]) -> Result<Shown, AllocError> {
    let mut line = Vec::new(alloc);
    for (index, name) in names.iter().enumerate() {
        if index > 0 {
            line.extend_from_slice(b", ")?;
        }
        if index == MOST_NAMED {
            line.extend_from_slice(b"..")?;
        } else {
            line.extend_from_slice(name)?;
        }
    }
    Ok(Shown::new(&line))
}
