//! Alternatives of a definition that have other parameters than the others.

use crate::fault_places::{FaultPlace, OtherPlace, OtherThing, RefusedDefinitions};
use crate::groups::Key;
use crate::shown::Shown;
use crate::warnings::{Alternative, alternatives_of};
use std::alloc::{AllocError, Global};
use str_syntax::Name;

/// The most alternatives that are compared: as many as a definition may have.
const MOST_COMPARED: usize = 1000;

/// Returns where the alternative at this byte is reported, which has other parameters than the first one of its definition: at the first of
/// the two that differs from most; nothing if an earlier one is reported for it. A library is right, whatever comes after it.
pub(crate) fn parameters_place(
    alloc: Global,
    definitions: &RefusedDefinitions<'_>,
    offset: u64,
) -> Result<Option<FaultPlace>, AllocError> {
    let as_found = FaultPlace {
        offset: Some(offset),
        other: None,
    };
    let Some((group, place)) = group_at(alloc, definitions, offset)? else {
        return Ok(Some(as_found));
    };
    let usual = usual_among(&group, definitions.library);
    let Some(odd) = place_to_tell(&group, place, usual) else {
        return Ok(None);
    };
    let (Some(here), Some(there)) = (group.get(odd), group.get(usual)) else {
        return Ok(Some(as_found));
    };
    let thing = OtherThing::Parameters {
        here: parameters_shown(alloc, here)?,
        there: parameters_shown(alloc, there)?,
    };
    Ok(Some(FaultPlace {
        offset: Some(here.head().name.offset()),
        other: Some(OtherPlace {
            thing,
            line: definitions.line_of(there.offset()),
        }),
    }))
}

/// The alternatives of the definition of which one stands at this byte, in the order of the text, and its index among them. Nothing if no
/// alternative stands there, if it is the only one of the file, or if there are too many.
fn group_at<'a>(
    alloc: Global,
    definitions: &RefusedDefinitions<'a>,
    offset: u64,
) -> Result<Option<(Vec<Alternative<'a>>, usize)>, AllocError> {
    let alternatives = alternatives_of(alloc, definitions.file)?;
    let index = alternatives.partition_point(|other| other.head().name.offset() < offset);
    let found = alternatives.get(index);
    let Some(own) = found.filter(|own| own.head().name.offset() == offset) else {
        return Ok(None);
    };
    let key = Key::of_head(own.head());
    let mut group = Vec::new(alloc);
    let mut place: usize = 0;
    for alternative in &alternatives {
        if Key::of_head(alternative.head()) != key {
            continue;
        }
        if alternative.head().name.offset() == offset {
            place = group.len();
        }
        group.push(*alternative)?;
    }
    if group.len() < 2 || group.len() > MOST_COMPARED {
        return Ok(None);
    }
    Ok(Some((group, place)))
}

/// The index of the first alternative with the parameters that more than half of them have or, if no parameters are those of that many,
/// the first one. It is the first one, too, if that stands in a library of this many bytes.
fn usual_among(group: &[Alternative<'_>], library: usize) -> usize {
    let Some(candidate) = most_frequent(group) else {
        return 0;
    };
    let is_in_library = group.first().is_some_and(|first| first.offset() < library);
    let count = group
        .iter()
        .filter(|other| have_one_list(candidate, other))
        .count();
    if is_in_library || count <= group.len().saturating_sub(count) {
        return 0;
    }
    group
        .iter()
        .position(|other| have_one_list(candidate, &other))
        .unwrap_or(0)
}

/// An alternative with the parameters that more than half of them have, if there are such.
fn most_frequent<'g, 'a>(group: &'g [Alternative<'a>]) -> Option<&'g Alternative<'a>> {
    let mut candidate: usize = 0;
    let mut lead: usize = 0;
    for (index, alternative) in group.iter().enumerate() {
        if lead == 0 {
            candidate = index;
        }
        if have_one_list(group.get(candidate)?, alternative) {
            lead = lead.saturating_add(1);
        } else {
            lead = lead.saturating_sub(1);
        }
    }
    group.get(candidate)
}

/// The index of the alternative at which a fault is reported that was found at an index, where the one at `usual` is right. If the one at
/// which it was found is right, too, that is one like the first, as many of these before it as there are right ones before the index.
fn place_to_tell(group: &[Alternative<'_>], found: usize, usual: usize) -> Option<usize> {
    let (own, right, first) = (group.get(found)?, group.get(usual)?, group.first()?);
    if !have_one_list(own, right) {
        return Some(found);
    }
    let before = group.iter().take(found);
    let mut waiting = before.filter(|other| have_one_list(right, other)).count();
    for (index, alternative) in group.iter().enumerate() {
        if !have_one_list(first, alternative) {
            continue;
        }
        if waiting == 0 {
            return Some(index);
        }
        waiting = waiting.saturating_sub(1);
    }
    None
}

/// Whether two alternatives have the same parameters in the same order.
fn have_one_list(one: &Alternative<'_>, other: &Alternative<'_>) -> bool {
    let (one, other) = (&one.head().parameters, &other.head().parameters);
    are_same(one.strategy_names(), other.strategy_names())
        && are_same(one.term_names(), other.term_names())
}

/// Whether these are the same names in the same order.
fn are_same(names: &[Name], others: &[Name]) -> bool {
    let mut pairs = names.iter().zip(others);
    names.len() == others.len() && pairs.all(|(one, other)| one.bytes() == other.bytes())
}

/// The name of an alternative with its parameters, as in `f(s, t | x)`.
fn parameters_shown(alloc: Global, alternative: &Alternative<'_>) -> Result<Shown, AllocError> {
    let head = alternative.head();
    let mut text = head.name.bytes().to_vec(alloc)?;
    text.push(b'(')?;
    let strategies = head.parameters.strategy_names();
    push_names(strategies, &mut text)?;
    let terms = head.parameters.term_names();
    if !terms.is_empty() {
        text.extend_from_slice(if strategies.is_empty() {
            b"| ".as_slice()
        } else {
            b" | ".as_slice()
        })?;
        push_names(terms, &mut text)?;
    }
    text.push(b')')?;
    Ok(Shown::new(&text))
}

/// Puts names on a line, with commas between them.
fn push_names(names: &[Name], line: &mut Vec<u8>) -> Result<(), AllocError> {
    for (index, name) in names.iter().enumerate() {
        if index > 0 {
            line.extend_from_slice(b", ")?;
        }
        line.extend_from_slice(name.bytes())?;
    }
    Ok(())
}
