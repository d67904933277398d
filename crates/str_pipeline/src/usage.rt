//! Which definitions used most rules, for explanations.

use crate::causes::file_offset;
use diagnostics::{Listing, MOST_OF_NAME, push_cut, push_number};
use std::alloc::{AllocError, Global};
use strat_code::Code;

/// How many definitions are named.
const NAMED: usize = 3;

/// The line that names the definitions that used most rules, of a run in which the instruction at each address used these.
pub(crate) fn usage_line(
    alloc: Global,
    listing: &Listing,
    code: &Code,
    rules: &[u64],
) -> Result<Vec<u8>, AllocError> {
    let mut used = rules_by_heads(alloc, listing, code, rules)?;
    let mut line = b"most rules are of ".to_vec(alloc)?;
    for number in 0..NAMED {
        let Some(most) = most_used(&used) else {
            break;
        };
        if number > 0 {
            line.extend_from_slice(b", ")?;
        }
        push_usage(listing, most, &used, &mut line)?;
        if let Some(count) = used.get_mut(most) {
            *count = 0;
        }
    }
    Ok(line)
}

/// How many rules each run of neighbouring heads with one name used, at the index of the last of them, and after all of them those of
/// the library.
fn rules_by_heads(
    alloc: Global,
    listing: &Listing,
    code: &Code,
    rules: &[u64],
) -> Result<Vec<u64>, AllocError> {
    let heads = listing.heads();
    let mut used = Vec::from_elem(alloc, 0u64, heads.saturating_add(1))?;
    for (address, count) in rules.iter().enumerate() {
        let Some(mark) = code.mark_at(address) else {
            continue;
        };
        let head = match file_offset(Some(mark)) {
            Some(offset) => listing.head_before(offset).unwrap_or(heads),
            None => heads,
        };
        add_rules(&mut used, head, *count);
    }
    for next in 1..heads {
        let head = next.saturating_sub(1);
        if listing.have_one_name(head, next) {
            move_rules(&mut used, head, next);
        }
    }
    Ok(used)
}

fn add_rules(used: &mut [u64], head: usize, count: u64) {
    if let Some(sum) = used.get_mut(head) {
        *sum = sum.saturating_add(count);
    }
}

/// Counts the rules of one head for the next one.
fn move_rules(used: &mut [u64], head: usize, next: usize) {
    let count = used.get(head).copied().unwrap_or(0);
    add_rules(used, next, count);
    if let Some(sum) = used.get_mut(head) {
        *sum = 0;
    }
}

/// The index of the greatest number, if there is one above 0.
fn most_used(used: &[u64]) -> Option<usize> {
    let mut most: Option<usize> = None;
    let mut greatest: u64 = 0;
    for (index, count) in used.iter().enumerate() {
        if *count > greatest {
            greatest = *count;
            most = Some(index);
        }
    }
    most
}

fn push_usage(
    listing: &Listing,
    head: usize,
    used: &[u64],
    line: &mut Vec<u8>,
) -> Result<(), AllocError> {
    if head < listing.heads() {
        push_cut(listing.name_of(head), MOST_OF_NAME, line)?;
    } else {
        line.extend_from_slice(b"the library")?;
    }
    line.extend_from_slice(b" (")?;
    push_number(used.get(head).copied().unwrap_or(0), line)?;
    line.extend_from_slice(b")")
}
