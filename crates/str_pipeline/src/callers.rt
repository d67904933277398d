//! The definitions that wait for a strategy, as explanations name them.

use crate::causes::file_offset;
use diagnostics::{Listing, MOST_OF_NAME, push_cut, push_number};
use std::alloc::{AllocError, Global};
use strat_code::{Code, Instr};

/// How many definitions are named from the innermost one on, and how many up to the outermost one, where there are more.
const FIRST: usize = 8;

const LAST: usize = 3;

/// The bytes of the definitions at which the calls stand that wait, the outermost first; nothing in place of one of the library.
pub(crate) fn call_sites(
    alloc: Global,
    code: &Code,
    waiting: &[usize],
) -> Result<Vec<Option<usize>>, AllocError> {
    let mut sites = Vec::with_capacity(alloc, waiting.len())?;
    for address in &call_addresses(alloc, code, waiting)? {
        sites.push(file_offset(code.mark_at(*address)))?;
    }
    Ok(sites)
}

/// The addresses of the calls that wait, the outermost first.
pub(crate) fn call_addresses(
    alloc: Global,
    code: &Code,
    waiting: &[usize],
) -> Result<Vec<usize>, AllocError> {
    let calls = calls_by_return(alloc, code)?;
    let mut addresses = Vec::with_capacity(alloc, waiting.len())?;
    for next in waiting {
        addresses.push(calls.get(*next).copied().unwrap_or(0))?;
    }
    Ok(addresses)
}

/// For each address that of the call after which the run goes on there, or 0.
fn calls_by_return(alloc: Global, code: &Code) -> Result<Vec<usize>, AllocError> {
    let mut calls = Vec::from_elem(alloc, 0usize, code.len().saturating_add(1))?;
    for (address, instruction) in code.instrs().iter().enumerate() {
        let next = match instruction {
            Instr::CallDefinition { next_address, .. } => *next_address,
            Instr::CallClosure { .. } => address.saturating_add(1),
            _ => continue,
        };
        if let Some(call) = calls.get_mut(next) {
            *call = address;
        }
    }
    Ok(calls)
}

/// Whether a strategy that stands at this byte of the definitions, or at none, is not one of DEFS: it is one of the library, or of the files
/// in front of DEFS, which are the first `library` bytes.
pub(crate) fn is_of_library(site: Option<usize>, library: usize) -> bool {
    match site {
        Some(offset) => offset < library,
        None => true,
    }
}

/// The index of the outermost call of DEFS that calls a library: the call that began a search, in which the library runs, or a strategy that
/// it was given. The innermost strategy stands at the byte of `leaf`.
pub(crate) fn search_site(
    sites: &[Option<usize>],
    leaf: Option<usize>,
    library: usize,
) -> Option<usize> {
    for (index, site) in sites.iter().enumerate() {
        let inner = sites.get(index.saturating_add(1)).copied().unwrap_or(leaf);
        if !is_of_library(*site, library) && is_of_library(inner, library) {
            return Some(index);
        }
    }
    None
}

/// The index of the innermost call of DEFS, if it waits for a strategy of a file in front of DEFS, and no strategy of DEFS is what fails. The
/// innermost strategy stands at the byte of `leaf`.
pub(crate) fn library_call(
    sites: &[Option<usize>],
    leaf: Option<usize>,
    library: usize,
) -> Option<usize> {
    if !is_of_library(leaf, library) {
        return None;
    }
    let index = sites
        .iter()
        .rposition(|site| !is_of_library(*site, library))?;
    let inner = sites.get(index.saturating_add(1)).copied().unwrap_or(leaf);
    inner.and(Some(index))
}

/// A definition that waits, and how often it does without another one in between.
#[derive(Clone, Copy)]
struct Caller {
    head: usize,
    count: usize,
}

/// The definitions in which the calls stand, the innermost first.
fn callers_at(
    alloc: Global,
    listing: &Listing,
    sites: &[Option<usize>],
) -> Result<Vec<Caller>, AllocError> {
    let mut callers: Vec<Caller> = Vec::new(alloc);
    for site in sites.iter().rev() {
        let Some(head) = site.and_then(|offset| listing.head_before(offset)) else {
            continue;
        };
        match callers.last_mut() {
            Some(last) if listing.have_one_name(last.head, head) => {
                last.count = last.count.saturating_add(1);
            }
            _ => callers.push(Caller { head, count: 1 })?,
        }
    }
    Ok(callers)
}

/// The line that names the definitions in which the calls stand, the innermost first; nothing where there is none. Many are cut in the middle.
pub(crate) fn callers_line(
    alloc: Global,
    listing: &Listing,
    sites: &[Option<usize>],
) -> Result<Option<Vec<u8>>, AllocError> {
    let callers = callers_at(alloc, listing, sites)?;
    if callers.is_empty() {
        return Ok(None);
    }
    let hidden = callers.len().saturating_sub(FIRST.saturating_add(LAST));
    let mut line = b"called from ".to_vec(alloc)?;
    for (index, caller) in callers.iter().enumerate() {
        if hidden > 0 && index == FIRST {
            push_hidden(hidden, &mut line)?;
        }
        if hidden > 0 && index >= FIRST && index < FIRST.saturating_add(hidden) {
            continue;
        }
        if index > 0 {
            line.extend_from_slice(b", ")?;
        }
        push_caller(listing, caller, &mut line)?;
    }
    Ok(Some(line))
}

fn push_hidden(count: usize, line: &mut Vec<u8>) -> Result<(), AllocError> {
    line.extend_from_slice(b", .. (")?;
    push_number(count as u64, line)?;
    line.extend_from_slice(b" more)")
}

fn push_caller(listing: &Listing, caller: &Caller, line: &mut Vec<u8>) -> Result<(), AllocError> {
    push_cut(listing.name_of(caller.head), MOST_OF_NAME, line)?;
    if caller.count < 2 {
        return Ok(());
    }
    line.extend_from_slice(b" (")?;
    push_number(caller.count as u64, line)?;
    line.extend_from_slice(b" times)")
}
