//! The heaviest and the deepest terms, and long lists.
use crate::terms::making::{fitting, string, symbol};
use std::alloc::{AllocError, Global};
use std::test::Fail;
use term_model::{Made, Term};

/// A string of this number of bytes.
fn string_of(alloc: Global, length: usize) -> Result<Term, Fail> {
    let bytes = vec![in alloc; b'x'; length]?;
    string(alloc, &bytes)
}

/// `F` of two strings of these numbers of bytes.
fn f_of_strings(alloc: Global, first: usize, second: usize) -> Result<Made<Term>, Fail> {
    let symbol = symbol(alloc, b"F")?;
    let parts = vec![in alloc; string_of(alloc, first)?, string_of(alloc, second)?]?;
    Ok(Term::app(alloc, symbol, parts)?)
}

/// The weight of `F` of two strings of these numbers of bytes, where it fits.
fn weight_of(alloc: Global, first: usize, second: usize) -> Result<Option<u32>, Fail> {
    match f_of_strings(alloc, first, second)? {
        Made::Fits(term) => Ok(Some(term.weight())),
        Made::Oversize => Ok(None),
    }
}

#[test]
fn the_heaviest_term(rt: HostRuntime) -> Result<(), Fail> {
    if weight_of(rt.alloc(), 8_388_606, 8_388_606)? != Some(16_777_216) {
        return Err(Fail::new("the heaviest"));
    }
    if weight_of(rt.alloc(), 8_388_606, 8_388_607)?.is_some() {
        return Err(Fail::new("a heavier one"));
    }
    Ok(())
}

/// A list with this part, where the term itself is as deep as it should be.
fn list_around(alloc: Global, part: Made<Term>, depth: u32) -> Result<Made<Term>, Fail> {
    let term = fitting(part)?;
    if term.depth() != depth {
        return Err(Fail::new("another depth"));
    }
    Ok(Term::list(alloc, vec![in alloc; term]?)?)
}

#[test]
fn the_deepest_term(rt: HostRuntime) -> Result<(), Fail> {
    let mut deep = Term::list(rt.alloc(), Vec::new(rt.alloc()))?;
    for depth in 1..=1000 {
        deep = list_around(rt.alloc(), deep, depth)?;
    }
    match deep {
        Made::Fits(_) => Err(Fail::new("a list that is deeper than 1000")),
        Made::Oversize => Ok(()),
    }
}

/// The list of the integers from 0 on, of this length.
fn count_up(alloc: Global, length: i64) -> Result<Term, Fail> {
    let mut elements = Vec::new(alloc);
    for value in 0..length {
        elements.push(Term::int(alloc, value)?)?;
    }
    fitting(Term::list(alloc, elements)?)
}

/// Whether the lists of these lengths are the same.
fn are_equal(alloc: Global, one: i64, other: i64) -> Result<bool, Fail> {
    Ok(count_up(alloc, one)? == count_up(alloc, other)?)
}

#[test]
fn lists_of_a_million(rt: HostRuntime) -> Result<(), Fail> {
    if !are_equal(rt.alloc(), 1_000_000, 1_000_000)? {
        return Err(Fail::new("equal lists"));
    }
    if are_equal(rt.alloc(), 1_000_000, 999_999)? {
        return Err(Fail::new("lists of two lengths"));
    }
    Ok(())
}
