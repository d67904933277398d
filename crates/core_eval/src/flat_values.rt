//! Terms as flat values, and flat values as terms.
ghost use Rattle.std.specs.Prelude.{◌≡◌, IfOk, [], length};
ghost use Rattle.std.specs.Option.{option_map};
ghost use Rattle.prim_registry.specs.Values.{answer_of, value_of, values_of};
ghost use Rattle.term_model.specs.Flat.{all_flat, flat_of, integer_of, integers_of};
ghost use Rattle.term_model.specs.Flat as flat;
ghost use Rattle.term_model.specs.Term.{made_of, term, trees_of};
ghost use Rattle.term_model.specs.Results.{Returns};

use crate::making::integer;
use prim_registry::{Bytes, Flat, Numbers};
use std::alloc::{AllocError, Global};
use term_model::{Head, Kind, Made, Sym, Term};

/// Returns the flat values that the terms are, annotations ignored; `None` where one of them is none.
pub(crate) fn flat_values(alloc: Global, terms: &[Term]) -> Result<Option<Vec<Flat>>, AllocError>
    ensures { IfOk result (λ values. option_map (λ flats. values_of flats.items) values ≡
        all_flat (trees_of terms.now)) }
{
    let mut values = Vec::new(alloc);
    for t in terms {
        match flat_value(alloc, t)? {
            Some(value) => {
                values.push(value)?;
            }
            None => return Ok(None),
        }
    }
    Ok(Some(values))
}

/// Returns the flat value that the term is.
fn flat_value(alloc: Global, t: &Term) -> Result<Option<Flat>, AllocError>
    ensures { IfOk result (λ value. answer_of value ≡ flat_of t.now) }
{
    match t.head() {
        Head::Int(value) => Ok(Some(Flat::Int(*value))),
        Head::App(symbol) => {
            let text = text(symbol, t.children())?;
            Ok(text)
        }
        Head::List => match numbers(alloc, t.children())? {
            Some(numbers) => Ok(Some(Flat::Ints(numbers))),
            None => Ok(None),
        },
    }
}

/// Returns the string that the symbol with these parts is. It shares the bytes of the symbol.
fn text(symbol: &Sym, parts: &[Term]) -> Result<Option<Flat>, AllocError>
    ensures { IfOk result (λ value. answer_of value ≡
        flat_of (term (Head.App symbol.now) parts.now [])) }
{
    let Kind::Quoted = symbol.kind() else {
        return Ok(None);
    };
    if !parts.is_empty() {
        return Ok(None);
    }
    let shared = symbol.clone()?;
    Ok(Some(Flat::Str(Bytes::of_symbol(shared))))
}

/// Returns the integers that the terms are.
fn numbers(alloc: Global, terms: &[Term]) -> Result<Option<Numbers>, AllocError>
    ensures { Returns result (integers_of (trees_of terms.now)) }
{
    let mut values = Vec::new(alloc);
    for t in terms {
        match number(t) {
            Some(value) => {
                values.push(value)?;
            }
            None => return Ok(None),
        }
    }
    Ok(Some(Numbers::new(values)))
}

/// Returns the integer that the term is.
fn number(t: &Term) -> Option<i64>
    ensures { result ≡ integer_of t.now }
{
    match t.head() {
        Head::Int(value) => Some(*value),
        Head::App(_) | Head::List => None,
    }
}

/// Makes the term of a flat value, without annotations.
pub(crate) fn term_of(alloc: Global, value: &Flat) -> Result<Made<Term>, AllocError>
    ensures { Returns result (made_of (flat.term_of (value_of value.now))) }
{
    match value {
        Flat::Int(number) => { integer(alloc, *number, None) }
        Flat::Str(text) => {
            let symbol = Sym::quoted(alloc, text.as_slice())?;
            Term::app(alloc, symbol, Vec::new(alloc))
        }
        Flat::Ints(numbers) => {
            let elements = integers(alloc, numbers.as_slice())?;
            Term::list(alloc, elements)
        }
    }
}

/// Makes the integers.
fn integers(alloc: Global, numbers: &[i64]) -> Result<Vec<Term>, AllocError>
    ensures { IfOk result (λ terms. trees_of terms.items ≡ flat.integers numbers.now) }
{
    let mut terms = Vec::new(alloc);
    for number in numbers {
        terms.push(Term::int(alloc, *number)?)?;
    }
    Ok(terms)
}
