//! References as flat values, and flat values as references.
ghost use Rattle.std.specs.Prelude.{◌≡◌, if◌then◌else◌, IfOk, IsTrue, Some, None, List, [], length, map};
ghost use Rattle.prim_registry.specs.Values.{answer_of, value_of, values_of};
ghost use Rattle.term_model.specs.declared.term.Head.TheVariants as heads;
ghost use Rattle.term_model.specs.Flat.{all_flat, flat_of, integers_of};
ghost use Rattle.term_model.specs.Flat as flat;
ghost use Rattle.term_model.specs.Space.{Keeps, Makes};
ghost use Rattle.term_model.specs.Term.{Tree, term, trees_of};
ghost use Rattle.term_model.specs.TermParts.{parts_of};
ghost use Rattle.strat_steps.specs.References.{AllRefs};

use prim_registry::{Bytes, Flat, Numbers};
use std::alloc::{AllocError, Global};
use term_model::{Head, Kind, Made, Sym, TermSpace, Top};

/// Puts the flat values that the terms are, annotations ignored, on the vector, in the place of what is there; returns
/// whether each of them is one.
pub(crate) fn flat_values<S: TermSpace>(
    space: &S,
    alloc: Global,
    terms: &[S::Ref],
    values: &mut Vec<Flat>,
) -> Result<bool, AllocError>
    requires { AllRefs (λ r. IsTrue (S.space.stands space.now r)) terms.now }
    ensures { IfOk result (λ all. (if all then Some (values_of values.new.items) else None) ≡
        all_flat (trees_of (map (S.space.term_of space.now) terms.now))) }
{
    values.clear();
    for term in terms {
        match flat_value(space, alloc, term)? {
            Some(value) => {
                values.push(value)?;
            }
            None => return Ok(false),
        }
    }
    Ok(true)
}

/// Returns the flat value that the term is.
fn flat_value<S: TermSpace>(
    space: &S,
    alloc: Global,
    at: &S::Ref,
) -> Result<Option<Flat>, AllocError>
    requires { IsTrue (S.space.stands space.now at.now) }
    ensures { IfOk result (λ value. answer_of value ≡ flat_of (S.space.term_of space.now at.now)) }
{
    if let Some(value) = space.int_of(at) {
        return Ok(Some(Flat::Int(value)));
    }
    match space.head(at) {
        Top::Int(value) => Ok(Some(Flat::Int(value))),
        Top::App(symbol) => { text(symbol, space.count(at)) }
        Top::List => match numbers(space, alloc, at)? {
            Some(numbers) => Ok(Some(Flat::Ints(numbers))),
            None => Ok(None),
        },
    }
}

/// Returns the string that a symbol with this number of parts is. It shares the bytes of the symbol.
fn text(symbol: &Sym, count: usize) -> Result<Option<Flat>, AllocError>
    ensures { IfOk result (λ value. (parts : List Tree) → length parts ≡ count → answer_of value ≡
        flat_of (term (heads.App symbol.now) parts [])) }
{
    let Kind::Quoted = symbol.kind() else {
        return Ok(None);
    };
    if count != 0 {
        return Ok(None);
    }
    let shared = symbol.clone()?;
    Ok(Some(Flat::Str(Bytes::of_symbol(shared))))
}

/// Returns the integers that the elements of the list are.
fn numbers<S: TermSpace>(
    space: &S,
    alloc: Global,
    list: &S::Ref,
) -> Result<Option<Numbers>, AllocError>
    requires { IsTrue (S.space.stands space.now list.now) }
    ensures { IfOk result (λ numbers. numbers ≡
        integers_of (trees_of (parts_of (S.space.term_of space.now list.now)))) }
{
    let mut elements = Vec::new(alloc);
    space.push_parts(list, &mut elements)?;
    numbers_of(space, alloc, &elements)
}

/// Returns the integers that the terms are.
fn numbers_of<S: TermSpace>(
    space: &S,
    alloc: Global,
    terms: &[S::Ref],
) -> Result<Option<Numbers>, AllocError>
    requires { AllRefs (λ r. IsTrue (S.space.stands space.now r)) terms.now }
    ensures { IfOk result (λ numbers. numbers ≡
        integers_of (trees_of (map (S.space.term_of space.now) terms.now))) }
{
    let mut values = Vec::new(alloc);
    for term in terms {
        match space.int_of(term) {
            Some(value) => {
                values.push(value)?;
            }
            None => return Ok(None),
        }
    }
    Ok(Some(Numbers::new(values)))
}

/// Makes the term of a flat value, without annotations.
pub(crate) fn make_flat<S: TermSpace>(
    space: &mut S,
    alloc: Global,
    value: &Flat,
) -> Result<Made<S::Ref>, AllocError>
    ensures keeps { Keeps S.space space.old space.new }
    ensures made { IfOk result (Makes S.space space.new (flat.term_of (value_of value.now))) }
{
    match value {
        Flat::Int(number) => {
            let integer = space.int(alloc, *number)?;
            Ok(Made::Fits(integer))
        }
        Flat::Str(text) => {
            let symbol = Sym::quoted(alloc, text.as_slice())?;
            let none = Vec::new(alloc);
            space.make(alloc, Head::App(symbol), none, Vec::new(alloc))
        }
        Flat::Ints(numbers) => {
            let elements = make_integers(space, alloc, numbers.as_slice())?;
            space.list(alloc, &elements)
        }
    }
}

/// Makes the integers.
fn make_integers<S: TermSpace>(
    space: &mut S,
    alloc: Global,
    numbers: &[i64],
) -> Result<Vec<S::Ref>, AllocError>
    ensures keeps { Keeps S.space space.old space.new }
    ensures standing { IfOk result (λ rs.
        AllRefs (λ r. IsTrue (S.space.stands space.new r)) rs.items) }
    ensures integers { IfOk result (λ rs. trees_of (map (S.space.term_of space.new) rs.items) ≡
        flat.integers numbers.now) }
{
    let mut made = Vec::new(alloc);
    for number in numbers {
        made.push(space.int(alloc, *number)?)?;
    }
    Ok(made)
}
