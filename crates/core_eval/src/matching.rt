//! Matching a pattern with a term.
ghost use Rattle.std.specs.Prelude.{◌≡◌, ◌≤◌, IfOk, [], length, drop, map};
ghost use Rattle.core_lang.specs.Resolved.{by_coordinates};
ghost use Rattle.core_lang.specs.Tried.{put, put_at, tried, tried_all, tried_elements};
ghost use Rattle.core_lang.specs.Views.{elements_in, pattern_of, patterns_of, rest_of};
ghost use Rattle.term_model.specs.Same.{same_head};
ghost use Rattle.term_model.specs.Term.{term, trees_of};
ghost use Rattle.term_model.specs.TermParts.{head_of, parts_of};
ghost use Rattle.core_eval.specs.Frame.{environment_of};
ghost use Rattle.core_eval.specs.Matching.{Found, FirstFound};
ghost use Rattle.term_model.specs.Results.{Returns};

use crate::frame::{Frame, position};
use crate::making::is_list;
use core_lang::{Coordinate, CorePattern};
use std::alloc::{AllocError, Global};
use term_model::{Head, Made, Sym, Term};

/// Whether the pattern matches the term; each of its variables that had no term is then bound. Where it does not,
/// some of them may be bound.
#[cycle(matching)]
pub(crate) fn matches(
    alloc: Global,
    p: &CorePattern,
    frame: &Frame,
    t: &Term,
    places: &mut Vec<Option<Term>>,
) -> Result<bool, AllocError>
    ensures { IfOk result (λ yes. Found
        (tried (by_coordinates.place_of (environment_of frame.now)) (pattern_of p.now)
        t.now places.old.items) yes places.new.items) }
{
    match p {
        CorePattern::Anything => Ok(true),
        CorePattern::Variable(x) => bind_variable(*x, frame, t, places),
        CorePattern::Integer(value) => Ok(is_integer(t, *value)),
        CorePattern::Alias(x, part) => {
            let bound = bind_variable(*x, frame, t, places)?;
            Ok(bound && matches(alloc, part, frame, t, places)?)
        }
        CorePattern::Applied(symbol, parts) => {
            if !is_application(t, symbol) {
                return Ok(false);
            }
            let yes = all_match(alloc, parts.as_slice(), frame, t.children(), places)?;
            Ok(yes)
        }
        CorePattern::List(elements, rest) => {
            if !is_list(t) {
                return Ok(false);
            }
            let elements = elements.as_slice();
            if !first_match(alloc, elements, frame, t.children(), places)? {
                return Ok(false);
            }
            let yes = rest_matches(alloc, rest, frame, t, elements.len(), places)?;
            Ok(yes)
        }
        CorePattern::Like(_, _) => Ok(false),
        CorePattern::Annotated(part, annotations) => {
            let bare = bare(alloc, t)?;
            if !matches(alloc, part, frame, &bare, places)? {
                return Ok(false);
            }
            let yes = all_match(alloc, annotations.as_slice(), frame, t.annos(), places)?;
            Ok(yes)
        }
    }
}

/// Whether there are as many terms, and each pattern matches its own.
#[cycle(matching)]
fn all_match(
    alloc: Global,
    patterns: &[CorePattern],
    frame: &Frame,
    terms: &[Term],
    places: &mut Vec<Option<Term>>,
) -> Result<bool, AllocError>
    ensures { IfOk result (λ yes. Found
        (tried_all (by_coordinates.place_of (environment_of frame.now)) (patterns_of patterns.now)
        (trees_of terms.now) places.old.items) yes places.new.items) }
{
    if patterns.len() != terms.len() {
        return Ok(false);
    }
    for (i, p) in patterns.iter().enumerate() {
        if !matches(alloc, p, frame, &terms[i], places)? {
            return Ok(false);
        }
    }
    Ok(true)
}

/// Whether there are at least as many terms, and each pattern matches its own.
#[cycle(matching)]
fn first_match(
    alloc: Global,
    patterns: &[CorePattern],
    frame: &Frame,
    terms: &[Term],
    places: &mut Vec<Option<Term>>,
) -> Result<bool, AllocError>
    ensures { IfOk result (λ yes. FirstFound (by_coordinates.place_of (environment_of frame.now))
        (map pattern_of patterns.now) (trees_of terms.now)
        places.old.items yes (trees_of (drop (length patterns.now) terms.now))
        places.new.items (length patterns.now ≤ length terms.now)) }
{
    if terms.len() < patterns.len() {
        return Ok(false);
    }
    for (at, p) in patterns.iter().enumerate() {
        if !matches(alloc, p, frame, &terms[at], places)? {
            return Ok(false);
        }
    }
    Ok(true)
}

/// Whether the rest of a list matches the parts of the term after this number of first ones; an absent rest, whether there
/// are none.
#[cycle(matching)]
fn rest_matches(
    alloc: Global,
    rest: &Option<Box<CorePattern>>,
    frame: &Frame,
    t: &Term,
    from: usize,
    places: &mut Vec<Option<Term>>,
) -> Result<bool, AllocError>
    requires { from ≤ length (parts_of t.now) }
    ensures { IfOk result (λ yes. Found
        (tried_elements (by_coordinates.place_of (environment_of frame.now))
        (elements_in [] (rest_of rest.now)) (trees_of (drop from (parts_of t.now)))
        places.old.items) yes places.new.items) }
{
    match rest {
        None => {
            if from < t.children().len() {
                return Ok(false);
            }
            Ok(true)
        }
        Some(p) => {
            let others = list_after(alloc, t, from)?;
            matches(alloc, p, frame, &others, places)
        }
    }
}

/// Returns the parts of the term after this number of first ones, as a list.
fn list_after(alloc: Global, t: &Term, from: usize) -> Result<Term, AllocError>
    requires { from ≤ length (parts_of t.now) }
    ensures { Returns result (term Head.List (drop from (parts_of t.now)) []) }
{
    t.fits();
    let others = Vec::from_clones(alloc, &t.children()[from..])?;
    match Term::list(alloc, others)? {
        Made::Fits(list) => Ok(list),
        Made::Oversize => unreachable!(),
    }
}

/// Returns the term without its annotations.
fn bare(alloc: Global, t: &Term) -> Result<Term, AllocError>
    ensures { Returns result (term (head_of t.now) (parts_of t.now) []) }
{
    t.fits();
    match t.with_annos(alloc, Vec::new(alloc))? {
        Made::Fits(made) => Ok(made),
        Made::Oversize => unreachable!(),
    }
}

/// Gives the variable the term; where it has one, whether they are the same.
fn bind_variable(
    x: Coordinate,
    frame: &Frame,
    t: &Term,
    places: &mut Vec<Option<Term>>,
) -> Result<bool, AllocError>
    ensures { IfOk result (λ yes. Found
        (put_at (by_coordinates.place_of (environment_of frame.now) x) t.now places.old.items)
        yes places.new.items) }
{
    match position(frame, x, places.len()) {
        Some(at) => { bind(places, at, t) }
        None => Ok(false),
    }
}

/// Gives the place the term; where it has one, whether they are the same.
fn bind(places: &mut Vec<Option<Term>>, at: usize, t: &Term) -> Result<bool, AllocError>
    ensures { IfOk result (λ yes. Found (put at t.now places.old.items) yes places.new.items) }
{
    if at >= places.len() {
        return Ok(false);
    }
    if let Some(held) = &places[at] {
        return Ok(held == t);
    }
    places[at] = Some(t.clone()?);
    Ok(true)
}

fn is_integer(t: &Term, value: i64) -> bool
    ensures { result ≡ same_head (head_of t.now) (Head.Int value) }
{
    match t.head() {
        Head::Int(other) => *other == value,
        Head::App(_) | Head::List => false,
    }
}

fn is_application(t: &Term, symbol: &Sym) -> bool
    ensures { result ≡ same_head (head_of t.now) (Head.App symbol.now) }
{
    match t.head() {
        Head::App(other) => other == symbol,
        Head::Int(_) | Head::List => false,
    }
}
