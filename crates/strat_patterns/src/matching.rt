//! Matching a pattern with the term of a reference.
ghost use Rattle.std.specs.Prelude.{◌≡◌, ◌≤◌, IfOk, IsTrue, None, true, [], length, map, drop};
ghost use Rattle.core_lang.specs.Program.{list};
ghost use Rattle.term_model.specs.declared.term.Head.TheVariants as heads;
ghost use Rattle.term_model.specs.Symbol.{Symbol};
ghost use Rattle.term_model.specs.Term.{term};
ghost use Rattle.term_model.specs.TermParts.{annos_of, head_of, parts_of};
ghost use Rattle.term_model.specs.Same.{same_head};
ghost use Rattle.term_model.specs.Space.{Keeps};
ghost use Rattle.strat_steps.specs.Binding.{attempt, attempted, bind};
ghost use Rattle.strat_patterns.specs.Loaded.{Known, AllKnown, RestKnown, all_loaded_of, loaded_of, rest_loaded_of};
ghost use Rattle.strat_steps.specs.Matches.{Goes, LeavesSpace, AllLeaveSpace, first_attempted, rest_attempted, sees_annotations};
ghost use Rattle.strat_steps.specs.References.{AllPlaces, AllRefs};
ghost use Rattle.strat_steps.specs.State.{place_at};

use crate::annotations::{anno, bare, has_annos};
use crate::first_parts::first_parts;
use crate::frames::Frames;
use crate::loaded::LoadedPattern;
use crate::places::Places;
use core_lang::Coordinate;
use std::alloc::{AllocError, Global};
use term_model::TermSpace;

/// At most as many parts are asked for one by one, and the space walks to each; more are put on a vector by one walk.
pub(crate) const FEW: usize = 8;

/// Returns whether the pattern matches the term, by the rule for each form of patterns; `match_term` says what a match is.
///
/// # Errors
///
/// Returns an error if there is no memory. The places may then have been changed as by a failed match; the space keeps the terms of its
/// references.
#[cycle(matching)]
pub(crate) fn match_pattern<S: TermSpace>(
    space: &mut S,
    alloc: Global,
    frames: &Frames,
    here: usize,
    pattern: &LoadedPattern<S::Name>,
    at: &S::Ref,
    places: &mut Places<S::Ref>,
) -> Result<bool, AllocError>
    requires known { Known (S.space.knows space.old) pattern.now }
    requires stands { IsTrue (S.space.stands space.old at.now) }
    requires places { AllPlaces (λ r. IsTrue (S.space.stands space.old r)) places.old.slots }
    ensures keeps { Keeps S.space space.old space.new }
    ensures unchanged { LeavesSpace (loaded_of (S.space.symbol_of space.old) pattern.now) →
        space.new ≡ space.old }
    ensures barrier { IfOk result (λ _. places.new.barrier ≡ places.old.barrier) }
    ensures attempt { IfOk result (λ yes.
        Goes S.space places.old.barrier (attempted (place_at frames.now here) places.old.barrier
        (loaded_of (S.space.symbol_of space.old) pattern.now) (S.space.term_of space.old at.now))
        (attempt yes) space.old places.old.slots places.old.trail space.new places.new.slots
        places.new.trail) }
{
    match pattern {
        LoadedPattern::Anything => Ok(true),
        LoadedPattern::Variable(x) => {
            let yes = bind_variable(space, frames, here, *x, at, places)?;
            Ok(yes)
        }
        LoadedPattern::Alias(x, part) => {
            if !bind_variable(space, frames, here, *x, at, places)? {
                return Ok(false);
            }
            let yes = match_pattern(space, alloc, frames, here, part, at, places)?;
            Ok(yes)
        }
        LoadedPattern::Integer(value) => Ok(is_integer(space, at, value)),
        LoadedPattern::Applied(name, parts) => {
            let count = space.count(at);
            if !is_application(space, at, name, count) {
                return Ok(false);
            }
            let parts = parts.as_slice();
            if !match_first(space, alloc, frames, here, parts, at, count, places)? {
                return Ok(false);
            }
            Ok(parts.len() == count)
        }
        LoadedPattern::List(elements, rest) => {
            if !is_list(space, at) {
                return Ok(false);
            }
            let elements = elements.as_slice();
            let count = space.count(at);
            if !match_first(space, alloc, frames, here, elements, at, count, places)? {
                return Ok(false);
            }
            let yes = match_rest(space, alloc, frames, here, rest, at, elements.len(), places)?;
            Ok(yes)
        }
        LoadedPattern::Like(_, _) => Ok(false),
        LoadedPattern::Annotated(part, annotations) => {
            let annotations = annotations.as_slice();
            if !has_annos(space, at, annotations.len()) {
                return Ok(false);
            }
            if !match_bare(space, alloc, frames, here, part, at, places)? {
                return Ok(false);
            }
            let yes = match_annos(space, alloc, frames, here, annotations, at, places)?;
            Ok(yes)
        }
    }
}

/// Whether the pattern matches the term without its annotations. That term is made only where the pattern binds it or asks for its
/// annotations.
#[cycle(matching)]
fn match_bare<S: TermSpace>(
    space: &mut S,
    alloc: Global,
    frames: &Frames,
    here: usize,
    pattern: &LoadedPattern<S::Name>,
    at: &S::Ref,
    places: &mut Places<S::Ref>,
) -> Result<bool, AllocError>
    requires known { Known (S.space.knows space.old) pattern.now }
    requires stands { IsTrue (S.space.stands space.old at.now) }
    requires places { AllPlaces (λ r. IsTrue (S.space.stands space.old r)) places.old.slots }
    ensures keeps { Keeps S.space space.old space.new }
    ensures barrier { IfOk result (λ _. places.new.barrier ≡ places.old.barrier) }
    ensures attempt { IfOk result (λ yes.
        Goes S.space places.old.barrier (attempted (place_at frames.now here) places.old.barrier
        (loaded_of (S.space.symbol_of space.old) pattern.now)
        (term (head_of (S.space.term_of space.old at.now))
        (parts_of (S.space.term_of space.old at.now)) [])) (attempt yes) space.old places.old.slots
        places.old.trail space.new places.new.slots places.new.trail) }
{
    if !sees_annos(pattern) {
        let yes = match_pattern(space, alloc, frames, here, pattern, at, places)?;
        return Ok(yes);
    }
    let bare = bare(space, alloc, at)?;
    let yes = match_pattern(space, alloc, frames, here, pattern, &bare, places)?;
    Ok(yes)
}

/// Whether each pattern matches the annotation at its place, of which there are as many.
#[cycle(matching)]
fn match_annos<S: TermSpace>(
    space: &mut S,
    alloc: Global,
    frames: &Frames,
    here: usize,
    patterns: &[LoadedPattern<S::Name>],
    at: &S::Ref,
    places: &mut Places<S::Ref>,
) -> Result<bool, AllocError>
    requires known { AllKnown (S.space.knows space.old) patterns.now }
    requires count { length (annos_of (S.space.term_of space.old at.now)) ≡ length patterns.now }
    requires stands { IsTrue (S.space.stands space.old at.now) }
    requires places { AllPlaces (λ r. IsTrue (S.space.stands space.old r)) places.old.slots }
    ensures keeps { Keeps S.space space.old space.new }
    ensures barrier { IfOk result (λ _. places.new.barrier ≡ places.old.barrier) }
    ensures attempt { IfOk result (λ yes.
        Goes S.space places.old.barrier (first_attempted (place_at frames.now here)
        places.old.barrier (map (loaded_of (S.space.symbol_of space.old)) patterns.now)
        (annos_of (S.space.term_of space.old at.now))) (attempt yes) space.old places.old.slots
        places.old.trail space.new places.new.slots places.new.trail) }
{
    if patterns.len() > FEW {
        let mut annos = Vec::new(alloc);
        space.push_annos(at, &mut annos)?;
        let yes = match_each(space, alloc, frames, here, patterns, &annos, places)?;
        return Ok(yes);
    }
    for (i, pattern) in patterns.iter().enumerate() {
        let anno = anno(space, at, i)?;
        if !match_part(space, alloc, frames, here, pattern, &anno, places)? {
            return Ok(false);
        }
    }
    Ok(true)
}

/// Whether the pattern binds the term, or asks for its annotations.
fn sees_annos<N>(pattern: &LoadedPattern<N>) -> bool
    ensures { (symbol_of : N → Symbol) → result ≡
        sees_annotations (loaded_of symbol_of pattern.now) }
{
    match pattern {
        LoadedPattern::Variable(_) => true,
        LoadedPattern::Alias(_, _) => true,
        LoadedPattern::Annotated(_, _) => true,
        LoadedPattern::Anything => false,
        LoadedPattern::Integer(_) => false,
        LoadedPattern::Applied(_, _) => false,
        LoadedPattern::List(_, _) => false,
        LoadedPattern::Like(_, _) => false,
    }
}

/// Whether the term has at least as many parts, and each pattern matches its own.
#[cycle(matching)]
fn match_first<S: TermSpace>(
    space: &mut S,
    alloc: Global,
    frames: &Frames,
    here: usize,
    patterns: &[LoadedPattern<S::Name>],
    at: &S::Ref,
    count: usize,
    places: &mut Places<S::Ref>,
) -> Result<bool, AllocError>
    requires known { AllKnown (S.space.knows space.old) patterns.now }
    requires count { count ≡ length (parts_of (S.space.term_of space.old at.now)) }
    requires stands { IsTrue (S.space.stands space.old at.now) }
    requires places { AllPlaces (λ r. IsTrue (S.space.stands space.old r)) places.old.slots }
    ensures keeps { Keeps S.space space.old space.new }
    ensures unchanged { AllLeaveSpace (all_loaded_of (S.space.symbol_of space.old) patterns.now) →
        space.new ≡ space.old }
    ensures barrier { IfOk result (λ _. places.new.barrier ≡ places.old.barrier) }
    ensures enough { IfOk result (λ yes. yes ≡ true →
        length patterns.now ≤ length (parts_of (S.space.term_of space.old at.now))) }
    ensures attempt { IfOk result (λ yes.
        Goes S.space places.old.barrier (first_attempted (place_at frames.now here)
        places.old.barrier (map (loaded_of (S.space.symbol_of space.old)) patterns.now)
        (parts_of (S.space.term_of space.old at.now))) (attempt yes) space.old places.old.slots
        places.old.trail space.new places.new.slots places.new.trail) }
{
    if patterns.len() > FEW {
        let parts = first_parts(space, alloc, at, patterns.len())?;
        let yes = match_each(space, alloc, frames, here, patterns, &parts, places)?;
        return Ok(yes);
    }
    for (i, pattern) in patterns.iter().enumerate() {
        if i >= count {
            return Ok(false);
        }
        let part = space.part(at, i)?;
        if !match_part(space, alloc, frames, here, pattern, &part, places)? {
            return Ok(false);
        }
    }
    Ok(true)
}

/// Whether there are at least as many terms, and each pattern matches its own.
#[cycle(matching)]
fn match_each<S: TermSpace>(
    space: &mut S,
    alloc: Global,
    frames: &Frames,
    here: usize,
    patterns: &[LoadedPattern<S::Name>],
    terms: &[S::Ref],
    places: &mut Places<S::Ref>,
) -> Result<bool, AllocError>
    requires known { AllKnown (S.space.knows space.old) patterns.now }
    requires stand { AllRefs (λ r. IsTrue (S.space.stands space.old r)) terms.now }
    requires places { AllPlaces (λ r. IsTrue (S.space.stands space.old r)) places.old.slots }
    ensures keeps { Keeps S.space space.old space.new }
    ensures unchanged { AllLeaveSpace (all_loaded_of (S.space.symbol_of space.old) patterns.now) →
        space.new ≡ space.old }
    ensures barrier { IfOk result (λ _. places.new.barrier ≡ places.old.barrier) }
    ensures enough { IfOk result (λ yes. yes ≡ true → length patterns.now ≤ length terms.now) }
    ensures attempt { IfOk result (λ yes.
        Goes S.space places.old.barrier
        (first_attempted (place_at frames.now here) places.old.barrier
        (map (loaded_of (S.space.symbol_of space.old)) patterns.now)
        (map (S.space.term_of space.old) terms.now)) (attempt yes) space.old places.old.slots
        places.old.trail space.new places.new.slots places.new.trail) }
{
    let count = terms.len();
    for (i, pattern) in patterns.iter().enumerate() {
        if i >= count {
            return Ok(false);
        }
        let term = &terms[i];
        if !match_part(space, alloc, frames, here, pattern, term, places)? {
            return Ok(false);
        }
    }
    Ok(true)
}

/// Whether the pattern matches the part. Most parts of patterns are variables, which need no further call.
#[cycle(matching)]
pub(crate) fn match_part<S: TermSpace>(
    space: &mut S,
    alloc: Global,
    frames: &Frames,
    here: usize,
    pattern: &LoadedPattern<S::Name>,
    at: &S::Ref,
    places: &mut Places<S::Ref>,
) -> Result<bool, AllocError>
    requires known { Known (S.space.knows space.old) pattern.now }
    requires stands { IsTrue (S.space.stands space.old at.now) }
    requires places { AllPlaces (λ r. IsTrue (S.space.stands space.old r)) places.old.slots }
    ensures keeps { Keeps S.space space.old space.new }
    ensures unchanged { LeavesSpace (loaded_of (S.space.symbol_of space.old) pattern.now) →
        space.new ≡ space.old }
    ensures barrier { IfOk result (λ _. places.new.barrier ≡ places.old.barrier) }
    ensures attempt { IfOk result (λ yes.
        Goes S.space places.old.barrier (attempted (place_at frames.now here) places.old.barrier
        (loaded_of (S.space.symbol_of space.old) pattern.now) (S.space.term_of space.old at.now))
        (attempt yes) space.old places.old.slots places.old.trail space.new places.new.slots
        places.new.trail) }
{
    let LoadedPattern::Variable(x) = pattern else {
        let yes = match_pattern(space, alloc, frames, here, pattern, at, places)?;
        return Ok(yes);
    };
    let yes = bind_variable(space, frames, here, *x, at, places)?;
    Ok(yes)
}

/// Whether the pattern matches the rest of the list; with no pattern, whether there is none.
#[cycle(matching)]
fn match_rest<S: TermSpace>(
    space: &mut S,
    alloc: Global,
    frames: &Frames,
    here: usize,
    rest: &Option<Box<LoadedPattern<S::Name>>>,
    at: &S::Ref,
    from: usize,
    places: &mut Places<S::Ref>,
) -> Result<bool, AllocError>
    requires known { RestKnown (S.space.knows space.old) rest.now }
    requires stands { IsTrue (S.space.stands space.old at.now) }
    requires list { head_of (S.space.term_of space.old at.now) ≡ heads.List }
    requires from { from ≤ length (parts_of (S.space.term_of space.old at.now)) }
    requires places { AllPlaces (λ r. IsTrue (S.space.stands space.old r)) places.old.slots }
    ensures keeps { Keeps S.space space.old space.new }
    ensures unchanged { rest.now ≡ None → space.new ≡ space.old }
    ensures barrier { IfOk result (λ _. places.new.barrier ≡ places.old.barrier) }
    ensures attempt { IfOk result (λ yes.
        Goes S.space places.old.barrier (rest_attempted (place_at frames.now here)
        places.old.barrier (rest_loaded_of (S.space.symbol_of space.old) rest.now)
        (drop from (parts_of (S.space.term_of space.old at.now)))) (attempt yes) space.old
        places.old.slots places.old.trail space.new places.new.slots places.new.trail) }
{
    match rest {
        None => Ok(from == space.count(at)),
        Some(pattern) => {
            let others = space.rest(alloc, at, from)?;
            let yes = match_pattern(space, alloc, frames, here, pattern, &others, places)?;
            Ok(yes)
        }
    }
}

/// Gives the variable the term; where it has one, whether they are the same.
#[inline]
pub(crate) fn bind_variable<S: TermSpace>(
    space: &S,
    frames: &Frames,
    here: usize,
    variable: Coordinate,
    at: &S::Ref,
    places: &mut Places<S::Ref>,
) -> Result<bool, AllocError>
    requires stands { IsTrue (S.space.stands space.now at.now) }
    requires places { AllPlaces (λ r. IsTrue (S.space.stands space.now r)) places.old.slots }
    ensures barrier { IfOk result (λ _. places.new.barrier ≡ places.old.barrier) }
    ensures attempt { IfOk result (λ yes.
        Goes S.space places.old.barrier (bind places.old.barrier (place_at frames.now here variable)
        (S.space.term_of space.now at.now)) (attempt yes) space.now places.old.slots
        places.old.trail space.now places.new.slots places.new.trail) }
{
    let Some(place) = frames.place_of(here, variable, places.len()) else {
        return Ok(false);
    };
    match places.slot(place) {
        None => return Ok(false),
        Some(Some(held)) => return Ok(space.same(held, at)),
        Some(None) => {}
    }
    let reference = space.dup(at)?;
    places.give(place, reference)?;
    Ok(true)
}

/// Returns whether the term is the integer, whatever its annotations.
pub fn is_integer<S: TermSpace>(space: &S, at: &S::Ref, value: &i64) -> bool
    requires { IsTrue (S.space.stands space.now at.now) }
    ensures { result ≡ same_head (head_of (S.space.term_of space.now at.now))
        (heads.Int value.now) }
{
    match space.int_of(at) {
        Some(other) => other == *value,
        None => false,
    }
}

pub(crate) fn is_application<S: TermSpace>(
    space: &S,
    at: &S::Ref,
    name: &S::Name,
    count: usize,
) -> bool
    requires stands { IsTrue (S.space.stands space.now at.now) }
    requires known { IsTrue (S.space.knows space.now name.now) }
    requires count { count ≡ length (parts_of (S.space.term_of space.now at.now)) }
    ensures { result ≡ same_head (head_of (S.space.term_of space.now at.now))
        (heads.App (S.space.symbol_of space.now name.now)) }
{
    space.is_app(at, name, count)
}

fn is_list<S: TermSpace>(space: &S, at: &S::Ref) -> bool
    requires { IsTrue (S.space.stands space.now at.now) }
    ensures { result ≡ same_head (head_of (S.space.term_of space.now at.now)) heads.List }
{
    space.list_len(at).is_some()
}
