//! Applied patterns: matched and built at once as long as their parts are variables.
ghost use Rattle.std.specs.Prelude.{◌≡◌, ◌≤◌, ℕ, List, Option, true, false, IfOk, IsTrue, length, map, drop};
ghost use Rattle.core_lang.specs.declared.coordinate.Coordinate.{Coordinate};
ghost use Rattle.core_lang.specs.Environment.{Bindings};
ghost use Rattle.std.specs.Option.{option_map};
ghost use Rattle.core_lang.specs.Building.{instance};
ghost use Rattle.core_lang.specs.Program.{applied};
ghost use Rattle.core_lang.specs.Views.{patterns_in};
ghost use Rattle.term_model.specs.TermParts.{parts_of};
ghost use Rattle.term_model.specs.Space.{Keeps};
ghost use Rattle.strat_steps.specs.Binding.{attempt, attempted};
ghost use Rattle.strat_steps.specs.Matches.{Goes, LeavesSpace, AllLeaveSpace, first_attempted};
ghost use Rattle.strat_steps.specs.References.{AllPlaces};
ghost use Rattle.strat_steps.specs.State.{place_at};
ghost use Rattle.strat_patterns.specs.Builds.{Builds, Puts, AreBuilt, instances_then};
ghost use Rattle.strat_patterns.specs.Loaded.{Known, AllKnown, all_loaded_of, loaded_of};
ghost use Rattle.strat_patterns.specs.Applied.{MatchesFirst, PutsFirst};

use crate::building::{Built, Pushed, build, push_all};
use crate::frames::Frames;
use crate::loaded::LoadedPattern;
use crate::lookup::value;
use crate::making::apply;
use crate::matching::{FEW, bind_variable, is_application, match_part, match_pattern};
use crate::memory::push_on;
use crate::places::Places;
use std::alloc::{AllocError, Global};
use term_model::TermSpace;

/// What came of the first parts of an applied pattern.
#[derive(Clone, Copy)]
enum First {
    /// One of them does not match.
    Failed,
    /// This number of them match; the next one, if there is one, is no variable.
    Matched(usize),
}

/// Returns whether the pattern matches the term. The variables are seen from the frame at `here`. If it matches, each variable of the
/// pattern that had no term has one; if not, some of them may have been given one. A pattern with neither a list tail nor braces leaves the
/// space as it is. Variables, and applied patterns of few parts, take the least time.
///
/// # Errors
///
/// Returns an error if there is no memory. The places may then have been changed as by a failed match; the space keeps the terms of its
/// references.
#[inline]
pub fn match_term<S: TermSpace>(
    space: &mut S,
    alloc: Global,
    frames: &Frames,
    here: usize,
    pattern: &LoadedPattern<S::Name>,
    at: &S::Ref,
    places: &mut Places<S::Ref>,
) -> Result<bool, AllocError>
    requires known { Known (S.space.knows space.old) pattern.now }
    requires stands { IsTrue (S.space.stands space.old at.now) }
    requires places { AllPlaces (λ r. IsTrue (S.space.stands space.old r)) places.old.slots }
    ensures keeps { Keeps S.space space.old space.new }
    ensures unchanged { LeavesSpace (loaded_of (S.space.symbol_of space.old) pattern.now) →
        space.new ≡ space.old }
    ensures barrier { IfOk result (λ _. places.new.barrier ≡ places.old.barrier) }
    ensures attempt { IfOk result (λ yes.
        Goes S.space places.old.barrier (attempted (place_at frames.now here) places.old.barrier
        (loaded_of (S.space.symbol_of space.old) pattern.now) (S.space.term_of space.old at.now))
        (attempt yes) space.old places.old.slots places.old.trail space.new places.new.slots
        places.new.trail) }
{
    match pattern {
        LoadedPattern::Variable(x) => bind_variable(space, frames, here, *x, at, places),
        LoadedPattern::Applied(name, parts) => {
            let parts = parts.as_slice();
            if parts.len() > FEW {
                return match_pattern(space, alloc, frames, here, pattern, at, places);
            }
            match_applied(space, alloc, frames, here, name, parts, at, places)
        }
        _ => match_pattern(space, alloc, frames, here, pattern, at, places),
    }
}

/// Whether the name applied to the patterns matches the term.
#[inline]
fn match_applied<S: TermSpace>(
    space: &mut S,
    alloc: Global,
    frames: &Frames,
    here: usize,
    name: &S::Name,
    patterns: &[LoadedPattern<S::Name>],
    at: &S::Ref,
    places: &mut Places<S::Ref>,
) -> Result<bool, AllocError>
    requires name { IsTrue (S.space.knows space.old name.now) }
    requires known { AllKnown (S.space.knows space.old) patterns.now }
    requires stands { IsTrue (S.space.stands space.old at.now) }
    requires places { AllPlaces (λ r. IsTrue (S.space.stands space.old r)) places.old.slots }
    ensures keeps { Keeps S.space space.old space.new }
    ensures unchanged { AllLeaveSpace (all_loaded_of (S.space.symbol_of space.old) patterns.now) →
        space.new ≡ space.old }
    ensures barrier { IfOk result (λ _. places.new.barrier ≡ places.old.barrier) }
    ensures attempt { IfOk result (λ yes.
        Goes S.space places.old.barrier (attempted (place_at frames.now here) places.old.barrier
        (applied (S.space.symbol_of space.old name.now)
        (all_loaded_of (S.space.symbol_of space.old) patterns.now))
        (S.space.term_of space.old at.now)) (attempt yes) space.old places.old.slots
        places.old.trail space.new places.new.slots places.new.trail) }
{
    let count = space.count(at);
    if !is_application(space, at, name, count) {
        return Ok(false);
    }
    match match_first_variables(space, frames, here, patterns, at, places)? {
        First::Failed => Ok(false),
        First::Matched(first) => {
            if first >= patterns.len() {
                return Ok(patterns.len() == count);
            }
            if !match_others(space, alloc, frames, here, patterns, first, at, places)? {
                return Ok(false);
            }
            Ok(patterns.len() == count)
        }
    }
}

/// Matches the first of the patterns with the parts of the term, as long as they are variables.
#[inline]
fn match_first_variables<S: TermSpace>(
    space: &S,
    frames: &Frames,
    here: usize,
    patterns: &[LoadedPattern<S::Name>],
    at: &S::Ref,
    places: &mut Places<S::Ref>,
) -> Result<First, AllocError>
    requires known { AllKnown (S.space.knows space.now) patterns.now }
    requires stands { IsTrue (S.space.stands space.now at.now) }
    requires places { AllPlaces (λ r. IsTrue (S.space.stands space.now r)) places.old.slots }
    ensures barrier { IfOk result (λ _. places.new.barrier ≡ places.old.barrier) }
    ensures first { IfOk result (λ first.
        MatchesFirst S.space places.old.barrier (place_at frames.now here)
        (map (loaded_of (S.space.symbol_of space.now)) patterns.now)
        (parts_of (S.space.term_of space.now at.now)) first space.now places.old.slots
        places.old.trail places.new.slots places.new.trail) }
{
    let held = space.parts(at);
    for (i, pattern) in patterns.iter().enumerate() {
        let Some(part) = held.get(i) else {
            return Ok(First::Failed);
        };
        let LoadedPattern::Variable(x) = pattern else {
            if has_other_root(space, pattern, part) {
                return Ok(First::Failed);
            }
            return Ok(First::Matched(i));
        };
        if !bind_variable(space, frames, here, *x, part, places)? {
            return Ok(First::Failed);
        }
    }
    Ok(First::Matched(patterns.len()))
}

/// Whether the pattern is an applied one, and the term has another root.
fn has_other_root<S: TermSpace>(space: &S, pattern: &LoadedPattern<S::Name>, at: &S::Ref) -> bool
    requires known { Known (S.space.knows space.now) pattern.now }
    requires stands { IsTrue (S.space.stands space.now at.now) }
    ensures { IsTrue result → (place : Coordinate → Option ℕ) (b : ℕ) (e : Bindings) (T : List ℕ) →
        attempted place b (loaded_of (S.space.symbol_of space.now) pattern.now)
        (S.space.term_of space.now at.now) e T ≡ attempt false e T }
{
    match pattern {
        LoadedPattern::Applied(name, _) => !is_application(space, at, name, space.count(at)),
        _ => false,
    }
}

/// Whether each of the patterns from a number on matches the part of the same number.
#[inline(never)]
fn match_others<S: TermSpace>(
    space: &mut S,
    alloc: Global,
    frames: &Frames,
    here: usize,
    patterns: &[LoadedPattern<S::Name>],
    from: usize,
    at: &S::Ref,
    places: &mut Places<S::Ref>,
) -> Result<bool, AllocError>
    requires known { AllKnown (S.space.knows space.old) patterns.now }
    requires from { from ≤ length patterns.now }
    requires within { from ≤ length (parts_of (S.space.term_of space.old at.now)) }
    requires stands { IsTrue (S.space.stands space.old at.now) }
    requires places { AllPlaces (λ r. IsTrue (S.space.stands space.old r)) places.old.slots }
    ensures keeps { Keeps S.space space.old space.new }
    ensures unchanged { AllLeaveSpace (all_loaded_of (S.space.symbol_of space.old) patterns.now) →
        space.new ≡ space.old }
    ensures barrier { IfOk result (λ _. places.new.barrier ≡ places.old.barrier) }
    ensures enough { IfOk result (λ yes. yes ≡ true →
        length patterns.now ≤ length (parts_of (S.space.term_of space.old at.now))) }
    ensures attempt { IfOk result (λ yes.
        Goes S.space places.old.barrier (first_attempted (place_at frames.now here)
        places.old.barrier (drop from (map (loaded_of (S.space.symbol_of space.old)) patterns.now))
        (drop from (parts_of (S.space.term_of space.old at.now)))) (attempt yes) space.old
        places.old.slots places.old.trail space.new places.new.slots places.new.trail) }
{
    let count = space.count(at);
    for i in from..patterns.len() {
        if i >= count {
            return Ok(false);
        }
        let part = space.part(at, i)?;
        let pattern = &patterns[i];
        if !match_part(space, alloc, frames, here, pattern, &part, places)? {
            return Ok(false);
        }
    }
    Ok(true)
}

/// Makes the instance of the pattern, whose variables are seen from the frame at `here`. The stack has room for parts that are made on the
/// way, and is afterwards as it was. Variables, and applied patterns whose first parts are variables, take the least time.
///
/// # Errors
///
/// Returns an error if there is no memory. The stack may then have further references on it; the space keeps the terms of its references.
#[inline]
pub fn build_term<S: TermSpace>(
    space: &mut S,
    alloc: Global,
    frames: &Frames,
    here: usize,
    slots: &[Option<S::Ref>],
    pattern: &LoadedPattern<S::Name>,
    stack: &mut Vec<S::Ref>,
) -> Result<Built<S::Ref>, AllocError>
    requires known { Known (S.space.knows space.old) pattern.now }
    requires slots { AllPlaces (λ r. IsTrue (S.space.stands space.old r)) slots.now }
    ensures keeps { Keeps S.space space.old space.new }
    ensures stack { IfOk result (λ _. stack.new.items ≡ stack.old.items) }
    ensures built { IfOk result (Builds S.space space.new
        (instance (place_at frames.now here) (loaded_of (S.space.symbol_of space.old) pattern.now)
        (map (option_map (S.space.term_of space.old)) slots.now))) }
{
    match pattern {
        LoadedPattern::Variable(x) => {
            let Some(at) = value(space, frames, here, *x, slots) else {
                return Ok(Built::NoInstance);
            };
            let reference = space.dup(at)?;
            Ok(Built::Made(reference))
        }
        LoadedPattern::Applied(name, parts) => {
            let from = stack.len();
            let parts = parts.as_slice();
            let pushed = push_parts(space, alloc, frames, here, slots, parts, stack)?;
            let built = apply(space, alloc, name, pushed, from, stack)?;
            Ok(built)
        }
        _ => build(space, alloc, frames, here, slots, pattern, stack),
    }
}

/// Puts the instances of the patterns on the stack, as `push_all` does.
fn push_parts<S: TermSpace>(
    space: &mut S,
    alloc: Global,
    frames: &Frames,
    here: usize,
    slots: &[Option<S::Ref>],
    patterns: &[LoadedPattern<S::Name>],
    stack: &mut Vec<S::Ref>,
) -> Result<Pushed, AllocError>
    requires known { AllKnown (S.space.knows space.old) patterns.now }
    requires slots { AllPlaces (λ r. IsTrue (S.space.stands space.old r)) slots.now }
    ensures keeps { Keeps S.space space.old space.new }
    ensures built { IfOk result (λ made. Puts S.space space.new stack.old.items stack.new.items
        (λ rs. AreBuilt S.space.term_of space.new
        (instances_then (place_at frames.now here)
        (map (option_map (S.space.term_of space.old)) slots.now)
        (map (loaded_of (S.space.symbol_of space.old)) patterns.now)) rs made)) }
{
    let Some(first) = push_first_variables(space, frames, here, slots, patterns, stack)? else {
        return Ok(Pushed::NoInstance);
    };
    if first >= patterns.len() {
        return Ok(Pushed::All);
    }
    let made = push_all(space, alloc, frames, here, slots, &patterns[first..], stack)?;
    Ok(made)
}

/// Puts the terms of the first of the patterns on the stack, as long as they are variables, and returns how many these are; `None` where one
/// has no term.
#[inline]
fn push_first_variables<S: TermSpace>(
    space: &S,
    frames: &Frames,
    here: usize,
    slots: &[Option<S::Ref>],
    patterns: &[LoadedPattern<S::Name>],
    stack: &mut Vec<S::Ref>,
) -> Result<Option<usize>, AllocError>
    requires { AllPlaces (λ r. IsTrue (S.space.stands space.now r)) slots.now }
    ensures { IfOk result (λ first. PutsFirst S.space space.now (place_at frames.now here)
        (map (option_map (S.space.term_of space.now)) slots.now)
        (map (loaded_of (S.space.symbol_of space.now)) patterns.now) first stack.old.items
        stack.new.items) }
{
    for (i, pattern) in patterns.iter().enumerate() {
        let LoadedPattern::Variable(x) = pattern else {
            return Ok(Some(i));
        };
        let Some(at) = value(space, frames, here, *x, slots) else {
            return Ok(None);
        };
        let reference = space.dup(at)?;
        push_on(stack, reference)?;
    }
    Ok(Some(patterns.len()))
}
