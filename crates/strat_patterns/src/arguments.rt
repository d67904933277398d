//! The arguments of calls and primitives: the instances of patterns, on a stack or on places of their own.
ghost use Rattle.std.specs.Prelude.{◌≡◌, IfOk, IsTrue, length, map, true};
ghost use Rattle.std.specs.Option.{option_map};
ghost use Rattle.core_lang.specs.Building.{instances};
ghost use Rattle.term_model.specs.Space.{Keeps};
ghost use Rattle.strat_patterns.specs.Applied.{PutsOnPlaces};
ghost use Rattle.strat_patterns.specs.Builds.{AreArguments, Puts};
ghost use Rattle.strat_patterns.specs.Loaded.{AllKnown, all_loaded_of};
ghost use Rattle.strat_patterns.specs.declared.building.Pushed.TheVariants as pushed;
ghost use Rattle.strat_steps.specs.References.{AllPlaces};
ghost use Rattle.strat_steps.specs.State.{place_at};

use crate::building::{Pushed, push_all};
use crate::frames::Frames;
use crate::loaded::LoadedPattern;
use crate::lookup::value;
use crate::places::Places;
use std::alloc::{AllocError, Global};
use term_model::TermSpace;

/// Makes the instances of the patterns, and puts them on the stack if each of them exists and fits; otherwise the stack is as it was.
///
/// # Errors
///
/// Returns an error if there is no memory. The stack may then have further references on it; the space keeps the terms of its references.
pub fn build_all<S: TermSpace>(
    space: &mut S,
    alloc: Global,
    frames: &Frames,
    here: usize,
    slots: &[Option<S::Ref>],
    patterns: &[LoadedPattern<S::Name>],
    stack: &mut Vec<S::Ref>,
) -> Result<Pushed, AllocError>
    requires known { AllKnown (S.space.knows space.old) patterns.now }
    requires slots { AllPlaces (λ r. IsTrue (S.space.stands space.old r)) slots.now }
    ensures keeps { Keeps S.space space.old space.new }
    ensures built { IfOk result (λ made. Puts S.space space.new stack.old.items stack.new.items
        (λ rs. AreArguments S.space.term_of space.new
        (instances (place_at frames.now here)
        (all_loaded_of (S.space.symbol_of space.old) patterns.now)
        (map (option_map (S.space.term_of space.old)) slots.now)) rs made)) }
{
    if patterns.is_empty() {
        return Ok(Pushed::All);
    }
    let from = stack.len();
    let made = push_all(space, alloc, frames, here, slots, patterns, stack)?;
    match made {
        Pushed::All => Ok(Pushed::All),
        Pushed::NoInstance => {
            stack.truncate(from);
            Ok(Pushed::NoInstance)
        }
        Pushed::Oversize => {
            stack.truncate(from);
            Ok(Pushed::Oversize)
        }
    }
}

/// Makes the instances of the patterns, and adds a place for each of them if all exist and fit; otherwise the places are as they were. The
/// stack has room for parts that are made on the way, and is afterwards as it was.
///
/// # Errors
///
/// Returns an error if there is no memory. There may then be further places and further references on the stack; the space keeps the terms
/// of its references.
pub fn place_arguments<S: TermSpace>(
    space: &mut S,
    alloc: Global,
    frames: &Frames,
    here: usize,
    patterns: &[LoadedPattern<S::Name>],
    places: &mut Places<S::Ref>,
    stack: &mut Vec<S::Ref>,
) -> Result<Pushed, AllocError>
    requires known { AllKnown (S.space.knows space.old) patterns.now }
    requires places { AllPlaces (λ r. IsTrue (S.space.stands space.old r)) places.old.slots }
    ensures keeps { Keeps S.space space.old space.new }
    ensures stack { IfOk result (λ _. stack.new.items ≡ stack.old.items) }
    ensures placed { IfOk result (λ made. PutsOnPlaces S.space space.new places.old places.new
        (λ rs. AreArguments S.space.term_of space.new (instances (place_at frames.now here)
        (all_loaded_of (S.space.symbol_of space.old) patterns.now)
        (map (option_map (S.space.term_of space.old)) places.old.slots)) rs made)) }
{
    let base = places.len();
    if place_variables(space, frames, here, patterns, places)? {
        return Ok(Pushed::All);
    }
    places.cut(base);
    let from = stack.len();
    match build_all(space, alloc, frames, here, places.slots(), patterns, stack)? {
        Pushed::NoInstance => Ok(Pushed::NoInstance),
        Pushed::Oversize => Ok(Pushed::Oversize),
        Pushed::All => {
            places.push_terms(stack, from)?;
            Ok(Pushed::All)
        }
    }
}

/// Adds a place for each of the patterns with its term if all of them are variables that have terms, and returns whether they are; otherwise
/// some of the places are added.
fn place_variables<S: TermSpace>(
    space: &S,
    frames: &Frames,
    here: usize,
    patterns: &[LoadedPattern<S::Name>],
    places: &mut Places<S::Ref>,
) -> Result<bool, AllocError>
    requires { AllPlaces (λ r. IsTrue (S.space.stands space.now r)) places.old.slots }
    ensures { IfOk result (λ all. PutsOnPlaces S.space space.now places.old places.new
        (λ rs. all ≡ true → AreArguments S.space.term_of space.now
        (instances (place_at frames.now here)
        (all_loaded_of (S.space.symbol_of space.now) patterns.now)
        (map (option_map (S.space.term_of space.now)) places.old.slots)) rs pushed.All)) }
{
    let base = places.len();
    for pattern in patterns {
        let LoadedPattern::Variable(x) = pattern else {
            return Ok(false);
        };
        let Some(at) = value(space, frames, here, *x, &places.slots()[..base]) else {
            return Ok(false);
        };
        let reference = space.dup(at)?;
        places.push_term(reference)?;
    }
    Ok(true)
}
