//! Instructions that handle patterns.
ghost use Rattle.std.specs.Prelude.{◌≡◌, ℕ, suc, IfOk, IsTrue, map};
ghost use Rattle.term_model.specs.Flat.{Meaning};
ghost use Rattle.term_model.specs.Space.{Keeps};
ghost use Rattle.strat_code.specs.Code.{match_term, build_term, call_definition};
ghost use Rattle.strat_code.specs.CodeOf.{argument_of};
ghost use Rattle.strat_patterns.specs.Loaded.{Known, AllKnown, loaded_of, all_loaded_of};
ghost use Rattle.strat_machine.specs.RecordStack.{records_of};
ghost use Rattle.strat_machine.specs.Stacks.{Performs, IsSafe};

use crate::calls::{Callee, enter_definition};
use crate::primitives::go_on;
use crate::stacks::{Next, Position, Scratch, Stacks};
use std::alloc::{AllocError, Global};
use strat_code::Argument;
use strat_patterns::{LoadedPattern, Pushed, build_term, match_term, place_arguments};
use term_model::TermSpace;

/// Matches the term with a pattern.
pub(crate) fn perform_match<S: TermSpace>(
    space: &mut S,
    alloc: Global,
    stacks: &mut Stacks<S::Ref, S::Mark>,
    pattern: &LoadedPattern<S::Name>,
    position: &Position<S::Ref>,
) -> Result<Next, AllocError>
    requires known { Known (S.space.knows space.old) pattern.now }
    requires stands { IsTrue (S.space.stands space.old position.now.term) }
    requires safe { IsSafe S.space space.old stacks.old (records_of stacks.old.records) }
    ensures keeps { Keeps S.space space.old space.new }
    ensures step { IfOk result (λ next. (M : Meaning) (n i : ℕ) → position.now.address ≡ suc i →
        Performs S.space M (match_term n (loaded_of (S.space.symbol_of space.old) pattern.now)) i
        position.now
        space.old stacks.old space.new next position.now stacks.new) }
{
    let places = &mut stacks.places;
    let here = position.frame;
    let term = &position.term;
    if match_term(space, alloc, &stacks.frames, here, pattern, term, places)? {
        return Ok(Next::Running);
    }
    Ok(Next::Failing)
}

/// Replaces the term with the instance of a pattern.
pub(crate) fn perform_build<S: TermSpace>(
    space: &mut S,
    alloc: Global,
    stacks: &Stacks<S::Ref, S::Mark>,
    pattern: &LoadedPattern<S::Name>,
    position: &mut Position<S::Ref>,
    scratch: &mut Scratch<S::Ref>,
) -> Result<Next, AllocError>
    requires known { Known (S.space.knows space.old) pattern.now }
    requires safe { IsSafe S.space space.old stacks.now (records_of stacks.now.records) }
    ensures keeps { Keeps S.space space.old space.new }
    ensures stack { IfOk result (λ _. scratch.new.terms.items ≡ scratch.old.terms.items) }
    ensures step { IfOk result (λ next. (M : Meaning) (n i : ℕ) → position.old.address ≡ suc i →
        Performs S.space M (build_term n (loaded_of (S.space.symbol_of space.old) pattern.now)) i
        position.old
        space.old stacks.now space.new next position.new stacks.now) }
{
    let slots = stacks.places.slots();
    let here = position.frame;
    let made = &mut scratch.terms;
    let built = build_term(space, alloc, &stacks.frames, here, slots, pattern, made)?;
    Ok(go_on(built, position))
}

/// Calls a definition; its term arguments are the instances of the patterns.
pub(crate) fn perform_call<S: TermSpace>(
    space: &mut S,
    alloc: Global,
    stacks: &mut Stacks<S::Ref, S::Mark>,
    callee: &Callee,
    arguments: &[Argument],
    patterns: &[LoadedPattern<S::Name>],
    position: &mut Position<S::Ref>,
    scratch: &mut Scratch<S::Ref>,
) -> Result<Next, AllocError>
    requires known { AllKnown (S.space.knows space.old) patterns.now }
    requires safe { IsSafe S.space space.old stacks.old (records_of stacks.old.records) }
    ensures keeps { Keeps S.space space.old space.new }
    ensures stack { IfOk result (λ _. scratch.new.terms.items ≡ scratch.old.terms.items) }
    ensures step { IfOk result (λ next. (M : Meaning) (n i : ℕ) →
        Performs S.space M (call_definition n callee.now.frames callee.now.entry callee.now.room
        callee.now.next_address
        (map argument_of arguments.now) (all_loaded_of (S.space.symbol_of space.old) patterns.now))
        i position.old
        space.old stacks.old space.new next position.new stacks.new) }
{
    let here = position.frame;
    let base = stacks.places.len();
    let places = &mut stacks.places;
    let made = &mut scratch.terms;
    match place_arguments(space, alloc, &stacks.frames, here, patterns, places, made)? {
        Pushed::NoInstance => Ok(Next::Failing),
        Pushed::Oversize => Ok(Next::Oversize),
        Pushed::All => {
            enter_definition::<S>(stacks, callee, arguments, base, position)?;
            Ok(Next::Running)
        }
    }
}
