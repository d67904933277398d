//! Primitives, applied to the instances of patterns.
ghost use Rattle.std.specs.Prelude.{◌≡◌, ◌<◌, ℕ, List, IfOk, IfSome, IsTrue, length, map, suc};
ghost use Rattle.std.specs.Option.{option_and_then, option_map};
ghost use Rattle.term_model.specs.Flat.{all_flat};
ghost use Rattle.term_model.specs.Flat as flat;
ghost use Rattle.term_model.specs.Term.{trees_of};
ghost use Rattle.term_model.specs.Space.{Keeps};
ghost use Rattle.prim_registry.specs.Entries.{IsHonest, entries_of};
ghost use Rattle.prim_registry.specs.RegistryNames.{entry_at};
ghost use Rattle.prim_registry.specs.Registered.{meaning_of};
ghost use Rattle.prim_registry.specs.Values.{answer_of};
ghost use Rattle.core_lang.specs.Building.{instance, instances};
ghost use Rattle.core_lang.specs.Ending.{answered, arguments, built};
ghost use Rattle.core_lang.specs.Environment.{Bindings};
ghost use Rattle.strat_code.specs.Code.{apply_primitive};
ghost use Rattle.strat_patterns.specs.Builds.{Builds};
ghost use Rattle.strat_steps.specs.References.{AllPlaces, AllRefs};
ghost use Rattle.strat_steps.specs.State.{place_at};
ghost use Rattle.strat_patterns.specs.Loaded.{AllKnown, all_loaded_of, loaded_of};
ghost use Rattle.strat_machine.specs.Calculating.{HasNumber};
ghost use Rattle.strat_machine.specs.Tables.{IsPosition};
ghost use Rattle.strat_machine.specs.RecordStack.{records_of};
ghost use Rattle.strat_machine.specs.Stacks.{Performs, IsSafe, next_with, position_with};

use crate::flat_values::{flat_values, make_flat};
use crate::stacks::{Next, Position, Scratch, Stacks};
use prim_registry::{Flat, PrimMeaning, Registry};
use std::alloc::{AllocError, Global};
use strat_patterns::{Built, Frames, LoadedPattern, Pushed, build_all, outcome, value};
use term_model::TermSpace;

/// Replaces the term with what the primitive at a position of the registry returns to the instances of the patterns; fails
/// where there is no such primitive.
pub(crate) fn perform_primitive<S: TermSpace, M: PrimMeaning>(
    space: &mut S,
    alloc: Global,
    stacks: &Stacks<S::Ref, S::Mark>,
    registry: &Registry<M>,
    index: Option<usize>,
    patterns: &[LoadedPattern<S::Name>],
    position: &mut Position<S::Ref>,
    scratch: &mut Scratch<S::Ref>,
) -> Result<Next, AllocError>
    requires honest { IsHonest M.answer registry.now }
    requires index { IfSome index (λ k. (k < length (entries_of registry.now)) ×
        ((entry_at registry.now k).1 ≡ length patterns.now)) }
    requires known { AllKnown (S.space.knows space.old) patterns.now }
    requires safe { IsSafe S.space space.old stacks.now (records_of stacks.now.records) }
    ensures keeps { Keeps S.space space.old space.new }
    ensures stack { IfOk result (λ _. scratch.new.terms.items ≡ scratch.old.terms.items) }
    ensures step { IfOk result (λ next. (f : List ℕ) (n i : ℕ) →
        IsPosition (entries_of registry.now) index (f, length patterns.now) → position.old.address ≡
        suc i →
        Performs S.space (meaning_of M.answer registry.now)
        (apply_primitive n f (all_loaded_of (S.space.symbol_of space.old) patterns.now)) i
        position.old
        space.old stacks.now space.new next position.new stacks.now) }
{
    let slots = stacks.places.slots();
    let here = position.frame;
    let frames = &stacks.frames;
    if let Some(value) = calculate(space, frames, here, slots, registry, index, patterns) {
        let made = make_integer(space, alloc, value)?;
        return Ok(go_on(made, position));
    }
    let stack = &mut scratch.terms;
    let from = stack.len();
    match build_all(space, alloc, frames, here, slots, patterns, stack)? {
        Pushed::NoInstance => Ok(Next::Failing),
        Pushed::Oversize => Ok(Next::Oversize),
        Pushed::All => {
            let values = &mut scratch.values;
            let answered = answer(space, alloc, registry, index, &stack[from..], values)?;
            stack.truncate(from);
            Ok(go_on(answered, position))
        }
    }
}

/// Takes what was built as the term, and returns how the run goes on with it.
pub(crate) fn go_on<R: Drop>(built: Built<R>, position: &mut Position<R>) -> Next
    ensures next { result ≡ next_with built }
    ensures position { position.new ≡ position_with position.old built }
{
    match built {
        Built::Made(made) => {
            position.term = made;
            Next::Running
        }
        Built::NoInstance => Next::Failing,
        Built::Oversize => Next::Oversize,
    }
}

/// Makes the term of what the primitive at the position returns to the terms; none where one of them is no flat value, or
/// where it returns nothing.
#[inline(never)]
fn answer<S: TermSpace, M: PrimMeaning>(
    space: &mut S,
    alloc: Global,
    registry: &Registry<M>,
    position: Option<usize>,
    terms: &[S::Ref],
    values: &mut Vec<Flat>,
) -> Result<Built<S::Ref>, AllocError>
    requires honest { IsHonest M.answer registry.now }
    requires position { IfSome position (λ k. (k < length (entries_of registry.now)) ×
        ((entry_at registry.now k).1 ≡ length terms.now)) }
    requires standing { AllRefs (λ r. IsTrue (S.space.stands space.old r)) terms.now }
    ensures keeps { Keeps S.space space.old space.new }
    ensures answer { IfOk result (λ made. (f : List ℕ) →
        IsPosition (entries_of registry.now) position (f, length terms.now) →
        Builds S.space space.new (option_map flat.term_of
        (option_and_then (meaning_of M.answer registry.now f)
        (all_flat (trees_of (map (S.space.term_of space.old) terms.now))))) made) }
{
    let Some(index) = position else {
        return Ok(Built::NoInstance);
    };
    let Some(value) = call(space, alloc, registry, index, terms, values)? else {
        return Ok(Built::NoInstance);
    };
    let made = make_flat(space, alloc, &value)?;
    Ok(outcome(made))
}

/// Calls the function on two integers of the primitive at the position, if it has one and the patterns have the instances for it.
fn calculate<S: TermSpace, M: PrimMeaning>(
    space: &S,
    frames: &Frames,
    here: usize,
    slots: &[Option<S::Ref>],
    registry: &Registry<M>,
    index: Option<usize>,
    patterns: &[LoadedPattern<S::Name>],
) -> Option<Option<i64>>
    requires honest { IsHonest M.answer registry.now }
    requires index { IfSome index (λ k. (k < length (entries_of registry.now)) ×
        ((entry_at registry.now k).1 ≡ length patterns.now)) }
    requires slots { AllPlaces (λ r. IsTrue (S.space.stands space.now r)) slots.now }
    ensures { IfSome result (λ value. (f : List ℕ) (e : Bindings) →
        IsPosition (entries_of registry.now) index (f, length patterns.now) →
        answered (meaning_of M.answer registry.now f)
        (arguments (instances (place_at frames.now here)
        (all_loaded_of (S.space.symbol_of space.now) patterns.now)
        (map (option_map (S.space.term_of space.now)) slots.now)) e) ≡
        built (option_map flat.term_of (option_map flat.number value)) e) }
{
    let index = index?;
    let [left, right] = patterns else {
        return None;
    };
    let left = integer_of(space, frames, here, slots, left)?;
    let right = integer_of(space, frames, here, slots, right)?;
    registry.calculate_at(index, left, right)
}

/// The integer that the instance of a pattern is, where nothing has to be built to tell.
fn integer_of<S: TermSpace>(
    space: &S,
    frames: &Frames,
    here: usize,
    slots: &[Option<S::Ref>],
    pattern: &LoadedPattern<S::Name>,
) -> Option<i64>
    requires { AllPlaces (λ r. IsTrue (S.space.stands space.now r)) slots.now }
    ensures { IfSome result (HasNumber (instance (place_at frames.now here)
        (loaded_of (S.space.symbol_of space.now) pattern.now)
        (map (option_map (S.space.term_of space.now)) slots.now))) }
{
    match pattern {
        LoadedPattern::Integer(integer) => Some(*integer),
        LoadedPattern::Variable(variable) => {
            let held = value(space, frames, here, *variable, slots)?;
            space.int_of(held)
        }
        _ => None,
    }
}

/// Makes the integer, if there is one.
fn make_integer<S: TermSpace>(
    space: &mut S,
    alloc: Global,
    value: Option<i64>,
) -> Result<Built<S::Ref>, AllocError>
    ensures keeps { Keeps S.space space.old space.new }
    ensures made { IfOk result
        (Builds S.space space.new (option_map flat.term_of (option_map flat.number value))) }
{
    let Some(value) = value else {
        return Ok(Built::NoInstance);
    };
    let made = space.int(alloc, value)?;
    Ok(Built::Made(made))
}

/// Calls the primitive at a place of the registry with the flat values that the terms are, if each is one. The values are
/// put on the vector for the call.
fn call<S: TermSpace, M: PrimMeaning>(
    space: &S,
    alloc: Global,
    registry: &Registry<M>,
    index: usize,
    terms: &[S::Ref],
    values: &mut Vec<Flat>,
) -> Result<Option<Flat>, AllocError>
    requires honest { IsHonest M.answer registry.now }
    requires within { index < length (entries_of registry.now) }
    requires arity { (entry_at registry.now index).1 ≡ length terms.now }
    requires standing { AllRefs (λ r. IsTrue (S.space.stands space.now r)) terms.now }
    ensures { IfOk result (λ answer. answer_of answer ≡
        option_and_then (M.answer (entry_at registry.now index).0)
        (all_flat (trees_of (map (S.space.term_of space.now) terms.now)))) }
{
    if !flat_values(space, alloc, terms, values)? {
        return Ok(None);
    }
    match registry.call_at(index, values.as_slice()) {
        Ok(answer) => Ok(answer),
        Err(_) => Err(AllocError),
    }
}
