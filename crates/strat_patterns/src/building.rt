//! What a build makes of a pattern, over references.
ghost use Rattle.std.specs.Prelude.{◌≡◌, ℕ, IfOk, IsTrue, Option, Some, [], ◌≤◌, is_some, length, map, drop};
ghost use Rattle.std.specs.Option.{option_map};
ghost use Rattle.core_lang.specs.Building.{element_instances, elements_of, instance, instances, made_like, made_with};
ghost use Rattle.core_lang.specs.Environment.{Bindings};
ghost use Rattle.core_lang.specs.Views.{elements_in};
ghost use Rattle.core_lang.specs.declared.coordinate.Coordinate.{Coordinate};
ghost use Rattle.term_model.specs.Symbol.{Symbol};
ghost use Rattle.term_model.specs.Space.{Keeps};
ghost use Rattle.term_model.specs.Term.{Trees, end};
ghost use Rattle.strat_patterns.specs.Builds.{joined_elements, instances_then, Builds, IsBare, IsKept, AreBuilt, AreElements, Puts};
ghost use Rattle.strat_patterns.specs.Loaded.{Known, AllKnown, RestKnown, all_loaded_of, loaded_of, rest_loaded_of};
ghost use Rattle.strat_steps.specs.References.{AllPlaces, AllRefs};
ghost use Rattle.strat_steps.specs.State.{place_at};

use crate::frames::Frames;
use crate::loaded::LoadedPattern;
use crate::lookup::value;
use crate::making::{annotate, annotate_like, apply, list, with_built};
use std::alloc::{AllocError, Global};
use term_model::TermSpace;

/// What building a pattern made.
#[derive(Drop)]
pub enum Built<R> {
    /// The instance of the pattern.
    Made(R),
    /// There is no instance: a variable has no term, or the tail of a list is no list.
    NoInstance,
    /// The instance is larger than a term may be.
    Oversize,
}

/// What came of building several patterns, whose instances are put on a stack.
#[derive(Drop)]
pub enum Pushed {
    /// All of them are on the stack.
    All,
    /// One of them has no instance.
    NoInstance,
    /// Each has an instance, and one does not fit.
    Oversize,
}

/// What came of building the elements of a list.
#[derive(Drop)]
pub(crate) enum Elements<R> {
    /// All of them are on the stack.
    All,
    /// The first ones are on the stack, and the others are those of this list.
    Before(R),
    /// One of them has no instance, or the tail is no list.
    NoInstance,
    /// Each has an instance, and one does not fit.
    Oversize,
}

/// Makes the instance of the pattern, by the rule for each form of patterns; `build_term` says what it needs.
///
/// # Errors
///
/// Returns an error if there is no memory. The stack may then have further references on it; the space keeps the terms of its references.
#[cycle(building)]
pub(crate) fn build<S: TermSpace>(
    space: &mut S,
    alloc: Global,
    frames: &Frames,
    here: usize,
    slots: &[Option<S::Ref>],
    pattern: &LoadedPattern<S::Name>,
    stack: &mut Vec<S::Ref>,
) -> Result<Built<S::Ref>, AllocError>
    requires known { Known (S.space.knows space.old) pattern.now }
    requires slots { AllPlaces (λ r. IsTrue (S.space.stands space.old r)) slots.now }
    ensures keeps { Keeps S.space space.old space.new }
    ensures stack { IfOk result (λ _. stack.new.items ≡ stack.old.items) }
    ensures built { IfOk result (Builds S.space space.new
        (instance (place_at frames.now here) (loaded_of (S.space.symbol_of space.old) pattern.now)
        (map (option_map (S.space.term_of space.old)) slots.now))) }
{
    match pattern {
        LoadedPattern::Anything => Ok(Built::NoInstance),
        LoadedPattern::Alias(_, _) => Ok(Built::NoInstance),
        LoadedPattern::Variable(x) => {
            let Some(at) = value(space, frames, here, *x, slots) else {
                return Ok(Built::NoInstance);
            };
            let reference = space.dup(at)?;
            Ok(Built::Made(reference))
        }
        LoadedPattern::Integer(number) => {
            let integer = space.int(alloc, *number)?;
            Ok(Built::Made(integer))
        }
        LoadedPattern::Applied(name, parts) => {
            let from = stack.len();
            let parts = parts.as_slice();
            let pushed = push_all(space, alloc, frames, here, slots, parts, stack)?;
            let built = apply(space, alloc, name, pushed, from, stack)?;
            Ok(built)
        }
        LoadedPattern::List(first, rest) => {
            let from = stack.len();
            let first = first.as_slice();
            let firsts = push_all(space, alloc, frames, here, slots, first, stack)?;
            let others = push_rest(space, alloc, frames, here, slots, rest, stack)?;
            let built = list(space, alloc, join(firsts, others), from, stack)?;
            Ok(built)
        }
        LoadedPattern::Like(part, x) => {
            let Some(like) = value(space, frames, here, *x, slots) else {
                return Ok(Built::NoInstance);
            };
            let built = make_like(space, alloc, frames, here, slots, part, like, stack)?;
            Ok(built)
        }
        LoadedPattern::Annotated(part, annotations) => {
            let from = stack.len();
            let annotations = annotations.as_slice();
            let pushed = push_all(space, alloc, frames, here, slots, annotations, stack)?;
            let built = make_with(space, alloc, frames, here, slots, part, pushed, from, stack)?;
            stack.truncate(from);
            Ok(built)
        }
    }
}

/// Whether the pattern is of a kind whose instances have no annotations.
fn is_bare<N>(pattern: &LoadedPattern<N>) -> bool
    ensures { IsTrue result → (symbol_of : N → Symbol) (place : Coordinate → Option ℕ)
        (e : Bindings) → IsBare (instance place (loaded_of symbol_of pattern.now) e) }
{
    match pattern {
        LoadedPattern::Integer(_) => true,
        LoadedPattern::Applied(_, _) => true,
        LoadedPattern::List(_, _) => true,
        _ => false,
    }
}

/// Makes the instance of the pattern with the annotations of another term. Its own annotations are not made.
#[cycle(building)]
fn make_like<S: TermSpace>(
    space: &mut S,
    alloc: Global,
    frames: &Frames,
    here: usize,
    slots: &[Option<S::Ref>],
    pattern: &LoadedPattern<S::Name>,
    like: &S::Ref,
    stack: &mut Vec<S::Ref>,
) -> Result<Built<S::Ref>, AllocError>
    requires known { Known (S.space.knows space.old) pattern.now }
    requires slots { AllPlaces (λ r. IsTrue (S.space.stands space.old r)) slots.now }
    requires like { IsTrue (S.space.stands space.old like.now) }
    ensures keeps { Keeps S.space space.old space.new }
    ensures stack { IfOk result (λ _. stack.new.items ≡ stack.old.items) }
    ensures built { IfOk result (Builds S.space space.new
        (made_like (instance (place_at frames.now here)
        (loaded_of (S.space.symbol_of space.old) pattern.now)
        (map (option_map (S.space.term_of space.old)) slots.now))
        (Some (S.space.term_of space.old like.now)))) }
{
    if is_bare(pattern) {
        let bare = build(space, alloc, frames, here, slots, pattern, stack)?;
        let built = annotate_like(space, alloc, bare, like)?;
        return Ok(built);
    }
    let from = stack.len();
    space.push_annos(like, stack)?;
    let built = make_with(
        space,
        alloc,
        frames,
        here,
        slots,
        pattern,
        Pushed::All,
        from,
        stack,
    )?;
    stack.truncate(from);
    Ok(built)
}

/// Makes the instance of the pattern with the annotations that stand on the stack from an index on, in the place of its
/// own; where one of them has no instance or does not fit, neither has it or does it. Its own annotations are not made.
#[cycle(building)]
fn make_with<S: TermSpace>(
    space: &mut S,
    alloc: Global,
    frames: &Frames,
    here: usize,
    slots: &[Option<S::Ref>],
    pattern: &LoadedPattern<S::Name>,
    pushed: Pushed,
    from: usize,
    stack: &mut Vec<S::Ref>,
) -> Result<Built<S::Ref>, AllocError>
    requires known { Known (S.space.knows space.old) pattern.now }
    requires slots { AllPlaces (λ r. IsTrue (S.space.stands space.old r)) slots.now }
    requires from { from ≤ length stack.old.items }
    requires standing { AllRefs (λ r. IsTrue (S.space.stands space.old r))
        (drop from stack.old.items) }
    ensures keeps { Keeps S.space space.old space.new }
    ensures stack { IfOk result (λ _. stack.new.items ≡ stack.old.items) }
    ensures built { IfOk result (λ made. (all : Option Trees → Option Trees) →
        AreBuilt S.space.term_of space.old all (drop from stack.old.items) pushed →
        Builds S.space space.new (made_with
        (instance (place_at frames.now here) (loaded_of (S.space.symbol_of space.old) pattern.now)
        (map (option_map (S.space.term_of space.old)) slots.now)) (all (Some end))) made) }
{
    match pattern {
        LoadedPattern::Anything => Ok(Built::NoInstance),
        LoadedPattern::Alias(_, _) => Ok(Built::NoInstance),
        LoadedPattern::Variable(x) => {
            let Some(at) = value(space, frames, here, *x, slots) else {
                return Ok(Built::NoInstance);
            };
            let built = with_built(space, alloc, at, pushed, &stack[from..])?;
            Ok(built)
        }
        LoadedPattern::Integer(_) => {
            let bare = build(space, alloc, frames, here, slots, pattern, stack)?;
            let built = annotate(space, alloc, bare, pushed, &stack[from..])?;
            Ok(built)
        }
        LoadedPattern::Applied(_, _) => {
            let bare = build(space, alloc, frames, here, slots, pattern, stack)?;
            let built = annotate(space, alloc, bare, pushed, &stack[from..])?;
            Ok(built)
        }
        LoadedPattern::List(_, _) => {
            let bare = build(space, alloc, frames, here, slots, pattern, stack)?;
            let built = annotate(space, alloc, bare, pushed, &stack[from..])?;
            Ok(built)
        }
        LoadedPattern::Like(part, x) => {
            if value(space, frames, here, *x, slots).is_none() {
                return Ok(Built::NoInstance);
            }
            let built = make_with(space, alloc, frames, here, slots, part, pushed, from, stack)?;
            Ok(built)
        }
        LoadedPattern::Annotated(part, annotations) => {
            let annotations = annotations.as_slice();
            if !have_instances(space, alloc, frames, here, slots, annotations, stack)? {
                return Ok(Built::NoInstance);
            }
            let built = make_with(space, alloc, frames, here, slots, part, pushed, from, stack)?;
            Ok(built)
        }
    }
}

/// Whether each of the patterns has an instance, whatever its size.
#[cycle(building)]
fn have_instances<S: TermSpace>(
    space: &mut S,
    alloc: Global,
    frames: &Frames,
    here: usize,
    slots: &[Option<S::Ref>],
    patterns: &[LoadedPattern<S::Name>],
    stack: &mut Vec<S::Ref>,
) -> Result<bool, AllocError>
    requires known { AllKnown (S.space.knows space.old) patterns.now }
    requires slots { AllPlaces (λ r. IsTrue (S.space.stands space.old r)) slots.now }
    ensures keeps { Keeps S.space space.old space.new }
    ensures stack { IfOk result (λ _. stack.new.items ≡ stack.old.items) }
    ensures all { IfOk result (λ yes. yes ≡
        is_some (instances (place_at frames.now here)
        (all_loaded_of (S.space.symbol_of space.old) patterns.now)
        (map (option_map (S.space.term_of space.old)) slots.now))) }
{
    let from = stack.len();
    let pushed = push_all(space, alloc, frames, here, slots, patterns, stack)?;
    stack.truncate(from);
    match pushed {
        Pushed::NoInstance => Ok(false),
        Pushed::All => Ok(true),
        Pushed::Oversize => Ok(true),
    }
}

/// Puts the elements of the rest of a list on the stack; an absent rest has none.
#[cycle(building)]
fn push_rest<S: TermSpace>(
    space: &mut S,
    alloc: Global,
    frames: &Frames,
    here: usize,
    slots: &[Option<S::Ref>],
    rest: &Option<Box<LoadedPattern<S::Name>>>,
    stack: &mut Vec<S::Ref>,
) -> Result<Elements<S::Ref>, AllocError>
    requires known { RestKnown (S.space.knows space.old) rest.now }
    requires slots { AllPlaces (λ r. IsTrue (S.space.stands space.old r)) slots.now }
    ensures keeps { Keeps S.space space.old space.new }
    ensures elements { IfOk result (λ made.
        Puts S.space space.new stack.old.items stack.new.items
        (λ rs. AreElements S.space space.new
        (element_instances (place_at frames.now here)
        (elements_in [] (rest_loaded_of (S.space.symbol_of space.old) rest.now))
        (map (option_map (S.space.term_of space.old)) slots.now)) rs made)) }
{
    match rest {
        None => Ok(Elements::All),
        Some(p) => {
            let others = push_tail(space, alloc, frames, here, slots, p, stack)?;
            Ok(others)
        }
    }
}

/// Puts the elements of the list that the pattern makes on the stack.
#[cycle(building)]
fn push_tail<S: TermSpace>(
    space: &mut S,
    alloc: Global,
    frames: &Frames,
    here: usize,
    slots: &[Option<S::Ref>],
    pattern: &LoadedPattern<S::Name>,
    stack: &mut Vec<S::Ref>,
) -> Result<Elements<S::Ref>, AllocError>
    requires known { Known (S.space.knows space.old) pattern.now }
    requires slots { AllPlaces (λ r. IsTrue (S.space.stands space.old r)) slots.now }
    ensures keeps { Keeps S.space space.old space.new }
    ensures elements { IfOk result (λ made.
        Puts S.space space.new stack.old.items stack.new.items
        (λ rs. AreElements S.space space.new
        (elements_of (instance (place_at frames.now here)
        (loaded_of (S.space.symbol_of space.old) pattern.now)
        (map (option_map (S.space.term_of space.old)) slots.now))) rs made)) }
{
    match pattern {
        LoadedPattern::Variable(x) => {
            let Some(at) = value(space, frames, here, *x, slots) else {
                return Ok(Elements::NoInstance);
            };
            let tail = list_before(space, at)?;
            Ok(tail)
        }
        LoadedPattern::List(first, rest) => {
            let first = first.as_slice();
            let firsts = push_all(space, alloc, frames, here, slots, first, stack)?;
            let others = push_rest(space, alloc, frames, here, slots, rest, stack)?;
            Ok(join(firsts, others))
        }
        LoadedPattern::Like(part, x) => {
            if value(space, frames, here, *x, slots).is_none() {
                return Ok(Elements::NoInstance);
            }
            let elements = push_tail(space, alloc, frames, here, slots, part, stack)?;
            Ok(elements)
        }
        LoadedPattern::Annotated(part, annotations) => {
            let annotations = annotations.as_slice();
            if !have_instances(space, alloc, frames, here, slots, annotations, stack)? {
                return Ok(Elements::NoInstance);
            }
            let elements = push_tail(space, alloc, frames, here, slots, part, stack)?;
            Ok(elements)
        }
        LoadedPattern::Anything => Ok(Elements::NoInstance),
        LoadedPattern::Alias(_, _) => Ok(Elements::NoInstance),
        LoadedPattern::Integer(_) => Ok(Elements::NoInstance),
        LoadedPattern::Applied(_, _) => Ok(Elements::NoInstance),
    }
}

/// Puts the instances of the patterns on the stack; where one does not fit, the others are still built, since one may
/// have no instance.
#[cycle(building)]
pub(crate) fn push_all<S: TermSpace>(
    space: &mut S,
    alloc: Global,
    frames: &Frames,
    here: usize,
    slots: &[Option<S::Ref>],
    patterns: &[LoadedPattern<S::Name>],
    stack: &mut Vec<S::Ref>,
) -> Result<Pushed, AllocError>
    requires known { AllKnown (S.space.knows space.old) patterns.now }
    requires slots { AllPlaces (λ r. IsTrue (S.space.stands space.old r)) slots.now }
    ensures keeps { Keeps S.space space.old space.new }
    ensures built { IfOk result (λ made. Puts S.space space.new stack.old.items stack.new.items
        (λ rs. AreBuilt S.space.term_of space.new
        (instances_then (place_at frames.now here)
        (map (option_map (S.space.term_of space.old)) slots.now)
        (map (loaded_of (S.space.symbol_of space.old)) patterns.now)) rs made)) }
{
    let mut fit = true;
    for p in patterns {
        let built = build_part(space, alloc, frames, here, slots, p, stack)?;
        let Some(kept) = keep(stack, built)? else {
            return Ok(Pushed::NoInstance);
        };
        fit &= kept;
    }
    if !fit {
        return Ok(Pushed::Oversize);
    }
    Ok(Pushed::All)
}

/// Makes the instance of the pattern. Most parts of patterns are variables, which need no further call.
#[cycle(building)]
fn build_part<S: TermSpace>(
    space: &mut S,
    alloc: Global,
    frames: &Frames,
    here: usize,
    slots: &[Option<S::Ref>],
    pattern: &LoadedPattern<S::Name>,
    stack: &mut Vec<S::Ref>,
) -> Result<Built<S::Ref>, AllocError>
    requires known { Known (S.space.knows space.old) pattern.now }
    requires slots { AllPlaces (λ r. IsTrue (S.space.stands space.old r)) slots.now }
    ensures keeps { Keeps S.space space.old space.new }
    ensures stack { IfOk result (λ _. stack.new.items ≡ stack.old.items) }
    ensures built { IfOk result (Builds S.space space.new
        (instance (place_at frames.now here) (loaded_of (S.space.symbol_of space.old) pattern.now)
        (map (option_map (S.space.term_of space.old)) slots.now))) }
{
    let LoadedPattern::Variable(x) = pattern else {
        let built = build(space, alloc, frames, here, slots, pattern, stack)?;
        return Ok(built);
    };
    let Some(at) = value(space, frames, here, *x, slots) else {
        return Ok(Built::NoInstance);
    };
    let reference = space.dup(at)?;
    Ok(Built::Made(reference))
}

/// Puts what was built on the stack, and returns whether it fits; nothing where it is none.
fn keep<R: Drop>(stack: &mut Vec<R>, built: Built<R>) -> Result<Option<bool>, AllocError>
    ensures { IfOk result (λ kept. IsKept built kept stack.old.items stack.new.items) }
{
    match built {
        Built::Made(reference) => {
            stack.push(reference)?;
            Ok(Some(true))
        }
        Built::NoInstance => Ok(None),
        Built::Oversize => Ok(Some(false)),
    }
}

/// What came of the first elements of a list and of the others.
fn join<R: Drop>(firsts: Pushed, others: Elements<R>) -> Elements<R>
    ensures { result ≡ joined_elements firsts others }
{
    match firsts {
        Pushed::All => others,
        Pushed::NoInstance => Elements::NoInstance,
        Pushed::Oversize => match others {
            Elements::NoInstance => Elements::NoInstance,
            Elements::All | Elements::Before(_) | Elements::Oversize => Elements::Oversize,
        },
    }
}

/// The list of the reference, if it is one, for further elements in front of its own.
fn list_before<S: TermSpace>(space: &S, at: &S::Ref) -> Result<Elements<S::Ref>, AllocError>
    requires { IsTrue (S.space.stands space.now at.now) }
    ensures { IfOk result (AreElements S.space space.now
        (elements_of (Some (S.space.term_of space.now at.now))) []) }
{
    match space.list_len(at) {
        None => Ok(Elements::NoInstance),
        Some(_) => {
            let tail = space.dup(at)?;
            Ok(Elements::Before(tail))
        }
    }
}
