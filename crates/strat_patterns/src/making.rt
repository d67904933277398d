//! Terms of what was built: symbols applied to it, lists of it, and terms with it as annotations.
ghost use Rattle.std.specs.Prelude.{◌≡◌, ◌≤◌, IfOk, IsTrue, Option, Some, length, take, drop};
ghost use Rattle.core_lang.specs.Building.{applied_to, list_term, made_like, made_with};
ghost use Rattle.term_model.specs.Space.{Keeps};
ghost use Rattle.term_model.specs.Term.{Tree, Trees, end};
ghost use Rattle.strat_patterns.specs.Builds.{made_built, large_with, AreBuilt, AreElements, Builds, BuiltStands, IsBare, TailStands};
ghost use Rattle.strat_patterns.specs.declared.building.Pushed.TheVariants as forms;
ghost use Rattle.strat_steps.specs.References.{AllRefs};

use crate::building::{Built, Elements, Pushed};
use std::alloc::{AllocError, Global};
use term_model::{Made, TermSpace};

/// Returns what was built, from what a space made.
pub fn outcome<R: Drop>(made: Made<R>) -> Built<R>
    ensures { result ≡ made_built made }
{
    match made {
        Made::Fits(reference) => Built::Made(reference),
        Made::Oversize => Built::Oversize,
    }
}

/// Makes the symbol of the name applied to what was put on the stack, and takes that off.
pub(crate) fn apply<S: TermSpace>(
    space: &mut S,
    alloc: Global,
    name: &S::Name,
    pushed: Pushed,
    from: usize,
    stack: &mut Vec<S::Ref>,
) -> Result<Built<S::Ref>, AllocError>
    requires name { IsTrue (S.space.knows space.old name.now) }
    requires from { from ≤ length stack.old.items }
    requires standing { AllRefs (λ r. IsTrue (S.space.stands space.old r))
        (drop from stack.old.items) }
    ensures keeps { Keeps S.space space.old space.new }
    ensures stack { IfOk result (λ _. stack.new.items ≡ take from stack.old.items) }
    ensures built { IfOk result (λ made. (all : Option Trees → Option Trees) →
        AreBuilt S.space.term_of space.old all (drop from stack.old.items) pushed →
        Builds S.space space.new (applied_to (all (Some end))
        (S.space.symbol_of space.old name.now)) made) }
{
    match pushed {
        Pushed::NoInstance => {
            stack.truncate(from);
            Ok(Built::NoInstance)
        }
        Pushed::Oversize => {
            stack.truncate(from);
            Ok(Built::Oversize)
        }
        Pushed::All => {
            let made = space.app(alloc, name, &stack[from..])?;
            stack.truncate(from);
            Ok(outcome(made))
        }
    }
}

/// Makes the list of the elements that were put on the stack, and takes those off.
pub(crate) fn list<S: TermSpace>(
    space: &mut S,
    alloc: Global,
    elements: Elements<S::Ref>,
    from: usize,
    stack: &mut Vec<S::Ref>,
) -> Result<Built<S::Ref>, AllocError>
    requires from { from ≤ length stack.old.items }
    requires standing { AllRefs (λ r. IsTrue (S.space.stands space.old r))
        (drop from stack.old.items) }
    requires tail { TailStands S.space space.old elements }
    ensures keeps { Keeps S.space space.old space.new }
    ensures stack { IfOk result (λ _. stack.new.items ≡ take from stack.old.items) }
    ensures built { IfOk result (λ made. (all : Option Trees) →
        AreElements S.space space.old all (drop from stack.old.items) elements →
        Builds S.space space.new (list_term all) made) }
{
    match elements {
        Elements::NoInstance => {
            stack.truncate(from);
            Ok(Built::NoInstance)
        }
        Elements::Oversize => {
            stack.truncate(from);
            Ok(Built::Oversize)
        }
        Elements::All => {
            let made = space.list(alloc, &stack[from..])?;
            stack.truncate(from);
            Ok(outcome(made))
        }
        Elements::Before(tail) => {
            let made = space.prepend(alloc, &stack[from..], &tail)?;
            stack.truncate(from);
            Ok(outcome(made))
        }
    }
}

/// The term with these annotations, in the place of its own, or what came of them.
pub(crate) fn with_built<S: TermSpace>(
    space: &mut S,
    alloc: Global,
    at: &S::Ref,
    pushed: Pushed,
    annos: &[S::Ref],
) -> Result<Built<S::Ref>, AllocError>
    requires stands { IsTrue (S.space.stands space.old at.now) }
    requires annos { AllRefs (λ r. IsTrue (S.space.stands space.old r)) annos.now }
    ensures keeps { Keeps S.space space.old space.new }
    ensures built { IfOk result (λ made. (all : Option Trees → Option Trees) →
        AreBuilt S.space.term_of space.old all annos.now pushed →
        Builds S.space space.new (made_with (Some (S.space.term_of space.old at.now))
        (all (Some end))) made) }
{
    match pushed {
        Pushed::NoInstance => Ok(Built::NoInstance),
        Pushed::Oversize => Ok(Built::Oversize),
        Pushed::All => {
            let made = space.with_annos(alloc, at, annos)?;
            Ok(outcome(made))
        }
    }
}

/// What was built, which has no annotations, with these, or what came of them.
pub(crate) fn annotate<S: TermSpace>(
    space: &mut S,
    alloc: Global,
    bare: Built<S::Ref>,
    pushed: Pushed,
    annos: &[S::Ref],
) -> Result<Built<S::Ref>, AllocError>
    requires stands { BuiltStands (λ r. IsTrue (S.space.stands space.old r)) bare }
    requires annos { AllRefs (λ r. IsTrue (S.space.stands space.old r)) annos.now }
    ensures keeps { Keeps S.space space.old space.new }
    ensures built { IfOk result (λ made. (o : Option Tree) → IsBare o →
        Builds S.space space.old o bare → (all : Option Trees → Option Trees) →
        AreBuilt S.space.term_of space.old all annos.now pushed →
        Builds S.space space.new (made_with o (all (Some end))) made) }
{
    match bare {
        Built::NoInstance => Ok(Built::NoInstance),
        Built::Oversize => Ok(large(pushed)),
        Built::Made(at) => {
            if annos.is_empty() && are_all(&pushed) {
                return Ok(Built::Made(at));
            }
            let built = with_built(space, alloc, &at, pushed, annos)?;
            Ok(built)
        }
    }
}

/// What was built, which has no annotations, with those of another term.
pub(crate) fn annotate_like<S: TermSpace>(
    space: &mut S,
    alloc: Global,
    bare: Built<S::Ref>,
    like: &S::Ref,
) -> Result<Built<S::Ref>, AllocError>
    requires stands { BuiltStands (λ r. IsTrue (S.space.stands space.old r)) bare }
    requires like { IsTrue (S.space.stands space.old like.now) }
    ensures keeps { Keeps S.space space.old space.new }
    ensures built { IfOk result (λ made. (o : Option Tree) → IsBare o →
        Builds S.space space.old o bare →
        Builds S.space space.new (made_like o (Some (S.space.term_of space.old like.now))) made) }
{
    match bare {
        Built::NoInstance => Ok(Built::NoInstance),
        Built::Oversize => Ok(Built::Oversize),
        Built::Made(at) => {
            let made = space.like(alloc, &at, like)?;
            Ok(outcome(made))
        }
    }
}

/// What does not fit, with annotations.
fn large<R>(pushed: Pushed) -> Built<R>
    ensures { result ≡ large_with pushed }
{
    match pushed {
        Pushed::NoInstance => Built::NoInstance,
        Pushed::All => Built::Oversize,
        Pushed::Oversize => Built::Oversize,
    }
}

/// Whether all of several patterns are on the stack.
fn are_all(pushed: &Pushed) -> bool
    ensures { IsTrue result → pushed.now ≡ forms.All }
{
    match pushed {
        Pushed::All => true,
        Pushed::NoInstance => false,
        Pushed::Oversize => false,
    }
}
