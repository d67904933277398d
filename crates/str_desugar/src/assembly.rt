//! Strategies put together from strategies, where what an equation brings stands in the innermost layer.
ghost use Rattle.std.specs.Prelude.{◌≡◌, suc, ◌+◌, map};
ghost use Rattle.core_lang.specs.Views as views;
ghost use Rattle.core_lang.specs.Program as core;
ghost use Rattle.core_lang.specs.Resolved as resolved;
ghost use Rattle.str_desugar.specs.Assembled.{keeping_here, where_here, congruence_here};
ghost use Rattle.term_model.specs.Results.{Returns};
ghost use Rattle.str_desugar.specs.Results.{ReturnsCore};

use core_lang::{Coordinate, CoreArm, CorePattern, CoreStrategy, SourcePattern};
use std::alloc::{AllocError, Global};

/// This slot of the innermost layer.
pub(crate) fn here(slot: usize) -> Coordinate
    ensures { result ≡ resolved.here slot }
{
    Coordinate { layers_up: 0, slot }
}

/// The strategy that leaves each term as it is.
#[inline(never)]
pub(crate) fn identity(alloc: Global) -> Result<Box<CoreStrategy>, AllocError>
    ensures { ReturnsCore result core.id }
{
    Ok(Box::new(alloc, CoreStrategy::Id)?)
}

/// The strategy that fails on each term.
#[inline(never)]
pub(crate) fn failure(alloc: Global) -> Result<Box<CoreStrategy>, AllocError>
    ensures { ReturnsCore result core.fail }
{
    Ok(Box::new(alloc, CoreStrategy::Fail)?)
}

/// This number of new variables, and the strategy that sees them.
#[inline(never)]
pub(crate) fn scope_of(
    alloc: Global,
    count: usize,
    body: Box<CoreStrategy>,
) -> Result<Box<CoreStrategy>, AllocError>
    ensures { ReturnsCore result (core.scope count (views.strategy_of body.value)) }
{
    Ok(Box::new(alloc, CoreStrategy::Scope(count, body))?)
}

/// The strategy on each part of the term.
#[inline(never)]
pub(crate) fn on_all(
    alloc: Global,
    inner: Box<CoreStrategy>,
) -> Result<Box<CoreStrategy>, AllocError>
    ensures { ReturnsCore result (core.all (views.strategy_of inner.value)) }
{
    Ok(Box::new(alloc, CoreStrategy::All(inner))?)
}

/// The strategy on the first part of the term where it does not fail.
#[inline(never)]
pub(crate) fn on_one(
    alloc: Global,
    inner: Box<CoreStrategy>,
) -> Result<Box<CoreStrategy>, AllocError>
    ensures { ReturnsCore result (core.one (views.strategy_of inner.value)) }
{
    Ok(Box::new(alloc, CoreStrategy::One(inner))?)
}

/// The strategy on each part of the term, one at least, where it does not fail.
#[inline(never)]
pub(crate) fn on_some(
    alloc: Global,
    inner: Box<CoreStrategy>,
) -> Result<Box<CoreStrategy>, AllocError>
    ensures { ReturnsCore result (core.some (views.strategy_of inner.value)) }
{
    Ok(Box::new(alloc, CoreStrategy::Some(inner))?)
}

/// The strategies one after another.
fn in_turn(
    alloc: Global,
    first: Box<CoreStrategy>,
    mut items: Vec<CoreStrategy>,
) -> Result<Box<CoreStrategy>, AllocError>
    ensures { ReturnsCore result (views.chain (views.strategy_of first.value)
        (map views.strategy_of items.items)) }
{
    if items.is_empty() {
        return Ok(first);
    }
    let second = Box::new(alloc, items.remove(0))?;
    Ok(Box::new(alloc, CoreStrategy::Sequence(first, second, items))?)
}

/// A scope that keeps the current term and has place for this number of results, and these items in it.
#[inline(never)]
pub(crate) fn keeping(
    alloc: Global,
    results: usize,
    items: Vec<CoreStrategy>,
) -> Result<Box<CoreStrategy>, AllocError>
    ensures { ReturnsCore result (keeping_here results (map views.strategy_of items.items)) }
{
    let count = results.checked_add(1).ok_or(AllocError)?;
    let kept = SourcePattern::new(CorePattern::Variable(here(0)), None);
    let first = Box::new(alloc, CoreStrategy::Match(kept))?;
    let body = in_turn(alloc, first, items)?;
    scope_of(alloc, count, body)
}

/// The strategy on the current term, which it leaves as it is.
#[inline(never)]
pub(crate) fn where_of(
    alloc: Global,
    inner: Box<CoreStrategy>,
) -> Result<Box<CoreStrategy>, AllocError>
    ensures { ReturnsCore result (where_here (views.strategy_of inner.value)) }
{
    let mut items = Vec::new(alloc);
    items.push(Box::into_inner(inner))?;
    let kept = SourcePattern::new(CorePattern::Variable(here(0)), None);
    items.push(CoreStrategy::Build(kept))?;
    keeping(alloc, 0, items)
}

/// The first strategy and then the second, in one chain where the second is a chain.
#[inline(never)]
pub(crate) fn seq(
    alloc: Global,
    first: Box<CoreStrategy>,
    second: Box<CoreStrategy>,
) -> Result<Box<CoreStrategy>, AllocError>
    ensures { ReturnsCore result (core.seq (views.strategy_of first.value)
        (views.strategy_of second.value)) }
{
    if let CoreStrategy::Sequence(_, _, _) = &*second {
        return before_chain(alloc, first, Box::into_inner(second));
    }
    let made = CoreStrategy::Sequence(first, second, Vec::new(alloc));
    Ok(Box::new(alloc, made)?)
}

/// The strategy before the others of a chain.
#[inline(never)]
fn before_chain(
    alloc: Global,
    first: Box<CoreStrategy>,
    others: CoreStrategy,
) -> Result<Box<CoreStrategy>, AllocError>
    ensures { ReturnsCore result (core.seq (views.strategy_of first.value)
        (views.strategy_of others)) }
{
    match others {
        CoreStrategy::Sequence(second, third, mut others) => {
            others.insert(0, Box::into_inner(third))?;
            let made = Box::new(alloc, CoreStrategy::Sequence(first, second, others))?;
            Ok(made)
        }
        other => {
            let second = Box::new(alloc, other)?;
            let made = CoreStrategy::Sequence(first, second, Vec::new(alloc));
            let made = Box::new(alloc, made)?;
            Ok(made)
        }
    }
}

/// The choice of one arm.
#[inline(never)]
fn one_choice(
    alloc: Global,
    arm: Box<CoreArm>,
    otherwise: Box<CoreStrategy>,
) -> Result<Box<CoreStrategy>, AllocError>
    ensures { ReturnsCore result (core.choice (views.arm_of arm.value).guard
        (views.arm_of arm.value).then
        (views.strategy_of otherwise.value)) }
{
    let made = CoreStrategy::Choice(arm, Vec::new(alloc), otherwise);
    Ok(Box::new(alloc, made)?)
}

/// The arm before the others of a chain of choices.
#[inline(never)]
fn before_arms(
    alloc: Global,
    arm: Box<CoreArm>,
    others: CoreStrategy,
) -> Result<Box<CoreStrategy>, AllocError>
    ensures { ReturnsCore result (core.choice (views.arm_of arm.value).guard
        (views.arm_of arm.value).then
        (views.strategy_of others)) }
{
    match others {
        CoreStrategy::Choice(second, mut others, last) => {
            others.insert(0, Box::into_inner(second))?;
            Ok(Box::new(alloc, CoreStrategy::Choice(arm, others, last))?)
        }
        other => {
            let other = Box::new(alloc, other)?;
            one_choice(alloc, arm, other)
        }
    }
}

/// The arm, and what follows where its guard fails, in one chain where that is a chain.
#[inline(never)]
fn chain_of_arm(
    alloc: Global,
    arm: Box<CoreArm>,
    otherwise: Box<CoreStrategy>,
) -> Result<Box<CoreStrategy>, AllocError>
    ensures { ReturnsCore result (core.choice (views.arm_of arm.value).guard
        (views.arm_of arm.value).then
        (views.strategy_of otherwise.value)) }
{
    if let CoreStrategy::Choice(_, _, _) = &*otherwise {
        return before_arms(alloc, arm, Box::into_inner(otherwise));
    }
    one_choice(alloc, arm, otherwise)
}

/// The guard, and what follows where it succeeds.
fn arm(guard: Box<CoreStrategy>, then: CoreStrategy) -> CoreArm
    ensures { views.arm_of result ≡
        record { guard = views.strategy_of guard.value; then = views.strategy_of then } }
{
    CoreArm {
        guard: Box::into_inner(guard),
        then,
    }
}

/// The choice of the guard, what follows where it succeeds, and what follows where it fails, in one chain where that is a chain.
#[inline(never)]
pub(crate) fn choice(
    alloc: Global,
    guard: Box<CoreStrategy>,
    then: Box<CoreStrategy>,
    otherwise: Box<CoreStrategy>,
) -> Result<Box<CoreStrategy>, AllocError>
    ensures { ReturnsCore result (core.choice (views.strategy_of guard.value)
        (views.strategy_of then.value)
        (views.strategy_of otherwise.value)) }
{
    let arm = Box::new(alloc, arm(guard, Box::into_inner(then)))?;
    chain_of_arm(alloc, arm, otherwise)
}

/// The choice of the guard and of what follows where it fails.
#[inline(never)]
pub(crate) fn left_choice(
    alloc: Global,
    guard: Box<CoreStrategy>,
    otherwise: Box<CoreStrategy>,
) -> Result<Box<CoreStrategy>, AllocError>
    ensures { ReturnsCore result (core.choice (views.strategy_of guard.value) core.id
        (views.strategy_of otherwise.value)) }
{
    let arm = Box::new(alloc, arm(guard, CoreStrategy::Id))?;
    chain_of_arm(alloc, arm, otherwise)
}

/// The strategy that fails where this one succeeds, and leaves the term as it is where this one fails.
#[inline(never)]
pub(crate) fn negation(
    alloc: Global,
    inner: Box<CoreStrategy>,
) -> Result<Box<CoreStrategy>, AllocError>
    ensures { ReturnsCore result (core.choice (views.strategy_of inner.value) core.fail core.id) }
{
    let arm = Box::new(alloc, arm(inner, CoreStrategy::Fail))?;
    let otherwise = identity(alloc)?;
    one_choice(alloc, arm, otherwise)
}

/// The congruence of this number of parts, which stands at this offset: what is matched, the items, and what is built.
#[inline(never)]
pub(crate) fn congruence(
    alloc: Global,
    offset: u64,
    parts: usize,
    pattern: CorePattern,
    mut items: Vec<CoreStrategy>,
    made: CorePattern,
) -> Result<Box<CoreStrategy>, AllocError>
    ensures { ReturnsCore result (congruence_here parts (views.pattern_of pattern)
        (map views.strategy_of items.items)
        (views.pattern_of made)) }
{
    let count = names_of_congruence(parts)?;
    let pattern = Box::new(alloc, pattern)?;
    let made = Box::new(alloc, made)?;
    let made = SourcePattern::new(CorePattern::Like(made, here(0)), Some(offset));
    items.push(CoreStrategy::Build(made))?;
    let pattern = SourcePattern::new(CorePattern::Alias(here(0), pattern), Some(offset));
    let first = Box::new(alloc, CoreStrategy::Match(pattern))?;
    let body = in_turn(alloc, first, items)?;
    scope_of(alloc, count, body)
}

/// How many names a congruence of this number of parts brings.
pub(crate) fn names_of_congruence(parts: usize) -> Result<usize, AllocError>
    ensures { Returns result (suc (parts + parts)) }
{
    let both = parts.checked_add(parts).ok_or(AllocError)?;
    both.checked_add(1).ok_or(AllocError)
}
