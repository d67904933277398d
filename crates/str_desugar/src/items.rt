//! Items of sequences: those that give one result of a build, and those of one part of a congruence.
ghost use Rattle.std.specs.Prelude.{◌≡◌, ◌+◌, ◌++◌, ◌∷◌, [], OnOk, map};
ghost use Rattle.core_lang.specs.Named.{brought};
ghost use Rattle.core_lang.specs.Program as core;
ghost use Rattle.core_lang.specs.Views as views;
ghost use Rattle.str_desugar.specs.Assembled.{keeping_here, part_here, result_here};
ghost use Rattle.str_desugar.specs.Brought.{kept};
ghost use Rattle.str_desugar.specs.Equations.{outcome_name, result_name};
ghost use Rattle.str_desugar.specs.Frames.{variable_at};
ghost use Rattle.str_desugar.specs.Layers.{layers_of};
ghost use Rattle.str_desugar.specs.Results.{ReturnsCore};

use crate::assembly::keeping;
use crate::parts::{successor, sum, variable};
use crate::scopes::Scopes;
use core_lang::{CoreStrategy, SourcePattern};
use std::alloc::{AllocError, Global};

/// Puts the build of the name that is brought at this index after the others.
fn put_build(scopes: &Scopes, index: usize, items: &mut Vec<CoreStrategy>) -> Result<(), AllocError>
    ensures { OnOk result (map views.strategy_of items.new.items ≡
        map views.strategy_of items.old.items ++
        core.build (core.variable (variable_at (layers_of scopes.now) (brought index))) ∷ []) }
{
    let part = SourcePattern::new(variable(scopes, index)?, None);
    items.push(CoreStrategy::Build(part))?;
    Ok(())
}

/// Puts the match of the name that is brought at this index after the others.
fn put_match(scopes: &Scopes, index: usize, items: &mut Vec<CoreStrategy>) -> Result<(), AllocError>
    ensures { OnOk result (map views.strategy_of items.new.items ≡
        map views.strategy_of items.old.items ++
        core.match (core.variable (variable_at (layers_of scopes.now) (brought index))) ∷ []) }
{
    let part = SourcePattern::new(variable(scopes, index)?, None);
    items.push(CoreStrategy::Match(part))?;
    Ok(())
}

/// Puts the strategy after the others.
#[inline(never)]
pub(crate) fn put(only: Box<CoreStrategy>, items: &mut Vec<CoreStrategy>) -> Result<(), AllocError>
    ensures { OnOk result (items.new.items ≡ items.old.items ++ only.value ∷ []) }
{
    items.push(Box::into_inner(only))?;
    Ok(())
}

/// Puts the strategy after the others, on the build of the name that is brought at this index.
fn put_on(
    scopes: &Scopes,
    index: usize,
    only: Box<CoreStrategy>,
    items: &mut Vec<CoreStrategy>,
) -> Result<(), AllocError>
    ensures { OnOk result (map views.strategy_of items.new.items ≡
        map views.strategy_of items.old.items ++
        core.build (core.variable (variable_at (layers_of scopes.now) (brought index))) ∷
        views.strategy_of only.value ∷ []) }
{
    put_build(scopes, index, items)?;
    put(only, items)
}

/// Puts the match of the next result after the others.
fn put_next(
    scopes: &Scopes,
    next: &mut usize,
    items: &mut Vec<CoreStrategy>,
) -> Result<(), AllocError>
    ensures items { OnOk result (map views.strategy_of items.new.items ≡
        map views.strategy_of items.old.items ++
        core.match (core.variable
        (variable_at (layers_of scopes.now) (result_name next.old))) ∷ []) }
    ensures next { OnOk result (next.new ≡ next.old + 1) }
{
    *next = successor(*next)?;
    put_match(scopes, *next, items)
}

/// Puts the match of what becomes of the part at this index, of this number of parts, after the others.
fn put_outcome(
    scopes: &Scopes,
    count: usize,
    index: usize,
    items: &mut Vec<CoreStrategy>,
) -> Result<(), AllocError>
    ensures { OnOk result (map views.strategy_of items.new.items ≡
        map views.strategy_of items.old.items ++
        core.match (core.variable (variable_at (layers_of scopes.now) (outcome_name count index))) ∷
        []) }
{
    let outcome = successor(sum(count, index)?)?;
    put_match(scopes, outcome, items)
}

/// Puts the items of the next result after the others: the strategy on the kept term gives it.
#[inline(never)]
pub(crate) fn put_result(
    scopes: &Scopes,
    only: Box<CoreStrategy>,
    next: &mut usize,
    items: &mut Vec<CoreStrategy>,
) -> Result<(), AllocError>
    ensures items { OnOk result (map views.strategy_of items.new.items ≡
        map views.strategy_of items.old.items ++
        result_here (layers_of scopes.now) next.old (views.strategy_of only.value ∷ [])) }
    ensures next { OnOk result (next.new ≡ next.old + 1) }
{
    put_on(scopes, 0, only, items)?;
    put_next(scopes, next, items)
}

/// Puts the items of the next result after the others: the first strategy on the kept term, and then the second, give it.
#[inline(never)]
pub(crate) fn put_result_of(
    scopes: &Scopes,
    first: Box<CoreStrategy>,
    second: Box<CoreStrategy>,
    next: &mut usize,
    items: &mut Vec<CoreStrategy>,
) -> Result<(), AllocError>
    ensures items { OnOk result (map views.strategy_of items.new.items ≡
        map views.strategy_of items.old.items ++
        result_here (layers_of scopes.now)
        next.old (views.strategy_of first.value ∷ views.strategy_of second.value ∷ [])) }
    ensures next { OnOk result (next.new ≡ next.old + 1) }
{
    put_on(scopes, 0, first, items)?;
    put(second, items)?;
    put_next(scopes, next, items)
}

/// Puts the items of the part at this index, of this number of parts, after the others: the strategy on the part gives its outcome.
#[inline(never)]
pub(crate) fn put_part(
    scopes: &Scopes,
    count: usize,
    index: usize,
    only: Box<CoreStrategy>,
    items: &mut Vec<CoreStrategy>,
) -> Result<(), AllocError>
    ensures { OnOk result (map views.strategy_of items.new.items ≡
        map views.strategy_of items.old.items ++
        part_here (layers_of scopes.now) count index (views.strategy_of only.value)) }
{
    let part = successor(index)?;
    put_on(scopes, part, only, items)?;
    put_outcome(scopes, count, index, items)
}

/// The build after the items for its results.
#[inline(never)]
pub(crate) fn build_after(
    alloc: Global,
    count: usize,
    mut items: Vec<CoreStrategy>,
    last: Box<CoreStrategy>,
) -> Result<Box<CoreStrategy>, AllocError>
    ensures { ReturnsCore result (keeping_here count (map views.strategy_of items.items ++
        views.strategy_of last.value ∷ [])) }
{
    put(last, &mut items)?;
    keeping(alloc, count, items)
}

/// The call on the kept term after the items for its results.
#[inline(never)]
pub(crate) fn call_after(
    alloc: Global,
    scopes: &Scopes,
    count: usize,
    mut items: Vec<CoreStrategy>,
    last: Box<CoreStrategy>,
) -> Result<Box<CoreStrategy>, AllocError>
    ensures { ReturnsCore result (keeping_here count (map views.strategy_of items.items ++
        core.build (core.variable (variable_at (layers_of scopes.now) kept)) ∷
        views.strategy_of last.value ∷ [])) }
{
    put_on(scopes, 0, last, &mut items)?;
    keeping(alloc, count, items)
}
