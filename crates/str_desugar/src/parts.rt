//! Patterns of the names that a scope brings.
ghost use Rattle.std.specs.Prelude.{◌≡◌, ◌+◌, suc, map, IfOk};
ghost use Rattle.core_lang.specs.Named.{brought};
ghost use Rattle.core_lang.specs.Program as core;
ghost use Rattle.core_lang.specs.Views as views;
ghost use Rattle.str_desugar.specs.Brought.{elements_from, elements_and_rest_from, patterns_from};
ghost use Rattle.str_desugar.specs.Frames.{pattern_at};
ghost use Rattle.str_desugar.specs.Layers.{brought_from, layers_of};
ghost use Rattle.term_model.specs.Results.{Returns};

use crate::scopes::Scopes;
use core_lang::CorePattern;
use std::alloc::{AllocError, Global};
use term_model::Sym;

/// The variable of the name that is brought at this index.
pub(crate) fn variable(scopes: &Scopes, index: usize) -> Result<CorePattern, AllocError>
    ensures { IfOk result (λ made. views.pattern_of made ≡
        pattern_at (layers_of scopes.now) (core.variable (brought index))) }
{
    Ok(CorePattern::Variable(scopes.equation_coordinate(index)?))
}

/// The number after this one. `Err` where that leaves 64 bits, since no memory holds as many parts.
pub(crate) fn successor(number: usize) -> Result<usize, AllocError>
    ensures { Returns result (suc number) }
{
    number.checked_add(1).ok_or(AllocError)
}

/// The sum of the numbers. `Err` where that leaves 64 bits, since no memory holds as many parts.
pub(crate) fn sum(first: usize, second: usize) -> Result<usize, AllocError>
    ensures { Returns result (first + second) }
{
    first.checked_add(second).ok_or(AllocError)
}

/// The variables of the names that are brought from this index on, as many as the count says.
fn variables(
    alloc: Global,
    scopes: &Scopes,
    from: usize,
    count: usize,
) -> Result<Vec<CorePattern>, AllocError>
    ensures { IfOk result (λ made. map views.pattern_of made.items ≡
        brought_from (layers_of scopes.now) from count) }
{
    let mut made = Vec::with_capacity(alloc, count)?;
    let mut index = from;
    for _ in 0..count {
        let part = variable(scopes, index)?;
        made.push(part)?;
        index = successor(index)?;
    }
    Ok(made)
}

/// The symbol applied to them.
pub(crate) fn apply_symbol(
    alloc: Global,
    scopes: &Scopes,
    symbol: Sym,
    from: usize,
    count: usize,
) -> Result<CorePattern, AllocError>
    ensures { IfOk result (λ made. views.pattern_of made ≡
        pattern_at (layers_of scopes.now) (core.applied symbol (patterns_from from count))) }
{
    let parts = variables(alloc, scopes, from, count)?;
    Ok(CorePattern::Applied(symbol, parts))
}

/// The list of them.
pub(crate) fn list(
    alloc: Global,
    scopes: &Scopes,
    from: usize,
    count: usize,
) -> Result<CorePattern, AllocError>
    ensures { IfOk result (λ made. views.pattern_of made ≡
        pattern_at (layers_of scopes.now) (core.list (elements_from from count))) }
{
    let elements = variables(alloc, scopes, from, count)?;
    Ok(CorePattern::List(elements, None))
}

/// The list of them, with the name after them for the rest.
pub(crate) fn list_with_rest(
    alloc: Global,
    scopes: &Scopes,
    from: usize,
    count: usize,
) -> Result<CorePattern, AllocError>
    ensures { IfOk result (λ made. views.pattern_of made ≡
        pattern_at (layers_of scopes.now) (core.list (elements_and_rest_from from count))) }
{
    let elements = variables(alloc, scopes, from, count)?;
    let after = sum(from, count)?;
    let rest = Box::new(alloc, variable(scopes, after)?)?;
    Ok(CorePattern::List(elements, Some(rest)))
}
