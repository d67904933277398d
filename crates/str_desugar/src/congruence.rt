//! Congruences: what is matched of a node, a strategy on each part, and what is built of the outcomes.
ghost use Rattle.std.specs.Prelude.{◌≡◌, ◌++◌, suc, List, IfOk, map};
ghost use Rattle.core_lang.specs.Named.{NamedStrategy};
ghost use Rattle.core_lang.specs.Program as core;
ghost use Rattle.core_lang.specs.Views as views;
ghost use Rattle.str_syntax.specs.Arity.{number_of_strategies};
ghost use Rattle.str_syntax.specs.Views.{strategies_of, strategy_of};
ghost use Rattle.str_desugar.specs.Assembled.{congruence_here};
ghost use Rattle.str_desugar.specs.Brought.{elements_from, elements_and_rest_from, patterns_from};
ghost use Rattle.str_desugar.specs.Equations as equations;
ghost use Rattle.str_desugar.specs.Equations.{elements_congruence, part_of, parts, strategy_core, symbol_congruence};
ghost use Rattle.str_desugar.specs.Frames.{pattern_at, strategy_at};
ghost use Rattle.str_desugar.specs.Layers.{inside_congruence, items_at, layers_of};
ghost use Rattle.signature_core.specs.Signature.{arity_known};
ghost use Rattle.str_desugar.specs.Results.{ReturnsCore};

use crate::assembly::{congruence, names_of_congruence};
use crate::items::put_part;
use crate::parts::{apply_symbol, list, list_with_rest, successor};
use crate::scopes::Scopes;
use crate::strategy::{Context, strategy};
use crate::symbols::Symbols;
use core_lang::{CorePattern, CoreStrategy, SourcePattern};
use std::alloc::{AllocError, Global};
use str_syntax::Strategy;
use term_model::Sym;

/// How many strategies there are.
#[tactic(auto, using(crate::proofs::WalkLaws::counted))]
pub(crate) fn number_of(sources: &[Strategy]) -> usize
    ensures { result ≡ number_of_strategies (strategies_of sources.now) }
{
    sources.len()
}

/// The match of a symbol without parts.
#[inline(never)]
fn match_symbol(alloc: Global, offset: u64, symbol: Sym) -> Result<Box<CoreStrategy>, AllocError>
    ensures { ReturnsCore result (core.match (core.applied symbol core.no_patterns)) }
{
    let pattern = CorePattern::Applied(symbol, Vec::new(alloc));
    let pattern = SourcePattern::new(pattern, Some(offset));
    Ok(Box::new(alloc, CoreStrategy::Match(pattern))?)
}

/// The match of the list without elements.
#[inline(never)]
fn match_no_elements(alloc: Global, offset: u64) -> Result<Box<CoreStrategy>, AllocError>
    ensures { ReturnsCore result (core.match (core.list core.no_elements)) }
{
    let pattern = CorePattern::List(Vec::new(alloc), None);
    let pattern = SourcePattern::new(pattern, Some(offset));
    Ok(Box::new(alloc, CoreStrategy::Match(pattern))?)
}

/// The congruence of a symbol with this number of parts, where these are their items.
#[inline(never)]
fn of_symbol(
    alloc: Global,
    offset: u64,
    scopes: &Scopes,
    symbol: Sym,
    count: usize,
    items: Vec<CoreStrategy>,
) -> Result<Box<CoreStrategy>, AllocError>
    ensures { ReturnsCore result (congruence_here count (pattern_at (layers_of scopes.now)
        (core.applied symbol (patterns_from 1 count))) (map views.strategy_of items.items)
        (pattern_at (layers_of scopes.now) (core.applied symbol (patterns_from
        (suc count) count)))) }
{
    let pattern = apply_symbol(alloc, scopes, symbol.clone()?, 1, count)?;
    let made = apply_symbol(alloc, scopes, symbol, successor(count)?, count)?;
    congruence(alloc, offset, count, pattern, items, made)
}

/// The congruence of a list of this number of elements, where these are their items.
#[inline(never)]
fn of_elements(
    alloc: Global,
    offset: u64,
    scopes: &Scopes,
    count: usize,
    items: Vec<CoreStrategy>,
) -> Result<Box<CoreStrategy>, AllocError>
    ensures { ReturnsCore result (congruence_here count (pattern_at (layers_of scopes.now)
        (core.list (elements_from 1 count))) (map views.strategy_of items.items)
        (pattern_at (layers_of scopes.now) (core.list (elements_from (suc count) count)))) }
{
    let pattern = list(alloc, scopes, 1, count)?;
    let made = list(alloc, scopes, successor(count)?, count)?;
    congruence(alloc, offset, count, pattern, items, made)
}

/// The congruence of a list of n elements and a rest, where these are the items of all parts, of which there is one more.
#[inline(never)]
fn of_rest(
    alloc: Global,
    offset: u64,
    scopes: &Scopes,
    elements: usize,
    count: usize,
    items: Vec<CoreStrategy>,
) -> Result<Box<CoreStrategy>, AllocError>
    ensures { ReturnsCore result (congruence_here count (pattern_at (layers_of scopes.now)
        (core.list (elements_and_rest_from 1 elements))) (map views.strategy_of items.items)
        (pattern_at (layers_of scopes.now)
        (core.list (elements_and_rest_from (suc count) elements)))) }
{
    let pattern = list_with_rest(alloc, scopes, 1, elements)?;
    let made = list_with_rest(alloc, scopes, successor(count)?, elements)?;
    congruence(alloc, offset, count, pattern, items, made)
}

/// The congruence of a symbol with these parts. It stands at this offset.
#[cycle(walk)]
#[inline(never)]
pub(crate) fn symbol_congruence<'t>(
    context: &Context,
    offset: u64,
    symbol: Sym,
    sources: &'t [Strategy],
    scopes: &Scopes<'_, 't>,
    symbols: &mut Symbols,
) -> Result<Box<CoreStrategy>, AllocError>
    ensures { ReturnsCore result (strategy_at (layers_of scopes.now)
        (symbol_congruence symbol (number_of_strategies (strategies_of sources.now))
        (parts (arity_known context.now.signature.now)
        (number_of_strategies (strategies_of sources.now)) 0 (strategies_of sources.now)))) }
{
    let alloc = context.alloc;
    let count = number_of(sources);
    if count == 0 {
        let only = match_symbol(alloc, offset, symbol)?;
        return Ok(only);
    }
    let names = names_of_congruence(count)?;
    let inner = Scopes::Brought {
        count: names,
        outer: &*scopes,
    };
    let items = items_of(context, sources, count, &inner, symbols)?;
    let made = of_symbol(alloc, offset, &inner, symbol, count, items)?;
    Ok(made)
}

/// The congruence of a list of these elements.
#[cycle(walk)]
#[inline(never)]
pub(crate) fn elements_congruence<'t>(
    context: &Context,
    sources: &'t [Strategy],
    scopes: &Scopes<'_, 't>,
    symbols: &mut Symbols,
) -> Result<Box<CoreStrategy>, AllocError>
    ensures { ReturnsCore result (strategy_at (layers_of scopes.now)
        (elements_congruence (number_of_strategies (strategies_of sources.now))
        (parts (arity_known context.now.signature.now)
        (number_of_strategies (strategies_of sources.now)) 0 (strategies_of sources.now)))) }
{
    let alloc = context.alloc;
    let count = number_of(sources);
    if count == 0 {
        let only = match_no_elements(alloc, context.place)?;
        return Ok(only);
    }
    let names = names_of_congruence(count)?;
    let inner = Scopes::Brought {
        count: names,
        outer: &*scopes,
    };
    let items = items_of(context, sources, count, &inner, symbols)?;
    let made = of_elements(alloc, context.place, &inner, count, items)?;
    Ok(made)
}

/// The items of the elements that stand before the rest of a list.
#[cycle(walk)]
#[inline(never)]
pub(crate) fn items_before_rest<'t>(
    context: &Context,
    sources: &'t [Strategy],
    scopes: &Scopes<'_, 't>,
    symbols: &mut Symbols,
) -> Result<Vec<CoreStrategy>, AllocError>
    ensures { IfOk result (λ made. map views.strategy_of made.items ≡
        items_at (inside_congruence (suc (number_of_strategies (strategies_of sources.now)))
        (layers_of scopes.now))
        (parts (arity_known context.now.signature.now)
        (suc (number_of_strategies (strategies_of sources.now))) 0 (strategies_of sources.now))) }
{
    let count = successor(number_of(sources))?;
    let names = names_of_congruence(count)?;
    let inner = Scopes::Brought {
        count: names,
        outer: &*scopes,
    };
    let items = items_of(context, sources, count, &inner, symbols)?;
    Ok(items)
}

/// The congruence of a list of n elements, of which these are the items, and this rest.
#[cycle(walk)]
#[inline(never)]
pub(crate) fn rest_congruence<'t>(
    context: &Context,
    source: &'t Strategy,
    elements: usize,
    mut items: Vec<CoreStrategy>,
    scopes: &Scopes<'_, 't>,
    symbols: &mut Symbols,
) -> Result<Box<CoreStrategy>, AllocError>
    ensures { IfOk result (λ made. (each : List NamedStrategy) →
        map views.strategy_of items.items ≡
        items_at (inside_congruence (suc elements) (layers_of scopes.now)) each →
        views.strategy_of made.value ≡
        strategy_at (layers_of scopes.now)
        (equations.rest_congruence elements (each ++
        part_of (suc elements) elements
        (strategy_core (arity_known context.now.signature.now) (strategy_of source.now))))) }
{
    let count = successor(elements)?;
    let names = names_of_congruence(count)?;
    let inner = Scopes::Brought {
        count: names,
        outer: &*scopes,
    };
    let last = strategy(context, source, &inner, symbols)?;
    put_part(&inner, count, elements, last, &mut items)?;
    let made = of_rest(context.alloc, context.place, &inner, elements, count, items)?;
    Ok(made)
}

/// The items of the parts, of this number in all.
#[cycle(walk)]
#[inline(never)]
fn items_of<'t>(
    context: &Context,
    sources: &'t [Strategy],
    count: usize,
    scopes: &Scopes<'_, 't>,
    symbols: &mut Symbols,
) -> Result<Vec<CoreStrategy>, AllocError>
    ensures { IfOk result (λ made. map views.strategy_of made.items ≡
        items_at (layers_of scopes.now)
        (parts (arity_known context.now.signature.now) count 0 (strategies_of sources.now))) }
{
    let mut items = Vec::new(context.alloc);
    for (index, source) in sources.iter().enumerate() {
        let outcome = strategy(context, source, scopes, symbols)?;
        put_part(scopes, count, index, outcome, &mut items)?;
    }
    Ok(items)
}
