//! Calls.
ghost use Rattle.std.specs.Prelude.{◌≡◌, IfOk};
ghost use Rattle.core_lang.specs.Named as named;
ghost use Rattle.core_lang.specs.Named.{NamedStrategies, written};
ghost use Rattle.core_lang.specs.Program as core;
ghost use Rattle.core_lang.specs.Views as views;
ghost use Rattle.str_syntax.specs.Trees as trees;
ghost use Rattle.str_syntax.specs.Views.{arguments_of, patterns_of, strategies_of};
ghost use Rattle.str_desugar.specs.Equations.{built_parts, primary_core, strategies_core};
ghost use Rattle.str_desugar.specs.Frames.{patterns_at, strategies_at, strategy_at};
ghost use Rattle.str_desugar.specs.Layers.{layers_of};
ghost use Rattle.signature_core.specs.Signature.{arity_known};
ghost use Rattle.str_desugar.specs.Results.{ReturnsCore};

use crate::build::results_in;
use crate::build_patterns::{applications_among, built_parts};
use crate::congruence::{number_of, symbol_congruence};
use crate::items::{call_after, put};
use crate::parts::successor;
use crate::scopes::Scopes;
use crate::strategy::{Context, strategy};
use crate::symbols::Symbols;
use core_lang::{CallTarget, CorePattern, CoreStrategy};
use std::alloc::AllocError;
use str_syntax::{Arguments, Name, Pattern, Strategy};

/// A call by this name, with these arguments.
#[inline(never)]
fn call_of(
    context: &Context,
    scopes: &Scopes,
    name: &Name,
    strategies: Vec<CoreStrategy>,
    terms: Vec<CorePattern>,
) -> Result<Box<CoreStrategy>, AllocError>
    ensures { IfOk result (λ made. (ss : NamedStrategies) (ps : core.Patterns named.Name) →
        views.strategies_of strategies.items ≡ strategies_at (layers_of scopes.now) ss →
        views.patterns_of terms.items ≡ patterns_at (layers_of scopes.now) ps →
        views.strategy_of made.value ≡
        strategy_at (layers_of scopes.now) (core.call (written name.now) ss ps)) }
{
    let at = scopes.callee(context.hashing, name, strategies.len(), terms.len())?;
    let target = CallTarget::new(at, Some(name.offset()));
    let made = Box::new(context.alloc, CoreStrategy::Call(target, strategies, terms))?;
    Ok(made)
}

/// A call by this name, without arguments.
#[inline(never)]
pub(crate) fn plain_call(
    context: &Context,
    scopes: &Scopes,
    name: &Name,
) -> Result<Box<CoreStrategy>, AllocError>
    ensures { ReturnsCore result (strategy_at (layers_of scopes.now)
        (core.call (written name.now) core.no_strategies core.no_patterns)) }
{
    let at = scopes.callee(context.hashing, name, 0, 0)?;
    let target = CallTarget::new(at, Some(name.offset()));
    let call = CoreStrategy::Call(target, Vec::new(context.alloc), Vec::new(context.alloc));
    Ok(Box::new(context.alloc, call)?)
}

/// The strategies that a call hands on.
#[cycle(walk)]
#[inline(never)]
fn strategy_arguments<'t>(
    context: &Context,
    sources: &'t [Strategy],
    scopes: &Scopes<'_, 't>,
    symbols: &mut Symbols,
) -> Result<Vec<CoreStrategy>, AllocError>
    ensures { IfOk result (λ made. views.strategies_of made.items ≡
        strategies_at (layers_of scopes.now)
        (strategies_core (arity_known context.now.signature.now) (strategies_of sources.now))) }
{
    let mut made = Vec::with_capacity(context.alloc, sources.len())?;
    for source in sources {
        let argument = strategy(context, source, scopes, symbols)?;
        put(argument, &mut made)?;
    }
    Ok(made)
}

/// The call itself, in the layers that have the results for its arguments.
#[cycle(walk)]
#[inline(never)]
fn call_with_results<'t>(
    context: &Context,
    name: &Name,
    sources: &'t [Strategy],
    terms: &'t [Pattern],
    scopes: &Scopes<'_, 't>,
    symbols: &mut Symbols,
) -> Result<Box<CoreStrategy>, AllocError>
    ensures { ReturnsCore result (strategy_at (layers_of scopes.now)
        (core.call (written name.now)
        (strategies_core (arity_known context.now.signature.now) (strategies_of sources.now))
        (built_parts 0 (patterns_of terms.now)))) }
{
    let strategies = strategy_arguments(context, sources, scopes, symbols)?;
    let mut next = 0;
    let terms = built_parts(context.alloc, terms, scopes, symbols, &mut next)?;
    let made = call_of(context, scopes, name, strategies, terms)?;
    Ok(made)
}

/// The core of a call. With strategies alone in parentheses it is a congruence where a constructor of this name is declared with
/// as many sorts.
#[cycle(walk)]
#[inline(never)]
pub(crate) fn call<'t>(
    context: &Context,
    name: &Name,
    source: &'t Arguments,
    scopes: &Scopes<'_, 't>,
    symbols: &mut Symbols,
) -> Result<Box<CoreStrategy>, AllocError>
    ensures { ReturnsCore result (strategy_at (layers_of scopes.now)
        (primary_core (arity_known context.now.signature.now)
        (trees.call name.now (arguments_of source.now)))) }
{
    match source {
        Arguments::Absent => plain_call(context, scopes, name),
        Arguments::Strategies(sources) => called_with(context, name, sources, scopes, symbols),
        Arguments::WithTerms(sources, terms) => {
            let count = applications_among(terms)?;
            if count == 0 {
                let plain = call_with_results(context, name, sources, terms, scopes, symbols)?;
                return Ok(plain);
            }
            let names = successor(count)?;
            let inner = Scopes::Brought {
                count: names,
                outer: &*scopes,
            };
            let mut items = Vec::new(context.alloc);
            let mut next = 0;
            results_in(context, terms, &inner, symbols, &mut next, &mut items)?;
            let last = call_with_results(context, name, sources, terms, &inner, symbols)?;
            let made = call_after(context.alloc, &inner, count, items, last)?;
            Ok(made)
        }
    }
}

/// A call that has no terms, or a congruence.
#[cycle(walk)]
#[inline(never)]
fn called_with<'t>(
    context: &Context,
    name: &Name,
    sources: &'t [Strategy],
    scopes: &Scopes<'_, 't>,
    symbols: &mut Symbols,
) -> Result<Box<CoreStrategy>, AllocError>
    ensures { ReturnsCore result (strategy_at (layers_of scopes.now)
        (primary_core (arity_known context.now.signature.now)
        (trees.call name.now (trees.strategy_arguments (strategies_of sources.now))))) }
{
    if context
        .signature
        .arity_known(name.bytes(), number_of(sources))
    {
        let symbol = symbols.constructor(name)?;
        let each = symbol_congruence(context, name.offset(), symbol, sources, scopes, symbols)?;
        return Ok(each);
    }
    let strategies = strategy_arguments(context, sources, scopes, symbols)?;
    let made = call_of(context, scopes, name, strategies, Vec::new(context.alloc))?;
    Ok(made)
}
