//! What a build makes: the items that give the results of its outermost `<..>`, and then the build.
ghost use Rattle.std.specs.Prelude.{◌≡◌, ◌+◌, ◌++◌, OnOk, map};
ghost use Rattle.core_lang.specs.Program as core;
ghost use Rattle.core_lang.specs.Views as views;
ghost use Rattle.str_syntax.specs.Trees as trees;
ghost use Rattle.str_syntax.specs.Views.{pattern_of, patterns_of};
ghost use Rattle.str_desugar.specs.Equations as equations;
ghost use Rattle.str_desugar.specs.Equations.{applications, applications_among, primary_core, results, results_among};
ghost use Rattle.str_desugar.specs.Frames.{strategy_at};
ghost use Rattle.str_desugar.specs.Layers.{items_at, layers_of};
ghost use Rattle.signature_core.specs.Signature.{arity_known};
ghost use Rattle.str_desugar.specs.Results.{ReturnsCore};

use crate::build_patterns::{applications, core_of_build};
use crate::items::{build_after, put_result, put_result_of};
use crate::offsets::{offset_of, place_before};
use crate::parts::successor;
use crate::scopes::Scopes;
use crate::strategy::{Context, strategy};
use crate::symbols::Symbols;
use core_lang::{CoreStrategy, SourcePattern};
use std::alloc::AllocError;
use str_syntax::Pattern;

/// The build of a pattern, whose results stand in the layers.
#[inline(never)]
fn build_of(
    context: &Context,
    source: &Pattern,
    scopes: &Scopes,
    symbols: &mut Symbols,
) -> Result<Box<CoreStrategy>, AllocError>
    ensures { ReturnsCore result (strategy_at (layers_of scopes.now) (core.build (equations.built 0
        (pattern_of source.now)))) }
{
    let mut next = 0;
    let pattern = core_of_build(context.alloc, source, scopes, symbols, &mut next)?;
    let pattern = SourcePattern::new(pattern, offset_of(context, source));
    Ok(Box::new(context.alloc, CoreStrategy::Build(pattern))?)
}

/// The core of a build.
#[cycle(walk)]
#[inline(never)]
pub(crate) fn build<'t>(
    context: &Context,
    source: &'t Pattern,
    scopes: &Scopes<'_, 't>,
    symbols: &mut Symbols,
) -> Result<Box<CoreStrategy>, AllocError>
    ensures { ReturnsCore result (strategy_at (layers_of scopes.now)
        (primary_core (arity_known context.now.signature.now)
        (trees.build (pattern_of source.now)))) }
{
    let count = applications(source)?;
    if count == 0 {
        let plain = build_of(context, source, scopes, symbols)?;
        return Ok(plain);
    }
    let names = successor(count)?;
    let inner = Scopes::Brought {
        count: names,
        outer: &*scopes,
    };
    let mut items = Vec::new(context.alloc);
    let mut next = 0;
    results_of(context, source, &inner, symbols, &mut next, &mut items)?;
    let last = build_of(context, source, &inner, symbols)?;
    let made = build_after(context.alloc, count, items, last)?;
    Ok(made)
}

/// Puts the items that give the results of the outermost `<..>` after the others.
#[cycle(walk)]
#[inline(never)]
fn results_of<'t>(
    context: &Context,
    source: &'t Pattern,
    scopes: &Scopes<'_, 't>,
    symbols: &mut Symbols,
    next: &mut usize,
    items: &mut Vec<CoreStrategy>,
) -> Result<(), AllocError>
    ensures items { OnOk result (map views.strategy_of items.new.items ≡
        map views.strategy_of items.old.items ++
        items_at (layers_of scopes.now)
        (results (arity_known context.now.signature.now) next.old (pattern_of source.now))) }
    ensures next { OnOk result (next.new ≡ next.old + applications (pattern_of source.now)) }
{
    match source {
        Pattern::Variable(_) | Pattern::Wildcard(_) | Pattern::Integer(_) | Pattern::Quoted(_) => {
            Ok(())
        }
        Pattern::Alias(_, part) | Pattern::Parenthesized(part) => {
            results_of(context, part, scopes, symbols, next, items)
        }
        Pattern::Application(_, parts) | Pattern::Tuple(parts) => {
            results_in(context, parts, scopes, symbols, next, items)
        }
        Pattern::List(elements, rest) => {
            results_in(context, elements, scopes, symbols, next, items)?;
            match rest {
                None => Ok(()),
                Some(rest) => results_of(context, rest, scopes, symbols, next, items),
            }
        }
        Pattern::Annotated(part, annotations) => {
            results_of(context, part, scopes, symbols, next, items)?;
            results_in(context, annotations, scopes, symbols, next, items)
        }
        Pattern::Applied(inner) => {
            let only = strategy(context, inner, scopes, symbols)?;
            put_result(scopes, only, next, items)
        }
        Pattern::AppliedTo(inner, part) => {
            let there = context.at(place_before(inner));
            let first = build(&there, part, scopes, symbols)?;
            let second = strategy(context, inner, scopes, symbols)?;
            put_result_of(scopes, first, second, next, items)
        }
    }
}

/// Puts the items that give the results of the outermost `<..>` in patterns after the others.
#[cycle(walk)]
#[inline(never)]
pub(crate) fn results_in<'t>(
    context: &Context,
    sources: &'t [Pattern],
    scopes: &Scopes<'_, 't>,
    symbols: &mut Symbols,
    next: &mut usize,
    items: &mut Vec<CoreStrategy>,
) -> Result<(), AllocError>
    ensures items { OnOk result (map views.strategy_of items.new.items ≡
        map views.strategy_of items.old.items ++
        items_at (layers_of scopes.now)
        (results_among (arity_known context.now.signature.now) next.old
        (patterns_of sources.now))) }
    ensures next { OnOk result (next.new ≡ next.old +
        applications_among (patterns_of sources.now)) }
{
    for source in sources {
        results_of(context, source, scopes, symbols, next, items)?;
    }
    Ok(())
}
