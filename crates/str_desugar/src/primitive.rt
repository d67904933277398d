//! Calls of primitives.
ghost use Rattle.core_lang.specs.Program as core;
ghost use Rattle.core_lang.specs.Views as views;
ghost use Rattle.str_syntax.specs.Trees as trees;
ghost use Rattle.str_syntax.specs.Views.{patterns_of};
ghost use Rattle.str_desugar.specs.Equations.{built_parts, primary_core};
ghost use Rattle.str_desugar.specs.Frames.{strategy_at};
ghost use Rattle.str_desugar.specs.Layers.{layers_of};
ghost use Rattle.signature_core.specs.Signature.{arity_known};
ghost use Rattle.str_desugar.specs.Results.{ReturnsCore};

use crate::build::results_in;
use crate::build_patterns::{applications_among, built_parts};
use crate::items::call_after;
use crate::parts::successor;
use crate::scopes::Scopes;
use crate::strategy::Context;
use crate::symbols::Symbols;
use core_lang::CoreStrategy;
use std::alloc::AllocError;
use str_syntax::{Pattern, Text};

/// The call itself, in the layers that have the results for its arguments.
#[inline(never)]
fn call_with_results(
    context: &Context,
    name: &Text,
    terms: &[Pattern],
    scopes: &Scopes,
    symbols: &mut Symbols,
) -> Result<Box<CoreStrategy>, AllocError>
    ensures { ReturnsCore result (strategy_at (layers_of scopes.now)
        (core.primitive name.now (built_parts 0 (patterns_of terms.now)))) }
{
    let mut next = 0;
    let terms = built_parts(context.alloc, terms, scopes, symbols, &mut next)?;
    let name = Vec::from_slice(context.alloc, name.bytes())?;
    Ok(Box::new(context.alloc, CoreStrategy::Primitive(name, terms))?)
}

/// The core of a call of a primitive.
#[cycle(walk)]
#[inline(never)]
pub(crate) fn primitive<'t>(
    context: &Context,
    name: &Text,
    terms: &'t [Pattern],
    scopes: &Scopes<'_, 't>,
    symbols: &mut Symbols,
) -> Result<Box<CoreStrategy>, AllocError>
    ensures { ReturnsCore result (strategy_at (layers_of scopes.now)
        (primary_core (arity_known context.now.signature.now)
        (trees.primitive name.now (patterns_of terms.now)))) }
{
    let count = applications_among(terms)?;
    if count == 0 {
        let plain = call_with_results(context, name, terms, scopes, symbols)?;
        return Ok(plain);
    }
    let names = successor(count)?;
    let inner = Scopes::Brought {
        count: names,
        outer: &*scopes,
    };
    let mut items = Vec::new(context.alloc);
    let mut next = 0;
    results_in(context, terms, &inner, symbols, &mut next, &mut items)?;
    let last = call_with_results(context, name, terms, &inner, symbols)?;
    let made = call_after(context.alloc, &inner, count, items, last)?;
    Ok(made)
}
