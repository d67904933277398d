//! Rules: a match, the condition if there is one, and a build.
ghost use Rattle.core_lang.specs.Views as views;
ghost use Rattle.str_syntax.specs.Trees as trees;
ghost use Rattle.str_syntax.specs.Views.{rule_of};
ghost use Rattle.str_desugar.specs.Equations.{primary_core, rule_core, scoped};
ghost use Rattle.str_desugar.specs.Frames.{strategy_at};
ghost use Rattle.str_desugar.specs.Layers.{layers_of};
ghost use Rattle.signature_core.specs.Signature.{arity_known};
ghost use Rattle.str_desugar.specs.Results.{ReturnsCore};

use crate::assembly::{scope_of, seq};
use crate::build::build;
use crate::names::Names;
use crate::scopes::Scopes;
use crate::strategy::{Context, match_of, where_at};
use crate::symbols::Symbols;
use crate::variables::left_variables;
use core_lang::CoreStrategy;
use std::alloc::AllocError;
use str_syntax::Rule;

/// The core of a rule, whose variables stand in the layers around it.
#[cycle(walk)]
#[inline(never)]
fn rule<'t>(
    context: &Context,
    source: &'t Rule,
    scopes: &Scopes<'_, 't>,
    symbols: &mut Symbols,
) -> Result<Box<CoreStrategy>, AllocError>
    ensures { ReturnsCore result (strategy_at (layers_of scopes.now)
        (rule_core (arity_known context.now.signature.now) (rule_of source.now))) }
{
    let alloc = context.alloc;
    let first = match_of(context, &source.left, scopes, symbols)?;
    let last = build(context, &source.right, scopes, symbols)?;
    match &source.condition {
        None => {
            let both = seq(alloc, first, last)?;
            Ok(both)
        }
        Some(condition) => {
            let middle = where_at(context, condition, scopes, symbols)?;
            let others = seq(alloc, middle, last)?;
            let made = seq(alloc, first, others)?;
            Ok(made)
        }
    }
}

/// The core of a rule in a scope of these variables, if there are any.
#[cycle(walk)]
#[inline(never)]
pub(crate) fn scoped_rule<'t>(
    context: &Context,
    names: &Names,
    source: &'t Rule,
    scopes: &Scopes<'_, 't>,
    symbols: &mut Symbols,
) -> Result<Box<CoreStrategy>, AllocError>
    ensures { ReturnsCore result (strategy_at (layers_of scopes.now)
        (scoped names.now (rule_core (arity_known context.now.signature.now)
        (rule_of source.now)))) }
{
    let count = names.len();
    if count == 0 {
        let only = rule(context, source, scopes, symbols)?;
        return Ok(only);
    }
    let inner = Scopes::Variables {
        names: &*names,
        outer: &*scopes,
    };
    let body = rule(context, source, &inner, symbols)?;
    let made = scope_of(context.alloc, count, body)?;
    Ok(made)
}

/// The core of a rule in backslashes, which binds the variables of its left side.
#[cycle(walk)]
#[inline(never)]
pub(crate) fn lambda<'t>(
    context: &Context,
    source: &'t Rule,
    scopes: &Scopes<'_, 't>,
    symbols: &mut Symbols,
) -> Result<Box<CoreStrategy>, AllocError>
    ensures { ReturnsCore result (strategy_at (layers_of scopes.now)
        (primary_core (arity_known context.now.signature.now) (trees.lambda
        (rule_of source.now)))) }
{
    let names = left_variables(context.alloc, context.hashing, source)?;
    let made = scoped_rule(context, &names, source, scopes, symbols)?;
    Ok(made)
}
