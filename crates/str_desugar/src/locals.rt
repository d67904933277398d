//! Definitions inside strategies: `rec` and `let`.
ghost use Rattle.std.specs.Prelude.{◌≡◌, ℕ, Bool, List, IfOk, map};
ghost use Rattle.core_lang.specs.Named.{written};
ghost use Rattle.core_lang.specs.Program as core;
ghost use Rattle.core_lang.specs.Resolved.{here};
ghost use Rattle.core_lang.specs.Views as views;
ghost use Rattle.str_syntax.specs.Trees as trees;
ghost use Rattle.str_syntax.specs.Views.{definition_of, definitions_of, strategy_of};
ghost use Rattle.str_desugar.specs.Alternatives.{Alternative, definitions_of_all};
ghost use Rattle.str_desugar.specs.Equations.{alternative_core, alternatives, primary_core, strategy_core};
ghost use Rattle.str_desugar.specs.Frames.{callee_at, definitions_at, strategy_at};
ghost use Rattle.str_desugar.specs.Groups.{bodies_at, body_among, head_in, within};
ghost use Rattle.str_desugar.specs.Layers.{layers_of};
ghost use Rattle.signature_core.specs.Signature.{arity_known};
ghost use Rattle.str_syntax.specs.Trees.{Bytes};
ghost use Rattle.str_desugar.specs.Results.{ReturnsCore};

use crate::alternatives::Groups;
use crate::call::plain_call;
use crate::items::put;
use crate::names::{Names, names_in};
use crate::scopes::Scopes;
use crate::strategy::{Context, strategy};
use crate::symbols::Symbols;
use core_lang::{CoreDef, CoreStrategy};
use keyed_hash::HashKeys;
use std::alloc::{AllocError, Global};
use str_syntax::{Name, Strategy, StrategyDefinition};

/// The definition of this body without parameters, and a call of it.
#[inline(never)]
fn called_at_once(
    context: &Context,
    scopes: &Scopes,
    name: &Name,
    body: Box<CoreStrategy>,
) -> Result<Box<CoreStrategy>, AllocError>
    ensures { ReturnsCore result (core.with_definitions (core.more_definitions (here 0) 0 0
        (views.strategy_of body.value)
        core.no_definitions) (core.call (callee_at (layers_of scopes.now) (written name.now) 0 0)
        core.no_strategies core.no_patterns)) }
{
    let mut definitions = Vec::new(context.alloc);
    definitions.push(CoreDef {
        strats: 0,
        terms: 0,
        body: Box::into_inner(body),
    })?;
    let call = plain_call(context, scopes, name)?;
    let_in(context.alloc, definitions, call)
}

/// The core of a `rec`: a definition, and a call of it.
#[cycle(walk)]
#[inline(never)]
pub(crate) fn recursive<'t>(
    context: &Context,
    name: &Name,
    source: &'t Strategy,
    scopes: &Scopes<'_, 't>,
    symbols: &mut Symbols,
) -> Result<Box<CoreStrategy>, AllocError>
    ensures { ReturnsCore result (strategy_at (layers_of scopes.now)
        (primary_core (arity_known context.now.signature.now)
        (trees.recursive name.now (strategy_of source.now)))) }
{
    let layer = Scopes::Recursive {
        name: &*name,
        outer: &*scopes,
    };
    let none = Names::new(context.hashing);
    let inner = Scopes::Parameters {
        strategies: &none,
        terms: &none,
        outer: &layer,
    };
    let body = strategy(context, source, &inner, symbols)?;
    let made = called_at_once(context, &layer, name, body)?;
    Ok(made)
}

/// The alternatives of a `let`, in groups.
#[inline(never)]
pub(crate) fn groups_of(
    alloc: Global,
    hashing: HashKeys,
    sources: &[StrategyDefinition],
) -> Result<Groups<'_>, AllocError>
    ensures { IfOk result (λ made. (declared : Bytes → ℕ → Bool) →
        made ≡ map head_in (alternatives declared (definitions_of sources.now))) }
{
    let mut heads = Vec::with_capacity(alloc, sources.len())?;
    for source in sources {
        heads.push(&source.head)?;
    }
    let made = Groups::new(alloc, hashing, heads)?;
    Ok(made)
}

/// The definitions of a `let`, where these are the groups of its alternatives.
#[cycle(walk)]
#[inline(never)]
pub(crate) fn let_definitions<'t>(
    context: &Context,
    sources: &'t [StrategyDefinition],
    groups: &Groups<'t>,
    scopes: &Scopes<'_, 't>,
    symbols: &mut Symbols,
) -> Result<Vec<CoreDef>, AllocError>
    requires { groups.now ≡ map head_in
        (alternatives (arity_known context.now.signature.now) (definitions_of sources.now)) }
    ensures { IfOk result (λ made. views.definitions_of made.items ≡
        definitions_at (within (alternatives (arity_known context.now.signature.now)
        (definitions_of sources.now)) (layers_of scopes.now))
        (definitions_of_all (alternatives (arity_known context.now.signature.now)
        (definitions_of sources.now)))) }
{
    let inner = Scopes::Defined {
        keys: groups.keys(),
        outer: &*scopes,
    };
    let each = bodies(context, sources, groups, &inner, symbols)?;
    let made = groups.join(context.alloc, each)?;
    Ok(made)
}

/// The body of a `let`, where these are the groups of its alternatives.
#[cycle(walk)]
#[inline(never)]
pub(crate) fn let_body<'t>(
    context: &Context,
    source: &'t Strategy,
    groups: &Groups<'t>,
    scopes: &Scopes<'_, 't>,
    symbols: &mut Symbols,
) -> Result<Box<CoreStrategy>, AllocError>
    ensures { IfOk result (λ made. (all : List Alternative) → map head_in all ≡ groups.now →
        views.strategy_of made.value ≡
        strategy_at (within all (layers_of scopes.now))
        (strategy_core (arity_known context.now.signature.now) (strategy_of source.now))) }
{
    let inner = Scopes::Defined {
        keys: groups.keys(),
        outer: &*scopes,
    };
    let made = strategy(context, source, &inner, symbols)?;
    Ok(made)
}

/// The body under the definitions.
#[inline(never)]
pub(crate) fn let_in(
    alloc: Global,
    definitions: Vec<CoreDef>,
    body: Box<CoreStrategy>,
) -> Result<Box<CoreStrategy>, AllocError>
    ensures { ReturnsCore result (core.with_definitions (views.definitions_of definitions.items)
        (views.strategy_of body.value)) }
{
    Ok(Box::new(alloc, CoreStrategy::LetIn(definitions, body))?)
}

/// The bodies of the alternatives of a `let`, each with the parameters of the first of its definition.
#[cycle(walk)]
#[inline(never)]
fn bodies<'t>(
    context: &Context,
    sources: &'t [StrategyDefinition],
    groups: &Groups<'t>,
    scopes: &Scopes<'_, 't>,
    symbols: &mut Symbols,
) -> Result<Vec<CoreStrategy>, AllocError>
    requires { groups.now ≡ map head_in
        (alternatives (arity_known context.now.signature.now) (definitions_of sources.now)) }
    ensures { IfOk result (λ made. map views.strategy_of made.items ≡
        bodies_at (layers_of scopes.now)
        (alternatives (arity_known context.now.signature.now) (definitions_of sources.now))) }
{
    let mut made = Vec::with_capacity(context.alloc, sources.len())?;
    for source in sources {
        let body = alternative(context, source, groups, scopes, symbols)?;
        put(body, &mut made)?;
    }
    Ok(made)
}

/// The body of an alternative.
#[cycle(walk)]
#[inline(never)]
fn alternative<'t>(
    context: &Context,
    source: &'t StrategyDefinition,
    groups: &Groups<'t>,
    scopes: &Scopes<'_, 't>,
    symbols: &mut Symbols,
) -> Result<Box<CoreStrategy>, AllocError>
    ensures { ReturnsCore result (body_among (layers_of scopes.now)
        groups.now (alternative_core (arity_known context.now.signature.now)
        (definition_of source.now))) }
{
    let first = groups.first_of(&source.head);
    let strategies = names_in(
        context.alloc,
        context.hashing,
        first.parameters.strategy_names(),
    )?;
    let terms = names_in(
        context.alloc,
        context.hashing,
        first.parameters.term_names(),
    )?;
    let inner = Scopes::Parameters {
        strategies: &strategies,
        terms: &terms,
        outer: &*scopes,
    };
    let made = strategy(context, &source.body, &inner, symbols)?;
    Ok(made)
}
