//! The walk over strategies, which recurses along the nesting of a file alone. So that a level takes little of the call stack, what is
//! made is held in boxes, and neither a function of the walk nor one that makes a form is inlined in another.
ghost use Rattle.std.specs.Prelude.{◌≡◌};
ghost use Rattle.core_lang.specs.Program as core;
ghost use Rattle.core_lang.specs.Views as views;
ghost use Rattle.str_syntax.specs.Trees as trees;
ghost use Rattle.str_syntax.specs.Views.{optional_strategy_of, pattern_of, primary_of, sequence_of, step_of, strategy_of};
ghost use Rattle.str_desugar.specs.Equations as equations;
ghost use Rattle.str_desugar.specs.Equations.{strategy_core, sequence_core, step_core, primary_core, otherwise_core, where_core};
ghost use Rattle.str_desugar.specs.Frames.{strategy_at};
ghost use Rattle.str_desugar.specs.Layers.{layers_of};
ghost use Rattle.signature_core.specs.Signature.{arity_known};
ghost use Rattle.str_desugar.specs.Results.{ReturnsCore};

use crate::assembly::{
    choice, failure, identity, left_choice, negation, on_all, on_one, on_some, scope_of, seq,
    where_of,
};
use crate::build::build;
use crate::call::call;
use crate::congruence::{
    elements_congruence, items_before_rest, number_of, rest_congruence, symbol_congruence,
};
use crate::locals::{groups_of, let_body, let_definitions, let_in, recursive};
use crate::match_patterns::core_of_match;
use crate::names::names_in;
use crate::offsets::offset_of;
use crate::primitive::primitive;
use crate::rules::lambda;
use crate::scopes::Scopes;
use crate::symbols::Symbols;
use core_lang::{CoreStrategy, SourcePattern};
use keyed_hash::HashKeys;
use signature_core::Signature;
use std::alloc::{AllocError, Global};
use str_syntax::{Name, Operator, Pattern, Primary, Sequence, Step, Strategy};
use term_model::Sym;

/// What the walk over a rule or definition of the file needs.
#[derive(Clone, Copy)]
pub(crate) struct Context<'a> {
    pub(crate) alloc: Global,
    pub(crate) signature: &'a Signature,
    /// The keys of tables of names.
    pub(crate) hashing: HashKeys,
    /// The byte of the file at which the step or pattern begins or, of a rule at the top of the file, its name.
    pub(crate) place: u64,
}

impl<'a> Context<'a> {
    /// The same for what begins at this byte.
    pub(crate) fn at(&self, place: u64) -> Context<'a>
        ensures { result.signature ≡ self.now.signature }
    {
        Context { place, ..*self }
    }
}

/// The core of a strategy.
#[cycle(walk)]
pub(crate) fn strategy<'t>(
    context: &Context,
    source: &'t Strategy,
    scopes: &Scopes<'_, 't>,
    symbols: &mut Symbols,
) -> Result<Box<CoreStrategy>, AllocError>
    ensures { ReturnsCore result (strategy_at (layers_of scopes.now)
        (strategy_core (arity_known context.now.signature.now) (strategy_of source.now))) }
{
    match source {
        Strategy::Sequence(only) => sequence(context, only, scopes, symbols),
        Strategy::LeftChoice(first, others) => {
            let guard = sequence(context, first, scopes, symbols)?;
            let otherwise = strategy(context, others, scopes, symbols)?;
            left_choice(context.alloc, guard, otherwise)
        }
        Strategy::GuardedChoice(first, second, third) => {
            let guard = sequence(context, first, scopes, symbols)?;
            let then = strategy(context, second, scopes, symbols)?;
            let otherwise = strategy(context, third, scopes, symbols)?;
            choice(context.alloc, guard, then, otherwise)
        }
    }
}

#[cycle(walk)]
#[inline(never)]
fn sequence<'t>(
    context: &Context,
    source: &'t Sequence,
    scopes: &Scopes<'_, 't>,
    symbols: &mut Symbols,
) -> Result<Box<CoreStrategy>, AllocError>
    ensures { ReturnsCore result (strategy_at (layers_of scopes.now)
        (sequence_core (arity_known context.now.signature.now) (sequence_of source.now))) }
{
    match source {
        Sequence::Last(only) => step(context, only, scopes, symbols),
        Sequence::Then(first, others) => {
            let first = step(context, first, scopes, symbols)?;
            let second = sequence(context, others, scopes, symbols)?;
            seq(context.alloc, first, second)
        }
    }
}

#[cycle(walk)]
#[inline(never)]
fn step<'t>(
    context: &Context,
    source: &'t Step,
    scopes: &Scopes<'_, 't>,
    symbols: &mut Symbols,
) -> Result<Box<CoreStrategy>, AllocError>
    ensures { ReturnsCore result (strategy_at (layers_of scopes.now)
        (step_core (arity_known context.now.signature.now) (step_of source.now))) }
{
    match source {
        Step::Plain(at, only) => primary(&context.at(*at), only, scopes, symbols),
        Step::Matching(at, first, there, pattern) => {
            let first = primary(&context.at(*at), first, scopes, symbols)?;
            let second = match_of(&context.at(*there), pattern, scopes, symbols)?;
            seq(context.alloc, first, second)
        }
    }
}

/// The core of a match.
#[inline(never)]
pub(crate) fn match_of(
    context: &Context,
    source: &Pattern,
    scopes: &Scopes,
    symbols: &mut Symbols,
) -> Result<Box<CoreStrategy>, AllocError>
    ensures { ReturnsCore result (strategy_at (layers_of scopes.now) (core.match (equations.matched
        (pattern_of source.now)))) }
{
    let pattern = core_of_match(context.alloc, source, scopes, symbols)?;
    let pattern = SourcePattern::new(pattern, offset_of(context, source));
    Ok(Box::new(context.alloc, CoreStrategy::Match(pattern))?)
}

#[cycle(walk)]
#[inline(never)]
fn primary<'t>(
    context: &Context,
    source: &'t Primary,
    scopes: &Scopes<'_, 't>,
    symbols: &mut Symbols,
) -> Result<Box<CoreStrategy>, AllocError>
    ensures { ReturnsCore result (strategy_at (layers_of scopes.now)
        (primary_core (arity_known context.now.signature.now) (primary_of source.now))) }
{
    match source {
        Primary::Id => identity(context.alloc),
        Primary::Fail => failure(context.alloc),
        Primary::Match(pattern) => match_of(context, pattern, scopes, symbols),
        Primary::Build(pattern) => build(context, pattern, scopes, symbols),
        Primary::Apply(after, pattern) => {
            let first = build(context, pattern, scopes, symbols)?;
            let second = strategy(context, after, scopes, symbols)?;
            seq(context.alloc, first, second)
        }
        Primary::Parenthesized(inner) => strategy(context, inner, scopes, symbols),
        Primary::Scope(names, body) => scope(context, names, body, scopes, symbols),
        Primary::Operator(kind, inner) => operator(context, *kind, inner, scopes, symbols),
        Primary::If(guard, then, otherwise) => {
            let guard = where_at(context, guard, scopes, symbols)?;
            let then = strategy(context, then, scopes, symbols)?;
            let otherwise = otherwise_of(context, otherwise, scopes, symbols)?;
            choice(context.alloc, guard, then, otherwise)
        }
        Primary::TupleCongruence(parts) => {
            symbol_congruence(context, context.place, Sym::tuple(), parts, scopes, symbols)
        }
        Primary::ListCongruence(elements, rest) => match rest {
            None => elements_congruence(context, elements, scopes, symbols),
            Some(rest) => {
                let items = items_before_rest(context, elements, scopes, symbols)?;
                let count = number_of(elements);
                let made = rest_congruence(context, rest, count, items, scopes, symbols)?;
                Ok(made)
            }
        },
        Primary::Call(name, arguments) => call(context, name, arguments, scopes, symbols),
        Primary::Recursive(name, body) => recursive(context, name, body, scopes, symbols),
        Primary::Lambda(rule) => lambda(context, rule, scopes, symbols),
        Primary::Let(definitions, body) => {
            let groups = groups_of(context.alloc, context.hashing, definitions)?;
            let made = let_definitions(context, definitions, &groups, scopes, symbols)?;
            let body = let_body(context, body, &groups, scopes, symbols)?;
            let_in(context.alloc, made, body)
        }
        Primary::Primitive(name, terms) => primitive(context, name, terms, scopes, symbols),
    }
}

#[cycle(walk)]
#[inline(never)]
fn scope<'t>(
    context: &Context,
    names: &[Name],
    source: &'t Strategy,
    scopes: &Scopes<'_, 't>,
    symbols: &mut Symbols,
) -> Result<Box<CoreStrategy>, AllocError>
    ensures { ReturnsCore result (strategy_at (layers_of scopes.now)
        (primary_core (arity_known context.now.signature.now)
        (trees.scope names.now (strategy_of source.now)))) }
{
    let alloc = context.alloc;
    let variables = names_in(alloc, context.hashing, names)?;
    let inner = Scopes::Variables {
        names: &variables,
        outer: &*scopes,
    };
    let body = strategy(context, source, &inner, symbols)?;
    let made = scope_of(alloc, names.len(), body)?;
    Ok(made)
}

#[cycle(walk)]
#[inline(never)]
fn operator<'t>(
    context: &Context,
    kind: Operator,
    source: &'t Strategy,
    scopes: &Scopes<'_, 't>,
    symbols: &mut Symbols,
) -> Result<Box<CoreStrategy>, AllocError>
    ensures { ReturnsCore result (strategy_at (layers_of scopes.now)
        (primary_core (arity_known context.now.signature.now)
        (trees.operator kind (strategy_of source.now)))) }
{
    if let Operator::Where = kind {
        return where_at(context, source, scopes, symbols);
    }
    let inner = strategy(context, source, scopes, symbols)?;
    let alloc = context.alloc;
    match kind {
        Operator::Where => where_of(alloc, inner),
        Operator::Not => negation(alloc, inner),
        Operator::All => on_all(alloc, inner),
        Operator::One => on_one(alloc, inner),
        Operator::Some => on_some(alloc, inner),
    }
}

/// The strategy on the current term, which it leaves as it is.
#[cycle(walk)]
#[inline(never)]
pub(crate) fn where_at<'t>(
    context: &Context,
    source: &'t Strategy,
    scopes: &Scopes<'_, 't>,
    symbols: &mut Symbols,
) -> Result<Box<CoreStrategy>, AllocError>
    ensures { ReturnsCore result (strategy_at (layers_of scopes.now)
        (where_core (strategy_core (arity_known context.now.signature.now)
        (strategy_of source.now)))) }
{
    let layer = Scopes::Brought {
        count: 1,
        outer: &*scopes,
    };
    let body = strategy(context, source, &layer, symbols)?;
    where_of(context.alloc, body)
}

#[cycle(walk)]
fn otherwise_of<'t>(
    context: &Context,
    source: &'t Option<Box<Strategy>>,
    scopes: &Scopes<'_, 't>,
    symbols: &mut Symbols,
) -> Result<Box<CoreStrategy>, AllocError>
    ensures { ReturnsCore result (strategy_at (layers_of scopes.now)
        (otherwise_core (arity_known context.now.signature.now)
        (optional_strategy_of source.now))) }
{
    match source {
        None => identity(context.alloc),
        Some(other) => strategy(context, other, scopes, symbols),
    }
}
