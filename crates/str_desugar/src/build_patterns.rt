//! What is built: patterns over coordinates, each outermost `<..>` by the name of its result.
ghost use Rattle.std.specs.Prelude.{◌≡◌, ◌+◌, IfOk, OnOk, map};
ghost use Rattle.core_lang.specs.Program as core;
ghost use Rattle.core_lang.specs.Views as views;
ghost use Rattle.str_syntax.specs.Views.{optional_pattern_of, pattern_of, patterns_of};
ghost use Rattle.str_desugar.specs.Equations as equations;
ghost use Rattle.str_desugar.specs.Frames.{pattern_at, patterns_at};
ghost use Rattle.str_desugar.specs.Layers.{built_rest_at, layers_of};
ghost use Rattle.term_model.specs.Results.{Returns};

use crate::parts::{successor, variable};
use crate::scopes::Scopes;
use crate::symbols::Symbols;
use core_lang::CorePattern;
use std::alloc::{AllocError, Global};
use str_syntax::Pattern;
use term_model::Sym;

/// How many `<..>` stand outermost in what is built. `Err` where that leaves 64 bits.
#[cycle(applications)]
pub(crate) fn applications(source: &Pattern) -> Result<usize, AllocError>
    ensures { Returns result (equations.applications (pattern_of source.now)) }
{
    match source {
        Pattern::Variable(_) | Pattern::Wildcard(_) | Pattern::Integer(_) | Pattern::Quoted(_) => {
            Ok(0)
        }
        Pattern::Alias(_, part) | Pattern::Parenthesized(part) => applications(part),
        Pattern::Application(_, parts) | Pattern::Tuple(parts) => applications_among(parts),
        Pattern::List(elements, rest) => {
            let among = applications_among(elements)?;
            let rest = applications_of_rest(rest)?;
            among.checked_add(rest).ok_or(AllocError)
        }
        Pattern::Annotated(part, annotations) => {
            let first = applications(part)?;
            let among = applications_among(annotations)?;
            first.checked_add(among).ok_or(AllocError)
        }
        Pattern::Applied(_) | Pattern::AppliedTo(_, _) => Ok(1),
    }
}

/// How many `<..>` stand outermost in patterns.
#[cycle(applications)]
pub(crate) fn applications_among(sources: &[Pattern]) -> Result<usize, AllocError>
    ensures { Returns result (equations.applications_among (patterns_of sources.now)) }
{
    let mut count = 0usize;
    for source in sources {
        let more = applications(source)?;
        count = count.checked_add(more).ok_or(AllocError)?;
    }
    Ok(count)
}

#[cycle(applications)]
fn applications_of_rest(source: &Option<Box<Pattern>>) -> Result<usize, AllocError>
    ensures { IfOk result (λ count. count ≡
        equations.applications_of_rest (optional_pattern_of source.now)) }
{
    match source {
        None => Ok(0),
        Some(rest) => applications(rest),
    }
}

/// The core of what is built, where this number of results comes before its own.
#[cycle(build_patterns)]
pub(crate) fn core_of_build(
    alloc: Global,
    source: &Pattern,
    scopes: &Scopes,
    symbols: &mut Symbols,
    next: &mut usize,
) -> Result<CorePattern, AllocError>
    ensures made { IfOk result (λ made. views.pattern_of made ≡
        pattern_at (layers_of scopes.now) (equations.built next.old (pattern_of source.now))) }
    ensures next { OnOk result (next.new ≡ next.old +
        equations.applications (pattern_of source.now)) }
{
    match source {
        Pattern::Variable(name) => {
            Ok(CorePattern::Variable(scopes.variable(symbols.hashing(), name)?))
        }
        Pattern::Wildcard(_) => Ok(CorePattern::Anything),
        Pattern::Alias(name, part) => {
            let name = scopes.variable(symbols.hashing(), name)?;
            let part = core_of_build(alloc, part, scopes, symbols, next)?;
            Ok(CorePattern::Alias(name, Box::new(alloc, part)?))
        }
        Pattern::Integer(value) => Ok(CorePattern::Integer(*value)),
        Pattern::Quoted(text) => {
            Ok(CorePattern::Applied(symbols.quoted_symbol(text)?, Vec::new(alloc)))
        }
        Pattern::Application(name, parts) => {
            let symbol = symbols.constructor(name)?;
            let parts = built_parts(alloc, parts, scopes, symbols, next)?;
            Ok(CorePattern::Applied(symbol, parts))
        }
        Pattern::Parenthesized(inner) => core_of_build(alloc, inner, scopes, symbols, next),
        Pattern::Tuple(parts) => {
            let parts = built_parts(alloc, parts, scopes, symbols, next)?;
            Ok(CorePattern::Applied(Sym::tuple(), parts))
        }
        Pattern::List(elements, rest) => {
            let elements = built_parts(alloc, elements, scopes, symbols, next)?;
            let rest = built_rest(alloc, rest, scopes, symbols, next)?;
            Ok(CorePattern::List(elements, rest))
        }
        Pattern::Annotated(part, annotations) => {
            let part = core_of_build(alloc, part, scopes, symbols, next)?;
            let annotations = built_parts(alloc, annotations, scopes, symbols, next)?;
            Ok(CorePattern::Annotated(Box::new(alloc, part)?, annotations))
        }
        Pattern::Applied(_) | Pattern::AppliedTo(_, _) => result(scopes, next),
    }
}

/// The variable of the next result.
fn result(scopes: &Scopes, next: &mut usize) -> Result<CorePattern, AllocError>
    ensures made { IfOk result (λ made. views.pattern_of made ≡
        pattern_at (layers_of scopes.now) (core.variable (equations.result_name next.old))) }
    ensures next { OnOk result (next.new ≡ next.old + 1) }
{
    *next = successor(*next)?;
    variable(scopes, *next)
}

/// The core of each of what is built.
#[cycle(build_patterns)]
pub(crate) fn built_parts(
    alloc: Global,
    sources: &[Pattern],
    scopes: &Scopes,
    symbols: &mut Symbols,
    next: &mut usize,
) -> Result<Vec<CorePattern>, AllocError>
    ensures made { IfOk result (λ made. views.patterns_of made.items ≡
        patterns_at (layers_of scopes.now)
        (equations.built_parts next.old (patterns_of sources.now))) }
    ensures next { OnOk result (next.new ≡ next.old +
        equations.applications_among (patterns_of sources.now)) }
{
    let mut made = Vec::with_capacity(alloc, sources.len())?;
    for source in sources {
        let part = core_of_build(alloc, source, scopes, symbols, next)?;
        made.push(part)?;
    }
    Ok(made)
}

#[cycle(build_patterns)]
fn built_rest(
    alloc: Global,
    source: &Option<Box<Pattern>>,
    scopes: &Scopes,
    symbols: &mut Symbols,
    next: &mut usize,
) -> Result<Option<Box<CorePattern>>, AllocError>
    ensures made { IfOk result (λ made. views.rest_of made ≡
        built_rest_at (layers_of scopes.now) next.old (optional_pattern_of source.now)) }
    ensures next { OnOk result (next.new ≡ next.old +
        equations.applications_of_rest (optional_pattern_of source.now)) }
{
    match source {
        None => Ok(None),
        Some(rest) => {
            let rest = core_of_build(alloc, rest, scopes, symbols, next)?;
            Ok(Some(Box::new(alloc, rest)?))
        }
    }
}
