//! What is matched: patterns over coordinates.
ghost use Rattle.std.specs.Prelude.{◌≡◌, IfOk};
ghost use Rattle.core_lang.specs.Views as views;
ghost use Rattle.str_syntax.specs.Views.{optional_pattern_of, pattern_of, patterns_of};
ghost use Rattle.str_desugar.specs.Equations as equations;
ghost use Rattle.str_desugar.specs.Frames.{pattern_at, patterns_at};
ghost use Rattle.str_desugar.specs.Layers.{layers_of, rest_at};

use crate::scopes::Scopes;
use crate::symbols::Symbols;
use core_lang::CorePattern;
use std::alloc::{AllocError, Global};
use str_syntax::Pattern;
use term_model::Sym;

/// The core of a pattern that is matched.
#[cycle(match_patterns)]
pub(crate) fn core_of_match(
    alloc: Global,
    source: &Pattern,
    scopes: &Scopes,
    symbols: &mut Symbols,
) -> Result<CorePattern, AllocError>
    ensures { IfOk result (λ made. views.pattern_of made ≡
        pattern_at (layers_of scopes.now) (equations.matched (pattern_of source.now))) }
{
    match source {
        Pattern::Variable(name) => {
            Ok(CorePattern::Variable(scopes.variable(symbols.hashing(), name)?))
        }
        Pattern::Alias(name, part) => {
            let name = scopes.variable(symbols.hashing(), name)?;
            let part = core_of_match(alloc, part, scopes, symbols)?;
            Ok(CorePattern::Alias(name, Box::new(alloc, part)?))
        }
        Pattern::Integer(value) => Ok(CorePattern::Integer(*value)),
        Pattern::Quoted(text) => {
            Ok(CorePattern::Applied(symbols.quoted_symbol(text)?, Vec::new(alloc)))
        }
        Pattern::Application(name, parts) => {
            let parts = matched_parts(alloc, parts, scopes, symbols)?;
            Ok(CorePattern::Applied(symbols.constructor(name)?, parts))
        }
        Pattern::Parenthesized(inner) => core_of_match(alloc, inner, scopes, symbols),
        Pattern::Tuple(parts) => {
            let parts = matched_parts(alloc, parts, scopes, symbols)?;
            Ok(CorePattern::Applied(Sym::tuple(), parts))
        }
        Pattern::List(elements, rest) => {
            let elements = matched_parts(alloc, elements, scopes, symbols)?;
            let rest = matched_rest(alloc, rest, scopes, symbols)?;
            Ok(CorePattern::List(elements, rest))
        }
        Pattern::Annotated(part, annotations) => {
            let part = core_of_match(alloc, part, scopes, symbols)?;
            let annotations = matched_parts(alloc, annotations, scopes, symbols)?;
            Ok(CorePattern::Annotated(Box::new(alloc, part)?, annotations))
        }
        // No match of a file applies a strategy.
        Pattern::Wildcard(_) | Pattern::Applied(_) | Pattern::AppliedTo(_, _) => {
            Ok(CorePattern::Anything)
        }
    }
}

#[cycle(match_patterns)]
fn matched_parts(
    alloc: Global,
    sources: &[Pattern],
    scopes: &Scopes,
    symbols: &mut Symbols,
) -> Result<Vec<CorePattern>, AllocError>
    ensures { IfOk result (λ made. views.patterns_of made.items ≡
        patterns_at (layers_of scopes.now) (equations.matched_parts (patterns_of sources.now))) }
{
    let mut made = Vec::with_capacity(alloc, sources.len())?;
    for source in sources {
        let part = core_of_match(alloc, source, scopes, symbols)?;
        made.push(part)?;
    }
    Ok(made)
}

#[cycle(match_patterns)]
fn matched_rest(
    alloc: Global,
    source: &Option<Box<Pattern>>,
    scopes: &Scopes,
    symbols: &mut Symbols,
) -> Result<Option<Box<CorePattern>>, AllocError>
    ensures { IfOk result (λ made. views.rest_of made ≡
        rest_at (layers_of scopes.now) (optional_pattern_of source.now)) }
{
    match source {
        None => Ok(None),
        Some(rest) => {
            let rest = core_of_match(alloc, rest, scopes, symbols)?;
            Ok(Some(Box::new(alloc, rest)?))
        }
    }
}
