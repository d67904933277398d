//! Patterns as a run uses them, with the space's names in place of symbols.
ghost use Rattle.std.specs.Prelude.{IfOk, map};
ghost use Rattle.core_lang.specs.Views.{pattern_of, rest_of};
ghost use Rattle.term_model.specs.Space.{Keeps, MakesNone};
ghost use Rattle.strat_patterns.specs.Loaded.{IsLoaded, AreLoaded, IsLoadedRest};

use core_lang::{Coordinate, CorePattern};
use std::alloc::{AllocError, Global};
use term_model::TermSpace;

/// A pattern of a core program, with names of a space in place of symbols.
#[derive(Drop)]
pub enum LoadedPattern<N> {
    Anything,
    Variable(Coordinate),
    Alias(Coordinate, Box<LoadedPattern<N>>),
    Integer(i64),
    Applied(N, Vec<LoadedPattern<N>>),
    List(Vec<LoadedPattern<N>>, Option<Box<LoadedPattern<N>>>),
    Like(Box<LoadedPattern<N>>, Coordinate),
    Annotated(Box<LoadedPattern<N>>, Vec<LoadedPattern<N>>),
}

/// Loads a pattern: its symbols become names of the space, which makes no term for them.
///
/// # Errors
///
/// Returns an error if there is no memory. Some of the names may then be known to the space; the terms of its references stay as they are.
#[cycle(load)]
pub fn load_pattern<S: TermSpace>(
    space: &mut S,
    alloc: Global,
    pattern: &CorePattern,
) -> Result<LoadedPattern<S::Name>, AllocError>
    ensures keeps { Keeps S.space space.old space.new }
    ensures none { MakesNone S.space space.old space.new }
    ensures loaded { IfOk result (λ p. IsLoaded (S.space.knows space.new)
        (S.space.symbol_of space.new) p (pattern_of pattern.now)) }
{
    match pattern {
        CorePattern::Anything => Ok(LoadedPattern::Anything),
        CorePattern::Variable(x) => Ok(LoadedPattern::Variable(*x)),
        CorePattern::Alias(x, part) => {
            let part = load_boxed(space, alloc, part)?;
            Ok(LoadedPattern::Alias(*x, part))
        }
        CorePattern::Integer(value) => Ok(LoadedPattern::Integer(*value)),
        CorePattern::Applied(symbol, parts) => {
            let name = space.name(alloc, symbol)?;
            let parts = load_patterns(space, alloc, parts)?;
            Ok(LoadedPattern::Applied(name, parts))
        }
        CorePattern::List(elements, rest) => {
            let elements = load_patterns(space, alloc, elements)?;
            let rest = load_rest(space, alloc, rest)?;
            Ok(LoadedPattern::List(elements, rest))
        }
        CorePattern::Like(part, x) => {
            let part = load_boxed(space, alloc, part)?;
            Ok(LoadedPattern::Like(part, *x))
        }
        CorePattern::Annotated(part, annotations) => {
            let part = load_boxed(space, alloc, part)?;
            let annotations = load_patterns(space, alloc, annotations)?;
            Ok(LoadedPattern::Annotated(part, annotations))
        }
    }
}

#[cycle(load)]
fn load_boxed<S: TermSpace>(
    space: &mut S,
    alloc: Global,
    pattern: &CorePattern,
) -> Result<Box<LoadedPattern<S::Name>>, AllocError>
    ensures keeps { Keeps S.space space.old space.new }
    ensures none { MakesNone S.space space.old space.new }
    ensures loaded { IfOk result (λ p. IsLoaded (S.space.knows space.new)
        (S.space.symbol_of space.new) p.value (pattern_of pattern.now)) }
{
    let loaded = load_pattern(space, alloc, pattern)?;
    Ok(Box::new(alloc, loaded)?)
}

#[cycle(load)]
fn load_rest<S: TermSpace>(
    space: &mut S,
    alloc: Global,
    rest: &Option<Box<CorePattern>>,
) -> Result<Option<Box<LoadedPattern<S::Name>>>, AllocError>
    ensures keeps { Keeps S.space space.old space.new }
    ensures none { MakesNone S.space space.old space.new }
    ensures loaded { IfOk result (λ r. IsLoadedRest (S.space.knows space.new)
        (S.space.symbol_of space.new) r (rest_of rest.now)) }
{
    match rest {
        None => Ok(None),
        Some(p) => {
            let boxed = load_boxed(space, alloc, p)?;
            Ok(Some(boxed))
        }
    }
}

/// Loads several patterns, as `load_pattern` does.
///
/// # Errors
///
/// Returns an error if there is no memory, as `load_pattern` does.
#[cycle(load)]
pub fn load_patterns<S: TermSpace>(
    space: &mut S,
    alloc: Global,
    patterns: &[CorePattern],
) -> Result<Vec<LoadedPattern<S::Name>>, AllocError>
    ensures keeps { Keeps S.space space.old space.new }
    ensures none { MakesNone S.space space.old space.new }
    ensures loaded { IfOk result (λ ps. AreLoaded (S.space.knows space.new)
        (S.space.symbol_of space.new) ps.items (map pattern_of patterns.now)) }
{
    let mut loaded = Vec::new(alloc);
    for p in patterns {
        loaded.push(load_pattern(space, alloc, p)?)?;
    }
    Ok(loaded)
}
