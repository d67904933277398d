//! Patterns with coordinates by frames.
ghost use Rattle.std.specs.Prelude.{◌≡◌, IfOk, map};
ghost use Rattle.core_lang.specs.Views.{pattern_of, patterns_of, rest_of};
ghost use Rattle.strat_code.specs.Context.{by_frames};
ghost use Rattle.strat_code.specs.Renamed.{renamed, all_renamed};
ghost use Rattle.strat_compile.specs.Layers.{context_of, renamed_rest};

use crate::layers::{Layers, frame_coordinate};
use core_lang::CorePattern;
use std::alloc::{AllocError, Global};

/// A copy of the pattern with coordinates by frames.
#[cycle(patterns)]
pub(crate) fn by_frames_pattern(
    alloc: Global,
    source: &CorePattern,
    layers: &Layers,
) -> Result<CorePattern, AllocError>
    ensures { IfOk result (λ made. pattern_of made ≡
        renamed (by_frames (context_of layers.now)) (pattern_of source.now)) }
{
    match source {
        CorePattern::Anything => Ok(CorePattern::Anything),
        CorePattern::Variable(x) => Ok(CorePattern::Variable(frame_coordinate(layers, *x)?)),
        CorePattern::Alias(x, part) => {
            let x = frame_coordinate(layers, *x)?;
            Ok(CorePattern::Alias(x, boxed_pattern(alloc, part, layers)?))
        }
        CorePattern::Integer(value) => Ok(CorePattern::Integer(*value)),
        CorePattern::Applied(symbol, parts) => {
            let parts = by_frames_patterns(alloc, parts, layers)?;
            Ok(CorePattern::Applied(symbol.clone()?, parts))
        }
        CorePattern::List(elements, rest) => {
            let elements = by_frames_patterns(alloc, elements, layers)?;
            Ok(CorePattern::List(elements, optional(alloc, rest, layers)?))
        }
        CorePattern::Like(part, x) => {
            let x = frame_coordinate(layers, *x)?;
            Ok(CorePattern::Like(boxed_pattern(alloc, part, layers)?, x))
        }
        CorePattern::Annotated(part, annotations) => {
            let annotations = by_frames_patterns(alloc, annotations, layers)?;
            Ok(CorePattern::Annotated(boxed_pattern(alloc, part, layers)?, annotations))
        }
    }
}

#[cycle(patterns)]
fn boxed_pattern(
    alloc: Global,
    source: &CorePattern,
    layers: &Layers,
) -> Result<Box<CorePattern>, AllocError>
    ensures { IfOk result (λ made. pattern_of made.value ≡
        renamed (by_frames (context_of layers.now)) (pattern_of source.now)) }
{
    Ok(Box::new(alloc, by_frames_pattern(alloc, source, layers)?)?)
}

#[cycle(patterns)]
fn optional(
    alloc: Global,
    source: &Option<Box<CorePattern>>,
    layers: &Layers,
) -> Result<Option<Box<CorePattern>>, AllocError>
    ensures { IfOk result (λ made. rest_of made ≡
        renamed_rest (context_of layers.now) (rest_of source.now)) }
{
    match source {
        None => Ok(None),
        Some(p) => Ok(Some(boxed_pattern(alloc, p, layers)?)),
    }
}

/// Copies of the patterns with coordinates by frames.
#[cycle(patterns)]
pub(crate) fn by_frames_patterns(
    alloc: Global,
    source: &[CorePattern],
    layers: &Layers,
) -> Result<Vec<CorePattern>, AllocError>
    ensures each { IfOk result (λ made. map pattern_of made.items ≡
        map (renamed (by_frames (context_of layers.now))) (map pattern_of source.now)) }
    ensures patterns { IfOk result (λ made. patterns_of made.items ≡
        all_renamed (by_frames (context_of layers.now)) (patterns_of source.now)) }
{
    let mut made = Vec::with_capacity(alloc, source.len())?;
    for p in source {
        let pattern = by_frames_pattern(alloc, p, layers)?;
        made.push(pattern)?;
    }
    Ok(made)
}
