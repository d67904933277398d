//! The layers that a strategy sees, linked on the stack, and where its variables are.
ghost use Rattle.std.specs.Prelude.{◌≡◌, ◌<◌, MatchOption, None, Some};
ghost use Rattle.core_lang.specs.Resolved.{layers_up, by_coordinates};
ghost use Rattle.core_lang.specs.Building.{value_in};
ghost use Rattle.core_eval.specs.Frame.{environment_of, IsPast, variable_place};

use core_lang::{Coordinate, CoreDef, CoreStrategy};
use term_model::Term;

/// The layers that a strategy sees, innermost first.
#[cycle(frame)]
#[derive(Clone, Copy)]
pub enum Frame<'a> {
    /// No layer.
    Outermost,
    /// The definitions of the program, or of a let.
    Definitions {
        defs: &'a [CoreDef],
        outer: &'a Frame<'a>,
    },
    /// Strategy parameters and variables: how many there are of each, the place of the first variable, and the closures
    /// of the parameters.
    Layer {
        base: usize,
        parameters: usize,
        variables: usize,
        closures: &'a [Closure<'a>],
        outer: &'a Frame<'a>,
    },
}

/// A strategy, and the layers that it sees.
#[cycle(frame)]
#[derive(Clone, Copy)]
pub struct Closure<'a> {
    pub strategy: &'a CoreStrategy,
    pub frame: &'a Frame<'a>,
}

/// Returns the layers without this number of the innermost ones.
pub(crate) fn layer<'a>(frame: &'a Frame<'a>, count: usize) -> &'a Frame<'a>
    ensures { environment_of result.now ≡ layers_up (environment_of frame.now) count }
{
    if count == 0 {
        return frame;
    }
    match frame {
        Frame::Outermost => frame,
        Frame::Definitions { outer, .. } => layer(outer, count - 1),
        Frame::Layer { outer, .. } => layer(outer, count - 1),
    }
}

/// Returns the position of the variable among this number of places.
pub(crate) fn position(frame: &Frame, x: Coordinate, places: usize) -> Option<usize>
    ensures { MatchOption result
        (IsPast (by_coordinates.place_of (environment_of frame.now) x) places)
        (λ at. (by_coordinates.place_of (environment_of frame.now) x ≡ Some at) × (at < places)) }
{
    match layer(&*frame, x.layers_up) {
        Frame::Outermost => None,
        Frame::Definitions { .. } => None,
        Frame::Layer {
            base,
            variables,
            ..
        } => position_from(*base, *variables, x.slot, places),
    }
}

/// Returns the position of a variable of a layer that begins at a base and has this number of variables.
fn position_from(base: usize, count: usize, slot: usize, places: usize) -> Option<usize>
    ensures { MatchOption result (IsPast (variable_place base count slot) places)
        (λ at. (variable_place base count slot ≡ Some at) × (at < places)) }
{
    if slot >= count {
        return None;
    }
    if base >= places {
        return None;
    }
    if slot >= places - base {
        return None;
    }
    Some(base + slot)
}

/// Returns the term that a variable has.
pub(crate) fn value<'a>(
    frame: &Frame,
    x: Coordinate,
    places: &'a [Option<Term>],
) -> Option<&'a Term>
    ensures { MatchOption result
        (value_in (by_coordinates.place_of (environment_of frame.now) x) places.now ≡ None)
        (λ t. value_in (by_coordinates.place_of (environment_of frame.now) x) places.now ≡
        Some t.now) }
{
    let at = position(frame, x, places.len())?;
    match &places[at] {
        Some(t) => Some(t),
        None => None,
    }
}
