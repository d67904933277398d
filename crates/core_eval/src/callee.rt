//! What a call is of, and the closures of its arguments.
ghost use Rattle.std.specs.Prelude.{◌≡◌, IfOk, MatchOption, None, Some, map};
ghost use Rattle.core_lang.specs.Environment as environment;
ghost use Rattle.core_lang.specs.Environment.{with_closure, more_closures, Closures};
ghost use Rattle.core_lang.specs.declared.coordinate.Coordinate as places;
ghost use Rattle.core_lang.specs.Resolved.{layers_up, callee_in, by_coordinates, ResolvedClosures};
ghost use Rattle.core_lang.specs.Views.{strategy_of, strategies_of};
ghost use Rattle.core_eval.specs.Frame.{environment_of, closure_of, closures_in};
ghost use Rattle.core_eval.specs.Callee.{callee_of};

use crate::frame::{Closure, Frame, layer};
use core_lang::{Coordinate, CoreDef, CoreStrategy};
use std::alloc::{AllocError, Global};

/// What a call is of: a strategy parameter's closure, or a definition with the layers from its own on.
#[derive(Clone, Copy)]
pub enum Callee<'a> {
    Parameter(Closure<'a>),
    Definition(&'a CoreDef, &'a Frame<'a>),
}

/// Returns what is called at a coordinate.
pub(crate) fn callee_at<'a>(frame: &'a Frame<'a>, x: Coordinate) -> Option<Callee<'a>>
    ensures { MatchOption result
        (callee_in (layers_up (environment_of frame.now) x.layers_up) x.slot ≡ None)
        (λ c. callee_in (layers_up (environment_of frame.now) x.layers_up) x.slot ≡
        Some (callee_of c)) }
{
    let home = layer(frame, x.layers_up);
    match home {
        Frame::Outermost => None,
        Frame::Definitions { defs, .. } => match defs.get(x.slot) {
            Some(def) => Some(Callee::Definition(def, home)),
            None => None,
        },
        Frame::Layer { closures, .. } => match closures.get(x.slot) {
            Some(closure) => Some(Callee::Parameter(*closure)),
            None => None,
        },
    }
}

/// Returns the closures of the strategy arguments of a call.
pub(crate) fn closures_of<'a>(
    alloc: Global,
    strategies: &'a [CoreStrategy],
    frame: &'a Frame<'a>,
) -> Result<Vec<Closure<'a>>, AllocError>
    ensures { IfOk result (λ made. environment.closures_of by_coordinates (environment_of frame.now)
        (strategies_of strategies.now) ≡ closures_in (map closure_of made.items)) }
{
    let mut made = Vec::new(alloc);
    for s in strategies {
        made.push(handed_on(s, frame))?;
    }
    Ok(made)
}

/// Returns the closure of an argument: of a call of a strategy parameter that parameter's, of any other the argument's own.
fn handed_on<'a>(s: &'a CoreStrategy, frame: &'a Frame<'a>) -> Closure<'a>
    ensures { (cs : ResolvedClosures) →
        with_closure by_coordinates (environment_of frame.now) (strategy_of s.now) cs ≡
        more_closures (closure_of result).strategy (closure_of result).environment cs }
{
    match s {
        CoreStrategy::Call(target, _, _) => match callee_at(frame, target.coordinate()) {
            Some(Callee::Parameter(closure)) => closure,
            _ => Closure { strategy: s, frame },
        },
        _ => Closure { strategy: s, frame },
    }
}
