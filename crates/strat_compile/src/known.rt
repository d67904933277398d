//! Which arguments of a call are known.
ghost use Rattle.std.specs.Prelude.{◌≡◌, ◌≤◌, IfOk, IfSome, IsTrue};
ghost use Rattle.core_lang.specs.Views.{strategies_of, strategy_of};
ghost use Rattle.strat_compile.specs.Known.{AreParameters, IsKnownAs, IsOfProgram, IsOwn, IsParameter};
ghost use Rattle.strat_compile.specs.Layers.{arguments_of, site_of};
ghost use Rattle.strat_compile.specs.Sites.{AreGiven, AreGivenAt, without_frames};

use crate::callee::handing;
use crate::closed::is_closed;
use crate::layers::{Handing, Known, Layers, reach};
use core_lang::{Coordinate, CoreStrategy};
use std::alloc::{AllocError, Global};

/// The label and the room of the code of a specialization.
#[derive(Clone, Copy)]
pub(crate) struct Own {
    pub(crate) label: usize,
    pub(crate) room: usize,
}

/// Returns what the strategy arguments of a call in the first layers are known to be, if each of them is known: a strategy parameter
/// that is known, or a strategy that looks at nothing but the second layers and stands there then. One is taken off the limit for
/// each strategy that is looked at; where it runs out, nothing is known.
pub(crate) fn known_arguments<'a>(
    alloc: Global,
    layers: &'a Layers<'a>,
    inside: &'a Layers<'a>,
    strategies: &'a [CoreStrategy],
    limit: &mut usize,
) -> Result<Option<Vec<Known<'a>>>, AllocError>
    ensures limit { limit.new ≤ limit.old }
    ensures given { IfOk result (λ found. IfSome found (λ made. AreGivenAt (site_of layers.now)
        (site_of inside.now) (strategies_of strategies.now) (arguments_of made.items))) }
    ensures frameless { site_of inside.now ≡ without_frames (site_of layers.now) →
        IfOk result (λ found. IfSome found (λ made. AreGiven (site_of layers.now)
        (strategies_of strategies.now) (arguments_of made.items))) }
{
    let mut made = Vec::with_capacity(alloc, strategies.len())?;
    for strategy in strategies {
        let Some(known) = known_argument(layers, inside, strategy, limit)? else {
            return Ok(None);
        };
        made.push(known)?;
    }
    Ok(Some(made))
}

/// What a strategy argument is known to be.
fn known_argument<'a>(
    layers: &'a Layers<'a>,
    inside: &'a Layers<'a>,
    strategy: &'a CoreStrategy,
    limit: &mut usize,
) -> Result<Option<Known<'a>>, AllocError>
    ensures limit { limit.new ≤ limit.old }
    ensures known { IfOk result (λ found. IfSome found (λ known.
        IsKnownAs (site_of layers.now) (site_of inside.now) (strategy_of strategy.now)
        (strategy_of known.strategy.now) (site_of known.layers.now))) }
{
    match handing(layers, strategy)? {
        Handing::Inlined(known) => Ok(Some(known)),
        Handing::Parameter(_) => Ok(None),
        Handing::OwnCode => {
            if !is_closed(strategy, inside, limit) {
                return Ok(None);
            }
            Ok(Some(Known {
                strategy,
                layers: inside,
            }))
        }
    }
}

/// Returns the specialization that the code is in, if this is a call of its definition with the strategy parameters that the
/// specialization has.
pub(crate) fn own_specialization(
    layers: &Layers,
    at: Coordinate,
    strategies: &[CoreStrategy],
) -> Option<Own>
    ensures { IfSome result (λ own.
        IsOwn (site_of layers.now) at (strategies_of strategies.now) own) }
{
    let CoreStrategy::Call(first, _, _) = strategies.first()? else {
        return None;
    };
    let layers_up = first.coordinate().layers_up;
    if at.layers_up == 0 || at.layers_up - 1 != layers_up {
        return None;
    }
    let Layers::Specialized {
        slot,
        label,
        room,
        arguments,
        outer,
        ..
    } = reach(&*layers, layers_up).layers
    else {
        return None;
    };
    if *slot != at.slot || arguments.len() != strategies.len() {
        return None;
    }
    if !is_of_program(outer) || !are_parameters(strategies, layers_up) {
        return None;
    }
    Some(Own {
        label: *label,
        room: *room,
    })
}

/// Whether the layers are those of the definitions of the program.
fn is_of_program(layers: &Layers) -> bool
    ensures { IsTrue result → IsOfProgram (site_of layers.now) }
{
    let Layers::Defining { outer, .. } = layers else {
        return false;
    };
    match outer {
        Layers::Outermost => true,
        _ => false,
    }
}

/// Whether the strategies are calls of the strategy parameters of a layer, in order, from the first one on.
fn are_parameters(strategies: &[CoreStrategy], layers_up: usize) -> bool
    ensures { IsTrue result → AreParameters layers_up 0 (strategies_of strategies.now) }
{
    for (index, strategy) in strategies.iter().enumerate() {
        if !is_parameter(strategy, layers_up, index) {
            return false;
        }
    }
    true
}

/// Whether the strategy is a call of the strategy parameter at this position of a layer.
fn is_parameter(strategy: &CoreStrategy, layers_up: usize, slot: usize) -> bool
    ensures { IsTrue result → IsParameter layers_up slot (strategy_of strategy.now) }
{
    let CoreStrategy::Call(target, _, _) = strategy else {
        return false;
    };
    let at = target.coordinate();
    at.layers_up == layers_up && at.slot == slot
}
