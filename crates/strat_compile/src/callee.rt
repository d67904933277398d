//! What is called at a coordinate.
ghost use Rattle.std.specs.Prelude.{◌≡◌, IfOk, IfSome, IsTrue};
ghost use Rattle.core_lang.specs.Views.{definitions_of, strategy_of};
ghost use Rattle.strat_code.specs.Context.{outer, top};
ghost use Rattle.strat_compile.specs.Layers.{Calls, CallsIn, HandsOver, HasLayer, IsDefined, arguments_of, context_of, entry_in, entry_of, seen, site_of};
ghost use Rattle.strat_compile.specs.Sites.{context, in_call, labelled, room_for};

use crate::layers::{
    Callee, Entry, Handing, Known, Layers, ProgramDefinition, Reached, frame_coordinate, reach, sum,
};
use core_lang::{Coordinate, CoreDef, CoreStrategy};
use std::alloc::AllocError;

/// For how many places more than the parameters the frame of a definition with this body has room.
pub(crate) fn room_of(body: &CoreStrategy) -> usize
    ensures { result ≡ room_for (strategy_of body.now) }
{
    match body {
        CoreStrategy::Scope(places, _) => *places,
        _ => 0,
    }
}

/// The entry of the definition at a position.
pub(crate) fn entry_at(
    defs: &[CoreDef],
    first_label: usize,
    position: usize,
) -> Result<Entry, AllocError>
    ensures { IfOk result (λ entry. entry_of entry ≡
        entry_in (labelled first_label (definitions_of defs.now)) position) }
{
    match defs.get(position) {
        Some(def) => {
            let label = sum(first_label, position)?;
            let room = room_of(&def.body);
            Ok(Entry { label, room })
        }
        None => Ok(Entry { label: 0, room: 0 }),
    }
}

/// What is called at a position of a layer.
fn callee_in<'a>(
    layers: &'a Layers<'a>,
    is_frameless: bool,
    slot: usize,
) -> Result<Callee<'a>, AllocError>
    ensures { IfOk result (λ called.
        CallsIn (seen is_frameless (context_of layers.now)) (site_of layers.now) slot called) }
{
    match layers {
        Layers::Defining {
            defs,
            first_label,
            outer,
        } => {
            if is_frameless && !sees_none(outer) {
                return Ok(Callee::Unknown);
            }
            let entry = entry_at(defs, *first_label, slot)?;
            Ok(Callee::Definition(entry))
        }
        Layers::Specialized { arguments, .. } => Ok(argument_at(arguments, slot)),
        Layers::Called { arguments, .. } => Ok(argument_at(arguments, slot)),
        Layers::Outermost => Ok(Callee::Unknown),
        Layers::Framed { .. } => Ok(Callee::Unknown),
        Layers::Within { .. } => Ok(Callee::Unknown),
        Layers::Frameless { inner } => callee_in(inner, true, slot),
    }
}

/// Whether there is no layer, as far as a strategy sees that looks at no frame.
pub(crate) fn sees_none(layers: &Layers) -> bool
    ensures none { IsTrue result → context_of layers.now ≡ top }
    ensures some { (IsTrue result → ⊥) → HasLayer (context_of layers.now) }
{
    match layers {
        Layers::Outermost => true,
        Layers::Frameless { inner } => sees_none(inner),
        Layers::Framed { .. } => false,
        Layers::Within { .. } => false,
        Layers::Defining { .. } => false,
        Layers::Specialized { .. } => false,
        Layers::Called { .. } => false,
    }
}

/// The known argument at a position.
fn argument_at<'a>(arguments: &'a [Known<'a>], slot: usize) -> Callee<'a>
    ensures { (C : _) → CallsIn (context (in_call (arguments_of arguments.now) C))
        (in_call (arguments_of arguments.now) C) slot result }
{
    match arguments.get(slot) {
        Some(known) => Callee::Given(*known),
        None => Callee::Unknown,
    }
}

/// What is called at a coordinate.
pub(crate) fn callee<'a>(layers: &'a Layers<'a>, at: Coordinate) -> Result<Callee<'a>, AllocError>
    ensures { IfOk result (λ called. Calls (site_of layers.now) at called) }
{
    let Reached {
        layers,
        is_frameless,
    } = reach(layers, at.layers_up);
    callee_in(layers, is_frameless, at.slot)
}

/// The definition of the program that is called at a coordinate, if there is one.
pub(crate) fn program_definition<'a>(
    layers: &'a Layers<'a>,
    at: Coordinate,
) -> Option<ProgramDefinition<'a>>
    ensures { IfSome result (λ found. IsDefined (outer (context_of layers.now) at.layers_up) at.slot
        found) }
{
    let layer = reach(layers, at.layers_up).layers;
    let Layers::Defining {
        defs,
        first_label,
        outer,
    } = layer
    else {
        return None;
    };
    let Layers::Outermost = outer else {
        return None;
    };
    let def = defs.get(at.slot)?;
    Some(ProgramDefinition {
        defs: *defs,
        first_label: *first_label,
        def,
        layer,
    })
}

/// How an argument is handed over.
pub(crate) fn handing<'a>(
    layers: &'a Layers<'a>,
    argument: &CoreStrategy,
) -> Result<Handing<'a>, AllocError>
    ensures { IfOk result (λ how. HandsOver (site_of layers.now) (strategy_of argument.now) how) }
{
    let CoreStrategy::Call(target, _, _) = argument else {
        return Ok(Handing::OwnCode);
    };
    let at = target.coordinate();
    match callee(layers, at)? {
        Callee::Definition(_) => Ok(Handing::OwnCode),
        Callee::Given(known) => Ok(Handing::Inlined(known)),
        Callee::Unknown => {
            let closure = frame_coordinate(layers, at)?;
            Ok(Handing::Parameter(closure))
        }
    }
}
