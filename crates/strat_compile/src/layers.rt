//! The layers that a strategy stands in, as far as they are known when its code is made.
ghost use Rattle.std.specs.Prelude.{◌≡◌, ◌+◌, ◌≤◌, suc};
ghost use Rattle.strat_code.specs.Context.{by_frames, frames_in, outer, slot_in};
ghost use Rattle.strat_compile.specs.Layers.{context_of, seen_context, site_of};
ghost use Rattle.strat_compile.specs.Sites.{outside_of, stripped};
ghost use Rattle.term_model.specs.Results.{Returns};

use core_lang::{Coordinate, CoreDef, CoreStrategy};
use std::alloc::AllocError;

/// A definition's code: its label, and for how many places more than the parameters its frame has room.
#[derive(Clone, Copy)]
pub(crate) struct Entry {
    pub(crate) label: usize,
    pub(crate) room: usize,
}

/// A strategy argument that is known when code is made, and the layers that it stands in.
#[cycle(layers)]
#[derive(Clone, Copy)]
pub(crate) struct Known<'a> {
    pub(crate) strategy: &'a CoreStrategy,
    pub(crate) layers: &'a Layers<'a>,
}

/// The layers that a strategy stands in, innermost first.
#[cycle(layers)]
#[derive(Clone, Copy)]
pub(crate) enum Layers<'a> {
    /// No layer.
    Outermost,
    /// Of a definition, or of a scope that has a frame: its places are those of the frame.
    Framed {
        parameters: usize,
        variables: usize,
        outer: &'a Layers<'a>,
    },
    /// Of a scope without a frame: its places are in the innermost frame, from an offset on.
    Within {
        variables: usize,
        offset: usize,
        outer: &'a Layers<'a>,
    },
    /// Of definitions, which have labels from the first one on; it has no frame.
    Defining {
        defs: &'a [CoreDef],
        first_label: usize,
        outer: &'a Layers<'a>,
    },
    /// Of a specialization of the definition at a position, whose strategy parameters are known: its places are those of the
    /// frame, which keeps no closures.
    Specialized {
        slot: usize,
        label: usize,
        room: usize,
        variables: usize,
        arguments: &'a [Known<'a>],
        outer: &'a Layers<'a>,
    },
    /// Of a call in place, whose strategy parameters are known, or of anything of which nothing is looked at; it has no frame.
    Called {
        arguments: &'a [Known<'a>],
        outer: &'a Layers<'a>,
    },
    /// The same layers, as a strategy sees them that looks at no frame.
    Frameless {
        inner: &'a Layers<'a>,
    },
}

/// A layer that is not `Frameless`, and whether it is seen without frames.
#[derive(Clone, Copy)]
pub(crate) struct Reached<'a> {
    pub(crate) layers: &'a Layers<'a>,
    pub(crate) is_frameless: bool,
}

/// What is called.
#[derive(Clone, Copy)]
pub(crate) enum Callee<'a> {
    /// A definition.
    Definition(Entry),
    /// A strategy parameter that is known.
    Given(Known<'a>),
    /// A strategy parameter of which nothing is known.
    Unknown,
}

/// How a strategy argument is handed over.
#[derive(Clone, Copy)]
pub(crate) enum Handing<'a> {
    /// It has code of its own.
    OwnCode,
    /// It is a strategy parameter that is known, which has code of its own.
    Inlined(Known<'a>),
    /// It is a strategy parameter of which nothing is known, whose closure is at this coordinate by frames.
    Parameter(Coordinate),
}

/// A definition of the program, with the layer that has its definitions.
#[derive(Clone, Copy)]
pub(crate) struct ProgramDefinition<'a> {
    pub(crate) defs: &'a [CoreDef],
    pub(crate) first_label: usize,
    pub(crate) def: &'a CoreDef,
    pub(crate) layer: &'a Layers<'a>,
}

/// The number after this one. `Err` where that leaves 64 bits, since no memory holds as many instructions or places.
pub(crate) fn successor(number: usize) -> Result<usize, AllocError>
    ensures { Returns result (suc number) }
{
    number.checked_add(1).ok_or(AllocError)
}

/// The sum of the numbers. `Err` where that leaves 64 bits, since no memory holds as many instructions or places.
pub(crate) fn sum(first: usize, second: usize) -> Result<usize, AllocError>
    ensures { Returns result (first + second) }
{
    first.checked_add(second).ok_or(AllocError)
}

/// The layers without this number of the innermost ones.
pub(crate) fn reach<'a>(layers: &'a Layers<'a>, layers_up: usize) -> Reached<'a>
    ensures context { seen_context result ≡ outer (context_of layers.now) layers_up }
    ensures site { site_of result.layers.now ≡
        stripped (outside_of (site_of layers.now) layers_up) }
{
    if let Layers::Frameless { inner } = layers {
        let found = reach(inner, layers_up);
        return Reached {
            layers: found.layers,
            is_frameless: true,
        };
    }
    let here = Reached {
        layers,
        is_frameless: false,
    };
    if layers_up == 0 {
        return here;
    }
    match layers {
        Layers::Outermost => here,
        Layers::Framed { outer, .. } => reach(outer, layers_up - 1),
        Layers::Within { outer, .. } => reach(outer, layers_up - 1),
        Layers::Defining { outer, .. } => reach(outer, layers_up - 1),
        Layers::Specialized { outer, .. } => reach(outer, layers_up - 1),
        Layers::Called { outer, .. } => reach(outer, layers_up - 1),
        Layers::Frameless { .. } => here,
    }
}

/// How many of the innermost `layers_up` layers have frames.
pub(crate) fn frames_among(layers: &Layers, layers_up: usize) -> usize
    ensures frames { result ≡ frames_in (context_of layers.now) layers_up }
    ensures at_most { result ≤ layers_up }
{
    if layers_up == 0 {
        return 0;
    }
    match layers {
        Layers::Outermost => 0,
        Layers::Framed { outer, .. } => frames_among(outer, layers_up - 1) + 1,
        Layers::Within { outer, .. } => frames_among(outer, layers_up - 1),
        Layers::Defining { outer, .. } => frames_among(outer, layers_up - 1),
        Layers::Specialized { outer, .. } => frames_among(outer, layers_up - 1) + 1,
        Layers::Called { outer, .. } => frames_among(outer, layers_up - 1),
        Layers::Frameless { .. } => 0,
    }
}

/// The position of a variable of a layer in its frame.
fn position_in(reached: Reached, slot: usize) -> Result<usize, AllocError>
    ensures { Returns result (slot_in (seen_context reached.entry) slot) }
{
    if reached.is_frameless {
        return Ok(slot);
    }
    match reached.layers {
        Layers::Within { offset, .. } => sum(*offset, slot),
        Layers::Outermost => Ok(slot),
        Layers::Framed { .. } => Ok(slot),
        Layers::Defining { .. } => Ok(slot),
        Layers::Specialized { .. } => Ok(slot),
        Layers::Called { .. } => Ok(slot),
        Layers::Frameless { .. } => Ok(slot),
    }
}

/// The coordinate by frames: how many frames up a variable or a closure is, and its position in that frame.
pub(crate) fn frame_coordinate(layers: &Layers, at: Coordinate) -> Result<Coordinate, AllocError>
    ensures { Returns result (by_frames (context_of layers.now) at) }
{
    let layers_up = frames_among(layers, at.layers_up);
    let slot = position_in(reach(&*layers, at.layers_up), at.slot)?;
    Ok(Coordinate { layers_up, slot })
}
