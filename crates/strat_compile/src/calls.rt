//! What is emitted for a call. A call of a definition of the program whose strategy arguments are known is made in place, where the
//! definition has no term parameters and does not call itself, or is a call of a specialization, where it has strategy parameters.
//! A call whose arguments look at frames is made in place where the body is a conditional of its parameters. Any other is an
//! ordinary call, which hands its arguments over as closures.
ghost use Rattle.std.specs.Prelude.{◌≡◌, [], suc, IfOk, OnOk, map};
ghost use Rattle.core_lang.specs.Program.{call};
ghost use Rattle.core_lang.specs.Views.{def_of, patterns_of, strategies_of, strategy_of};
ghost use Rattle.strat_code.specs.Code.{call_definition};
ghost use Rattle.strat_code.specs.CodeOf.{argument_of};
ghost use Rattle.strat_code.specs.Context.{by_frames, frames_in, outer};
ghost use Rattle.strat_code.specs.Renamed.{all_renamed};
ghost use Rattle.strat_compile.specs.declared.layers.Callee.TheVariants.{Definition};
ghost use Rattle.strat_compile.specs.Emission.{Emits, EmitsArguments, EmitsCall, PutsArgument};
ghost use Rattle.strat_compile.specs.Layers.{CallsIn, IsDefined, arguments_of, context_of, site_of};
ghost use Rattle.strat_compile.specs.Output.{emitted_of, onto};
ghost use Rattle.strat_compile.specs.Sites.{AreGiven, in_call, outside_of};

use crate::callee::{callee, handing, program_definition, room_of};
use crate::emit::{emit, emit_body};
use crate::known::{known_arguments, own_specialization};
use crate::layers::{
    Callee, Entry, Handing, Known, Layers, ProgramDefinition, frames_among, successor,
};
use crate::leaves::emit_closure_call;
use crate::open_calls::emit_open_call;
use crate::output::Output;
use crate::patterns::by_frames_patterns;
use crate::ways::{EXPANSION_LIMIT, Way, way_of};
use core_lang::{Coordinate, CorePattern, CoreStrategy};
use std::alloc::{AllocError, Global};
use strat_code::{Argument, Instr};

/// Emits a call with strategy and term arguments.
#[cycle(emission)]
#[tactic(auto, using(crate::proofs::RowLaws::known_row))]
pub(crate) fn emit_call(
    alloc: Global,
    out: &mut Output,
    layers: &Layers,
    places: Option<usize>,
    charged: usize,
    at: Coordinate,
    strategies: &[CoreStrategy],
    terms: &[CorePattern],
    depth: usize,
) -> Result<(), AllocError>
    ensures { OnOk result (Emits places (site_of layers.now) charged
        (call at (strategies_of strategies.now) (patterns_of terms.now))
        (emitted_of out.old) (emitted_of out.new)) }
{
    match callee(&*layers, at)? {
        Callee::Unknown => emit_closure_call(out, layers, charged, at),
        Callee::Given(known) => {
            let nodes = successor(charged)?;
            let s = known.strategy;
            emit(alloc, out, known.layers, places, nodes, s, depth)
        }
        Callee::Definition(entry) => {
            let strategies = &*strategies;
            emit_definition_call(
                alloc, out, &*layers, places, charged, at, strategies, terms, entry, depth,
            )
        }
    }
}

/// A call of a definition, which has this entry.
#[cycle(emission)]
fn emit_definition_call<'a>(
    alloc: Global,
    out: &mut Output,
    layers: &'a Layers<'a>,
    places: Option<usize>,
    charged: usize,
    at: Coordinate,
    strategies: &'a [CoreStrategy],
    terms: &[CorePattern],
    entry: Entry,
    depth: usize,
) -> Result<(), AllocError>
    requires { CallsIn (outer (context_of layers.now) at.layers_up)
        (outside_of (site_of layers.now) at.layers_up) at.slot (Definition entry) }
    ensures { OnOk result (Emits places (site_of layers.now) charged
        (call at (strategies_of strategies.now) (patterns_of terms.now))
        (emitted_of out.old) (emitted_of out.new)) }
{
    let Some(definition) = program_definition(&*layers, at) else {
        return emit_any_call(
            alloc, out, layers, charged, at, strategies, terms, entry, depth,
        );
    };
    if let Some(own) = own_specialization(&*layers, at, strategies) {
        let end = out.place();
        return emit_code_call(
            alloc, out, layers, charged, at, terms, own.label, own.room, end,
        );
    }
    let frameless = Layers::Frameless { inner: &*layers };
    let mut limit = EXPANSION_LIMIT;
    let found = known_arguments(alloc, &*layers, &frameless, strategies, &mut limit)?;
    let Some(arguments) = found else {
        return emit_open_call(
            alloc, out, layers, places, charged, at, strategies, terms, definition, entry, depth,
        );
    };
    let way = way_of(alloc, out, at.slot, definition, arguments.as_slice(), terms)?;
    match way {
        Way::InPlace => {
            let arguments = arguments.as_slice();
            emit_in_place(alloc, out, places, charged, definition, arguments, depth)
        }
        Way::Specialized => {
            let arguments = arguments.as_slice();
            emit_specialization(
                alloc, out, layers, charged, at, terms, definition, arguments, depth,
            )
        }
        Way::Ordinary => {
            emit_any_call(
                alloc, out, layers, charged, at, strategies, terms, entry, depth,
            )
        }
    }
}

/// Emits an ordinary call, as any call.
#[cycle(emission)]
#[tactic(auto, using(crate::proofs::RowLaws::called))]
pub(crate) fn emit_any_call(
    alloc: Global,
    out: &mut Output,
    layers: &Layers,
    charged: usize,
    at: Coordinate,
    strategies: &[CoreStrategy],
    terms: &[CorePattern],
    entry: Entry,
    depth: usize,
) -> Result<(), AllocError>
    requires { CallsIn (outer (context_of layers.now) at.layers_up)
        (outside_of (site_of layers.now) at.layers_up) at.slot (Definition entry) }
    ensures { OnOk result ((w : _) → Emits w (site_of layers.now) charged
        (call at (strategies_of strategies.now) (patterns_of terms.now))
        (emitted_of out.old) (emitted_of out.new)) }
{
    emit_ordinary_call(
        alloc, out, layers, charged, at, strategies, terms, entry, depth,
    )
}

/// Emits a call of a definition, which has this entry, with the closures of its strategy arguments.
#[cycle(emission)]
#[tactic(auto, using(crate::proofs::RowLaws::call_row))]
pub(crate) fn emit_ordinary_call(
    alloc: Global,
    out: &mut Output,
    layers: &Layers,
    charged: usize,
    at: Coordinate,
    strategies: &[CoreStrategy],
    terms: &[CorePattern],
    entry: Entry,
    depth: usize,
) -> Result<(), AllocError>
    requires { CallsIn (outer (context_of layers.now) at.layers_up)
        (outside_of (site_of layers.now) at.layers_up) at.slot (Definition entry) }
    ensures { OnOk result (EmitsCall (site_of layers.now) charged at
        (strategies_of strategies.now) (patterns_of terms.now)
        (emitted_of out.old) (emitted_of out.new)) }
{
    let nodes = successor(charged)?;
    let next_address = out.place();
    let arguments = emit_arguments(alloc, out, layers, strategies, depth)?;
    let terms = by_frames_patterns(alloc, terms, layers)?;
    out.emit(Instr::CallDefinition {
        nodes,
        frames: frames_among(layers, at.layers_up),
        entry: entry.label,
        room: entry.room,
        next_address,
        arguments,
        terms,
    })
}

/// A call of code without strategy arguments, after which the code goes on at the place `end`.
#[tactic(auto, using(crate::proofs::RowLaws::called_at))]
fn emit_code_call(
    alloc: Global,
    out: &mut Output,
    layers: &Layers,
    charged: usize,
    at: Coordinate,
    terms: &[CorePattern],
    label: usize,
    room: usize,
    end: usize,
) -> Result<(), AllocError>
    ensures { OnOk result (emitted_of out.new ≡ onto (call_definition (suc charged)
        (frames_in (context_of layers.now) at.layers_up) label room end []
        (all_renamed (by_frames (context_of layers.now)) (patterns_of terms.now)))
        (emitted_of out.old)) }
{
    let nodes = successor(charged)?;
    let terms = by_frames_patterns(alloc, terms, layers)?;
    out.emit(Instr::CallDefinition {
        nodes,
        frames: frames_among(layers, at.layers_up),
        entry: label,
        room,
        next_address: end,
        arguments: Vec::new(alloc),
        terms,
    })
}

/// The body of a definition in place of its call.
#[cycle(emission)]
fn emit_in_place<'a>(
    alloc: Global,
    out: &mut Output,
    places: Option<usize>,
    charged: usize,
    definition: ProgramDefinition<'a>,
    arguments: &'a [Known<'a>],
    depth: usize,
) -> Result<(), AllocError>
    ensures { OnOk result ((n : _) → n ≡ suc charged → Emits places
        (in_call (arguments_of arguments.now) (site_of definition.entry.layer.now)) n
        (def_of definition.entry.def.now).body (emitted_of out.old) (emitted_of out.new)) }
{
    let nodes = successor(charged)?;
    let layers = Layers::Called {
        arguments,
        outer: definition.layer,
    };
    let began = out.begin_expansion();
    let body = &definition.def.body;
    emit(alloc, out, &layers, places, nodes, body, depth)?;
    out.end_expansion(began);
    Ok(())
}

/// A call of a specialization, in front of its body.
#[cycle(emission)]
fn emit_specialization<'a>(
    alloc: Global,
    out: &mut Output,
    layers: &Layers,
    charged: usize,
    at: Coordinate,
    terms: &[CorePattern],
    definition: ProgramDefinition<'a>,
    arguments: &'a [Known<'a>],
    depth: usize,
) -> Result<(), AllocError>
    requires { IsDefined (outer (context_of layers.now) at.layers_up) at.slot definition }
    ensures { OnOk result ((w ss : _) → AreGiven (site_of layers.now) ss
        (arguments_of arguments.now) →
        Emits w (site_of layers.now) charged (call at ss (patterns_of terms.now))
        (emitted_of out.old) (emitted_of out.new)) }
{
    let end = out.place();
    let label = out.labels();
    let room = room_of(&definition.def.body);
    let variables = definition.def.terms;
    let frame = Layers::Specialized {
        slot: at.slot,
        label,
        room,
        variables,
        arguments,
        outer: definition.layer,
    };
    out.add_labels(1)?;
    let began = out.begin_expansion();
    emit_body(alloc, out, &frame, variables, &definition.def.body, depth)?;
    out.end_expansion(began);
    out.start(label);
    emit_code_call(alloc, out, layers, charged, at, terms, label, room, end)
}

/// The code of strategy arguments, and the arguments.
#[cycle(emission)]
#[tactic(auto, using(crate::proofs::EmissionLaws::argument_next, crate::proofs::RowLaws::arguments_done))]
fn emit_arguments(
    alloc: Global,
    out: &mut Output,
    layers: &Layers,
    strategies: &[CoreStrategy],
    depth: usize,
) -> Result<Vec<Argument>, AllocError>
    ensures { IfOk result (λ made. EmitsArguments (site_of layers.now)
        (strategies_of strategies.now) (emitted_of out.old) (emitted_of out.new)
        (map argument_of made.items)) }
{
    let mut made = Vec::with_capacity(alloc, strategies.len())?;
    for s in strategies {
        let argument = emit_argument(alloc, out, layers, s, depth)?;
        made.push(argument)?;
    }
    Ok(made)
}

#[cycle(emission)]
#[tactic(auto, using(crate::proofs::RowLaws::own_code, crate::proofs::RowLaws::handed_known, crate::proofs::EmissionLaws::handed_on))]
fn emit_argument(
    alloc: Global,
    out: &mut Output,
    layers: &Layers,
    s: &CoreStrategy,
    depth: usize,
) -> Result<Argument, AllocError>
    ensures { IfOk result (λ made. PutsArgument (site_of layers.now) (strategy_of s.now)
        (emitted_of out.old) (emitted_of out.new) (argument_of made)) }
{
    match handing(&*layers, s)? {
        Handing::Parameter(closure) => Ok(Argument::Parameter(closure)),
        Handing::OwnCode => {
            out.emit(Instr::EndArgument)?;
            emit(alloc, out, layers, None, 0, s, depth)?;
            Ok(Argument::Code(out.place()))
        }
        Handing::Inlined(known) => {
            out.emit(Instr::EndArgument)?;
            emit(alloc, out, known.layers, None, 0, known.strategy, depth)?;
            Ok(Argument::Code(out.place()))
        }
    }
}
