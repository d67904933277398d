//! What is emitted for a call whose arguments may look at frames. A conditional of strategy parameters is made in place, with the
//! code of each argument where it is called; that takes no more code than closures of the arguments, since each is called once.
ghost use Rattle.std.specs.Prelude.{OnOk};
ghost use Rattle.core_lang.specs.Program.{call};
ghost use Rattle.core_lang.specs.Views.{patterns_of, strategies_of};
ghost use Rattle.strat_code.specs.Context.{outer};
ghost use Rattle.strat_compile.specs.declared.layers.Callee.TheVariants.{Definition};
ghost use Rattle.strat_compile.specs.Conditionals.{ArePartsOf, IsPart, conditional_strategy, part_strategy};
ghost use Rattle.strat_compile.specs.Emission.{Emits, EmitsThen};
ghost use Rattle.strat_compile.specs.Layers.{CallsIn, IsDefined, context_of, site_of};
ghost use Rattle.strat_compile.specs.Output.{emitted_of};
ghost use Rattle.strat_compile.specs.Sites.{in_open_call, outside_of};

use crate::calls::emit_any_call;
use crate::conditional::{Conditional, Part, conditional_call};
use crate::emit::emit;
use crate::layers::{Entry, Layers, ProgramDefinition, successor};
use crate::leaves::{emit_commit, emit_fail, emit_id};
use crate::output::Output;
use core_lang::{Coordinate, CorePattern, CoreStrategy};
use std::alloc::{AllocError, Global};
use strat_code::Instr;

/// Emits a call of a definition of the program, which has this entry, with arguments that may look at frames.
#[cycle(emission)]
pub(crate) fn emit_open_call<'a>(
    alloc: Global,
    out: &mut Output,
    layers: &'a Layers<'a>,
    places: Option<usize>,
    charged: usize,
    at: Coordinate,
    strategies: &'a [CoreStrategy],
    terms: &[CorePattern],
    definition: ProgramDefinition<'a>,
    entry: Entry,
    depth: usize,
) -> Result<(), AllocError>
    requires called { CallsIn (outer (context_of layers.now) at.layers_up)
        (outside_of (site_of layers.now) at.layers_up) at.slot (Definition entry) }
    requires defined { IsDefined (outer (context_of layers.now) at.layers_up) at.slot definition }
    ensures { OnOk result (Emits places (site_of layers.now) charged
        (call at (strategies_of strategies.now) (patterns_of terms.now))
        (emitted_of out.old) (emitted_of out.new)) }
{
    if out.keeps_calls {
        return emit_any_call(
            alloc, out, layers, charged, at, strategies, terms, entry, depth,
        );
    }
    let found = conditional_call(alloc, layers, strategies, terms, definition)?;
    let Some(conditional) = found else {
        return emit_any_call(
            alloc, out, layers, charged, at, strategies, terms, entry, depth,
        );
    };
    let nodes = successor(charged)?;
    emit_conditional(alloc, out, places, nodes, conditional, depth)
}

/// A conditional, in place of a call.
#[cycle(emission)]
fn emit_conditional<'a>(
    alloc: Global,
    out: &mut Output,
    places: Option<usize>,
    charged: usize,
    conditional: Conditional<'a>,
    depth: usize,
) -> Result<(), AllocError>
    ensures { OnOk result ((ks D : _) → ArePartsOf ks conditional.entry →
        Emits places (in_open_call ks D) charged (conditional_strategy conditional.entry)
        (emitted_of out.old) (emitted_of out.new)) }
{
    let end = out.place();
    let nodes = successor(charged)?;
    emit_part(alloc, out, places, 0, conditional.otherwise, depth)?;
    let otherwise = out.place();
    emit_then_part(alloc, out, places, conditional.then, end, depth)?;
    emit_part(alloc, out, places, 0, conditional.guard, depth)?;
    out.emit(Instr::Try { nodes, otherwise })
}

/// What follows the guard of a conditional, after the instruction that takes the choice record off.
#[cycle(emission)]
fn emit_then_part<'a>(
    alloc: Global,
    out: &mut Output,
    places: Option<usize>,
    then: Part<'a>,
    end: usize,
    depth: usize,
) -> Result<(), AllocError>
    ensures { OnOk result ((ks D : _) → IsPart ks then.entry →
        EmitsThen places (in_open_call ks D) (part_strategy then.entry) end
        (emitted_of out.old) (emitted_of out.new)) }
{
    match then {
        Part::Success => emit_commit(out, end),
        _ => {
            out.emit(Instr::Jump { next_address: end })?;
            emit_part(alloc, out, places, 0, then, depth)?;
            let next_address = out.place();
            out.emit(Instr::Commit {
                nodes: 0,
                next_address,
            })
        }
    }
}

/// A part of a conditional.
#[cycle(emission)]
fn emit_part<'a>(
    alloc: Global,
    out: &mut Output,
    places: Option<usize>,
    charged: usize,
    part: Part<'a>,
    depth: usize,
) -> Result<(), AllocError>
    ensures { OnOk result ((ks D : _) → IsPart ks part.entry →
        Emits places (in_open_call ks D) charged (part_strategy part.entry)
        (emitted_of out.old) (emitted_of out.new)) }
{
    match part {
        Part::Success => emit_id(out, charged),
        Part::Failure => emit_fail(out, charged),
        Part::Argument { known, .. } => {
            let nodes = successor(charged)?;
            let s = known.strategy;
            emit(alloc, out, known.layers, places, nodes, s, depth)
        }
    }
}
