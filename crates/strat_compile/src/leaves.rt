//! What is emitted for a strategy of one instruction. These functions are not inlined, so that a level of `emit` needs little of the stack.
ghost use Rattle.std.specs.Prelude.{◌≡◌, OnOk};
ghost use Rattle.core_lang.specs.Program.{build, call, fail, id, match, primitive};
ghost use Rattle.core_lang.specs.Views.{pattern_of, patterns_of};
ghost use Rattle.strat_code.specs.Code.{commit};
ghost use Rattle.strat_code.specs.Context.{outer};
ghost use Rattle.strat_compile.specs.Emission.{Emits};
ghost use Rattle.strat_compile.specs.Layers.{context_of, site_of};
ghost use Rattle.strat_compile.specs.Output.{emitted_of, onto};
ghost use Rattle.strat_compile.specs.Sites.{IsUnknown};

use crate::layers::{Layers, frame_coordinate, successor};
use crate::names::copied_name;
use crate::output::Output;
use crate::patterns::{by_frames_pattern, by_frames_patterns};
use core_lang::{Coordinate, CorePattern};
use std::alloc::{AllocError, Global};
use strat_code::Instr;

#[tactic(auto, using(crate::proofs::RowLaws::id_row))]
#[inline(never)]
pub(crate) fn emit_id(out: &mut Output, charged: usize) -> Result<(), AllocError>
    ensures { OnOk result ((w : _) (S : _) →
        Emits w S charged id (emitted_of out.old) (emitted_of out.new)) }
{
    let nodes = successor(charged)?;
    out.emit(Instr::Count { nodes })
}

#[tactic(auto, using(crate::proofs::RowLaws::fail_row))]
#[inline(never)]
pub(crate) fn emit_fail(out: &mut Output, charged: usize) -> Result<(), AllocError>
    ensures { OnOk result ((w : _) (S : _) →
        Emits w S charged fail (emitted_of out.old) (emitted_of out.new)) }
{
    let nodes = successor(charged)?;
    out.emit(Instr::GiveUp { nodes })
}

/// Takes the choice record off where nothing follows a guard, and goes on at the end of the choice.
pub(crate) fn emit_commit(out: &mut Output, end: usize) -> Result<(), AllocError>
    ensures { OnOk result (emitted_of out.new ≡ onto (commit 1 end) (emitted_of out.old)) }
{
    out.emit(Instr::Commit {
        nodes: 1,
        next_address: end,
    })
}

#[tactic(auto, using(crate::proofs::RowLaws::match_row))]
#[inline(never)]
pub(crate) fn emit_match(
    alloc: Global,
    out: &mut Output,
    layers: &Layers,
    charged: usize,
    p: &CorePattern,
) -> Result<(), AllocError>
    ensures { OnOk result ((w : _) → Emits w (site_of layers.now) charged (match (pattern_of p.now))
        (emitted_of out.old) (emitted_of out.new)) }
{
    let nodes = successor(charged)?;
    let pattern = by_frames_pattern(alloc, p, layers)?;
    out.emit(Instr::Match { nodes, pattern })
}

#[tactic(auto, using(crate::proofs::RowLaws::build_row))]
#[inline(never)]
pub(crate) fn emit_build(
    alloc: Global,
    out: &mut Output,
    layers: &Layers,
    charged: usize,
    p: &CorePattern,
) -> Result<(), AllocError>
    ensures { OnOk result ((w : _) → Emits w (site_of layers.now) charged (build (pattern_of p.now))
        (emitted_of out.old) (emitted_of out.new)) }
{
    let nodes = successor(charged)?;
    let pattern = by_frames_pattern(alloc, p, layers)?;
    out.emit(Instr::Build { nodes, pattern })
}

#[tactic(auto, using(crate::proofs::RowLaws::primitive_row))]
#[inline(never)]
pub(crate) fn emit_primitive(
    alloc: Global,
    out: &mut Output,
    layers: &Layers,
    charged: usize,
    name: &[u8],
    terms: &[CorePattern],
) -> Result<(), AllocError>
    ensures { OnOk result ((w : _) → Emits w (site_of layers.now) charged
        (primitive name.now (patterns_of terms.now)) (emitted_of out.old) (emitted_of out.new)) }
{
    let nodes = successor(charged)?;
    let name = copied_name(alloc, name)?;
    let terms = by_frames_patterns(alloc, terms, layers)?;
    out.emit(Instr::ApplyPrimitive { nodes, name, terms })
}

/// A call of a strategy parameter.
#[tactic(auto, using(crate::proofs::RowLaws::parameter_row))]
pub(crate) fn emit_closure_call(
    out: &mut Output,
    layers: &Layers,
    charged: usize,
    at: Coordinate,
) -> Result<(), AllocError>
    requires { IsUnknown (outer (context_of layers.now) at.layers_up) at.slot }
    ensures { OnOk result ((w : _) (ss : _) (ps : _) →
        Emits w (site_of layers.now) charged (call at ss ps) (emitted_of out.old)
        (emitted_of out.new)) }
{
    let nodes = successor(charged)?;
    let closure = frame_coordinate(layers, at)?;
    out.emit(Instr::CallClosure { nodes, closure })
}
