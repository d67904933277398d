//! What is emitted for a choice. An alternative that asks for roots joins a chain, whose selects find the first alternative that
//! asks for the term's root; any other arm stands alone, after a try.
ghost use Rattle.std.specs.Prelude.{OnOk, map};
ghost use Rattle.core_lang.specs.Views.{arm_of, strategy_of};
ghost use Rattle.strat_compile.specs.ChainOf.{bodies_of, roots_of};
ghost use Rattle.strat_compile.specs.Emission.{EmitsArm, EmitsThen, Joins, PutsArm, PutsArms, PutsFirst, PutsJoined};
ghost use Rattle.strat_compile.specs.Layers.{context_of, site_of};
ghost use Rattle.strat_compile.specs.Output.{emitted_of};

use crate::chain::{Body, Chain};
use crate::emit::emit;
use crate::layers::{Layers, successor};
use crate::leaves::emit_commit;
use crate::output::Output;
use crate::roots::{Asked, joining};
use crate::selects::{close, emit_chain};
use core_lang::{CoreArm, CoreStrategy};
use std::alloc::{AllocError, Global};
use strat_code::Instr;

/// Emits further arms of a choice in front of a chain, and so on to the chain that the first of them begin, whose selects are
/// not emitted yet.
#[cycle(emission)]
#[tactic(auto, using(crate::proofs::EmissionLaws::arm_next, crate::proofs::EmissionLaws::no_arm))]
pub(crate) fn emit_arms(
    alloc: Global,
    out: &mut Output,
    layers: &Layers,
    places: Option<usize>,
    arms: &[CoreArm],
    end: usize,
    chain: &mut Chain,
    depth: usize,
) -> Result<(), AllocError>
    ensures { OnOk result (PutsArms places (site_of layers.now) (map arm_of arms.now) end
        (bodies_of chain.old) chain.old.last (emitted_of out.old) (bodies_of chain.new)
        chain.new.last (emitted_of out.new)) }
{
    for index in (0..arms.len()).rev() {
        emit_next(alloc, out, layers, places, &arms[index], end, chain, depth)?;
    }
    Ok(())
}

/// An arm in front of a chain, which it joins or whose end it is.
#[cycle(emission)]
#[tactic(auto, using(crate::proofs::ChoiceLaws::plain_row, crate::proofs::ChoiceLaws::joined_puts))]
fn emit_next(
    alloc: Global,
    out: &mut Output,
    layers: &Layers,
    places: Option<usize>,
    arm: &CoreArm,
    end: usize,
    chain: &mut Chain,
    depth: usize,
) -> Result<(), AllocError>
    ensures { OnOk result (PutsArm places (site_of layers.now) (arm_of arm.now) end
        (bodies_of chain.old) chain.old.last (emitted_of out.old) (bodies_of chain.new)
        chain.new.last (emitted_of out.new)) }
{
    let Some(found) = joining(alloc, out, layers, arm, !chain.is_empty())? else {
        close(alloc, out, chain)?;
        emit_arm(alloc, out, layers, places, 0, arm, end, depth)?;
        chain.last = out.place();
        return Ok(());
    };
    emit_joined(alloc, out, layers, places, arm, found, end, chain, depth)
}

/// Emits the first arm of a choice in front of a chain, and the selects of the chain.
#[cycle(emission)]
#[tactic(auto, using(crate::proofs::ChoiceLaws::first_plain, crate::proofs::ChoiceLaws::first_joined))]
pub(crate) fn emit_first(
    alloc: Global,
    out: &mut Output,
    layers: &Layers,
    places: Option<usize>,
    charged: usize,
    arm: &CoreArm,
    end: usize,
    chain: &mut Chain,
    depth: usize,
) -> Result<(), AllocError>
    ensures { OnOk result (PutsFirst places (site_of layers.now) charged (arm_of arm.now) end
        (bodies_of chain.old) chain.old.last (emitted_of out.old) (emitted_of out.new)) }
{
    let Some(found) = joining(alloc, out, layers, arm, !chain.is_empty())? else {
        close(alloc, out, chain)?;
        return emit_arm(alloc, out, layers, places, charged, arm, end, depth);
    };
    let nodes = successor(charged)?;
    emit_joined(alloc, out, layers, places, arm, found, end, chain, depth)?;
    emit_chain(alloc, out, nodes, chain)
}

/// An arm that joins a chain, as its first alternative.
#[cycle(emission)]
#[tactic(auto, using(crate::proofs::ChoiceLaws::joined_row))]
fn emit_joined(
    alloc: Global,
    out: &mut Output,
    layers: &Layers,
    places: Option<usize>,
    arm: &CoreArm,
    found: Asked,
    end: usize,
    chain: &mut Chain,
    depth: usize,
) -> Result<(), AllocError>
    requires { Joins (context_of layers.now) (arm_of arm.now) (roots_of found.roots.items)
        found.nodes }
    ensures { OnOk result (PutsJoined places (site_of layers.now) (arm_of arm.now)
        (roots_of found.roots.items) found.nodes end (bodies_of chain.old) chain.old.last
        (emitted_of out.old) (bodies_of chain.new) chain.new.last (emitted_of out.new)) }
{
    emit_commit(out, end)?;
    emit(alloc, out, layers, places, 0, &arm.guard, depth)?;
    let start = out.place();
    let Asked { roots, nodes } = found;
    chain.push(Body {
        roots,
        nodes,
        start,
    })
}

/// An arm alone, in front of what is done where its guard fails.
#[cycle(emission)]
#[tactic(auto, using(crate::proofs::RowLaws::arm_row))]
fn emit_arm(
    alloc: Global,
    out: &mut Output,
    layers: &Layers,
    places: Option<usize>,
    charged: usize,
    arm: &CoreArm,
    end: usize,
    depth: usize,
) -> Result<(), AllocError>
    ensures { OnOk result (EmitsArm places (site_of layers.now) charged (arm_of arm.now).guard
        (arm_of arm.now).then end (emitted_of out.old) (emitted_of out.new)) }
{
    let otherwise = out.place();
    let nodes = successor(charged)?;
    emit_then(alloc, out, layers, places, &arm.then, end, depth)?;
    emit(alloc, out, layers, places, 0, &arm.guard, depth)?;
    out.emit(Instr::Try { nodes, otherwise })
}

/// What follows a guard, after the instruction that takes the choice record off.
#[cycle(emission)]
#[tactic(auto, using(crate::proofs::RowLaws::id_then, crate::proofs::RowLaws::code_then))]
fn emit_then(
    alloc: Global,
    out: &mut Output,
    layers: &Layers,
    places: Option<usize>,
    then: &CoreStrategy,
    end: usize,
    depth: usize,
) -> Result<(), AllocError>
    ensures { OnOk result (EmitsThen places (site_of layers.now) (strategy_of then.now) end
        (emitted_of out.old) (emitted_of out.new)) }
{
    match then {
        CoreStrategy::Id => emit_commit(out, end),
        _ => {
            out.emit(Instr::Jump { next_address: end })?;
            emit(alloc, out, layers, places, 0, then, depth)?;
            let next_address = out.place();
            out.emit(Instr::Commit {
                nodes: 0,
                next_address,
            })
        }
    }
}
