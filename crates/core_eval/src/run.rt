//! Runs of a core.
ghost use Rattle.std.specs.Prelude.{◌≡◌, ◌≤◌, IfOk, OnOk, OnErr, IfErr, List, []};
ghost use Rattle.core_lang.specs.Core.{program_of};
ghost use Rattle.core_lang.specs.Named.{Name};
ghost use Rattle.core_lang.specs.Program.{Definitions, call, no_strategies, no_patterns};
ghost use Rattle.core_lang.specs.Environment.{definitions, outermost};
ghost use Rattle.core_lang.specs.Resolution.{ResolvesProgram};
ghost use Rattle.core_lang.specs.Resolved.{here};
ghost use Rattle.prim_registry.specs.Entries.{IsHonest};
ghost use Rattle.prim_registry.specs.RegistryNames.{Covers};
ghost use Rattle.core_eval.specs.Evaluates.{EvaluatesOn, IsRun, max_recursive_budget};

use crate::evaluation::evaluate;
use crate::frame::Frame;
use crate::state::State;
use core_lang::{CallTarget, Coordinate, Core, CoreStrategy, Outcome, Run};
use prim_registry::{PrimMeaning, Registry};
use std::alloc::{AllocError, Global};
use term_model::{Fault, Term};

/// Runs the core on the term: main is called without arguments and without bindings, and primitives return what those of the
/// registry do.
///
/// `rules` is the number of nodes of the derivation, and the budget where the budget is spent before the derivation
/// is complete; `steps` is 0. The budget is at most 2,000, since each rule may be a call in a call. The only fault is `Memory`: a growth was refused, here or in a primitive.
pub fn eval<M: PrimMeaning>(
    alloc: Global,
    core: &Core,
    term: &Term,
    budget: u64,
    registry: &Registry<M>,
) -> Result<Run<Term>, Fault>
    requires budget { budget ≤ max_recursive_budget }
    requires honest { IsHonest M.answer registry.now }
    requires covers { Covers registry.now core.now.prims }
    ensures run { IfOk result (λ run. (P : Definitions Name (List Name)) (main : Name) →
        ResolvesProgram P main (program_of core.now) core.now.main →
        IsRun M.answer P main term.now budget run) }
    ensures fault { IfErr result (λ fault. fault ≡ Fault.Memory) }
{
    let mut state = State {
        alloc,
        places: Vec::new(alloc),
        budget,
    };
    let outcome = call_main(core, term, &mut state, registry)?;
    let rules = match &outcome {
        Outcome::Spent => budget,
        _ => budget - state.budget,
    };
    Ok(Run {
        outcome,
        rules,
        steps: 0,
    })
}

/// Evaluates the call of main, in a state without bindings.
fn call_main<M: PrimMeaning>(
    core: &Core,
    term: &Term,
    state: &mut State,
    registry: &Registry<M>,
) -> Result<Outcome<Term>, AllocError>
    requires places { state.old.places.items ≡ [] }
    requires honest { IsHonest M.answer registry.now }
    requires covers { Covers registry.now core.now.prims }
    ensures outcome { IfOk result
        (λ r. EvaluatesOn M.answer (definitions (program_of core.now) outermost)
        (call (here core.now.main) no_strategies no_patterns)
        term.now state.old.budget r state.new.budget) }
    ensures left { OnOk result (state.new.budget ≤ state.old.budget) }
{
    let main = Coordinate {
        layers_up: 0,
        slot: core.main(),
    };
    let target = CallTarget::new(main, None);
    let call = CoreStrategy::Call(target, Vec::new(state.alloc), Vec::new(state.alloc));
    let outermost = Frame::Outermost;
    let program = Frame::Definitions {
        defs: core.defs(),
        outer: &outermost,
    };
    let outcome = evaluate(registry, &call, &program, term, state)?;
    Ok(outcome)
}
