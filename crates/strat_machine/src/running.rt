//! Runs: steps from the start to the end.
ghost use Rattle.term_model.specs.Limits.{max_budget};
ghost use Rattle.term_model.specs.Space.{KeepsNames};
ghost use Rattle.std.specs.Prelude.{◌≡◌, ◌↔◌, ◌+◌, ◌*◌, ◌≤◌, IsTrue, IfOk};
ghost use Rattle.core_lang.specs.declared.run.Outcome.TheVariants as outcomes;
ghost use Rattle.prim_registry.specs.Entries.{IsHonest, entries_of};
ghost use Rattle.strat_code.specs.CodeOf.{code_of};
ghost use Rattle.strat_steps.specs.Outcomes.{OutcomeStands, end_ref};
ghost use Rattle.strat_machine.specs.Actions.{IsLoadedProgram};
ghost use Rattle.strat_steps.specs.ReferenceSteps.{StepsRef};
ghost use Rattle.prim_registry.specs.Registered.{meaning_of};
ghost use Rattle.strat_steps.specs.Run.{start_ref};
ghost use Rattle.strat_machine.specs.Running.{IsClear, GoesOn, HasEnded, IsOutcomeAt, rules_of};

use crate::failing::fail;
use crate::instructions::perform;
use crate::program::LoadedProgram;
use crate::stacks::{Next, Position, Scratch, Stacks};
use core_lang::{Outcome, Run};
use prim_registry::{PrimMeaning, Registry};
use std::alloc::{AllocError, Global};
use strat_code::Code;
use term_model::TermSpace;

/// Runs loaded code on a term, from clear stacks on. Some of the run may be left on the stacks.
pub(crate) fn run_code<S: TermSpace, M: PrimMeaning>(
    space: &mut S,
    alloc: Global,
    stacks: &mut Stacks<S::Ref, S::Mark>,
    code: &Code,
    program: &LoadedProgram<S::Name>,
    registry: &Registry<M>,
    term: S::Ref,
    budget: u64,
) -> Result<Run<S::Ref>, AllocError>
    requires budget { budget ≤ max_budget }
    requires clear { IsClear stacks.old }
    requires stands { IsTrue (S.space.stands space.old term) }
    requires honest { IsHonest M.answer registry.now }
    requires loaded { IsLoadedProgram (S.space.knows space.old) (S.space.symbol_of space.old)
        (entries_of registry.now)
        S.space.number_of program.now code.now.tables code.now.instrs }
    ensures steps { IfOk result (λ run. StepsRef S.space (code_of code.now.tables code.now.instrs)
        (meaning_of M.answer registry.now) run.steps space.old (start_ref term budget) space.new
        (end_ref run.outcome stacks.new.left)) }
    ensures rules { IfOk result (λ run. run.rules ≡ rules_of run.outcome budget stacks.new.left) }
    ensures few { IfOk result (λ run. run.steps ≤ 3 * run.rules + 1) }
    ensures stands { IfOk result (λ run. OutcomeStands (λ r. IsTrue (S.space.stands space.new r))
        run.outcome) }
    ensures kept { (r : S.Ref) → IsTrue (S.space.stands space.old r) →
        IsTrue (S.space.stands space.new r) ×
        (S.space.term_of space.new r ≡ S.space.term_of space.old r) }
    ensures names { KeepsNames S.space space.old space.new }
{
    // The code stands for some program, so the run ends in time and is never stuck, and each address is one of the code's.
    let _ = code.instrs();
    stacks.left = budget as usize;
    let mut scratch = Scratch::new(alloc);
    let mut steps: u64 = 0;
    let mut next = Next::Running;
    let mut position = Position {
        address: 0,
        frame: 0,
        term,
    };
    let instrs = program.instrs.as_slice();
    loop {
        while let Next::Running = next {
            steps += 1;
            let at = &mut position;
            let spare = &mut scratch;
            next = perform(
                space, alloc, stacks, code, program, instrs, registry, at, spare,
            )?;
        }
        let Next::Failing = next else {
            break;
        };
        steps += 1;
        next = fail(space, stacks, &mut position)?;
    }
    let outcome = outcome_of(next, position);
    let rules = rules_of(&outcome, budget, stacks.left);
    Ok(Run {
        outcome,
        rules,
        steps,
    })
}

/// Whether the run has not ended.
pub(crate) fn goes_on(next: Next) -> bool
    ensures { IsTrue result ↔ GoesOn next }
{
    matches!(next, Next::Running | Next::Failing)
}

/// The outcome of a run that has ended.
fn outcome_of<R: Drop>(next: Next, position: Position<R>) -> Outcome<R>
    requires { HasEnded next }
    ensures { IsOutcomeAt next position result }
{
    match next {
        Next::Rewritten => Outcome::Rewritten(position.term),
        Next::Failed => Outcome::Failed,
        Next::Oversize => Outcome::Oversize,
        Next::Spent => Outcome::Spent,
        _ => unreachable!(),
    }
}

/// The nodes of a run with this outcome that leaves so much of its budget.
fn rules_of<R: Drop>(outcome: &Outcome<R>, budget: u64, left: usize) -> u64
    requires { (outcome.now ≡ outcomes.Spent → ⊥) → left ≤ budget }
    ensures { result ≡ rules_of outcome.now budget left }
{
    match outcome {
        Outcome::Spent => budget,
        _ => budget - left as u64,
    }
}
