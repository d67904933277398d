//! Runs of code, from a term in a space to the text of the term that it rewrites to.
ghost use Rattle.std.specs.Prelude.{◌≡◌, ◌≤◌, IsTrue, IfOk, IfErr, IsSomeAnd};
ghost use Rattle.term_model.specs.Limits.{max_budget};
ghost use Rattle.term_model.specs.Space.{KeepsNames};
ghost use Rattle.prim_registry.specs.Entries.{IsHonest, entries_of};
ghost use Rattle.prim_registry.specs.RegistryNames.{Covers};
ghost use Rattle.strat_machine.specs.LoadedCode.{IsLoadedIn};
ghost use Rattle.strat_steps.specs.Outcomes.{OutcomeStands, outcome_tree};
ghost use Rattle.str_pipeline.specs.Steps.{IsRulesOfRun, IsTextOf, IsTextOfRun};

use aterm_text::write_out;
use core_lang::Outcome;
use diagnostics::{RunNotes, Used};
use prim_registry::{PrimMeaning, Registry};
use std::alloc::{AllocError, Global};
use strat_code::Code;
use strat_machine::Loaded;
use term_model::{Fault, TermSpace};
use term_store::{OversizeTerm, StoreSpace};

/// A space that knows how many shapes of terms it holds, and the size of the last term that did not fit, and can be emptied.
pub(crate) trait Holds: TermSpace {
    fn shapes(&self) -> usize;

    fn oversize_term(&self) -> Option<OversizeTerm>;

    /// Takes all terms out. Names stay known, and the memory of the space is kept.
    fn forget(&mut self)
        ensures { KeepsNames Self.space self.old self.new };
}

impl Holds for StoreSpace {
    fn shapes(&self) -> usize {
        self.len()
    }

    fn oversize_term(&self) -> Option<OversizeTerm> {
        self.oversize_term()
    }

    fn forget(&mut self) {
        self.back_to(0);
    }
}

/// Returns what the code, which is loaded in the space, does with the term of the reference within a budget of rules, with the
/// canonical text of the result in place of the result, and notes what the run used. The run takes place in the space, which no term
/// leaves. The only fault is `Memory`.
#[inline(never)]
pub(crate) fn run_machine<S: Holds, M: PrimMeaning>(
    alloc: Global,
    space: &mut S,
    loaded: &mut Loaded<S>,
    code: &Code,
    term: S::Ref,
    budget: u64,
    registry: &Registry<M>,
    notes: &mut RunNotes,
) -> Result<Outcome<Vec<u8>>, Fault>
    requires budget { budget ≤ max_budget }
    requires stands { IsTrue (S.space.stands space.old term) }
    requires honest { IsHonest M.answer registry.now }
    requires covers { Covers registry.now code.now.prims }
    requires loaded { IsLoadedIn S.space space.old (entries_of registry.now) loaded.old code.now }
    ensures outcome { IfOk result (λ told.
        IsTextOfRun M.answer code.now (S.space.term_of space.old term) budget told) }
    ensures used { IfOk result (λ told. IsSomeAnd notes.new.used (λ used.
        IsRulesOfRun M.answer code.now (S.space.term_of space.old term) budget told used.rules)) }
    ensures fault { IfErr result (λ fault. fault ≡ Fault.Memory) }
    ensures loaded { IsLoadedIn S.space space.new (entries_of registry.now) loaded.new code.now }
{
    let run = loaded.run(space, alloc, code, term, budget, registry)?;
    if let Outcome::Oversize = run.outcome {
        notes.note_oversize(space.oversize_term());
    }
    notes.note_run(Used {
        rules: run.rules,
        steps: run.steps,
        shapes: space.shapes(),
    });
    let outcome = in_text(alloc, space, &run.outcome)?;
    Ok(outcome)
}

/// Returns the outcome with the canonical text of the term of its reference.
fn in_text<S: TermSpace>(
    alloc: Global,
    space: &S,
    outcome: &Outcome<S::Ref>,
) -> Result<Outcome<Vec<u8>>, AllocError>
    requires { OutcomeStands (λ r. IsTrue (S.space.stands space.now r)) outcome.now }
    ensures { IfOk result (λ told. IsTextOf told
        (outcome_tree (S.space.term_of space.now) outcome.now)) }
{
    match outcome {
        Outcome::Rewritten(reference) => {
            let mut text = Vec::new(alloc);
            write_out(space, reference, &mut text)?;
            Ok(Outcome::Rewritten(text))
        }
        Outcome::Failed => Ok(Outcome::Failed),
        Outcome::Oversize => Ok(Outcome::Oversize),
        Outcome::Spent => Ok(Outcome::Spent),
    }
}
