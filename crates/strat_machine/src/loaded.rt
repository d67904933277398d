//! Code that stays loaded from run to run.
ghost use Rattle.std.specs.Prelude.{◌≡◌, ◌+◌, ◌*◌, ◌≤◌, ℕ, List, IsTrue, IfOk, IfErr};
ghost use Rattle.term_model.specs.Limits.{max_budget};
ghost use Rattle.term_model.specs.Space.{Keeps, KeepsNames, MakesNone};
ghost use Rattle.core_lang.specs.Named.{Name};
ghost use Rattle.core_lang.specs.Primitives.{AreOccurring};
ghost use Rattle.core_lang.specs.Program.{Definitions};
ghost use Rattle.core_lang.specs.Resolution.{ResolvesProgram};
ghost use Rattle.core_lang.specs.Resolved.{ResolvedDefinitions};
ghost use Rattle.core_lang.specs.Run.{IsOutcome};
ghost use Rattle.prim_registry.specs.Entries.{IsHonest, entries_of};
ghost use Rattle.prim_registry.specs.RegistryNames.{Covers};
ghost use Rattle.prim_registry.specs.Registered.{meaning_of};
ghost use Rattle.strat_code.specs.CodeOf.{code_of};
ghost use Rattle.strat_code.specs.StandsFor.{StandsFor};
ghost use Rattle.strat_steps.specs.Outcomes.{OutcomeStands, Ran, outcome_tree};

use crate::program::{LoadedProgram, load_program};
use crate::running::run_code;
use crate::stacks::Stacks;
use core_lang::Run;
use prim_registry::{PrimMeaning, Registry};
use std::alloc::{AllocError, Global};
use std::marker::Model;
use strat_code::Code;
use term_model::{Fault, TermSpace};

/// Stacks that are clear between runs, kept for their memory. Contracts see nothing of them.
#[derive(Drop)]
struct KeptStacks<R: Drop, M: Drop> {
    stacks: Stacks<R, M>,
}

impl<R: Drop, M: Drop> Model for KeptStacks<R, M> {
    ghost use Rattle.std.specs.Prelude.{⊤};
    ghost use Rattle.strat_machine.specs.Running.{IsClear};

    ghost Value = { ⊤ };

    ghost view = { λ k. tt };

    ghost invariant = { λ k. IsClear k.stacks };
}

/// Code whose names are known to a space, and whose primitives were looked up in a registry. It stays so while the space knows these
/// names, also where the space goes back to a mark between runs.
#[derive(Drop)]
pub struct Loaded<S: TermSpace> {
    program: LoadedProgram<S::Name>,
    kept: KeptStacks<S::Ref, S::Mark>,
}

impl<S: TermSpace> Loaded<S> {
    ghost use Rattle.strat_machine.specs.LoadedCode.{IsLoadedIn};

    /// Loads the code: brings its names into the space, and looks its primitives up in the registry.
    ///
    /// No term is made: exactly what stood stands, also where `AllocError` is returned, since a growth was refused. The space may then
    /// know more names than before.
    pub fn new<M: PrimMeaning>(
        space: &mut S,
        alloc: Global,
        code: &Code,
        registry: &Registry<M>,
    ) -> Result<Loaded<S>, AllocError>
        ensures keeps { Keeps S.space space.old space.new }
        ensures none { MakesNone S.space space.old space.new }
        ensures loaded { IfOk result (λ loaded.
            IsLoadedIn S.space space.new (entries_of registry.now) loaded code.now) }
    {
        let program = load_program(space, alloc, code, registry)?;
        let stacks = Stacks::new(alloc);
        Ok(Loaded {
            program,
            kept: KeptStacks { stacks },
        })
    }

    /// Runs the code, which is loaded in the space with the primitives of the registry, on the term within a budget of rules, at most
    /// 10^18. The outcome is that of every program that the code stands for, where primitives return what those of the registry do.
    ///
    /// `rules` is the number of nodes of the derivation, or the whole budget where it is spent before the derivation is
    /// complete; `steps` is the number of steps that the machine took. The only fault is `Memory`: a growth was refused, here or
    /// in a primitive. After a fault, as after a run, the code is still loaded, and can run again.
    pub fn run<M: PrimMeaning>(
        &mut self,
        space: &mut S,
        alloc: Global,
        code: &Code,
        term: S::Ref,
        budget: u64,
        registry: &Registry<M>,
    ) -> Result<Run<S::Ref>, Fault>
        requires budget { budget ≤ max_budget }
        requires stands { IsTrue (S.space.stands space.old term) }
        requires honest { IsHonest M.answer registry.now }
        requires covers { Covers registry.now code.now.prims }
        requires loaded { IsLoadedIn S.space space.old (entries_of registry.now) self.old code.now }
        ensures run { IfOk result (λ run.
            (P : Definitions Name (List Name)) (main : Name) (C : ResolvedDefinitions) (i : ℕ) →
            StandsFor (code_of code.now.tables code.now.instrs) C i →
            AreOccurring code.now.prims C → ResolvesProgram P main C i →
            IsOutcome M.answer P main (S.space.term_of space.old term) budget
            (outcome_tree (S.space.term_of space.new) run.outcome) run.rules) }
        ensures steps { IfOk result (λ run.
            Ran S.space (code_of code.now.tables code.now.instrs) (meaning_of M.answer registry.now)
            space.old term budget space.new run) }
        ensures few { IfOk result (λ run. run.steps ≤ 3 * run.rules + 1) }
        ensures stands { IfOk result (λ run.
            OutcomeStands (λ r. IsTrue (S.space.stands space.new r)) run.outcome) }
        ensures kept { (r : S.Ref) → IsTrue (S.space.stands space.old r) →
            IsTrue (S.space.stands space.new r) ×
            (S.space.term_of space.new r ≡ S.space.term_of space.old r) }
        ensures names { KeepsNames S.space space.old space.new }
        ensures fault { IfErr result (λ fault. fault ≡ Fault.Memory) }
        ensures same { self.new ≡ self.old }
    {
        let run = run_code(
            space,
            alloc,
            &mut self.kept.stacks,
            code,
            &self.program,
            registry,
            term,
            budget,
        );
        self.kept.stacks.clear();
        Ok(run?)
    }
}
