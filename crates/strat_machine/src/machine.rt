//! The machine: it runs code on the terms of a space.
ghost use Rattle.std.specs.Prelude.{◌≡◌, ◌+◌, ◌*◌, ◌≤◌, ℕ, List, IsTrue, IfOk, IfErr, length};
ghost use Rattle.term_model.specs.Limits.{max_budget};
ghost use Rattle.term_model.specs.Space.{Keeps, KeepsNames};
ghost use Rattle.core_lang.specs.Named.{Name};
ghost use Rattle.core_lang.specs.Primitives.{AreOccurring};
ghost use Rattle.core_lang.specs.Program.{Definitions};
ghost use Rattle.core_lang.specs.Resolution.{ResolvesProgram};
ghost use Rattle.core_lang.specs.Resolved.{ResolvedDefinitions};
ghost use Rattle.core_lang.specs.Run.{IsOutcome};
ghost use Rattle.prim_registry.specs.Entries.{IsHonest};
ghost use Rattle.prim_registry.specs.RegistryNames.{Covers};
ghost use Rattle.strat_code.specs.CodeOf.{code_of};
ghost use Rattle.strat_code.specs.StandsFor.{StandsFor};
ghost use Rattle.strat_steps.specs.Outcomes.{OutcomeStands, Ran, outcome_tree};
ghost use Rattle.strat_machine.specs.Accounts.{HasCounts, IsAccount};
ghost use Rattle.prim_registry.specs.Registered.{meaning_of};
ghost use Rattle.term_model.specs.Results.{Returns};

use crate::explaining::{Account, Stand, account_of, stand_after};
use crate::loaded::Loaded;
use crate::program::load_program;
use crate::stacks::Stacks;
use crate::tracing::{Trace, Watched, trace_of};
use core_lang::Run;
use prim_registry::{PrimMeaning, Registry};
use std::alloc::{AllocError, Global};
use std::marker::Model;
use strat_code::Code;
use term_model::{Fault, Term, TermSpace};

/// A machine that runs code on terms of a space. Contracts see it as its space.
#[derive(Drop)]
pub struct Machine<S: TermSpace + Drop> {
    alloc: Global,
    space: S,
    /// Those of accounts, traces and stands. Clear between them; their memory is kept.
    stacks: Stacks<S::Ref, S::Mark>,
}

impl<S: TermSpace + Drop> Model for Machine<S> {
    ghost use Rattle.strat_machine.specs.Running.{IsClear};

    ghost Value = { S };

    ghost view = { λ m. m.space };

    ghost invariant = { λ m. IsClear m.stacks };
}

impl<S: TermSpace + Drop> Machine<S> {
    /// A machine over the space, which stays as it is. Takes no memory.
    pub fn new(alloc: Global, space: S) -> Machine<S>
        ensures { result ≡ space }
    {
        Machine {
            alloc,
            space,
            stacks: Stacks::new(alloc),
        }
    }

    /// The machine's space.
    pub fn space(&self) -> &S
        ensures { result.now ≡ self.now }
    {
        &self.space
    }

    /// Brings a term into the space, and returns its reference.
    pub fn enter(&mut self, term: &Term) -> Result<S::Ref, AllocError>
        ensures keeps { Keeps S.space self.old self.new }
        ensures stands { IfOk result (λ r. IsTrue (S.space.stands self.new r)) }
        ensures term { IfOk result (λ r. S.space.term_of self.new r ≡ term.now) }
    {
        self.space.enter(self.alloc, term)
    }

    /// Returns the term of a reference.
    pub fn leave(&self, reference: &S::Ref) -> Result<Term, AllocError>
        requires { IsTrue (S.space.stands self.now reference.now) }
        ensures { Returns result (S.space.term_of self.now reference.now) }
    {
        self.space.leave(self.alloc, reference)
    }

    /// Runs the code on the term within a budget of rules, at most 10^18. The outcome is that of every program that the code stands for, where
    /// primitives return what those of the registry do.
    ///
    /// `rules` is the number of nodes of the derivation, or the whole budget where it is spent before the derivation is
    /// complete; `steps` is the number of steps that the machine took. The only fault is `Memory`: a growth was refused, here or
    /// in a primitive. After a fault the machine can run again.
    pub fn run<M: PrimMeaning>(
        &mut self,
        code: &Code,
        term: S::Ref,
        budget: u64,
        registry: &Registry<M>,
    ) -> Result<Run<S::Ref>, Fault>
        requires budget { budget ≤ max_budget }
        requires stands { IsTrue (S.space.stands self.old term) }
        requires honest { IsHonest M.answer registry.now }
        requires covers { Covers registry.now code.now.prims }
        ensures run { IfOk result (λ run.
            (P : Definitions Name (List Name)) (main : Name) (C : ResolvedDefinitions) (i : ℕ) →
            StandsFor (code_of code.now.tables code.now.instrs) C i →
            AreOccurring code.now.prims C → ResolvesProgram P main C i →
            IsOutcome M.answer P main (S.space.term_of self.old term) budget
            (outcome_tree (S.space.term_of self.new) run.outcome) run.rules) }
        ensures steps { IfOk result (λ run.
            Ran S.space (code_of code.now.tables code.now.instrs) (meaning_of M.answer registry.now)
            self.old term budget self.new run) }
        ensures few { IfOk result (λ run. run.steps ≤ 3 * run.rules + 1) }
        ensures stands { IfOk result (λ run.
            OutcomeStands (λ r. IsTrue (S.space.stands self.new r)) run.outcome) }
        ensures kept { (r : S.Ref) → IsTrue (S.space.stands self.old r) →
            IsTrue (S.space.stands self.new r) ×
            (S.space.term_of self.new r ≡ S.space.term_of self.old r) }
        ensures names { KeepsNames S.space self.old self.new }
        ensures fault { IfErr result (λ fault. fault ≡ Fault.Memory) }
    {
        let space = &mut self.space;
        let mut loaded = Loaded::new(space, self.alloc, code, registry)?;
        let run = loaded.run(space, self.alloc, code, term, budget, registry)?;
        Ok(run)
    }

    /// Runs the code on the term within a budget of rules, and returns an account of the run: how many rules the instruction
    /// at each address was charged, how often it was reached and passed, how the run ended, and at which steps it failed.
    ///
    /// The ending is that of every program that the code stands for, and the rules add up to the nodes of the derivation; where the
    /// budget is spent, to no more than the budget. Of the other counts a contract says that there is one for each instruction; none
    /// speaks of the steps. The space keeps its terms and names, also after a
    /// fault. The only fault is `Memory`: a growth was refused, here or in a primitive. After a fault, as after an account, the machine
    /// can run again.
    pub fn account<M: PrimMeaning>(
        &mut self,
        code: &Code,
        term: S::Ref,
        budget: u64,
        registry: &Registry<M>,
    ) -> Result<Account, Fault>
        requires budget { budget ≤ max_budget }
        requires stands { IsTrue (S.space.stands self.old term) }
        requires honest { IsHonest M.answer registry.now }
        requires covers { Covers registry.now code.now.prims }
        ensures account { IfOk result (λ account.
            (P : Definitions Name (List Name)) (main : Name) (C : ResolvedDefinitions) (i : ℕ) →
            StandsFor (code_of code.now.tables code.now.instrs) C i →
            AreOccurring code.now.prims C → ResolvesProgram P main C i →
            IsAccount M.answer P main (S.space.term_of self.old term) budget account) }
        ensures counts { IfOk result (λ account. HasCounts (length code.now.instrs) account) }
        ensures kept { (r : S.Ref) → IsTrue (S.space.stands self.old r) →
            IsTrue (S.space.stands self.new r) ×
            (S.space.term_of self.new r ≡ S.space.term_of self.old r) }
        ensures names { KeepsNames S.space self.old self.new }
        ensures fault { IfErr result (λ fault. fault ≡ Fault.Memory) }
    {
        let space = &mut self.space;
        let program = load_program(space, self.alloc, code, registry)?;
        let account = account_of(
            space,
            self.alloc,
            &mut self.stacks,
            code,
            &program,
            registry,
            term,
            budget,
        );
        self.stacks.clear();
        Ok(account?)
    }

    /// Runs the code in the same way, once or, for the calls that fail, three times, and returns the calls of watched definitions.
    ///
    /// The space keeps its terms and names, also after a fault. No contract speaks of what is returned. The only fault is `Memory`: a
    /// growth was refused, here or in a primitive. After a fault, as after a trace, the machine can run again.
    pub fn trace<M: PrimMeaning>(
        &mut self,
        code: &Code,
        term: &S::Ref,
        budget: u64,
        registry: &Registry<M>,
        watched: &Watched,
    ) -> Result<Trace, Fault>
        requires budget { budget ≤ max_budget }
        requires stands { IsTrue (S.space.stands self.old term.now) }
        requires honest { IsHonest M.answer registry.now }
        requires covers { Covers registry.now code.now.prims }
        ensures kept { (r : S.Ref) → IsTrue (S.space.stands self.old r) →
            IsTrue (S.space.stands self.new r) ×
            (S.space.term_of self.new r ≡ S.space.term_of self.old r) }
        ensures names { KeepsNames S.space self.old self.new }
        ensures fault { IfErr result (λ fault. fault ≡ Fault.Memory) }
    {
        let space = &mut self.space;
        let program = load_program(space, self.alloc, code, registry)?;
        let trace = trace_of(
            space,
            self.alloc,
            &mut self.stacks,
            code,
            &program,
            registry,
            term,
            budget,
            watched,
        );
        self.stacks.clear();
        Ok(trace?)
    }

    /// Takes the first `count` steps of such a run, and returns where it then stands; nothing where no instruction comes next.
    ///
    /// The space keeps its terms and names, also after a fault. No contract speaks of what is returned. The only fault is `Memory`: a
    /// growth was refused, here or in a primitive. After a fault, as after a stand, the machine can run again.
    pub fn stand<M: PrimMeaning>(
        &mut self,
        code: &Code,
        term: S::Ref,
        budget: u64,
        registry: &Registry<M>,
        count: u64,
    ) -> Result<Option<Stand>, Fault>
        requires budget { budget ≤ max_budget }
        requires stands { IsTrue (S.space.stands self.old term) }
        requires honest { IsHonest M.answer registry.now }
        requires covers { Covers registry.now code.now.prims }
        ensures kept { (r : S.Ref) → IsTrue (S.space.stands self.old r) →
            IsTrue (S.space.stands self.new r) ×
            (S.space.term_of self.new r ≡ S.space.term_of self.old r) }
        ensures names { KeepsNames S.space self.old self.new }
        ensures fault { IfErr result (λ fault. fault ≡ Fault.Memory) }
    {
        let space = &mut self.space;
        let program = load_program(space, self.alloc, code, registry)?;
        let stand = stand_after(
            space,
            self.alloc,
            &mut self.stacks,
            code,
            &program,
            registry,
            term,
            budget,
            count,
        );
        self.stacks.clear();
        Ok(stand?)
    }
}
