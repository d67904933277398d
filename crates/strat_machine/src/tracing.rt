//! The calls of some definitions in a run.
ghost use Rattle.std.specs.Prelude.{◌≡◌, ◌≤◌, IsTrue};
ghost use Rattle.term_model.specs.Limits.{max_budget};
ghost use Rattle.term_model.specs.Space.{KeepsNames};
ghost use Rattle.prim_registry.specs.Entries.{IsHonest, entries_of};
ghost use Rattle.strat_machine.specs.Actions.{IsLoadedProgram};

use crate::partial::{Notes, run_part};
use crate::program::LoadedProgram;
use crate::stacks::Stacks;
use crate::tracer::{Aim, Tracer};
use prim_registry::{PrimMeaning, Registry};
use std::alloc::{AllocError, Global};
use strat_code::Code;
use term_model::{Term, TermSpace};

/// The most calls that a trace keeps.
pub(crate) const MOST_CALLS: usize = 100;

/// Which calls a trace keeps, at most a hundred of them.
#[derive(Clone, Copy, Debug, PartialEq, Eq)]
pub enum CallsKept {
    /// Those that begin first.
    First,
    /// Those that fail first, in the order in which they begin.
    FirstToFail,
}

/// The definitions whose calls are traced, and which of the calls are kept.
#[derive(Drop)]
pub struct Watched {
    /// The addresses at which their code begins.
    pub entries: Vec<usize>,
    /// The addresses at which the code of their alternatives begins.
    pub alternatives: Vec<usize>,
    pub kept: CallsKept,
}

/// What came of a call.
#[derive(Drop)]
pub enum CallResult {
    /// It was rewritten to this term.
    Rewritten(Term),
    Failed,
    /// It had not ended when the run did.
    Unfinished,
}

/// How far a call came.
#[derive(Clone, Copy, Debug, PartialEq, Eq)]
pub struct Reach {
    /// The address at which the code of an alternative begins: the last one that got past its first instruction.
    pub alternative: usize,
    /// The address of the last instruction of it that was performed in the frame of the call.
    pub address: usize,
}

/// A call of a watched definition. Of its terms it has the first nodes, as a [`Stand`](crate::Stand) has.
#[derive(Drop)]
pub struct Call {
    /// The address at which the code of the definition begins.
    pub entry: usize,
    /// In how many other calls of the trace it stands.
    pub depth: usize,
    /// The term that it was called on.
    pub term: Term,
    /// Its term arguments.
    pub arguments: Vec<Term>,
    pub result: CallResult,
    /// Nothing if no alternative got past its first instruction.
    pub furthest: Option<Reach>,
}

/// The calls of watched definitions in a run.
#[derive(Drop)]
pub struct Trace {
    /// Those that are kept, in the order in which they began.
    pub calls: Vec<Call>,
    /// How many there were.
    pub count: u64,
    /// How many of these failed.
    pub failures: u64,
}

/// The calls of watched definitions in a run of loaded code. Some of the run may be left on the stacks.
pub(crate) fn trace_of<S: TermSpace, M: PrimMeaning>(
    space: &mut S,
    alloc: Global,
    stacks: &mut Stacks<S::Ref, S::Mark>,
    code: &Code,
    program: &LoadedProgram<S::Name>,
    registry: &Registry<M>,
    term: &S::Ref,
    budget: u64,
    watched: &Watched,
) -> Result<Trace, AllocError>
    requires budget { budget ≤ max_budget }
    requires stands { IsTrue (S.space.stands space.old term.now) }
    requires honest { IsHonest M.answer registry.now }
    requires loaded { IsLoadedProgram (S.space.knows space.old) (S.space.symbol_of space.old)
        (entries_of registry.now)
        S.space.number_of program.now code.now.tables code.now.instrs }
    ensures kept { (r : S.Ref) → IsTrue (S.space.stands space.old r) →
        IsTrue (S.space.stands space.new r) ×
        (S.space.term_of space.new r ≡ S.space.term_of space.old r) }
    ensures names { KeepsNames S.space space.old space.new }
{
    if watched.kept == CallsKept::FirstToFail {
        return trace_of_failing(
            space, alloc, stacks, code, program, registry, term, budget, watched,
        );
    }
    let tracer = Tracer::new(alloc, code, watched, Aim::FirstCalls)?;
    let seen = run_traced(
        space, alloc, stacks, code, program, registry, term, budget, tracer,
    )?;
    Ok(seen.into_trace())
}

/// Of these calls those that fail first, which two runs find and a third one keeps.
#[tactic(auto, using(crate::proofs::MachineLaws::kept_twice, crate::proofs::MachineLaws::loaded_later, term_model::proofs::SpaceLaws::names_then))]
fn trace_of_failing<S: TermSpace, M: PrimMeaning>(
    space: &mut S,
    alloc: Global,
    stacks: &mut Stacks<S::Ref, S::Mark>,
    code: &Code,
    program: &LoadedProgram<S::Name>,
    registry: &Registry<M>,
    term: &S::Ref,
    budget: u64,
    watched: &Watched,
) -> Result<Trace, AllocError>
    requires budget { budget ≤ max_budget }
    requires stands { IsTrue (S.space.stands space.old term.now) }
    requires honest { IsHonest M.answer registry.now }
    requires loaded { IsLoadedProgram (S.space.knows space.old) (S.space.symbol_of space.old)
        (entries_of registry.now)
        S.space.number_of program.now code.now.tables code.now.instrs }
    ensures kept { (r : S.Ref) → IsTrue (S.space.stands space.old r) →
        IsTrue (S.space.stands space.new r) ×
        (S.space.term_of space.new r ≡ S.space.term_of space.old r) }
    ensures names { KeepsNames S.space space.old space.new }
{
    let tracer = find_failing(
        space, alloc, stacks, code, program, registry, term, budget, watched,
    )?;
    let seen = run_traced(
        space, alloc, stacks, code, program, registry, term, budget, tracer,
    )?;
    Ok(seen.into_trace())
}

/// Finds the watched calls that fail first. Returns what keeps them in another run.
#[tactic(auto, using(crate::proofs::MachineLaws::kept_twice, crate::proofs::MachineLaws::loaded_later, term_model::proofs::SpaceLaws::names_then))]
fn find_failing<S: TermSpace, M: PrimMeaning>(
    space: &mut S,
    alloc: Global,
    stacks: &mut Stacks<S::Ref, S::Mark>,
    code: &Code,
    program: &LoadedProgram<S::Name>,
    registry: &Registry<M>,
    term: &S::Ref,
    budget: u64,
    watched: &Watched,
) -> Result<Tracer, AllocError>
    requires budget { budget ≤ max_budget }
    requires stands { IsTrue (S.space.stands space.old term.now) }
    requires honest { IsHonest M.answer registry.now }
    requires loaded { IsLoadedProgram (S.space.knows space.old) (S.space.symbol_of space.old)
        (entries_of registry.now)
        S.space.number_of program.now code.now.tables code.now.instrs }
    ensures kept { (r : S.Ref) → IsTrue (S.space.stands space.old r) →
        IsTrue (S.space.stands space.new r) ×
        (S.space.term_of space.new r ≡ S.space.term_of space.old r) }
    ensures names { KeepsNames S.space space.old space.new }
{
    let tracer = Tracer::new(alloc, code, watched, Aim::Ends)?;
    let mut ended = run_traced(
        space, alloc, stacks, code, program, registry, term, budget, tracer,
    )?;
    ended.find_beginnings()?;
    let mut begun = run_traced(
        space, alloc, stacks, code, program, registry, term, budget, ended,
    )?;
    begun.keep_failed(alloc)?;
    Ok(begun)
}

/// Notes the calls in a run of loaded code. Some of the run may be left on the stacks.
fn run_traced<S: TermSpace, M: PrimMeaning>(
    space: &mut S,
    alloc: Global,
    stacks: &mut Stacks<S::Ref, S::Mark>,
    code: &Code,
    program: &LoadedProgram<S::Name>,
    registry: &Registry<M>,
    term: &S::Ref,
    budget: u64,
    tracer: Tracer,
) -> Result<Tracer, AllocError>
    requires budget { budget ≤ max_budget }
    requires stands { IsTrue (S.space.stands space.old term.now) }
    requires honest { IsHonest M.answer registry.now }
    requires loaded { IsLoadedProgram (S.space.knows space.old) (S.space.symbol_of space.old)
        (entries_of registry.now)
        S.space.number_of program.now code.now.tables code.now.instrs }
    ensures kept { (r : S.Ref) → IsTrue (S.space.stands space.old r) →
        IsTrue (S.space.stands space.new r) ×
        (S.space.term_of space.new r ≡ S.space.term_of space.old r) }
    ensures names { KeepsNames S.space space.old space.new }
{
    let first = space.dup(term)?;
    stacks.clear();
    let mut notes = Notes::of_calls(alloc, tracer);
    let _progress = run_part(
        space,
        alloc,
        stacks,
        code,
        program,
        registry,
        first,
        budget,
        u64::MAX,
        &mut notes,
    )?;
    Ok(notes.tracer)
}
