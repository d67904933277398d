//! The first steps of a run, and what is noted of them.
ghost use Rattle.term_model.specs.Limits.{max_budget};
ghost use Rattle.term_model.specs.Space.{KeepsNames};
ghost use Rattle.std.specs.Prelude.{◌≡◌, ◌+◌, ◌*◌, ◌^◌, ◌<◌, ◌≤◌, IsTrue, IfOk, length, sum};
ghost use Rattle.prim_registry.specs.Entries.{IsHonest, entries_of};
ghost use Rattle.prim_registry.specs.Registered.{meaning_of};
ghost use Rattle.strat_code.specs.CodeOf.{code_of};
ghost use Rattle.strat_steps.specs.Marks.{Holds};
ghost use Rattle.strat_machine.specs.Accounts.{Charges, IsCharged};
ghost use Rattle.strat_machine.specs.Notes.{HaveRoom, HaveSameRoom};
ghost use Rattle.strat_machine.specs.Actions.{IsLoadedProgram};
ghost use Rattle.strat_machine.specs.Running.{IsClear, HasEnded, HasReached};
ghost use Rattle.strat_machine.specs.Stacks.{state_of};

use crate::addresses::count_at;
use crate::instructions::step;
use crate::program::LoadedProgram;
use crate::running::goes_on;
use crate::stacks::{Next, Position, Scratch, Stacks};
use crate::tracer::Tracer;
use prim_registry::{PrimMeaning, Registry};
use std::alloc::{AllocError, Global};
use strat_code::{Code, Instr};
use term_model::TermSpace;

/// What is noted of the steps of a run.
#[derive(Drop)]
pub(crate) struct Notes {
    /// How many rules the instruction at each address was charged.
    pub(crate) rules: Vec<u64>,
    /// How often the instruction at each address was reached.
    pub(crate) reached: Vec<u64>,
    /// How often it neither failed nor ended the run.
    pub(crate) passed: Vec<u64>,
    pub(crate) failures: Failures,
    /// What is noted of calls.
    pub(crate) tracer: Tracer,
}

/// At which steps a run ended and failed.
#[derive(Clone, Copy)]
pub(crate) struct Failures {
    /// How many steps came before that of the last instruction.
    pub(crate) before_last: u64,
    /// Its address.
    pub(crate) last_address: usize,
    /// How many steps came before that of the deepest instruction that failed, of those since a call last returned. Of several at the same
    /// depth it is the last one behind a match or a call that returned and, if there is none, the last one.
    pub(crate) before_deepest: u64,
    /// How many frames there were then.
    depth: usize,
    /// Whether that instruction was behind a match.
    is_behind_match: bool,
    /// Whether a match has succeeded, or a call has returned, since the last failure or the beginning of the last call.
    has_matched: bool,
}

/// Where a run was before a step.
#[derive(Clone, Copy)]
struct Step {
    /// The address of the instruction, if it performs one.
    address: usize,
    /// How many steps came before it.
    steps: u64,
    /// How many frames there were.
    depth: usize,
}

/// What came of a step.
#[derive(Clone, Copy, Debug, PartialEq, Eq)]
enum Effect {
    /// It performed no instruction, but dealt with a failure.
    WentBack,
    Failed,
    /// A match has succeeded.
    Matched,
    /// A call of a definition or of an argument has begun.
    Called,
    /// A call of a definition or of an argument has returned.
    Returned,
    /// It has ended the run, since the budget did not suffice or a term was too large.
    Ended,
    Other,
}

impl Notes {
    /// Notes of no step, with room for this number of instructions: what others do is not noted, nor are calls.
    pub(crate) fn new(alloc: Global, count: usize) -> Result<Notes, AllocError>
        ensures none { IfOk result (λ notes. sum notes.rules.items ≡ 0) }
        ensures room { IfOk result (λ notes. HaveRoom count notes) }
    {
        Ok(Notes {
            rules: Vec::from_elem(alloc, 0u64, count)?,
            reached: Vec::from_elem(alloc, 0u64, count)?,
            passed: Vec::from_elem(alloc, 0u64, count)?,
            failures: Failures::none(),
            tracer: Tracer::none(alloc),
        })
    }

    /// Notes of no step, with room for calls alone.
    pub(crate) fn of_calls(alloc: Global, tracer: Tracer) -> Notes
        ensures { sum result.rules.items ≡ 0 }
    {
        Notes {
            rules: Vec::new(alloc),
            reached: Vec::new(alloc),
            passed: Vec::new(alloc),
            failures: Failures::none(),
            tracer,
        }
    }

    /// Notes a step.
    fn add(&mut self, step: Step, charged: usize, effect: Effect)
        requires { sum self.old.rules.items + charged < 2 ^ 64 }
        ensures charges { Charges self.old.rules.items step.address charged self.new.rules.items }
        ensures rest { HaveSameRoom self.old self.new }
    {
        charge(&mut self.rules, step.address, charged as u64);
        if effect != Effect::WentBack {
            count_at(&mut self.reached, step.address);
        }
        if effect.has_passed() {
            count_at(&mut self.passed, step.address);
        }
        self.failures.add(step, effect);
    }
}

/// Charges the instruction at an address, if it has a number there, with `count` more rules.
fn charge(rules: &mut Vec<u64>, address: usize, count: u64)
    requires { sum rules.old.items + count < 2 ^ 64 }
    ensures { Charges rules.old.items address count rules.new.items }
{
    if address < rules.len() {
        rules[address] += count;
    }
}

impl Step {
    /// The step after this number of steps, from a position on where there are `depth` frames.
    fn at<R: Drop>(steps: u64, position: &Position<R>, depth: usize) -> Step
        ensures { result.address ≡ position.now.address }
    {
        Step {
            address: position.address,
            steps,
            depth,
        }
    }
}

impl Effect {
    /// Whether an instruction was performed, which neither failed nor ended the run.
    fn has_passed(self) -> bool {
        match self {
            Effect::WentBack | Effect::Failed | Effect::Ended => false,
            Effect::Matched | Effect::Called | Effect::Returned | Effect::Other => true,
        }
    }
}

impl Failures {
    /// No step was noted.
    fn none() -> Failures {
        Failures {
            before_last: 0,
            last_address: 0,
            before_deepest: 0,
            depth: 0,
            is_behind_match: false,
            has_matched: false,
        }
    }

    /// Notes a step.
    fn add(&mut self, step: Step, effect: Effect) {
        if effect != Effect::WentBack {
            self.before_last = step.steps;
            self.last_address = step.address;
        }
        match effect {
            Effect::Failed => self.add_failure(step),
            Effect::Matched => self.has_matched = true,
            Effect::Called => self.has_matched = false,
            Effect::Returned => self.add_return(),
            Effect::WentBack | Effect::Ended | Effect::Other => {}
        }
    }

    /// Notes a failure, if none since a call last returned is deeper, or as deep and behind a match where this one is not.
    fn add_failure(&mut self, step: Step) {
        let is_as_deep = step.depth == self.depth && (self.has_matched || !self.is_behind_match);
        if step.depth > self.depth || is_as_deep {
            self.depth = step.depth;
            self.is_behind_match = self.has_matched;
            self.before_deepest = step.steps;
        }
        self.has_matched = false;
    }

    /// Notes that a call has returned: what failed in it was caught.
    fn add_return(&mut self) {
        self.depth = 0;
        self.is_behind_match = false;
        self.has_matched = true;
    }
}

/// Where a run stands, and what comes next.
#[derive(Drop)]
pub(crate) struct Progress<R: Drop> {
    pub(crate) next: Next,
    pub(crate) position: Position<R>,
}

/// Takes the first steps of a run of a loaded program, from clear stacks on: this number of them, or all. Adds what it notes of them, and
/// returns where the run then is.
#[tactic(auto, using(crate::proofs::RunningLaws::way_holds, crate::proofs::RunningLaws::way_kept))]
pub(crate) fn run_part<S: TermSpace, M: PrimMeaning>(
    space: &mut S,
    alloc: Global,
    stacks: &mut Stacks<S::Ref, S::Mark>,
    code: &Code,
    program: &LoadedProgram<S::Name>,
    registry: &Registry<M>,
    term: S::Ref,
    budget: u64,
    count: u64,
    notes: &mut Notes,
) -> Result<Progress<S::Ref>, AllocError>
    requires budget { budget ≤ max_budget }
    requires clear { IsClear stacks.old }
    requires stands { IsTrue (S.space.stands space.old term) }
    requires honest { IsHonest M.answer registry.now }
    requires loaded { IsLoadedProgram (S.space.knows space.old) (S.space.symbol_of space.old)
        (entries_of registry.now)
        S.space.number_of program.now code.now.tables code.now.instrs }
    requires blank { sum notes.old.rules.items ≡ 0 }
    ensures reached { IfOk result (λ p. HasReached S.space
        (code_of code.now.tables code.now.instrs) (meaning_of M.answer registry.now)
        space.old term budget space.new p.next p.position stacks.new) }
    ensures ended { IfOk result (λ p. 3 * budget + 1 ≤ count → HasEnded p.next) }
    ensures charged { IfOk result (λ _. IsCharged (length code.now.instrs) budget
        (length notes.old.rules.items) notes.new.rules.items stacks.new.left) }
    ensures room { IfOk result (λ _. HaveSameRoom notes.old notes.new) }
    ensures holds { IfOk result (λ p. Holds S.space space.new
        (state_of p.next p.position stacks.new)) }
    ensures kept { (r : S.Ref) → IsTrue (S.space.stands space.old r) →
        IsTrue (S.space.stands space.new r) ×
        (S.space.term_of space.new r ≡ S.space.term_of space.old r) }
    ensures names { KeepsNames S.space space.old space.new }
{
    // The code stands for some program, so the run ends in time.
    let _ = code.instrs();
    stacks.left = budget as usize;
    let mut scratch = Scratch::new(alloc);
    let mut steps: u64 = 0;
    let mut next = Next::Running;
    let mut position = Position {
        address: 0,
        frame: 0,
        term,
    };
    while goes_on(next) {
        notes
            .tracer
            .note(space, alloc, stacks, code, next, &position)?;
        if steps == count {
            return Ok(Progress { next, position });
        }
        let before = stacks.left;
        let began = Step::at(steps, &position, stacks.frames.len());
        let after = step(
            space,
            alloc,
            stacks,
            code,
            program,
            registry,
            next,
            &mut position,
            &mut scratch,
        )?;
        let charged = before.saturating_sub(stacks.left);
        let effect = effect_of(code, began.address, next, after);
        notes.add(began, charged, effect);
        next = after;
        steps += 1;
    }
    notes
        .tracer
        .note(space, alloc, stacks, code, next, &position)?;
    Ok(Progress { next, position })
}

/// What came of the step before and after which these come next, which performed the instruction at the address or dealt with a failure.
fn effect_of(code: &Code, address: usize, before: Next, after: Next) -> Effect {
    if before != Next::Running {
        return Effect::WentBack;
    }
    match after {
        Next::Failing => Effect::Failed,
        Next::Running => match code.instrs().get(address) {
            Some(Instr::Match { .. }) => Effect::Matched,
            Some(Instr::CallDefinition { .. } | Instr::CallClosure { .. }) => Effect::Called,
            Some(Instr::EndDefinition | Instr::EndArgument) => Effect::Returned,
            _ => Effect::Other,
        },
        Next::Spent | Next::Oversize => Effect::Ended,
        _ => Effect::Other,
    }
}
