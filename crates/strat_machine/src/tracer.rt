//! What is noted of the calls of watched definitions while a run goes on.
ghost use Rattle.std.specs.Prelude.{◌≡◌, IsTrue};
ghost use Rattle.strat_machine.specs.Stacks.{state_of};
ghost use Rattle.strat_steps.specs.Marks.{Holds};
ghost use Rattle.strat_steps.specs.References.{AllPlaces};

use crate::addresses::Addresses;
use crate::failed_calls::FailedCalls;
use crate::shortening::first_nodes;
use crate::stacks::{Next, Position, Stacks};
use crate::tracing::{Call, CallResult, MOST_CALLS, Reach, Trace, Watched};
use core_lang::Coordinate;
use std::alloc::{AllocError, Global};
use strat_code::{Code, Instr};
use strat_patterns::{Frames, value};
use term_model::{Term, TermSpace};

/// What a run is to find.
#[derive(Clone, Copy, Debug, PartialEq, Eq)]
pub(crate) enum Aim {
    Nothing,
    /// The calls that begin first.
    FirstCalls,
    /// When the calls end that fail first.
    Ends,
    /// When these calls begin.
    Beginnings,
    /// These calls, whose numbers are known.
    Failures,
}

/// A call of the trace that has not ended.
#[derive(Clone, Copy)]
struct OpenCall {
    /// Its position among the calls of the trace.
    index: usize,
    /// How many records there are with that of the call.
    height: usize,
    frame: usize,
    /// The address of the alternative that is tried.
    alternative: usize,
}

/// What is noted of the calls of watched definitions.
#[derive(Drop)]
pub(crate) struct Tracer {
    /// Where the watched definitions begin, where their alternatives do, and what their own code is.
    entries: Addresses,
    alternatives: Addresses,
    own: Addresses,
    aim: Aim,
    /// The calls that fail first, as far as they were found, and their numbers in ascending order, once these are known.
    failed: FailedCalls,
    numbers: Vec<u64>,
    trace: Trace,
    /// The calls of the trace that have not ended, the innermost last.
    open: Vec<OpenCall>,
    /// How many steps there were.
    steps: u64,
    /// What came next before the last step.
    before: Next,
    /// An address in the code of the innermost call: that of the last instruction or, if this failed in a call that it is out of, the
    /// one after that call.
    address: usize,
    /// The frame of the last instruction.
    frame: usize,
}

impl Tracer {
    /// No call is watched; this takes no memory.
    pub(crate) fn none(alloc: Global) -> Tracer {
        Tracer {
            entries: Addresses::none(alloc),
            alternatives: Addresses::none(alloc),
            own: Addresses::none(alloc),
            aim: Aim::Nothing,
            failed: FailedCalls::new(alloc),
            numbers: Vec::new(alloc),
            trace: Trace {
                calls: Vec::new(alloc),
                count: 0,
                failures: 0,
            },
            open: Vec::new(alloc),
            steps: 0,
            before: Next::Stuck,
            address: 0,
            frame: 0,
        }
    }

    /// These calls are watched, and nothing is noted yet.
    pub(crate) fn new(
        alloc: Global,
        code: &Code,
        watched: &Watched,
        aim: Aim,
    ) -> Result<Tracer, AllocError> {
        let count = code.len();
        let entries = Addresses::of(alloc, count, &watched.entries)?;
        let alternatives = Addresses::of(alloc, count, &watched.alternatives)?;
        let own = Addresses::of_own_code(alloc, code, &watched.entries)?;
        let mut tracer = Tracer::none(alloc);
        tracer.entries = entries;
        tracer.alternatives = alternatives;
        tracer.own = own;
        tracer.aim = aim;
        Ok(tracer)
    }

    /// Begins another run, which is to find when the calls begin that were seen to fail.
    pub(crate) fn find_beginnings(&mut self) -> Result<(), AllocError> {
        self.failed.sort()?;
        self.restart(Aim::Beginnings);
        Ok(())
    }

    /// Begins another run, which is to keep the calls that were seen to fail, and then to begin.
    pub(crate) fn keep_failed(&mut self, alloc: Global) -> Result<(), AllocError> {
        self.numbers = self.failed.numbers(alloc)?;
        self.restart(Aim::Failures);
        Ok(())
    }

    /// Begins another run, of which nothing is noted yet. The runs before kept no calls.
    fn restart(&mut self, aim: Aim) {
        self.aim = aim;
        self.trace.count = 0;
        self.trace.failures = 0;
        self.steps = 0;
        self.before = Next::Stuck;
        self.address = 0;
        self.frame = 0;
    }

    /// The trace of the run that was noted.
    pub(crate) fn into_trace(self) -> Trace {
        self.trace
    }

    /// Notes where a run stands: where it begins, and after each of its steps.
    pub(crate) fn note<S: TermSpace>(
        &mut self,
        space: &S,
        alloc: Global,
        stacks: &Stacks<S::Ref, S::Mark>,
        code: &Code,
        next: Next,
        position: &Position<S::Ref>,
    ) -> Result<(), AllocError>
        requires { Holds S.space space.now (state_of next position.now stacks.now) }
    {
        if self.aim == Aim::Nothing {
            return Ok(());
        }
        self.note_progress(code, next);
        self.note_end(space, alloc, stacks, next, position)?;
        self.note_call(space, alloc, stacks, code, next, position)?;
        self.note_failure(
            next,
            stacks.records.records.len(),
            stacks.records.records.newest_call(),
        )?;
        if next == Next::Running {
            self.address = position.address;
            self.frame = position.frame;
        }
        self.before = next;
        self.steps = self.steps.saturating_add(1);
        Ok(())
    }

    /// Notes how far the innermost call of the trace got with the last instruction, if there was one.
    fn note_progress(&mut self, code: &Code, next: Next) {
        let Some(open) = self.open.last_mut() else {
            return;
        };
        if self.before != Next::Running || open.frame != self.frame {
            return;
        }
        if self.alternatives.contains(self.address) {
            open.alternative = self.address;
        }
        if !is_of_alternative(code, self.address) {
            return;
        }
        let Some(call) = self.trace.calls.get_mut(open.index) else {
            return;
        };
        let has_begun =
            matches!(call.furthest, Some(reach) if reach.alternative == open.alternative);
        if has_begun || next == Next::Running {
            call.furthest = Some(Reach {
                alternative: open.alternative,
                address: self.address,
            });
        }
    }

    /// Notes the end of the innermost call of the trace, if its record is off: a step takes one record off at most.
    fn note_end<S: TermSpace>(
        &mut self,
        space: &S,
        alloc: Global,
        stacks: &Stacks<S::Ref, S::Mark>,
        next: Next,
        position: &Position<S::Ref>,
    ) -> Result<(), AllocError>
        requires { Holds S.space space.now (state_of next position.now stacks.now) }
    {
        let Some(last) = self.open.last().copied() else {
            return Ok(());
        };
        if last.height <= stacks.records.records.len() {
            return Ok(());
        }
        let _ = self.open.pop();
        let result = self.result(space, alloc, next, position)?;
        if let Some(call) = self.trace.calls.get_mut(last.index) {
            call.result = result;
        }
        Ok(())
    }

    /// Returns what came of a call that the last step has ended.
    fn result<S: TermSpace>(
        &self,
        space: &S,
        alloc: Global,
        next: Next,
        position: &Position<S::Ref>,
    ) -> Result<CallResult, AllocError>
        requires { next ≡ Next.Running → IsTrue (S.space.stands space.now position.now.term) }
    {
        if self.before == Next::Failing {
            return Ok(CallResult::Failed);
        }
        if next != Next::Running {
            return Ok(CallResult::Unfinished);
        }
        let term = first_nodes(space, alloc, &position.term)?;
        Ok(CallResult::Rewritten(term))
    }

    /// Notes the call of a watched definition, if the last instruction has begun one.
    fn note_call<S: TermSpace>(
        &mut self,
        space: &S,
        alloc: Global,
        stacks: &Stacks<S::Ref, S::Mark>,
        code: &Code,
        next: Next,
        position: &Position<S::Ref>,
    ) -> Result<(), AllocError>
        requires { Holds S.space space.now (state_of next position.now stacks.now) }
    {
        if self.before != Next::Running || next != Next::Running {
            return Ok(());
        }
        let Some(Instr::CallDefinition { entry, terms, .. }) = code.instrs().get(self.address)
        else {
            return Ok(());
        };
        if !self.entries.contains(*entry) {
            return Ok(());
        }
        let number = self.trace.count;
        self.trace.count = self.trace.count.saturating_add(1);
        if self.keeps(number, stacks.records.records.len()) {
            self.keep_call(space, alloc, stacks, *entry, terms.len(), position)?;
        }
        Ok(())
    }

    /// Whether the call of this number, which begins at this height, is one of the trace.
    fn keeps(&mut self, number: u64, height: usize) -> bool {
        let kept = self.trace.calls.len();
        match self.aim {
            Aim::Nothing | Aim::Ends => false,
            Aim::FirstCalls => kept < MOST_CALLS,
            Aim::Beginnings => {
                self.failed.note_begin(height, self.steps, number);
                false
            }
            Aim::Failures => self.numbers.get(kept) == Some(&number),
        }
    }

    /// Adds a call to the trace.
    fn keep_call<S: TermSpace>(
        &mut self,
        space: &S,
        alloc: Global,
        stacks: &Stacks<S::Ref, S::Mark>,
        entry: usize,
        parameters: usize,
        position: &Position<S::Ref>,
    ) -> Result<(), AllocError>
        requires term { IsTrue (S.space.stands space.now position.now.term) }
        requires places { AllPlaces (λ r. IsTrue (S.space.stands space.now r))
            stacks.now.places.slots }
    {
        let here = position.frame;
        let depth = self.open.len();
        self.open.push(OpenCall {
            index: self.trace.calls.len(),
            height: stacks.records.records.len(),
            frame: here,
            alternative: entry,
        })?;
        let slots = stacks.places.slots();
        let arguments = first_terms(space, alloc, &stacks.frames, here, slots, parameters)?;
        let term = first_nodes(space, alloc, &position.term)?;
        self.trace.calls.push(Call {
            entry,
            depth,
            term,
            arguments,
            result: CallResult::Unfinished,
            furthest: None,
        })?;
        Ok(())
    }

    /// Notes that the innermost call fails, if a failure will take the newest of this number of records off, and that is of a call which
    /// goes on at `after`.
    fn note_failure(
        &mut self,
        next: Next,
        height: usize,
        after: Option<usize>,
    ) -> Result<(), AllocError> {
        let (Next::Failing, Some(after)) = (next, after) else {
            return Ok(());
        };
        if self.own.contains(self.address) {
            self.trace.failures = self.trace.failures.saturating_add(1);
            if self.aim == Aim::Ends {
                self.failed.add(height, self.steps, MOST_CALLS)?;
            }
        }
        self.address = after;
        Ok(())
    }
}

/// Whether the instruction is of an alternative, and not one that only gets to it or ends it.
fn is_of_alternative(code: &Code, address: usize) -> bool {
    !matches!(
        code.instrs().get(address),
        Some(
            Instr::Try { .. }
                | Instr::Select { .. }
                | Instr::Extend { .. }
                | Instr::Commit { .. }
                | Instr::Shrink { .. }
                | Instr::EndDefinition
        )
    )
}

/// Returns the first nodes of what the first places of a frame have.
fn first_terms<S: TermSpace>(
    space: &S,
    alloc: Global,
    frames: &Frames,
    here: usize,
    slots: &[Option<S::Ref>],
    count: usize,
) -> Result<Vec<Term>, AllocError>
    requires { AllPlaces (λ r. IsTrue (S.space.stands space.now r)) slots.now }
{
    let mut terms = Vec::new(alloc);
    for slot in 0..count {
        let variable = Coordinate { layers_up: 0, slot };
        if let Some(at) = value(space, frames, here, variable, slots) {
            terms.push(first_nodes(space, alloc, at)?)?;
        }
    }
    Ok(terms)
}
