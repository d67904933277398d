//! What explanations of a run are made of: what it cost, how it ended, and where it stood.
ghost use Rattle.std.specs.Prelude.{◌≡◌, ◌≤◌, IsTrue, IfOk, length};
ghost use Rattle.term_model.specs.Limits.{max_budget};
ghost use Rattle.term_model.specs.Space.{KeepsNames};
ghost use Rattle.prim_registry.specs.Entries.{IsHonest, entries_of};
ghost use Rattle.prim_registry.specs.Registered.{meaning_of};
ghost use Rattle.strat_code.specs.CodeOf.{code_of};
ghost use Rattle.strat_steps.specs.Marks.{Holds};
ghost use Rattle.strat_machine.specs.Accounts.{HasCounts, IsEnding, IsAccountOfRun};
ghost use Rattle.strat_machine.specs.Actions.{IsLoadedProgram};
ghost use Rattle.strat_steps.specs.References.{AllPlaces};
ghost use Rattle.strat_machine.specs.Running.{IsClear, HasEnded};
ghost use Rattle.strat_machine.specs.Stacks.{state_of};

use crate::addresses::{Addresses, count_at};
use crate::partial::{Notes, Progress, run_part};
use crate::program::LoadedProgram;
use crate::shortening::first_nodes;
use crate::stacks::{Next, Stacks};
use crate::variables::variables_of;
use prim_registry::{PrimMeaning, Registry};
use std::alloc::{AllocError, Global};
use strat_code::Code;
use strat_patterns::{Frames, value};
use term_model::{Term, TermSpace};

/// How a run ends: with a term, by failing, with a term that would be too large, or with its budget used up.
#[derive(Clone, Copy, Debug, PartialEq, Eq)]
pub enum Ending {
    Rewritten,
    Failed,
    Oversize,
    Spent,
}

/// Where a run stands before one of its steps.
///
/// Of each term it has the first 200 nodes that are at most 100 deep, in the order of the term's text: a node, its parts, its
/// annotations. Where others of the parts of a node, or of its annotations, are left out, one plain `_` without parts stands for them;
/// where a node would weigh too much with these, one stands for it.
#[derive(Drop)]
pub struct Stand {
    /// The address of the instruction that comes next.
    pub address: usize,
    /// The term that the instruction is performed on.
    pub term: Term,
    /// What each variable in the patterns of the instruction has, in the order in which they are written there: its term, or nothing
    /// where it has none yet. A variable that is written several times is there several times.
    pub values: Vec<Option<Term>>,
    /// The addresses after the calls that wait, the outermost first.
    pub waiting: Vec<usize>,
}

/// What a run did.
#[derive(Drop)]
pub struct Account {
    /// How many rules, which are nodes of the derivation, the instruction at each address was charged. What is left of a budget that
    /// does not suffice for the next instruction is charged to none.
    pub rules: Vec<u64>,
    /// How often the instruction at each address was reached.
    pub reached: Vec<u64>,
    /// How often it neither failed nor ended the run.
    pub passed: Vec<u64>,
    /// In how many calls of definitions the run ended: by the address at which each would have gone on or, for the innermost one, by
    /// that of the last instruction. 0 for each address where a run was rewritten or failed.
    pub unfinished: Vec<u64>,
    /// How the run ended within the budget.
    pub ending: Ending,
    /// How many steps came before that of the last instruction. A run that failed did so by this instruction, after which no alternative
    /// was left. A term that is too large is what this instruction made, or, where it failed in `some(s)`, what that made of the parts.
    pub before_last: u64,
    /// How many steps came before that of the deepest instruction that failed, by the number of frames, of those since a call last
    /// returned; 0 if none has failed. Of several at the same depth it is the last one behind a match that succeeded, or a call that
    /// returned, in the same call and alternative and, if there is none, the last one.
    pub before_deepest: u64,
}

/// The account of a run of loaded code, from clear stacks on. Some of the run may be left on the stacks.
pub(crate) fn account_of<S: TermSpace, M: PrimMeaning>(
    space: &mut S,
    alloc: Global,
    stacks: &mut Stacks<S::Ref, S::Mark>,
    code: &Code,
    program: &LoadedProgram<S::Name>,
    registry: &Registry<M>,
    term: S::Ref,
    budget: u64,
) -> Result<Account, AllocError>
    requires budget { budget ≤ max_budget }
    requires clear { IsClear stacks.old }
    requires stands { IsTrue (S.space.stands space.old term) }
    requires honest { IsHonest M.answer registry.now }
    requires loaded { IsLoadedProgram (S.space.knows space.old) (S.space.symbol_of space.old)
        (entries_of registry.now)
        S.space.number_of program.now code.now.tables code.now.instrs }
    ensures account { IfOk result (λ account. IsAccountOfRun S.space
        (code_of code.now.tables code.now.instrs) (meaning_of M.answer registry.now)
        space.old term budget space.new account) }
    ensures counts { IfOk result (λ account. HasCounts (length code.now.instrs) account) }
    ensures kept { (r : S.Ref) → IsTrue (S.space.stands space.old r) →
        IsTrue (S.space.stands space.new r) ×
        (S.space.term_of space.new r ≡ S.space.term_of space.old r) }
    ensures names { KeepsNames S.space space.old space.new }
{
    let mut notes = Notes::new(alloc, code.len())?;
    let progress = run_part(
        space,
        alloc,
        stacks,
        code,
        program,
        registry,
        term,
        budget,
        u64::MAX,
        &mut notes,
    )?;
    let ending = ending_of(progress.next);
    let unfinished = unfinished_calls(alloc, code, stacks, notes.failures.last_address, ending)?;
    Ok(Account {
        rules: notes.rules,
        reached: notes.reached,
        passed: notes.passed,
        unfinished,
        ending,
        before_last: notes.failures.before_last,
        before_deepest: notes.failures.before_deepest,
    })
}

/// Returns how many calls of definitions had not ended when a run did, by addresses; the last instruction was at `last`.
fn unfinished_calls<R: Drop, M: Drop>(
    alloc: Global,
    code: &Code,
    stacks: &Stacks<R, M>,
    last: usize,
    ending: Ending,
) -> Result<Vec<u64>, AllocError>
    ensures { IfOk result (λ counts. length counts.items ≡ length code.now.instrs) }
{
    let mut counts = Vec::from_elem(alloc, 0u64, code.len())?;
    if let Ending::Oversize | Ending::Spent = ending {
        let own = Addresses::of_own_code(alloc, code, code.entries())?;
        stacks.records.records.count_calls(&own, &mut counts);
        if own.contains(last) {
            count_at(&mut counts, last);
        }
    }
    Ok(counts)
}

/// Where a run of loaded code stands after this number of steps, from clear stacks on, if an instruction comes next. Some of the run may be
/// left on the stacks.
pub(crate) fn stand_after<S: TermSpace, M: PrimMeaning>(
    space: &mut S,
    alloc: Global,
    stacks: &mut Stacks<S::Ref, S::Mark>,
    code: &Code,
    program: &LoadedProgram<S::Name>,
    registry: &Registry<M>,
    term: S::Ref,
    budget: u64,
    count: u64,
) -> Result<Option<Stand>, AllocError>
    requires budget { budget ≤ max_budget }
    requires clear { IsClear stacks.old }
    requires stands { IsTrue (S.space.stands space.old term) }
    requires honest { IsHonest M.answer registry.now }
    requires loaded { IsLoadedProgram (S.space.knows space.old) (S.space.symbol_of space.old)
        (entries_of registry.now)
        S.space.number_of program.now code.now.tables code.now.instrs }
    ensures kept { (r : S.Ref) → IsTrue (S.space.stands space.old r) →
        IsTrue (S.space.stands space.new r) ×
        (S.space.term_of space.new r ≡ S.space.term_of space.old r) }
    ensures names { KeepsNames S.space space.old space.new }
{
    let mut notes = Notes::new(alloc, 0)?;
    let progress = run_part(
        space, alloc, stacks, code, program, registry, term, budget, count, &mut notes,
    )?;
    stand_at(space, alloc, stacks, code, &progress)
}

/// Where a run stands, if an instruction comes next.
fn stand_at<S: TermSpace>(
    space: &S,
    alloc: Global,
    stacks: &Stacks<S::Ref, S::Mark>,
    code: &Code,
    progress: &Progress<S::Ref>,
) -> Result<Option<Stand>, AllocError>
    requires { Holds S.space space.now
        (state_of progress.now.next progress.now.position stacks.now) }
{
    if progress.next != Next::Running {
        return Ok(None);
    }
    let position = &progress.position;
    let term = first_nodes(space, alloc, &position.term)?;
    let slots = stacks.places.slots();
    let here = position.frame;
    let address = position.address;
    let values = values_at(space, alloc, &stacks.frames, here, slots, code, address)?;
    let waiting = stacks.records.records.addresses_after(alloc)?;
    Ok(Some(Stand {
        address,
        term,
        values,
        waiting,
    }))
}

/// What the variables in the patterns of the instruction at an address have.
fn values_at<S: TermSpace>(
    space: &S,
    alloc: Global,
    frames: &Frames,
    here: usize,
    slots: &[Option<S::Ref>],
    code: &Code,
    address: usize,
) -> Result<Vec<Option<Term>>, AllocError>
    requires { AllPlaces (λ r. IsTrue (S.space.stands space.now r)) slots.now }
{
    let mut values = Vec::new(alloc);
    if address >= code.len() {
        return Ok(values);
    }
    for variable in variables_of(alloc, code.at(address))? {
        let term = match value(space, frames, here, variable, slots) {
            Some(at) => Some(first_nodes(space, alloc, at)?),
            None => None,
        };
        values.push(term)?;
    }
    Ok(values)
}

/// Returns how a run ended, after whose last step this came next.
fn ending_of(next: Next) -> Ending
    requires { HasEnded next }
    ensures { IsEnding next result }
{
    match next {
        Next::Rewritten => Ending::Rewritten,
        Next::Failed => Ending::Failed,
        Next::Oversize => Ending::Oversize,
        Next::Spent => Ending::Spent,
        _ => unreachable!(),
    }
}
