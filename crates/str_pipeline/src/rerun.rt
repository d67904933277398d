//! Runs of code that is followed: what a run did, and where it stood, found by running it again.
ghost use Rattle.std.specs.Prelude.{◌≤◌, IfOk, IsTrue};
ghost use Rattle.term_model.specs.Limits.{max_budget};
ghost use Rattle.prim_registry.specs.Entries.{IsHonest};
ghost use Rattle.prim_registry.specs.RegistryNames.{Covers};

use crate::followed::FollowedSpace;
use crate::waiting_calls::{Moment, stand_before_call};
use aterm_text::read_in;
use keyed_hash::HashKeys;
use prim_registry::{PrimMeaning, Registry};
use std::alloc::Global;
use strat_code::Code;
use strat_machine::{Account, Ending, Machine, Stand, Trace, Watched};
use term_model::{Fault, TermSpace};

/// What a run that is followed is of: the texts of its definitions and of its term, the rules that it may use, and the keys of its space.
#[derive(Clone, Copy)]
pub(crate) struct Rerun<'a> {
    pub(crate) definitions: &'a [u8],
    /// How many bytes of the definitions, from the first on, are a library.
    pub(crate) library: usize,
    pub(crate) term: &'a [u8],
    pub(crate) budget: u64,
    pub(crate) keys: HashKeys,
}

/// What a run did, and where it stood.
#[derive(Drop)]
pub(crate) struct Evidence {
    pub(crate) account: Account,
    /// Before its last instruction, if it has no result.
    pub(crate) last: Option<Stand>,
    /// Before its deepest failure since a call last returned, if that is another one.
    pub(crate) deepest: Option<Stand>,
    /// Before the calls of DEFS in which these two failed, where they did so in a file in front of DEFS.
    pub(crate) call_of_last: Option<Stand>,
    pub(crate) call_of_deepest: Option<Stand>,
}

/// Runs the code on the term of this text again, each time in a space of its own: up to three times, and more often where it failed in a file
/// in front of DEFS.
pub(crate) fn run_again<M: PrimMeaning>(
    alloc: Global,
    code: &Code,
    rerun: Rerun<'_>,
    registry: &Registry<M>,
) -> Result<Evidence, Fault>
    requires budget { rerun.budget ≤ max_budget }
    requires honest { IsHonest M.answer registry.now }
    requires covers { Covers registry.now code.now.prims }
{
    let account = account_of(alloc, code, rerun, registry)?;
    let mut last = None;
    if account.ending != Ending::Rewritten {
        last = stand_after(alloc, code, rerun, registry, account.before_last)?;
    }
    let mut deepest = None;
    if account.ending == Ending::Failed && account.before_deepest != account.before_last {
        deepest = stand_after(alloc, code, rerun, registry, account.before_deepest)?;
    }
    let mut call_of_last = None;
    if account.ending != Ending::Spent {
        let steps = account.before_last;
        call_of_last = call_stand(alloc, code, rerun, registry, &account, moment(&last, steps))?;
    }
    let steps = account.before_deepest;
    let call_of_deepest = call_stand(
        alloc,
        code,
        rerun,
        registry,
        &account,
        moment(&deepest, steps),
    )?;
    Ok(Evidence {
        account,
        last,
        deepest,
        call_of_last,
        call_of_deepest,
    })
}

/// The moment at which a run stood there after this many steps, if it did.
fn moment(stand: &Option<Stand>, steps: u64) -> Option<Moment<'_>> {
    match stand {
        Some(stand) => Some(Moment { stand, steps }),
        None => None,
    }
}

/// Where the run stood before the call of DEFS that waits at a moment for a strategy of a file in front of DEFS, if there is one.
fn call_stand<M: PrimMeaning>(
    alloc: Global,
    code: &Code,
    rerun: Rerun<'_>,
    registry: &Registry<M>,
    account: &Account,
    moment: Option<Moment<'_>>,
) -> Result<Option<Stand>, Fault>
    requires budget { rerun.budget ≤ max_budget }
    requires honest { IsHonest M.answer registry.now }
    requires covers { Covers registry.now code.now.prims }
{
    match moment {
        Some(moment) => stand_before_call(alloc, code, rerun, registry, account, moment),
        None => Ok(None),
    }
}

/// A machine, and the term of a text in its space.
#[derive(Drop)]
struct Started<S: TermSpace + Drop> {
    machine: Machine<S>,
    term: S::Ref,
}

/// Makes a machine over this space, into which it reads the term of this text.
fn start<S: TermSpace + Drop>(alloc: Global, space: S, text: &[u8]) -> Result<Started<S>, Fault>
    ensures stands { IfOk result (λ started.
        IsTrue (S.space.stands started.machine started.term)) }
{
    let mut space = space;
    let term = read_in(&mut space, alloc, text)?;
    Ok(Started {
        machine: Machine::new(alloc, space),
        term,
    })
}

/// Starts a run that is followed, in a space of its own.
fn start_again(alloc: Global, rerun: Rerun<'_>) -> Result<Started<FollowedSpace>, Fault>
    ensures stands { IfOk result (λ started.
        IsTrue (⟦<FollowedSpace as TermSpace>⟧.space.stands started.machine started.term)) }
{
    start(alloc, FollowedSpace::new(alloc, rerun.keys), rerun.term)
}

/// Returns the account of a run of the code on the term of this text.
pub(crate) fn account_of<M: PrimMeaning>(
    alloc: Global,
    code: &Code,
    rerun: Rerun<'_>,
    registry: &Registry<M>,
) -> Result<Account, Fault>
    requires budget { rerun.budget ≤ max_budget }
    requires honest { IsHonest M.answer registry.now }
    requires covers { Covers registry.now code.now.prims }
{
    let mut started = start_again(alloc, rerun)?;
    started
        .machine
        .account(code, started.term, rerun.budget, registry)
}

/// Returns where such a run stands after this number of steps, if an instruction comes next.
pub(crate) fn stand_after<M: PrimMeaning>(
    alloc: Global,
    code: &Code,
    rerun: Rerun<'_>,
    registry: &Registry<M>,
    count: u64,
) -> Result<Option<Stand>, Fault>
    requires budget { rerun.budget ≤ max_budget }
    requires honest { IsHonest M.answer registry.now }
    requires covers { Covers registry.now code.now.prims }
{
    let mut started = start_again(alloc, rerun)?;
    started
        .machine
        .stand(code, started.term, rerun.budget, registry, count)
}

/// Returns the calls of the definitions that are watched in such a run.
pub(crate) fn trace_of<M: PrimMeaning>(
    alloc: Global,
    code: &Code,
    rerun: Rerun<'_>,
    registry: &Registry<M>,
    watched: &Watched,
) -> Result<Trace, Fault>
    requires budget { rerun.budget ≤ max_budget }
    requires honest { IsHonest M.answer registry.now }
    requires covers { Covers registry.now code.now.prims }
{
    let mut started = start_again(alloc, rerun)?;
    started
        .machine
        .trace(code, &started.term, rerun.budget, registry, watched)
}
