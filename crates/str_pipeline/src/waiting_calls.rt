//! Where a run stood before a call that waits. No run keeps that: it is found by runs with smaller budgets.
ghost use Rattle.std.specs.Prelude.{◌≤◌};
ghost use Rattle.term_model.specs.Limits.{max_budget};
ghost use Rattle.prim_registry.specs.Entries.{IsHonest};
ghost use Rattle.prim_registry.specs.RegistryNames.{Covers};

use crate::callers::{call_addresses, call_sites, library_call};
use crate::causes::file_offset;
use crate::rerun::{Rerun, account_of, stand_after};
use prim_registry::{PrimMeaning, Registry};
use std::alloc::{AllocError, Global};
use strat_code::Code;
use strat_machine::{Account, Stand};
use term_model::Fault;

/// The most rules that all runs together may use by which a budget is looked for.
const MOST_RULES: u64 = 100_000_000;

/// The most runs by which a budget is looked for.
const MOST_RUNS: usize = 48;

/// A call that waits: the address of its instruction, and how many other calls wait around it.
#[derive(Clone, Copy)]
struct WaitingCall {
    address: usize,
    depth: usize,
}

/// A moment of a run: where it stood, and how many steps came before.
#[derive(Clone, Copy)]
pub(crate) struct Moment<'a> {
    pub(crate) stand: &'a Stand,
    pub(crate) steps: u64,
}

/// What a run with a large enough budget does.
#[derive(Clone, Copy)]
enum Goal {
    /// It takes more than this number of steps.
    Steps(u64),
    /// It charges its instruction at the address of the call this number of rules.
    Charges(u64),
}

/// The least budget with which a run does something, between two others.
#[derive(Clone, Copy)]
struct Search {
    /// The address of the call.
    address: usize,
    /// With this budget a run does not do it.
    low: u64,
    /// How many steps come before the last instruction of that run.
    steps: u64,
    /// With this budget a run does it.
    high: u64,
    /// How many rules the call is charged in that run.
    charged: u64,
    /// How far below the higher budget the next one is that is tried, until a run does not do it.
    width: u64,
    /// Whether it takes too many rules.
    is_given_up: bool,
}

/// Returns where a run stood before the innermost call of DEFS, if that waits at this moment for a strategy of a file in front of DEFS.
/// Nothing if it does not, or if that takes too many rules to find.
pub(crate) fn stand_before_call<M: PrimMeaning>(
    alloc: Global,
    code: &Code,
    rerun: Rerun<'_>,
    registry: &Registry<M>,
    account: &Account,
    moment: Moment<'_>,
) -> Result<Option<Stand>, Fault>
    requires budget { rerun.budget ≤ max_budget }
    requires honest { IsHonest M.answer registry.now }
    requires covers { Covers registry.now code.now.prims }
{
    let stand = moment.stand;
    let Some(call) = innermost_call(alloc, code, rerun.library, stand)? else {
        return Ok(None);
    };
    let mut search = Search::of_run(call.address, account);
    if moment.steps != account.before_last {
        let goal = Goal::Steps(moment.steps);
        search.go_back(alloc, code, rerun, registry, goal)?;
    }
    let goal = Goal::Charges(search.charged);
    search.go_back(alloc, code, rerun, registry, goal)?;
    if search.is_given_up {
        return Ok(None);
    }
    let Some(found) = stand_after(alloc, code, rerun, registry, search.steps)? else {
        return Ok(None);
    };
    let around = stand.waiting.get(..call.depth);
    if found.address != call.address || around != Some(found.waiting.as_slice()) {
        return Ok(None);
    }
    Ok(Some(found))
}

/// The innermost call of DEFS, if it waits for a strategy of a file in front of DEFS.
fn innermost_call(
    alloc: Global,
    code: &Code,
    library: usize,
    stand: &Stand,
) -> Result<Option<WaitingCall>, AllocError> {
    let sites = call_sites(alloc, code, &stand.waiting)?;
    let leaf = file_offset(code.mark_at(stand.address));
    let Some(depth) = library_call(&sites, leaf, library) else {
        return Ok(None);
    };
    let addresses = call_addresses(alloc, code, &stand.waiting)?;
    let Some(address) = addresses.get(depth).copied() else {
        return Ok(None);
    };
    Ok(Some(WaitingCall { address, depth }))
}

impl Goal {
    /// Whether the run of this account does it, in which the call was charged this number of rules.
    fn is_met(self, account: &Account, charged: u64) -> bool {
        match self {
            Goal::Steps(steps) => account.before_last >= steps,
            Goal::Charges(count) => charged >= count,
        }
    }
}

impl Search {
    /// A search for the call at this address between no budget and that of a run, which does what is looked for.
    fn of_run(address: usize, account: &Account) -> Search {
        let mut rules: u64 = 0;
        for count in &account.rules {
            rules = rules.saturating_add(*count);
        }
        Search {
            address,
            low: 0,
            steps: 0,
            high: rules,
            charged: account.rules.get(address).copied().unwrap_or(0),
            width: 1,
            is_given_up: false,
        }
    }

    /// Narrows the search from no budget to the higher one, until its budgets stand side by side. It is given up if the runs for that take
    /// too many rules.
    fn go_back<M: PrimMeaning>(
        &mut self,
        alloc: Global,
        code: &Code,
        rerun: Rerun<'_>,
        registry: &Registry<M>,
        goal: Goal,
    ) -> Result<(), Fault>
        requires budget { rerun.budget ≤ max_budget }
        requires honest { IsHonest M.answer registry.now }
        requires covers { Covers registry.now code.now.prims }
    {
        self.low = 0;
        self.steps = 0;
        self.width = 1;
        let mut left = MOST_RULES;
        for _ in 0..MOST_RUNS {
            let Some(next) = self.next_budget() else {
                return Ok(());
            };
            let budget = next.min(rerun.budget);
            if self.is_given_up || budget > left {
                break;
            }
            left = left.saturating_sub(budget);
            let account = account_of(alloc, code, Rerun { budget, ..rerun }, registry)?;
            self.note(budget, &account, goal);
        }
        self.is_given_up = true;
        Ok(())
    }

    /// The next budget to try, if one is left between the two.
    fn next_budget(&self) -> Option<u64> {
        let between = self.high.saturating_sub(self.low);
        if between < 2 {
            return None;
        }
        let middle = self.low.saturating_add(between / 2);
        Some(middle.max(self.high.saturating_sub(self.width)))
    }

    /// Notes the account of a run with this budget.
    fn note(&mut self, budget: u64, account: &Account, goal: Goal) {
        let charged = account.rules.get(self.address).copied().unwrap_or(0);
        if goal.is_met(account, charged) {
            self.high = budget;
            self.charged = charged;
            self.width = self.width.saturating_mul(2);
        } else {
            self.low = budget;
            self.steps = account.before_last;
        }
    }
}
