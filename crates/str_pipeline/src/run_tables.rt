//! Tables and traces of what a run did, which is run again for them.
ghost use Rattle.std.specs.Prelude.{◌≤◌};
ghost use Rattle.term_model.specs.Limits.{max_budget};
ghost use Rattle.prim_registry.specs.Entries.{IsHonest};
ghost use Rattle.prim_registry.specs.RegistryNames.{Covers};

use crate::alternative_table::AlternativeTable;
use crate::call_rows::CallRows;
use crate::compiled::{CompiledFile, Purpose, compile_file};
use crate::counters::Counters;
use crate::definition_counts::{count_definitions, library_names};
use crate::explaining::MOST_RULES;
use crate::profile_table::add_profile;
use crate::rerun::{Rerun, account_of, trace_of};
use crate::run_record::{RunRecord, push_text};
use crate::status::Options;
use diagnostics::{Inquiry, Listing, Row};
use prim_registry::{PrimMeaning, Registry};
use std::alloc::{AllocError, Global};
use str_desugar::alternative_heads;
use strat_machine::{Account, Ending};
use term_model::Fault;

/// A run whose instructions were counted: of which file, where the names of its alternatives stand, and what its instructions did.
#[derive(Clone, Copy)]
struct CountedRun<'a> {
    compiled: &'a CompiledFile,
    heads: &'a [Vec<u64>],
    account: &'a Account,
    /// Whether it was followed for fewer rules than it may use, and they did not suffice.
    is_short: bool,
}

/// Returns the rows of the tables and traces that the inquiry asks of a run with these options.
pub(crate) fn tables_of<M: PrimMeaning>(
    alloc: Global,
    rerun: Rerun<'_>,
    options: &Options,
    registry: &Registry<M>,
    inquiry: &Inquiry,
) -> Result<Vec<Row>, Fault>
    requires budget { rerun.budget ≤ max_budget }
    requires honest { IsHonest M.answer registry.now }
{
    let compiled = compile_file(
        alloc,
        rerun.keys,
        rerun.definitions,
        options,
        registry,
        Purpose::Counts,
    )?;
    let account = account_of(alloc, &compiled.code, rerun, registry)?;
    let heads = alternative_heads(alloc, rerun.keys, &compiled.checked)?;
    let run = CountedRun {
        compiled: &compiled,
        heads: &heads,
        account: &account,
        is_short: account.ending == Ending::Spent && options.budget > MOST_RULES,
    };
    rows_of(alloc, run, rerun, registry, inquiry)
}

/// Returns the rows of a run whose instructions were counted.
fn rows_of<M: PrimMeaning>(
    alloc: Global,
    run: CountedRun<'_>,
    rerun: Rerun<'_>,
    registry: &Registry<M>,
    inquiry: &Inquiry,
) -> Result<Vec<Row>, Fault>
    requires budget { rerun.budget ≤ max_budget }
    requires honest { IsHonest M.answer registry.now }
    requires covers { Covers registry.now run.compiled.now.code.prims }
{
    let counters = Counters {
        code: &run.compiled.code,
        account: run.account,
    };
    let listing = Listing::new(alloc, rerun.definitions)?;
    let names = library_names(alloc, run.compiled.checked.file())?;
    let definitions = count_definitions(alloc, counters, run.heads, &listing, names.len())?;
    let record = RunRecord {
        alloc,
        listing: &listing,
        library: rerun.library,
        counters,
        definitions: &definitions,
        library_names: &names,
    };
    let mut rows = Vec::new(alloc);
    if run.is_short {
        push_text(b"  of the first 100000000 rules:".to_vec(alloc)?, &mut rows)?;
    }
    add_tables(record, inquiry, &mut rows)?;
    add_traces(record, rerun, registry, inquiry, &mut rows)?;
    Ok(rows)
}

/// Adds the tables that the inquiry asks for.
fn add_tables(
    record: RunRecord<'_>,
    inquiry: &Inquiry,
    rows: &mut Vec<Row>,
) -> Result<(), AllocError> {
    if let Some(coverage) = inquiry.counts {
        AlternativeTable::new(record, coverage)?.add_rows(rows)?;
    }
    if inquiry.profiles {
        add_profile(record, rows)?;
    }
    Ok(())
}

/// Adds the calls that the inquiry asks for.
fn add_traces<M: PrimMeaning>(
    run_record: RunRecord<'_>,
    rerun: Rerun<'_>,
    registry: &Registry<M>,
    inquiry: &Inquiry,
    rows: &mut Vec<Row>,
) -> Result<(), Fault>
    requires budget { rerun.budget ≤ max_budget }
    requires honest { IsHonest M.answer registry.now }
    requires covers { Covers registry.now run_record.counters.code.now.prims }
{
    if inquiry.traces.is_empty() {
        return Ok(());
    }
    let calls = CallRows {
        record: run_record,
        names: &inquiry.traces,
        only_failures: inquiry.only_failures,
    };
    calls.add_unknown(rows)?;
    let watched = calls.watched()?;
    let code = run_record.counters.code;
    let trace = trace_of(run_record.alloc, code, rerun, registry, &watched)?;
    calls.add_trace(&trace, rows)?;
    Ok(())
}
