//! Why a run has no result: it is run again, in code that knows where its strategies stand.
ghost use Rattle.std.specs.Prelude.{◌≤◌};
ghost use Rattle.term_model.specs.Limits.{max_budget};
ghost use Rattle.prim_registry.specs.Entries.{IsHonest};

use crate::checking::{findings_in, variable_warnings_in};
use crate::compiled::{CompiledFile, Purpose, compile_file};
use crate::explainer::Explainer;
use crate::rerun::{Evidence, Rerun, run_again};
use crate::run_tables::tables_of;
use crate::status::{Options, Status};
use diagnostics::{Definitions, Explanation, Inquiry, Listing, RunNotes, add_warnings};
use keyed_hash::HashKeys;
use prim_registry::{PrimMeaning, Registry};
use std::alloc::Global;
use term_model::Fault;

/// The most rules for which a run is followed.
pub(crate) const MOST_RULES: u64 = 100_000_000;

/// Notes what the inquiry of the notes asks of a run that was not refused: tables of what it did, why it has no result, and warnings about
/// its definitions. Those about variables are noted of each run that fails, or of which there are tables. What memory is refused for is not
/// noted.
pub(crate) fn explain_run<M: PrimMeaning>(
    alloc: Global,
    keys: HashKeys,
    status: &Result<Status, Fault>,
    options: &Options,
    registry: &Registry<M>,
    notes: &mut RunNotes,
)
    requires honest { IsHonest M.answer registry.now }
{
    let status = match status {
        Ok(Status::Refused(_)) | Err(_) => return,
        Ok(status) => status,
    };
    let Some(definitions) = notes.take_definitions() else {
        return;
    };
    let term = notes.take_term();
    let rerun = Rerun {
        definitions: &definitions,
        library: notes.library(),
        term: bytes_of(&term),
        budget: options.budget.min(MOST_RULES),
        keys,
    };
    let Some(inquiry) = notes.inquiry() else {
        return;
    };
    let mut rows = None;
    if inquiry.wants_tables() {
        rows = tables_of(alloc, rerun, options, registry, inquiry).ok();
    }
    let explanation = remarks_on(alloc, rerun, status, options, registry, inquiry);
    if let Some(rows) = rows {
        notes.note_rows(rows);
    }
    if let Ok(explanation) = explanation {
        notes.note_explanation(explanation);
    }
}

/// Returns the bytes of a text, which are none if it was not kept.
fn bytes_of(text: &Option<Vec<u8>>) -> &[u8] {
    match text {
        Some(text) => text.as_slice(),
        None => &[],
    }
}

/// Returns the remarks on a run with this status: why it has no result, and warnings.
fn remarks_on<M: PrimMeaning>(
    alloc: Global,
    rerun: Rerun<'_>,
    status: &Status,
    options: &Options,
    registry: &Registry<M>,
    inquiry: &Inquiry,
) -> Result<Explanation, Fault>
    requires budget { rerun.budget ≤ max_budget }
    requires honest { IsHonest M.answer registry.now }
{
    match status {
        Status::Rewritten if inquiry.explains => {
            let text = rerun.definitions;
            findings_in(alloc, rerun.keys, text, rerun.library, options, registry)
        }
        _ if inquiry.explains => explanation_of(alloc, rerun, options, registry),
        Status::Failed => variable_warnings_in(alloc, rerun, options, registry),
        _ if inquiry.wants_tables() => variable_warnings_in(alloc, rerun, options, registry),
        _ => Ok(Explanation::new(Vec::new(alloc))),
    }
}

/// Returns the explanation of a run.
fn explanation_of<M: PrimMeaning>(
    alloc: Global,
    rerun: Rerun<'_>,
    options: &Options,
    registry: &Registry<M>,
) -> Result<Explanation, Fault>
    requires budget { rerun.budget ≤ max_budget }
    requires honest { IsHonest M.answer registry.now }
{
    let compiled = compile_file(
        alloc,
        rerun.keys,
        rerun.definitions,
        options,
        registry,
        Purpose::Explanation,
    )?;
    let run = run_again(alloc, &compiled.code, rerun, registry)?;
    explanation_in(alloc, rerun, &compiled, &run, options.budget > MOST_RULES)
}

/// Returns the explanation of a run of this file in which this was found.
fn explanation_in(
    alloc: Global,
    rerun: Rerun<'_>,
    compiled: &CompiledFile,
    run: &Evidence,
    is_short: bool,
) -> Result<Explanation, Fault> {
    let listing = Listing::new(alloc, rerun.definitions)?;
    let mut remarks = Vec::new(alloc);
    let explainer = Explainer {
        alloc,
        listing: &listing,
        code: &compiled.code,
        run,
        library: rerun.library,
        is_short,
    };
    explainer.explain(&mut remarks)?;
    let definitions = Definitions::of_checked(rerun.definitions, rerun.library, &compiled.checked);
    add_warnings(alloc, &definitions, &mut remarks)?;
    Ok(Explanation::new(remarks))
}
