//! The work of the program over readers that are open.
ghost use Rattle.std.specs.Prelude.{◌≡◌, ◌+◌, ◌<◌, ◌≤◌};
ghost use Rattle.term_model.specs.Limits.{max_budget};
ghost use Rattle.str_pipeline.specs.declared.status.Status.{Status};
ghost use Rattle.prim_registry.specs.Entries.{IsHonest};
ghost use Rattle.str_pipeline.specs.Setting.{setting_of};
ghost use Rattle.str_pipeline.specs.Faults.{HoldsRefusal};
ghost use Rattle.str_pipeline.specs.Limits.{max_definitions, max_term};
ghost use Rattle.strc_command.specs.Report.{exit_of, IsReported};
ghost use Rattle.str_pipeline.specs.Joined.{OfJoinedAfter};
ghost use Rattle.str_pipeline.specs.Transformation.{OfTwo};
ghost use Rattle.strc_command.specs.Runs.{Runs, Told, change};

use crate::ending::{notes_for, report_end};
use crate::failure::Failure;
use crate::formed::{transform_in_form, transform_joined_in_form};
use crate::report::Reporting;
use crate::stopping::stop_run;
use keyed_hash::HashKeys;
use prim_registry::{PrimMeaning, Registry};
use std::alloc::Global;
use str_pipeline::{Options, RunNotes, Sink, Source, Status};
use term_model::Fault;

/// Reports how a transformation ended, and returns its exit status.
fn conclude<E: Sink>(
    alloc: Global,
    status: Status,
    budget: u64,
    reporting: Reporting<'_>,
    notes: &RunNotes,
    diagnostics: &mut E,
) -> u8
    requires { HoldsRefusal status }
    ensures status { (exit_of status ≡ result) × (result < 4) }
    ensures told { Told (change E.writer diagnostics.old diagnostics.new)
        (IsReported reporting.entry.output budget status) }
{
    report_end(alloc, &status, budget, reporting, notes, diagnostics);
    match status {
        Status::Rewritten => 0,
        Status::Failed => 1,
        Status::Refused(_) => 2,
        Status::Oversize | Status::Spent => 3,
    }
}

/// Does the work where both texts come from `input`, in the joined form. The definitions come after the text of the libraries.
#[tactic(auto, using(crate::proofs::CauseLaws::cause, crate::proofs::CauseLaws::stopped))]
pub(crate) fn run_joined<L: Source, I: Source, W: Sink, E: Sink, M: PrimMeaning>(
    alloc: Global,
    keys: HashKeys,
    libraries: &mut L,
    input: &mut I,
    reporting: Reporting<'_>,
    options: &Options,
    registry: &Registry<M>,
    out: &mut W,
    diagnostics: &mut E,
) -> u8
    requires budget { options.now.budget ≤ max_budget }
    requires honest { IsHonest M.answer registry.now }
    ensures status { result ≤ 4 }
    ensures runs { Runs
        (OfJoinedAfter (L.reader.coming libraries.old) (I.reader.coming input.old))
        (record {
          before =
              L.reader.failed_reads libraries.old + I.reader.failed_reads input.old;
          after =
              L.reader.failed_reads libraries.new + I.reader.failed_reads input.new;
        }) reporting.entry.output
        (setting_of M.answer registry.now options.now) (change W.writer out.old out.new)
        (change E.writer diagnostics.old diagnostics.new) result }
    ensures unwritten { result ≡ 4 → W.writer.failed_writes out.new ≡
        W.writer.failed_writes out.old →
        out.new ≡ out.old }
    ensures write_failed { W.writer.failed_writes out.old < W.writer.failed_writes out.new →
        result ≡ 4 }
    ensures bounded { I.reader.reads input.new ≤ I.reader.reads input.old + max_definitions + 7 +
        max_term + 1 }
{
    let mut notes = notes_for(alloc, reporting);
    match transform_joined_in_form(
        alloc,
        keys,
        libraries,
        input,
        reporting.output.form,
        options,
        registry,
        &mut notes,
        out,
    ) {
        Ok(status) => {
            let reporting = Reporting {
                files: libraries.files(),
                ..reporting
            };
            conclude(
                alloc,
                status,
                options.budget,
                reporting,
                &notes,
                diagnostics,
            )
        }
        Err(fault) => {
            let reporting = Reporting {
                files: libraries.files(),
                ..reporting
            };
            let reading = Failure::of_reading(reporting, libraries.failure(), input.failure());
            stop_run(alloc, &fault, reading, out, diagnostics)
        }
    }
}

/// Does the work over one reader for each of the texts.
#[tactic(auto, using(crate::proofs::CauseLaws::cause, crate::proofs::CauseLaws::stopped))]
pub(crate) fn run_apart<D: Source, T: Source, W: Sink, E: Sink, M: PrimMeaning>(
    alloc: Global,
    keys: HashKeys,
    definitions: &mut D,
    term: &mut T,
    reporting: Reporting<'_>,
    options: &Options,
    registry: &Registry<M>,
    out: &mut W,
    diagnostics: &mut E,
) -> u8
    requires budget { options.now.budget ≤ max_budget }
    requires honest { IsHonest M.answer registry.now }
    ensures status { result ≤ 4 }
    ensures runs { Runs (OfTwo (D.reader.coming definitions.old) (T.reader.coming term.old))
        (record {
          before =
              D.reader.failed_reads definitions.old + T.reader.failed_reads term.old;
          after =
              D.reader.failed_reads definitions.new + T.reader.failed_reads term.new;
        }) reporting.entry.output
        (setting_of M.answer registry.now options.now) (change W.writer out.old out.new)
        (change E.writer diagnostics.old diagnostics.new) result }
    ensures unwritten { result ≡ 4 → W.writer.failed_writes out.new ≡
        W.writer.failed_writes out.old →
        out.new ≡ out.old }
    ensures write_failed { W.writer.failed_writes out.old < W.writer.failed_writes out.new →
        result ≡ 4 }
    ensures definitions_bounded { D.reader.reads definitions.new ≤ D.reader.reads definitions.old +
        max_definitions + 1 }
    ensures term_bounded { T.reader.reads term.new ≤ T.reader.reads term.old + max_term + 1 }
{
    let mut notes = notes_for(alloc, reporting);
    match transform_in_form(
        alloc,
        keys,
        definitions,
        term,
        reporting.output.form,
        options,
        registry,
        &mut notes,
        out,
    ) {
        Ok(status) => {
            let reporting = Reporting {
                files: definitions.files(),
                ..reporting
            };
            conclude(
                alloc,
                status,
                options.budget,
                reporting,
                &notes,
                diagnostics,
            )
        }
        Err(fault) => {
            let reporting = Reporting {
                files: definitions.files(),
                ..reporting
            };
            let reading = Failure::of_reading(reporting, definitions.failure(), term.failure());
            stop_run(alloc, &fault, reading, out, diagnostics)
        }
    }
}
