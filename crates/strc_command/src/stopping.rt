//! Faults that stop the program before it has a result.
ghost use Rattle.std.specs.Prelude.{◌≡◌};
ghost use Rattle.term_model.specs.declared.fault.Fault.TheVariants.{Write};
ghost use Rattle.strc_command.specs.Report.{AreSome, Failures, Tells, TellsFault, TellsStop};
ghost use Rattle.strc_command.specs.Runs.{Told, change};

use crate::failure::Failure;
use crate::report::{report, report_failure};
use std::alloc::Global;
use str_pipeline::Sink;
use term_model::Fault;

/// Writes the diagnostic line of a fault that stops the program, and returns the status of such faults, 4.
#[tactic(auto, using(crate::proofs::PrefixLaws::tells))]
pub(crate) fn stop<E: Sink>(fault: &Fault, diagnostics: &mut E) -> u8
    ensures status { result ≡ 4 }
    ensures told { Told (change E.writer diagnostics.old diagnostics.new) (Tells fault.now) }
{
    let _ = report(fault, diagnostics);
    4
}

/// Reports a fault of opening or reading, and returns 4. The failure says of what, and why.
#[tactic(auto, using(crate::proofs::CauseLaws::alone_told))]
pub(crate) fn stop_reading<E: Sink>(
    alloc: Global,
    fault: &Fault,
    failure: Failure<'_>,
    diagnostics: &mut E,
) -> u8
    ensures status { result ≡ 4 }
    ensures told { Told (change E.writer diagnostics.old diagnostics.new) (TellsFault fault.now) }
{
    match fault {
        Fault::Read => {
            report_failure(alloc, fault, failure, diagnostics);
            4
        }
        _ => stop(fault, diagnostics),
    }
}

/// Reports that a write to `out` failed, and returns 4. Of a pipe that nobody reads any more nothing is reported.
pub(crate) fn stop_writing<W: Sink, E: Sink>(alloc: Global, out: &W, diagnostics: &mut E) -> u8
    ensures status { result ≡ 4 }
    ensures told { (writes : Failures) → AreSome writes →
        Told (change E.writer diagnostics.old diagnostics.new)
        (TellsStop (W.writer.is_closed out.now) writes Write) }
{
    if out.is_closed() {
        return 4;
    }
    let failure = Failure::of_writing(out.failure());
    report_failure(alloc, &Fault::Write, failure, diagnostics);
    4
}

/// Reports the fault that stops a run with this output, and returns 4. The failure says what could not be read, and why, where a read failed.
#[tactic(auto, using(crate::proofs::CauseLaws::fault_told))]
pub(crate) fn stop_run<W: Sink, E: Sink>(
    alloc: Global,
    fault: &Fault,
    reading: Failure<'_>,
    out: &W,
    diagnostics: &mut E,
) -> u8
    ensures status { result ≡ 4 }
    ensures told { (writes : Failures) → (fault.now ≡ Write → AreSome writes) →
        Told (change E.writer diagnostics.old diagnostics.new)
        (TellsStop (W.writer.is_closed out.now) writes fault.now) }
{
    match fault {
        Fault::Write => stop_writing(alloc, out, diagnostics),
        _ => stop_reading(alloc, fault, reading, diagnostics),
    }
}
