//! Reports of how a transformation ended.
ghost use Rattle.std.specs.Prelude.{◌≡◌, List, ℕ, is_err, map};
ghost use Rattle.std.specs.List.{concat};
ghost use Rattle.strc_command.specs.Report.{IsReported, IsSizeLine, TellsIfAsked, TellsLine, TellsMore, TellsText, Writes, asks_more, larger_budget, size_line, spent_line};
ghost use Rattle.strc_command.specs.Runs.{Told, change};

use crate::names::is_unseen;
use crate::report::{FileLine, Reporting, report, report_numbers, report_refusal};
use crate::request::{MAX_RULES, OutputOptions};
use crate::tables::write_rows;
use itoa::Buffer;
use std::alloc::{AllocError, Global};
use str_pipeline::{
    Coverage, Inquiry, MAX_BUDGET, NamedLine, OversizeTerm, Position, Remark, RunNotes, Sink,
    Status, write_all,
};
use term_model::Fault;
use term_model::term::{MAX_DEPTH, MAX_WEIGHT};

/// Returns notes for a run that is reported so: they ask what the report shows. If memory for that is refused, they ask nothing.
pub(crate) fn notes_for(alloc: Global, reporting: Reporting<'_>) -> RunNotes {
    match inquiry_of(alloc, reporting) {
        Ok(inquiry) => RunNotes::asking(inquiry),
        Err(_) => RunNotes::none(),
    }
}

/// Returns what is asked of a run that is reported so.
fn inquiry_of(alloc: Global, reporting: Reporting<'_>) -> Result<Inquiry, AllocError> {
    let mut traces = Vec::new(alloc);
    for name in reporting.traces {
        traces.push(name.as_bytes().to_vec(alloc)?)?;
    }
    let output = reporting.output;
    Ok(Inquiry {
        explains: output.explains,
        counts: coverage_of(output),
        profiles: output.has_profile,
        traces,
        only_failures: output.only_failures,
    })
}

/// Returns of which files the alternatives are counted, if of any.
fn coverage_of(output: OutputOptions) -> Option<Coverage> {
    match (output.has_all_counts, output.has_counts) {
        (true, _) => Some(Coverage::AllFiles),
        (false, true) => Some(Coverage::LastFile),
        (false, false) => None,
    }
}

/// Writes the pieces of a text, up to the first one that cannot be written.
pub(crate) fn write_pieces<E: Sink>(pieces: &[&[u8]], diagnostics: &mut E) -> Result<(), Fault>
    ensures told { TellsText (E.writer.written diagnostics.old) (E.writer.written diagnostics.new) }
    ensures writes { Told (change E.writer diagnostics.old diagnostics.new)
        (Writes (concat (map (λ piece. piece.now) pieces.now)) (is_err result)) }
{
    for piece in pieces {
        write_all(diagnostics, piece)?;
    }
    Ok(())
}

/// Writes a name with `?` in place of each character that cannot be seen.
pub(crate) fn write_name<E: Sink>(name: &str, diagnostics: &mut E) -> Result<(), Fault>
    ensures { TellsText (E.writer.written diagnostics.old) (E.writer.written diagnostics.new) }
{
    let mut bytes = [0u8; 4];
    for character in name.chars() {
        let shown = if is_unseen(character) { '?' } else { character };
        write_pieces(&[shown.encode_utf8(&mut bytes).as_bytes()], diagnostics)?;
    }
    Ok(())
}

/// Returns how to ask for a larger budget, if there is one.
fn larger_budget(budget: u64) -> &'static [u8]
    ensures { result.now ≡ larger_budget budget }
{
    if budget < MAX_RULES {
        b"; write --rules N with a larger N, or --no-limit"
    } else if budget < MAX_BUDGET {
        b"; write --no-limit"
    } else {
        b""
    }
}

/// Writes that the budget is spent, and how to ask for a larger one.
fn write_spent<E: Sink>(budget: u64, diagnostics: &mut E) -> Result<(), Fault>
    ensures { Told (change E.writer diagnostics.old diagnostics.new)
        (Writes (spent_line budget) (is_err result)) }
{
    let mut digits = Buffer::new();
    let pieces = [
        b"strc: the budget of ".as_slice(),
        digits.format(budget).as_bytes(),
        b" rules is spent",
        larger_budget(budget),
        b"\n",
    ];
    write_pieces(&pieces, diagnostics)
}

/// What of a term is too large.
#[derive(Clone, Copy)]
struct Excess {
    measure: &'static str,
    size: u32,
    most: u32,
}

/// Returns the size of a term that did not fit which is reported: its depth where that is too great, and else its weight. Where the weight is
/// too great, not all parts of the term may have been added up, so that it has at least these sizes.
fn excess_of(size: &OversizeTerm) -> Excess
    ensures { IsSizeLine (size_line result.measure.now result.size result.most) }
{
    let OversizeTerm { weight, depth } = *size;
    if depth <= MAX_DEPTH {
        return Excess {
            measure: "weight at least",
            size: weight,
            most: MAX_WEIGHT,
        };
    }
    let is_exact = weight <= MAX_WEIGHT;
    Excess {
        measure: if is_exact { "depth" } else { "depth at least" },
        size: depth,
        most: MAX_DEPTH,
    }
}

/// Writes how large a term was that did not fit.
pub(crate) fn write_excess<E: Sink>(size: &OversizeTerm, diagnostics: &mut E) -> Result<(), Fault>
    ensures { (line : List ℕ) × IsSizeLine line ×
        Told (change E.writer diagnostics.old diagnostics.new) (Writes line (is_err result)) }
{
    let excess = excess_of(size);
    let (mut size_digits, mut most_digits) = (Buffer::new(), Buffer::new());
    let pieces = [
        b"strc: a term of ".as_slice(),
        excess.measure.as_bytes(),
        b" ",
        size_digits.format(excess.size).as_bytes(),
        b" would be made; the most is ",
        most_digits.format(excess.most).as_bytes(),
        b"\n",
    ];
    write_pieces(&pieces, diagnostics)
}

/// Writes how large the term was that did not fit, where that is known.
fn write_oversize<E: Sink>(notes: &RunNotes, diagnostics: &mut E) -> Result<(), Fault>
    ensures { (line : List ℕ) × IsSizeLine line ×
        Told (change E.writer diagnostics.old diagnostics.new) (Writes line (is_err result)) }
{
    match notes.oversize_term() {
        Some(size) => write_excess(size, diagnostics),
        None => Ok(()),
    }
}

/// Writes of which text a line is, if the name is not empty.
fn write_text_name<E: Sink>(name: &str, diagnostics: &mut E) -> Result<(), Fault>
    ensures { TellsText (E.writer.written diagnostics.old) (E.writer.written diagnostics.new) }
{
    if name.is_empty() {
        return Ok(());
    }
    write_pieces(&[b" of ".as_slice()], diagnostics)?;
    write_name(name, diagnostics)
}

/// Writes the end of a remark that is about another line, of the text of this name if that is not empty, and a line feed.
fn write_other_line<E: Sink>(line: usize, name: &str, diagnostics: &mut E) -> Result<(), Fault>
    ensures { TellsText (E.writer.written diagnostics.old) (E.writer.written diagnostics.new) }
{
    let mut digits = Buffer::new();
    let pieces = [b" on line ".as_slice(), digits.format(line).as_bytes()];
    write_pieces(&pieces, diagnostics)?;
    write_text_name(name, diagnostics)?;
    write_pieces(&[b"\n".as_slice()], diagnostics)
}

/// Writes the end of a remark on a place in this file: the other line of all definitions that it is about, if there is one, and a line feed.
fn write_mention<E: Sink>(
    reporting: Reporting<'_>,
    on_line: Option<usize>,
    beside: &str,
    diagnostics: &mut E,
) -> Result<(), Fault>
    ensures { TellsText (E.writer.written diagnostics.old) (E.writer.written diagnostics.new) }
{
    let Some(other) = on_line else {
        return write_pieces(&[b"\n".as_slice()], diagnostics);
    };
    let NamedLine { line, text_name } = reporting.named_line(other, beside);
    write_other_line(line, text_name.unwrap_or(""), diagnostics)
}

/// Writes the line of a remark: the file and the place in it at which it stands, or two blanks; its text; and the other line that it is about,
/// if there is one.
pub(crate) fn write_remark<E: Sink>(
    reporting: Reporting<'_>,
    remark: &Remark,
    diagnostics: &mut E,
) -> Result<(), Fault>
    ensures { TellsText (E.writer.written diagnostics.old) (E.writer.written diagnostics.new) }
{
    let text = remark.text.as_slice();
    let Some(Position { line, column }) = remark.position else {
        return write_pieces(&[b"  ".as_slice(), text, b"\n"], diagnostics);
    };
    let FileLine { name, line } = reporting.file_line(line);
    write_name(name, diagnostics)?;
    let (mut line_digits, mut column_digits) = (Buffer::new(), Buffer::new());
    let pieces = [
        b":".as_slice(),
        line_digits.format(line).as_bytes(),
        b":",
        column_digits.format(column).as_bytes(),
        b": ",
        text,
    ];
    write_pieces(&pieces, diagnostics)?;
    write_mention(reporting, remark.on_line, name, diagnostics)
}

/// Writes why a run has no result or what a check found, where that is known: a line for each remark.
pub(crate) fn write_remarks<E: Sink>(
    reporting: Reporting<'_>,
    notes: &RunNotes,
    diagnostics: &mut E,
) -> Result<(), Fault>
    ensures { TellsText (E.writer.written diagnostics.old) (E.writer.written diagnostics.new) }
{
    let Some(explanation) = notes.explanation() else {
        return Ok(());
    };
    for remark in explanation.remarks() {
        write_remark(reporting, remark, diagnostics)?;
    }
    Ok(())
}

/// Writes what is reported of a run: tables of what it did, why it has no result, warnings, and then what it used, if that is asked for.
/// Where a write fails, nothing more is written.
fn report_more<E: Sink>(
    alloc: Global,
    reporting: Reporting<'_>,
    notes: &RunNotes,
    diagnostics: &mut E,
)
    ensures { TellsText (E.writer.written diagnostics.old) (E.writer.written diagnostics.new) }
{
    if write_rows(reporting, notes.rows(), diagnostics).is_err() {
        return;
    }
    report_remarks(alloc, reporting, notes, diagnostics);
}

/// Writes why a run has no result, warnings, and then what it used, if that is asked for. Where a write fails, nothing more is written.
fn report_remarks<E: Sink>(
    alloc: Global,
    reporting: Reporting<'_>,
    notes: &RunNotes,
    diagnostics: &mut E,
)
    ensures { TellsText (E.writer.written diagnostics.old) (E.writer.written diagnostics.new) }
{
    if write_remarks(reporting, notes, diagnostics).is_err() {
        return;
    }
    report_numbers(alloc, reporting.output.has_stats, notes, diagnostics);
}

/// Writes what is reported of a run of which more is asked than its result.
fn report_asked<E: Sink>(
    alloc: Global,
    reporting: Reporting<'_>,
    notes: &RunNotes,
    diagnostics: &mut E,
)
    ensures { TellsIfAsked (asks_more reporting.entry.output)
        (E.writer.written diagnostics.old) (E.writer.written diagnostics.new) }
{
    if reporting.reports_runs() {
        report_more(alloc, reporting, notes, diagnostics);
    }
}

/// Writes the diagnostic line of a refusal of definitions that are checked, and then a line for each remark or, if there are none, what
/// `report_refusal` writes.
pub(crate) fn report_findings<E: Sink>(
    alloc: Global,
    fault: &Fault,
    reporting: Reporting<'_>,
    notes: &RunNotes,
    diagnostics: &mut E,
)
    ensures { Told (change E.writer diagnostics.old diagnostics.new) (TellsMore fault.now) }
{
    if notes.explanation().is_none() {
        report_refusal(alloc, fault, reporting, notes, diagnostics);
        return;
    }
    if report(fault, diagnostics).is_err() {
        return;
    }
    let _ = write_remarks(reporting, notes, diagnostics);
}

/// Writes that a term did not fit and, where that is asked for, more of the run.
fn report_oversize<E: Sink>(
    alloc: Global,
    reporting: Reporting<'_>,
    notes: &RunNotes,
    diagnostics: &mut E,
)
    ensures { (line : List ℕ) × IsSizeLine line ×
        Told (change E.writer diagnostics.old diagnostics.new)
        (TellsLine line (asks_more reporting.entry.output)) }
{
    if write_oversize(notes, diagnostics).is_err() {
        return;
    }
    report_asked(alloc, reporting, notes, diagnostics);
}

/// Writes that the budget is spent and, where that is asked for, more of the run.
fn report_spent<E: Sink>(
    alloc: Global,
    budget: u64,
    reporting: Reporting<'_>,
    notes: &RunNotes,
    diagnostics: &mut E,
)
    ensures { Told (change E.writer diagnostics.old diagnostics.new)
        (TellsLine (spent_line budget) (asks_more reporting.entry.output)) }
{
    if write_spent(budget, diagnostics).is_err() {
        return;
    }
    report_asked(alloc, reporting, notes, diagnostics);
}

/// Writes how a transformation with this budget ended: of a refusal the diagnostic line and lines that say more, of a spent budget and of a
/// term that did not fit one line, of a failure the warnings about variables, and then what is asked for. A result is reported only where
/// more is asked for.
pub(crate) fn report_end<E: Sink>(
    alloc: Global,
    status: &Status,
    budget: u64,
    reporting: Reporting<'_>,
    notes: &RunNotes,
    diagnostics: &mut E,
)
    ensures { Told (change E.writer diagnostics.old diagnostics.new)
        (IsReported reporting.entry.output budget status.now) }
{
    match status {
        Status::Rewritten => report_asked(alloc, reporting, notes, diagnostics),
        Status::Failed => report_more(alloc, reporting, notes, diagnostics),
        Status::Refused(fault) => report_refusal(alloc, fault, reporting, notes, diagnostics),
        Status::Oversize => report_oversize(alloc, reporting, notes, diagnostics),
        Status::Spent => report_spent(alloc, budget, reporting, notes, diagnostics),
    }
}
