//! The lines on the diagnostic stream.
ghost use Rattle.std.specs.Prelude.{◌≡◌, ◌+◌, OnOk, IfErr, is_err, if◌then◌else◌};
ghost use Rattle.str_pipeline.specs.Device.{Gains, GainsPrefix};
ghost use Rattle.strc_command.specs.Report.{asks_more, place_of, place_text, diagnostic, TellsMore, TellsIfAsked};
ghost use Rattle.strc_command.specs.Runs.{Told, change};

use crate::failure::Failure;
use crate::names::shown_name;
use crate::opening::Library;
use crate::request::{OutputOptions, Request};
use itoa::Buffer;
use std::alloc::{AllocError, Global};
use str_pipeline::{
    Excerpt, FileProgress, Hint, NamedLine, Reason, RunNotes, Sink, Subject, Used, write_all,
};
use term_model::Fault;

/// Returns the byte at which the text was refused.
fn place_of(fault: &Fault) -> Option<u64>
    ensures { result ≡ place_of fault.now }
{
    match fault {
        Fault::Lexical { at }
        | Fault::ReservedWord { at }
        | Fault::Syntax { at }
        | Fault::Nesting { at }
        | Fault::TermSyntax { at }
        | Fault::TermOversize { at } => Some(*at),
        _ => None,
    }
}

/// Writes the place of a fault, where it has one.
fn write_place<E: Sink>(place: Option<u64>, diagnostics: &mut E) -> Result<(), Fault>
    ensures whole { OnOk result
        (Gains (E.writer.written diagnostics.old) (E.writer.written diagnostics.new)
        (place_text place)) }
    ensures prefix { GainsPrefix (E.writer.written diagnostics.old)
        (E.writer.written diagnostics.new)
        (place_text place) }
    ensures failed { E.writer.failed_writes diagnostics.new ≡
        E.writer.failed_writes diagnostics.old +
        (if is_err result then 1 else 0) }
    ensures kinds { IfErr result (λ e. e ≡ Fault.Write) }
{
    let Some(at) = place else {
        return Ok(());
    };
    write_all(diagnostics, b" at byte ")?;
    let mut digits = Buffer::new();
    write_all(diagnostics, digits.format(at).as_bytes())
}

/// Writes the diagnostic line of a fault: `strc: `, its word and, where a text was refused at some
/// byte, ` at byte ` and its place.
pub(crate) fn report<E: Sink>(fault: &Fault, diagnostics: &mut E) -> Result<(), Fault>
    ensures whole { OnOk result
        (Gains (E.writer.written diagnostics.old) (E.writer.written diagnostics.new)
        (diagnostic fault.now)) }
    ensures prefix { GainsPrefix (E.writer.written diagnostics.old)
        (E.writer.written diagnostics.new)
        (diagnostic fault.now) }
    ensures failed { E.writer.failed_writes diagnostics.new ≡
        E.writer.failed_writes diagnostics.old +
        (if is_err result then 1 else 0) }
    ensures kinds { IfErr result (λ e. e ≡ Fault.Write) }
{
    write_all(diagnostics, b"strc: ")?;
    write_all(diagnostics, fault.word().as_bytes())?;
    write_place(place_of(fault), diagnostics)?;
    write_all(diagnostics, b"\n")
}

/// A line of a file, from 1, and what the file is called.
#[derive(Clone, Copy, Debug, PartialEq, Eq, Drop)]
pub(crate) struct FileLine<'a> {
    pub(crate) name: &'a str,
    pub(crate) line: usize,
}

/// How the end of a transformation is reported: what the texts are called, how far the files of definitions were read, and which output is
/// asked for.
#[derive(Clone, Copy, Drop)]
pub(crate) struct Reporting<'a> {
    /// The files in front of the definitions.
    pub(crate) libraries: &'a [Library],
    pub(crate) definitions: &'a str,
    pub(crate) term: &'a str,
    /// How far each file of definitions was read, where they come from files.
    pub(crate) files: &'a [FileProgress],
    pub(crate) output: OutputOptions,
    /// The names of the definitions whose calls are reported.
    pub(crate) traces: &'a [&'a str],
    /// Whether the strategy to apply has an empty name.
    pub(crate) lacks_name: bool,
}

impl<'a> Reporting<'a> {
    /// Reports as the request asks, over texts that are called so, of which nothing was read.
    pub(crate) fn new(
        request: &'a Request<'a>,
        libraries: &'a [Library],
        definitions: &'a str,
        term: &'a str,
    ) -> Reporting<'a>
        ensures output { result.output ≡ request.now.output }
        ensures definitions { result.definitions ≡ definitions.entry }
        ensures term { result.term ≡ term.entry }
        ensures libraries { result.libraries ≡ libraries.entry }
    {
        Reporting {
            libraries,
            definitions,
            term,
            files: &[],
            output: request.output,
            traces: request.traces.as_slice(),
            lacks_name: request.main.is_empty(),
        }
    }

    /// Whether anything is reported of a run that was neither refused nor stopped by a limit.
    pub(crate) fn reports_runs(self) -> bool
        ensures { result ≡ asks_more self.entry.output }
    {
        let output = self.output;
        output.has_stats
            || (output.explains
                || (output.has_counts
                    || (output.has_all_counts || (output.has_profile || output.has_traces))))
    }

    /// Returns the file in which a line of the text of all definitions stands, and its number there.
    pub(crate) fn file_line(self, line: usize) -> FileLine<'a> {
        let mut line = line;
        for (index, library) in self.libraries.iter().enumerate() {
            let Some(file) = self.files.get(index) else {
                break;
            };
            if line <= file.line_feeds {
                let name = library.path.as_str();
                return FileLine { name, line };
            }
            line = line.saturating_sub(file.line_feeds);
        }
        FileLine {
            name: self.definitions,
            line,
        }
    }

    /// Returns what is said of a line of the text of all definitions beside a place in this file, which is not named again.
    pub(crate) fn named_line(self, line: usize, beside: &str) -> NamedLine<'a> {
        let FileLine { name, line } = self.file_line(line);
        NamedLine {
            line,
            text_name: if name == beside { None } else { Some(name) },
        }
    }

    /// Returns the name of the first file of definitions of which not all was read, or of the last file.
    pub(crate) fn name_in_progress(self) -> &'a str {
        for (index, library) in self.libraries.iter().enumerate() {
            let is_ended = self.files.get(index).is_some_and(|file| file.is_ended);
            if !is_ended {
                return library.path.as_str();
            }
        }
        self.definitions
    }
}

/// What standard input is called.
pub(crate) const INPUT: &str = "stdin";

/// Returns what is said of a place in the definitions: the name of the file, the line and the column, the reason, and the line with a mark
/// under the place.
fn in_definitions(
    alloc: Global,
    reporting: Reporting<'_>,
    reason: &Reason,
    place: &Excerpt,
) -> Result<String, AllocError> {
    let FileLine { name, line } = reporting.file_line(place.line());
    let (name, column) = (shown_name(alloc, name)?, place.column());
    format!(in alloc; "{name}:{line}:{column}: {reason}\n{place}\n")
}

/// Returns the same of a place in the term, whose name can be shown, and which comes after this number of lines of the input.
fn in_term(
    alloc: Global,
    name: &str,
    reason: &Reason,
    place: &Excerpt,
    lines_before: usize,
) -> Result<String, AllocError> {
    let (line, column) = (place.line(), place.column());
    if lines_before == 0 {
        return format!(in alloc; "{name}:{line}:{column}: {reason}\n{place}\n");
    }
    let whole = lines_before.saturating_add(line);
    format!(in alloc; "{name}:{whole}:{column}: {reason} (line {line} of the term)\n{place}\n")
}

/// Returns what is said of definitions that are refused at no place. The most bytes are those of all files together.
fn of_definitions(
    alloc: Global,
    reporting: Reporting<'_>,
    reason: &Reason,
) -> Result<String, AllocError> {
    let name = shown_name(alloc, reporting.definitions)?;
    match reason {
        Reason::DefinitionsTooLong if !reporting.libraries.is_empty() => {
            format!(in alloc; "{name}: {reason}, those of --with included\n")
        }
        _ => format!(in alloc; "{name}: {reason}\n"),
    }
}

/// Returns the lines that say more of a refusal, with their line feeds; nothing where nothing was noted of it, or where memory for the text
/// is refused.
fn refusal_lines(alloc: Global, reporting: Reporting<'_>, notes: &RunNotes) -> Option<String> {
    let reason = notes.reason()?;
    let name = shown_name(alloc, reporting.term).ok()?;
    let term = name.as_str();
    let text = match (notes.subject(), notes.place()) {
        (Subject::Definitions, Some(place)) => in_definitions(alloc, reporting, reason, place),
        (Subject::Definitions, None) => of_definitions(alloc, reporting, reason),
        (Subject::Term, Some(place)) => in_term(alloc, term, reason, place, notes.lines_before()),
        (Subject::Term, None) => format!(in alloc; "{term}: {reason}\n"),
    };
    with_hint(alloc, text.ok()?, reporting, notes)
}

/// Returns the lines with one more for the hint, with its line as a line of its file, which is named where the refusal is in another one.
fn with_placed_hint(
    alloc: Global,
    text: &str,
    reporting: Reporting<'_>,
    notes: &RunNotes,
    hint: Hint,
) -> Result<String, AllocError> {
    let refused = match notes.place() {
        Some(place) => place.line(),
        None => 1,
    };
    let line = hint.line().unwrap_or(refused);
    let beside = reporting.file_line(refused).name;
    let NamedLine { line, text_name } = reporting.named_line(line, beside);
    let name = shown_name(alloc, text_name.unwrap_or(""))?;
    let placed = hint.on_line(NamedLine {
        line,
        text_name: text_name.and(Some(name.as_str())),
    });
    format!(in alloc; "{text}hint: {placed}\n")
}

/// Returns the lines with one more that says what was probably meant, if that is guessed and memory for it is there.
fn with_hint(
    alloc: Global,
    text: String,
    reporting: Reporting<'_>,
    notes: &RunNotes,
) -> Option<String> {
    let whole = match notes.hint() {
        Some(hint) => with_placed_hint(alloc, text.as_str(), reporting, notes, *hint),
        None if reporting.lacks_name => {
            format!(in alloc; "{text}hint: --main needs the name of a strategy\n")
        }
        None => return Some(text),
    };
    Some(whole.unwrap_or(text))
}

/// Writes the diagnostic line of a fault and, where there is a text that says more, the text. Where a write fails, nothing more is written.
fn report_with<E: Sink>(fault: &Fault, more: Option<String>, diagnostics: &mut E)
    ensures { Told (change E.writer diagnostics.old diagnostics.new) (TellsMore fault.now) }
{
    if report(fault, diagnostics).is_err() {
        return;
    }
    let Some(text) = more else {
        return;
    };
    let _ = write_all(diagnostics, text.as_bytes());
}

/// Writes the diagnostic line of a refusal and, where something was noted of it, lines that say more.
pub(crate) fn report_refusal<E: Sink>(
    alloc: Global,
    fault: &Fault,
    reporting: Reporting<'_>,
    notes: &RunNotes,
    diagnostics: &mut E,
)
    ensures { Told (change E.writer diagnostics.old diagnostics.new) (TellsMore fault.now) }
{
    report_with(fault, refusal_lines(alloc, reporting, notes), diagnostics);
}

/// Writes the diagnostic line of a fault and, where memory for it is there, a line that says what failed and why.
pub(crate) fn report_failure<E: Sink>(
    alloc: Global,
    fault: &Fault,
    failure: Failure<'_>,
    diagnostics: &mut E,
)
    ensures { Told (change E.writer diagnostics.old diagnostics.new) (TellsMore fault.now) }
{
    report_with(fault, failure.line(alloc), diagnostics);
}

/// Returns the line of what the run used, with its line feed; nothing where there was no run, or where memory for it is refused.
fn numbers(alloc: Global, notes: &RunNotes) -> Option<String> {
    let Used {
        rules,
        steps,
        shapes,
    } = *notes.used()?;
    format!(in alloc; "strc: {rules} rules, {steps} steps, {shapes} shapes\n").ok()
}

/// Writes the line of what the run used, where it is asked for.
pub(crate) fn report_numbers<E: Sink>(
    alloc: Global,
    has_stats: bool,
    notes: &RunNotes,
    diagnostics: &mut E,
)
    ensures { TellsIfAsked has_stats (E.writer.written diagnostics.old)
        (E.writer.written diagnostics.new) }
{
    if !has_stats {
        return;
    }
    let Some(text) = numbers(alloc, notes) else {
        return;
    };
    let _ = write_all(diagnostics, text.as_bytes());
}
