//! The check of definitions without a term.
ghost use Rattle.std.specs.Prelude.{◌≡◌, ◌+◌, ◌<◌, ◌≤◌, map, IfSome};
ghost use Rattle.str_pipeline.specs.Setting.{setting_of};
ghost use Rattle.str_pipeline.specs.Joined.{OfJoinedDefinitionsAfter};
ghost use Rattle.str_pipeline.specs.Limits.{max_definitions};
ghost use Rattle.strc_command.specs.Asked.{paths_in};
ghost use Rattle.strc_command.specs.Elements.{texts_in};
ghost use Rattle.strc_command.specs.Files.{OfDefinitions, OfFiles, OfJoinedFiles, path_of, texts_at, whole_text};
ghost use Rattle.strc_command.specs.Report.{exit_of_verdict, IsUnread, TellsVerdict};
ghost use Rattle.strc_command.specs.Runs.{IsJudged, Told, change};

use crate::ending::{report_findings, write_remarks};
use crate::failure::Failure;
use crate::opening::{find_libraries, open_definitions, open_in_front};
use crate::paths::Paths;
use crate::report::{INPUT, Reporting};
use crate::request::{Request, Texts};
use crate::stopping::stop_reading;
use keyed_hash::HashKeys;
use prim_registry::{PrimMeaning, Registry};
use std::alloc::Global;
use str_pipeline::{Options, RunNotes, Sink, Source, check_definitions, check_joined};
use term_model::Fault;

/// Reports what was judged of definitions, and returns the exit status: 0, or 2 if they are refused.
fn conclude_check<E: Sink>(
    alloc: Global,
    verdict: Option<Fault>,
    reporting: Reporting<'_>,
    notes: &RunNotes,
    diagnostics: &mut E,
) -> u8
    ensures status { (exit_of_verdict verdict ≡ result) × (result ≤ 2) }
    ensures told { Told (change E.writer diagnostics.old diagnostics.new) (TellsVerdict verdict) }
{
    match verdict {
        Some(fault) => {
            report_findings(alloc, &fault, reporting, notes, diagnostics);
            2
        }
        None => {
            let _ = write_remarks(reporting, notes, diagnostics);
            0
        }
    }
}

/// Checks the definitions of the reader, reports what is found, and returns the exit status: 0 if nothing is wrong in them, 2 if they are
/// refused, and 4 if reading or memory failed.
fn check_reader<D: Source, E: Sink, M: PrimMeaning>(
    alloc: Global,
    keys: HashKeys,
    definitions: &mut D,
    reporting: Reporting<'_>,
    options: &Options,
    registry: &Registry<M>,
    diagnostics: &mut E,
) -> u8
    ensures status { result ≤ 4 }
    ensures judged { result < 4 → IsJudged (IfSome (D.reader.coming definitions.old))
        (setting_of M.answer registry.now options.now)
        (change E.writer diagnostics.old diagnostics.new) result }
    ensures stopped { result ≡ 4 →
        Told (change E.writer diagnostics.old diagnostics.new) IsUnread }
    ensures bounded { D.reader.reads definitions.new ≤ D.reader.reads definitions.old +
        max_definitions + 1 }
{
    let mut notes = RunNotes::none();
    match check_definitions(alloc, keys, definitions, options, registry, &mut notes) {
        Ok(verdict) => {
            let reporting = Reporting {
                files: definitions.files(),
                ..reporting
            };
            conclude_check(alloc, verdict, reporting, &notes, diagnostics)
        }
        Err(fault) => {
            let reporting = Reporting {
                files: definitions.files(),
                ..reporting
            };
            let reading = Failure::of_reading(reporting, definitions.failure(), None);
            stop_reading(alloc, &fault, reading, diagnostics)
        }
    }
}

/// Checks the definitions of `input`, which has them in the joined form, after the text of the libraries. As `check_reader`.
fn check_joined_reader<L: Source, I: Source, E: Sink, M: PrimMeaning>(
    alloc: Global,
    keys: HashKeys,
    libraries: &mut L,
    input: &mut I,
    reporting: Reporting<'_>,
    options: &Options,
    registry: &Registry<M>,
    diagnostics: &mut E,
) -> u8
    ensures status { result ≤ 4 }
    ensures judged { result < 4 → IsJudged
        (OfJoinedDefinitionsAfter (L.reader.coming libraries.old) (I.reader.coming input.old))
        (setting_of M.answer registry.now options.now)
        (change E.writer diagnostics.old diagnostics.new) result }
    ensures stopped { result ≡ 4 →
        Told (change E.writer diagnostics.old diagnostics.new) IsUnread }
    ensures bounded { I.reader.reads input.new ≤ I.reader.reads input.old + max_definitions + 7 }
{
    let mut notes = RunNotes::none();
    match check_joined(alloc, keys, libraries, input, options, registry, &mut notes) {
        Ok(verdict) => {
            let reporting = Reporting {
                files: libraries.files(),
                ..reporting
            };
            conclude_check(alloc, verdict, reporting, &notes, diagnostics)
        }
        Err(fault) => {
            let reporting = Reporting {
                files: libraries.files(),
                ..reporting
            };
            let reading = Failure::of_reading(reporting, libraries.failure(), input.failure());
            stop_reading(alloc, &fault, reading, diagnostics)
        }
    }
}

/// Checks the definitions of the files that the report names, which are read as one text. As `check_reader`; a file that cannot be opened is a
/// fault of reading.
fn check_files<P: Paths, E: Sink, M: PrimMeaning>(
    alloc: Global,
    keys: HashKeys,
    paths: &mut P,
    reporting: Reporting<'_>,
    options: &Options,
    registry: &Registry<M>,
    diagnostics: &mut E,
) -> u8
    ensures status { result ≤ 4 }
    ensures judged { result < 4 → IsJudged (IfSome (whole_text (texts_at (P.text_at paths.old)
        (map path_of reporting.entry.libraries.now) reporting.entry.definitions.now)))
        (setting_of M.answer registry.now options.now)
        (change E.writer diagnostics.old diagnostics.new) result }
    ensures stopped { result ≡ 4 →
        Told (change E.writer diagnostics.old diagnostics.new) IsUnread }
{
    let (libraries, path) = (reporting.libraries, reporting.definitions);
    let mut definitions = match open_definitions(alloc, paths, libraries, path, diagnostics) {
        Ok(files) => files,
        Err(status) => return status,
    };
    check_reader(
        alloc,
        keys,
        &mut definitions,
        reporting,
        options,
        registry,
        diagnostics,
    )
}

/// Checks the definitions of the file at the path, and of those in front of it that the request names. As `check_reader`; a file that cannot
/// be opened is a fault of reading.
fn check_named<P: Paths, E: Sink, M: PrimMeaning>(
    alloc: Global,
    keys: HashKeys,
    request: &Request<'_>,
    path: &str,
    paths: &mut P,
    options: &Options,
    registry: &Registry<M>,
    diagnostics: &mut E,
) -> u8
    ensures status { result ≤ 4 }
    ensures judged { result < 4 → IsJudged
        (OfFiles (P.text_at paths.old) (texts_in request.now.libraries.items) path.now)
        (setting_of M.answer registry.now options.now)
        (change E.writer diagnostics.old diagnostics.new) result }
    ensures stopped { result ≡ 4 →
        Told (change E.writer diagnostics.old diagnostics.new) IsUnread }
{
    let libraries = match find_libraries(alloc, paths, &request.libraries, diagnostics) {
        Ok(libraries) => libraries,
        Err(status) => return status,
    };
    let reporting = Reporting::new(request, &libraries, path, INPUT);
    check_files(
        alloc,
        keys,
        paths,
        reporting,
        options,
        registry,
        diagnostics,
    )
}

/// Checks the definitions of `input`, which has them in the joined form, and of the files in front of them that the request names. As
/// `check_reader`; a file that cannot be opened is a fault of reading.
fn check_input<P: Paths, I: Source, E: Sink, M: PrimMeaning>(
    alloc: Global,
    keys: HashKeys,
    request: &Request<'_>,
    paths: &mut P,
    input: &mut I,
    options: &Options,
    registry: &Registry<M>,
    diagnostics: &mut E,
) -> u8
    ensures status { result ≤ 4 }
    ensures judged { result < 4 → IsJudged
        (λ relates. OfJoinedFiles (P.text_at paths.old) (I.reader.coming input.old)
        (texts_in request.now.libraries.items) (λ d t. relates d))
        (setting_of M.answer registry.now options.now)
        (change E.writer diagnostics.old diagnostics.new) result }
    ensures stopped { result ≡ 4 →
        Told (change E.writer diagnostics.old diagnostics.new) IsUnread }
    ensures bounded { I.reader.reads input.new ≤ I.reader.reads input.old + max_definitions + 7 }
{
    let libraries = match find_libraries(alloc, paths, &request.libraries, diagnostics) {
        Ok(libraries) => libraries,
        Err(status) => return status,
    };
    let mut files = match open_in_front(alloc, paths, &libraries, diagnostics) {
        Ok(files) => files,
        Err(status) => return status,
    };
    let reporting = Reporting::new(request, &libraries, INPUT, INPUT);
    check_joined_reader(
        alloc,
        keys,
        &mut files,
        input,
        reporting,
        options,
        registry,
        diagnostics,
    )
}

/// Checks the definitions that the request names: those of its files, as one text, and else those of `input` in the joined form. As
/// `check_reader`; a file that cannot be opened is a fault of reading.
pub(crate) fn run_check<P: Paths, I: Source, E: Sink, M: PrimMeaning>(
    alloc: Global,
    keys: HashKeys,
    request: &Request<'_>,
    paths: &mut P,
    input: &mut I,
    options: &Options,
    registry: &Registry<M>,
    diagnostics: &mut E,
) -> u8
    ensures status { result ≤ 4 }
    ensures judged { result < 4 → IsJudged
        (OfDefinitions (P.text_at paths.old) (I.reader.coming input.old)
        (texts_in request.now.libraries.items) (paths_in request.now.texts))
        (setting_of M.answer registry.now options.now)
        (change E.writer diagnostics.old diagnostics.new) result }
    ensures stopped { result ≡ 4 →
        Told (change E.writer diagnostics.old diagnostics.new) IsUnread }
    ensures bounded { I.reader.reads input.new ≤ I.reader.reads input.old + max_definitions + 7 }
{
    match request.texts {
        Texts::Joined => check_input(
            alloc,
            keys,
            request,
            paths,
            input,
            options,
            registry,
            diagnostics,
        ),
        Texts::Definitions(path) | Texts::Both(path, _) => check_named(
            alloc,
            keys,
            request,
            path,
            paths,
            options,
            registry,
            diagnostics,
        ),
    }
}
