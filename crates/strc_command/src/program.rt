//! The work of the program, over any streams and files.
ghost use Rattle.std.specs.Prelude.{◌≡◌, ◌+◌, ◌<◌, ◌≤◌, ◌∷◌, [], None, drop, false, length, map, string_bytes, IfSome};
ghost use Rattle.term_model.specs.Limits.{max_budget};
ghost use Rattle.prim_registry.specs.Entries.{IsHonest};
ghost use Rattle.str_pipeline.specs.Setting.{setting_of};
ghost use Rattle.str_pipeline.specs.Limits.{max_definitions, max_term};
ghost use Rattle.strc_command.specs.Asked.{asked_in, asked_of, paths_in};
ghost use Rattle.strc_command.specs.Elements.{texts_in};
ghost use Rattle.strc_command.specs.Files.{OfFiles, OfTexts, path_of, texts_at, whole_text};
ghost use Rattle.strc_command.specs.declared.request.Texts.TheVariants.{Joined};
ghost use Rattle.str_pipeline.specs.Joined.{OfJoined};
ghost use Rattle.str_pipeline.specs.Transformation.{OfTwo};
ghost use Rattle.strc_command.specs.Runs.{IsAnswered, IsDone, Runs, RunsJoined, RunsPlain, Stops, WritesText, change, reads_of};

use crate::checking::run_check;
use crate::joined::run_input;
use crate::open_streams::run_apart;
use crate::opening::{find_libraries, open_definitions, open_reader};
use crate::paths::Paths;
use crate::report::{INPUT, Reporting};
use crate::request::{Request, Texts, Unasked, options_of, request_of};
use crate::stopping::{stop, stop_writing};
use crate::usage::{error_of, usage_error};
use crate::version::answer_text;
use clap::Error;
use clap::error::ErrorKind;
use keyed_hash::HashKeys;
use prim_registry::{PrimMeaning, Registry};
use std::alloc::Global;
use str_pipeline::{Options, Sink, Source, Status, write_all};
use term_model::Fault;

/// Does the work with the files of definitions that the report names, which are read as one text, and the term of `input`. A file that cannot
/// be opened is a fault before anything is read.
#[tactic(auto, using(crate::proofs::CauseLaws::of_transfer, crate::proofs::CauseLaws::of_reading, crate::proofs::CauseLaws::fault_told))]
fn run_definitions<P: Paths, I: Source, W: Sink, E: Sink, M: PrimMeaning>(
    alloc: Global,
    keys: HashKeys,
    paths: &mut P,
    input: &mut I,
    reporting: Reporting<'_>,
    options: &Options,
    registry: &Registry<M>,
    out: &mut W,
    diagnostics: &mut E,
) -> u8
    requires budget { options.now.budget ≤ max_budget }
    requires honest { IsHonest M.answer registry.now }
    ensures status { result ≤ 4 }
    ensures ended { result < 4 → IsAnswered
        (OfTwo (whole_text (texts_at (P.text_at paths.old)
        (map path_of reporting.entry.libraries.now) reporting.entry.definitions.now))
        (I.reader.coming input.old))
        reporting.entry.output
        (setting_of M.answer registry.now options.now) (change W.writer out.old out.new)
        (change E.writer diagnostics.old diagnostics.new) result }
    ensures stops { Stops (change W.writer out.old out.new)
        (change E.writer diagnostics.old diagnostics.new) result }
    ensures bounded { I.reader.reads input.new ≤ I.reader.reads input.old + max_term + 1 }
{
    let (libraries, path) = (reporting.libraries, reporting.definitions);
    let mut definitions = match open_definitions(alloc, paths, libraries, path, diagnostics) {
        Ok(files) => files,
        Err(status) => return status,
    };
    run_apart(
        alloc,
        keys,
        &mut definitions,
        input,
        reporting,
        options,
        registry,
        out,
        diagnostics,
    )
}

/// Does the same with the file of the term that the report names, which is opened last.
#[tactic(auto, using(crate::proofs::CauseLaws::of_transfer, crate::proofs::CauseLaws::of_reading, crate::proofs::CauseLaws::fault_told))]
fn run_files<P: Paths, W: Sink, E: Sink, M: PrimMeaning>(
    alloc: Global,
    keys: HashKeys,
    paths: &mut P,
    reporting: Reporting<'_>,
    options: &Options,
    registry: &Registry<M>,
    out: &mut W,
    diagnostics: &mut E,
) -> u8
    requires budget { options.now.budget ≤ max_budget }
    requires honest { IsHonest M.answer registry.now }
    ensures status { result ≤ 4 }
    ensures ended { result < 4 → IsAnswered
        (OfTwo (whole_text (texts_at (P.text_at paths.old)
        (map path_of reporting.entry.libraries.now) reporting.entry.definitions.now))
        (P.text_at paths.old reporting.entry.term.now))
        reporting.entry.output
        (setting_of M.answer registry.now options.now) (change W.writer out.old out.new)
        (change E.writer diagnostics.old diagnostics.new) result }
    ensures stops { Stops (change W.writer out.old out.new)
        (change E.writer diagnostics.old diagnostics.new) result }
{
    let (libraries, path) = (reporting.libraries, reporting.definitions);
    let mut definitions = match open_definitions(alloc, paths, libraries, path, diagnostics) {
        Ok(files) => files,
        Err(status) => return status,
    };
    let mut term = match open_reader(alloc, paths, reporting.term, diagnostics) {
        Ok(reader) => reader,
        Err(status) => return status,
    };
    run_apart(
        alloc,
        keys,
        &mut definitions,
        &mut term,
        reporting,
        options,
        registry,
        out,
        diagnostics,
    )
}

/// Does the work with the file of the definitions at the path, those in front of it that the request names, and the term of `input`.
#[tactic(auto, using(crate::proofs::CauseLaws::of_transfer, crate::proofs::CauseLaws::of_reading, crate::proofs::CauseLaws::fault_told))]
fn run_with_input<P: Paths, I: Source, W: Sink, E: Sink, M: PrimMeaning>(
    alloc: Global,
    keys: HashKeys,
    request: &Request<'_>,
    path: &str,
    paths: &mut P,
    input: &mut I,
    options: &Options,
    registry: &Registry<M>,
    out: &mut W,
    diagnostics: &mut E,
) -> u8
    requires budget { options.now.budget ≤ max_budget }
    requires honest { IsHonest M.answer registry.now }
    ensures status { result ≤ 4 }
    ensures ended { result < 4 → IsAnswered
        (OfTexts (P.text_at paths.old) (I.reader.coming input.old)
        (texts_in request.now.libraries.items) (path.now ∷ []))
        request.now.output
        (setting_of M.answer registry.now options.now) (change W.writer out.old out.new)
        (change E.writer diagnostics.old diagnostics.new) result }
    ensures stops { Stops (change W.writer out.old out.new)
        (change E.writer diagnostics.old diagnostics.new) result }
    ensures bounded { I.reader.reads input.new ≤ I.reader.reads input.old + max_term + 1 }
{
    let libraries = match find_libraries(alloc, paths, &request.libraries, diagnostics) {
        Ok(libraries) => libraries,
        Err(status) => return status,
    };
    let reporting = Reporting::new(request, &libraries, path, INPUT);
    run_definitions(
        alloc,
        keys,
        paths,
        input,
        reporting,
        options,
        registry,
        out,
        diagnostics,
    )
}

/// Does the same with the file of the term at the other path.
#[tactic(auto, using(crate::proofs::CauseLaws::of_transfer, crate::proofs::CauseLaws::of_reading, crate::proofs::CauseLaws::fault_told))]
fn run_with_term<P: Paths, W: Sink, E: Sink, M: PrimMeaning>(
    alloc: Global,
    keys: HashKeys,
    request: &Request<'_>,
    path: &str,
    term: &str,
    paths: &mut P,
    options: &Options,
    registry: &Registry<M>,
    out: &mut W,
    diagnostics: &mut E,
) -> u8
    requires budget { options.now.budget ≤ max_budget }
    requires honest { IsHonest M.answer registry.now }
    ensures status { result ≤ 4 }
    ensures ended { result < 4 → IsAnswered
        (λ relates. OfFiles (P.text_at paths.old) (texts_in request.now.libraries.items) path.now
        (λ d. IfSome (P.text_at paths.old term.now) (relates d)))
        request.now.output
        (setting_of M.answer registry.now options.now) (change W.writer out.old out.new)
        (change E.writer diagnostics.old diagnostics.new) result }
    ensures stops { Stops (change W.writer out.old out.new)
        (change E.writer diagnostics.old diagnostics.new) result }
{
    let libraries = match find_libraries(alloc, paths, &request.libraries, diagnostics) {
        Ok(libraries) => libraries,
        Err(status) => return status,
    };
    let reporting = Reporting::new(request, &libraries, path, term);
    run_files(
        alloc,
        keys,
        paths,
        reporting,
        options,
        registry,
        out,
        diagnostics,
    )
}

/// Does the work with the texts that the request names. A file that cannot be opened is a fault before anything is read.
#[tactic(auto, using(crate::proofs::CauseLaws::of_transfer, crate::proofs::CauseLaws::of_reading, crate::proofs::CauseLaws::fault_told))]
fn run_texts<P: Paths, I: Source, W: Sink, E: Sink, M: PrimMeaning>(
    alloc: Global,
    keys: HashKeys,
    request: &Request<'_>,
    paths: &mut P,
    input: &mut I,
    options: &Options,
    registry: &Registry<M>,
    out: &mut W,
    diagnostics: &mut E,
) -> u8
    requires budget { options.now.budget ≤ max_budget }
    requires honest { IsHonest M.answer registry.now }
    ensures status { result ≤ 4 }
    ensures joined { request.now.texts ≡ Joined → texts_in request.now.libraries.items ≡ [] →
        Runs (OfJoined (I.reader.coming input.old))
        (reads_of I.reader input.old input.new) request.now.output
        (setting_of M.answer registry.now options.now) (change W.writer out.old out.new)
        (change E.writer diagnostics.old diagnostics.new) result }
    ensures ended { result < 4 → IsAnswered
        (OfTexts (P.text_at paths.old) (I.reader.coming input.old)
        (texts_in request.now.libraries.items) (paths_in request.now.texts))
        request.now.output
        (setting_of M.answer registry.now options.now) (change W.writer out.old out.new)
        (change E.writer diagnostics.old diagnostics.new) result }
    ensures stops { Stops (change W.writer out.old out.new)
        (change E.writer diagnostics.old diagnostics.new) result }
    ensures bounded { I.reader.reads input.new ≤ I.reader.reads input.old + max_definitions + 7 +
        max_term + 1 }
{
    match request.texts {
        Texts::Joined => run_input(
            alloc,
            keys,
            request,
            paths,
            input,
            options,
            registry,
            out,
            diagnostics,
        ),
        Texts::Definitions(path) => run_with_input(
            alloc,
            keys,
            request,
            path,
            paths,
            input,
            options,
            registry,
            out,
            diagnostics,
        ),
        Texts::Both(path, term) => run_with_term(
            alloc,
            keys,
            request,
            path,
            term,
            paths,
            options,
            registry,
            out,
            diagnostics,
        ),
    }
}

/// Does what the request asks for: it rewrites the term, or checks the definitions.
fn run_request<P: Paths, I: Source, W: Sink, E: Sink, M: PrimMeaning>(
    alloc: Global,
    keys: HashKeys,
    request: &Request<'_>,
    registry: &Registry<M>,
    paths: &mut P,
    input: &mut I,
    out: &mut W,
    diagnostics: &mut E,
) -> u8
    requires budget { request.now.rules ≤ max_budget }
    requires honest { IsHonest M.answer registry.now }
    ensures done { IsDone (asked_in request.now) (P.text_at paths.old) (I.reader.coming input.old)
        (setting_of M.answer registry.now) (change W.writer out.old out.new)
        (change E.writer diagnostics.old diagnostics.new) result }
    ensures joined { request.now.checks ≡ false → request.now.texts ≡ Joined →
        texts_in request.now.libraries.items ≡ [] →
        RunsJoined (asked_in request.now) (I.reader.coming input.old)
        (reads_of I.reader input.old input.new) (setting_of M.answer registry.now)
        (change W.writer out.old out.new) (change E.writer diagnostics.old diagnostics.new) result }
    ensures stops { Stops (change W.writer out.old out.new)
        (change E.writer diagnostics.old diagnostics.new) result }
    ensures bounded { I.reader.reads input.new ≤ I.reader.reads input.old + max_definitions + 7 +
        max_term + 1 }
{
    let Ok(options) = options_of(alloc, request) else {
        return stop(&Fault::Memory, diagnostics);
    };
    if request.checks {
        return run_check(
            alloc,
            keys,
            request,
            paths,
            input,
            &options,
            registry,
            diagnostics,
        );
    }
    run_texts(
        alloc,
        keys,
        request,
        paths,
        input,
        &options,
        registry,
        out,
        diagnostics,
    )
}

/// Says what is wrong with the words on `diagnostics`, and returns 5; or writes the help text or the version to `out`, as was asked, and
/// returns 0. Next to the version stands what a file that is installed with the program says of it.
#[tactic(auto, using(crate::proofs::CauseLaws::line_told))]
fn answer_error<P: Paths, W: Sink, E: Sink>(
    alloc: Global,
    error: &Error,
    paths: &mut P,
    out: &mut W,
    diagnostics: &mut E,
) -> u8
    ensures status { result ≤ 5 }
    ensures usage { result ≡ 5 → out.new ≡ out.old }
    ensures told { result < 4 → (result ≡ 0) × WritesText (change W.writer out.old out.new) }
    ensures stops { Stops (change W.writer out.old out.new)
        (change E.writer diagnostics.old diagnostics.new) result }
{
    if error.kind() == ErrorKind::OutOfMemory {
        return stop(&Fault::Memory, diagnostics);
    }
    let Ok(text) = answer_text(alloc, error, paths) else {
        return stop(&Fault::Memory, diagnostics);
    };
    if error.use_stderr() || text.is_empty() {
        let _ = write_all(diagnostics, &text);
        let _ = write_all(diagnostics, range_of(error.kind()).as_bytes());
        return 5;
    }
    if write_all(out, &text).is_err() {
        return stop_writing(alloc, out, diagnostics);
    }
    0
}

/// Does the same for words that ask for no run, of which the first is the name of the program.
fn answer_words<P: Paths, W: Sink, E: Sink>(
    alloc: Global,
    words: &[String],
    paths: &mut P,
    out: &mut W,
    diagnostics: &mut E,
) -> u8
    ensures status { result ≤ 5 }
    ensures usage { result ≡ 5 → out.new ≡ out.old }
    ensures told { result < 4 → (result ≡ 0) × WritesText (change W.writer out.old out.new) }
    ensures stops { Stops (change W.writer out.old out.new)
        (change E.writer diagnostics.old diagnostics.new) result }
{
    if let Some(error) = error_of(alloc, words) {
        return answer_error(alloc, &error, paths, out, diagnostics);
    }
    if let Ok(text) = usage_error(alloc) {
        let _ = write_all(diagnostics, text.as_bytes());
    }
    5
}

/// Returns the line that says what `--rules` takes where a value is wrong: it is the only option with a number. Nothing for other errors.
fn range_of(kind: ErrorKind) -> &'static str {
    if kind == ErrorKind::ValueValidation {
        "hint: --rules takes a number from 0 to 1000000000\n"
    } else {
        ""
    }
}

/// Does what the words of the command line ask for, of which the first is the name of the program: `[--rules N | --no-limit] [--main NAME]
/// [--strict] [--stats] [--explain] [--raw | --pretty] [--check] [--with FILE].. [DEFS [TERM]]`. It transforms the definitions of the file DEFS and the
/// term of the file TERM; without TERM the term comes from `input`, and without both paths `input` has the joined form. The definitions are
/// one text (`whole_text`): the bytes of each file of `--with`, a line feed after each, and those of DEFS, or those of `input` before the
/// first line `#term`. Definitions may call the primitives of the registry and the strategies of the library. The line of the answer goes
/// to `out`; with `--raw` a string as its bytes, and with `--pretty` a result in several lines. Files are opened before anything is read:
/// those of `--with` in their order, DEFS and TERM. With `--check` it judges the definitions alone, and what comes after the line `#term`
/// is not looked at: `diagnostics` gets the first hundred faults, the first hundred warnings, and how many there are if that is more, and
/// `out` nothing.
///
/// Returns the exit status: 0 where the term was rewritten, and for the help text and the version, which go to `out`; 1 where the strategy
/// failed, 2 where the definitions or the term were refused, 3 where the budget was spent or a term was too large, 4 where memory, opening,
/// reading or writing failed, and 5 where the words are wrong, and then nothing is read or written to `out`.
///
/// For 2 and 4 a line on `diagnostics` reports the fault. In the joined form without `--with` and for 4 that is `Read` exactly where a read
/// of `input` failed, `Write` exactly where a write to `out` failed, and `Memory` else. For 2 lines for a person come after it: the name of
/// the text, the line and the column, what is wrong, the line with a mark under the place, and a hint if what was meant can be guessed. For
/// 4 one line for a person comes after `Read` and `Write`: what could not be opened, read or written and, where that is known, why. These
/// lines are left out where memory for them is refused. Of a broken pipe, to which `out` writes, nothing is reported. For 3 a line says how
/// large the budget was that was spent, or how large the term was, if that is known. Where the words ask why there is no result, lines say
/// it next for 1 and 3, if memory for that was there. Where they ask for the numbers of the run, a line with them comes last for 0, 1
/// and 3. For 5 `diagnostics` says what is wrong with the words and, if the parser of the command line refused them, how to get the help
/// text. A write to `diagnostics` that fails changes nothing.
#[tactic(auto, using(crate::proofs::CauseLaws::line_told))]
pub fn run<P: Paths, I: Source, W: Sink, E: Sink, M: PrimMeaning>(
    alloc: Global,
    keys: HashKeys,
    words: &[String],
    registry: &Registry<M>,
    paths: &mut P,
    input: &mut I,
    out: &mut W,
    diagnostics: &mut E,
) -> u8
    requires honest { IsHonest M.answer registry.now }
    ensures status { result ≤ 5 }
    ensures usage { result ≡ 5 → (out.new ≡ out.old) × (input.new ≡ input.old) }
    ensures stops { Stops (change W.writer out.old out.new)
        (change E.writer diagnostics.old diagnostics.new) result }
    ensures bounded { I.reader.reads input.new ≤ I.reader.reads input.old + max_definitions + 7 +
        max_term + 1 }
    ensures asked { IfSome (asked_of (map string_bytes (drop 1 words.now))) (λ asked.
        IsDone asked (P.text_at paths.old) (I.reader.coming input.old)
        (setting_of M.answer registry.now) (change W.writer out.old out.new)
        (change E.writer diagnostics.old diagnostics.new) result) }
    ensures joined { IfSome (asked_of (map string_bytes (drop 1 words.now))) (λ asked.
        asked.checks ≡ false → asked.paths ≡ [] → asked.libraries ≡ [] →
        RunsJoined asked (I.reader.coming input.old)
        (reads_of I.reader input.old input.new) (setting_of M.answer registry.now)
        (change W.writer out.old out.new)
        (change E.writer diagnostics.old diagnostics.new) result) }
    ensures unasked { asked_of (map string_bytes (drop 1 words.now)) ≡ None → result < 4 →
        (result ≡ 0) × WritesText (change W.writer out.old out.new) }
    ensures plain { length words.now ≤ 1 → RunsPlain (I.reader.coming input.old)
        (reads_of I.reader input.old input.new) (setting_of M.answer registry.now)
        (change W.writer out.old out.new)
        (change E.writer diagnostics.old diagnostics.new) result }
{
    let request = match request_of(alloc, words) {
        Ok(request) => request,
        Err(Unasked::Memory) => return stop(&Fault::Memory, diagnostics),
        Err(Unasked::Misuse(misuse)) => {
            let _ = write_all(diagnostics, misuse.text().as_bytes());
            return 5;
        }
        Err(Unasked::Words) => return answer_words(alloc, words, paths, out, diagnostics),
    };
    run_request(
        alloc,
        keys,
        &request,
        registry,
        paths,
        input,
        out,
        diagnostics,
    )
}
