//! The work of the program over an input in the joined form.
ghost use Rattle.std.specs.Prelude.{◌≡◌, ◌+◌, ◌<◌, ◌≤◌, []};
ghost use Rattle.term_model.specs.Limits.{max_budget};
ghost use Rattle.prim_registry.specs.Entries.{IsHonest};
ghost use Rattle.str_pipeline.specs.Joined.{OfJoined};
ghost use Rattle.str_pipeline.specs.Limits.{max_definitions, max_term};
ghost use Rattle.str_pipeline.specs.Setting.{setting_of};
ghost use Rattle.strc_command.specs.Elements.{texts_in};
ghost use Rattle.strc_command.specs.Files.{OfJoinedFiles};
ghost use Rattle.strc_command.specs.Runs.{IsAnswered, Runs, Stops, change, reads_of};

use crate::open_streams::run_joined;
use crate::opening::{find_libraries, open_in_front};
use crate::paths::Paths;
use crate::report::{INPUT, Reporting};
use crate::request::Request;
use keyed_hash::HashKeys;
use prim_registry::{PrimMeaning, Registry};
use std::alloc::Global;
use str_pipeline::{EmptyText, Options, Sink, Source};

/// Does the work over both texts of `input`, with no library in front of them.
#[tactic(auto, using(crate::proofs::CauseLaws::of_transfer))]
fn run_alone<I: Source, W: Sink, E: Sink, M: PrimMeaning>(
    alloc: Global,
    keys: HashKeys,
    request: &Request<'_>,
    input: &mut I,
    options: &Options,
    registry: &Registry<M>,
    out: &mut W,
    diagnostics: &mut E,
) -> u8
    requires budget { options.now.budget ≤ max_budget }
    requires honest { IsHonest M.answer registry.now }
    ensures status { result ≤ 4 }
    ensures runs { Runs (OfJoined (I.reader.coming input.old))
        (reads_of I.reader input.old input.new) request.now.output
        (setting_of M.answer registry.now options.now) (change W.writer out.old out.new)
        (change E.writer diagnostics.old diagnostics.new) result }
    ensures stops { Stops (change W.writer out.old out.new)
        (change E.writer diagnostics.old diagnostics.new) result }
    ensures bounded { I.reader.reads input.new ≤ I.reader.reads input.old + max_definitions + 7 +
        max_term + 1 }
{
    let reporting = Reporting::new(request, &[], INPUT, INPUT);
    run_joined(
        alloc,
        keys,
        &mut EmptyText::new(),
        input,
        reporting,
        options,
        registry,
        out,
        diagnostics,
    )
}

/// Does the work over both texts of `input`, with the files of the libraries that the request names in front of its definitions.
#[tactic(auto, using(crate::proofs::CauseLaws::of_transfer, crate::proofs::CauseLaws::of_reading, crate::proofs::CauseLaws::fault_told))]
fn run_after_libraries<P: Paths, I: Source, W: Sink, E: Sink, M: PrimMeaning>(
    alloc: Global,
    keys: HashKeys,
    request: &Request<'_>,
    paths: &mut P,
    input: &mut I,
    options: &Options,
    registry: &Registry<M>,
    out: &mut W,
    diagnostics: &mut E,
) -> u8
    requires budget { options.now.budget ≤ max_budget }
    requires honest { IsHonest M.answer registry.now }
    ensures status { result ≤ 4 }
    ensures ended { result < 4 → IsAnswered
        (OfJoinedFiles (P.text_at paths.old) (I.reader.coming input.old)
        (texts_in request.now.libraries.items))
        request.now.output
        (setting_of M.answer registry.now options.now) (change W.writer out.old out.new)
        (change E.writer diagnostics.old diagnostics.new) result }
    ensures stops { Stops (change W.writer out.old out.new)
        (change E.writer diagnostics.old diagnostics.new) result }
    ensures bounded { I.reader.reads input.new ≤ I.reader.reads input.old + max_definitions + 7 +
        max_term + 1 }
{
    let libraries = match find_libraries(alloc, paths, &request.libraries, diagnostics) {
        Ok(libraries) => libraries,
        Err(status) => return status,
    };
    let mut files = match open_in_front(alloc, paths, &libraries, diagnostics) {
        Ok(files) => files,
        Err(status) => return status,
    };
    let reporting = Reporting::new(request, &libraries, INPUT, INPUT);
    run_joined(
        alloc,
        keys,
        &mut files,
        input,
        reporting,
        options,
        registry,
        out,
        diagnostics,
    )
}

/// Does the work over both texts of `input`. If the request names libraries, their files are opened before anything is read, and read in front
/// of the definitions.
pub(crate) fn run_input<P: Paths, I: Source, W: Sink, E: Sink, M: PrimMeaning>(
    alloc: Global,
    keys: HashKeys,
    request: &Request<'_>,
    paths: &mut P,
    input: &mut I,
    options: &Options,
    registry: &Registry<M>,
    out: &mut W,
    diagnostics: &mut E,
) -> u8
    requires budget { options.now.budget ≤ max_budget }
    requires honest { IsHonest M.answer registry.now }
    ensures status { result ≤ 4 }
    ensures alone { texts_in request.now.libraries.items ≡ [] →
        Runs (OfJoined (I.reader.coming input.old))
        (reads_of I.reader input.old input.new) request.now.output
        (setting_of M.answer registry.now options.now) (change W.writer out.old out.new)
        (change E.writer diagnostics.old diagnostics.new) result }
    ensures ended { result < 4 → IsAnswered
        (OfJoinedFiles (P.text_at paths.old) (I.reader.coming input.old)
        (texts_in request.now.libraries.items))
        request.now.output
        (setting_of M.answer registry.now options.now) (change W.writer out.old out.new)
        (change E.writer diagnostics.old diagnostics.new) result }
    ensures stops { Stops (change W.writer out.old out.new)
        (change E.writer diagnostics.old diagnostics.new) result }
    ensures bounded { I.reader.reads input.new ≤ I.reader.reads input.old + max_definitions + 7 +
        max_term + 1 }
{
    if request.libraries.is_empty() {
        return run_alone(
            alloc,
            keys,
            request,
            input,
            options,
            registry,
            out,
            diagnostics,
        );
    }
    run_after_libraries(
        alloc,
        keys,
        request,
        paths,
        input,
        options,
        registry,
        out,
        diagnostics,
    )
}
