//! The check of definitions without a term.
ghost use Rattle.std.specs.Prelude.{◌≡◌, ◌+◌, ◌≤◌, length, if◌then◌else◌, false, IfOk, IfErr, IfSome};
ghost use Rattle.str_pipeline.specs.Joined.{OfJoinedDefinitionsAfter};
ghost use Rattle.str_pipeline.specs.Limits.{max_definitions};
ghost use Rattle.str_pipeline.specs.Setting.{setting_of};
ghost use Rattle.str_pipeline.specs.Verdict.{IsVerdict};
ghost use Rattle.str_pipeline.specs.Faults.{IsReadingFault, is_read_fault};

use crate::answer::MAX_DEFINITIONS;
use crate::compiled::{CompiledFile, compile_to_run};
use crate::fault_remarks::add_faults;
use crate::joined::read_definitions;
use crate::pipeline::has_no_line;
use crate::progress::library_bytes;
use crate::rerun::Rerun;
use crate::source::{Source, read_all};
use crate::status::Options;
use diagnostics::{
    Definitions, Explanation, RefusedDefinitions, RunNotes, add_variable_warnings, add_warnings,
    whole_file,
};
use keyed_hash::HashKeys;
use prim_registry::{PrimMeaning, Registry};
use scope_check::{find_faults, judge};
use std::alloc::Global;
use term_model::Fault;

/// Reads definitions and judges them as `transform` does: returns nothing if nothing is wrong in them, and else the fault with which they
/// are refused. The definition that is applied is the one whose name the options give; they matter for nothing else. At most 1,048,577
/// reads are made.
///
/// What a person wants to know is noted, and what was noted before is dropped: of a refusal what `transform_with_notes` notes; and as an
/// explanation, for which refused definitions are judged once more, the places at which the checks refuse the file, each with a hint if there
/// is one, and warnings, the first hundred of each and how many there are. Definitions that are too long, or no file, have no explanation,
/// and if memory for it is refused there is none.
///
/// # Errors
/// `Read` if a read failed, and `Memory` if a growth was refused.
pub fn check_definitions<D: Source, M: PrimMeaning>(
    alloc: Global,
    keys: HashKeys,
    definitions: &mut D,
    options: &Options,
    registry: &Registry<M>,
    notes: &mut RunNotes,
) -> Result<Option<Fault>, Fault>
    ensures judged { IfOk result (λ verdict. IfSome (D.reader.coming definitions.old) (λ d.
        IsVerdict (setting_of M.answer registry.now options.now) d verdict)) }
    ensures kinds { IfErr result IsReadingFault }
    ensures failed { D.reader.failed_reads definitions.new
        ≡ D.reader.failed_reads definitions.old + (if is_read_fault result then 1 else 0) }
    ensures bounded { D.reader.reads definitions.new ≤ D.reader.reads definitions.old +
        max_definitions + 1 }
{
    notes.begin();
    let Some(text) = read_all(alloc, definitions, MAX_DEFINITIONS)? else {
        notes.note_long_definitions();
        return Ok(Some(Fault::DefsTooLong));
    };
    notes.note_library(library_bytes(definitions.files()));
    verdict_on(alloc, keys, &text, options, registry, notes)
}

/// Does the same with the definitions of the joined form after the text of libraries: the bytes of the libraries and then those of the
/// input before its first line that is `#term`, or all of them where no such line comes. What comes after that line is not judged. At
/// most 1,048,577 reads of the libraries and 1,048,583 of the input are made.
///
/// # Errors
/// As of `check_definitions`.
pub fn check_joined<L: Source, S: Source, M: PrimMeaning>(
    alloc: Global,
    keys: HashKeys,
    libraries: &mut L,
    input: &mut S,
    options: &Options,
    registry: &Registry<M>,
    notes: &mut RunNotes,
) -> Result<Option<Fault>, Fault>
    ensures judged { IfOk result (λ verdict. OfJoinedDefinitionsAfter
        (L.reader.coming libraries.old) (S.reader.coming input.old)
        (λ d. IsVerdict (setting_of M.answer registry.now options.now) d verdict)) }
    ensures kinds { IfErr result IsReadingFault }
    ensures failed { L.reader.failed_reads libraries.new + S.reader.failed_reads input.new
        ≡ L.reader.failed_reads libraries.old + S.reader.failed_reads input.old +
        (if is_read_fault result then 1 else 0) }
    ensures libraries_bounded { L.reader.reads libraries.new ≤ L.reader.reads libraries.old +
        max_definitions + 1 }
    ensures bounded { S.reader.reads input.new ≤ S.reader.reads input.old + max_definitions + 7 }
{
    notes.begin();
    let Some(found) = read_definitions(alloc, libraries, input)? else {
        notes.note_long_definitions();
        return Ok(Some(Fault::DefsTooLong));
    };
    notes.note_library(found.library);
    verdict_on(alloc, keys, &found.text, options, registry, notes)
}

/// Judges these definitions. The fault is `Memory`.
#[tactic(auto, using(crate::proofs::FaultLaws::program_refused, crate::proofs::FaultLaws::program_stops, crate::proofs::FaultLaws::is_reading, crate::proofs::FaultLaws::program_no_read))]
fn verdict_on<M: PrimMeaning>(
    alloc: Global,
    keys: HashKeys,
    text: &[u8],
    options: &Options,
    registry: &Registry<M>,
    notes: &mut RunNotes,
) -> Result<Option<Fault>, Fault>
    requires { length text.now ≤ max_definitions }
    ensures judged { IfOk result (IsVerdict
        (setting_of M.answer registry.now options.now) text.now) }
    ensures kinds { IfErr result IsReadingFault }
    ensures read { is_read_fault result ≡ false }
{
    match compile_to_run(alloc, keys, text, options, registry, notes) {
        Ok(compiled) => {
            note_warnings(alloc, text, &compiled, notes);
            Ok(None)
        }
        Err(fault) => {
            if has_no_line(&fault) {
                return Err(fault);
            }
            note_findings(alloc, keys, text, options, registry, notes);
            Ok(Some(fault))
        }
    }
}

/// Notes warnings about the definitions of this file, if memory for them is there.
fn note_warnings(alloc: Global, text: &[u8], compiled: &CompiledFile, notes: &mut RunNotes) {
    let definitions = Definitions::of_checked(text, notes.library(), &compiled.checked);
    let mut remarks = Vec::new(alloc);
    if add_warnings(alloc, &definitions, &mut remarks).is_ok() {
        notes.note_explanation(Explanation::new(remarks));
    }
}

/// Notes what the checks find in definitions, and warnings, if these are a file and memory for it is there.
fn note_findings<M: PrimMeaning>(
    alloc: Global,
    keys: HashKeys,
    text: &[u8],
    options: &Options,
    registry: &Registry<M>,
    notes: &mut RunNotes,
) {
    if let Ok(explanation) = findings_in(alloc, keys, text, notes.library(), options, registry) {
        notes.note_explanation(explanation);
    }
}

/// What the checks find in definitions, of which the first bytes are a library, and warnings. The fault is `Memory`, or that of a text that
/// is no file.
pub(crate) fn findings_in<M: PrimMeaning>(
    alloc: Global,
    keys: HashKeys,
    text: &[u8],
    library: usize,
    options: &Options,
    registry: &Registry<M>,
) -> Result<Explanation, Fault> {
    let file = whole_file(alloc, text)?;
    let primitives = registry.names(alloc)?;
    let faults = find_faults(alloc, keys, &file, &primitives, &options.main)?;
    if !faults.is_sound() && faults.notes().is_empty() {
        return Err(Fault::Memory);
    }
    let mut remarks = Vec::new(alloc);
    let refused = RefusedDefinitions {
        text,
        library,
        file: &file,
    };
    add_faults(alloc, &refused, &faults, &primitives, &mut remarks)?;
    let definitions = Definitions {
        text,
        library,
        file: &file,
        signature: faults.signature(),
        main: &options.main,
        is_sound: faults.is_sound(),
    };
    add_warnings(alloc, &definitions, &mut remarks)?;
    Ok(Explanation::new(remarks))
}

/// Returns the warnings about variables in the definitions of a run, in which nothing is wrong. The fault is `Memory`.
pub(crate) fn variable_warnings_in<M: PrimMeaning>(
    alloc: Global,
    rerun: Rerun<'_>,
    options: &Options,
    registry: &Registry<M>,
) -> Result<Explanation, Fault> {
    let text = rerun.definitions;
    let file = whole_file(alloc, text)?;
    let primitives = registry.names(alloc)?;
    let Ok(checked) = judge(alloc, rerun.keys, file, &primitives, &options.main) else {
        return Err(Fault::Memory);
    };
    let definitions = Definitions::of_checked(text, rerun.library, &checked);
    let mut remarks = Vec::new(alloc);
    add_variable_warnings(alloc, &definitions, &mut remarks)?;
    Ok(Explanation::new(remarks))
}
