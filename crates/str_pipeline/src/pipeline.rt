//! From the bytes of definitions and of a term to the bytes of the answer.
ghost use Rattle.std.specs.Prelude.{◌≡◌, ◌↔◌, ◌+◌, ◌≤◌, ℕ, List, length, vec_len, Result, Err, IsTrue, if◌then◌else◌, IfOk, IfErr, IfSome, IsErrOf, IsErrAnd};
ghost use Rattle.term_model.specs.declared.fault.Fault.{Fault};
ghost use Rattle.term_model.specs.Fault.{number_of};
ghost use Rattle.prim_registry.specs.Entries.{IsHonest};
ghost use Rattle.str_pipeline.specs.Joined.{OfJoined, OfJoinedAfter, OfJoinedDefinitions, OfJoinedDefinitionsAfter, ReadsJoined, ReadsJoinedAfter};
ghost use Rattle.str_pipeline.specs.Search.{term_of};
ghost use Rattle.str_pipeline.specs.Transfer.{IsDry};
ghost use Rattle.str_pipeline.specs.Limits.{max_definitions, max_term};
ghost use Rattle.term_model.specs.Limits.{max_budget};
ghost use Rattle.str_pipeline.specs.Setting.{Setting, setting_of};
ghost use Rattle.str_pipeline.specs.Judged.{AreRefused};
ghost use Rattle.str_pipeline.specs.Written.{HasWritten, HasBegun};
ghost use Rattle.str_pipeline.specs.Steps.{DecidesResult, IsStop, IsResult, IsTextResult};
ghost use Rattle.str_pipeline.specs.Transformation.{Ends, OfTwo, ReadsTwo, Transforms};
ghost use Rattle.str_pipeline.specs.Faults.{HoldsRefusal, IsRefusal, IsTransferFault, IsOfDefinitions, RefusesDefinitions, is_read, is_read_fault, is_write_fault};

use crate::answer::{MAX_DEFINITIONS, MAX_TERM, write_outcome, write_refusal};
use crate::compiled::compile_to_run;
use crate::empty_text::EmptyText;
use crate::explaining::explain_run;
use crate::joined::{JoinedDefinitions, read_definitions};
use crate::program::outcome_of;
use crate::progress::library_bytes;
use crate::sink::Sink;
use crate::source::{Source, read_all};
use crate::status::{Options, Status};
use core_lang::Outcome;
use diagnostics::RunNotes;
use keyed_hash::HashKeys;
use prim_registry::{PrimMeaning, Registry};
use std::alloc::Global;
use term_model::Fault;

/// Returns what the definitions do with the term, which is read into a store of its own, in which equal terms are one, and rewritten
/// there. The outcome has the text of the result. The fault is the first refusal, or `Memory` or `Read`.
#[tactic(auto, using(crate::proofs::FaultLaws::reading_stops, crate::proofs::FaultLaws::reading_apart, crate::proofs::FaultLaws::program_stops, crate::proofs::FaultLaws::program_no_read, crate::proofs::FaultLaws::long_definitions_stop, crate::proofs::FaultLaws::long_term_stops, crate::proofs::FaultLaws::long_term_apart))]
fn outcome_apart<D: Source, T: Source, M: PrimMeaning>(
    alloc: Global,
    keys: HashKeys,
    defs: &mut D,
    term: &mut T,
    options: &Options,
    registry: &Registry<M>,
    notes: &mut RunNotes,
) -> Result<Outcome<Vec<u8>>, Fault>
    requires budget { options.now.budget ≤ max_budget }
    requires honest { IsHonest M.answer registry.now }
    ensures result { IfSome (D.reader.coming defs.old)
        (λ d. IfSome (T.reader.coming term.old) (λ t.
        IsTextResult d t (setting_of M.answer registry.now options.now) result)) }
    ensures refused { IfSome (D.reader.coming defs.old) (λ d.
        DecidesResult (setting_of M.answer registry.now options.now) d result) }
    ensures kinds { IfErr result IsStop }
    ensures failed { D.reader.failed_reads defs.new + T.reader.failed_reads term.new
        ≡ D.reader.failed_reads defs.old + T.reader.failed_reads term.old +
        (if is_read_fault result then 1 else 0) }
    ensures unread { IfErr result (λ fault. IsOfDefinitions fault → term.new ≡ term.old) }
    ensures unread_told { IfSome (D.reader.coming defs.old) (λ d. (fault : Fault) →
        AreRefused (setting_of M.answer registry.now options.now) d fault → term.new ≡ term.old) }
    ensures defs_bounded { D.reader.reads defs.new ≤ D.reader.reads defs.old + max_definitions + 1 }
    ensures term_bounded { T.reader.reads term.new ≤ T.reader.reads term.old + max_term + 1 }
{
    let Some(text) = read_all(alloc, defs, MAX_DEFINITIONS)? else {
        return Err(Fault::DefsTooLong);
    };
    notes.note_library(library_bytes(defs.files()));
    let program = compile_to_run(alloc, keys, &text, options, registry, notes)?;
    notes.keep_definitions(text);
    let Some(text) = read_all(alloc, term, MAX_TERM)? else {
        return Err(Fault::TermTooLong);
    };
    outcome_of(alloc, keys, program, text, options, registry, notes)
}

/// Does the same over one reader of the joined form, after the text of libraries from another one.
#[tactic(auto, using(crate::proofs::FaultLaws::reading_stops, crate::proofs::FaultLaws::reading_apart, crate::proofs::FaultLaws::long_definitions_stop))]
fn outcome_joined<L: Source, S: Source, M: PrimMeaning>(
    alloc: Global,
    keys: HashKeys,
    libraries: &mut L,
    input: &mut S,
    options: &Options,
    registry: &Registry<M>,
    notes: &mut RunNotes,
) -> Result<Outcome<Vec<u8>>, Fault>
    requires budget { options.now.budget ≤ max_budget }
    requires honest { IsHonest M.answer registry.now }
    ensures result { OfJoinedAfter (L.reader.coming libraries.old) (S.reader.coming input.old)
        (λ d t. IsTextResult d t (setting_of M.answer registry.now options.now) result) }
    ensures kinds { IfErr result IsStop }
    ensures failed { L.reader.failed_reads libraries.new + S.reader.failed_reads input.new
        ≡ L.reader.failed_reads libraries.old + S.reader.failed_reads input.old +
        (if is_read_fault result then 1 else 0) }
    ensures libraries_bounded { L.reader.reads libraries.new ≤ L.reader.reads libraries.old +
        max_definitions + 1 }
    ensures bounded { S.reader.reads input.new ≤ S.reader.reads input.old + max_definitions + 7 +
        max_term + 1 }
    ensures defs_bounded { IfErr result (λ fault. IsOfDefinitions fault →
        S.reader.reads input.new ≤ S.reader.reads input.old + max_definitions + 7) }
    ensures unread_told { OfJoinedDefinitionsAfter (L.reader.coming libraries.old)
        (S.reader.coming input.old) (λ d. (fault : Fault) →
        AreRefused (setting_of M.answer registry.now options.now) d fault →
        S.reader.reads input.new ≤ S.reader.reads input.old + max_definitions + 7) }
    ensures judged_first { OfJoinedDefinitionsAfter (L.reader.coming libraries.old)
        (S.reader.coming input.old) (λ d. (fault : Fault) →
        AreRefused (setting_of M.answer registry.now options.now) d fault →
        S.reader.reads input.new ≤ S.reader.reads input.old + length d + 8) }
{
    let Some(found) = read_definitions(alloc, libraries, input)? else {
        return Err(Fault::DefsTooLong);
    };
    outcome_after(alloc, keys, found, input, options, registry, notes)
}

/// Returns what the definitions that were found do with the term after them.
#[tactic(auto, using(crate::proofs::FaultLaws::reading_stops, crate::proofs::FaultLaws::reading_apart, crate::proofs::FaultLaws::program_stops, crate::proofs::FaultLaws::program_no_read, crate::proofs::FaultLaws::long_term_stops, crate::proofs::FaultLaws::long_term_apart))]
fn outcome_after<S: Source, M: PrimMeaning>(
    alloc: Global,
    keys: HashKeys,
    found: JoinedDefinitions,
    input: &mut S,
    options: &Options,
    registry: &Registry<M>,
    notes: &mut RunNotes,
) -> Result<Outcome<Vec<u8>>, Fault>
    requires budget { options.now.budget ≤ max_budget }
    requires honest { IsHonest M.answer registry.now }
    requires fits { vec_len found.text ≤ max_definitions }
    requires ended { IsTrue found.front.is_ended → IsDry (S.reader.coming input.old) }
    ensures result { IfSome (S.reader.coming input.old)
        (λ left. IsTextResult found.text.items (term_of found.front left)
        (setting_of M.answer registry.now options.now) result) }
    ensures kinds { IfErr result IsStop }
    ensures failed { S.reader.failed_reads input.new ≡ S.reader.failed_reads input.old +
        (if is_read_fault result then 1 else 0) }
    ensures unread { IfErr result (λ fault. IsOfDefinitions fault → input.new ≡ input.old) }
    ensures unread_told { (fault : Fault) →
        AreRefused (setting_of M.answer registry.now options.now) found.text.items fault →
        input.new ≡ input.old }
    ensures bounded { S.reader.reads input.new ≤ S.reader.reads input.old + max_term + 1 }
{
    let JoinedDefinitions {
        text,
        library,
        front,
    } = found;
    notes.note_library(library);
    let program = compile_to_run(alloc, keys, &text, options, registry, notes)?;
    front.note_end(notes);
    let Some(term) = front.read_term(alloc, input, MAX_TERM)? else {
        return Err(Fault::TermTooLong);
    };
    notes.keep_definitions(text);
    outcome_of(alloc, keys, program, term, options, registry, notes)
}

/// Writes the line of the outcome, or of the refusal that came in place of it, and returns its
/// status. A fault of reading or of memory is returned as it is.
#[tactic(auto, using(crate::proofs::WrittenLaws::outcome_has_written, crate::proofs::WrittenLaws::outcome_has_begun))]
pub(crate) fn finish<W: Sink>(
    alloc: Global,
    outcome: Result<Outcome<Vec<u8>>, Fault>,
    out: &mut W,
) -> Result<Status, Fault>
    requires { IfErr outcome IsStop }
    ensures written { IfOk result (λ status. (d t : List ℕ) (S : Setting) →
        IsTextResult d t S outcome → HasWritten d t S status (W.writer.written out.old)
        (W.writer.written out.new)) }
    ensures begun { IsErrOf result Fault.Write → (d t : List ℕ) (S : Setting) →
        IsTextResult d t S outcome → HasBegun d t S (W.writer.written out.old)
        (W.writer.written out.new) }
    ensures status { IfOk result HoldsRefusal }
    ensures definitions { IfOk result (λ status. RefusesDefinitions status →
        IsErrAnd outcome IsOfDefinitions) }
    ensures read { is_read_fault result ≡ is_read_fault outcome }
    ensures untouched_memory { IsErrOf result Fault.Memory → out.new ≡ out.old }
    ensures untouched_read { IsErrOf result Fault.Read → out.new ≡ out.old }
    ensures failed { W.writer.failed_writes out.new ≡ W.writer.failed_writes out.old +
        (if is_write_fault result then 1 else 0) }
    ensures kinds { IfErr result IsTransferFault }
{
    match outcome {
        Ok(outcome) => write_outcome(alloc, outcome, out),
        Err(fault) => write_fault(alloc, fault, out),
    }
}

/// Returns whether no line is written about the fault: one of memory or of reading.
pub(crate) fn has_no_line(fault: &Fault) -> bool
    ensures { IsTrue result ↔ number_of fault.now ≤ 2 }
{
    matches!(fault, Fault::Memory | Fault::Read)
}

/// Writes the line of a refusal. A fault of reading or of memory is returned as it is.
#[tactic(auto, using(crate::proofs::WrittenLaws::refusal_has_begun, crate::proofs::WrittenLaws::refusal_written, crate::proofs::WrittenLaws::refusal_status, crate::proofs::WrittenLaws::writes_not_read, crate::proofs::FaultLaws::is_refusal, crate::proofs::FaultLaws::is_reading, crate::proofs::FaultLaws::is_no_read))]
fn write_fault<W: Sink>(alloc: Global, fault: Fault, out: &mut W) -> Result<Status, Fault>
    requires { IsStop fault }
    ensures written { IfOk result (λ status. (d t : List ℕ) (S : Setting) →
        IsResult d t S (Err fault) →
        HasWritten d t S status (W.writer.written out.old) (W.writer.written out.new)) }
    ensures begun { IsErrOf result Fault.Write → (d t : List ℕ) (S : Setting) →
        IsResult d t S (Err fault) → HasBegun d t S (W.writer.written out.old)
        (W.writer.written out.new) }
    ensures status { IfOk result (λ status. (status ≡ Status.Refused fault) × IsRefusal fault) }
    ensures read { is_read_fault result ≡ is_read fault }
    ensures untouched_memory { IsErrOf result Fault.Memory → out.new ≡ out.old }
    ensures untouched_read { IsErrOf result Fault.Read → out.new ≡ out.old }
    ensures failed { W.writer.failed_writes out.new ≡ W.writer.failed_writes out.old +
        (if is_write_fault result then 1 else 0) }
    ensures kinds { IfErr result IsTransferFault }
{
    if has_no_line(&fault) {
        return Err(fault);
    }
    write_refusal(alloc, fault, out)
}

/// Reads definitions and then the text of a term, lets the definitions rewrite the term, and writes
/// one line with its line feed: the canonical text of the result, `#failed`, `#oversize`, `#spent`,
/// or `#refused ` and the word of the first fault. The definition that is applied is the one whose
/// name the options give. The library's definitions come after those of the file: `try`, `repeat`,
/// `topdown`, `bottomup`, `oncetd`, `oncebu`, `alltd`, `innermost`, `map`. The primitives that can be
/// called are those of the registry. The definitions are read and judged first; where they are refused
/// the term is not read. In strict mode a term with an application that the definitions do not declare
/// is refused. Nothing is written before the whole line is made. At most 1,048,577 reads of definitions
/// and 16,777,217 of the term are made. The tables of terms hash with the keys; what is written does not
/// depend on them.
///
/// # Errors
/// `Read` where a read failed, and `Memory` where a growth was refused, here or in a primitive: nothing
/// was written. `Write` where a write failed or took no byte: a beginning of the line was written.
pub fn transform<D: Source, T: Source, M: PrimMeaning, W: Sink>(
    alloc: Global,
    keys: HashKeys,
    defs: &mut D,
    term: &mut T,
    options: &Options,
    registry: &Registry<M>,
    out: &mut W,
) -> Result<Status, Fault>
    requires budget { options.now.budget ≤ max_budget }
    requires honest { IsHonest M.answer registry.now }
    ensures transforms { Transforms W.writer (setting_of M.answer registry.now options.now)
        (OfTwo (D.reader.coming defs.old) (T.reader.coming term.old))
        (IfSome (D.reader.coming defs.old)) out.old out.new result }
    ensures ends { Ends W.writer out.old out.new result }
    ensures reads { ReadsTwo D.reader T.reader (setting_of M.answer registry.now options.now)
        defs.old defs.new term.old term.new result }
{
    let mut notes = RunNotes::none();
    transform_with_notes(alloc, keys, defs, term, options, registry, &mut notes, out)
}

/// Does as `transform` does, and notes what a person wants to know where the definitions or the term are refused: which text is, at
/// which place, and what is wrong there; and else what the run used. What was noted before is dropped. If the notes ask for an
/// explanation and neither text is refused, it is noted, with warnings, after the line is written; for it the program may run a few
/// times more. The clauses are those of `transform`, whatever is noted.
///
/// # Errors
/// As of `transform`.
pub fn transform_with_notes<D: Source, T: Source, M: PrimMeaning, W: Sink>(
    alloc: Global,
    keys: HashKeys,
    defs: &mut D,
    term: &mut T,
    options: &Options,
    registry: &Registry<M>,
    notes: &mut RunNotes,
    out: &mut W,
) -> Result<Status, Fault>
    requires budget { options.now.budget ≤ max_budget }
    requires honest { IsHonest M.answer registry.now }
    ensures transforms { Transforms W.writer (setting_of M.answer registry.now options.now)
        (OfTwo (D.reader.coming defs.old) (T.reader.coming term.old))
        (IfSome (D.reader.coming defs.old)) out.old out.new result }
    ensures ends { Ends W.writer out.old out.new result }
    ensures reads { ReadsTwo D.reader T.reader (setting_of M.answer registry.now options.now)
        defs.old defs.new term.old term.new result }
{
    notes.begin();
    let outcome = outcome_apart(alloc, keys, defs, term, options, registry, notes);
    notes.note_outcome(&outcome);
    let status = finish(alloc, outcome, out);
    explain_run(alloc, keys, &status, options, registry, notes);
    status
}

/// Does the same over one reader of the joined form: the definitions are the bytes before the first line
/// that is `#term`, ended by a line feed, by CR and line feed or by the end of the input, and the
/// text of the term is what comes after it; where no such line comes, all is definitions and that
/// text is empty. At most 1,048,583 reads are made for the definitions and the line, and 16,777,217 for
/// the term. The definitions are judged as soon as the line has been read: where they are refused, at most as
/// many reads are made as they have bytes, and eight, however the call ends.
///
/// # Errors
/// As of `transform`.
pub fn transform_joined<S: Source, M: PrimMeaning, W: Sink>(
    alloc: Global,
    keys: HashKeys,
    input: &mut S,
    options: &Options,
    registry: &Registry<M>,
    out: &mut W,
) -> Result<Status, Fault>
    requires budget { options.now.budget ≤ max_budget }
    requires honest { IsHonest M.answer registry.now }
    ensures transforms { Transforms W.writer (setting_of M.answer registry.now options.now)
        (OfJoined (S.reader.coming input.old)) (OfJoinedDefinitions (S.reader.coming input.old))
        out.old out.new result }
    ensures ends { Ends W.writer out.old out.new result }
    ensures reads { ReadsJoined S.reader (setting_of M.answer registry.now options.now)
        input.old input.new result }
{
    let mut libraries = EmptyText::new();
    let mut notes = RunNotes::none();
    transform_joined_with_notes(
        alloc,
        keys,
        &mut libraries,
        input,
        options,
        registry,
        &mut notes,
        out,
    )
}

/// Does as `transform_joined` does, after the text of libraries: the definitions are the bytes of the libraries and then those of the input
/// before the line, which is looked for in the input alone. At most 1,048,577 reads of the libraries are made; if they have too many bytes
/// the input is not read. Notes what a person wants to know where the definitions or the term are refused, and else what the run used. What
/// was noted before is dropped. If the notes ask for an explanation and neither text is refused, it is noted, with warnings, after the line
/// is written; for it the program may run a few times more. With a text of libraries that has no bytes the clauses are those of
/// `transform_joined`, whatever is noted.
///
/// # Errors
/// As of `transform`.
pub fn transform_joined_with_notes<L: Source, S: Source, M: PrimMeaning, W: Sink>(
    alloc: Global,
    keys: HashKeys,
    libraries: &mut L,
    input: &mut S,
    options: &Options,
    registry: &Registry<M>,
    notes: &mut RunNotes,
    out: &mut W,
) -> Result<Status, Fault>
    requires budget { options.now.budget ≤ max_budget }
    requires honest { IsHonest M.answer registry.now }
    ensures transforms { Transforms W.writer (setting_of M.answer registry.now options.now)
        (OfJoinedAfter (L.reader.coming libraries.old) (S.reader.coming input.old))
        (OfJoinedDefinitionsAfter (L.reader.coming libraries.old) (S.reader.coming input.old))
        out.old out.new result }
    ensures ends { Ends W.writer out.old out.new result }
    ensures reads { ReadsJoinedAfter L.reader S.reader
        (setting_of M.answer registry.now options.now)
        libraries.old libraries.new input.old input.new result }
{
    notes.begin();
    let outcome = outcome_joined(alloc, keys, libraries, input, options, registry, notes);
    notes.note_outcome(&outcome);
    let status = finish(alloc, outcome, out);
    explain_run(alloc, keys, &status, options, registry, notes);
    status
}
