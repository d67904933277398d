//! Transformations whose line is written in a form.
ghost use Rattle.std.specs.Prelude.{◌≡◌, ◌+◌, ◌≤◌, ◌⊎◌, if◌then◌else◌, IfErr, IfOk, IsErrOf};
ghost use Rattle.term_model.specs.Limits.{max_budget};
ghost use Rattle.prim_registry.specs.Entries.{IsHonest};
ghost use Rattle.str_pipeline.specs.Faults.{is_read_fault, is_write_fault};
ghost use Rattle.str_pipeline.specs.Joined.{OfJoinedAfter};
ghost use Rattle.str_pipeline.specs.Transformation.{Ends, OfTwo};
ghost use Rattle.str_pipeline.specs.Limits.{max_definitions, max_term};
ghost use Rattle.str_pipeline.specs.Setting.{setting_of};
ghost use Rattle.strc_command.specs.Forms.{IsInForm, GainsForm, BeginsForm, HasWrittenIn, HasBegunIn};

use crate::pretty::lay_out;
use crate::raw::without_quotes;
use crate::request::Form;
use keyed_hash::HashKeys;
use prim_registry::{PrimMeaning, Registry};
use std::alloc::{AllocError, Global};
use str_pipeline::{
    Counted, Options, RunNotes, Sink, Source, Status, transform_joined_with_notes,
    transform_with_notes, write_all,
};
use term_model::Fault;

/// Returns the line of a transformation that ended so, in this form. An error is a refused growth.
fn text_in_form(
    alloc: Global,
    form: Form,
    status: &Status,
    line: Vec<u8>,
) -> Result<Vec<u8>, AllocError>
    ensures { IfOk result (λ text. IsInForm form status.now line.items text.items) }
{
    match (form, status) {
        (Form::Raw, _) => without_quotes(alloc, &line),
        (Form::Pretty, Status::Rewritten) => lay_out(alloc, &line),
        _ => Ok(line),
    }
}

/// Writes the line of a transformation that ended so, in this form, and returns how it ended. The fault is `Memory`, and then nothing is
/// written, or `Write`, and then a beginning of the text may be.
fn write_in_form<W: Sink>(
    alloc: Global,
    form: Form,
    status: Status,
    line: Vec<u8>,
    out: &mut W,
) -> Result<Status, Fault>
    ensures whole { IfOk result (λ ended. (ended ≡ status)
        × GainsForm form status line.items (W.writer.written out.old) (W.writer.written out.new)) }
    ensures begun { IsErrOf result Fault.Write →
        BeginsForm form status line.items (W.writer.written out.old) (W.writer.written out.new) }
    ensures kinds { IfErr result (λ fault. (fault ≡ Fault.Memory) ⊎ (fault ≡ Fault.Write)) }
    ensures untouched { IsErrOf result Fault.Memory → out.new ≡ out.old }
    ensures write_failed { W.writer.failed_writes out.new
        ≡ W.writer.failed_writes out.old + (if is_write_fault result then 1 else 0) }
{
    let text = text_in_form(alloc, form, &status, line)?;
    write_all(out, &text)?;
    Ok(status)
}

/// Does as `transform_with_notes` does, and writes the line in this form. A form other than the line itself takes memory for the line and for
/// its form, and nothing is written before both are whole.
///
/// # Errors
/// As of `transform_with_notes`. After `Write` a beginning of the line in its form may be written.
pub(crate) fn transform_in_form<D: Source, T: Source, W: Sink, M: PrimMeaning>(
    alloc: Global,
    keys: HashKeys,
    definitions: &mut D,
    term: &mut T,
    form: Form,
    options: &Options,
    registry: &Registry<M>,
    notes: &mut RunNotes,
    out: &mut W,
) -> Result<Status, Fault>
    requires budget { options.now.budget ≤ max_budget }
    requires honest { IsHonest M.answer registry.now }
    ensures written { IfOk result (λ status.
        OfTwo (D.reader.coming definitions.old) (T.reader.coming term.old) (λ d t.
        HasWrittenIn form d t (setting_of M.answer registry.now options.now) status
        (W.writer.written out.old) (W.writer.written out.new))) }
    ensures begun { IsErrOf result Fault.Write →
        OfTwo (D.reader.coming definitions.old) (T.reader.coming term.old) (λ d t.
        HasBegunIn form d t (setting_of M.answer registry.now options.now)
        (W.writer.written out.old) (W.writer.written out.new)) }
    ensures ends { Ends W.writer out.old out.new result }
    ensures read_failed { D.reader.failed_reads definitions.new + T.reader.failed_reads term.new
        ≡ D.reader.failed_reads definitions.old + T.reader.failed_reads term.old +
        (if is_read_fault result then 1 else 0) }
    ensures definitions_bounded { D.reader.reads definitions.new ≤ D.reader.reads definitions.old +
        max_definitions + 1 }
    ensures term_bounded { T.reader.reads term.new ≤ T.reader.reads term.old + max_term + 1 }
{
    if form == Form::Line {
        return transform_with_notes(
            alloc,
            keys,
            definitions,
            term,
            options,
            registry,
            notes,
            out,
        );
    }
    let mut line = Counted::new(Vec::new(alloc));
    match transform_with_notes(
        alloc,
        keys,
        definitions,
        term,
        options,
        registry,
        notes,
        &mut line,
    ) {
        Ok(status) => write_in_form(alloc, form, status, line.into_inner(), out),
        Err(Fault::Write) => Err(Fault::Memory),
        Err(fault) => Err(fault),
    }
}

/// Does the same for both texts from one reader, as `transform_joined_with_notes` does.
///
/// # Errors
/// As of `transform_in_form`.
pub(crate) fn transform_joined_in_form<L: Source, I: Source, W: Sink, M: PrimMeaning>(
    alloc: Global,
    keys: HashKeys,
    libraries: &mut L,
    input: &mut I,
    form: Form,
    options: &Options,
    registry: &Registry<M>,
    notes: &mut RunNotes,
    out: &mut W,
) -> Result<Status, Fault>
    requires budget { options.now.budget ≤ max_budget }
    requires honest { IsHonest M.answer registry.now }
    ensures written { IfOk result (λ status.
        OfJoinedAfter (L.reader.coming libraries.old) (I.reader.coming input.old) (λ d t.
        HasWrittenIn form d t (setting_of M.answer registry.now options.now) status
        (W.writer.written out.old) (W.writer.written out.new))) }
    ensures begun { IsErrOf result Fault.Write →
        OfJoinedAfter (L.reader.coming libraries.old) (I.reader.coming input.old) (λ d t.
        HasBegunIn form d t (setting_of M.answer registry.now options.now)
        (W.writer.written out.old) (W.writer.written out.new)) }
    ensures ends { Ends W.writer out.old out.new result }
    ensures read_failed { L.reader.failed_reads libraries.new + I.reader.failed_reads input.new
        ≡ L.reader.failed_reads libraries.old + I.reader.failed_reads input.old +
        (if is_read_fault result then 1 else 0) }
    ensures bounded { I.reader.reads input.new ≤ I.reader.reads input.old + max_definitions + 7 +
        max_term + 1 }
{
    if form == Form::Line {
        return transform_joined_with_notes(
            alloc, keys, libraries, input, options, registry, notes, out,
        );
    }
    let mut line = Counted::new(Vec::new(alloc));
    match transform_joined_with_notes(
        alloc, keys, libraries, input, options, registry, notes, &mut line,
    ) {
        Ok(status) => write_in_form(alloc, form, status, line.into_inner(), out),
        Err(Fault::Write) => Err(Fault::Memory),
        Err(fault) => Err(fault),
    }
}
