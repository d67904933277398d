//! Terms that are read, and the line of an outcome.
ghost use Rattle.std.specs.Prelude.{◌≡◌, ◌+◌, false, if◌then◌else◌, IfOk, IfErr, OnOk, IsErrOf, IsTrue};
ghost use Rattle.aterm_text.specs.ReadIn.{map_ok};
ghost use Rattle.str_pipeline.specs.Device.{Gains, GainsPrefix};
ghost use Rattle.str_pipeline.specs.Written.{line_of, refusal_line};
ghost use Rattle.str_pipeline.specs.Steps.{IsTermRead, status_of, text_line};
ghost use Rattle.str_pipeline.specs.Faults.{IsTransferFault, is_read_fault, is_write_fault};
ghost use Rattle.term_model.specs.Space.{Keeps};
ghost use Rattle.term_model.specs.Results.{Returns};

use crate::sink::{Sink, write_all};
use crate::status::Status;
use aterm_text::read_in;
use core_lang::Outcome;
use diagnostics::RunNotes;
use signature_core::Signature;
use std::alloc::{AllocError, Global};
use term_model::{Fault, TermSpace};

/// The most bytes of definitions.
pub const MAX_DEFINITIONS: usize = 1_048_576;

/// The most bytes of the text of a term.
pub const MAX_TERM: usize = 16_777_216;

/// The greatest budget of a run, in rules. With it the number of steps still has 64 bits.
pub const MAX_BUDGET: u64 = 1_000_000_000_000_000_000;

/// The budget of a run for which none is asked, in rules.
pub const DEFAULT_BUDGET: u64 = 1_000_000;

/// Reads a term into a space, and in strict mode asks that the signature declares each application in it.
fn read_term_in<S: TermSpace>(
    alloc: Global,
    space: &mut S,
    signature: &Signature,
    text: &[u8],
    is_strict: bool,
) -> Result<S::Ref, Fault>
    ensures keeps { Keeps S.space space.old space.new }
    ensures stands { IfOk result (λ r. IsTrue (S.space.stands space.new r)) }
    ensures read { IsTermRead is_strict signature.now text.now
        (map_ok (S.space.term_of space.new) result) }
{
    let term = read_in(space, alloc, text)?;
    if is_strict {
        signature.check_in(space, &term)?;
    }
    Ok(term)
}

/// Reads a term as `read_term_in` does, and notes why it is refused where it is.
pub(crate) fn noted_term<S: TermSpace>(
    alloc: Global,
    space: &mut S,
    signature: &Signature,
    text: &[u8],
    is_strict: bool,
    notes: &mut RunNotes,
) -> Result<S::Ref, Fault>
    ensures keeps { Keeps S.space space.old space.new }
    ensures stands { IfOk result (λ r. IsTrue (S.space.stands space.new r)) }
    ensures read { IsTermRead is_strict signature.now text.now
        (map_ok (S.space.term_of space.new) result) }
{
    let term = read_term_in(alloc, space, signature, text, is_strict);
    if let Err(fault) = &term {
        notes.note_term(text, fault);
        if let Fault::TermUndeclared = fault {
            notes.note_undeclared(alloc, text, signature);
        }
    }
    term
}

/// Returns the status of an outcome.
fn status_of(outcome: &Outcome<Vec<u8>>) -> Status
    ensures { result ≡ status_of outcome.now }
{
    match outcome {
        Outcome::Rewritten(_) => Status::Rewritten,
        Outcome::Failed => Status::Failed,
        Outcome::Oversize => Status::Oversize,
        Outcome::Spent => Status::Spent,
    }
}

/// Returns the line of an outcome, without the line feed that ends it. The text of a result is moved, and not copied.
fn outcome_text(alloc: Global, outcome: Outcome<Vec<u8>>) -> Result<Vec<u8>, AllocError>
    ensures { IfOk result (λ bytes. text_line outcome ≡ line_of bytes.items) }
{
    match outcome {
        Outcome::Rewritten(text) => Ok(text),
        Outcome::Failed => b"#failed".to_vec(alloc),
        Outcome::Oversize => b"#oversize".to_vec(alloc),
        Outcome::Spent => b"#spent".to_vec(alloc),
    }
}

/// Writes the line of an outcome.
pub(crate) fn write_outcome<W: Sink>(
    alloc: Global,
    outcome: Outcome<Vec<u8>>,
    out: &mut W,
) -> Result<Status, Fault>
    ensures status { Returns result (status_of outcome) }
    ensures whole { OnOk result
        (Gains (W.writer.written out.old) (W.writer.written out.new) (text_line outcome)) }
    ensures prefix { IsErrOf result Fault.Write →
        GainsPrefix (W.writer.written out.old) (W.writer.written out.new) (text_line outcome) }
    ensures untouched { IsErrOf result Fault.Memory → out.new ≡ out.old }
    ensures failed { W.writer.failed_writes out.new ≡ W.writer.failed_writes out.old +
        (if is_write_fault result then 1 else 0) }
    ensures kinds { IfErr result IsTransferFault }
    ensures read { is_read_fault result ≡ false }
{
    let status = status_of(&outcome);
    let mut line = outcome_text(alloc, outcome)?;
    line.push(b'\n')?;
    write_all(out, &line)?;
    Ok(status)
}

/// Writes the line of a refusal.
pub(crate) fn write_refusal<W: Sink>(
    alloc: Global,
    fault: Fault,
    out: &mut W,
) -> Result<Status, Fault>
    ensures status { Returns result (Status.Refused fault) }
    ensures whole { OnOk result (Gains (W.writer.written out.old) (W.writer.written out.new)
        (refusal_line fault)) }
    ensures prefix { IsErrOf result Fault.Write →
        GainsPrefix (W.writer.written out.old) (W.writer.written out.new) (refusal_line fault) }
    ensures untouched { IsErrOf result Fault.Memory → out.new ≡ out.old }
    ensures failed { W.writer.failed_writes out.new ≡ W.writer.failed_writes out.old +
        (if is_write_fault result then 1 else 0) }
    ensures kinds { IfErr result IsTransferFault }
    ensures read { is_read_fault result ≡ false }
{
    let mut line = b"#refused ".to_vec(alloc)?;
    line.extend_from_slice(fault.word().as_bytes())?;
    line.push(b'\n')?;
    write_all(out, &line)?;
    Ok(Status::Refused(fault))
}
