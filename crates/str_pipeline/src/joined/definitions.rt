//! The definitions of the joined form after the text of libraries.
ghost use Rattle.std.specs.Prelude.{◌≡◌, ◌+◌, ◌<◌, ◌≤◌, Some, length, vec_len, MatchOption, IfSome, IfOk, IfErr, IsTrue, if◌then◌else◌};
ghost use Rattle.str_pipeline.specs.Joined.{OfJoinedDefinitionsAfter};
ghost use Rattle.str_pipeline.specs.Search.{AreSplitAfter, term_of};
ghost use Rattle.str_pipeline.specs.Faults.{IsReadingFault, is_read_fault};
ghost use Rattle.str_pipeline.specs.Limits.{max_definitions};
ghost use Rattle.str_pipeline.specs.Transfer.{IsDry};

use crate::answer::MAX_DEFINITIONS;
use crate::joined::front::JoinedFront;
use crate::joined::read_front;
use crate::source::{Source, read_all};
use std::alloc::Global;
use term_model::Fault;

/// The definitions of the joined form after the text of libraries, and what was read of the input.
#[derive(Drop)]
pub(crate) struct JoinedDefinitions {
    /// The text of the libraries, and the definitions of the input after it.
    pub(crate) text: Vec<u8>,
    /// The number of bytes of the libraries' text.
    pub(crate) library: usize,
    /// What was read of the input.
    pub(crate) front: JoinedFront,
}

/// Reads the text of libraries and then the input to the end of its definitions, or `None` where these have more than
/// `MAX_DEFINITIONS` bytes together. The fault is `Read` if a read failed, and `Memory` if a growth was refused. What was
/// read is lost then, and also after `None`.
pub(crate) fn read_definitions<L: Source, S: Source>(
    alloc: Global,
    libraries: &mut L,
    input: &mut S,
) -> Result<Option<JoinedDefinitions>, Fault>
    ensures split { IfOk result (λ found. MatchOption found
        (OfJoinedDefinitionsAfter (L.reader.coming libraries.old) (S.reader.coming input.old)
        (λ d. max_definitions < length d))
        (λ f. AreSplitAfter (L.reader.coming libraries.old) (S.reader.coming input.old)
        (S.reader.coming input.new) f.text.items (term_of f.front))) }
    ensures ended { IfOk result (λ found. IfSome found (λ f.
        IsTrue f.front.is_ended → IsDry (S.reader.coming input.new))) }
    ensures fits { IfOk result (λ found. IfSome found (λ f. vec_len f.text ≤ max_definitions)) }
    ensures failed { L.reader.failed_reads libraries.new + S.reader.failed_reads input.new
        ≡ L.reader.failed_reads libraries.old + S.reader.failed_reads input.old +
        (if is_read_fault result then 1 else 0) }
    ensures kinds { IfErr result IsReadingFault }
    ensures libraries_bounded { L.reader.reads libraries.new ≤ L.reader.reads libraries.old +
        max_definitions + 1 }
    ensures bounded { S.reader.reads input.new ≤ S.reader.reads input.old + max_definitions + 7 }
    ensures early { OfJoinedDefinitionsAfter (L.reader.coming libraries.old)
        (S.reader.coming input.old)
        (λ d. S.reader.reads input.new ≤ S.reader.reads input.old + length d + 8) }
{
    let Some(text) = read_all(alloc, libraries, MAX_DEFINITIONS)? else {
        return Ok(None);
    };
    add_definitions(alloc, text, input)
}

/// Reads the input to the end of its definitions and adds them to the text of libraries, or returns `None` where these have
/// more than `MAX_DEFINITIONS` bytes together.
fn add_definitions<S: Source>(
    alloc: Global,
    libraries: Vec<u8>,
    input: &mut S,
) -> Result<Option<JoinedDefinitions>, Fault>
    requires { vec_len libraries ≤ max_definitions }
    ensures split { IfOk result (λ found. MatchOption found
        (OfJoinedDefinitionsAfter (Some libraries.items) (S.reader.coming input.old)
        (λ d. max_definitions < length d))
        (λ f. AreSplitAfter (Some libraries.items) (S.reader.coming input.old)
        (S.reader.coming input.new) f.text.items (term_of f.front))) }
    ensures ended { IfOk result (λ found. IfSome found (λ f.
        IsTrue f.front.is_ended → IsDry (S.reader.coming input.new))) }
    ensures fits { IfOk result (λ found. IfSome found (λ f. vec_len f.text ≤ max_definitions)) }
    ensures failed { S.reader.failed_reads input.new ≡ S.reader.failed_reads input.old +
        (if is_read_fault result then 1 else 0) }
    ensures kinds { IfErr result IsReadingFault }
    ensures bounded { S.reader.reads input.new ≤ S.reader.reads input.old + max_definitions + 7 }
    ensures early { OfJoinedDefinitionsAfter (Some libraries.items) (S.reader.coming input.old)
        (λ d. S.reader.reads input.new ≤ S.reader.reads input.old + length d + 8) }
{
    let library = libraries.len();
    let Some(front) = read_front(alloc, input, MAX_DEFINITIONS - library)? else {
        return Ok(None);
    };
    let mut text = libraries;
    text.extend_from_slice(front.definitions())?;
    Ok(Some(JoinedDefinitions {
        text,
        library,
        front,
    }))
}
