//! The cut of the joined form: one reader for the definitions, the line `#term` and the term text.
ghost use Rattle.std.specs.Prelude.{◌≡◌, ◌≢◌, ◌+◌, ◌<◌, ◌≤◌, ℕ, None, Some, false, length, vec_len, slice_index, EachIndex, MatchOption, IfSome, IsSomeAnd, IfOk, IfErr, IsTrue, if◌then◌else◌};
ghost use Rattle.str_pipeline.specs.Joined.{IsSplit};
ghost use Rattle.str_pipeline.specs.Search.{IsEarly, IsKind, IsClear, IsSearched, IsStep, definitions_of, term_of, HasLongDefinitions};
ghost use Rattle.str_pipeline.specs.Faults.{IsReadingFault, is_read_fault};
ghost use Rattle.str_pipeline.specs.Transfer.{IsDry};

mod definitions;
mod front;

use crate::source::{PIECE, Source, read_onto};
pub(crate) use definitions::{JoinedDefinitions, read_definitions};
use diagnostics::RunNotes;
pub(crate) use front::JoinedFront;
use std::alloc::Global;
use term_model::Fault;

/// What a line is, by its first bytes.
#[derive(Clone, Copy)]
enum LineKind {
    /// The line `#term`, and its length in bytes with what ends it.
    Term(usize),
    Other,
    /// More bytes have to be read.
    Unknown,
}

/// How far the search for the line has come.
#[derive(Clone, Copy)]
enum Search {
    /// A line begins at this place, and no line before is the one that is looked for.
    AtLine(usize),
    /// Neither a line before this place nor the one around it is the one that is looked for.
    InLine(usize),
}

/// What the bytes that are known say.
enum Step {
    /// The definitions end at the first place, and the term text begins at the second.
    Found(usize, usize),
    TooLong,
    More(Search),
}

/// Returns the kind of the line that begins with these bytes, to which more may come unless they are the
/// last.
fn line_kind(text: &[u8], is_end: bool) -> LineKind
    ensures { IsKind is_end text.now result }
{
    if text.starts_with(b"#term\n") {
        return LineKind::Term(6);
    }
    if text.starts_with(b"#term\r\n") {
        return LineKind::Term(7);
    }
    if is_end {
        return if text == b"#term".as_slice() {
            LineKind::Term(5)
        } else {
            LineKind::Other
        };
    }
    if b"#term\n".starts_with(text) || b"#term\r\n".starts_with(text) {
        return LineKind::Unknown;
    }
    LineKind::Other
}

/// Returns the place of the first line feed.
fn line_feed(text: &[u8]) -> Option<usize>
    ensures { MatchOption result
        (EachIndex text.now (λ k. slice_index text.now k ≢ 10))
        (λ n. (n < length text.now) × (slice_index text.now n ≡ 10) ×
        ((k : ℕ) → k < n → slice_index text.now k ≢ 10)) }
{
    text.iter().position(|byte| *byte == b'\n')
}

/// Continues the search in the bytes that are known, to which more may come unless they are all.
fn advance(known: &[u8], search: Search, limit: usize, is_end: bool) -> Step
    requires { IsSearched false known.now search }
    ensures { IsStep is_end limit known.now result }
{
    let mut search = search;
    loop {
        match search {
            Search::AtLine(start) => {
                if limit < start {
                    return Step::TooLong;
                }
                match line_kind(&known[start..], is_end) {
                    LineKind::Term(length) => return Step::Found(start, start + length),
                    LineKind::Other => search = Search::InLine(start),
                    LineKind::Unknown => return Step::More(search),
                }
            }
            Search::InLine(place) => {
                let Some(count) = line_feed(&known[place..]) else {
                    return without_line(known, limit, is_end);
                };
                search = Search::AtLine(place + count + 1);
            }
        }
    }
}

/// Returns what the bytes that are known say where no such line begins in them or right after them.
#[tactic(auto, using(crate::proofs::CutLemmas::clear_fewer, crate::proofs::CutLemmas::found_none))]
fn without_line(known: &[u8], limit: usize, is_end: bool) -> Step
    requires { IsClear is_end known.now (length known.now + 1) }
    ensures { IsStep is_end limit known.now result }
{
    if limit < known.len() {
        Step::TooLong
    } else if is_end {
        Step::Found(known.len(), known.len())
    } else {
        Step::More(Search::InLine(known.len()))
    }
}

/// Reads to the end of the definitions, or `None` where they have more than `limit` bytes. It stops
/// as soon as either is known. The fault is `Read` if a read failed, and `Memory` if a growth was refused.
/// What was read is lost then, and also after `None`.
pub(crate) fn read_front<S: Source>(
    alloc: Global,
    input: &mut S,
    limit: usize,
) -> Result<Option<JoinedFront>, Fault>
    ensures split { IfOk result
        (λ front. IfSome (S.reader.coming input.old) (λ told. IsSomeAnd (S.reader.coming input.new)
        (λ left.
        MatchOption front (HasLongDefinitions limit told)
        (λ f. IsSplit told (definitions_of f) (term_of f left))))) }
    ensures ended { IfOk result
        (λ front. IfSome front (λ f. IsTrue f.is_ended → IsDry (S.reader.coming input.new))) }
    ensures fits { IfOk result (λ front. IfSome front (λ f. length (definitions_of f) ≤ limit)) }
    ensures failed { S.reader.failed_reads input.new ≡ S.reader.failed_reads input.old +
        (if is_read_fault result then 1 else 0) }
    ensures kinds { IfErr result IsReadingFault }
    ensures bounded { S.reader.reads input.new ≤ S.reader.reads input.old + limit + 7 }
    ensures early { IsEarly (S.reader.coming input.old) (S.reader.reads input.old)
        (S.reader.reads input.new) }
{
    let mut bytes = Vec::new(alloc);
    let mut search = Search::AtLine(0);
    let mut is_ended = false;
    let mut piece = [0u8; PIECE];
    loop {
        match advance(&bytes, search, limit, is_ended) {
            Step::Found(definitions, term) => {
                return Ok(Some(JoinedFront {
                    bytes,
                    definitions,
                    term,
                    is_ended,
                }));
            }
            Step::TooLong => return Ok(None),
            Step::More(further) => search = further,
        }
        let Some(count) = input.read(&mut piece) else {
            return Err(Fault::Read);
        };
        is_ended = count == 0;
        bytes.extend_from_slice(&piece[..count])?;
    }
}

impl JoinedFront {
    pub(crate) fn definitions(&self) -> &[u8]
        ensures { result.now ≡ definitions_of self.now }
    {
        &self.bytes[..self.definitions]
    }

    /// Notes where the term text begins.
    pub(crate) fn note_end(&self, notes: &mut RunNotes) {
        notes.begin_term(&self.bytes[..self.term], self.definitions < self.term);
    }

    /// Returns the term text, or `None` where it has more than `limit` bytes. Nothing is read where the
    /// input has ended. The fault is `Read` if a read failed, and `Memory` if memory was refused. What was
    /// read for it is lost then, and also after `None`.
    pub(crate) fn read_term<S: Source>(
        &self,
        alloc: Global,
        input: &mut S,
        limit: usize,
    ) -> Result<Option<Vec<u8>>, Fault>
        requires { IsTrue self.now.is_ended → IsDry (S.reader.coming input.old) }
        ensures whole { IfOk result (λ text. IfSome (S.reader.coming input.old) (λ left.
            MatchOption text (limit < length (term_of self.now left))
            (λ all. all.items ≡ term_of self.now left))) }
        ensures fits { IfOk result (λ text. IfSome text (λ all. vec_len all ≤ limit)) }
        ensures failed { S.reader.failed_reads input.new ≡ S.reader.failed_reads input.old +
            (if is_read_fault result then 1 else 0) }
        ensures kinds { IfErr result IsReadingFault }
        ensures bounded { S.reader.reads input.new ≤ S.reader.reads input.old + limit + 1 }
    {
        let begun = self.bytes[self.term..].to_vec(alloc)?;
        if !self.is_ended {
            return read_onto(begun, input, limit);
        }
        if limit < begun.len() {
            return Ok(None);
        }
        Ok(Some(begun))
    }
}
