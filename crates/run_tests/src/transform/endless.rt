//! Readers that give one blank for each call and do not come to an end: how many calls are made. Where the call of a number is the first that
//! fails, the run ends with the fault `Read` exactly if that call is made.
ghost use Rattle.std.specs.Prelude.{◌≤◌};

use crate::transform::pipeline::{PIECE, ROOM, plain_options, text_of};
use keyed_hash::HashKeys;
use prim_registry::{Registry, Standard};
use std::alloc::{AllocError, Global};
use std::test::Fail;
use str_pipeline::{
    Faulty, MAX_BUDGET, MAX_DEFINITIONS, MAX_TERM, Status, transform, transform_joined,
};
use term_model::Fault;

/// How the run ends: with this line, or with the fault `Read` and nothing written.
type Ending = Option<&'static [u8]>;

/// The call that is the first to fail, and how the run ends.
type Case = (u64, Ending);

/// Blanks in the place of definitions.
const DEFINITIONS: &[Case] = &[
    (1_048_577, None),
    (1_048_578, Some(b"#refused DefsTooLong\n")),
];

/// Blanks in the place of a term.
const TERM: &[Case] = &[
    (16_777_217, None),
    (16_777_218, Some(b"#refused TermTooLong\n")),
];

/// Blanks, as many as a text may have and some more, one for each call, of which this one is the first that fails.
fn blanks(alloc: Global, most: usize, bad: u64) -> Result<Faulty, AllocError>
    requires { 1 ≤ bad }
{
    let text = text_of(alloc, &[(" ", most), (" ", 100)])?;
    Ok(Faulty::reader(text, 1, Some(bad)))
}

/// Whether the run ended so.
fn has_ended(answer: &Result<Status, Fault>, out: &Faulty, ending: Ending) -> bool {
    match ending {
        Some(line) => matches!(answer, Ok(Status::Refused(_))) && out.written() == line,
        None => matches!(answer, Err(Fault::Read)) && out.written().is_empty(),
    }
}

/// Whether a run over these readers ends so.
fn ends(
    alloc: Global,
    definitions: Faulty,
    term: Faulty,
    ending: Ending,
) -> Result<bool, AllocError> {
    let mut definitions = definitions;
    let mut term = term;
    let options = plain_options(alloc, MAX_BUDGET)?;
    let registry = Registry::<Standard>::new(alloc);
    let mut out = Faulty::writer(alloc, ROOM, PIECE, None, false)?;
    let answer = transform(
        alloc,
        HashKeys::known(),
        &mut definitions,
        &mut term,
        &options,
        &registry,
        &mut out,
    );
    Ok(has_ended(&answer, &out, ending))
}

/// Whether a run ends so where the definitions are blanks. The first read of the term fails.
fn ends_in_definitions(alloc: Global, bad: u64, ending: Ending) -> Result<bool, AllocError>
    requires { 1 ≤ bad }
{
    let definitions = blanks(alloc, MAX_DEFINITIONS, bad)?;
    let term = Faulty::reader(b"1".to_vec(alloc)?, 1, Some(1));
    ends(alloc, definitions, term, ending)
}

/// Whether a run ends so where the term is blanks.
fn ends_in_term(alloc: Global, bad: u64, ending: Ending) -> Result<bool, AllocError>
    requires { 1 ≤ bad }
{
    let definitions = Faulty::reader(b"strategies main = id".to_vec(alloc)?, PIECE, None);
    let term = blanks(alloc, MAX_TERM, bad)?;
    ends(alloc, definitions, term, ending)
}

#[test]
fn definitions_without_an_end(rt: HostRuntime) -> Result<(), Fail> {
    for (bad, ending) in DEFINITIONS {
        if !ends_in_definitions(rt.alloc(), (*bad).max(1), *ending)? {
            return Err(Fail::new(bad));
        }
    }
    Ok(())
}

/// Under `rt try`, whose checks make runs slower, this takes minutes.
#[test]
fn a_term_without_an_end(rt: HostRuntime) -> Result<(), Fail> {
    for (bad, ending) in TERM {
        if !ends_in_term(rt.alloc(), (*bad).max(1), *ending)? {
            return Err(Fail::new(bad));
        }
    }
    Ok(())
}

/// The front of a text in the joined form, and the first call that fails. The text after the front is blanks.
type JoinedCase = (&'static str, u64, Ending);

/// At most 7 calls more than the limit of the definitions are made for them and the line `#term`.
const JOINED: &[JoinedCase] = &[
    ("", 1_048_577, None),
    ("", 1_048_584, Some(b"#refused DefsTooLong\n")),
    ("strategies main = id\n#term\n", 16_777_244, None),
    (
        "strategies main = id\n#term\n",
        16_777_245,
        Some(b"#refused TermTooLong\n"),
    ),
];

/// Whether a run over a text in the joined form, one byte for each call, ends so. This call is the first that fails.
fn ends_joined(alloc: Global, front: &str, bad: u64, ending: Ending) -> Result<bool, AllocError>
    requires { 1 ≤ bad }
{
    let text = text_of(alloc, &[(front, 1), (" ", MAX_TERM), (" ", 100)])?;
    let mut input = Faulty::reader(text, 1, Some(bad));
    let options = plain_options(alloc, MAX_BUDGET)?;
    let registry = Registry::<Standard>::new(alloc);
    let mut out = Faulty::writer(alloc, ROOM, PIECE, None, false)?;
    let answer = transform_joined(
        alloc,
        HashKeys::known(),
        &mut input,
        &options,
        &registry,
        &mut out,
    );
    Ok(has_ended(&answer, &out, ending))
}

#[test]
fn a_joined_text_without_an_end(rt: HostRuntime) -> Result<(), Fail> {
    for (front, bad, ending) in JOINED {
        if !ends_joined(rt.alloc(), front, (*bad).max(1), *ending)? {
            return Err(Fail::from((front, bad)));
        }
    }
    Ok(())
}
