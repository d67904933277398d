//! Readers and writers that fail, and definitions that are refused before the term is read.
ghost use Rattle.std.specs.Prelude.{◌≤◌, IfSome};
ghost use Rattle.prim_registry.specs.Entries.{IsHonest};
ghost use Rattle.term_model.specs.Limits.{max_budget};

use crate::transform::pipeline::{PIECE, ROOM, plain_options};
use keyed_hash::HashKeys;
use prim_registry::{PrimMeaning, Registry, Standard};
use std::alloc::{AllocError, Global};
use std::test::Fail;
use str_pipeline::{Faulty, MAX_BUDGET, Options, Status, transform, transform_joined};
use term_model::Fault;

/// Definitions, a term, and both in the joined form.
const FIRST_PART: &[u8] = b"strategies main = ?(x,_); !x";

const PAIR: &[u8] = b"(7,f(1))";

const FIRST_PART_OF_PAIR: &[u8] = b"strategies main = ?(x,_); !x\n#term\n(7,f(1))";

/// Whether a run has ended with the fault `Read` and written nothing, exactly if one of its reads is bad.
fn is_read_fault(answer: &Result<Status, Fault>, out: &Faulty, is_bad: bool) -> bool {
    matches!(answer, Err(Fault::Read)) == is_bad && out.written().is_empty() == is_bad
}

/// Whether a run ends as it should if its readers fail from these calls on. Each call reads a byte.
fn ends_apart(
    alloc: Global,
    bad_definitions: Option<u64>,
    bad_term: Option<u64>,
    is_bad: bool,
    options: &Options,
    registry: &Registry<Standard>,
) -> Result<bool, AllocError>
    requires definitions { IfSome bad_definitions (λ n. 1 ≤ n) }
    requires term { IfSome bad_term (λ n. 1 ≤ n) }
    requires budget { options.now.budget ≤ max_budget }
    requires honest { IsHonest ⟦<Standard as PrimMeaning>⟧.answer registry.now }
{
    let mut first = Faulty::reader(FIRST_PART.to_vec(alloc)?, 1, bad_definitions);
    let mut second = Faulty::reader(PAIR.to_vec(alloc)?, 1, bad_term);
    let mut out = Faulty::writer(alloc, ROOM, PIECE, None, false)?;
    let answer = transform(
        alloc,
        HashKeys::known(),
        &mut first,
        &mut second,
        options,
        registry,
        &mut out,
    );
    Ok(is_read_fault(&answer, &out, is_bad))
}

/// The same in the joined form.
fn ends_joined(
    alloc: Global,
    bad: u64,
    is_bad: bool,
    options: &Options,
    registry: &Registry<Standard>,
) -> Result<bool, AllocError>
    requires bad { 1 ≤ bad }
    requires budget { options.now.budget ≤ max_budget }
    requires honest { IsHonest ⟦<Standard as PrimMeaning>⟧.answer registry.now }
{
    let mut input = Faulty::reader(FIRST_PART_OF_PAIR.to_vec(alloc)?, 1, Some(bad));
    let mut out = Faulty::writer(alloc, ROOM, PIECE, None, false)?;
    let answer = transform_joined(
        alloc,
        HashKeys::known(),
        &mut input,
        options,
        registry,
        &mut out,
    );
    Ok(is_read_fault(&answer, &out, is_bad))
}

/// Whether the text is read by this call: by one for each byte, and by one more at its end.
fn is_read_by(text: &[u8], call: u64) -> bool {
    call <= text.len() as u64 + 1
}

/// Whether runs end as they should where the reader of the definitions, of the term, or of both fails from this call on.
fn runs_end(
    alloc: Global,
    bad: u64,
    options: &Options,
    registry: &Registry<Standard>,
) -> Result<bool, AllocError>
    requires bad { 1 ≤ bad }
    requires budget { options.now.budget ≤ max_budget }
    requires honest { IsHonest ⟦<Standard as PrimMeaning>⟧.answer registry.now }
{
    let in_definitions = is_read_by(FIRST_PART, bad);
    let in_term = is_read_by(PAIR, bad);
    let in_either = is_read_by(FIRST_PART_OF_PAIR, bad);
    Ok(
        ends_apart(alloc, Some(bad), None, in_definitions, options, registry)?
            && ends_apart(alloc, None, Some(bad), in_term, options, registry)?
            && ends_joined(alloc, bad, in_either, options, registry)?,
    )
}

#[test]
fn failing_readers(rt: HostRuntime) -> Result<(), Fail> {
    let options = plain_options(rt.alloc(), MAX_BUDGET)?;
    let registry = Registry::<Standard>::new(rt.alloc());
    for bad in 1..60u64 {
        if !runs_end(rt.alloc(), bad, &options, &registry)? {
            return Err(Fail::new(bad));
        }
    }
    Ok(())
}

/// Definitions that are refused, and the line.
const REFUSED: &[(&str, &str)] = &[
    ("strategies main = #", "#refused Lexical\n"),
    ("strategies main = id;", "#refused Syntax\n"),
    ("module m", "#refused ReservedWord\n"),
    ("strategies main = go", "#refused UnknownStrategy\n"),
    ("", "#refused NoMain\n"),
];

/// Whether the definitions are refused with this line, where no read of the term succeeds.
fn is_refused(
    alloc: Global,
    defs: &str,
    line: &str,
    options: &Options,
    registry: &Registry<Standard>,
) -> Result<bool, AllocError>
    requires budget { options.now.budget ≤ max_budget }
    requires honest { IsHonest ⟦<Standard as PrimMeaning>⟧.answer registry.now }
{
    let mut first = Faulty::reader(defs.as_bytes().to_vec(alloc)?, 9, None);
    let mut second = Faulty::reader(b"1".to_vec(alloc)?, 9, Some(1));
    let mut out = Faulty::writer(alloc, ROOM, 1, None, false)?;
    let answer = transform(
        alloc,
        HashKeys::known(),
        &mut first,
        &mut second,
        options,
        registry,
        &mut out,
    );
    Ok(matches!(answer, Ok(Status::Refused(_))) && out.written() == line.as_bytes())
}

#[test]
fn refused_definitions_leave_the_term(rt: HostRuntime) -> Result<(), Fail> {
    let options = plain_options(rt.alloc(), MAX_BUDGET)?;
    let registry = Registry::<Standard>::new(rt.alloc());
    for (defs, line) in REFUSED {
        if !is_refused(rt.alloc(), defs, line, &options, &registry)? {
            return Err(Fail::new(defs));
        }
    }
    Ok(())
}

/// Definitions, a term, both in the joined form, and the line.
type Written = (&'static [u8], &'static [u8], &'static [u8], &'static [u8]);

const WRITTEN: &[Written] = &[
    (
        b"strategies main = id",
        b"F(1)",
        b"strategies main = id\n#term\nF(1)",
        b"F(1)\n",
    ),
    (
        b"strategies main = ?(_,x); !x",
        b"(7,f(1))",
        b"strategies main = ?(_,x); !x\n#term\n(7,f(1))",
        b"f(1)\n",
    ),
];

/// Whether a run has written the bytes of the line before the bad call, and ended with the fault `Write` exactly if the line has more.
fn is_write_fault(answer: &Result<Status, Fault>, out: &Faulty, line: &[u8], bad: u64) -> bool {
    let is_bad = bad <= line.len() as u64;
    let count = line.len().min((bad as usize).saturating_sub(1));
    matches!(answer, Err(Fault::Write)) == is_bad && out.written() == &line[..count]
}

/// Whether a run ends as it should if its writer is bad from this call on: it fails or, where it is silent, takes nothing. Each call
/// writes a byte.
fn is_cut_apart(
    alloc: Global,
    row: &Written,
    bad: u64,
    is_silent: bool,
    options: &Options,
    registry: &Registry<Standard>,
) -> Result<bool, AllocError>
    requires bad { 1 ≤ bad }
    requires budget { options.now.budget ≤ max_budget }
    requires honest { IsHonest ⟦<Standard as PrimMeaning>⟧.answer registry.now }
{
    let (definitions, term, _, line) = row;
    let mut first = Faulty::reader(definitions.to_vec(alloc)?, 9, None);
    let mut second = Faulty::reader(term.to_vec(alloc)?, 9, None);
    let mut out = Faulty::writer(alloc, ROOM, 1, Some(bad), is_silent)?;
    let answer = transform(
        alloc,
        HashKeys::known(),
        &mut first,
        &mut second,
        options,
        registry,
        &mut out,
    );
    Ok(is_write_fault(&answer, &out, line, bad))
}

/// The same in the joined form.
fn is_cut_joined(
    alloc: Global,
    row: &Written,
    bad: u64,
    is_silent: bool,
    options: &Options,
    registry: &Registry<Standard>,
) -> Result<bool, AllocError>
    requires bad { 1 ≤ bad }
    requires budget { options.now.budget ≤ max_budget }
    requires honest { IsHonest ⟦<Standard as PrimMeaning>⟧.answer registry.now }
{
    let (_, _, joined, line) = row;
    let mut input = Faulty::reader(joined.to_vec(alloc)?, 9, None);
    let mut out = Faulty::writer(alloc, ROOM, 1, Some(bad), is_silent)?;
    let answer = transform_joined(
        alloc,
        HashKeys::known(),
        &mut input,
        options,
        registry,
        &mut out,
    );
    Ok(is_write_fault(&answer, &out, line, bad))
}

/// Whether runs in both forms end as they should if their writers are bad from this call on.
fn are_cut(
    alloc: Global,
    row: &Written,
    bad: u64,
    options: &Options,
    registry: &Registry<Standard>,
) -> Result<bool, AllocError>
    requires bad { 1 ≤ bad }
    requires budget { options.now.budget ≤ max_budget }
    requires honest { IsHonest ⟦<Standard as PrimMeaning>⟧.answer registry.now }
{
    Ok(
        is_cut_apart(alloc, row, bad, false, options, registry)?
            && is_cut_apart(alloc, row, bad, true, options, registry)?
            && is_cut_joined(alloc, row, bad, false, options, registry)?
            && is_cut_joined(alloc, row, bad, true, options, registry)?,
    )
}

/// Whether it is so for each call.
fn are_cut_at_each(
    alloc: Global,
    row: &Written,
    options: &Options,
    registry: &Registry<Standard>,
) -> Result<bool, AllocError>
    requires budget { options.now.budget ≤ max_budget }
    requires honest { IsHonest ⟦<Standard as PrimMeaning>⟧.answer registry.now }
{
    for bad in 1..8u64 {
        if !are_cut(alloc, row, bad, options, registry)? {
            return Ok(false);
        }
    }
    Ok(true)
}

#[test]
fn failing_writers(rt: HostRuntime) -> Result<(), Fail> {
    let options = plain_options(rt.alloc(), MAX_BUDGET)?;
    let registry = Registry::<Standard>::new(rt.alloc());
    for (index, row) in WRITTEN.iter().enumerate() {
        if !are_cut_at_each(rt.alloc(), row, &options, &registry)? {
            return Err(Fail::new(index));
        }
    }
    Ok(())
}
