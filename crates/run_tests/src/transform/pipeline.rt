//! Whole runs, from bytes to bytes.
ghost use Rattle.std.specs.Prelude.{◌≡◌, ◌≤◌, IfOk};
ghost use Rattle.prim_registry.specs.Entries.{IsHonest};
ghost use Rattle.term_model.specs.Limits.{max_budget};

use crate::transform::annotation_rows::{ANNOTATION_ROWS, CONSTRUCTORS, LARGE_ROWS};
use crate::transform::complaints::{PARTS, Part};
use crate::transform::forms::{FORMS, SIGNATURE};
use crate::transform::language_rows::{CHECK_ROWS, LANGUAGE_ROWS};
use crate::transform::library_rows::LIBRARY_ROWS;
use crate::transform::long_rows::{ENDLESS, LONG_ROWS};
use crate::transform::option_rows::{OPTION_ROWS, OptionRow};
use crate::transform::rows::{JOINED_ROWS, JoinedRow, ROWS, Row, TEXT_ROWS, TextRow};
use crate::transform::term_rows::{TERM_ROWS, TERM_TEXT_ROWS};
use keyed_hash::HashKeys;
use prim_registry::{PrimMeaning, Registry, Standard};
use std::alloc::{AllocError, Global};
use std::test::Fail;
use str_pipeline::{
    Faulty, MAX_BUDGET, Options, RunNotes, Status, transform_joined, transform_with_notes,
};
use term_model::Fault;

/// How much a reader gives and a writer takes in a call.
pub(crate) const PIECE: usize = 65_536;

/// Room for the longest line.
pub(crate) const ROOM: usize = 32_768;

/// The pieces one after another, each repeated its number of times.
pub(crate) fn text_of(alloc: Global, pieces: &[(&str, usize)]) -> Result<Vec<u8>, AllocError> {
    let mut text = Vec::new(alloc);
    for (piece, times) in pieces {
        for _ in 0..*times {
            text.extend_from_slice(piece.as_bytes())?;
        }
    }
    Ok(text)
}

/// The same as a line.
fn line_of(alloc: Global, pieces: &[(&str, usize)]) -> Result<Vec<u8>, AllocError> {
    let mut line = text_of(alloc, pieces)?;
    line.push(b'\n')?;
    Ok(line)
}

/// Whether the status is that of the line.
fn fits(status: &Status, line: &[u8]) -> bool {
    match status {
        Status::Rewritten => !line.starts_with(b"#"),
        Status::Failed => line == b"#failed\n".as_slice(),
        Status::Oversize => line == b"#oversize\n".as_slice(),
        Status::Spent => line == b"#spent\n".as_slice(),
        Status::Refused(fault) => line
            .strip_prefix(b"#refused ")
            .is_some_and(|rest| rest.starts_with(fault.word().as_bytes())),
    }
}

/// Returns the options for a run of `main` within this budget.
pub(crate) fn plain_options(alloc: Global, budget: u64) -> Result<Options, AllocError>
    ensures { IfOk result (λ options. options.budget ≡ budget) }
{
    Ok(Options {
        main: b"main".to_vec(alloc)?,
        strict: false,
        budget,
    })
}

/// Whether definitions and a term give this line within the budget, in both forms.
fn gives(
    alloc: Global,
    defs: &[u8],
    term: &[u8],
    budget: u64,
    registry: &Registry<Standard>,
    line: &[u8],
) -> Result<bool, Fault>
    requires budget { budget ≤ max_budget }
    requires honest { IsHonest ⟦<Standard as PrimMeaning>⟧.answer registry.now }
{
    let options = plain_options(alloc, budget)?;
    gives_with(alloc, defs, term, &options, registry, line)
}

/// Whether definitions and a term give this line with these options, in both forms.
fn gives_with(
    alloc: Global,
    defs: &[u8],
    term: &[u8],
    options: &Options,
    registry: &Registry<Standard>,
    line: &[u8],
) -> Result<bool, Fault>
    requires budget { options.now.budget ≤ max_budget }
    requires honest { IsHonest ⟦<Standard as PrimMeaning>⟧.answer registry.now }
{
    let text = joined_form(alloc, defs, term)?;
    Ok(
        gives_apart(alloc, defs, term, options, registry, line)?
            && gives_joined(alloc, &text, PIECE, options, registry, line)?,
    )
}

/// The joined form of definitions and a term.
fn joined_form(alloc: Global, defs: &[u8], term: &[u8]) -> Result<Vec<u8>, AllocError> {
    let mut text = defs.to_vec(alloc)?;
    text.extend_from_slice(b"\n#term\n")?;
    text.extend_from_slice(term)?;
    Ok(text)
}

/// Whether the steps of the run, where there was one, are within the bound that its rules give.
fn is_bounded(notes: &RunNotes) -> bool {
    let Some(used) = notes.used() else {
        return true;
    };
    let most = used.rules.saturating_mul(10).saturating_add(10);
    used.steps <= most
}

/// Whether definitions and a term, each from a reader of its own, give this line, by steps within the bound.
fn gives_apart(
    alloc: Global,
    defs: &[u8],
    term: &[u8],
    options: &Options,
    registry: &Registry<Standard>,
    line: &[u8],
) -> Result<bool, Fault>
    requires budget { options.now.budget ≤ max_budget }
    requires honest { IsHonest ⟦<Standard as PrimMeaning>⟧.answer registry.now }
{
    let mut out = Faulty::writer(alloc, ROOM, PIECE, None, false)?;
    let mut first = Faulty::reader(defs.to_vec(alloc)?, PIECE, None);
    let mut second = Faulty::reader(term.to_vec(alloc)?, PIECE, None);
    let mut notes = RunNotes::none();
    let status = transform_with_notes(
        alloc,
        HashKeys::known(),
        &mut first,
        &mut second,
        options,
        registry,
        &mut notes,
        &mut out,
    )?;
    Ok(fits(&status, line) && out.written() == line && is_bounded(&notes))
}

/// Whether a text in the joined form, which is read by so many bytes at a time, gives this line.
fn gives_joined(
    alloc: Global,
    text: &[u8],
    piece: usize,
    options: &Options,
    registry: &Registry<Standard>,
    line: &[u8],
) -> Result<bool, Fault>
    requires piece { 1 ≤ piece }
    requires budget { options.now.budget ≤ max_budget }
    requires honest { IsHonest ⟦<Standard as PrimMeaning>⟧.answer registry.now }
{
    let mut out = Faulty::writer(alloc, ROOM, PIECE, None, false)?;
    let mut input = Faulty::reader(text.to_vec(alloc)?, piece, None);
    let status = transform_joined(
        alloc,
        HashKeys::known(),
        &mut input,
        options,
        registry,
        &mut out,
    )?;
    Ok(fits(&status, line) && out.written() == line)
}

/// Whether definitions and a term use up the budget.
fn uses_up(
    alloc: Global,
    defs: &[u8],
    term: &[u8],
    budget: u64,
    registry: &Registry<Standard>,
) -> Result<bool, Fault>
    requires budget { budget ≤ max_budget }
    requires honest { IsHonest ⟦<Standard as PrimMeaning>⟧.answer registry.now }
{
    gives(alloc, defs, term, budget, registry, b"#spent\n")
}

/// Whether definitions and a term give this line, and where a number of rules is stated, by no fewer.
fn takes(
    alloc: Global,
    defs: &[u8],
    term: &[u8],
    rules: Option<u32>,
    registry: &Registry<Standard>,
    line: &[u8],
) -> Result<bool, Fault>
    requires { IsHonest ⟦<Standard as PrimMeaning>⟧.answer registry.now }
{
    if !gives(alloc, defs, term, MAX_BUDGET, registry, line)? {
        return Ok(false);
    }
    let Some(rules) = rules else {
        return Ok(true);
    };
    let rules = u64::from(rules);
    Ok(
        gives(alloc, defs, term, rules, registry, line)?
            && uses_up(alloc, defs, term, rules.saturating_sub(1), registry)?
            && uses_up(alloc, defs, term, 0, registry)?,
    )
}

/// Whether definitions and a term do as a row says.
fn is_met(alloc: Global, row: &Row, registry: &Registry<Standard>) -> Result<bool, Fault>
    requires { IsHonest ⟦<Standard as PrimMeaning>⟧.answer registry.now }
{
    let defs = text_of(alloc, row.defs)?;
    let term = text_of(alloc, row.term)?;
    let line = line_of(alloc, row.line)?;
    takes(alloc, &defs, &term, row.rules, registry, &line)
}

/// Whether definitions, of which this is the front, and a term do as a row says.
fn is_met_after(
    alloc: Global,
    front: &str,
    row: &TextRow,
    registry: &Registry<Standard>,
) -> Result<bool, Fault>
    requires { IsHonest ⟦<Standard as PrimMeaning>⟧.answer registry.now }
{
    let (definitions, term, line, rules) = row;
    let defs = text_of(alloc, &[(front, 1), (definitions, 1)])?;
    let line = line_of(alloc, &[(line, 1)])?;
    takes(alloc, &defs, term.as_bytes(), *rules, registry, &line)
}

#[test]
fn rows(rt: HostRuntime) -> Result<(), Fail> {
    let registry = Registry::<Standard>::new(rt.alloc());
    for row in ROWS.iter().chain(TERM_ROWS).chain(LARGE_ROWS) {
        if !is_met(rt.alloc(), row, &registry)? {
            return Err(Fail::from((row.defs, row.term)));
        }
    }
    Ok(())
}

/// Runs of many rules. Under `rt try`, whose checks make runs slower, they take minutes.
#[test]
fn long_runs(rt: HostRuntime) -> Result<(), Fail> {
    let registry = Registry::<Standard>::new(rt.alloc());
    for row in LONG_ROWS {
        if !is_met(rt.alloc(), row, &registry)? {
            return Err(Fail::from((row.defs, row.term)));
        }
    }
    for defs in ENDLESS {
        if !uses_up(rt.alloc(), defs.as_bytes(), b"7", 1_000_000, &registry)? {
            return Err(Fail::new(defs));
        }
    }
    Ok(())
}

/// Checks that the definitions of each row, after this front, and its term do as the row says.
pub(crate) fn check_rows(
    alloc: Global,
    front: &str,
    rows: &[TextRow],
    registry: &Registry<Standard>,
) -> Result<(), Fail>
    requires { IsHonest ⟦<Standard as PrimMeaning>⟧.answer registry.now }
{
    for row in rows {
        if !is_met_after(alloc, front, row, registry)? {
            return Err(Fail::from((row.0, row.1)));
        }
    }
    Ok(())
}

#[test]
fn text_rows(rt: HostRuntime) -> Result<(), Fail> {
    let registry = Registry::<Standard>::new(rt.alloc());
    for rows in [
        TEXT_ROWS,
        TERM_TEXT_ROWS,
        LANGUAGE_ROWS,
        CHECK_ROWS,
        LIBRARY_ROWS,
    ] {
        check_rows(rt.alloc(), "", rows, &registry)?;
    }
    check_rows(rt.alloc(), CONSTRUCTORS, ANNOTATION_ROWS, &registry)?;
    check_rows(rt.alloc(), SIGNATURE, FORMS, &registry)
}

/// A file with both parts.
fn file_with(alloc: Global, first: &Part, second: &Part) -> Result<Vec<u8>, AllocError> {
    let main = if first.has_main && second.has_main {
        "main = id"
    } else {
        ""
    };
    text_of(
        alloc,
        &[
            ("signature constructors ", 1),
            (first.declarations, 1),
            (second.declarations, 1),
            (" strategies ", 1),
            (first.definitions, 1),
            (second.definitions, 1),
            (main, 1),
        ],
    )
}

/// Whether the fault of this word is reported of a file with both parts.
fn is_reported(
    alloc: Global,
    word: &str,
    first: &Part,
    second: &Part,
    registry: &Registry<Standard>,
) -> Result<bool, Fault>
    requires { IsHonest ⟦<Standard as PrimMeaning>⟧.answer registry.now }
{
    let file = file_with(alloc, first, second)?;
    let line = line_of(alloc, &[("#refused ", 1), (word, 1)])?;
    gives(alloc, &file, b"1", MAX_BUDGET, registry, &line)
}

#[test]
fn the_least_complaint(rt: HostRuntime) -> Result<(), Fail> {
    let alloc = rt.alloc();
    let registry = Registry::<Standard>::new(alloc);
    for (index, part) in PARTS.iter().enumerate() {
        for other in PARTS.iter().skip(index).skip(1) {
            if !is_reported(alloc, part.word, part, other, &registry)?
                || !is_reported(alloc, part.word, other, part, &registry)?
            {
                return Err(Fail::from((part.word, other.word)));
            }
        }
    }
    Ok(())
}

/// Whether a row of the joined form gives its line, also where a short text is read by 1 and by 7 bytes at a time.
fn is_met_joined(
    alloc: Global,
    row: &JoinedRow,
    options: &Options,
    registry: &Registry<Standard>,
) -> Result<bool, Fault>
    requires budget { options.now.budget ≤ max_budget }
    requires honest { IsHonest ⟦<Standard as PrimMeaning>⟧.answer registry.now }
{
    let text = text_of(alloc, row.text)?;
    let line = line_of(alloc, row.line)?;
    for piece in [PIECE, 1, 7] {
        let is_tried = piece == PIECE || text.len() < PIECE;
        if is_tried && !gives_joined(alloc, &text, piece, options, registry, &line)? {
            return Ok(false);
        }
    }
    Ok(true)
}

#[test]
fn joined_rows(rt: HostRuntime) -> Result<(), Fail> {
    let options = plain_options(rt.alloc(), MAX_BUDGET)?;
    let registry = Registry::<Standard>::new(rt.alloc());
    for row in JOINED_ROWS {
        if !is_met_joined(rt.alloc(), row, &options, &registry)? {
            return Err(Fail::from(row.text));
        }
    }
    Ok(())
}

/// Whether a row with options gives its line.
fn is_met_with_options(
    alloc: Global,
    row: &OptionRow,
    registry: &Registry<Standard>,
) -> Result<bool, Fault>
    requires { IsHonest ⟦<Standard as PrimMeaning>⟧.answer registry.now }
{
    let (defs, term, main, is_strict, budget, line) = row;
    let line = line_of(alloc, &[(line, 1)])?;
    let options = Options {
        main: main.as_bytes().to_vec(alloc)?,
        strict: *is_strict,
        budget: u64::from(*budget),
    };
    gives_with(
        alloc,
        defs.as_bytes(),
        term.as_bytes(),
        &options,
        registry,
        &line,
    )
}

#[test]
fn option_rows(rt: HostRuntime) -> Result<(), Fail> {
    let registry = Registry::<Standard>::new(rt.alloc());
    for row in OPTION_ROWS {
        if !is_met_with_options(rt.alloc(), row, &registry)? {
            return Err(Fail::from((row.2, row.0, row.1)));
        }
    }
    Ok(())
}
