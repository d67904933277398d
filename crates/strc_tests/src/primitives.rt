//! Runs over a registry without primitives, and runs without words.
use crate::samples::{Shelf, words_of};
use keyed_hash::HashKeys;
use prim_registry::{Registry, Standard};
use std::alloc::{AllocError, Global};
use std::io::{self, ErrorKind};
use std::test::Fail;
use str_pipeline::Faulty;
use strc_command::{run, run_standard};

/// The words; the status, the output and the report.
const ROWS: &[(&str, u8, &str, &str)] = &[
    (
        "strc sum.str pair.trm",
        2,
        "#refused UnknownPrimitive\n",
        "strc: UnknownPrimitive\nsum.str:1:28: primitive add with 2 terms is unknown\n    strategies main = ?(x, y); prim(\"add\", x, y)\n                               ^\n",
    ),
    ("strc first.str pair.trm", 0, "7\n", ""),
];

/// Whether a run without primitives ends so.
fn ends(
    alloc: Global,
    line: &str,
    status: u8,
    written: &str,
    report: &str,
) -> Result<bool, AllocError> {
    let registry = Registry::<Standard>::new(alloc);
    let words = words_of(alloc, line)?;
    let mut input = Faulty::reader(Vec::new(alloc), 5, None);
    let mut out = Faulty::writer(alloc, 4096, 3, None, false)?;
    let mut diagnostics = Faulty::writer(alloc, 4096, 3, None, false)?;
    let mut paths = Shelf::new(alloc);
    let ended = run(
        alloc,
        HashKeys::known(),
        &words,
        &registry,
        &mut paths,
        &mut input,
        &mut out,
        &mut diagnostics,
    );
    Ok(
        ended == status
            && out.written() == written.as_bytes()
            && diagnostics.written() == report.as_bytes(),
    )
}

#[test]
fn a_registry_without_primitives(rt: HostRuntime) -> Result<(), Fail> {
    for (line, status, written, report) in ROWS {
        if !ends(rt.alloc(), line, *status, written, report)? {
            return Err(Fail::new(line));
        }
    }
    Ok(())
}

/// Why there are no words; the status and the report.
const NO_WORDS: &[(ErrorKind, u8, &str)] = &[
    (
        ErrorKind::InvalidData,
        5,
        "error: a word of the command line is no UTF-8 text\n",
    ),
    (ErrorKind::OutOfMemory, 4, "strc: Memory\n"),
];

/// Whether a run without words ends so, and writes nothing.
fn ends_at_once(
    alloc: Global,
    kind: ErrorKind,
    status: u8,
    report: &str,
) -> Result<bool, AllocError> {
    let mut input = Faulty::reader(Vec::new(alloc), 5, None);
    let mut out = Faulty::writer(alloc, 100, 7, None, false)?;
    let mut diagnostics = Faulty::writer(alloc, 100, 7, None, false)?;
    let mut paths = Shelf::new(alloc);
    let ended = run_standard(
        alloc,
        HashKeys::known(),
        &Err(io::Error::from(kind)),
        &mut paths,
        &mut input,
        &mut out,
        &mut diagnostics,
    );
    Ok(ended == status && out.written().is_empty() && diagnostics.written() == report.as_bytes())
}

#[test]
fn runs_without_words(rt: HostRuntime) -> Result<(), Fail> {
    for (kind, status, report) in NO_WORDS {
        if !ends_at_once(rt.alloc(), *kind, *status, report)? {
            return Err(Fail::new(report));
        }
    }
    Ok(())
}
