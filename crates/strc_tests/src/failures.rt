//! What is said of files, readers and writers that fail.
ghost use Rattle.std.specs.Prelude.{◌≤◌, IfSome};

use crate::samples::{Device, run_with};
use std::alloc::{AllocError, Global};
use std::io::ErrorKind;
use std::test::Fail;
use str_pipeline::Faulty;

/// The words; why reads of standard input fail, and writes to standard output; the report.
type Row = (
    &'static str,
    Option<ErrorKind>,
    Option<ErrorKind>,
    &'static str,
);

const ROWS: &[Row] = &[
    (
        "strc id.str a:b",
        None,
        None,
        "strc: Read\na:b: cannot be opened\n",
    ),
    (
        "strc id.str a%b",
        None,
        None,
        "strc: Read\na%b: too many open files\n",
    ),
    (
        "strc id.str a\u{202e}b",
        None,
        None,
        "strc: Read\na?b: no such file or directory\n",
    ),
    (
        "strc id.str",
        Some(ErrorKind::IsADirectory),
        None,
        "strc: Read\nstdin: is a directory\n",
    ),
    (
        "strc",
        Some(ErrorKind::Uncategorized),
        None,
        "strc: Read\nstdin: reading failed\n",
    ),
    (
        "strc folder/",
        Some(ErrorKind::TimedOut),
        None,
        "strc: Read\nfolder/: is a directory\n",
    ),
    (
        "strc id.str",
        None,
        Some(ErrorKind::StorageFull),
        "strc: Write\nstdout: no space left on device\n",
    ),
    (
        "strc --stats id.str",
        None,
        Some(ErrorKind::Other),
        "strc: Write\nstdout: writing failed\n",
    ),
    (
        "strc --version",
        None,
        Some(ErrorKind::StorageFull),
        "strc: Write\nstdout: no space left on device\n",
    ),
    ("strc id.str", None, Some(ErrorKind::BrokenPipe), ""),
    (
        "strc --rules 0 id.str",
        None,
        Some(ErrorKind::BrokenPipe),
        "",
    ),
    ("strc bad.str", None, Some(ErrorKind::BrokenPipe), ""),
    ("strc --help", None, Some(ErrorKind::BrokenPipe), ""),
    (
        "strc id.str",
        Some(ErrorKind::BrokenPipe),
        None,
        "strc: Read\nstdin: reading failed\n",
    ),
];

/// Returns which call fails first: the first one, where there is a kind.
fn first_call(kind: Option<ErrorKind>) -> Option<u64>
    ensures { IfSome result (λ n. 1 ≤ n) }
{
    match kind {
        Some(_) => Some(1),
        None => None,
    }
}

/// Returns a reader of a term, whose reads fail so.
fn reader(alloc: Global, kind: Option<ErrorKind>) -> Result<Device, AllocError> {
    let memory = Faulty::reader(b"7".to_vec(alloc)?, 5, first_call(kind));
    Ok(Device::new(memory, kind.unwrap_or(ErrorKind::Other)))
}

/// Returns a writer, whose writes fail so.
fn writer(alloc: Global, kind: Option<ErrorKind>) -> Result<Device, AllocError> {
    let memory = Faulty::writer(alloc, 4096, 3, first_call(kind), false)?;
    Ok(Device::new(memory, kind.unwrap_or(ErrorKind::Other)))
}

/// Whether a run of this row stops with status 4 and this report.
fn is_reported(alloc: Global, row: &Row) -> Result<bool, AllocError> {
    let (line, reading, writing, report) = row;
    let mut input = reader(alloc, *reading)?;
    let mut out = writer(alloc, *writing)?;
    let mut diagnostics = Faulty::writer(alloc, 4096, 3, None, false)?;
    let status = run_with(alloc, line, &mut input, &mut out, &mut diagnostics)?;
    Ok(status == 4 && diagnostics.written() == report.as_bytes())
}

#[test]
fn causes_of_status_4(rt: HostRuntime) -> Result<(), Fail> {
    for row in ROWS {
        if !is_reported(rt.alloc(), row)? {
            return Err(Fail::new(row.0));
        }
    }
    Ok(())
}
