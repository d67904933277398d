//! Standard streams that fail from some call on.
ghost use Rattle.std.specs.Prelude.{◌≤◌};

use crate::samples::{Ran, bad_call, run_on};
use std::alloc::{AllocError, Global};
use std::test::Fail;

/// The words and standard input, its first bad read and the first bad write; the status, the output, and the report, which goes on if the
/// row's does not end with a line feed.
type Row = (
    &'static str,
    &'static str,
    Option<u64>,
    Option<u64>,
    u8,
    &'static str,
    &'static str,
);

/// What is reported where standard input fails.
const READ: &str = "strc: Read\nstdin: reading failed\n";

/// What is reported where standard output fails.
const WRITE: &str = "strc: Write\nstdout: writing failed\n";

const JOINED: &str = "strategies main = id\n#term\n1";

const ROWS: &[Row] = &[
    ("strc", JOINED, Some(1), None, 4, "", READ),
    ("strc", JOINED, None, Some(1), 4, "", WRITE),
    ("strc --check", "strategies", Some(1), None, 4, "", READ),
    ("strc --help", "", None, Some(1), 4, "", WRITE),
    ("strc --version", "", None, Some(2), 4, "str", WRITE),
    ("strc first.str pair.trm", "", None, Some(1), 4, "", WRITE),
    (
        "strc --nope",
        "",
        None,
        Some(1),
        5,
        "",
        "error: unexpected argument '--nope' found",
    ),
    ("strc --raw id.str", "\"a\"", None, Some(1), 4, "", WRITE),
    ("strc --pretty id.str", "\"a\"", None, Some(1), 4, "", WRITE),
    (
        "strc --raw --stats --explain id.str",
        "\"a\"",
        None,
        Some(1),
        4,
        "",
        WRITE,
    ),
    (
        "strc --pretty bad.str",
        "\"a\"",
        None,
        Some(1),
        4,
        "",
        WRITE,
    ),
];

/// Whether this is the status and the output.
fn has_answer(ran: &Ran, status: u8, out: &str) -> bool {
    ran.status == status && ran.out.written() == out.as_bytes()
}

/// Whether this is reported.
fn has_report(ran: &Ran, report: &str) -> bool {
    let reported = ran.diagnostics.written();
    if report.ends_with('\n') {
        reported == report.as_bytes()
    } else {
        reported.starts_with(report.as_bytes())
    }
}

/// Returns what a run of the row leaves, with this first bad write of its report.
fn ran_of(alloc: Global, row: &Row, bad_diagnostic: Option<u64>) -> Result<Ran, AllocError> {
    let (line, text, read, write, _, _, _) = row;
    let (read, write) = (bad_call(*read), bad_call(*write));
    run_on(
        alloc,
        line,
        text.as_bytes(),
        read,
        write,
        bad_call(bad_diagnostic),
    )
}

/// Whether a run of the row ends so.
fn is_met(alloc: Global, row: &Row) -> Result<bool, AllocError> {
    let (_, _, _, _, status, out, report) = row;
    let ran = ran_of(alloc, row, None)?;
    Ok(has_answer(&ran, *status, out) && has_report(&ran, report))
}

/// Whether it ends so where nothing can be reported.
fn is_met_silently(alloc: Global, row: &Row) -> Result<bool, AllocError> {
    let (_, _, _, _, status, out, _) = row;
    let ran = ran_of(alloc, row, Some(1))?;
    Ok(has_answer(&ran, *status, out))
}

#[test]
fn failing_calls(rt: HostRuntime) -> Result<(), Fail> {
    for row in ROWS {
        if !is_met(rt.alloc(), row)? || !is_met_silently(rt.alloc(), row)? {
            return Err(Fail::from((row.0, row.1)));
        }
    }
    Ok(())
}

/// The words and standard input; the status and the output.
type Answer = (&'static str, &'static str, u8, &'static str);

/// Runs that report something, or would with other terms.
const ANSWERS: &[Answer] = &[
    ("strc --explain", "strategies main = id\n#term\n7", 0, "7\n"),
    (
        "strc --explain",
        "strategies main = ?(x,_); !x\n#term\n7",
        1,
        "#failed\n",
    ),
    ("strc first.str --explain", "8", 1, "#failed\n"),
    (
        "strc --explain",
        "strategies main = repeat(\\ x -> [x] \\)\n#term\n7",
        3,
        "#oversize\n",
    ),
    (
        "strc --explain",
        "strategies main = repeat(\\ x -> [x,x] \\)\n#term\n7",
        3,
        "#oversize\n",
    ),
    ("strc --rules 90 loop.str --explain", "7", 3, "#spent\n"),
    (
        "strc --explain",
        "strategies main = foo\n#term\n7",
        2,
        "#refused UnknownStrategy\n",
    ),
];

/// Whether the answer is the same where this write of the report fails.
fn ends_silently(alloc: Global, row: &Answer, bad: u64) -> Result<bool, AllocError>
    requires { 1 ≤ bad }
{
    let (line, input, status, out) = row;
    let ran = run_on(alloc, line, input.as_bytes(), None, None, Some(bad))?;
    Ok(has_answer(&ran, *status, out))
}

#[test]
fn answers_without_a_report(rt: HostRuntime) -> Result<(), Fail> {
    for row in ANSWERS {
        for bad in [1, 2, 20, 30] {
            if !ends_silently(rt.alloc(), row, bad)? {
                return Err(Fail::from((row.0, row.1)));
            }
        }
    }
    Ok(())
}

/// Whether a refusal stays the same where this write of its report fails.
fn is_refused_silently(alloc: Global, bad: u64) -> Result<bool, AllocError>
    requires { 1 ≤ bad }
{
    let ran = run_on(alloc, "strc", b"#\n#term\n1", None, None, Some(bad))?;
    Ok(ran.status == 2 && ran.out.written() == b"#refused Lexical\n".as_slice())
}

#[test]
fn a_failing_diagnostic_changes_nothing(rt: HostRuntime) -> Result<(), Fail> {
    for bad in 1..5u64 {
        if !is_refused_silently(rt.alloc(), bad)? {
            return Err(Fail::new(bad));
        }
    }
    Ok(())
}
