//! The prelude that is installed with the program, by the path of the program, and files in front of the joined form.

use crate::samples::{Shelf, run_on, words_of};
use keyed_hash::HashKeys;
use std::alloc::{AllocError, Global};
use std::test::Fail;
use str_pipeline::Faulty;
use strc_command::run_standard;

/// The path of the running program, and what is reported where `--with prelude` asks for the prelude that is installed with it.
const PRELUDES: &[(Option<&str>, &str)] = &[
    (Some("home/bin/strc"), ""),
    (
        Some("away/bin/strc"),
        "strc: Read\naway/share/strc/prelude.str: no such file or directory\nhint: without an installation write --with share/strc/prelude.str\n",
    ),
    (
        Some("/usr/local/bin/strc"),
        "strc: Read\n/usr/local/share/strc/prelude.str: no such file or directory\nhint: without an installation write --with share/strc/prelude.str\n",
    ),
    (
        Some("/bin/strc"),
        "strc: Read\n/share/strc/prelude.str: no such file or directory\nhint: without an installation write --with share/strc/prelude.str\n",
    ),
    (Some("/strc"), UNKNOWN_PLACE),
    (Some("strc"), UNKNOWN_PLACE),
    (None, UNKNOWN_PLACE),
];

/// What is reported where the place of the program is not known, or is in no folder of a folder.
const UNKNOWN_PLACE: &str =
    "strc: Read\nprelude: the place of the program is not known\nhint: without an installation write --with share/strc/prelude.str\n";

/// Whether this is reported where `--with prelude` asks for the prelude that is installed with the program at this path.
fn is_reported(
    alloc: Global,
    program: Option<&'static str>,
    report: &str,
) -> Result<bool, AllocError> {
    let words = Ok(words_of(alloc, "strc --with prelude use.str")?);
    let mut paths = Shelf::new(alloc);
    paths.program = program;
    let mut input = Faulty::reader(b"5".to_vec(alloc)?, 5, None);
    let mut out = Faulty::writer(alloc, 100, 3, None, false)?;
    let mut diagnostics = Faulty::writer(alloc, 200, 3, None, false)?;
    let status = run_standard(
        alloc,
        HashKeys::known(),
        &words,
        &mut paths,
        &mut input,
        &mut out,
        &mut diagnostics,
    );
    let expected = if report.is_empty() { 0 } else { 4 };
    Ok(status == expected && diagnostics.written() == report.as_bytes())
}

#[test]
fn preludes(rt: HostRuntime) -> Result<(), Fail> {
    for (program, report) in PRELUDES {
        if !is_reported(rt.alloc(), *program, report)? {
            return Err(Fail::new(report));
        }
    }
    Ok(())
}

/// The words and standard input; the status, the output, and a beginning of the report.
type Row = (&'static str, &'static str, u8, &'static str, &'static str);

/// Runs and checks of standard input in the joined form, in front of which files are read.
const JOINED: &[Row] = &[
    (
        "strc --with prelude",
        "strategies main = twice\n#term\n5",
        0,
        "(5,5)\n",
        "",
    ),
    (
        "strc --with use.str --with prelude",
        "#term\n5",
        0,
        "(5,5)\n",
        "",
    ),
    (
        "strc --with prelude",
        "strategies\n main = foo\n#term\n5",
        2,
        "#refused UnknownStrategy\n",
        "strc: UnknownStrategy\nstdin:2:9: ",
    ),
    (
        "strc --with bad.str",
        "#term\n5",
        2,
        "#refused UnknownStrategy\n",
        "strc: UnknownStrategy\nbad.str:1:19: ",
    ),
    (
        "strc --with id.str",
        "\n#term\n(",
        2,
        "#refused TermSyntax\n",
        "strc: TermSyntax at byte 1\nstdin:3:2: ",
    ),
    (
        "strc --with folder/",
        "strategies main = id\n#term\n5",
        4,
        "",
        "strc: Read\nfolder/: is a directory\n",
    ),
    (
        "strc --with nowhere",
        "#term\n5",
        4,
        "",
        "strc: Read\nnowhere: no such file or directory\n",
    ),
    (
        "strc --check --with prelude",
        "strategies main = twice\n#term\n(",
        0,
        "",
        "",
    ),
    ("strc --check", "strategies main = id\n#term\n(", 0, "", ""),
    (
        "strc --check --with prelude",
        "strategies main = foo",
        2,
        "",
        "strc: UnknownStrategy\nstdin:1:19: ",
    ),
];

/// Whether a run of the row ends so.
fn is_met(alloc: Global, row: &Row) -> Result<bool, AllocError> {
    let (line, input, status, out, report) = row;
    let ran = run_on(alloc, line, input.as_bytes(), None, None, None)?;
    Ok(
        ran.status == *status
            && ran.out.written() == out.as_bytes()
            && ran.diagnostics.written().starts_with(report.as_bytes()),
    )
}

#[test]
fn files_in_front_of_the_joined_form(rt: HostRuntime) -> Result<(), Fail> {
    for row in JOINED {
        if !is_met(rt.alloc(), row)? {
            return Err(Fail::from((row.0, row.1)));
        }
    }
    Ok(())
}
