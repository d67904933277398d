//! What the words ask for.
use crate::samples::words_of;
use std::alloc::{AllocError, Global};
use std::test::Fail;
use strc_command::{Form, Misuse, OutputOptions, Texts, Unasked, error_of, request_of};

/// What is asked for, with blanks between the words for libraries.
#[derive(Clone, Copy)]
struct Wanted {
    rules: u64,
    main: &'static str,
    is_strict: bool,
    checks: bool,
    output: OutputOptions,
    libraries: &'static str,
    texts: Texts<'static>,
}

/// What is written and reported where nothing more is asked for.
const PLAIN: OutputOptions = OutputOptions {
    form: Form::Line,
    has_stats: false,
    explains: false,
    has_counts: false,
    has_all_counts: false,
    has_profile: false,
    has_traces: false,
    only_failures: false,
};

/// What is asked for where no word is.
const JOINED: Wanted = Wanted {
    rules: 1_000_000,
    main: "main",
    is_strict: false,
    checks: false,
    output: PLAIN,
    libraries: "",
    texts: Texts::Joined,
};

/// The same over these two files.
const BOTH: Wanted = Wanted {
    texts: Texts::Both("a.str", "b.trm"),
    ..JOINED
};

/// Words, and what they ask for.
const REQUESTS: &[(&str, Wanted)] = &[
    ("strc", JOINED),
    (
        "strc a.str",
        Wanted {
            texts: Texts::Definitions("a.str"),
            ..JOINED
        },
    ),
    ("strc a.str b.trm", BOTH),
    ("strc --main go a.str b.trm", Wanted { main: "go", ..BOTH }),
    ("strc a.str --main=go b.trm", Wanted { main: "go", ..BOTH }),
    ("strc --main  a.str b.trm", Wanted { main: "", ..BOTH }),
    ("strc --main= a.str b.trm", Wanted { main: "", ..BOTH }),
    (
        "strc --main -x- a.str b.trm",
        Wanted {
            main: "-x-",
            ..BOTH
        },
    ),
    (
        "strc --main --strict a.str b.trm",
        Wanted {
            main: "--strict",
            ..BOTH
        },
    ),
    (
        "strc -- -a --strict",
        Wanted {
            texts: Texts::Both("-a", "--strict"),
            ..JOINED
        },
    ),
    (
        "strc -",
        Wanted {
            texts: Texts::Definitions("-"),
            ..JOINED
        },
    ),
    ("strc --rules 0", Wanted { rules: 0, ..JOINED }),
    ("strc --rules=1000000", JOINED),
    (
        "strc --rules 1000000000",
        Wanted {
            rules: 1_000_000_000,
            ..JOINED
        },
    ),
    (
        "strc --no-limit a.str b.trm",
        Wanted {
            rules: 1_000_000_000_000_000_000,
            ..BOTH
        },
    ),
    ("strc --rules -0", Wanted { rules: 0, ..JOINED }),
    ("strc --rules +5", Wanted { rules: 5, ..JOINED }),
    ("strc --rules 0007", Wanted { rules: 7, ..JOINED }),
    (
        "strc --stats a.str b.trm",
        Wanted {
            output: OutputOptions {
                has_stats: true,
                ..PLAIN
            },
            ..BOTH
        },
    ),
    (
        "strc --explain a.str b.trm",
        Wanted {
            output: OutputOptions {
                explains: true,
                ..PLAIN
            },
            ..BOTH
        },
    ),
    (
        "strc --explain --stats",
        Wanted {
            output: OutputOptions {
                has_stats: true,
                explains: true,
                ..PLAIN
            },
            ..JOINED
        },
    ),
    (
        "strc --check --main go a.str",
        Wanted {
            main: "go",
            checks: true,
            texts: Texts::Definitions("a.str"),
            ..JOINED
        },
    ),
    (
        "strc --with lib.str a.str b.trm",
        Wanted {
            libraries: "lib.str",
            ..BOTH
        },
    ),
    (
        "strc --with lib.str --with prelude",
        Wanted {
            libraries: "lib.str prelude",
            ..JOINED
        },
    ),
    (
        "strc --check --with lib.str",
        Wanted {
            checks: true,
            libraries: "lib.str",
            ..JOINED
        },
    ),
    (
        "strc --raw a.str b.trm",
        Wanted {
            output: OutputOptions {
                form: Form::Raw,
                ..PLAIN
            },
            ..BOTH
        },
    ),
    (
        "strc --with=-x a.str --with=prelude b.trm --with prelude.str",
        Wanted {
            libraries: "-x prelude prelude.str",
            ..BOTH
        },
    ),
    (
        "strc --pretty a.str b.trm",
        Wanted {
            output: OutputOptions {
                form: Form::Pretty,
                ..PLAIN
            },
            ..BOTH
        },
    ),
    (
        "strc --strict --rules 5 a.str b.trm",
        Wanted {
            rules: 5,
            is_strict: true,
            ..BOTH
        },
    ),
];

/// Whether the words ask for this.
fn ask_for(alloc: Global, line: &str, wanted: &Wanted) -> Result<bool, Fail> {
    let words = words_of(alloc, line)?;
    let request = request_of(alloc, &words)?;
    let libraries = words_of(alloc, wanted.libraries)?;
    let are_flags = request.is_strict == wanted.is_strict
        && request.checks == wanted.checks
        && request.output == wanted.output;
    let are_values = request.rules == wanted.rules && request.main == wanted.main;
    let count = request.libraries.len();
    let are_libraries = if wanted.libraries.is_empty() {
        count == 0
    } else {
        count == libraries.len()
            && request
                .libraries
                .iter()
                .zip(&libraries)
                .all(|(asked, word)| *asked == word.as_str())
    };
    Ok(are_flags && are_values && are_libraries && request.texts == wanted.texts)
}

#[test]
fn requests(rt: HostRuntime) -> Result<(), Fail> {
    for (line, wanted) in REQUESTS {
        if !ask_for(rt.alloc(), line, wanted)? {
            return Err(Fail::new(line));
        }
    }
    Ok(())
}

/// Words that ask for no run, and why. (Rows of `crates/strc/rows` have what is said.)
const REFUSALS: &[(&str, Unasked)] = &[
    ("strc --rules 1000000001", Unasked::Words),
    ("strc --rules -1", Unasked::Words),
    ("strc --rules many", Unasked::Words),
    ("strc --rules  a.str", Unasked::Words),
    ("strc --rules", Unasked::Words),
    ("strc --with --strict a.str", Unasked::Words),
    ("strc --strict=yes", Unasked::Words),
    ("strc --stric", Unasked::Words),
    ("strc -a", Unasked::Words),
    ("strc a b c", Unasked::Words),
    ("strc --strict --strict", Unasked::Words),
    ("strc --main a --main b", Unasked::Words),
    ("strc --help", Unasked::Words),
    ("strc --version", Unasked::Words),
    (
        "strc --no-limit --rules 5",
        Unasked::Misuse(Misuse::TwoLimits),
    ),
    ("strc --pretty --raw", Unasked::Misuse(Misuse::TwoForms)),
    ("strc --check --raw a", Unasked::Misuse(Misuse::FormOfCheck)),
    ("strc --check a b", Unasked::Misuse(Misuse::TermOfCheck)),
    (
        "strc --with a --with a",
        Unasked::Misuse(Misuse::RepeatedFile),
    ),
    ("strc --with a a", Unasked::Misuse(Misuse::RepeatedFile)),
];

/// Whether the words ask for no run, for this reason.
fn are_refused(alloc: Global, line: &str, why: Unasked) -> Result<bool, AllocError> {
    let words = words_of(alloc, line)?;
    match request_of(alloc, &words) {
        Ok(_) => Ok(false),
        Err(unasked) => Ok(unasked == why),
    }
}

#[test]
fn refusals_of_words(rt: HostRuntime) -> Result<(), Fail> {
    for (line, why) in REFUSALS {
        if !are_refused(rt.alloc(), line, *why)? {
            return Err(Fail::new(line));
        }
    }
    Ok(())
}

/// Words that are read in each order, two and two after one of these beginnings.
const BEGINNINGS: &[&str] = &[
    "strc ",
    "strc --rules ",
    "strc --main ",
    "strc --with ",
    "strc -- ",
];

const WORDS: &[&str] = &[
    "",
    "a",
    "-",
    "--",
    "--rules",
    "--rules=7",
    "--rules=",
    "7",
    "+7",
    "-7",
    "-0",
    "7x",
    "--main",
    "--main=x",
    "--main=",
    "--with",
    "--with=-x",
    "--strict",
    "--strict=",
    "--no-limit",
    "--check",
    "--raw",
    "--nope",
    "--=x",
    "-h",
    "--help",
    "-V",
    "--version",
    "-x",
    "--rules=1000000001",
    "--explain",
];

/// Whether these words are found wrong where they are read for a run exactly if they are where the text on them is made.
fn is_agreed(alloc: Global, line: &str) -> Result<bool, Fail> {
    let words = words_of(alloc, line)?;
    let is_wrong = match request_of(alloc, &words) {
        Err(Unasked::Words) => true,
        _ => false,
    };
    Ok(is_wrong == error_of(alloc, &words).is_some())
}

#[test]
fn words_are_read_alike(rt: HostRuntime) -> Result<(), Fail> {
    let alloc = rt.alloc();
    for beginning in BEGINNINGS {
        for first in WORDS {
            for second in WORDS {
                let line = format!(in alloc; "{beginning}{first} {second}")?;
                if !is_agreed(alloc, line.as_str())? {
                    return Err(Fail::new(first));
                }
            }
        }
    }
    Ok(())
}
