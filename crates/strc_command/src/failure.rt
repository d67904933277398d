//! What failed and why, for a person.
use crate::names::shown_name;
use crate::opening::PRELUDE_WORD;
use crate::paths::Paths;
use crate::report::Reporting;
use std::alloc::Global;
use std::io::ErrorKind;

/// What standard output is called.
const OUTPUT: &str = "stdout";

/// What is said next where the installed prelude cannot be opened.
const OTHER_FILES: &str = "hint: without an installation write --with share/strc/prelude.str\n";

/// What could not be opened, read or written, and why.
#[derive(Clone, Copy, Drop)]
pub(crate) struct Failure<'a> {
    name: &'a str,
    why: &'static str,
    /// Nothing, or a line that says what else to do.
    hint: &'static str,
}

impl<'a> Failure<'a> {
    /// A file that could not be opened.
    pub(crate) fn of_opening<P: Paths>(path: &'a str, paths: &P) -> Failure<'a> {
        Failure {
            name: path,
            why: why_unopened(paths),
            hint: "",
        }
    }

    /// A file in front of the definitions that could not be opened; where it is the installed prelude a hint names the file of the repository.
    pub(crate) fn of_library<P: Paths>(path: &'a str, paths: &P, is_prelude: bool) -> Failure<'a> {
        Failure {
            name: path,
            why: why_unopened(paths),
            hint: if is_prelude { OTHER_FILES } else { "" },
        }
    }

    /// The installed prelude, if its place is not known.
    pub(crate) fn of_prelude() -> Failure<'static> {
        Failure {
            name: PRELUDE_WORD,
            why: "the place of the program is not known",
            hint: OTHER_FILES,
        }
    }

    /// A text that could not be read: the definitions, where they know of a failure, and else the term.
    pub(crate) fn of_reading(
        reporting: Reporting<'a>,
        definitions: Option<ErrorKind>,
        term: Option<ErrorKind>,
    ) -> Failure<'a> {
        let (name, kind) = match definitions {
            Some(_) => (reporting.name_in_progress(), definitions),
            None => (reporting.term, term),
        };
        Failure {
            name,
            why: text_of(kind, "reading failed"),
            hint: "",
        }
    }

    /// Standard output, which could not be written.
    pub(crate) fn of_writing(kind: Option<ErrorKind>) -> Failure<'a> {
        Failure {
            name: OUTPUT,
            why: text_of(kind, "writing failed"),
            hint: "",
        }
    }

    /// Returns the lines that say so, with their line feeds; nothing where memory for them is refused.
    pub(crate) fn line(self, alloc: Global) -> Option<String> {
        let Failure { name, why, hint } = self;
        let name = shown_name(alloc, name).ok()?;
        format!(in alloc; "{name}: {why}\n{hint}").ok()
    }
}

/// Returns why the last file that failed to open did so.
fn why_unopened<P: Paths>(paths: &P) -> &'static str {
    if paths.has_too_many_open() {
        return "too many open files";
    }
    text_of(paths.failure(), "cannot be opened")
}

/// Returns what an error of this kind is called, or the other text where a person learns nothing from the kind.
fn text_of(kind: Option<ErrorKind>, otherwise: &'static str) -> &'static str {
    match kind {
        Some(ErrorKind::NotFound) => "no such file or directory",
        Some(ErrorKind::PermissionDenied) => "permission denied",
        Some(ErrorKind::IsADirectory) => "is a directory",
        Some(ErrorKind::NotADirectory) => "not a directory",
        Some(ErrorKind::FilesystemLoop) => "too many symbolic links",
        Some(ErrorKind::InvalidFilename) => "file name too long",
        Some(ErrorKind::StorageFull) => "no space left on device",
        Some(ErrorKind::QuotaExceeded) => "disk quota exceeded",
        Some(ErrorKind::FileTooLarge) => "file too large",
        Some(ErrorKind::Interrupted) => "interrupted",
        Some(ErrorKind::TimedOut) => "timed out",
        Some(ErrorKind::WouldBlock) => "it is non-blocking, and not ready",
        _ => otherwise,
    }
}
