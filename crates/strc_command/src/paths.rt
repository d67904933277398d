//! Where files are opened.
ghost use Rattle.std.specs.Prelude.{◌≡◌, ℕ, List, None, Option, IfErr, IfOk};
ghost use Rattle.str_pipeline.specs.Faults.{IsReadingFault};

use std::alloc::{AllocError, Global};
use std::fs::{self, File};
use std::io::{Error, ErrorKind};
use str_pipeline::{Counted, Source};
use term_model::Fault;

/// Opens files by their paths.
pub trait Paths {
    /// What an opened file is read through.
    type Reader: Source + Drop;

    /// The bytes of the file at a path, where that is known.
    ghost text_at: { Self → List ℕ → Option (List ℕ) };

    /// Opens the file at this path, to be read from its beginning. The fault is `Read` where it cannot be opened, or `Memory`.
    fn open(&mut self, path: &str) -> Result<Self::Reader, Fault>
        ensures fault { IfErr result IsReadingFault }
        ensures text { IfOk result
            (λ reader. Self.Reader.reader.coming reader ≡ text_at self.old path.now) }
        ensures kept { (other : List ℕ) → text_at self.new other ≡ text_at self.old other };

    /// Returns the path of the running program; nothing where that is not known. The error is one of memory.
    fn program(&self, alloc: Global) -> Result<Option<String>, AllocError>;

    /// Why the last file that failed to open did so, for a person; nothing where that is not known. No clause speaks of it.
    fn failure(&self) -> Option<ErrorKind> {
        None
    }

    /// Whether it did so since too many files are open. No clause speaks of it.
    fn has_too_many_open(&self) -> bool {
        false
    }
}

/// The files of the system.
#[derive(Drop)]
pub struct Files<'a> {
    runtime: &'a HostRuntime,
    failure: Option<Error>,
}

/// The numbers of the errors of too many open files.
const ENFILE: i32 = 23;

const EMFILE: i32 = 24;

/// What the system calls the running program.
const PROGRAM: &str = "/proc/self/exe";

impl<'a> Files<'a> {
    /// Opens files through this runtime. No file has failed to open yet.
    pub fn new(runtime: &'a HostRuntime) -> Files<'a> {
        Files {
            runtime,
            failure: None,
        }
    }
}

impl Paths for Files<'_> {
    type Reader = Counted<File>;

    ghost text_at = { λ files path. None };

    fn open(&mut self, path: &str) -> Result<Counted<File>, Fault> {
        match fs::open(self.runtime, path) {
            Ok(file) => Ok(Counted::new(file)),
            Err(error) if error.kind() == ErrorKind::OutOfMemory => Err(Fault::Memory),
            Err(error) => {
                self.failure = Some(error);
                Err(Fault::Read)
            }
        }
    }

    fn program(&self, alloc: Global) -> Result<Option<String>, AllocError> {
        match fs::read_link(self.runtime, PROGRAM) {
            Ok(program) => Ok(Some(String::from_str(alloc, program.as_str())?)),
            Err(error) if error.kind() == ErrorKind::OutOfMemory => Err(AllocError),
            Err(_) => Ok(None),
        }
    }

    fn failure(&self) -> Option<ErrorKind> {
        self.failure.map(|error| error.kind())
    }

    /// Of these errors, ENFILE is one of the whole system, and EMFILE one of the program.
    fn has_too_many_open(&self) -> bool {
        let Some(error) = self.failure else {
            return false;
        };
        matches!(error.raw_os_error(), Some(ENFILE | EMFILE))
    }
}

/// Returns the path of a file that is installed with the program at this path: `PREFIX/share/strc/prelude.str`, say, for `PREFIX/bin/strc`.
/// Nothing if the path of the program has fewer than two folders.
fn beside(alloc: Global, program: &str, path: &str) -> Result<Option<String>, AllocError> {
    let Some((folder, _)) = program.rsplit_once('/') else {
        return Ok(None);
    };
    let Some((prefix, _)) = folder.rsplit_once('/') else {
        return Ok(None);
    };
    Ok(Some(format!(in alloc; "{prefix}/{path}")?))
}

/// Returns the path of a file that is installed with the program, whether or not it is there; nothing where the place of the program is not
/// known. The file is named by its path in the folder that contains the folder `bin` of the program. The error is one of memory.
pub(crate) fn installed<P: Paths>(
    alloc: Global,
    paths: &P,
    path: &str,
) -> Result<Option<String>, AllocError> {
    match paths.program(alloc)? {
        Some(program) => beside(alloc, program.as_str(), path),
        None => Ok(None),
    }
}
