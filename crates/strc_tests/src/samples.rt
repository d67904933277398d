//! Files in memory, and a run over them.
ghost use Rattle.std.specs.Prelude.{◌≤◌, None, IfSome};

use keyed_hash::HashKeys;
use std::alloc::{AllocError, Global};
use std::io::ErrorKind;
use str_pipeline::{Faulty, Sink, Source};
use strc_command::{Paths, run_standard};
use term_model::Fault;

/// The files: path and text.
const FILES: [(&str, &str); 8] = [
    ("id.str", "strategies main = id"),
    ("first.str", "strategies main = ?(x,_); !x go = id"),
    ("sum.str", "strategies main = ?(x, y); prim(\"add\", x, y)"),
    ("bad.str", "strategies main = foo"),
    ("loop.str", "strategies main = rec x(x)"),
    ("use.str", "strategies\n  main = twice"),
    ("pair.trm", "(7,f(1))"),
    (
        "home/share/strc/prelude.str",
        "strategies twice = ?x; !(x, x)",
    ),
];

/// A device in memory that knows why its calls fail.
#[derive(Drop)]
pub(crate) struct Device {
    memory: Faulty,
    kind: ErrorKind,
    failure: Option<ErrorKind>,
    is_broken_pipe: bool,
}

impl Device {
    /// Makes a device of this one, whose calls fail with errors of this kind.
    pub(crate) fn new(memory: Faulty, kind: ErrorKind) -> Device {
        Device {
            memory,
            kind,
            failure: None,
            is_broken_pipe: false,
        }
    }
}

impl Source for Device {
    ghost reader = { record {
      coming = λ d. None;
      reads = λ d. ⟦<Faulty as Source>⟧.reader.reads d.memory;
      failed_reads = λ d. ⟦<Faulty as Source>⟧.reader.failed_reads d.memory;
    } };

    fn read(&mut self, piece: &mut [u8]) -> Option<usize> {
        let count = self.memory.read(piece);
        if count.is_none() {
            self.failure = Some(self.kind);
        }
        count
    }

    fn failure(&self) -> Option<ErrorKind> {
        self.failure
    }
}

impl Sink for Device {
    ghost writer = { record {
      written = λ d. ⟦<Faulty as Sink>⟧.writer.written d.memory;
      writes = λ d. ⟦<Faulty as Sink>⟧.writer.writes d.memory;
      failed_writes = λ d. ⟦<Faulty as Sink>⟧.writer.failed_writes d.memory;
      is_closed = λ d. d.is_broken_pipe;
    } };

    fn write(&mut self, text: &[u8]) -> Option<usize> {
        let count = self.memory.write(text);
        if count.is_none() {
            self.failure = Some(self.kind);
            self.is_broken_pipe = self.kind == ErrorKind::BrokenPipe;
        }
        count
    }

    fn is_closed(&self) -> bool {
        self.is_broken_pipe
    }

    fn failure(&self) -> Option<ErrorKind> {
        self.failure
    }
}

/// Opens the files. A path that ends with a slash is one of a folder, which can be opened and not read; one with a colon cannot be opened,
/// for a reason without a name, and one with a percent sign cannot, since too many files are open.
#[derive(Drop)]
pub(crate) struct Shelf {
    pub(crate) alloc: Global,
    /// The path of the running program.
    pub(crate) program: Option<&'static str>,
    failure: Option<ErrorKind>,
    is_full: bool,
}

impl Shelf {
    pub(crate) fn new(alloc: Global) -> Shelf {
        Shelf {
            alloc,
            program: Some("home/bin/strc"),
            failure: None,
            is_full: false,
        }
    }
}

/// Returns why the path, which is none of a file, cannot be opened.
fn refusal_of(path: &str) -> ErrorKind {
    if path.contains([':', '%']) {
        return ErrorKind::Uncategorized;
    }
    ErrorKind::NotFound
}

impl Paths for Shelf {
    type Reader = Device;

    ghost text_at = { λ shelf path. None };

    fn open(&mut self, path: &str) -> Result<Device, Fault> {
        if path.ends_with('/') {
            let memory = Faulty::reader(Vec::new(self.alloc), 5, Some(1));
            return Ok(Device::new(memory, ErrorKind::IsADirectory));
        }
        for (name, text) in FILES {
            if name == path {
                let memory = Faulty::reader(text.as_bytes().to_vec(self.alloc)?, 5, None);
                return Ok(Device::new(memory, ErrorKind::Other));
            }
        }
        self.failure = Some(refusal_of(path));
        self.is_full = path.contains('%');
        Err(Fault::Read)
    }

    fn program(&self, alloc: Global) -> Result<Option<String>, AllocError> {
        match self.program {
            Some(path) => Ok(Some(String::from_str(alloc, path)?)),
            None => Ok(None),
        }
    }

    fn failure(&self) -> Option<ErrorKind> {
        self.failure
    }

    fn has_too_many_open(&self) -> bool {
        self.is_full
    }
}

/// What a run has left.
#[derive(Drop)]
pub(crate) struct Ran {
    pub(crate) status: u8,
    pub(crate) out: Faulty,
    pub(crate) diagnostics: Faulty,
}

/// Returns the words between single blanks.
pub(crate) fn words_of(alloc: Global, line: &str) -> Result<Vec<String>, AllocError> {
    let mut words = Vec::new(alloc);
    for word in line.split(' ') {
        words.push(String::from_str(alloc, word)?)?;
    }
    Ok(words)
}

/// Runs the program with these words and this standard input. From their first bad call on, reads of standard input and writes fail.
pub(crate) fn run_on(
    alloc: Global,
    line: &str,
    input: &[u8],
    bad_read: Option<u64>,
    bad_write: Option<u64>,
    bad_diagnostic: Option<u64>,
) -> Result<Ran, AllocError>
    requires read { IfSome bad_read (λ n. 1 ≤ n) }
    requires write { IfSome bad_write (λ n. 1 ≤ n) }
    requires diagnostic { IfSome bad_diagnostic (λ n. 1 ≤ n) }
{
    let mut input = Faulty::reader(input.to_vec(alloc)?, 5, bad_read);
    let mut out = Faulty::writer(alloc, 4096, 3, bad_write, false)?;
    let mut diagnostics = Faulty::writer(alloc, 4096, 3, bad_diagnostic, false)?;
    let status = run_with(alloc, line, &mut input, &mut out, &mut diagnostics)?;
    Ok(Ran {
        status,
        out,
        diagnostics,
    })
}

/// Runs the program with these words over these devices, and returns its status.
pub(crate) fn run_with<I: Source, W: Sink>(
    alloc: Global,
    line: &str,
    input: &mut I,
    out: &mut W,
    diagnostics: &mut Faulty,
) -> Result<u8, AllocError> {
    let words = Ok(words_of(alloc, line)?);
    let mut paths = Shelf::new(alloc);
    Ok(run_standard(
        alloc,
        HashKeys::known(),
        &words,
        &mut paths,
        input,
        out,
        diagnostics,
    ))
}

/// Returns the first bad call of a row. Calls are counted from 1 on.
pub(crate) fn bad_call(call: Option<u64>) -> Option<u64>
    ensures { IfSome result (λ n. 1 ≤ n) }
{
    match call {
        Some(number) => Some(number.max(1)),
        None => None,
    }
}
