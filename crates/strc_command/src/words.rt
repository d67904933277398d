//! The words of the command line, as the system gives them.
ghost use Rattle.std.specs.Prelude.{◌≡◌, ◌⊎◌};
ghost use Rattle.term_model.specs.declared.fault.Fault.TheVariants.{Memory};
ghost use Rattle.strc_command.specs.Report.{Tells};
ghost use Rattle.strc_command.specs.Runs.{Told, change};

use crate::stopping::stop;
use std::env;
use std::io::{self, ErrorKind};
use str_pipeline::{Sink, write_all};
use term_model::Fault;

/// Returns the words of the command line, of which the first is the name of the program. An error of the kind `InvalidData` says that a
/// word is no text, and each other one is of memory.
pub fn words_of(runtime: &HostRuntime) -> io::Result<Vec<String>> {
    let mut words = Vec::new(runtime.alloc());
    for word in env::args(runtime)? {
        words.push(word)?;
    }
    Ok(words)
}

/// Tells why there are no words, and returns the exit status: 5 where one is no text, and else 4.
pub(crate) fn refuse<E: Sink>(kind: ErrorKind, diagnostics: &mut E) -> u8
    ensures status { (result ≡ 4) ⊎ (result ≡ 5) }
    ensures told { result ≡ 4 →
        Told (change E.writer diagnostics.old diagnostics.new) (Tells Memory) }
{
    if kind != ErrorKind::InvalidData {
        return stop(&Fault::Memory, diagnostics);
    }
    let _ = write_all(
        diagnostics,
        b"error: a word of the command line is no UTF-8 text\n",
    );
    5
}
