//! Reads the text of a term from standard input and writes its canonical text to standard output;
//! to standard error it writes how many nanoseconds the term's reading and its writing took.
#![tactic(auto)]

ghost use Rattle.std.specs.Prelude.{◌≡◌, IfOk};
ghost use Rattle.aterm_text.specs.Grammar.{IsText};
ghost use Rattle.aterm_text.specs.Text.{text as canonical_text};
ghost use Rattle.term_model.specs.Term.{Tree};

use aterm_text::{read_term, write_term};
use std::alloc::Global;
use std::io::{Read, Write};
use std::rt::Clock;
use std::time::{Duration, Instant};
use term_model::Fault;

/// The canonical text of a term, and how long the term's reading and its writing took.
#[derive(Drop)]
struct Respelled {
    text: Vec<u8>,
    reading: Duration,
    writing: Duration,
}

/// The canonical text of the term that the text spells.
fn respell(clock: &impl Clock, alloc: Global, text: &[u8]) -> Result<Respelled, Fault>
    ensures { IfOk result (λ answer. (t : Tree) × IsText t text.now ×
        (answer.text.items ≡ canonical_text t)) }
{
    let start = Instant::now(clock).map_err(|_| Fault::Read)?;
    let term = read_term(alloc, text)?;
    let reading = start.elapsed(clock).map_err(|_| Fault::Read)?;
    let start = Instant::now(clock).map_err(|_| Fault::Read)?;
    let mut text = Vec::new(alloc);
    write_term(&term, &mut text)?;
    let writing = start.elapsed(clock).map_err(|_| Fault::Read)?;
    Ok(Respelled {
        text,
        reading,
        writing,
    })
}

fn main(rt: HostRuntime) -> Result<(), Fault> {
    let mut text = Vec::new(rt.alloc());
    rt.stdin().read_to_end(&mut text).map_err(|_| Fault::Read)?;
    let answer = respell(&rt, rt.alloc(), &text)?;
    rt.stdout()
        .write_all(&answer.text)
        .map_err(|_| Fault::Write)?;
    let reading = answer.reading.as_nanos();
    let writing = answer.writing.as_nanos();
    eprintln!(rt; "{reading} {writing}").map_err(|_| Fault::Write)
}
