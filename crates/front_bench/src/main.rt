//! Reads a definition file from standard input and writes to standard output how many tokens and
//! sections it has; to standard error it writes how many nanoseconds lexing and parsing took.
#![tactic(auto)]

ghost use Rattle.std.specs.Prelude.{IfOk};
ghost use Rattle.front_bench.specs.Counts.{AreCounts};

use std::alloc::Global;
use std::io::{Read, Write};
use std::rt::Clock;
use std::time::{Duration, Instant};
use str_lexer::lex;
use str_parser::parse;
use term_model::Fault;

/// How many tokens and sections a file has, and how long lexing and parsing took.
#[derive(Drop)]
struct Measured {
    tokens: usize,
    sections: usize,
    lexing: Duration,
    parsing: Duration,
}

/// Lexes and parses the text, measures how long each takes, and counts the tokens and sections. The fault is that of `lex` or `parse`, or
/// `Read` if the clock fails.
fn measure(clock: &impl Clock, alloc: Global, text: &[u8]) -> Result<Measured, Fault>
    ensures { IfOk result (λ answer. AreCounts text.now answer.tokens answer.sections) }
{
    let start = Instant::now(clock).map_err(|_| Fault::Read)?;
    let tokens = lex(alloc, text)?;
    let lexing = start.elapsed(clock).map_err(|_| Fault::Read)?;
    let start = Instant::now(clock).map_err(|_| Fault::Read)?;
    let file = parse(alloc, text, &tokens)?;
    let parsing = start.elapsed(clock).map_err(|_| Fault::Read)?;
    Ok(Measured {
        tokens: tokens.len(),
        sections: file.sections.len(),
        lexing,
        parsing,
    })
}

fn main(rt: HostRuntime) -> Result<(), Fault> {
    let mut text = Vec::new(rt.alloc());
    rt.stdin().read_to_end(&mut text).map_err(|_| Fault::Read)?;
    let answer = measure(&rt, rt.alloc(), &text)?;
    let (tokens, sections) = (answer.tokens, answer.sections);
    println!(rt; "{tokens} tokens, {sections} sections").map_err(|_| Fault::Write)?;
    let lexing = answer.lexing.as_nanos();
    let parsing = answer.parsing.as_nanos();
    eprintln!(rt; "{lexing} {parsing}").map_err(|_| Fault::Write)
}
