//! A short program whose line is long: a term that is shared in memory is written in full.
ghost use Rattle.std.specs.Prelude.{◌≤◌};

use crate::transform::memory::{Answer, transform_texts};
use crate::transform::pipeline::{plain_options, text_of};
use crate::transform::rows::Pieces;
use prim_registry::{Registry, Standard};
use std::alloc::{AllocError, Global};
use std::test::Fail;
use term_model::Fault;

/// Definitions that apply `d` 22 times.
const DOUBLINGS: Pieces = &[
    (
        "signature constructors F : T * T -> T strategies d = \\ x -> F(x,x) \\ main = d",
        1,
    ),
    ("; d", 21),
];

/// How often `d` is applied, by how many rules, and how long the line is: 20,971,516 bytes and a line feed.
const TIMES: usize = 22;

const RULES: u64 = 132;

const LENGTH: usize = 20_971_517;

/// The text of an application to two parts that both have this text.
fn pair_of(alloc: Global, text: &[u8]) -> Result<Vec<u8>, AllocError> {
    let mut whole = b"F(".to_vec(alloc)?;
    whole.extend_from_slice(text)?;
    whole.push(b',')?;
    whole.extend_from_slice(text)?;
    whole.push(b')')?;
    Ok(whole)
}

/// The line of 1 after all the doublings.
fn line_of_all(alloc: Global) -> Result<Vec<u8>, AllocError> {
    let mut text = b"1".to_vec(alloc)?;
    for _ in 0..TIMES {
        text = pair_of(alloc, &text)?;
    }
    text.push(b'\n')?;
    Ok(text)
}

/// What the doublings give within this budget.
fn run_within(alloc: Global, budget: u64) -> Result<Answer, Fault>
    requires { budget ≤ 132 }
{
    let options = plain_options(alloc, budget)?;
    let registry = Registry::<Standard>::new(alloc);
    let definitions = text_of(alloc, DOUBLINGS)?;
    transform_texts(alloc, &definitions, b"1", &options, &registry)
}

#[test]
fn a_shared_term_is_written_whole(rt: HostRuntime) -> Result<(), Fail> {
    let line = line_of_all(rt.alloc())?;
    let answer = run_within(rt.alloc(), RULES)?;
    if line.len() != LENGTH || answer.line.as_slice() != line.as_slice() {
        return Err(Fail::new("another line"));
    }
    Ok(())
}

#[test]
fn a_shared_term_takes_all_its_rules(rt: HostRuntime) -> Result<(), Fail> {
    let answer = run_within(rt.alloc(), RULES - 1)?;
    if answer.line.as_slice() != b"#spent\n".as_slice() {
        return Err(Fail::new("another line"));
    }
    Ok(())
}
