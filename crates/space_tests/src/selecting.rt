//! Choices among alternatives by the root of a term; what is expected was worked out by hand.
use crate::single_calls::code_of;
use aterm_text::{read_term, write_term};
use core_lang::Outcome;
use keyed_hash::HashKeys;
use prim_registry::{Registry, Standard};
use std::alloc::{AllocError, Global};
use std::test::Fail;
use strat_code::Code;
use strat_machine::Machine;
use term_model::{Term, TermSpace};
use term_store::StoreSpace;

/// Three rules, and an alternative that any term may have between others; a term; what the run writes, which is nothing where it
/// fails, and by how many rules.
const ROWS: &[(&[u8], &[u8], &[u8], u32)] = &[
    (THREE, b"C(3)", b"3", 14),
    (THREE, b"D(3)", b"", 13),
    (MIXED, b"B(7)", b"7", 8),
    (MIXED, b"A(B(7))", b"B(7)", 21),
    (MIXED, b"A(7)", b"1", 24),
    (MIXED, b"5", b"", 24),
    (MIXED, b"\"five\"", b"text", 25),
    (LISTS, b"[1]", b"single", 8),
    (LISTS, b"[1,2,3]", b"[3]", 12),
    (LISTS, b"[]", b"", 13),
];

const THREE: &[u8] = b"signature constructors A : T -> T B : T -> T C : T -> T
    rules r : A(x) -> x r : B(x) -> x r : C(x) -> x strategies main = r";

/// The second alternative takes any term, and fails where this is no application of A to an application.
const MIXED: &[u8] = b"signature constructors A : T -> T B : T -> T text : T
    rules r : B(x) -> x r : x -> y where <?A(y@B(_))> x r : A(x) -> 1 r : \"five\" -> text()
    strategies main = r";

const LISTS: &[u8] = b"signature constructors single : T
    rules r : [x] -> single() r : [x,y|z] -> z r : [x|y] -> y
    strategies main = r";

/// What a run writes, or nothing where it does not end with a term, its rules and its steps.
#[derive(Drop)]
struct Ran {
    written: Vec<u8>,
    rules: u64,
    steps: u64,
}

/// Runs the code on the term.
fn run<S: TermSpace + Drop>(
    alloc: Global,
    machine: &mut Machine<S>,
    code: &Code,
    term: &Term,
    budget: u32,
) -> Result<Ran, Fail> {
    let registry = Registry::<Standard>::new(alloc);
    if !registry.covers(code.prims()) {
        return Err(Fail::new("a primitive"));
    }
    let entered = machine.enter(term)?;
    let run = machine.run(code, entered, u64::from(budget), &registry)?;
    let mut written = Vec::new(alloc);
    if let Outcome::Rewritten(found) = &run.outcome {
        write_term(&machine.leave(found)?, &mut written)?;
    }
    Ok(Ran {
        written,
        rules: run.rules,
        steps: run.steps,
    })
}

/// Runs the code on the term over the space.
fn run_over<S: TermSpace + Drop>(
    alloc: Global,
    space: S,
    code: &Code,
    term: &Term,
    budget: u32,
) -> Result<Ran, Fail> {
    let mut machine = Machine::new(alloc, space);
    run(alloc, &mut machine, code, term, budget)
}

/// Runs the definitions on the term over a store.
fn run_in_store(alloc: Global, definitions: &[u8], text: &[u8], budget: u32) -> Result<Ran, Fail> {
    let code = code_of(alloc, definitions)?;
    let term = read_term(alloc, text)?;
    let space = StoreSpace::new(alloc, HashKeys::known());
    run_over(alloc, space, &code, &term, budget)
}

/// A thousand rules, each for a constructor of its own.
fn thousand_rules(alloc: Global) -> Result<Vec<u8>, AllocError> {
    let mut text = b"signature constructors".to_vec(alloc)?;
    for number in 1..=1_000 {
        let line = format!(in alloc; " C{number} : T -> T")?;
        text.extend_from_slice(line.as_bytes())?;
    }
    text.extend_from_slice(b" rules")?;
    for number in 1..=1_000 {
        let line = format!(in alloc; " r : C{number}(x) -> x")?;
        text.extend_from_slice(line.as_bytes())?;
    }
    text.extend_from_slice(b" strategies main = r")?;
    Ok(text)
}

#[test]
fn alternatives(rt: HostRuntime) -> Result<(), Fail> {
    let alloc = rt.alloc();
    for (definitions, text, wanted, rules) in ROWS {
        let ran = run_in_store(alloc, definitions, text, 100)?;
        if &ran.written[..] != *wanted || ran.rules != u64::from(*rules) {
            return Err(Fail::new("another outcome"));
        }
        let short = rules.saturating_sub(1);
        let spent = run_in_store(alloc, definitions, text, short)?;
        if !spent.written.is_empty() || spent.rules != u64::from(short) {
            return Err(Fail::new("spent with one rule less"));
        }
    }
    Ok(())
}

#[test]
fn one_of_a_thousand(rt: HostRuntime) -> Result<(), Fail> {
    let alloc = rt.alloc();
    let definitions = thousand_rules(alloc)?;
    let ran = run_in_store(alloc, &definitions, b"C1000(3)", 4_002)?;
    if ran.written[..] != b"3"[..] || ran.rules != 4_002 || ran.steps > 100 {
        return Err(Fail::new("the last rule is found at once"));
    }
    let spent = run_in_store(alloc, &definitions, b"C1000(3)", 4_001)?;
    if !spent.written.is_empty() || spent.rules != 4_001 {
        return Err(Fail::new("spent with one rule less"));
    }
    Ok(())
}
