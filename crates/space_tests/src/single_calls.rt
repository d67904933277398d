//! A definition file through each call from its bytes to a run; what is expected was worked out by hand.
ghost use Rattle.std.specs.Prelude.{◌≤◌, IsTrue};

use aterm_text::{read_term, write_term};
use core_eval::eval;
use core_lang::{Core, Outcome};
use keyed_hash::HashKeys;
use prim_registry::{Registry, Standard};
use scope_check::{Checked, check};
use std::alloc::Global;
use std::test::Fail;
use str_desugar::to_core;
use str_lexer::lex;
use str_parser::parse;
use str_syntax::{File, Section};
use strat_code::Code;
use strat_compile::compile;
use strat_machine::Machine;
use strategy_lib::with_library;
use term_model::{Fault, PrimNames, RcSpace, Term, TermSpace};
use term_store::StoreSpace;

pub(crate) const DEFINITIONS: &[u8] = b"strategies main = ?(x,_); !x";

/// The definitions with the library, where these are the primitives.
fn check_definitions(
    alloc: Global,
    definitions: &[u8],
    primitives: &PrimNames,
) -> Result<Checked, Fault> {
    let tokens = lex(alloc, definitions)?;
    let file = parse(alloc, definitions, &tokens)?;
    let file = with_library(alloc, file)?;
    check(alloc, HashKeys::known(), file, primitives, b"main")
}

/// Their core.
pub(crate) fn core_of(
    alloc: Global,
    definitions: &[u8],
    primitives: &PrimNames,
) -> Result<Core, Fault> {
    let checked = check_definitions(alloc, definitions, primitives)?;
    Ok(to_core(alloc, HashKeys::known(), &checked)?)
}

/// Their code.
pub(crate) fn code_with(
    alloc: Global,
    definitions: &[u8],
    primitives: &PrimNames,
) -> Result<Code, Fault> {
    let core = core_of(alloc, definitions, primitives)?;
    Ok(compile(alloc, &core)?)
}

/// The code of definitions that call no primitive.
pub(crate) fn code_of(alloc: Global, definitions: &[u8]) -> Result<Code, Fault> {
    code_with(alloc, definitions, &PrimNames::new(alloc))
}

/// The text of the term that the core rewrites to within the budget, and the rules; no text where the budget is spent.
fn run(alloc: Global, core: &Core, text: &[u8], budget: u64) -> Result<(Vec<u8>, u64), Fail>
    requires { budget ≤ 2_000 }
{
    let registry = Registry::<Standard>::new(alloc);
    if !registry.covers(core.prims()) {
        return Err(Fail::new("a primitive"));
    }
    let term = read_term(alloc, text)?;
    let run = eval(alloc, core, &term, budget, &registry)?;
    let mut written = Vec::new(alloc);
    match &run.outcome {
        Outcome::Rewritten(found) => write_term(found, &mut written)?,
        Outcome::Spent => {}
        _ => return Err(Fail::new("another ending")),
    }
    Ok((written, run.rules))
}

#[test]
fn from_bytes_to_a_run(rt: HostRuntime) -> Result<(), Fail> {
    let alloc = rt.alloc();
    let core = core_of(alloc, DEFINITIONS, &PrimNames::new(alloc))?;
    let (written, rules) = run(alloc, &core, b"(7,f(1))", 5)?;
    if written[..] != b"7"[..] || rules != 5 {
        return Err(Fail::new("within its five rules"));
    }
    let (written, rules) = run(alloc, &core, b"(7,f(1))", 4)?;
    if !written.is_empty() || rules != 4 {
        return Err(Fail::new("spent with one rule less"));
    }
    Ok(())
}

/// Whether the machine takes the term of the reference to 7 within five rules, by five rules.
fn takes_five<S: TermSpace + Drop>(
    alloc: Global,
    machine: &mut Machine<S>,
    code: &Code,
    entered: &S::Ref,
) -> Result<bool, Fault>
    requires { IsTrue (S.space.stands machine.old entered.now) }
    ensures { (r : S.Ref) → IsTrue (S.space.stands machine.old r) →
        IsTrue (S.space.stands machine.new r) }
{
    let registry = Registry::<Standard>::new(alloc);
    if !registry.covers(code.prims()) {
        return Err(Fault::UnknownPrimitive);
    }
    let term = machine.space().dup(entered)?;
    let run = machine.run(code, term, 5, &registry)?;
    let Outcome::Rewritten(found) = &run.outcome else {
        return Ok(false);
    };
    let mut written = Vec::new(alloc);
    write_term(&machine.leave(found)?, &mut written)?;
    Ok(written[..] == b"7"[..] && run.rules == 5 && run.steps <= 60)
}

/// Whether the machine does so. A run that is refused memory is taken once more from the same reference, which must have its term.
pub(crate) fn takes_five_at_last<S: TermSpace + Drop>(
    alloc: Global,
    machine: &mut Machine<S>,
    code: &Code,
    entered: &S::Ref,
    term: &Term,
) -> Result<bool, Fault>
    requires { IsTrue (S.space.stands machine.old entered.now) }
    ensures { (r : S.Ref) → IsTrue (S.space.stands machine.old r) →
        IsTrue (S.space.stands machine.new r) }
{
    if let Ok(is_seven) = takes_five(alloc, machine, code, entered) {
        return Ok(is_seven);
    }
    if machine.leave(entered)? != *term {
        return Ok(false);
    }
    takes_five(alloc, machine, code, entered)
}

/// Whether the machine does so twice with the same reference.
fn takes_five_twice<S: TermSpace + Drop>(
    alloc: Global,
    machine: &mut Machine<S>,
    code: &Code,
    term: &Term,
) -> Result<bool, Fault> {
    let entered = machine.enter(term)?;
    if !takes_five_at_last(alloc, machine, code, &entered, term)? {
        return Ok(false);
    }
    takes_five_at_last(alloc, machine, code, &entered, term)
}

/// Whether a machine over the space does so.
fn runs_over<S: TermSpace + Drop>(
    alloc: Global,
    space: S,
    code: &Code,
    term: &Term,
) -> Result<bool, Fault> {
    let mut machine = Machine::new(alloc, space);
    takes_five_twice(alloc, &mut machine, code, term)
}

#[test]
fn from_bytes_to_runs_of_the_machine(rt: HostRuntime) -> Result<(), Fail> {
    let alloc = rt.alloc();
    let code = code_of(alloc, DEFINITIONS)?;
    let term = read_term(alloc, b"(7,f(1))")?;
    if !runs_over(alloc, RcSpace, &code, &term)? {
        return Err(Fail::new("over terms"));
    }
    let store = StoreSpace::new(alloc, HashKeys::known());
    if !runs_over(alloc, store, &code, &term)? {
        return Err(Fail::new("over a store"));
    }
    Ok(())
}

/// How many definitions the file has, which has one section, of strategies.
fn count_of_definitions(file: &File) -> usize {
    match file.sections.as_slice() {
        [Section::Strategies(definitions)] => definitions.len(),
        _ => 0,
    }
}

/// What the check of the file, which calls no primitive, returns.
fn judgement(alloc: Global, file: File) -> Result<(), Fault> {
    let _checked = check(
        alloc,
        HashKeys::known(),
        file,
        &PrimNames::new(alloc),
        b"main",
    )?;
    Ok(())
}

#[test]
fn the_library_alone(rt: HostRuntime) -> Result<(), Fail> {
    let sections = Vec::new(rt.alloc());
    let file = with_library(rt.alloc(), File { sections })?;
    if count_of_definitions(&file) != 9 {
        return Err(Fail::new("another number of definitions"));
    }
    match judgement(rt.alloc(), file) {
        Err(Fault::NoMain) => Ok(()),
        Err(fault) => Err(Fail::from(fault)),
        Ok(()) => Err(Fail::new("no fault")),
    }
}
