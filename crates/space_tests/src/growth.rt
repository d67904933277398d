//! Steps that make something new in a space, for runs in which memory is refused: `tools/growth` refuses each call for memory in turn. A step
//! whose memory is refused is taken once more; after each step an older reference has its term. Each test passes with ample memory, too.
ghost use Rattle.std.specs.Prelude.{IsTrue};

use crate::single_calls::code_of;
use aterm_text::read_term;
use core_lang::Outcome;
use keyed_hash::HashKeys;
use prim_registry::{Registry, Standard};
use std::alloc::{AllocError, Global};
use std::test::Fail;
use strat_code::Code;
use strat_machine::Machine;
use term_model::{Fault, Head, Made, RcSpace, Sym, Term, TermSpace};
use term_store::StoreSpace;

/// How many steps a row has.
const STEPS: i64 = 12;

/// The term of the older reference.
const OLDER: &[u8] = b"[0,1,2,3,4,5,6,7,8,9,10,11]";

/// Definitions and a term that are run, and the weight of what the term is rewritten to.
const RUNS: &[(&[u8], &[u8], u32)] = &[
    (b"strategies main = all({x: ?x; !(x,x)})", OLDER, 37),
    (
        b"strategies main = all({x,y: ?x{y}; !(x,x{y,y})})",
        b"[0{4},1{5},2{6},3{7}]",
        21,
    ),
];

/// The call of a space that a row is about.
#[derive(Clone, Copy)]
enum Row {
    Enter,
    Make,
    Rest,
    Prepend,
    Leave,
}

const ROWS: &[Row] = &[Row::Enter, Row::Make, Row::Rest, Row::Prepend, Row::Leave];

/// Whether the reference has this term; looks twice where memory is refused.
fn has_term<S: TermSpace>(
    alloc: Global,
    space: &S,
    at: &S::Ref,
    term: &Term,
) -> Result<bool, AllocError>
    requires { IsTrue (S.space.stands space.now at.now) }
{
    if let Ok(left) = space.leave(alloc, at) {
        return Ok(left == *term);
    }
    let left = space.leave(alloc, at)?;
    Ok(left == *term)
}

/// The list of an integer and the older term.
fn pair_of(alloc: Global, term: &Term, value: i64) -> Result<Made<Term>, AllocError> {
    let mut parts = Vec::with_capacity(alloc, 2)?;
    parts.push(Term::int(alloc, value)?)?;
    parts.push(term.clone()?)?;
    Term::list(alloc, parts)
}

/// Enters a list of the integer and the term.
fn enter<S: TermSpace>(
    alloc: Global,
    space: &mut S,
    older: &S::Ref,
    term: &Term,
    value: i64,
) -> Result<bool, AllocError>
    requires { IsTrue (S.space.stands space.old older.now) }
    ensures { IsTrue (S.space.stands space.new older.now) }
{
    let Made::Fits(pair) = pair_of(alloc, term, value)? else {
        return Ok(false);
    };
    let entered = space.enter(alloc, &pair)?;
    has_term(alloc, space, &entered, &pair)
}

/// Makes the application of a symbol to the older term and the integer, with the older term as its annotation.
fn make<S: TermSpace>(
    alloc: Global,
    space: &mut S,
    older: &S::Ref,
    value: i64,
) -> Result<bool, AllocError>
    requires { IsTrue (S.space.stands space.old older.now) }
    ensures { IsTrue (S.space.stands space.new older.now) }
{
    let mut parts = Vec::with_capacity(alloc, 2)?;
    parts.push(space.int(alloc, value)?)?;
    parts.push(space.dup(older)?)?;
    let mut annos = Vec::with_capacity(alloc, 1)?;
    annos.push(space.dup(older)?)?;
    let head = Head::App(Sym::named(alloc, b"of_some_letters_more")?);
    let made = space.make(alloc, head, parts, annos)?;
    Ok(matches!(made, Made::Fits(_)))
}

/// Puts integers in front of the older list.
fn prepend<S: TermSpace>(
    alloc: Global,
    space: &mut S,
    older: &S::Ref,
    value: i64,
) -> Result<bool, AllocError>
    requires { IsTrue (S.space.stands space.old older.now) }
    ensures { IsTrue (S.space.stands space.new older.now) }
{
    let mut elements = Vec::with_capacity(alloc, 2)?;
    elements.push(space.int(alloc, value.wrapping_neg())?)?;
    elements.push(space.dup(older)?)?;
    if space.list_len(older).is_none() {
        return Ok(false);
    }
    let made = space.prepend(alloc, &elements[..], older)?;
    Ok(matches!(made, Made::Fits(_)))
}

/// Takes the first elements of the older list away.
fn rest<S: TermSpace>(
    alloc: Global,
    space: &mut S,
    older: &S::Ref,
    value: i64,
) -> Result<bool, AllocError>
    requires { IsTrue (S.space.stands space.old older.now) }
    ensures { IsTrue (S.space.stands space.new older.now) }
{
    let Some(length) = space.list_len(older) else {
        return Ok(false);
    };
    let count = length.min(value.unsigned_abs() as usize);
    let _rest = space.rest(alloc, older, count)?;
    Ok(true)
}

/// One step of a row. The older reference has this term, which is a list.
fn step<S: TermSpace>(
    alloc: Global,
    space: &mut S,
    row: Row,
    older: &S::Ref,
    term: &Term,
    value: i64,
) -> Result<bool, AllocError>
    requires { IsTrue (S.space.stands space.old older.now) }
    ensures { IsTrue (S.space.stands space.new older.now) }
{
    match row {
        Row::Enter => enter(alloc, space, older, term, value),
        Row::Make => make(alloc, space, older, value),
        Row::Prepend => prepend(alloc, space, older, value),
        Row::Rest => rest(alloc, space, older, value),
        Row::Leave => has_term(alloc, space, older, term),
    }
}

/// Takes the steps of a row, each once more where memory is refused; whether each did its work, and the older reference had its term after it.
fn take_steps<S: TermSpace>(
    alloc: Global,
    space: &mut S,
    row: Row,
    term: &Term,
) -> Result<bool, AllocError> {
    let older = space.enter(alloc, term)?;
    for value in 0..STEPS {
        if step(alloc, space, row, &older, term, value).is_err() {
            if !has_term(alloc, space, &older, term)? {
                return Ok(false);
            }
            if !step(alloc, space, row, &older, term, value)? {
                return Ok(false);
            }
        }
        if !has_term(alloc, space, &older, term)? {
            return Ok(false);
        }
    }
    Ok(true)
}

fn run_row<S: TermSpace + Drop>(alloc: Global, space: S, row: Row) -> Result<(), Fail> {
    let mut space = space;
    let term = read_term(alloc, OLDER)?;
    if !take_steps(alloc, &mut space, row, &term)? {
        return Err(Fail::new("a reference lost its term"));
    }
    Ok(())
}

fn run_in_store(alloc: Global, row: Row) -> Result<(), Fail> {
    run_row(alloc, StoreSpace::new(alloc, HashKeys::known()), row)
}

#[test]
fn growth_enter(rt: HostRuntime) -> Result<(), Fail> {
    run_in_store(rt.alloc(), Row::Enter)
}

#[test]
fn growth_make(rt: HostRuntime) -> Result<(), Fail> {
    run_in_store(rt.alloc(), Row::Make)
}

#[test]
fn growth_rest(rt: HostRuntime) -> Result<(), Fail> {
    run_in_store(rt.alloc(), Row::Rest)
}

#[test]
fn growth_prepend(rt: HostRuntime) -> Result<(), Fail> {
    run_in_store(rt.alloc(), Row::Prepend)
}

#[test]
fn growth_leave(rt: HostRuntime) -> Result<(), Fail> {
    run_in_store(rt.alloc(), Row::Leave)
}

#[test]
fn growth_of_terms(rt: HostRuntime) -> Result<(), Fail> {
    for row in ROWS {
        run_row(rt.alloc(), RcSpace, *row)?;
    }
    Ok(())
}

/// The weight of what the code rewrites the term to; 0 where it does not.
fn weight_after<S: TermSpace + Drop>(
    alloc: Global,
    machine: &mut Machine<S>,
    code: &Code,
    term: &Term,
) -> Result<u32, Fault>
    ensures { (r : S.Ref) → IsTrue (S.space.stands machine.old r) →
        IsTrue (S.space.stands machine.new r) }
{
    let registry = Registry::<Standard>::new(alloc);
    if !registry.covers(code.prims()) {
        return Ok(0);
    }
    let entered = machine.enter(term)?;
    let run = machine.run(code, entered, 1_000, &registry)?;
    let Outcome::Rewritten(found) = &run.outcome else {
        return Ok(0);
    };
    let left = machine.leave(found)?;
    Ok(left.weight())
}

/// Runs the code, once more where memory is refused, when an older reference has its term.
fn run_again<S: TermSpace + Drop>(
    alloc: Global,
    machine: &mut Machine<S>,
    code: &Code,
    term: &Term,
) -> Result<u32, Fault> {
    let older = machine.enter(term)?;
    if let Ok(weight) = weight_after(alloc, machine, code, term) {
        return Ok(weight);
    }
    if !has_term(alloc, machine.space(), &older, term)? {
        return Ok(0);
    }
    weight_after(alloc, machine, code, term)
}

/// The weight of what the definitions rewrite the term to over the space, in a run that is taken again where memory is refused.
fn weight_over<S: TermSpace + Drop>(
    alloc: Global,
    space: S,
    definitions: &[u8],
    text: &[u8],
) -> Result<u32, Fault> {
    let code = code_of(alloc, definitions)?;
    let term = read_term(alloc, text)?;
    let mut machine = Machine::new(alloc, space);
    run_again(alloc, &mut machine, &code, &term)
}

#[test]
fn growth_run(rt: HostRuntime) -> Result<(), Fail> {
    for (definitions, text, weight) in RUNS {
        let store = StoreSpace::new(rt.alloc(), HashKeys::known());
        if weight_over(rt.alloc(), store, definitions, text)? != *weight {
            return Err(Fail::new("another term"));
        }
    }
    Ok(())
}

#[test]
fn growth_run_of_terms(rt: HostRuntime) -> Result<(), Fail> {
    for (definitions, text, weight) in RUNS {
        if weight_over(rt.alloc(), RcSpace, definitions, text)? != *weight {
            return Err(Fail::new("another term"));
        }
    }
    Ok(())
}
