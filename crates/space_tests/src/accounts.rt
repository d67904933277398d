//! Accounts of runs.
use crate::single_calls::core_of;
use aterm_text::{read_term, write_term};
use prim_registry::{Registry, Standard};
use std::alloc::{AllocError, Global};
use std::test::Fail;
use strat_code::Code;
use strat_compile::{compile_for_counts, compile_with_marks};
use strat_machine::{
    Account, CallResult, CallsKept, Ending, Machine, Stand, Trace, Watched, first_match,
};
use term_model::{Fault, PrimNames, RcSpace, Term};

/// Definitions, a term, a budget, and the account of the run as a text: its ending and the rules of all instructions; where it failed, the byte
/// at which the last strategy is marked, the term, what each variable has, and how many calls wait.
const RUNS: &[(&[u8], &[u8], u32, &[u8])] = &[
    (
        b"strategies main = ?(x,_); !x",
        b"(7,f(1))",
        5,
        b"rewritten 5",
    ),
    (b"strategies main = ?(x,_); !x", b"(7,f(1))", 3, b"spent 1"),
    (
        b"strategies main = ?(x,_); !x",
        b"8",
        5,
        b"failed 4 at 20 on 8; -, calls 1",
    ),
    (
        b"strategies main = f; !y f = ?(x,z); g(|z) g(|a) = ?[a|x]",
        b"(1,[2])",
        50,
        b"failed 10 at 52 on (1,[2]); [2], -, calls 3",
    ),
];

/// Adds the text of what a run stands on.
fn push_stand(
    alloc: Global,
    code: &Code,
    stand: &Stand,
    line: &mut Vec<u8>,
) -> Result<(), AllocError> {
    let offset = match code.mark_at(stand.address) {
        Some(mark) => mark.offset,
        None => 0,
    };
    line.extend_from_slice(format!(in alloc; " at {offset} on ")?.as_bytes())?;
    write_term(&stand.term, line)?;
    line.extend_from_slice(b"; ")?;
    for value in &stand.values {
        match value {
            Some(term) => write_term(term, line)?,
            None => line.push(b'-')?,
        }
        line.extend_from_slice(b", ")?;
    }
    let calls = stand.waiting.len();
    line.extend_from_slice(format!(in alloc; "calls {calls}")?.as_bytes())
}

/// The text of an account and a stand.
fn account_text(
    alloc: Global,
    code: &Code,
    account: &Account,
    stand: Option<&Stand>,
) -> Result<Vec<u8>, AllocError> {
    let mut rules: u64 = 0;
    for count in &account.rules {
        rules = rules.saturating_add(*count);
    }
    let ending = match account.ending {
        Ending::Rewritten => "rewritten",
        Ending::Failed => "failed",
        Ending::Oversize => "oversize",
        Ending::Spent => "spent",
    };
    let mut line = format!(in alloc; "{ending} {rules}")?.into_bytes();
    if let (Ending::Failed, Some(stand)) = (account.ending, stand) {
        push_stand(alloc, code, stand, &mut line)?;
    }
    Ok(line)
}

/// The text of the account of a run of the code on the term.
fn account_of_run(
    alloc: Global,
    machine: &mut Machine<RcSpace>,
    code: &Code,
    term: Term,
    budget: u32,
) -> Result<Vec<u8>, Fault> {
    let registry = Registry::<Standard>::new(alloc);
    if !registry.covers(code.prims()) {
        return Err(Fault::UnknownPrimitive);
    }
    let account = machine.account(code, term.clone()?, u64::from(budget), &registry)?;
    let stand = machine.stand(
        code,
        term,
        u64::from(budget),
        &registry,
        account.before_last,
    )?;
    Ok(account_text(alloc, code, &account, stand.as_ref())?)
}

/// The same of a run of these definitions.
fn account_of(
    alloc: Global,
    definitions: &[u8],
    text: &[u8],
    budget: u32,
) -> Result<Vec<u8>, Fault> {
    let core = core_of(alloc, definitions, &PrimNames::new(alloc))?;
    let code = compile_with_marks(alloc, &core)?;
    let term = read_term(alloc, text)?;
    let mut machine = Machine::new(alloc, RcSpace);
    account_of_run(alloc, &mut machine, &code, term, budget)
}

#[test]
fn accounts_of_runs(rt: HostRuntime) -> Result<(), Fail> {
    for (definitions, text, budget, wanted) in RUNS {
        let account = account_of(rt.alloc(), definitions, text, *budget)?;
        if account.as_slice() != *wanted {
            return Err(Fail::from((account, *wanted)));
        }
    }
    Ok(())
}

/// Definitions, a term, a budget, and how often each instruction was reached and passed, and how many calls had not ended at it; then where
/// the code of f begins with a match that may fail, if it does.
///
/// The code is the call of `main` and the end of the run, that of the library, which is left out, the code of f, and that of main, a `Try`
/// with the rest of the choice.
const COUNTED: &[(&[u8], &[u8], u32, &[u8])] = &[
    (
        b"strategies main = f <+ !0 f = ?1; !2",
        b"3",
        50,
        b"1,1,1,0,0,1,1,0,1,1, 1,1,0,0,0,1,1,0,1,1, 0,0,0,0,0,0,0,0,0,0, at 2",
    ),
    (
        b"strategies main = f <+ !0 f = ?1; !2",
        b"1",
        50,
        b"1,1,1,1,1,1,1,1,0,1, 1,1,1,1,1,1,1,1,0,1, 0,0,0,0,0,0,0,0,0,0, at 2",
    ),
    (
        b"strategies main = f <+ !0 f = ?1; !2",
        b"1",
        3,
        b"1,0,1,0,0,1,1,0,0,0, 1,0,0,0,0,1,1,0,0,0, 0,0,1,0,0,0,0,1,0,0, at 2",
    ),
    (
        b"strategies main = f <+ !0 f = ?x; !2",
        b"3",
        50,
        b"1,1,1,1,1,1,1,1,0,1, 1,1,1,1,1,1,1,1,0,1, 0,0,0,0,0,0,0,0,0,0, -",
    ),
];

/// The addresses at which the code of f and that of main begin, which are the second and the first definition.
fn starts(code: &Code) -> (usize, usize) {
    let entries = code.entries();
    (
        entries.get(1).copied().unwrap_or(0),
        entries.first().copied().unwrap_or(0),
    )
}

/// Adds the counts of the call of `main`, of the end, and of the code from an address on to the line.
fn push_counts(
    alloc: Global,
    counts: &[u64],
    start: usize,
    line: &mut Vec<u8>,
) -> Result<(), AllocError> {
    for (address, count) in counts.iter().enumerate() {
        if address < 2 || address >= start {
            let number = *count;
            line.extend_from_slice(format!(in alloc; "{number},")?.as_bytes())?;
        }
    }
    line.push(b' ')?;
    Ok(())
}

/// Adds the address of the match with which the code of f begins, as if it began at 2.
fn push_first_match(alloc: Global, code: &Code, line: &mut Vec<u8>) -> Result<(), AllocError> {
    let (start, after) = starts(code);
    match first_match(code, start, after, 0) {
        Some(address) => {
            let place = address.saturating_sub(start).saturating_add(2);
            line.extend_from_slice(format!(in alloc; "at {place}")?.as_bytes())
        }
        None => {
            line.push(b'-')?;
            Ok(())
        }
    }
}

/// The code for counts of these definitions.
fn counted_code(alloc: Global, definitions: &[u8]) -> Result<Code, Fault> {
    let core = core_of(alloc, definitions, &PrimNames::new(alloc))?;
    Ok(compile_for_counts(alloc, &core)?)
}

/// The account of a run of the code on the term, without primitives.
fn account_on(alloc: Global, code: &Code, term: Term, budget: u32) -> Result<Account, Fault> {
    let registry = Registry::<Standard>::new(alloc);
    if !registry.covers(code.prims()) {
        return Err(Fault::UnknownPrimitive);
    }
    let mut machine = Machine::new(alloc, RcSpace);
    machine.account(code, term, u64::from(budget), &registry)
}

/// The text of the counts of an account of the code.
fn counts_text(alloc: Global, code: &Code, account: &Account) -> Result<Vec<u8>, AllocError> {
    let mut line = Vec::new(alloc);
    let (start, _) = starts(code);
    push_counts(alloc, &account.reached, start, &mut line)?;
    push_counts(alloc, &account.passed, start, &mut line)?;
    push_counts(alloc, &account.unfinished, start, &mut line)?;
    push_first_match(alloc, code, &mut line)?;
    Ok(line)
}

/// The text of the counts of a run of these definitions.
fn counts_of(
    alloc: Global,
    definitions: &[u8],
    text: &[u8],
    budget: u32,
) -> Result<Vec<u8>, Fault> {
    let code = counted_code(alloc, definitions)?;
    let term = read_term(alloc, text)?;
    let account = account_on(alloc, &code, term, budget)?;
    Ok(counts_text(alloc, &code, &account)?)
}

#[test]
fn counts_of_runs(rt: HostRuntime) -> Result<(), Fail> {
    for (definitions, text, budget, wanted) in COUNTED {
        let counts = counts_of(rt.alloc(), definitions, text, *budget)?;
        if counts.as_slice() != *wanted {
            return Err(Fail::from((counts, *wanted)));
        }
    }
    Ok(())
}

/// Definitions, of which the second is f, a term, a budget, which calls of f are kept, and the trace: of each call its depth, its
/// arguments and its term, what came of it, and whether an alternative got past its first instruction; how many calls there were, and
/// how many failed.
const TRACED: &[(&[u8], &[u8], u32, CallsKept, &[u8])] = &[
    (
        b"strategies main = f(|1) f(|a) = ?[x|y]; !y; f(|a) <+ ?[]",
        b"[7]",
        50,
        CallsKept::First,
        b"0 1 of [7] -> [] past; 1 1 of [] -> [] past; 2 calls, 0 fail",
    ),
    (
        b"strategies main = f <+ !0 f = ?[x|y]; !y; f",
        b"[7]",
        50,
        CallsKept::First,
        b"0 of [7] fails past; 1 of [] fails; 2 calls, 2 fail",
    ),
    (
        b"strategies main = f <+ !0 f = ?[x|y]; !y; f",
        b"[7]",
        10,
        CallsKept::First,
        b"0 of [7] open past; 1 of [] open; 2 calls, 0 fail",
    ),
    (
        b"strategies main = f; f; (f <+ !0) f = ?[x|y]; !y",
        b"[7,8]",
        50,
        CallsKept::FirstToFail,
        b"0 of [] fails; 3 calls, 1 fail",
    ),
];

/// Adds the text of what came of a call.
fn push_outcome(outcome: &CallResult, line: &mut Vec<u8>) -> Result<(), AllocError> {
    match outcome {
        CallResult::Rewritten(term) => {
            line.extend_from_slice(b" -> ")?;
            write_term(term, line)
        }
        CallResult::Failed => line.extend_from_slice(b" fails"),
        CallResult::Unfinished => line.extend_from_slice(b" open"),
    }
}

/// The text of a trace.
fn trace_text(alloc: Global, trace: &Trace) -> Result<Vec<u8>, AllocError> {
    let mut line = Vec::new(alloc);
    for call in &trace.calls {
        let depth = call.depth;
        line.extend_from_slice(format!(in alloc; "{depth} ")?.as_bytes())?;
        for argument in &call.arguments {
            write_term(argument, &mut line)?;
            line.push(b' ')?;
        }
        line.extend_from_slice(b"of ")?;
        write_term(&call.term, &mut line)?;
        push_outcome(&call.result, &mut line)?;
        if call.furthest.is_some() {
            line.extend_from_slice(b" past")?;
        }
        line.extend_from_slice(b"; ")?;
    }
    let (count, failures) = (trace.count, trace.failures);
    line.extend_from_slice(format!(in alloc; "{count} calls, {failures} fail")?.as_bytes())?;
    Ok(line)
}

/// What is watched of a run of the code: the calls of its second definition.
fn watched_of(alloc: Global, code: &Code, kept: CallsKept) -> Result<Watched, AllocError> {
    let entry = match code.entries().get(1) {
        Some(entry) => [*entry],
        None => [0],
    };
    Ok(Watched {
        entries: entry.to_vec(alloc)?,
        alternatives: entry.to_vec(alloc)?,
        kept,
    })
}

/// The trace of a run of the code on the term, without primitives.
fn trace_on(
    alloc: Global,
    code: &Code,
    term: Term,
    budget: u32,
    watched: &Watched,
) -> Result<Trace, Fault> {
    let registry = Registry::<Standard>::new(alloc);
    if !registry.covers(code.prims()) {
        return Err(Fault::UnknownPrimitive);
    }
    let mut machine = Machine::new(alloc, RcSpace);
    machine.trace(code, &term, u64::from(budget), &registry, watched)
}

/// The text of the trace of a run of these definitions.
fn trace_of(
    alloc: Global,
    definitions: &[u8],
    text: &[u8],
    budget: u32,
    kept: CallsKept,
) -> Result<Vec<u8>, Fault> {
    let code = counted_code(alloc, definitions)?;
    let watched = watched_of(alloc, &code, kept)?;
    let term = read_term(alloc, text)?;
    let trace = trace_on(alloc, &code, term, budget, &watched)?;
    Ok(trace_text(alloc, &trace)?)
}

#[test]
fn traces_of_runs(rt: HostRuntime) -> Result<(), Fail> {
    for (definitions, text, budget, kept, wanted) in TRACED {
        let trace = trace_of(rt.alloc(), definitions, text, *budget, *kept)?;
        if trace.as_slice() != *wanted {
            return Err(Fail::from((trace, *wanted)));
        }
    }
    Ok(())
}
