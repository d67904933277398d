//! Makes terms in a store. A line on standard input has a job and two numbers; standard output gets what another program
//! can be compared by, and standard error a line for each task with its name and its time in nanoseconds.
//!
//! `make SIZE TIMES` makes each node of a random tree TIMES times, and only plans the nodes where TIMES is 0. `tree SIZE
//! TIMES` makes the tree as a term, enters it, lets it leave, and then makes each node again TIMES times. `list SIZE TIMES`
//! makes a list, takes it apart and builds another one from its end, TIMES times in a new store.
#![tactic(auto)]

mod lists;
mod nodes;
mod trees;

use keyed_hash::HashKeys;
use lists::{built, numbered, taken_apart};
use nodes::random_nodes;
use std::io::{Read, Write};
use std::rt::Clock;
use std::time::Instant;
use term_model::{Fault, Sym, Term, TermSpace};
use term_store::StoreSpace;
use trees::{make_all, tree_of};

/// A job, for how large a tree or list, and how many times.
#[derive(Clone, Copy)]
struct Job<'a> {
    name: &'a str,
    size: u32,
    times: u32,
}

/// The job of a line.
fn job_of<'a>(line: &'a [u8]) -> Option<Job<'a>> {
    let mut words = str::from_utf8(line).ok()?.split_whitespace();
    let name = words.next()?;
    let size = words.next()?.parse::<u32>().ok()?;
    let times = words.next()?.parse::<u32>().ok()?;
    Some(Job { name, size, times })
}

fn now(rt: &HostRuntime) -> Result<Instant, Fault> {
    Instant::now(rt).map_err(|_| Fault::Read)
}

/// Says how many nanoseconds a task took.
fn tell(rt: &HostRuntime, task: &str, start: Instant) -> Result<(), Fault> {
    let time = start.elapsed(rt).map_err(|_| Fault::Read)?.as_nanos();
    eprintln!(rt; "{task} {time}").map_err(|_| Fault::Write)
}

fn make<S: TermSpace>(rt: &HostRuntime, space: &mut S, job: Job) -> Result<(), Fault> {
    let alloc = rt.alloc();
    let nodes = random_nodes(alloc, job.size)?;
    let symbol = Sym::named(alloc, b"F")?;
    for index in 0..job.times {
        let start = now(rt)?;
        make_all(alloc, space, &symbol, &nodes)?;
        tell(rt, if index == 0 { "make" } else { "again" }, start)?;
    }
    Ok(())
}

/// Brings the term into the space and out of it again.
fn enter_and_leave<S: TermSpace>(
    rt: &HostRuntime,
    space: &mut S,
    term: &Term,
) -> Result<Term, Fault> {
    let alloc = rt.alloc();
    let start = now(rt)?;
    let root = space.enter(alloc, term)?;
    tell(rt, "enter", start)?;
    let start = now(rt)?;
    let left = space.leave(alloc, &root)?;
    tell(rt, "leave", start)?;
    Ok(left)
}

fn tree<S: TermSpace>(rt: &HostRuntime, space: &mut S, job: Job) -> Result<(), Fault> {
    let alloc = rt.alloc();
    let nodes = random_nodes(alloc, job.size)?;
    let symbol = Sym::named(alloc, b"F")?;
    let Some(term) = tree_of(alloc, &symbol, &nodes)? else {
        return Ok(());
    };
    let left = enter_and_leave(rt, space, &term)?;
    let (weight, depth) = (left.weight(), left.depth());
    println!(rt; "weight {weight}, depth {depth}").map_err(|_| Fault::Write)?;
    for _ in 0..job.times {
        let start = now(rt)?;
        make_all(alloc, space, &symbol, &nodes)?;
        tell(rt, "again", start)?;
    }
    Ok(())
}

fn list<S: TermSpace>(rt: &HostRuntime, space: &mut S, size: u32) -> Result<(), Fault> {
    let alloc = rt.alloc();
    let numbers = numbered(alloc, space, size)?;
    let start = now(rt)?;
    let tails = taken_apart(alloc, space, &numbers)?;
    tell(rt, "apart", start)?;
    let start = now(rt)?;
    let elements = built(alloc, space, size)?;
    tell(rt, "front", start)?;
    println!(rt; "{tails} tails, {elements} elements").map_err(|_| Fault::Write)
}

/// Does the job in a new store, and says how many shapes it holds then.
fn run(rt: &HostRuntime, job: Job) -> Result<usize, Fault> {
    let mut store = StoreSpace::new(rt.alloc(), HashKeys::known());
    match job.name {
        "make" => make(rt, &mut store, job)?,
        "tree" => tree(rt, &mut store, job)?,
        "list" => list(rt, &mut store, job.size)?,
        _ => return Err(Fault::Read),
    }
    Ok(store.len())
}

fn main(rt: HostRuntime) -> Result<(), Fault> {
    let mut line = Vec::new(rt.alloc());
    rt.stdin().read_to_end(&mut line).map_err(|_| Fault::Read)?;
    let Some(job) = job_of(&line) else {
        return Err(Fault::Read);
    };
    // Lists are for a new store each.
    let runs = if job.name == "list" { job.times } else { 1 };
    let mut count = 0;
    for _ in 0..runs {
        count = run(&rt, job)?;
    }
    println!(rt; "{count} shapes").map_err(|_| Fault::Write)
}
