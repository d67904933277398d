//! A primitive that is refused memory, in runs of the machine.
ghost use Rattle.std.specs.Prelude.{IsTrue};
ghost use Rattle.prim_registry.specs.Entries.{IsHonest};

use crate::single_calls::{DEFINITIONS, code_of, code_with, takes_five_at_last};
use aterm_text::read_term;
use keyed_hash::HashKeys;
use prim_registry::{Action, Flat, Prim, PrimMeaning, Registry, Standard};
use std::alloc::{AllocError, Global};
use std::test::Fail;
use strat_code::Code;
use strat_machine::Machine;
use term_model::{Fault, PrimNames, RcSpace, Term, TermSpace};
use term_store::StoreSpace;

const ADDING: &[u8] = b"strategies main = ?(x,_); prim(\"add\", x, x)";

/// The code of definitions that call `add`.
fn adding_code(alloc: Global) -> Result<Code, Fault> {
    let mut names = PrimNames::new(alloc);
    names.insert(b"add", 2)?;
    code_with(alloc, ADDING, &names)
}

/// Whether the run of the code from the reference is refused memory.
fn is_refused<S: TermSpace + Drop>(
    machine: &mut Machine<S>,
    adding: &Code,
    entered: &S::Ref,
    registry: &Registry<Standard>,
) -> Result<bool, Fault>
    requires honest { IsHonest ⟦<Standard as PrimMeaning>⟧.answer registry.now }
    requires stands { IsTrue (S.space.stands machine.old entered.now) }
    ensures { (r : S.Ref) → IsTrue (S.space.stands machine.old r) →
        IsTrue (S.space.stands machine.new r) }
{
    if !registry.covers(adding.prims()) {
        return Err(Fault::UnknownPrimitive);
    }
    let term = machine.space().dup(entered)?;
    let run = machine.run(adding, term, 5, registry);
    Ok(matches!(run, Err(Fault::Memory)))
}

/// Whether the run of the code is refused memory, and the machine then runs other code from the same reference.
fn runs_afterwards<S: TermSpace + Drop>(
    alloc: Global,
    machine: &mut Machine<S>,
    adding: &Code,
    registry: &Registry<Standard>,
    term: &Term,
) -> Result<bool, Fault>
    requires { IsHonest ⟦<Standard as PrimMeaning>⟧.answer registry.now }
{
    let entered = machine.enter(term)?;
    if !is_refused(machine, adding, &entered, registry)? {
        return Ok(false);
    }
    let code = code_of(alloc, DEFINITIONS)?;
    takes_five_at_last(alloc, machine, &code, &entered, term)
}

/// Returns whether a machine over the space does so with a pair.
fn runs_over<S: TermSpace + Drop>(
    alloc: Global,
    space: S,
    adding: &Code,
    registry: &Registry<Standard>,
) -> Result<bool, Fault>
    requires { IsHonest ⟦<Standard as PrimMeaning>⟧.answer registry.now }
{
    let term = read_term(alloc, b"(7,f(1))")?;
    let mut machine = Machine::new(alloc, space);
    runs_afterwards(alloc, &mut machine, adding, registry, &term)
}

#[test]
fn a_run_without_memory(rt: HostRuntime) -> Result<(), Fail> {
    let alloc = rt.alloc();
    let mut registry = Registry::<Standard>::new(alloc);
    let action: Action = Box::new(
        alloc,
        |_args: &[Flat]| -> Result<Option<Flat>, AllocError> { Err(AllocError) },
    )?;
    registry.register(Prim::new(b"add".to_vec(alloc)?, 2, action))?;
    let adding = adding_code(alloc)?;
    if !runs_over(alloc, RcSpace, &adding, &registry)? {
        return Err(Fail::new("over terms"));
    }
    let store = StoreSpace::new(alloc, HashKeys::known());
    if !runs_over(alloc, store, &adding, &registry)? {
        return Err(Fail::new("over a store"));
    }
    Ok(())
}
