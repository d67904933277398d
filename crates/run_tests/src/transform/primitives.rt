//! Runs with primitives.
ghost use Rattle.std.specs.Prelude.{◌≤◌};
ghost use Rattle.prim_registry.specs.Entries.{IsHonest};
ghost use Rattle.term_model.specs.Limits.{max_budget};

use crate::transform::annotation_rows::ANNOTATED_ARGUMENTS;
use crate::transform::pipeline::{check_rows, plain_options};
use crate::transform::primitive_rows::PRIMITIVE_ROWS;
use keyed_hash::HashKeys;
use prim_registry::{Action, Flat, Prim, PrimMeaning, Registry, STANDARD, Standard};
use std::alloc::{AllocError, Global};
use std::test::Fail;
use str_pipeline::{Counted, MAX_BUDGET, Options, transform};
use term_model::Fault;

#[test]
fn primitive_rows(rt: HostRuntime) -> Result<(), Fail> {
    let alloc = rt.alloc();
    let mut registry = Registry::<Standard>::new(alloc);
    for primitive in STANDARD {
        let action: Action = Box::new(
            alloc,
            move |args: &[Flat]| -> Result<Option<Flat>, AllocError> {
                primitive.answer(alloc, args)
            },
        )?;
        let name = primitive.name().to_vec(alloc)?;
        registry.register(Prim::new(name, primitive.arity(), action))?;
    }
    for rows in [PRIMITIVE_ROWS, ANNOTATED_ARGUMENTS] {
        check_rows(alloc, "", rows, &registry)?;
    }
    Ok(())
}

/// Runs a program that adds the parts of its term, if that is a pair. Returns whether the run ends with the fault `Memory` and writes
/// nothing, exactly if it is to (`is_fault`).
fn is_memory_fault(
    alloc: Global,
    term: &[u8],
    is_fault: bool,
    options: &Options,
    registry: &Registry<Standard>,
) -> bool
    requires budget { options.now.budget ≤ max_budget }
    requires honest { IsHonest ⟦<Standard as PrimMeaning>⟧.answer registry.now }
{
    let mut first = Counted::new(b"strategies main = ?(x,y); prim(\"add\",x,y)".as_slice());
    let mut second = Counted::new(term);
    let mut out = Counted::new(Vec::new(alloc));
    let answer = transform(
        alloc,
        HashKeys::known(),
        &mut first,
        &mut second,
        options,
        registry,
        &mut out,
    );
    matches!(answer, Err(Fault::Memory)) == is_fault && out.into_inner().is_empty() == is_fault
}

#[test]
fn a_primitive_without_memory(rt: HostRuntime) -> Result<(), Fail> {
    let alloc = rt.alloc();
    let options = plain_options(alloc, MAX_BUDGET)?;
    let mut registry = Registry::<Standard>::new(alloc);
    let action: Action = Box::new(
        alloc,
        |_args: &[Flat]| -> Result<Option<Flat>, AllocError> { Err(AllocError) },
    )?;
    registry.register(Prim::new(b"add".to_vec(alloc)?, 2, action))?;
    if !is_memory_fault(alloc, b"(2,3)", true, &options, &registry) {
        return Err(Fail::new("a pair, for which the primitive is called"));
    }
    if !is_memory_fault(alloc, b"2", false, &options, &registry) {
        return Err(Fail::new("a number, for which it is not called"));
    }
    Ok(())
}
