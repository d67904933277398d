//! One program for several terms. What is expected was worked out by hand.
ghost use Rattle.std.specs.Prelude.{◌≤◌, length};
ghost use Rattle.prim_registry.specs.Entries.{IsHonest, entries_of};
ghost use Rattle.prim_registry.specs.RegistryNames.{Covers};
ghost use Rattle.str_pipeline.specs.Limits.{max_term};
ghost use Rattle.str_pipeline.specs.Steps.{IsReady};
ghost use Rattle.term_model.specs.Limits.{max_budget};

use crate::transform::pipeline::plain_options;
use keyed_hash::HashKeys;
use prim_registry::{PrimMeaning, Registry, Standard};
use std::alloc::Global;
use std::test::Fail;
use str_pipeline::{Counted, MAX_BUDGET, Options, Program, RunNotes};
use term_model::Fault;

/// A program with a table of constructors and a term that is kept.
const DEFINITIONS: &[u8] = b"signature constructors F : T -> T G : T * T -> T
    rules r : F(x) -> G(x,[1,2]) r : G(x,y) -> y strategies main = r";

/// A term that is rewritten, and its line.
const TERM: &[u8] = b"F(New(7))";

const LINE: &[u8] = b"G(New(7),[1,2])\n";

/// Returns the line that the program writes for this term. What the run used is noted.
fn line_of(
    alloc: Global,
    program: &mut Program,
    text: &[u8],
    options: &Options,
    registry: &Registry<Standard>,
    notes: &mut RunNotes,
) -> Result<Vec<u8>, Fault>
    requires fits { length text.now ≤ max_term }
    requires budget { options.now.budget ≤ max_budget }
    requires honest { IsHonest ⟦<Standard as PrimMeaning>⟧.answer registry.now }
    requires covers { Covers registry.now program.old.code.prims }
    requires ready { IsReady (entries_of registry.now) program.old }
    ensures covers { Covers registry.now program.new.code.prims }
    ensures ready { IsReady (entries_of registry.now) program.new }
{
    let mut out = Counted::new(Vec::new(alloc));
    program.rewrite(alloc, text, options, registry, notes, &mut out)?;
    Ok(out.into_inner())
}

/// Returns whether a text that is too long to be kept has its line.
fn refuses_long(alloc: Global, program: &Program) -> Result<bool, Fault> {
    let mut notes = RunNotes::none();
    let mut out = Counted::new(Vec::new(alloc));
    program.refuse_long(alloc, &mut notes, &mut out)?;
    Ok(out.into_inner().as_slice() == b"#refused TermTooLong\n".as_slice())
}

/// Returns whether a term that is refused and one that fails have the lines of runs of their own.
fn gives_lines(
    alloc: Global,
    program: &mut Program,
    options: &Options,
    registry: &Registry<Standard>,
) -> Result<bool, Fault>
    requires budget { options.now.budget ≤ max_budget }
    requires honest { IsHonest ⟦<Standard as PrimMeaning>⟧.answer registry.now }
    requires covers { Covers registry.now program.old.code.prims }
    requires ready { IsReady (entries_of registry.now) program.old }
    ensures covers { Covers registry.now program.new.code.prims }
    ensures ready { IsReady (entries_of registry.now) program.new }
{
    let mut notes = RunNotes::none();
    let refused = line_of(alloc, program, b"F(G(7,New(", options, registry, &mut notes)?;
    let failed = line_of(
        alloc,
        program,
        b"[\"text\",F(7)]",
        options,
        registry,
        &mut notes,
    )?;
    Ok(
        refused.as_slice() == b"#refused TermSyntax\n".as_slice()
            && failed.as_slice() == b"#failed\n".as_slice(),
    )
}

/// Returns whether a term has the same line, and its run uses as much, before and after other terms: none of them is still held.
fn gives_the_same(
    alloc: Global,
    program: &mut Program,
    options: &Options,
    registry: &Registry<Standard>,
) -> Result<bool, Fault>
    requires budget { options.now.budget ≤ max_budget }
    requires honest { IsHonest ⟦<Standard as PrimMeaning>⟧.answer registry.now }
    requires covers { Covers registry.now program.old.code.prims }
    requires ready { IsReady (entries_of registry.now) program.old }
{
    let (mut before, mut after) = (RunNotes::none(), RunNotes::none());
    let first = line_of(alloc, program, TERM, options, registry, &mut before)?;
    let between = gives_lines(alloc, program, options, registry)?;
    let last = line_of(alloc, program, TERM, options, registry, &mut after)?;
    Ok(
        between
            && first.as_slice() == LINE
            && last.as_slice() == LINE
            && before.used().copied() == after.used().copied(),
    )
}

/// Returns whether a program gives what it should for several terms, and for a text that is too long.
fn gives_all(
    alloc: Global,
    program: &mut Program,
    options: &Options,
    registry: &Registry<Standard>,
) -> Result<bool, Fault>
    requires budget { options.now.budget ≤ max_budget }
    requires honest { IsHonest ⟦<Standard as PrimMeaning>⟧.answer registry.now }
    requires covers { Covers registry.now program.old.code.prims }
    requires ready { IsReady (entries_of registry.now) program.old }
{
    Ok(refuses_long(alloc, program)? && gives_the_same(alloc, program, options, registry)?)
}

/// Returns whether the program of the definitions does so.
fn rewrites_all(
    alloc: Global,
    options: &Options,
    registry: &Registry<Standard>,
) -> Result<bool, Fault>
    requires budget { options.now.budget ≤ max_budget }
    requires honest { IsHonest ⟦<Standard as PrimMeaning>⟧.answer registry.now }
{
    let keys = HashKeys::known();
    let mut notes = RunNotes::none();
    let mut program = Program::new(alloc, keys, DEFINITIONS, options, registry, &mut notes)?;
    gives_all(alloc, &mut program, options, registry)
}

#[test]
fn one_program_for_several_terms(rt: HostRuntime) -> Result<(), Fail> {
    let options = plain_options(rt.alloc(), MAX_BUDGET)?;
    let registry = Registry::<Standard>::new(rt.alloc());
    if !rewrites_all(rt.alloc(), &options, &registry)? {
        return Err(Fail::new("another line, or another use"));
    }
    Ok(())
}
