//! Small programs, each with the ending and the number of nodes that the derivation rules give.
ghost use Rattle.std.specs.Prelude.{◌≤◌};
ghost use Rattle.prim_registry.specs.Entries.{IsHonest};

mod annotated_builds;
mod annotated_matches;
mod call_rows;
mod compiled;
mod copied_patterns;
mod large_rows;
mod library_rows;
mod pattern_rows;
mod primitive_rows;
mod range_rows;
mod rows;
mod texts;
mod traversal_rows;
mod tree_rows;
mod words;

use crate::evaluator::annotated_builds::ANNOTATED_BUILDS;
use crate::evaluator::annotated_matches::ANNOTATED_MATCHES;
use crate::evaluator::call_rows::CALLS;
use crate::evaluator::compiled::core_of_row;
use crate::evaluator::copied_patterns::{EVERY_FORM, OTHER_FORMS};
use crate::evaluator::large_rows::{LARGE_ANNOTATIONS, LARGE_ARGUMENTS, LARGE_TERMS};
use crate::evaluator::library_rows::LIBRARY;
use crate::evaluator::pattern_rows::PATTERNS;
use crate::evaluator::primitive_rows::{ADD, PRIMITIVES};
use crate::evaluator::range_rows::RANGES;
use crate::evaluator::rows::{DEFINITIONS, ENDLESS, MAIN_IS, Row, STRATEGIES};
use crate::evaluator::texts::text_of_term;
use crate::evaluator::traversal_rows::TRAVERSALS;
use crate::evaluator::tree_rows::{LARGE_TREES, TREES, TreeRow};
use crate::evaluator::words::{Word, pattern, program};
use aterm_text::{read_term, write_term};
use core_eval::eval;
use core_lang::{Core, CorePattern, Outcome, Run};
use prim_registry::{Action, Flat, Prim, PrimMeaning, Registry, STANDARD, Standard};
use std::alloc::{AllocError, Global};
use std::test::Fail;
use term_model::{Fault, Term};

/// The run of the core, each primitive of which is in the registry.
fn run(
    alloc: Global,
    core: &Core,
    term: &Term,
    budget: u32,
    registry: &Registry<Standard>,
) -> Result<Run<Term>, Fault>
    requires budget { budget ≤ 2_000 }
    requires honest { IsHonest ⟦<Standard as PrimMeaning>⟧.answer registry.now }
{
    if !registry.covers(core.prims()) {
        return Err(Fault::UnknownPrimitive);
    }
    Ok(eval(alloc, core, term, u64::from(budget), registry)?)
}

/// The text of the term to which a run leads, or the word for its other ending.
fn line_of(alloc: Global, outcome: &Outcome<Term>) -> Result<Vec<u8>, AllocError> {
    let mut line = Vec::new(alloc);
    match outcome {
        Outcome::Rewritten(term) => write_term(term, &mut line)?,
        Outcome::Failed => line.extend_from_slice(b"#failed")?,
        Outcome::Oversize => line.extend_from_slice(b"#oversize")?,
        Outcome::Spent => line.extend_from_slice(b"#spent")?,
    }
    Ok(line)
}

/// Whether the run within the budget ends with this line, by so many rules.
fn ends(
    alloc: Global,
    core: &Core,
    term: &Term,
    budget: u32,
    registry: &Registry<Standard>,
    line: &[u8],
    rules: u32,
) -> Result<bool, Fault>
    requires budget { budget ≤ 2_000 }
    requires honest { IsHonest ⟦<Standard as PrimMeaning>⟧.answer registry.now }
{
    let run = run(alloc, core, term, budget, registry)?;
    if run.rules != u64::from(rules) || run.steps != 0 {
        return Ok(false);
    }
    Ok(line_of(alloc, &run.outcome)?.as_slice() == line)
}

/// Whether the run uses up the budget.
fn is_spent(
    alloc: Global,
    core: &Core,
    term: &Term,
    budget: u32,
    registry: &Registry<Standard>,
) -> Result<bool, Fault>
    requires budget { budget ≤ 2_000 }
    requires honest { IsHonest ⟦<Standard as PrimMeaning>⟧.answer registry.now }
{
    ends(alloc, core, term, budget, registry, b"#spent", budget)
}

/// Whether the run ends so with the whole budget and with that of its rules, and is spent with one less.
fn ends_by(
    alloc: Global,
    core: &Core,
    term: &Term,
    registry: &Registry<Standard>,
    line: &[u8],
    rules: u32,
) -> Result<bool, Fault>
    requires rules { rules ≤ 2_000 }
    requires honest { IsHonest ⟦<Standard as PrimMeaning>⟧.answer registry.now }
{
    Ok(
        ends(alloc, core, term, 2000, registry, line, rules)?
            && ends(alloc, core, term, rules, registry, line, rules)?
            && is_spent(alloc, core, term, rules.saturating_sub(1), registry)?,
    )
}

/// Whether the run on the term of this text ends so, by so many rules.
fn is_met(
    alloc: Global,
    core: &Core,
    term: &str,
    line: &str,
    rules: u32,
    registry: &Registry<Standard>,
) -> Result<bool, Fault>
    requires { IsHonest ⟦<Standard as PrimMeaning>⟧.answer registry.now }
{
    let line = text_of_term(alloc, line)?;
    let term = read_term(alloc, &text_of_term(alloc, term)?)?;
    ends_by(alloc, core, &term, registry, &line, rules.min(2000))
}

/// Whether the definitions of a row, of which this is the front, do on its term as it says.
fn is_met_by_text(
    alloc: Global,
    front: &str,
    row: &Row,
    registry: &Registry<Standard>,
) -> Result<bool, Fault>
    requires { IsHonest ⟦<Standard as PrimMeaning>⟧.answer registry.now }
{
    let Row(text, term, line, rules) = row;
    let core = core_of_row(alloc, front, text, registry)?;
    is_met(alloc, &core, term, line, *rules, registry)
}

/// The definitions of each row, after this front, do on its term as it says.
fn check_rows(
    alloc: Global,
    front: &str,
    rows: &[Row],
    registry: &Registry<Standard>,
) -> Result<(), Fail>
    requires { IsHonest ⟦<Standard as PrimMeaning>⟧.answer registry.now }
{
    for row in rows {
        if !is_met_by_text(alloc, front, row, registry)? {
            return Err(Fail::from((row.0, row.1)));
        }
    }
    Ok(())
}

#[test]
fn strategies(rt: HostRuntime) -> Result<(), Fail> {
    let registry = Registry::<Standard>::new(rt.alloc());
    for rows in [
        STRATEGIES,
        TRAVERSALS,
        PATTERNS,
        ANNOTATED_MATCHES,
        ANNOTATED_BUILDS,
    ] {
        check_rows(rt.alloc(), MAIN_IS, rows, &registry)?;
    }
    Ok(())
}

#[test]
fn definitions(rt: HostRuntime) -> Result<(), Fail> {
    let registry = Registry::<Standard>::new(rt.alloc());
    for rows in [CALLS, LIBRARY] {
        check_rows(rt.alloc(), DEFINITIONS, rows, &registry)?;
    }
    Ok(())
}

/// Rows on long strings. Under `rt try`, whose checks make runs slower, they take minutes.
#[test]
fn large_terms(rt: HostRuntime) -> Result<(), Fail> {
    let registry = Registry::<Standard>::new(rt.alloc());
    check_rows(rt.alloc(), MAIN_IS, LARGE_TERMS, &registry)?;
    check_rows(rt.alloc(), DEFINITIONS, LARGE_ARGUMENTS, &registry)
}

#[test]
fn large_annotations(rt: HostRuntime) -> Result<(), Fail> {
    let registry = Registry::<Standard>::new(rt.alloc());
    check_rows(rt.alloc(), MAIN_IS, LARGE_ANNOTATIONS, &registry)
}

#[test]
fn primitives(rt: HostRuntime) -> Result<(), Fail> {
    let alloc = rt.alloc();
    let mut registry = Registry::<Standard>::new(alloc);
    for primitive in STANDARD {
        let action: Action = Box::new(
            alloc,
            move |args: &[Flat]| -> Result<Option<Flat>, AllocError> {
                primitive.answer(alloc, args)
            },
        )?;
        let name = primitive.name().to_vec(alloc)?;
        registry.register(Prim::new(name, primitive.arity(), action))?;
    }
    check_rows(alloc, MAIN_IS, PRIMITIVES, &registry)
}

/// Whether the run of the strategy on the pair of 2 and 3 is refused memory.
fn is_refused_memory(
    alloc: Global,
    strategy: &str,
    registry: &Registry<Standard>,
) -> Result<bool, Fault>
    requires { IsHonest ⟦<Standard as PrimMeaning>⟧.answer registry.now }
{
    let core = core_of_row(alloc, MAIN_IS, strategy, registry)?;
    let term = read_term(alloc, b"(2,3)")?;
    let answer = run(alloc, &core, &term, 2000, registry);
    Ok(matches!(answer, Err(Fault::Memory)))
}

/// A primitive that is refused memory makes the run end with the fault `Memory`.
#[test]
fn a_primitive_without_memory(rt: HostRuntime) -> Result<(), Fail> {
    let alloc = rt.alloc();
    let mut registry = Registry::<Standard>::new(alloc);
    let action: Action = Box::new(
        alloc,
        |_args: &[Flat]| -> Result<Option<Flat>, AllocError> { Err(AllocError) },
    )?;
    registry.register(Prim::new(b"add".to_vec(alloc)?, 2, action))?;
    if !is_refused_memory(alloc, ADD, &registry)? {
        return Err(Fail::new("another answer"));
    }
    Ok(())
}

/// Whether the definitions, which have no end, use up the budget.
fn uses_up(alloc: Global, definitions: &str, budget: u32) -> Result<bool, Fault>
    requires { budget ≤ 2_000 }
{
    let registry = Registry::<Standard>::new(alloc);
    let core = core_of_row(alloc, DEFINITIONS, definitions, &registry)?;
    is_spent(alloc, &core, &Term::int(alloc, 1)?, budget, &registry)
}

/// Each of the definitions without an end uses up the budget.
fn check_endless(alloc: Global, budget: u32) -> Result<(), Fail>
    requires { budget ≤ 2_000 }
{
    for definitions in ENDLESS {
        if !uses_up(alloc, definitions, budget)? {
            return Err(Fail::from((definitions, budget)));
        }
    }
    Ok(())
}

#[test]
fn endless(rt: HostRuntime) -> Result<(), Fail> {
    for budget in [0, 1, 1000] {
        check_endless(rt.alloc(), budget)?;
    }
    Ok(())
}

/// The deepest recursion. tools/stack runs it in a stack of 2 MB. Under `rt try`, whose checks make frames larger and runs
/// slower, it ends with no answer.
#[test]
fn whole_budget(rt: HostRuntime) -> Result<(), Fail> {
    check_endless(rt.alloc(), 2000)
}

/// The core of the program of these words.
fn core_of(alloc: Global, words: &[Word]) -> Result<Box<Core>, Fail> {
    let definitions = program(alloc, words)?;
    if !Core::in_range(&definitions, 0) {
        return Err(Fail::new("out of range"));
    }
    Ok(Box::new(alloc, Core::new(alloc, definitions, 0)?)?)
}

/// Whether the program of a row's words does on its term as it says.
fn is_met_by_words(alloc: Global, row: &TreeRow) -> Result<bool, Fail> {
    let TreeRow(_, words, term, line, rules) = row;
    let registry = Registry::<Standard>::new(alloc);
    let core = core_of(alloc, words)?;
    Ok(is_met(alloc, &core, term, line, *rules, &registry)?)
}

#[test]
fn trees(rt: HostRuntime) -> Result<(), Fail> {
    for row in TREES.iter().chain(LARGE_TREES) {
        if !is_met_by_words(rt.alloc(), row)? {
            return Err(Fail::new(row.0));
        }
    }
    Ok(())
}

/// Whether the call of the program's main is in range.
fn is_in_range(alloc: Global, words: &[Word], main: usize) -> Result<bool, Fail> {
    let definitions = program(alloc, words)?;
    Ok(Core::in_range(&definitions, main))
}

#[test]
fn ranges(rt: HostRuntime) -> Result<(), Fail> {
    for (name, words, main, is_there) in RANGES {
        if is_in_range(rt.alloc(), words, *main)? != *is_there {
            return Err(Fail::new(name));
        }
    }
    Ok(())
}

/// The copy of the pattern with every form.
fn copy_of_every_form(alloc: Global) -> Result<Box<CorePattern>, Fail> {
    let every = pattern(alloc, EVERY_FORM)?;
    Ok(Box::new(alloc, every.copy(alloc)?)?)
}

/// Whether the copy is the pattern of these words.
fn is_copied_as(alloc: Global, words: &[Word]) -> Result<bool, Fail> {
    let copy = copy_of_every_form(alloc)?;
    let expected = pattern(alloc, words)?;
    Ok(*copy == *expected)
}

#[test]
fn copies(rt: HostRuntime) -> Result<(), Fail> {
    if !is_copied_as(rt.alloc(), EVERY_FORM)? {
        return Err(Fail::new("another copy"));
    }
    for words in OTHER_FORMS {
        if is_copied_as(rt.alloc(), words)? {
            return Err(Fail::new("the copy of another pattern"));
        }
    }
    Ok(())
}
