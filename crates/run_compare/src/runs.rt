//! The two runs of a case.
ghost use Rattle.std.specs.Prelude.{◌≤◌};
ghost use Rattle.prim_registry.specs.Entries.{IsHonest};
ghost use Rattle.prim_registry.specs.RegistryNames.{Covers};

use crate::case::Case;
use aterm_text::read_term;
use core_eval::eval;
use core_lang::{Core, Outcome, Run};
use keyed_hash::HashKeys;
use prim_registry::{PrimMeaning, Registry, Standard};
use scope_check::check;
use std::alloc::{AllocError, Global};
use str_desugar::to_core;
use str_lexer::lex;
use str_parser::parse;
use strat_compile::compile;
use strat_machine::Machine;
use strategy_lib::with_library;
use term_model::{Fault, Term, TermSpace};
use term_store::StoreSpace;

/// The greatest budget of the evaluator, whose calls nest.
const MOST: u32 = 2_000;

/// What two runs of a case say.
#[derive(Drop)]
pub(crate) enum Compared {
    /// Both end in the same way after the same number of rules; with the steps that the machine took.
    Same { rules: u64, steps: u64 },
    /// They end in different ways, or after different numbers of rules, or the machine took too many steps for its rules.
    Different,
    /// The definitions or the term are refused.
    Refused,
}

/// Compares the two runs of a case, whose budget is cut to 2,000 rules. The fault is `Memory`.
pub(crate) fn compare(
    alloc: Global,
    case: &Case,
    registry: &Registry<Standard>,
) -> Result<Compared, Fault>
    requires { IsHonest ⟦<Standard as PrimMeaning>⟧.answer registry.now }
{
    let (core, term) = match read_case(alloc, case, registry) {
        Ok(read) => read,
        Err(Fault::Memory) => return Err(Fault::Memory),
        Err(_) => return Ok(Compared::Refused),
    };
    if !registry.covers(core.prims()) {
        return Ok(Compared::Refused);
    }
    let budget = u64::from(case.budget.min(MOST));
    let plain = eval(alloc, &core, &term, budget, registry)?;
    let store = StoreSpace::new(alloc, HashKeys::known());
    let compiled = run_compiled(alloc, store, &core, &term, budget, registry)?;
    if plain.outcome != compiled.outcome || plain.rules != compiled.rules {
        return Ok(Compared::Different);
    }
    if compiled.steps > compiled.rules.saturating_mul(3).saturating_add(1) {
        return Ok(Compared::Different);
    }
    Ok(Compared::Same {
        rules: compiled.rules,
        steps: compiled.steps,
    })
}

/// The core of the definitions, and the term.
fn read_case(
    alloc: Global,
    case: &Case,
    registry: &Registry<Standard>,
) -> Result<(Core, Term), Fault> {
    let definitions = &case.definitions;
    let tokens = lex(alloc, definitions)?;
    let file = parse(alloc, definitions, &tokens)?;
    let file = with_library(alloc, file)?;
    let names = registry.names(alloc)?;
    let checked = check(alloc, HashKeys::known(), file, &names, &case.main)?;
    let core = to_core(alloc, HashKeys::known(), &checked)?;
    let term = read_term(alloc, &case.term)?;
    Ok((core, term))
}

/// The run of the core's code on the machine over the space.
fn run_compiled<S: TermSpace + Drop>(
    alloc: Global,
    space: S,
    core: &Core,
    term: &Term,
    budget: u64,
    registry: &Registry<Standard>,
) -> Result<Run<Term>, Fault>
    requires budget { budget ≤ 2_000 }
    requires honest { IsHonest ⟦<Standard as PrimMeaning>⟧.answer registry.now }
    requires covers { Covers registry.now core.now.prims }
{
    let code = compile(alloc, core)?;
    let mut machine = Machine::new(alloc, space);
    let entered = machine.enter(term)?;
    let run = machine.run(&code, entered, budget, registry)?;
    let outcome = match &run.outcome {
        Outcome::Rewritten(made) => Outcome::Rewritten(machine.leave(made)?),
        Outcome::Failed => Outcome::Failed,
        Outcome::Oversize => Outcome::Oversize,
        Outcome::Spent => Outcome::Spent,
    };
    Ok(Run {
        outcome,
        rules: run.rules,
        steps: run.steps,
    })
}
