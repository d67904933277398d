//! Runs the programs of many cases by the plain evaluator and by the machine over a store, and compares how they end and how many rules they
//! take. The cases stand on standard input, as `case` describes them. Prints how many runs were compared, with their rules and the
//! machine's steps in all, and how many cases were refused; where two runs differ, the number of the case is reported and the status is 1.
#![tactic(auto)]

ghost use Rattle.prim_registry.specs.Entries.{IsHonest};

mod case;
mod runs;

use case::cases_in;
use prim_registry::{Action, Flat, Prim, PrimMeaning, Registry, STANDARD, Standard};
use runs::{Compared, compare};
use std::alloc::{AllocError, Global};
use std::io::{Read, Write};
use std::process::ExitCode;
use term_model::Fault;

/// What was found so far.
#[derive(Drop)]
struct Totals {
    runs: u64,
    refused: u64,
    rules: u64,
    steps: u64,
}

impl Totals {
    fn none() -> Totals {
        Totals {
            runs: 0,
            refused: 0,
            rules: 0,
            steps: 0,
        }
    }

    /// Adds a case, and returns whether its runs do not differ; a refused case has none.
    fn add(&mut self, compared: &Compared) -> bool {
        match compared {
            Compared::Same { rules, steps } => {
                self.runs = self.runs.saturating_add(1);
                self.rules = self.rules.saturating_add(*rules);
                self.steps = self.steps.saturating_add(*steps);
                true
            }
            Compared::Refused => {
                self.refused = self.refused.saturating_add(1);
                true
            }
            Compared::Different => false,
        }
    }
}

/// What both runs of each case say, or the number of the first case, from 0 on, whose runs differ.
fn compare_all(
    alloc: Global,
    text: &[u8],
    registry: &Registry<Standard>,
) -> Result<Result<Totals, usize>, Fault>
    requires { IsHonest ⟦<Standard as PrimMeaning>⟧.answer registry.now }
{
    let mut totals = Totals::none();
    let cases = cases_in(alloc, text)?;
    for (index, case) in cases.iter().enumerate() {
        let compared = compare(alloc, case, registry)?;
        if !totals.add(&compared) {
            return Ok(Err(index));
        }
    }
    Ok(Ok(totals))
}

fn main(rt: HostRuntime) -> Result<ExitCode, Fault> {
    let alloc = rt.alloc();
    let mut registry = Registry::<Standard>::new(alloc);
    for primitive in STANDARD {
        let action: Action = Box::new(
            alloc,
            move |args: &[Flat]| -> Result<Option<Flat>, AllocError> {
                primitive.answer(alloc, args)
            },
        )?;
        let name = primitive.name().to_vec(alloc)?;
        registry.register(Prim::new(name, primitive.arity(), action))?;
    }
    let mut text = Vec::new(alloc);
    rt.stdin().read_to_end(&mut text).map_err(|_| Fault::Read)?;
    match compare_all(alloc, &text, &registry)? {
        Ok(totals) => {
            let (runs, rules, steps) = (totals.runs, totals.rules, totals.steps);
            let refused = totals.refused;
            println!(rt;
                "{runs} runs are the same: {rules} rules, {steps} steps; {refused} cases are refused"
            ).map_err(|_| Fault::Write)?;
            Ok(ExitCode::SUCCESS)
        }
        Err(index) => {
            eprintln!(rt; "the runs of case {index} differ").map_err(|_| Fault::Write)?;
            Ok(ExitCode::FAILURE)
        }
    }
}
