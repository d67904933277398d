//! Whole runs over the readers and writers of std in memory.
ghost use Rattle.std.specs.Prelude.{◌≤◌, IfOk};
ghost use Rattle.prim_registry.specs.Entries.{IsHonest};
ghost use Rattle.term_model.specs.Limits.{max_budget};
ghost use Rattle.str_pipeline.specs.Setting.{setting_of};
ghost use Rattle.str_pipeline.specs.Written.{IsWritten};

use crate::transform::pipeline::plain_options;
use keyed_hash::HashKeys;
use prim_registry::{PrimMeaning, Registry, Standard};
use std::alloc::Global;
use std::test::Fail;
use str_pipeline::{Counted, MAX_BUDGET, Options, Status, transform};
use term_model::Fault;

/// The status of a run, and what was written.
#[derive(Drop)]
pub(crate) struct Answer {
    pub(crate) status: Status,
    pub(crate) line: Vec<u8>,
}

/// Transforms texts in memory: the line and the status are those of the definitions, the term, the
/// options and the primitives of the registry.
#[tactic(auto, using(str_pipeline::proofs::MemoryLaws::written_whole))]
pub(crate) fn transform_texts<M: PrimMeaning>(
    alloc: Global,
    definitions: &[u8],
    term: &[u8],
    options: &Options,
    registry: &Registry<M>,
) -> Result<Answer, Fault>
    requires budget { options.now.budget ≤ max_budget }
    requires honest { IsHonest M.answer registry.now }
    ensures { IfOk result (λ answer. IsWritten definitions.now term.now
        (setting_of M.answer registry.now options.now) answer.status answer.line.items) }
{
    let mut first = Counted::new(definitions);
    let mut second = Counted::new(term);
    let mut out = Counted::new(Vec::new(alloc));
    let status = transform(
        alloc,
        HashKeys::known(),
        &mut first,
        &mut second,
        options,
        registry,
        &mut out,
    )?;
    Ok(Answer {
        status,
        line: out.into_inner(),
    })
}

/// Definitions, a term, a budget, and the line.
const ROWS: &[(&str, &str, u64, &str)] = &[
    (
        "strategies main = ?(x,_); !x",
        "(7,f(1))",
        MAX_BUDGET,
        "7\n",
    ),
    ("strategies main = ?(x,_); !x", "7", MAX_BUDGET, "#failed\n"),
    ("strategies main = ?(x,_); !x", "(7,1)", 4, "#spent\n"),
    ("strategies main = rec x(x)", "7", 100, "#spent\n"),
    (
        "strategies main = id",
        "(7,",
        MAX_BUDGET,
        "#refused TermSyntax\n",
    ),
    ("strategies main = #", "7", MAX_BUDGET, "#refused Lexical\n"),
    (
        "strategies main = go",
        "7",
        MAX_BUDGET,
        "#refused UnknownStrategy\n",
    ),
];

/// Whether definitions and a term give this line within the budget, and the status of a term where it is one.
fn gives(alloc: Global, defs: &str, term: &str, budget: u64, line: &str) -> Result<bool, Fault>
    requires { budget ≤ max_budget }
{
    let options = plain_options(alloc, budget)?;
    let registry = Registry::<Standard>::new(alloc);
    let answer = transform_texts(alloc, defs.as_bytes(), term.as_bytes(), &options, &registry)?;
    let is_term = matches!(answer.status, Status::Rewritten);
    Ok(answer.line.as_slice() == line.as_bytes() && is_term != line.starts_with("#"))
}

#[test]
fn texts_in_memory(rt: HostRuntime) -> Result<(), Fail> {
    for (defs, term, budget, line) in ROWS {
        if !gives(rt.alloc(), defs, term, (*budget).min(MAX_BUDGET), line)? {
            return Err(Fail::from((defs, term)));
        }
    }
    Ok(())
}
