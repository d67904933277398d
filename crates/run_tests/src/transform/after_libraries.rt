//! Runs over the joined form after the text of libraries.
ghost use Rattle.std.specs.Prelude.{◌≤◌};
ghost use Rattle.prim_registry.specs.Entries.{IsHonest};
ghost use Rattle.term_model.specs.Limits.{max_budget};

use crate::transform::pipeline::plain_options;
use keyed_hash::HashKeys;
use prim_registry::{PrimMeaning, Registry, Standard};
use std::alloc::Global;
use std::test::Fail;
use str_pipeline::{Counted, MAX_BUDGET, Options, RunNotes, transform_joined_with_notes};
use term_model::Fault;

/// The text of libraries, the input after it, and the line.
const ROWS: &[(&str, &str, &str)] = &[
    (
        "strategies swap = {a,b: ?[a,b]; ![b,a]}\n",
        "strategies main = swap\n#term\n[1,2]",
        "[2,1]\n",
    ),
    ("strategies main = id", "#term\n1", "1\n"),
    ("strategies main = id\n", "", "#refused TermSyntax\n"),
    (
        "strategies main = id\n#term\n",
        "#term\n1",
        "#refused Lexical\n",
    ),
];

/// Returns whether a run over these texts writes the line.
fn gives(
    alloc: Global,
    row: &(&str, &str, &str),
    options: &Options,
    registry: &Registry<Standard>,
) -> Result<bool, Fault>
    requires budget { options.now.budget ≤ max_budget }
    requires honest { IsHonest ⟦<Standard as PrimMeaning>⟧.answer registry.now }
{
    let (libraries, input, line) = row;
    let mut notes = RunNotes::none();
    let mut libraries = Counted::new(libraries.as_bytes());
    let mut input = Counted::new(input.as_bytes());
    let mut out = Counted::new(Vec::new(alloc));
    transform_joined_with_notes(
        alloc,
        HashKeys::known(),
        &mut libraries,
        &mut input,
        options,
        registry,
        &mut notes,
        &mut out,
    )?;
    Ok(out.into_inner().as_slice() == line.as_bytes())
}

#[test]
fn joined_form_after_libraries(rt: HostRuntime) -> Result<(), Fail> {
    let options = plain_options(rt.alloc(), MAX_BUDGET)?;
    let registry = Registry::<Standard>::new(rt.alloc());
    for row in ROWS {
        if !gives(rt.alloc(), row, &options, &registry)? {
            return Err(Fail::new(row.2));
        }
    }
    Ok(())
}
