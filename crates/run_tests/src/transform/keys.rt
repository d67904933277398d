//! Runs with other keys of hash tables. A second run in one process may have the same keys or others.
ghost use Rattle.std.specs.Prelude.{◌≤◌};
ghost use Rattle.prim_registry.specs.Entries.{IsHonest};
ghost use Rattle.term_model.specs.Limits.{max_budget};

use crate::transform::pipeline::plain_options;
use keyed_hash::HashKeys;
use prim_registry::{PrimMeaning, Registry, Standard};
use std::alloc::Global;
use std::io;
use std::random::RandomSource;
use std::test::Fail;
use str_pipeline::{Counted, MAX_BUDGET, Options, transform};
use term_model::Fault;

/// Words of which keys are made: zero, equal, even and the greatest.
const WORDS: &[(u64, u64)] = &[
    (0, 0),
    (1, 1),
    (6, 4),
    (0, 0x9e37_79b9_7f4a_7c15),
    (u64::MAX, u64::MAX),
];

/// A program whose names do not fit into a short list.
const DEFINITIONS: &[u8] = b"strategies
main = {a,b,c,d,e,f,g,h,i,j: ?[a,b,c,d,e,f,g,h,i,j]; ![j,i,h,g,f,e,d,c,b,a,\"a text of over sixteen bytes\"]}";

/// Its term: short and long symbols, a number and a list.
const TERM: &[u8] =
    b"[A,\"b\",Long_constructor(1),\"another one of over sixteen bytes\",[],5,6,7,8,9]";

/// What is written.
const LINE: &[u8] =
    b"[9,8,7,6,5,[],\"another one of over sixteen bytes\",Long_constructor(1),\"b\",A,\"a text of over sixteen bytes\"]\n";

/// A source that has no random bytes.
struct Exhausted;

impl RandomSource for Exhausted {
    fn fill_bytes(&self, _buf: &mut [u8]) -> io::Result<()> {
        Err(io::Error::from_raw_os_error(5))
    }
}

/// Returns whether a run with these keys writes the line.
fn is_the_same(
    alloc: Global,
    keys: HashKeys,
    options: &Options,
    registry: &Registry<Standard>,
) -> Result<bool, Fault>
    requires budget { options.now.budget ≤ max_budget }
    requires honest { IsHonest ⟦<Standard as PrimMeaning>⟧.answer registry.now }
{
    let mut definitions = Counted::new(DEFINITIONS);
    let mut term = Counted::new(TERM);
    let mut out = Counted::new(Vec::new(alloc));
    transform(
        alloc,
        keys,
        &mut definitions,
        &mut term,
        options,
        registry,
        &mut out,
    )?;
    Ok(out.into_inner().as_slice() == LINE)
}

#[test]
fn keys_change_no_answer(rt: HostRuntime) -> Result<(), Fail> {
    let options = plain_options(rt.alloc(), MAX_BUDGET)?;
    let registry = Registry::<Standard>::new(rt.alloc());
    for (state, multiplier) in WORDS {
        for keys in [HashKeys::new(*state, *multiplier), HashKeys::draw(&rt)] {
            if !is_the_same(rt.alloc(), keys, &options, &registry)? {
                return Err(Fail::from((*state, *multiplier)));
            }
        }
    }
    Ok(())
}

#[test]
fn keys_without_random_bytes(rt: HostRuntime) -> Result<(), Fail> {
    if HashKeys::draw(&Exhausted) != HashKeys::known() {
        return Err(Fail::new("drawn from nothing"));
    }
    Ok(())
}
