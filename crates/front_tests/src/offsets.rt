//! Where the parts of core programs stand in their files; what is expected was counted by hand.
use crate::front::{core_of, read};
use core_lang::{Core, CoreArm, CoreDef, CoreStrategy};
use std::alloc::{AllocError, Global};
use std::test::Fail;

#[cycle(offsets)]
fn put_strategy(source: &CoreStrategy, found: &mut Vec<u64>) -> Result<(), AllocError> {
    match source {
        CoreStrategy::Id | CoreStrategy::Fail | CoreStrategy::Primitive(_, _) => Ok(()),
        CoreStrategy::Sequence(first, second, others) => {
            put_strategy(first, found)?;
            put_strategy(second, found)?;
            put_strategies(others, found)
        }
        CoreStrategy::Choice(first, others, last) => {
            put_arm(first, found)?;
            put_arms(others, found)?;
            put_strategy(last, found)
        }
        CoreStrategy::Match(pattern) | CoreStrategy::Build(pattern) => {
            put(pattern.offset(), found)
        }
        CoreStrategy::Scope(_, body)
        | CoreStrategy::All(body)
        | CoreStrategy::One(body)
        | CoreStrategy::Some(body) => put_strategy(body, found),
        CoreStrategy::LetIn(definitions, body) => {
            put_definitions(definitions, found)?;
            put_strategy(body, found)
        }
        CoreStrategy::Call(target, strategies, _) => {
            put(target.offset(), found)?;
            put_strategies(strategies, found)
        }
    }
}

fn put(offset: Option<u64>, found: &mut Vec<u64>) -> Result<(), AllocError> {
    match offset {
        None => Ok(()),
        Some(offset) => {
            found.push(offset)?;
            Ok(())
        }
    }
}

#[cycle(offsets)]
fn put_strategies(sources: &[CoreStrategy], found: &mut Vec<u64>) -> Result<(), AllocError> {
    for source in sources {
        put_strategy(source, found)?;
    }
    Ok(())
}

#[cycle(offsets)]
fn put_arm(source: &CoreArm, found: &mut Vec<u64>) -> Result<(), AllocError> {
    put_strategy(&source.guard, found)?;
    put_strategy(&source.then, found)
}

#[cycle(offsets)]
fn put_arms(sources: &[CoreArm], found: &mut Vec<u64>) -> Result<(), AllocError> {
    for source in sources {
        put_arm(source, found)?;
    }
    Ok(())
}

#[cycle(offsets)]
fn put_definitions(sources: &[CoreDef], found: &mut Vec<u64>) -> Result<(), AllocError> {
    for source in sources {
        put_strategy(&source.body, found)?;
    }
    Ok(())
}

/// Whether the matches, builds and calls of the core that have an offset have these, in order.
fn has_offsets(alloc: Global, core: &Core, offsets: &[u64]) -> Result<bool, Fail> {
    let mut found = Vec::new(alloc);
    put_definitions(core.defs(), &mut found)?;
    Ok(found.as_slice() == offsets)
}

/// Whether the names of the definitions of the core stand here.
fn has_heads(core: &Core, heads: &[u64]) -> bool {
    for (position, head) in heads.iter().enumerate() {
        if core.head(position) != Some(*head) {
            return false;
        }
    }
    core.defs().len() == heads.len() && core.head(heads.len()).is_none()
}

/// Files; where the names of their definitions stand, and where their matches, builds and calls do.
const FILES: &[(&str, &[u64], &[u64])] = &[
    ("strategies main = ?x; !x", &[11], &[19, 23]),
    // A pattern without a name stands where its step begins, and a definition at its first alternative.
    (
        "strategies main = f f = !1 main = ?[]",
        &[11, 20],
        &[18, 34, 24],
    ),
    // The first name or `_` counts, but not in a strategy.
    (
        "strategies main = ?(1, [2, _ | x]); ![1 | x]; ?x@1{y}",
        &[11],
        &[27, 42, 47],
    ),
    (
        "strategies main = ?x; !(<main> x, 1{x})",
        &[11],
        &[19, 31, 25, 36],
    ),
    ("rules main : 1 -> x where !x => _", &[6], &[6, 27, 32, 18]),
    // What `<..>` applies to in a build stands at the `<`.
    ("strategies main = !(<main> 1, 2)", &[11], &[20, 21, 18]),
    // A congruence stands at its constructor, or at its bracket.
    (
        "signature constructors C : A -> A D : A strategies main = C(D())",
        &[51],
        &[58, 60, 58],
    ),
    (
        "strategies main = [main]; (); [id | main]",
        &[11],
        &[18, 19, 18, 26, 30, 36, 30],
    ),
    (
        "strategies main = rec x(x); let f = !1 in f end",
        &[11],
        &[24, 22, 36, 42],
    ),
    // A pattern after `=>` stands where it begins, and those of a rule in backslashes where the rule does.
    (
        "strategies main = !1 => 2; \\ 3 -> 4 \\",
        &[11],
        &[18, 24, 27, 27],
    ),
];

#[test]
fn parts_stand_where_their_names_do(rt: HostRuntime) -> Result<(), Fail> {
    for (text, heads, offsets) in FILES {
        let core = core_of(rt.alloc(), read(rt.alloc(), text)?)?;
        if !has_heads(&core, heads) || !has_offsets(rt.alloc(), &core, offsets)? {
            return Err(Fail::new(text));
        }
    }
    Ok(())
}
