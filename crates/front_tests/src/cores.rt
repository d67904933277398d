//! The core programs of small files with ample memory; what is expected was worked out by hand.
use crate::front::{core_of, read};
use crate::same::same_definitions;
use core_lang::{
    CallTarget, Coordinate, Core, CoreArm, CoreDef, CorePattern, CoreStrategy, SourcePattern,
};
use std::alloc::Global;
use std::test::Fail;

/// What becomes of a body.
#[derive(Clone, Copy)]
enum Made {
    Id,
    Fail,
    /// A call of the definition at this position.
    Call(usize),
    /// `?x; !x` in a scope of the one variable.
    Keep,
    /// A call of the primitive of this name without arguments.
    Primitive(&'static str),
}

fn at(layers_up: usize, slot: usize) -> Coordinate {
    Coordinate { layers_up, slot }
}

/// The first variable of the innermost layer.
fn variable() -> SourcePattern {
    SourcePattern::new(CorePattern::Variable(at(0, 0)), None)
}

fn expected_strategy(alloc: Global, made: &Made) -> Result<CoreStrategy, Fail> {
    match made {
        Made::Id => Ok(CoreStrategy::Id),
        Made::Fail => Ok(CoreStrategy::Fail),
        Made::Call(slot) => {
            let target = CallTarget::new(at(1, *slot), None);
            Ok(CoreStrategy::Call(target, Vec::new(alloc), Vec::new(alloc)))
        }
        Made::Keep => {
            let first = Box::new(alloc, CoreStrategy::Match(variable()))?;
            let last = Box::new(alloc, CoreStrategy::Build(variable()))?;
            let body = CoreStrategy::Sequence(first, last, Vec::new(alloc));
            Ok(CoreStrategy::Scope(1, Box::new(alloc, body)?))
        }
        Made::Primitive(name) => {
            let name = Vec::from_slice(alloc, name.as_bytes())?;
            Ok(CoreStrategy::Primitive(name, Vec::new(alloc)))
        }
    }
}

/// The definition of one alternative, or of two.
fn expected_definition(
    alloc: Global,
    first: &Made,
    second: &Option<Made>,
) -> Result<CoreDef, Fail> {
    let first = expected_strategy(alloc, first)?;
    let body = match second {
        None => first,
        Some(second) => {
            let then = CoreStrategy::Id;
            let guard = Box::new(alloc, CoreArm { guard: first, then })?;
            let last = Box::new(alloc, expected_strategy(alloc, second)?)?;
            CoreStrategy::Choice(guard, Vec::new(alloc), last)
        }
    };
    Ok(CoreDef {
        strats: 0,
        terms: 0,
        body,
    })
}

/// Whether the core has these definitions and this main.
fn is_core(
    alloc: Global,
    core: &Core,
    definitions: &[(Made, Option<Made>)],
    main: usize,
) -> Result<bool, Fail> {
    let mut all = Vec::new(alloc);
    for (first, second) in definitions {
        all.push(expected_definition(alloc, first, second)?)?;
    }
    Ok(same_definitions(core.defs(), all.as_slice()) && core.main() == main)
}

/// Definitions; the alternatives of each definition that they become, and the position of main among them.
const CORES: &[(&str, &[(Made, Option<Made>)], usize)] = &[
    ("strategies main = id", &[(Made::Id, None)], 0),
    (
        "strategies f = fail main = f",
        &[(Made::Fail, None), (Made::Call(0), None)],
        1,
    ),
    // Alternatives are tried in the order of the text, and their definition stands at the place of the first.
    (
        "strategies main = f f = id main = fail",
        &[(Made::Call(1), Some(Made::Fail)), (Made::Id, None)],
        0,
    ),
    // Each alternative is in a scope of its own variables.
    (
        "strategies main = ?x; !x main = ?y; !y",
        &[(Made::Keep, Some(Made::Keep))],
        0,
    ),
    (
        "strategies main = prim(\"p\")",
        &[(Made::Primitive("p"), None)],
        0,
    ),
];

#[test]
fn cores(rt: HostRuntime) -> Result<(), Fail> {
    for (text, made, main) in CORES {
        let core = core_of(rt.alloc(), read(rt.alloc(), text)?)?;
        if !is_core(rt.alloc(), &core, made, *main)? {
            return Err(Fail::new(text));
        }
    }
    Ok(())
}
