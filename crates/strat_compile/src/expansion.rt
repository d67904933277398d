//! How large what is emitted for a strategy would be, with calls in place and specializations.
ghost use Rattle.std.specs.Prelude.{◌≤◌};

use crate::callee::{callee, handing, program_definition};
use crate::known::{known_arguments, own_specialization};
use crate::layers::{Callee, Handing, Known, Layers, ProgramDefinition};
use crate::pattern_size::{pattern_fits, patterns_fit};
use crate::recursion::Inlining;
use core_lang::{Coordinate, CoreArm, CoreDef, CorePattern, CoreStrategy};
use std::alloc::{AllocError, Global};

/// Returns whether no more strategies and nodes of patterns than the limit would be emitted for this strategy, with calls in place and
/// specializations, and none deeper than this. One is taken off the limit for each.
#[cycle(fitting)]
pub(crate) fn fits(
    alloc: Global,
    layers: &Layers,
    s: &CoreStrategy,
    inlining: &Inlining,
    depth: usize,
    limit: &mut usize,
) -> Result<bool, AllocError>
    ensures { limit.new ≤ limit.old }
{
    if *limit == 0 || depth == 0 {
        return Ok(false);
    }
    *limit -= 1;
    let depth = depth - 1;
    match s {
        CoreStrategy::Sequence(first, second, rest) => {
            if !fits(alloc, layers, first, inlining, depth, limit)? {
                return Ok(false);
            }
            if !fits(alloc, layers, second, inlining, depth, limit)? {
                return Ok(false);
            }
            all_fit(alloc, layers, rest.as_slice(), inlining, depth, limit)
        }
        CoreStrategy::Choice(arm, more, otherwise) => {
            if !arm_fits(alloc, layers, arm, inlining, depth, limit)? {
                return Ok(false);
            }
            if !arms_fit(alloc, layers, more.as_slice(), inlining, depth, limit)? {
                return Ok(false);
            }
            fits(alloc, layers, otherwise, inlining, depth, limit)
        }
        CoreStrategy::Scope(count, body) => {
            framed_fits(alloc, layers, 0, *count, body, inlining, depth, limit)
        }
        CoreStrategy::All(body) => fits(alloc, layers, body, inlining, depth, limit),
        CoreStrategy::One(body) => fits(alloc, layers, body, inlining, depth, limit),
        CoreStrategy::Some(body) => fits(alloc, layers, body, inlining, depth, limit),
        CoreStrategy::LetIn(defs, body) => {
            let_fits(alloc, layers, defs.as_slice(), body, inlining, depth, limit)
        }
        CoreStrategy::Call(target, strategies, terms) => {
            let at = target.coordinate();
            let strategies = strategies.as_slice();
            let terms = terms.as_slice();
            call_fits(alloc, layers, at, strategies, terms, inlining, depth, limit)
        }
        CoreStrategy::Match(p) => Ok(pattern_fits(p.pattern(), limit)),
        CoreStrategy::Build(p) => Ok(pattern_fits(p.pattern(), limit)),
        CoreStrategy::Primitive(_, terms) => Ok(patterns_fit(terms.as_slice(), limit)),
        CoreStrategy::Id => Ok(true),
        CoreStrategy::Fail => Ok(true),
    }
}

#[cycle(fitting)]
fn all_fit(
    alloc: Global,
    layers: &Layers,
    strategies: &[CoreStrategy],
    inlining: &Inlining,
    depth: usize,
    limit: &mut usize,
) -> Result<bool, AllocError>
    ensures { limit.new ≤ limit.old }
{
    for s in strategies {
        if !fits(alloc, layers, s, inlining, depth, limit)? {
            return Ok(false);
        }
    }
    Ok(true)
}

#[cycle(fitting)]
fn arm_fits(
    alloc: Global,
    layers: &Layers,
    arm: &CoreArm,
    inlining: &Inlining,
    depth: usize,
    limit: &mut usize,
) -> Result<bool, AllocError>
    ensures { limit.new ≤ limit.old }
{
    if !fits(alloc, layers, &arm.guard, inlining, depth, limit)? {
        return Ok(false);
    }
    fits(alloc, layers, &arm.then, inlining, depth, limit)
}

#[cycle(fitting)]
fn arms_fit(
    alloc: Global,
    layers: &Layers,
    arms: &[CoreArm],
    inlining: &Inlining,
    depth: usize,
    limit: &mut usize,
) -> Result<bool, AllocError>
    ensures { limit.new ≤ limit.old }
{
    for arm in arms {
        if !arm_fits(alloc, layers, arm, inlining, depth, limit)? {
            return Ok(false);
        }
    }
    Ok(true)
}

/// The same of the body of a definition or of a scope.
#[cycle(fitting)]
fn framed_fits(
    alloc: Global,
    layers: &Layers,
    parameters: usize,
    variables: usize,
    body: &CoreStrategy,
    inlining: &Inlining,
    depth: usize,
    limit: &mut usize,
) -> Result<bool, AllocError>
    ensures { limit.new ≤ limit.old }
{
    let inner = Layers::Framed {
        parameters,
        variables,
        outer: &*layers,
    };
    fits(alloc, &inner, body, inlining, depth, limit)
}

/// The same of the definitions and the body of a let.
#[cycle(fitting)]
fn let_fits(
    alloc: Global,
    layers: &Layers,
    defs: &[CoreDef],
    body: &CoreStrategy,
    inlining: &Inlining,
    depth: usize,
    limit: &mut usize,
) -> Result<bool, AllocError>
    ensures { limit.new ≤ limit.old }
{
    let inner = Layers::Defining {
        defs: &*defs,
        first_label: 0,
        outer: &*layers,
    };
    for def in defs {
        if !framed_fits(
            alloc, &inner, def.strats, def.terms, &def.body, inlining, depth, limit,
        )? {
            return Ok(false);
        }
    }
    fits(alloc, &inner, body, inlining, depth, limit)
}

/// The same of a call.
#[cycle(fitting)]
fn call_fits(
    alloc: Global,
    layers: &Layers,
    at: Coordinate,
    strategies: &[CoreStrategy],
    terms: &[CorePattern],
    inlining: &Inlining,
    depth: usize,
    limit: &mut usize,
) -> Result<bool, AllocError>
    ensures { limit.new ≤ limit.old }
{
    if !patterns_fit(terms, limit) {
        return Ok(false);
    }
    if let Callee::Given(known) = callee(&*layers, at)? {
        return fits(alloc, known.layers, known.strategy, inlining, depth, limit);
    }
    let Some(definition) = program_definition(&*layers, at) else {
        return arguments_fit(alloc, layers, strategies, inlining, depth, limit);
    };
    if own_specialization(layers, at, strategies).is_some() {
        return Ok(true);
    }
    let frameless = Layers::Frameless { inner: &*layers };
    let Some(arguments) = known_arguments(alloc, &*layers, &frameless, &*strategies, limit)? else {
        return arguments_fit(alloc, layers, strategies, inlining, depth, limit);
    };
    body_fits(
        alloc,
        definition,
        at.slot,
        arguments.as_slice(),
        !terms.is_empty(),
        inlining,
        depth,
        limit,
    )
}

/// The same of the body of a definition whose strategy parameters are known, in place or as a specialization.
#[cycle(fitting)]
pub(crate) fn body_fits(
    alloc: Global,
    definition: ProgramDefinition,
    slot: usize,
    arguments: &[Known],
    has_terms: bool,
    inlining: &Inlining,
    depth: usize,
    limit: &mut usize,
) -> Result<bool, AllocError>
    ensures { limit.new ≤ limit.old }
{
    let body = &definition.def.body;
    let variables = definition.def.terms;
    let outer = definition.layer;
    if !has_terms && variables == 0 && inlining.is_in_place(slot, arguments.len()) {
        let inner = Layers::Called {
            arguments: &*arguments,
            outer: &*outer,
        };
        return fits(alloc, &inner, body, inlining, depth, limit);
    }
    if arguments.is_empty() {
        return Ok(true);
    }
    let inner = Layers::Specialized {
        slot,
        label: 0,
        room: 0,
        variables,
        arguments: &*arguments,
        outer: &*outer,
    };
    fits(alloc, &inner, body, inlining, depth, limit)
}

/// The same of the strategy arguments of a call, as they are handed over.
#[cycle(fitting)]
fn arguments_fit(
    alloc: Global,
    layers: &Layers,
    strategies: &[CoreStrategy],
    inlining: &Inlining,
    depth: usize,
    limit: &mut usize,
) -> Result<bool, AllocError>
    ensures { limit.new ≤ limit.old }
{
    for strategy in strategies {
        let is_within = match handing(&*layers, strategy)? {
            Handing::OwnCode => fits(alloc, layers, strategy, inlining, depth, limit)?,
            Handing::Inlined(known) => fits(
                alloc,
                known.layers,
                known.strategy,
                inlining,
                depth,
                limit,
            )?,
            Handing::Parameter(_) => one_fits(limit),
        };
        if !is_within {
            return Ok(false);
        }
    }
    Ok(true)
}

/// Takes one off the limit. Returns false if nothing is left.
fn one_fits(limit: &mut usize) -> bool
    ensures { limit.new ≤ limit.old }
{
    if *limit == 0 {
        return false;
    }
    *limit -= 1;
    true
}
