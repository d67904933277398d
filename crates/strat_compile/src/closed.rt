//! Whether a strategy looks at nothing but what is known: the walk of a range over the layers, one way.
ghost use Rattle.std.specs.Prelude.{◌≡◌, ◌<◌, ◌≤◌, ◌↔◌, IsTrue, map};
ghost use Rattle.core_lang.specs.InRange.{DefinitionsInRange, IsCallee, IsDefinition, IsVariable, PatternInRange, PatternsInRange, StrategiesInRange, StrategyInRange, layer_of, layer_of_definitions, outside};
ghost use Rattle.core_lang.specs.Program.{call};
ghost use Rattle.core_lang.specs.RangeOfCode.{ArmInRange, ArmsInRange};
ghost use Rattle.core_lang.specs.Views.{arm_of, def_of, definitions_of, pattern_of, patterns_of, strategies_of, strategy_of};
ghost use Rattle.strat_compile.specs.Layers.{context_of, seen_context};
ghost use Rattle.strat_compile.specs.Sites.{program_layers};

use crate::callee::sees_none;
use crate::layers::{Layers, Reached, reach};
use crate::pattern_size::{pattern_fits, patterns_fit};
use core_lang::{Coordinate, CoreArm, CoreDef, CorePattern, CoreStrategy};

/// Whether a layer has a variable at a position.
fn is_variable(reached: Reached, slot: usize) -> bool
    ensures { IsTrue result → IsVariable (program_layers (seen_context reached.entry)) slot }
{
    if reached.is_frameless {
        return false;
    }
    match reached.layers {
        Layers::Framed { variables, .. } => slot < *variables,
        Layers::Within { variables, .. } => slot < *variables,
        Layers::Specialized { variables, .. } => slot < *variables,
        Layers::Outermost => false,
        Layers::Defining { .. } => false,
        Layers::Called { .. } => false,
        Layers::Frameless { .. } => false,
    }
}

/// Whether a coordinate leads to a variable.
fn has_variable(layers: &Layers, at: Coordinate) -> bool
    ensures { IsTrue result →
        IsVariable (outside (program_layers (context_of layers.now)) at.layers_up) at.slot }
{
    is_variable(reach(&*layers, at.layers_up), at.slot)
}

/// Whether there is a definition at a position, with these numbers of strategy and term parameters.
fn has_definition(defs: &[CoreDef], at: usize, strats: usize, terms: usize) -> bool
    ensures { IsTrue result → IsDefinition (definitions_of defs.now) at strats terms }
{
    match defs.get(at) {
        Some(def) => has_parameters(def, strats, terms),
        None => false,
    }
}

fn has_parameters(def: &CoreDef, strats: usize, terms: usize) -> bool
    ensures { IsTrue result ↔
        ((strats ≡ (def_of def.now).strats) × (terms ≡ (def_of def.now).terms)) }
{
    strats == def.strats && terms == def.terms
}

/// Whether a layer has at a position what can be called with these numbers of strategies and terms.
fn is_callee(reached: Reached, slot: usize, strats: usize, terms: usize) -> bool
    ensures { IsTrue result →
        IsCallee (program_layers (seen_context reached.entry)) slot strats terms }
{
    match reached.layers {
        Layers::Defining { defs, outer, .. } => {
            if reached.is_frameless && !sees_none(outer) {
                return false;
            }
            has_definition(defs, slot, strats, terms)
        }
        Layers::Framed { parameters, .. } => {
            if reached.is_frameless {
                return false;
            }
            is_parameter(*parameters, slot, strats, terms)
        }
        Layers::Specialized { arguments, .. } => {
            is_parameter(arguments.len(), slot, strats, terms)
        }
        Layers::Called { arguments, .. } => is_parameter(arguments.len(), slot, strats, terms),
        Layers::Outermost => false,
        Layers::Within { .. } => false,
        Layers::Frameless { .. } => false,
    }
}

/// Whether one of this number of strategy parameters is called as it can be, without arguments.
fn is_parameter(parameters: usize, slot: usize, strats: usize, terms: usize) -> bool
    ensures { IsTrue result → (slot < parameters) × (strats ≡ 0) × (terms ≡ 0) }
{
    slot < parameters && strats == 0 && terms == 0
}

/// Whether a coordinate leads to what can be called with these numbers of strategies and terms.
fn has_callee(layers: &Layers, at: Coordinate, strats: usize, terms: usize) -> bool
    ensures { IsTrue result →
        IsCallee (outside (program_layers (context_of layers.now)) at.layers_up) at.slot
        strats terms }
{
    is_callee(reach(&*layers, at.layers_up), at.slot, strats, terms)
}

#[cycle(patterns)]
fn is_pattern_closed(p: &CorePattern, layers: &Layers) -> bool
    ensures { IsTrue result →
        PatternInRange (program_layers (context_of layers.now)) (pattern_of p.now) }
{
    match p {
        CorePattern::Anything => true,
        CorePattern::Integer(_) => true,
        CorePattern::Variable(at) => has_variable(layers, *at),
        CorePattern::Alias(at, part) => {
            has_variable(layers, *at) && is_pattern_closed(part, layers)
        }
        CorePattern::Applied(_, parts) => are_patterns_closed(parts.as_slice(), layers),
        CorePattern::List(elements, rest) => {
            if !are_patterns_closed(elements.as_slice(), layers) {
                return false;
            }
            match rest {
                None => true,
                Some(rest) => is_pattern_closed(rest, layers),
            }
        }
        CorePattern::Like(part, at) => is_pattern_closed(part, layers) && has_variable(layers, *at),
        CorePattern::Annotated(part, annotations) => {
            is_pattern_closed(part, layers) && are_patterns_closed(annotations.as_slice(), layers)
        }
    }
}

#[cycle(patterns)]
fn are_patterns_closed(patterns: &[CorePattern], layers: &Layers) -> bool
    ensures { IsTrue result →
        PatternsInRange (program_layers (context_of layers.now)) (patterns_of patterns.now) }
{
    for p in patterns {
        if !is_pattern_closed(p, layers) {
            return false;
        }
    }
    true
}

/// Returns whether a pattern is closed and has no more nodes than the limit, off which they are taken.
fn is_pattern_closed_within(p: &CorePattern, layers: &Layers, limit: &mut usize) -> bool
    ensures closed { IsTrue result →
        PatternInRange (program_layers (context_of layers.now)) (pattern_of p.now) }
    ensures limit { limit.new ≤ limit.old }
{
    pattern_fits(p, limit) && is_pattern_closed(p, layers)
}

/// The same of patterns.
fn are_patterns_closed_within(patterns: &[CorePattern], layers: &Layers, limit: &mut usize) -> bool
    ensures closed { IsTrue result →
        PatternsInRange (program_layers (context_of layers.now)) (patterns_of patterns.now) }
    ensures limit { limit.new ≤ limit.old }
{
    patterns_fit(patterns, limit) && are_patterns_closed(patterns, layers)
}

/// Returns whether each coordinate in the strategy leads to something that the layers have. One is taken off the limit at each
/// strategy and at each node of a pattern, and the answer is no where none is left.
#[cycle(closed)]
pub(crate) fn is_closed(s: &CoreStrategy, layers: &Layers, limit: &mut usize) -> bool
    ensures closed { IsTrue result →
        StrategyInRange (program_layers (context_of layers.now)) (strategy_of s.now) }
    ensures limit { limit.new ≤ limit.old }
{
    if *limit == 0 {
        return false;
    }
    *limit -= 1;
    match s {
        CoreStrategy::Id => true,
        CoreStrategy::Fail => true,
        CoreStrategy::Sequence(first, second, rest) => {
            if !is_closed(first, layers, limit) {
                return false;
            }
            if !is_closed(second, layers, limit) {
                return false;
            }
            are_closed(rest.as_slice(), layers, limit)
        }
        CoreStrategy::Choice(arm, more, otherwise) => {
            if !is_arm_closed(arm, layers, limit) {
                return false;
            }
            if !are_arms_closed(more.as_slice(), layers, limit) {
                return false;
            }
            is_closed(otherwise, layers, limit)
        }
        CoreStrategy::Match(p) => is_pattern_closed_within(p.pattern(), layers, limit),
        CoreStrategy::Build(p) => is_pattern_closed_within(p.pattern(), layers, limit),
        CoreStrategy::Scope(count, body) => is_body_closed(0, *count, body, layers, limit),
        CoreStrategy::All(body) => is_closed(body, layers, limit),
        CoreStrategy::One(body) => is_closed(body, layers, limit),
        CoreStrategy::Some(body) => is_closed(body, layers, limit),
        CoreStrategy::LetIn(defs, body) => {
            are_let_definitions_closed(defs.as_slice(), layers, limit)
                && is_let_body_closed(body, defs.as_slice(), layers, limit)
        }
        CoreStrategy::Call(target, strategies, terms) => {
            let at = target.coordinate();
            is_call_closed(at, strategies.as_slice(), terms.as_slice(), layers, limit)
        }
        CoreStrategy::Primitive(_, terms) => are_patterns_closed_within(terms, layers, limit),
    }
}

#[cycle(closed)]
fn are_closed(strategies: &[CoreStrategy], layers: &Layers, limit: &mut usize) -> bool
    ensures closed { IsTrue result →
        StrategiesInRange (program_layers (context_of layers.now)) (strategies_of strategies.now) }
    ensures limit { limit.new ≤ limit.old }
{
    for s in strategies {
        if !is_closed(s, layers, limit) {
            return false;
        }
    }
    true
}

#[cycle(closed)]
fn is_arm_closed(arm: &CoreArm, layers: &Layers, limit: &mut usize) -> bool
    ensures closed { IsTrue result →
        ArmInRange (program_layers (context_of layers.now)) (arm_of arm.now) }
    ensures limit { limit.new ≤ limit.old }
{
    is_closed(&arm.guard, layers, limit) && is_closed(&arm.then, layers, limit)
}

#[cycle(closed)]
fn are_arms_closed(arms: &[CoreArm], layers: &Layers, limit: &mut usize) -> bool
    ensures closed { IsTrue result →
        ArmsInRange (program_layers (context_of layers.now)) (map arm_of arms.now) }
    ensures limit { limit.new ≤ limit.old }
{
    for arm in arms {
        if !is_arm_closed(arm, layers, limit) {
            return false;
        }
    }
    true
}

/// Whether the body of a definition or of a scope is closed, which has a layer of so many parameters and variables.
#[cycle(closed)]
fn is_body_closed(
    parameters: usize,
    variables: usize,
    body: &CoreStrategy,
    layers: &Layers,
    limit: &mut usize,
) -> bool
    ensures closed { IsTrue result →
        StrategyInRange (layer_of parameters variables (program_layers (context_of layers.now)))
        (strategy_of body.now) }
    ensures limit { limit.new ≤ limit.old }
{
    let inner = Layers::Framed {
        parameters,
        variables,
        outer: &*layers,
    };
    is_closed(body, &inner, limit)
}

/// The definitions of a let stand in their own layer.
#[cycle(closed)]
fn are_let_definitions_closed(defs: &[CoreDef], layers: &Layers, limit: &mut usize) -> bool
    ensures closed { IsTrue result →
        DefinitionsInRange
        (layer_of_definitions (definitions_of defs.now) (program_layers (context_of layers.now)))
        (definitions_of defs.now) }
    ensures limit { limit.new ≤ limit.old }
{
    let inner = Layers::Defining {
        defs: &*defs,
        first_label: 0,
        outer: &*layers,
    };
    are_definitions_closed(defs, &inner, limit)
}

/// The body of a let stands in the layer of its definitions.
#[cycle(closed)]
fn is_let_body_closed(
    body: &CoreStrategy,
    defs: &[CoreDef],
    layers: &Layers,
    limit: &mut usize,
) -> bool
    ensures closed { IsTrue result →
        StrategyInRange
        (layer_of_definitions (definitions_of defs.now) (program_layers (context_of layers.now)))
        (strategy_of body.now) }
    ensures limit { limit.new ≤ limit.old }
{
    let inner = Layers::Defining {
        defs: &*defs,
        first_label: 0,
        outer: &*layers,
    };
    is_closed(body, &inner, limit)
}

#[cycle(closed)]
fn are_definitions_closed(defs: &[CoreDef], layers: &Layers, limit: &mut usize) -> bool
    ensures closed { IsTrue result →
        DefinitionsInRange (program_layers (context_of layers.now)) (definitions_of defs.now) }
    ensures limit { limit.new ≤ limit.old }
{
    for def in defs {
        if !is_body_closed(def.strats, def.terms, &def.body, layers, limit) {
            return false;
        }
    }
    true
}

#[cycle(closed)]
fn is_call_closed(
    at: Coordinate,
    strategies: &[CoreStrategy],
    terms: &[CorePattern],
    layers: &Layers,
    limit: &mut usize,
) -> bool
    ensures closed { IsTrue result →
        StrategyInRange (program_layers (context_of layers.now))
        (call at (strategies_of strategies.now) (patterns_of terms.now)) }
    ensures limit { limit.new ≤ limit.old }
{
    if !has_callee(layers, at, strategies.len(), terms.len()) {
        return false;
    }
    if !are_closed(strategies, layers, limit) {
        return false;
    }
    are_patterns_closed_within(terms, layers, limit)
}
