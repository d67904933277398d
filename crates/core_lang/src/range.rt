//! Whether each coordinate of a core leads to what is wanted of it.
ghost use Rattle.std.specs.Prelude.{◌≡◌, ◌↔◌, IsTrue, map};
ghost use Rattle.core_lang.specs.Views.{definitions_of, def_of, strategy_of, strategies_of, pattern_of, patterns_of, arm_of};
ghost use Rattle.core_lang.specs.Program.{call};
ghost use Rattle.core_lang.specs.InRange.{layer_of, layer_of_definitions, no_layers, IsVariable, IsDefinition, IsCallee, PatternInRange, PatternsInRange, StrategyInRange, StrategiesInRange, DefinitionsInRange};
ghost use Rattle.core_lang.specs.InRange as spec;
ghost use Rattle.core_lang.specs.RangeOfCode.{layers_of, ArmInRange, ArmsInRange};

use crate::coordinate::Coordinate;
use crate::program::{CoreArm, CoreDef, CorePattern, CoreStrategy};

/// The layers that a strategy stands in, innermost first.
#[derive(Clone, Copy)]
pub enum Layers<'a> {
    /// No layer.
    Outermost,
    /// A layer of strategy parameters and variables: how many there are of each.
    Layer {
        parameters: usize,
        variables: usize,
        outer: &'a Layers<'a>,
    },
    /// The definitions of the program, or of a let.
    Definitions {
        defs: &'a [CoreDef],
        outer: &'a Layers<'a>,
    },
}

/// Returns whether there is a definition at this position, with these numbers of strategy and term parameters.
pub(crate) fn has_definition(defs: &[CoreDef], at: usize, strats: usize, terms: usize) -> bool
    ensures { IsTrue result ↔ IsDefinition (definitions_of defs.now) at strats terms }
{
    match defs.get(at) {
        Some(def) => has_parameters(def, strats, terms),
        None => false,
    }
}

fn has_parameters(def: &CoreDef, strats: usize, terms: usize) -> bool
    ensures { IsTrue result ↔ ((strats ≡ (def_of def.now).strats) ×
        (terms ≡ (def_of def.now).terms)) }
{
    strats == def.strats && terms == def.terms
}

/// Returns whether each coordinate of each body of the program leads to what is wanted of it.
pub(crate) fn program_in_range(defs: &[CoreDef]) -> bool
    ensures { IsTrue result ↔ DefinitionsInRange
        (layer_of_definitions (definitions_of defs.now) no_layers) (definitions_of defs.now) }
{
    let outermost = Layers::Outermost;
    let program = Layers::Definitions {
        defs: &*defs,
        outer: &outermost,
    };
    definitions_in_range(defs, &program)
}

#[cycle(range)]
fn definitions_in_range(defs: &[CoreDef], layers: &Layers) -> bool
    ensures { IsTrue result ↔ DefinitionsInRange (layers_of layers.now) (definitions_of defs.now) }
{
    for def in defs {
        if !body_in_range(def, layers) {
            return false;
        }
    }
    true
}

/// The body of a definition stands in a layer of its parameters.
#[cycle(range)]
fn body_in_range(def: &CoreDef, layers: &Layers) -> bool
    ensures { IsTrue result ↔ StrategyInRange
        (layer_of (def_of def.now).strats (def_of def.now).terms (layers_of layers.now))
        (def_of def.now).body }
{
    let inner = Layers::Layer {
        parameters: def.strats,
        variables: def.terms,
        outer: &*layers,
    };
    strategy_in_range(&def.body, &inner)
}

#[cycle(range)]
fn strategy_in_range(s: &CoreStrategy, layers: &Layers) -> bool
    ensures { IsTrue result ↔ StrategyInRange (layers_of layers.now) (strategy_of s.now) }
{
    match s {
        CoreStrategy::Id | CoreStrategy::Fail => true,
        CoreStrategy::Sequence(first, second, rest) => {
            if !strategy_in_range(first, layers) {
                return false;
            }
            if !strategy_in_range(second, layers) {
                return false;
            }
            strategies_in_range(rest, layers)
        }
        CoreStrategy::Choice(arm, more, otherwise) => {
            if !arm_in_range(arm, layers) {
                return false;
            }
            if !arms_in_range(more, layers) {
                return false;
            }
            strategy_in_range(otherwise, layers)
        }
        CoreStrategy::Match(p) => pattern_in_range(p.pattern(), layers),
        CoreStrategy::Build(p) => pattern_in_range(p.pattern(), layers),
        CoreStrategy::Scope(count, body) => scope_in_range(*count, body, layers),
        CoreStrategy::All(body) | CoreStrategy::One(body) | CoreStrategy::Some(body) => {
            strategy_in_range(body, layers)
        }
        CoreStrategy::LetIn(defs, body) => {
            let_definitions_in_range(defs.as_slice(), layers)
                && let_body_in_range(body, defs.as_slice(), layers)
        }
        CoreStrategy::Call(x, strategies, terms) => {
            call_in_range(
                x.coordinate(),
                strategies.as_slice(),
                terms.as_slice(),
                layers,
            )
        }
        CoreStrategy::Primitive(_, terms) => patterns_in_range(terms.as_slice(), layers),
    }
}

/// Returns whether the body of a scope with this number of variables is in range.
#[cycle(range)]
fn scope_in_range(count: usize, body: &CoreStrategy, layers: &Layers) -> bool
    ensures { IsTrue result ↔ StrategyInRange (layer_of 0 count (layers_of layers.now))
        (strategy_of body.now) }
{
    let inner = Layers::Layer {
        parameters: 0,
        variables: count,
        outer: &*layers,
    };
    strategy_in_range(body, &inner)
}

/// The definitions of a let stand in their own layer.
#[cycle(range)]
fn let_definitions_in_range(defs: &[CoreDef], layers: &Layers) -> bool
    ensures { IsTrue result ↔ DefinitionsInRange
        (layer_of_definitions (definitions_of defs.now) (layers_of layers.now))
        (definitions_of defs.now) }
{
    let inner = Layers::Definitions {
        defs: &*defs,
        outer: &*layers,
    };
    definitions_in_range(defs, &inner)
}

/// The body of a let stands in the layer of its definitions.
#[cycle(range)]
fn let_body_in_range(body: &CoreStrategy, defs: &[CoreDef], layers: &Layers) -> bool
    ensures { IsTrue result ↔ StrategyInRange
        (layer_of_definitions (definitions_of defs.now) (layers_of layers.now))
        (strategy_of body.now) }
{
    let inner = Layers::Definitions {
        defs: &*defs,
        outer: &*layers,
    };
    strategy_in_range(body, &inner)
}

#[cycle(range)]
fn call_in_range(
    x: Coordinate,
    strategies: &[CoreStrategy],
    terms: &[CorePattern],
    layers: &Layers,
) -> bool
    ensures { IsTrue result ↔ StrategyInRange (layers_of layers.now)
        (call x (strategies_of strategies.now) (patterns_of terms.now)) }
{
    if !has_callee(layers, x, strategies.len(), terms.len()) {
        return false;
    }
    if !strategies_in_range(strategies, layers) {
        return false;
    }
    patterns_in_range(terms, layers)
}

#[cycle(range)]
fn strategies_in_range(strategies: &[CoreStrategy], layers: &Layers) -> bool
    ensures { IsTrue result ↔ StrategiesInRange (layers_of layers.now)
        (strategies_of strategies.now) }
{
    for s in strategies {
        if !strategy_in_range(s, layers) {
            return false;
        }
    }
    true
}

#[cycle(range)]
fn arm_in_range(arm: &CoreArm, layers: &Layers) -> bool
    ensures { IsTrue result ↔ ArmInRange (layers_of layers.now) (arm_of arm.now) }
{
    strategy_in_range(&arm.guard, layers) && strategy_in_range(&arm.then, layers)
}

#[cycle(range)]
fn arms_in_range(arms: &[CoreArm], layers: &Layers) -> bool
    ensures { IsTrue result ↔ ArmsInRange (layers_of layers.now) (map arm_of arms.now) }
{
    for arm in arms {
        if !arm_in_range(arm, layers) {
            return false;
        }
    }
    true
}

#[cycle(patterns)]
fn pattern_in_range(p: &CorePattern, layers: &Layers) -> bool
    ensures { IsTrue result ↔ PatternInRange (layers_of layers.now) (pattern_of p.now) }
{
    match p {
        CorePattern::Anything | CorePattern::Integer(_) => true,
        CorePattern::Variable(x) => has_variable(layers, *x),
        CorePattern::Alias(x, part) => has_variable(layers, *x) && pattern_in_range(part, layers),
        CorePattern::Applied(_, parts) => patterns_in_range(parts.as_slice(), layers),
        CorePattern::List(elements, rest) => {
            if !patterns_in_range(elements.as_slice(), layers) {
                return false;
            }
            match rest {
                None => true,
                Some(rest) => pattern_in_range(rest, layers),
            }
        }
        CorePattern::Like(part, x) => { pattern_in_range(part, layers) && has_variable(layers, *x) }
        CorePattern::Annotated(part, annotations) => {
            pattern_in_range(part, layers) && patterns_in_range(annotations.as_slice(), layers)
        }
    }
}

#[cycle(patterns)]
fn patterns_in_range(patterns: &[CorePattern], layers: &Layers) -> bool
    ensures { IsTrue result ↔ PatternsInRange (layers_of layers.now) (patterns_of patterns.now) }
{
    for p in patterns {
        if !pattern_in_range(p, layers) {
            return false;
        }
    }
    true
}

/// Returns the layers without this number of the innermost ones.
fn outside<'a>(layers: &'a Layers<'a>, layers_up: usize) -> &'a Layers<'a>
    ensures { layers_of result.now ≡ spec.outside (layers_of layers.now) layers_up }
{
    if layers_up == 0 {
        return layers;
    }
    match layers {
        Layers::Outermost => layers,
        Layers::Layer { outer, .. } => outside(outer, layers_up - 1),
        Layers::Definitions { outer, .. } => outside(outer, layers_up - 1),
    }
}

/// Returns whether the coordinate leads to a variable.
fn has_variable(layers: &Layers, x: Coordinate) -> bool
    ensures { IsTrue result ↔ IsVariable (spec.outside (layers_of layers.now) x.layers_up) x.slot }
{
    match outside(&*layers, x.layers_up) {
        Layers::Outermost => false,
        Layers::Layer { variables, .. } => x.slot < *variables,
        Layers::Definitions { .. } => false,
    }
}

/// Returns whether the coordinate leads to what can be called with these numbers of strategies and terms.
fn has_callee(layers: &Layers, x: Coordinate, strats: usize, terms: usize) -> bool
    ensures { IsTrue result ↔ IsCallee (spec.outside (layers_of layers.now) x.layers_up)
        x.slot strats terms }
{
    match outside(&*layers, x.layers_up) {
        Layers::Outermost => false,
        Layers::Layer { parameters, .. } => x.slot < *parameters && strats == 0 && terms == 0,
        Layers::Definitions { defs, .. } => has_definition(defs, x.slot, strats, terms),
    }
}
