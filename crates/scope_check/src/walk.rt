//! The walk over strategies and patterns: what is found about their nodes.
ghost use Rattle.scope_check.specs.Found.{found_in_arguments, found_in_definition, found_in_definitions, found_in_optional_pattern, found_in_optional_strategy, found_in_pattern, found_in_patterns, found_in_primary, found_in_rule, found_in_sequence, found_in_step, found_in_strategies, found_in_strategy, found_group, joined};
ghost use Rattle.scope_check.specs.Seen.{among, heads_in, in_let, inner};
ghost use Rattle.scope_check.specs.Tables.{Adds, Finds, known_of, layers_of};
ghost use Rattle.str_syntax.specs.Trees as trees;
ghost use Rattle.str_syntax.specs.Views.{arguments_of, definition_of, definitions_of, optional_pattern_of, optional_strategy_of, pattern_of, patterns_of, primary_of, rule_of, sequence_of, step_of, strategies_of, strategy_of};

use crate::calls::find_unknown_strategy;
use crate::findings::Findings;
use crate::groups::{definition_keys, find_in_definition_group};
use crate::heads::{find_in_head, parameter_keys};
use crate::keys::Keys;
use crate::known::Known;
use crate::layers::Layers;
use crate::names::find_repeats;
use crate::nodes::{
    find_built_alias, find_built_wildcard, find_clash, find_undeclared, find_unknown_primitive,
};
use crate::side::Side;
use std::alloc::{AllocError, Global};
use str_syntax::{
    Arguments, Name, Origin, Pattern, Primary, Rule, Sequence, Step, Strategy, StrategyDefinition,
    Text,
};

/// Finds what is wrong in the strategy. `AllocError` where a growth is refused.
#[cycle(walk)]
pub(crate) fn find_in_strategy<'t>(
    alloc: Global,
    known: &Known<'_>,
    layers: &Layers<'_, 't>,
    tree: &'t Strategy,
    findings: &mut Findings,
) -> Result<(), AllocError>
    ensures { Finds result found_in_strategy known.now layers.now (strategy_of tree.now)
        findings.old findings.new }
{
    match tree {
        Strategy::Sequence(q) => find_in_sequence(alloc, known, layers, q, findings),
        Strategy::LeftChoice(q, s) => {
            find_in_sequence(alloc, known, layers, q, findings)?;
            find_in_strategy(alloc, known, layers, s, findings)?;
            Ok(())
        }
        Strategy::GuardedChoice(q, s, t) => {
            find_in_sequence(alloc, known, layers, q, findings)?;
            find_in_strategy(alloc, known, layers, s, findings)?;
            find_in_strategy(alloc, known, layers, t, findings)?;
            Ok(())
        }
    }
}

#[cycle(walk)]
fn find_in_sequence<'t>(
    alloc: Global,
    known: &Known<'_>,
    layers: &Layers<'_, 't>,
    tree: &'t Sequence,
    findings: &mut Findings,
) -> Result<(), AllocError>
    ensures { Finds result found_in_sequence known.now layers.now (sequence_of tree.now)
        findings.old findings.new }
{
    match tree {
        Sequence::Last(s) => find_in_step(alloc, known, layers, s, findings),
        Sequence::Then(s, q) => {
            find_in_step(alloc, known, layers, s, findings)?;
            find_in_sequence(alloc, known, layers, q, findings)
        }
    }
}

#[cycle(walk)]
fn find_in_step<'t>(
    alloc: Global,
    known: &Known<'_>,
    layers: &Layers<'_, 't>,
    tree: &'t Step,
    findings: &mut Findings,
) -> Result<(), AllocError>
    ensures { Finds result found_in_step known.now layers.now (step_of tree.now)
        findings.old findings.new }
{
    match tree {
        Step::Plain(_, s) => find_in_primary(alloc, known, layers, s, findings),
        Step::Matching(_, s, _, p) => {
            find_in_primary(alloc, known, layers, s, findings)?;
            find_in_pattern(alloc, known, layers, Side::Match, p, findings)
        }
    }
}

#[cycle(walk)]
fn find_in_primary<'t>(
    alloc: Global,
    known: &Known<'_>,
    layers: &Layers<'_, 't>,
    tree: &'t Primary,
    findings: &mut Findings,
) -> Result<(), AllocError>
    ensures { Finds result found_in_primary known.now layers.now (primary_of tree.now)
        findings.old findings.new }
{
    match tree {
        Primary::Id | Primary::Fail => Ok(()),
        Primary::Match(p) => find_in_pattern(alloc, known, layers, Side::Match, p, findings),
        Primary::Build(p) => find_in_pattern(alloc, known, layers, Side::Build, p, findings),
        Primary::Apply(s, p) => {
            find_in_strategy(alloc, known, layers, s, findings)?;
            find_in_pattern(alloc, known, layers, Side::Build, p, findings)?;
            Ok(())
        }
        Primary::Parenthesized(s) | Primary::Operator(_, s) => {
            find_in_strategy(alloc, known, layers, s, findings)
        }
        Primary::Scope(names, s) => find_in_scope(alloc, known, layers, names, s, findings),
        Primary::If(s, t, u) => {
            find_in_strategy(alloc, known, layers, s, findings)?;
            find_in_strategy(alloc, known, layers, t, findings)?;
            find_in_optional_strategy(alloc, known, layers, u, findings)?;
            Ok(())
        }
        Primary::Recursive(name, s) => find_in_recursive(alloc, known, layers, name, s, findings),
        Primary::Let(ds, s) => {
            find_in_let_definitions(alloc, known, layers, ds, findings)?;
            find_in_let_body(alloc, known, layers, s, ds, findings)?;
            Ok(())
        }
        Primary::Primitive(f, ps) => find_in_primitive(alloc, known, layers, f, ps, findings),
        Primary::Lambda(r) => find_in_rule(alloc, known, layers, r, findings),
        Primary::Call(f, all) => find_in_call(alloc, known, layers, f, all, findings),
        Primary::TupleCongruence(ss) => find_in_strategies(alloc, known, layers, ss, findings),
        Primary::ListCongruence(ss, s) => {
            find_in_strategies(alloc, known, layers, ss, findings)?;
            find_in_optional_strategy(alloc, known, layers, s, findings)?;
            Ok(())
        }
    }
}

#[cycle(walk)]
fn find_in_scope<'t>(
    alloc: Global,
    known: &Known<'_>,
    layers: &Layers<'_, 't>,
    names: &'t [Name],
    body: &'t Strategy,
    findings: &mut Findings,
) -> Result<(), AllocError>
    ensures { Finds result found_in_primary known.now layers.now
        (trees.scope names.now (strategy_of body.now)) findings.old findings.new }
{
    find_repeats(alloc, known.hashing, names, &[], findings)?;
    find_in_strategy(alloc, known, layers, body, findings)
}

#[cycle(walk)]
fn find_in_recursive<'t>(
    alloc: Global,
    known: &Known<'_>,
    layers: &Layers<'_, 't>,
    name: &'t Name,
    body: &'t Strategy,
    findings: &mut Findings,
) -> Result<(), AllocError>
    ensures { Finds result found_in_primary known.now layers.now
        (trees.recursive name.now (strategy_of body.now)) findings.old findings.new }
{
    find_clash(known.signature, name, findings);
    let inner = Layers::Recursive {
        name: &*name,
        outer: &*layers,
    };
    find_in_strategy(alloc, known, &inner, body, findings)
}

/// Finds what is wrong with the definitions of a let, as a group and in each.
#[cycle(walk)]
fn find_in_let_definitions<'t>(
    alloc: Global,
    known: &Known<'_>,
    layers: &Layers<'_, 't>,
    all: &'t [StrategyDefinition],
    findings: &mut Findings,
) -> Result<(), AllocError>
    ensures { Adds result findings.old
        (joined (found_group (heads_in (definitions_of all.now)))
        (found_in_definitions (known_of known.now)
        (in_let (definitions_of all.now) (layers_of layers.now)) (definitions_of all.now)))
        findings.new }
{
    find_in_definition_group(alloc, known.hashing, all, findings)?;
    let keys = definition_keys(alloc, known.hashing, all)?;
    find_in_seen_definitions(alloc, known, layers, &keys, all, findings)
}

/// Finds what is wrong in the body of a let of these definitions.
#[cycle(walk)]
fn find_in_let_body<'t>(
    alloc: Global,
    known: &Known<'_>,
    layers: &Layers<'_, 't>,
    body: &'t Strategy,
    all: &'t [StrategyDefinition],
    findings: &mut Findings,
) -> Result<(), AllocError>
    ensures { Adds result findings.old
        (found_in_strategy (known_of known.now)
        (in_let (definitions_of all.now) (layers_of layers.now)) (strategy_of body.now))
        findings.new }
{
    let keys = definition_keys(alloc, known.hashing, all)?;
    find_in_body(alloc, known, layers, &keys, body, findings)
}

/// Finds what is wrong in the definitions of a let, all of which see these keys.
#[cycle(walk)]
fn find_in_seen_definitions<'t>(
    alloc: Global,
    known: &Known<'_>,
    layers: &Layers<'_, 't>,
    keys: &Keys<'t>,
    all: &'t [StrategyDefinition],
    findings: &mut Findings,
) -> Result<(), AllocError>
    ensures { Adds result findings.old
        (found_in_definitions (known_of known.now)
        (inner (among keys.now) (layers_of layers.now)) (definitions_of all.now))
        findings.new }
{
    let inner = Layers::Inner {
        keys: &*keys,
        outer: &*layers,
    };
    find_in_definitions(alloc, known, &inner, all, findings)
}

#[cycle(walk)]
fn find_in_definitions<'t>(
    alloc: Global,
    known: &Known<'_>,
    layers: &Layers<'_, 't>,
    trees: &'t [StrategyDefinition],
    findings: &mut Findings,
) -> Result<(), AllocError>
    ensures { Finds result found_in_definitions known.now layers.now (definitions_of trees.now)
        findings.old findings.new }
{
    for tree in trees {
        find_in_definition(alloc, known, Origin::File, layers, tree, findings)?;
    }
    Ok(())
}

/// Finds what is wrong in the definition. `AllocError` where a growth is refused.
#[cycle(walk)]
pub(crate) fn find_in_definition<'t>(
    alloc: Global,
    known: &Known<'_>,
    origin: Origin,
    layers: &Layers<'_, 't>,
    tree: &'t StrategyDefinition,
    findings: &mut Findings,
) -> Result<(), AllocError>
    ensures { Finds result (λ K. found_in_definition K origin) known.now layers.now
        (definition_of tree.now) findings.old findings.new }
{
    find_in_head(alloc, known, origin, &tree.head, findings)?;
    let keys = parameter_keys(alloc, known.hashing, &tree.head)?;
    find_in_body(alloc, known, layers, &keys, &tree.body, findings)
}

/// Finds what is wrong in a strategy that sees these keys.
#[cycle(walk)]
fn find_in_body<'t>(
    alloc: Global,
    known: &Known<'_>,
    layers: &Layers<'_, 't>,
    keys: &Keys<'t>,
    body: &'t Strategy,
    findings: &mut Findings,
) -> Result<(), AllocError>
    ensures { Adds result findings.old
        (found_in_strategy (known_of known.now)
        (inner (among keys.now) (layers_of layers.now)) (strategy_of body.now))
        findings.new }
{
    let inner = Layers::Inner {
        keys: &*keys,
        outer: &*layers,
    };
    find_in_strategy(alloc, known, &inner, body, findings)
}

#[cycle(walk)]
#[tactic(auto, using(str_syntax::proofs::ArityLaws::counted))]
fn find_in_primitive<'t>(
    alloc: Global,
    known: &Known<'_>,
    layers: &Layers<'_, 't>,
    name: &'t Text,
    terms: &'t [Pattern],
    findings: &mut Findings,
) -> Result<(), AllocError>
    ensures { Finds result found_in_primary known.now layers.now
        (trees.primitive name.now (patterns_of terms.now)) findings.old findings.new }
{
    find_unknown_primitive(known, name, terms.len(), findings);
    find_in_patterns(alloc, known, layers, Side::Build, terms, findings)
}

#[cycle(walk)]
fn find_in_call<'t>(
    alloc: Global,
    known: &Known<'_>,
    layers: &Layers<'_, 't>,
    name: &'t Name,
    given: &'t Arguments,
    findings: &mut Findings,
) -> Result<(), AllocError>
    ensures { Finds result found_in_primary known.now layers.now
        (trees.call name.now (arguments_of given.now)) findings.old findings.new }
{
    find_unknown_strategy(known.signature, layers, name, given, findings);
    find_in_arguments(alloc, known, layers, given, findings)
}

#[cycle(walk)]
fn find_in_arguments<'t>(
    alloc: Global,
    known: &Known<'_>,
    layers: &Layers<'_, 't>,
    tree: &'t Arguments,
    findings: &mut Findings,
) -> Result<(), AllocError>
    ensures { Finds result found_in_arguments known.now layers.now (arguments_of tree.now)
        findings.old findings.new }
{
    match tree {
        Arguments::Absent => Ok(()),
        Arguments::Strategies(ss) => find_in_strategies(alloc, known, layers, ss, findings),
        Arguments::WithTerms(ss, ps) => {
            find_in_strategies(alloc, known, layers, ss, findings)?;
            find_in_patterns(alloc, known, layers, Side::Build, ps, findings)
        }
    }
}

/// Finds what is wrong in the rule. `AllocError` where a growth is refused.
#[cycle(walk)]
pub(crate) fn find_in_rule<'t>(
    alloc: Global,
    known: &Known<'_>,
    layers: &Layers<'_, 't>,
    tree: &'t Rule,
    findings: &mut Findings,
) -> Result<(), AllocError>
    ensures { Finds result found_in_rule known.now layers.now (rule_of tree.now)
        findings.old findings.new }
{
    find_in_pattern(alloc, known, layers, Side::Match, &tree.left, findings)?;
    find_in_pattern(alloc, known, layers, Side::Build, &tree.right, findings)?;
    find_in_optional_strategy(alloc, known, layers, &tree.condition, findings)
}

#[cycle(walk)]
fn find_in_strategies<'t>(
    alloc: Global,
    known: &Known<'_>,
    layers: &Layers<'_, 't>,
    trees: &'t [Strategy],
    findings: &mut Findings,
) -> Result<(), AllocError>
    ensures { Finds result found_in_strategies known.now layers.now (strategies_of trees.now)
        findings.old findings.new }
{
    for tree in trees {
        find_in_strategy(alloc, known, layers, tree, findings)?;
    }
    Ok(())
}

#[cycle(walk)]
fn find_in_optional_strategy<'t>(
    alloc: Global,
    known: &Known<'_>,
    layers: &Layers<'_, 't>,
    tree: &'t Option<Box<Strategy>>,
    findings: &mut Findings,
) -> Result<(), AllocError>
    ensures { Finds result found_in_optional_strategy known.now layers.now
        (optional_strategy_of tree.now) findings.old findings.new }
{
    match tree {
        None => Ok(()),
        Some(s) => find_in_strategy(alloc, known, layers, s, findings),
    }
}

#[cycle(walk)]
fn find_in_pattern<'t>(
    alloc: Global,
    known: &Known<'_>,
    layers: &Layers<'_, 't>,
    side: Side,
    tree: &'t Pattern,
    findings: &mut Findings,
) -> Result<(), AllocError>
    ensures { Finds result (λ K. found_in_pattern K side) known.now layers.now (pattern_of tree.now)
        findings.old findings.new }
{
    match tree {
        Pattern::Variable(_) | Pattern::Integer(_) | Pattern::Quoted(_) => Ok(()),
        Pattern::Wildcard(at) => {
            find_built_wildcard(side, *at, findings);
            Ok(())
        }
        Pattern::Alias(x, p) => {
            find_built_alias(side, x, findings);
            find_in_pattern(alloc, known, layers, side, p, findings)?;
            Ok(())
        }
        Pattern::Application(f, ps) => find_in_application(
            alloc, known, layers, side, f, ps, findings,
        ),
        Pattern::Parenthesized(p) => find_in_pattern(alloc, known, layers, side, p, findings),
        Pattern::Tuple(ps) => find_in_patterns(alloc, known, layers, side, ps, findings),
        Pattern::List(ps, p) => {
            find_in_patterns(alloc, known, layers, side, ps, findings)?;
            find_in_optional_pattern(alloc, known, layers, side, p, findings)?;
            Ok(())
        }
        Pattern::Annotated(p, ps) => {
            find_in_pattern(alloc, known, layers, side, p, findings)?;
            find_in_patterns(alloc, known, layers, side, ps, findings)?;
            Ok(())
        }
        Pattern::Applied(s) => find_in_strategy(alloc, known, layers, s, findings),
        Pattern::AppliedTo(s, p) => {
            find_in_strategy(alloc, known, layers, s, findings)?;
            find_in_pattern(alloc, known, layers, side, p, findings)?;
            Ok(())
        }
    }
}

#[cycle(walk)]
#[tactic(auto, using(str_syntax::proofs::ArityLaws::counted))]
fn find_in_application<'t>(
    alloc: Global,
    known: &Known<'_>,
    layers: &Layers<'_, 't>,
    side: Side,
    name: &'t Name,
    parts: &'t [Pattern],
    findings: &mut Findings,
) -> Result<(), AllocError>
    ensures { Finds result (λ K. found_in_pattern K side) known.now layers.now
        (trees.application name.now (patterns_of parts.now)) findings.old findings.new }
{
    find_undeclared(known.signature, name, parts.len(), findings);
    find_in_patterns(alloc, known, layers, side, parts, findings)
}

#[cycle(walk)]
fn find_in_patterns<'t>(
    alloc: Global,
    known: &Known<'_>,
    layers: &Layers<'_, 't>,
    side: Side,
    trees: &'t [Pattern],
    findings: &mut Findings,
) -> Result<(), AllocError>
    ensures { Finds result (λ K. found_in_patterns K side) known.now layers.now
        (patterns_of trees.now) findings.old findings.new }
{
    for tree in trees {
        find_in_pattern(alloc, known, layers, side, tree, findings)?;
    }
    Ok(())
}

#[cycle(walk)]
fn find_in_optional_pattern<'t>(
    alloc: Global,
    known: &Known<'_>,
    layers: &Layers<'_, 't>,
    side: Side,
    tree: &'t Option<Box<Pattern>>,
    findings: &mut Findings,
) -> Result<(), AllocError>
    ensures { Finds result (λ K. found_in_optional_pattern K side) known.now layers.now
        (optional_pattern_of tree.now) findings.old findings.new }
{
    match tree {
        None => Ok(()),
        Some(p) => find_in_pattern(alloc, known, layers, side, p, findings),
    }
}
