//! The free names of strategies and rules, each once, in the order of their first occurrences.
ghost use Rattle.std.specs.Prelude.{◌≡◌, IfOk, OnOk};
ghost use Rattle.str_syntax.specs.Views.{arguments_of, definition_of, definitions_of, optional_pattern_of, optional_strategy_of, pattern_of, patterns_of, primary_of, rule_of, sequence_of, step_of, strategies_of, strategy_of};
ghost use Rattle.str_desugar.specs.Gathered.{bound_names, gathered};
ghost use Rattle.str_desugar.specs.Variables.{each_once, free_among, free_in, free_in_arguments, free_in_definition, free_in_definitions, free_in_optional, free_in_primary, free_in_rule, free_in_sequence, free_in_step, left_names, names_among, names_of, names_of_rest, without};
ghost use Rattle.term_model.specs.Results.{Returns};

use crate::bound::{Bound, note};
use crate::names::{Names, names_in};
use keyed_hash::HashKeys;
use std::alloc::{AllocError, Global};
use str_syntax::{
    Arguments, Name, Parameters, Pattern, Primary, Rule, Sequence, Step, Strategy,
    StrategyDefinition,
};

/// The free names of the body of a definition with these term parameters. `AllocError` where the memory for them is refused.
pub(crate) fn free_of_strategy(
    alloc: Global,
    hashing: HashKeys,
    source: &Strategy,
    terms: &[Name],
) -> Result<Names, AllocError>
    ensures { IfOk result (λ made. made ≡
        each_once (without terms.now (free_in (strategy_of source.now)))) }
{
    let terms = names_in(alloc, hashing, terms)?;
    let bound = Bound::Terms(&terms);
    let mut found = Names::new(hashing);
    in_strategy(alloc, source, &bound, &mut found)?;
    Ok(found)
}

/// The free names of a rule with these term parameters. `AllocError` where the memory for them is refused.
pub(crate) fn free_of_rule(
    alloc: Global,
    hashing: HashKeys,
    source: &Rule,
    terms: &[Name],
) -> Result<Names, AllocError>
    ensures { IfOk result (λ made. made ≡
        each_once (without terms.now (free_in_rule (rule_of source.now)))) }
{
    let terms = names_in(alloc, hashing, terms)?;
    let bound = Bound::Terms(&terms);
    let mut found = Names::new(hashing);
    in_rule(alloc, source, &bound, &mut found)?;
    Ok(found)
}

/// The names of a rule's left side, which a rule in backslashes binds. `AllocError` where the memory for them is refused.
#[cycle(gather)]
pub(crate) fn left_variables(
    alloc: Global,
    hashing: HashKeys,
    source: &Rule,
) -> Result<Names, AllocError>
    ensures { Returns result (each_once (left_names (rule_of source.now))) }
{
    let mut found = Names::new(hashing);
    in_pattern(alloc, &source.left, &Bound::Nothing, &mut found)?;
    Ok(found)
}

#[cycle(gather)]
fn in_pattern(
    alloc: Global,
    source: &Pattern,
    bound: &Bound,
    found: &mut Names,
) -> Result<(), AllocError>
    ensures { OnOk result (found.new ≡
        gathered (bound_names bound.now) found.old (names_of (pattern_of source.now))) }
{
    match source {
        Pattern::Variable(name) => note(alloc, name, bound, found),
        Pattern::Wildcard(_) | Pattern::Integer(_) | Pattern::Quoted(_) => Ok(()),
        Pattern::Alias(name, part) => {
            note(alloc, name, bound, found)?;
            in_pattern(alloc, part, bound, found)
        }
        Pattern::Application(_, parts) | Pattern::Tuple(parts) => {
            in_patterns(alloc, parts, bound, found)
        }
        Pattern::Parenthesized(inner) => in_pattern(alloc, inner, bound, found),
        Pattern::List(elements, rest) => {
            in_patterns(alloc, elements, bound, found)?;
            in_optional_pattern(alloc, rest, bound, found)
        }
        Pattern::Annotated(part, annotations) => {
            in_pattern(alloc, part, bound, found)?;
            in_patterns(alloc, annotations, bound, found)
        }
        Pattern::Applied(inner) => in_strategy(alloc, inner, bound, found),
        Pattern::AppliedTo(inner, part) => {
            in_strategy(alloc, inner, bound, found)?;
            in_pattern(alloc, part, bound, found)
        }
    }
}

#[cycle(gather)]
fn in_patterns(
    alloc: Global,
    sources: &[Pattern],
    bound: &Bound,
    found: &mut Names,
) -> Result<(), AllocError>
    ensures { OnOk result (found.new ≡
        gathered (bound_names bound.now) found.old (names_among (patterns_of sources.now))) }
{
    for source in sources {
        in_pattern(alloc, source, bound, found)?;
    }
    Ok(())
}

#[cycle(gather)]
fn in_optional_pattern(
    alloc: Global,
    source: &Option<Box<Pattern>>,
    bound: &Bound,
    found: &mut Names,
) -> Result<(), AllocError>
    ensures { OnOk result (found.new ≡
        gathered (bound_names bound.now) found.old
        (names_of_rest (optional_pattern_of source.now))) }
{
    match source {
        None => Ok(()),
        Some(rest) => in_pattern(alloc, rest, bound, found),
    }
}

#[cycle(gather)]
fn in_strategy(
    alloc: Global,
    source: &Strategy,
    bound: &Bound,
    found: &mut Names,
) -> Result<(), AllocError>
    ensures { OnOk result (found.new ≡
        gathered (bound_names bound.now) found.old (free_in (strategy_of source.now))) }
{
    match source {
        Strategy::Sequence(only) => in_sequence(alloc, only, bound, found),
        Strategy::LeftChoice(first, others) => {
            in_sequence(alloc, first, bound, found)?;
            in_strategy(alloc, others, bound, found)
        }
        Strategy::GuardedChoice(first, second, third) => {
            in_sequence(alloc, first, bound, found)?;
            in_strategy(alloc, second, bound, found)?;
            in_strategy(alloc, third, bound, found)
        }
    }
}

#[cycle(gather)]
fn in_strategies(
    alloc: Global,
    sources: &[Strategy],
    bound: &Bound,
    found: &mut Names,
) -> Result<(), AllocError>
    ensures { OnOk result (found.new ≡
        gathered (bound_names bound.now) found.old (free_among (strategies_of sources.now))) }
{
    for source in sources {
        in_strategy(alloc, source, bound, found)?;
    }
    Ok(())
}

#[cycle(gather)]
fn in_optional_strategy(
    alloc: Global,
    source: &Option<Box<Strategy>>,
    bound: &Bound,
    found: &mut Names,
) -> Result<(), AllocError>
    ensures { OnOk result (found.new ≡
        gathered (bound_names bound.now)
        found.old (free_in_optional (optional_strategy_of source.now))) }
{
    match source {
        None => Ok(()),
        Some(only) => in_strategy(alloc, only, bound, found),
    }
}

#[cycle(gather)]
fn in_sequence(
    alloc: Global,
    source: &Sequence,
    bound: &Bound,
    found: &mut Names,
) -> Result<(), AllocError>
    ensures { OnOk result (found.new ≡
        gathered (bound_names bound.now) found.old (free_in_sequence (sequence_of source.now))) }
{
    match source {
        Sequence::Last(only) => in_step(alloc, only, bound, found),
        Sequence::Then(first, others) => {
            in_step(alloc, first, bound, found)?;
            in_sequence(alloc, others, bound, found)
        }
    }
}

#[cycle(gather)]
fn in_step(alloc: Global, source: &Step, bound: &Bound, found: &mut Names) -> Result<(), AllocError>
    ensures { OnOk result (found.new ≡
        gathered (bound_names bound.now) found.old (free_in_step (step_of source.now))) }
{
    match source {
        Step::Plain(_, only) => in_primary(alloc, only, bound, found),
        Step::Matching(_, first, _, pattern) => {
            in_primary(alloc, first, bound, found)?;
            in_pattern(alloc, pattern, bound, found)
        }
    }
}

#[cycle(gather)]
fn in_primary(
    alloc: Global,
    source: &Primary,
    bound: &Bound,
    found: &mut Names,
) -> Result<(), AllocError>
    ensures { OnOk result (found.new ≡
        gathered (bound_names bound.now) found.old (free_in_primary (primary_of source.now))) }
{
    match source {
        Primary::Id | Primary::Fail => Ok(()),
        Primary::Match(pattern) | Primary::Build(pattern) => {
            in_pattern(alloc, pattern, bound, found)
        }
        Primary::Apply(inner, part) => {
            in_strategy(alloc, inner, bound, found)?;
            in_pattern(alloc, part, bound, found)
        }
        Primary::Parenthesized(inner)
        | Primary::Operator(_, inner)
        | Primary::Recursive(_, inner) => in_strategy(alloc, inner, bound, found),
        Primary::Scope(names, inner) => in_scope(alloc, names, inner, bound, found),
        Primary::If(guard, then, otherwise) => {
            in_strategy(alloc, guard, bound, found)?;
            in_strategy(alloc, then, bound, found)?;
            in_optional_strategy(alloc, otherwise, bound, found)
        }
        Primary::Let(definitions, inner) => {
            in_definitions(alloc, definitions, bound, found)?;
            in_strategy(alloc, inner, bound, found)
        }
        Primary::Primitive(_, parts) => in_patterns(alloc, parts, bound, found),
        Primary::Lambda(rule) => in_lambda(alloc, rule, bound, found),
        Primary::Call(_, arguments) => in_arguments(alloc, arguments, bound, found),
        Primary::TupleCongruence(parts) => in_strategies(alloc, parts, bound, found),
        Primary::ListCongruence(parts, rest) => {
            in_strategies(alloc, parts, bound, found)?;
            in_optional_strategy(alloc, rest, bound, found)
        }
    }
}

#[cycle(gather)]
fn in_arguments(
    alloc: Global,
    source: &Arguments,
    bound: &Bound,
    found: &mut Names,
) -> Result<(), AllocError>
    ensures { OnOk result (found.new ≡
        gathered (bound_names bound.now) found.old (free_in_arguments (arguments_of source.now))) }
{
    match source {
        Arguments::Absent => Ok(()),
        Arguments::Strategies(strategies) => in_strategies(alloc, strategies, bound, found),
        Arguments::WithTerms(strategies, terms) => {
            in_strategies(alloc, strategies, bound, found)?;
            in_patterns(alloc, terms, bound, found)
        }
    }
}

/// A strategy that is in a scope of these names.
#[cycle(gather)]
fn in_scope(
    alloc: Global,
    names: &[Name],
    inner: &Strategy,
    bound: &Bound,
    found: &mut Names,
) -> Result<(), AllocError>
    ensures { OnOk result (found.new ≡
        gathered (bound_names bound.now)
        found.old (without names.now (free_in (strategy_of inner.now)))) }
{
    let names = names_in(alloc, found.hashing(), names)?;
    let bound = Bound::Scope {
        names: &names,
        outer: &*bound,
    };
    in_strategy(alloc, inner, &bound, found)
}

#[cycle(gather)]
fn in_rule(alloc: Global, source: &Rule, bound: &Bound, found: &mut Names) -> Result<(), AllocError>
    ensures { OnOk result (found.new ≡
        gathered (bound_names bound.now) found.old (free_in_rule (rule_of source.now))) }
{
    in_pattern(alloc, &source.left, bound, found)?;
    in_pattern(alloc, &source.right, bound, found)?;
    in_optional_strategy(alloc, &source.condition, bound, found)
}

/// A rule in backslashes.
#[cycle(gather)]
fn in_lambda(
    alloc: Global,
    source: &Rule,
    bound: &Bound,
    found: &mut Names,
) -> Result<(), AllocError>
    ensures { OnOk result (found.new ≡
        gathered (bound_names bound.now)
        found.old (without (left_names (rule_of source.now)) (free_in_rule (rule_of source.now)))) }
{
    let names = left_variables(alloc, found.hashing(), &*source)?;
    let bound = Bound::Scope {
        names: &names,
        outer: &*bound,
    };
    in_rule(alloc, source, &bound, found)
}

#[cycle(gather)]
fn in_definition(
    alloc: Global,
    source: &StrategyDefinition,
    bound: &Bound,
    found: &mut Names,
) -> Result<(), AllocError>
    ensures { OnOk result (found.new ≡
        gathered (bound_names bound.now) found.old
        (free_in_definition (definition_of source.now))) }
{
    match &source.head.parameters {
        Parameters::WithTerms(_, terms) => in_scope(alloc, terms, &source.body, bound, found),
        Parameters::Absent => in_strategy(alloc, &source.body, bound, found),
        Parameters::Strategies(_) => in_strategy(alloc, &source.body, bound, found),
    }
}

#[cycle(gather)]
fn in_definitions(
    alloc: Global,
    sources: &[StrategyDefinition],
    bound: &Bound,
    found: &mut Names,
) -> Result<(), AllocError>
    ensures { OnOk result (found.new ≡
        gathered (bound_names bound.now)
        found.old (free_in_definitions (definitions_of sources.now))) }
{
    for source in sources {
        in_definition(alloc, source, bound, found)?;
    }
    Ok(())
}
