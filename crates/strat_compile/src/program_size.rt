//! How large a program is.
ghost use Rattle.std.specs.Prelude.{◌+◌, ◌≤◌, map};
ghost use Rattle.core_lang.specs.Views.{arm_of, definitions_of, pattern_of, patterns_of, strategies_of, strategy_of};
ghost use Rattle.strat_compile.specs.Size as spec;
ghost use Rattle.strat_compile.specs.Size.{arms_size, pattern_size, patterns_size, strategies_size, strategy_size};

use crate::pattern_size::{pattern_fits, patterns_fit};
use core_lang::{CoreArm, CoreDef, CorePattern, CoreStrategy};

/// Returns how many definitions, strategies and nodes of patterns a program has. A chain of sequences or of alternatives counts as one strategy,
/// with its parts.
pub(crate) fn program_size(defs: &[CoreDef]) -> usize
    ensures { result ≤ spec.program_size (definitions_of defs.now) }
{
    let mut size = 0;
    add_definitions(defs, &mut size);
    size
}

/// Adds the size of definitions.
#[cycle(adding)]
fn add_definitions(defs: &[CoreDef], size: &mut usize)
    ensures { size.new ≤ size.old + spec.program_size (definitions_of defs.now) }
{
    for def in defs {
        *size = size.saturating_add(1);
        add_strategy(&def.body, size);
    }
}

/// Adds the size of a strategy.
#[cycle(adding)]
fn add_strategy(s: &CoreStrategy, size: &mut usize)
    ensures { size.new ≤ size.old + strategy_size (strategy_of s.now) }
{
    *size = size.saturating_add(1);
    match s {
        CoreStrategy::Id => {}
        CoreStrategy::Fail => {}
        CoreStrategy::Sequence(first, second, rest) => {
            add_strategy(first, size);
            add_strategy(second, size);
            add_strategies(rest.as_slice(), size);
        }
        CoreStrategy::Choice(arm, more, otherwise) => {
            add_arm(arm, size);
            add_arms(more.as_slice(), size);
            add_strategy(otherwise, size);
        }
        CoreStrategy::Match(p) => add_pattern(p.pattern(), size),
        CoreStrategy::Build(p) => add_pattern(p.pattern(), size),
        CoreStrategy::Scope(_, body) => add_strategy(body, size),
        CoreStrategy::All(body) => add_strategy(body, size),
        CoreStrategy::One(body) => add_strategy(body, size),
        CoreStrategy::Some(body) => add_strategy(body, size),
        CoreStrategy::LetIn(defs, body) => {
            add_definitions(defs.as_slice(), size);
            add_strategy(body, size);
        }
        CoreStrategy::Call(_, strategies, terms) => {
            add_strategies(strategies.as_slice(), size);
            add_patterns(terms.as_slice(), size);
        }
        CoreStrategy::Primitive(_, terms) => add_patterns(terms.as_slice(), size),
    }
}

/// Adds the size of strategies.
#[cycle(adding)]
fn add_strategies(strategies: &[CoreStrategy], size: &mut usize)
    ensures { size.new ≤ size.old + strategies_size (strategies_of strategies.now) }
{
    for s in strategies {
        add_strategy(s, size);
    }
}

/// Adds the size of the parts of an arm.
#[cycle(adding)]
fn add_arm(arm: &CoreArm, size: &mut usize)
    ensures { size.new ≤ size.old + strategy_size (arm_of arm.now).guard
        + strategy_size (arm_of arm.now).then }
{
    add_strategy(&arm.guard, size);
    add_strategy(&arm.then, size);
}

/// Adds the size of the parts of arms.
#[cycle(adding)]
fn add_arms(arms: &[CoreArm], size: &mut usize)
    ensures { size.new ≤ size.old + arms_size (map arm_of arms.now) }
{
    for arm in arms {
        add_arm(arm, size);
    }
}

/// Adds the size of a pattern.
fn add_pattern(p: &CorePattern, size: &mut usize)
    ensures { size.new ≤ size.old + pattern_size (pattern_of p.now) }
{
    let mut left = usize::MAX;
    if pattern_fits(p, &mut left) {
        *size = size.saturating_add(usize::MAX - left);
    }
}

/// Adds the size of patterns.
fn add_patterns(patterns: &[CorePattern], size: &mut usize)
    ensures { size.new ≤ size.old + patterns_size (patterns_of patterns.now) }
{
    let mut left = usize::MAX;
    if patterns_fit(patterns, &mut left) {
        *size = size.saturating_add(usize::MAX - left);
    }
}
