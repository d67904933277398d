//! When two core programs are the same, wherever their parts stand in their files.
use core_lang::{CoreArm, CoreDef, CoreStrategy};

/// Whether the definitions are the same, one by one.
#[cycle(same)]
pub(crate) fn same_definitions(left: &[CoreDef], right: &[CoreDef]) -> bool {
    for (left, right) in left.iter().zip(right) {
        let as_many = left.strats == right.strats && left.terms == right.terms;
        if !as_many || !same_strategy(&left.body, &right.body) {
            return false;
        }
    }
    left.len() == right.len()
}

#[cycle(same)]
fn same_strategy(left: &CoreStrategy, right: &CoreStrategy) -> bool {
    match (left, right) {
        (CoreStrategy::Id, CoreStrategy::Id) | (CoreStrategy::Fail, CoreStrategy::Fail) => true,
        (CoreStrategy::Sequence(a, b, more), CoreStrategy::Sequence(c, d, others)) => {
            same_strategy(a, c) && same_strategy(b, d) && same_strategies(more, others)
        }
        (CoreStrategy::Choice(a, more, b), CoreStrategy::Choice(c, others, d)) => {
            same_arm(a, c) && same_arms(more, others) && same_strategy(b, d)
        }
        (CoreStrategy::Match(a), CoreStrategy::Match(b))
        | (CoreStrategy::Build(a), CoreStrategy::Build(b)) => a.pattern() == b.pattern(),
        (CoreStrategy::Scope(m, a), CoreStrategy::Scope(n, b)) => m == n && same_strategy(a, b),
        (CoreStrategy::All(a), CoreStrategy::All(b))
        | (CoreStrategy::One(a), CoreStrategy::One(b))
        | (CoreStrategy::Some(a), CoreStrategy::Some(b)) => same_strategy(a, b),
        (CoreStrategy::LetIn(more, a), CoreStrategy::LetIn(others, b)) => {
            same_definitions(more, others) && same_strategy(a, b)
        }
        (CoreStrategy::Call(a, more, terms), CoreStrategy::Call(b, others, patterns)) => {
            let alike = a.coordinate() == b.coordinate() && terms == patterns;
            alike && same_strategies(more, others)
        }
        (CoreStrategy::Primitive(a, terms), CoreStrategy::Primitive(b, patterns)) => {
            a == b && terms == patterns
        }
        _ => false,
    }
}

#[cycle(same)]
fn same_strategies(left: &[CoreStrategy], right: &[CoreStrategy]) -> bool {
    for (left, right) in left.iter().zip(right) {
        if !same_strategy(left, right) {
            return false;
        }
    }
    left.len() == right.len()
}

#[cycle(same)]
fn same_arm(left: &CoreArm, right: &CoreArm) -> bool {
    same_strategy(&left.guard, &right.guard) && same_strategy(&left.then, &right.then)
}

#[cycle(same)]
fn same_arms(left: &[CoreArm], right: &[CoreArm]) -> bool {
    for (left, right) in left.iter().zip(right) {
        if !same_arm(left, right) {
            return false;
        }
    }
    left.len() == right.len()
}
