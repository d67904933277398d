//! The primitives that occur in a core.
ghost use Rattle.std.specs.Prelude.{◌≡◌, IfOk, OnOk, map};
ghost use Rattle.core_lang.specs.Primitives.{OccursIn, OccursInAny, OccursInDefinitions, AreOccurring};
ghost use Rattle.core_lang.specs.PrimitivesOfCode.{Adds, OccursInArm, OccursInArms};
ghost use Rattle.core_lang.specs.Views.{arm_of, definitions_of, strategies_of, strategy_of};

use crate::program::{CoreArm, CoreDef, CoreStrategy};
use std::alloc::{AllocError, Global};
use term_model::PrimNames;

/// Returns the names of the primitives that occur in the definitions, with their numbers of arguments.
pub(crate) fn primitives_of(alloc: Global, defs: &[CoreDef]) -> Result<PrimNames, AllocError>
    ensures { IfOk result (λ names. AreOccurring names (definitions_of defs.now)) }
{
    let mut names = PrimNames::new(alloc);
    add_definitions(defs, &mut names)?;
    Ok(names)
}

#[cycle(primitives)]
fn add_definitions(defs: &[CoreDef], names: &mut PrimNames) -> Result<(), AllocError>
    ensures { OnOk result (Adds names.old (λ f k. OccursInDefinitions f k (definitions_of defs.now))
        names.new) }
{
    for def in defs {
        add_strategy(&def.body, names)?;
    }
    Ok(())
}

#[cycle(primitives)]
fn add_strategy(s: &CoreStrategy, names: &mut PrimNames) -> Result<(), AllocError>
    ensures { OnOk result (Adds names.old (λ f k. OccursIn f k (strategy_of s.now)) names.new) }
{
    match s {
        CoreStrategy::Id => Ok(()),
        CoreStrategy::Fail => Ok(()),
        CoreStrategy::Match(_) => Ok(()),
        CoreStrategy::Build(_) => Ok(()),
        CoreStrategy::Sequence(first, second, rest) => {
            add_strategy(first, names)?;
            add_strategy(second, names)?;
            add_strategies(rest.as_slice(), names)?;
            Ok(())
        }
        CoreStrategy::Choice(arm, more, otherwise) => {
            add_arm(arm, names)?;
            add_arms(more.as_slice(), names)?;
            add_strategy(otherwise, names)?;
            Ok(())
        }
        CoreStrategy::Scope(_, body) => {
            add_strategy(body, names)?;
            Ok(())
        }
        CoreStrategy::All(body) => {
            add_strategy(body, names)?;
            Ok(())
        }
        CoreStrategy::One(body) => {
            add_strategy(body, names)?;
            Ok(())
        }
        CoreStrategy::Some(body) => {
            add_strategy(body, names)?;
            Ok(())
        }
        CoreStrategy::LetIn(defs, body) => {
            add_definitions(defs.as_slice(), names)?;
            add_strategy(body, names)?;
            Ok(())
        }
        CoreStrategy::Call(_, strategies, _) => {
            add_strategies(strategies.as_slice(), names)?;
            Ok(())
        }
        CoreStrategy::Primitive(name, terms) => {
            names.insert(name.as_slice(), terms.len())?;
            Ok(())
        }
    }
}

#[cycle(primitives)]
fn add_strategies(strategies: &[CoreStrategy], names: &mut PrimNames) -> Result<(), AllocError>
    ensures { OnOk result (Adds names.old (λ f k. OccursInAny f k (strategies_of strategies.now))
        names.new) }
{
    for s in strategies {
        add_strategy(s, names)?;
    }
    Ok(())
}

#[cycle(primitives)]
fn add_arm(arm: &CoreArm, names: &mut PrimNames) -> Result<(), AllocError>
    ensures { OnOk result (Adds names.old (λ f k. OccursInArm f k (arm_of arm.now)) names.new) }
{
    add_strategy(&arm.guard, names)?;
    add_strategy(&arm.then, names)?;
    Ok(())
}

#[cycle(primitives)]
fn add_arms(arms: &[CoreArm], names: &mut PrimNames) -> Result<(), AllocError>
    ensures { OnOk result (Adds names.old (λ f k.
        OccursInArms f k (map arm_of arms.now)) names.new) }
{
    for arm in arms {
        add_arm(arm, names)?;
    }
    Ok(())
}
