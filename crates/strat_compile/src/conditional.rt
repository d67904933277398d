//! Definitions whose body is a conditional of their strategy parameters, such as that of `try`.
ghost use Rattle.std.specs.Prelude.{◌≡◌, IfOk, IfSome};
ghost use Rattle.core_lang.specs.Views.{arm_of, strategies_of, strategy_of};
ghost use Rattle.strat_compile.specs.Conditionals.{ArePartsOf, IsConditionalCall, IsPart, part_strategy};
ghost use Rattle.strat_compile.specs.Layers.{arguments_of, site_of};

use crate::known::known_arguments;
use crate::layers::{Known, Layers, ProgramDefinition};
use crate::ways::EXPANSION_LIMIT;
use core_lang::{CoreArm, CorePattern, CoreStrategy};
use std::alloc::{AllocError, Global};

/// A part of a conditional.
#[derive(Clone, Copy)]
pub(crate) enum Part<'a> {
    /// `id`.
    Success,
    /// `fail`.
    Failure,
    /// The strategy parameter at a position, and what it is known to be.
    Argument { slot: usize, known: Known<'a> },
}

/// A conditional `guard < then + otherwise` of strategy parameters, each of which is a part once at most.
#[derive(Clone, Copy)]
pub(crate) struct Conditional<'a> {
    pub(crate) guard: Part<'a>,
    pub(crate) then: Part<'a>,
    pub(crate) otherwise: Part<'a>,
}

impl Part<'_> {
    /// Whether both are the same strategy parameter.
    fn repeats(&self, other: &Part) -> bool {
        match (self, other) {
            (Part::Argument { slot, .. }, Part::Argument { slot: position, .. }) => {
                *slot == *position
            }
            _ => false,
        }
    }
}

/// The conditional that a call of a definition stands for, if the definition has no term parameters, its body is a conditional of
/// its strategy parameters, and each argument is known, where it may look at the innermost frame.
pub(crate) fn conditional_call<'a>(
    alloc: Global,
    layers: &'a Layers<'a>,
    strategies: &'a [CoreStrategy],
    terms: &[CorePattern],
    definition: ProgramDefinition<'a>,
) -> Result<Option<Conditional<'a>>, AllocError>
    ensures { IfOk result (λ found. IfSome found (λ c. IsConditionalCall (site_of layers.now)
        (strategies_of strategies.now) terms.now definition.entry c)) }
{
    let CoreStrategy::Choice(arm, more, otherwise) = &definition.def.body else {
        return Ok(None);
    };
    if !more.is_empty() || !terms.is_empty() || definition.def.terms > 0 {
        return Ok(None);
    }
    let mut limit = EXPANSION_LIMIT;
    let found = known_arguments(alloc, layers, layers, strategies, &mut limit)?;
    let Some(arguments) = found else {
        return Ok(None);
    };
    Ok(conditional_of(arm, otherwise, arguments.as_slice()))
}

/// The conditional of these parts, if they are parts of one.
fn conditional_of<'a>(
    arm: &CoreArm,
    otherwise: &CoreStrategy,
    arguments: &[Known<'a>],
) -> Option<Conditional<'a>>
    ensures { IfSome result (λ c. ((arm_of arm.now).guard ≡ part_strategy c.guard)
        × ((arm_of arm.now).then ≡ part_strategy c.then)
        × (strategy_of otherwise.now ≡ part_strategy c.otherwise)
        × ArePartsOf (arguments_of arguments.now) c) }
{
    let guard = part_of(&arm.guard, arguments)?;
    let then = part_of(&arm.then, arguments)?;
    let otherwise = part_of(otherwise, arguments)?;
    if guard.repeats(&then) || guard.repeats(&otherwise) || then.repeats(&otherwise) {
        return None;
    }
    Some(Conditional {
        guard,
        then,
        otherwise,
    })
}

/// The part that a strategy is, if it is one.
fn part_of<'a>(s: &CoreStrategy, arguments: &[Known<'a>]) -> Option<Part<'a>>
    ensures { IfSome result (λ part. (strategy_of s.now ≡ part_strategy part)
        × IsPart (arguments_of arguments.now) part) }
{
    match s {
        CoreStrategy::Id => Some(Part::Success),
        CoreStrategy::Fail => Some(Part::Failure),
        CoreStrategy::Call(target, strategies, terms) => {
            let at = target.coordinate();
            if at.layers_up > 0 || !strategies.is_empty() || !terms.is_empty() {
                return None;
            }
            let known = arguments.get(at.slot)?;
            Some(Part::Argument {
                slot: at.slot,
                known: *known,
            })
        }
        _ => None,
    }
}
