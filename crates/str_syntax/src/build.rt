//! Trees made of their parts. Where a call is given the bytes of a name, the name stands in no file: its offset is 0.
ghost use Rattle.std.specs.Prelude.{◌≡◌, IfOk};
ghost use Rattle.str_syntax.specs.Trees as trees;
ghost use Rattle.str_syntax.specs.Views.{arguments_of, definition_of, head_of, parameters_of, pattern_of, primary_of, rule_of, sequence_of, step_of, strategy_of, optional_strategy_of};
ghost use Rattle.term_model.specs.Results.{Returns};

use crate::strategy::{
    Arguments, DefinitionHead, Parameters, Pattern, Primary, Rule, Sequence, Step, Strategy,
    StrategyDefinition,
};
use crate::text::Name;
use std::alloc::{AllocError, Global};

/// Makes the name of these bytes.
pub fn name(alloc: Global, bytes: &[u8]) -> Result<Name, AllocError>
    ensures { Returns result bytes.now }
{
    Name::new(alloc, bytes, 0)
}

/// Makes the variable of this name.
pub fn variable(alloc: Global, bytes: &[u8]) -> Result<Pattern, AllocError>
    ensures { IfOk result (λ made. pattern_of made ≡ trees.variable bytes.now) }
{
    Ok(Pattern::Variable(name(alloc, bytes)?))
}

/// Makes the step that this primary alone is.
pub fn step(alloc: Global, primary: Primary) -> Result<Step, AllocError>
    ensures { IfOk result (λ made. step_of made ≡ trees.plain_step (primary_of primary)) }
{
    Ok(Step::Plain(0, Box::new(alloc, primary)?))
}

/// Makes the sequence of this primary alone.
pub fn last(alloc: Global, primary: Primary) -> Result<Sequence, AllocError>
    ensures { IfOk result (λ made. sequence_of made ≡
        trees.last (trees.plain_step (primary_of primary))) }
{
    Ok(Sequence::Last(step(alloc, primary)?))
}

/// Makes the sequence of this step and those after it.
pub fn then(alloc: Global, first: Step, others: Sequence) -> Result<Sequence, AllocError>
    ensures { IfOk result (λ made. sequence_of made ≡
        trees.then (step_of first) (sequence_of others)) }
{
    Ok(Sequence::Then(first, Box::new(alloc, others)?))
}

/// Makes the strategy that this primary alone is.
pub fn strategy(alloc: Global, primary: Primary) -> Result<Strategy, AllocError>
    ensures { IfOk result (λ made. strategy_of made ≡
        trees.plain_sequence (trees.last (trees.plain_step (primary_of primary)))) }
{
    Ok(Strategy::Sequence(last(alloc, primary)?))
}

/// Makes the call of this name with these arguments.
pub fn call(alloc: Global, bytes: &[u8], arguments: Arguments) -> Result<Primary, AllocError>
    ensures { IfOk result (λ made. primary_of made ≡
        trees.call bytes.now (arguments_of arguments)) }
{
    Ok(Primary::Call(name(alloc, bytes)?, arguments))
}

/// Makes the left choice between the sequence and the strategy.
pub fn left_choice(alloc: Global, first: Sequence, other: Strategy) -> Result<Strategy, AllocError>
    ensures { IfOk result (λ made. strategy_of made ≡
        trees.left_choice (sequence_of first) (strategy_of other)) }
{
    Ok(Strategy::LeftChoice(first, Box::new(alloc, other)?))
}

/// Makes the guarded choice of these parts.
pub fn guarded_choice(
    alloc: Global,
    guard: Sequence,
    then: Strategy,
    other: Strategy,
) -> Result<Strategy, AllocError>
    ensures { IfOk result (λ made. strategy_of made ≡
        trees.guarded_choice (sequence_of guard) (strategy_of then) (strategy_of other)) }
{
    let then = Box::new(alloc, then)?;
    Ok(Strategy::GuardedChoice(guard, then, Box::new(alloc, other)?))
}

/// Makes the rule from one pattern to the other, under this condition if there is one.
pub fn rule(
    alloc: Global,
    left: Pattern,
    right: Pattern,
    condition: Option<Box<Strategy>>,
) -> Result<Rule, AllocError>
    ensures { IfOk result (λ made. rule_of made ≡
        trees.rewrites (pattern_of left) (pattern_of right) (optional_strategy_of condition)) }
{
    let left = Box::new(alloc, left)?;
    let right = Box::new(alloc, right)?;
    Ok(Rule {
        left,
        right,
        condition,
    })
}

/// Makes the name with these parameters.
pub fn head(
    alloc: Global,
    bytes: &[u8],
    parameters: Parameters,
) -> Result<DefinitionHead, AllocError>
    ensures { IfOk result (λ made. head_of made ≡ trees.head bytes.now (parameters_of parameters)) }
{
    let name = name(alloc, bytes)?;
    Ok(DefinitionHead { name, parameters })
}

/// Makes the definition of these parts.
pub fn definition(
    alloc: Global,
    head: DefinitionHead,
    body: Strategy,
) -> Result<StrategyDefinition, AllocError>
    ensures { IfOk result (λ made. definition_of made ≡
        trees.definition (head_of head) (strategy_of body)) }
{
    let body = Box::new(alloc, body)?;
    Ok(StrategyDefinition { head, body })
}
