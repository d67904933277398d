//! The forms of strategies that the library is made of. What is made is held in boxes, and no name of it stands in a file: its
//! offset is 0.
ghost use Rattle.std.specs.Prelude.{◌≡◌, IfOk};
ghost use Rattle.str_syntax.specs.declared.definition.Origin.TheVariants as origins;
ghost use Rattle.str_syntax.specs.Views.{primary_of, strategy_of, top_of};
ghost use Rattle.str_syntax.specs.Trees as trees;
ghost use Rattle.strategy_lib.specs.Library as forms;

use std::alloc::{AllocError, Global};
use str_syntax::{
    Arguments, Definition, DefinitionForm, Operator, Origin, Parameters, Primary, Sequence, Step,
    Strategy, StrategyDefinition, build,
};

/// The name of the parameter of each definition.
const PARAMETER: &[u8] = b"s";

/// Makes the strategy that this primary alone is.
pub(crate) fn alone(primary: Box<Primary>) -> Strategy
    ensures { strategy_of result ≡ forms.alone (primary_of primary.value) }
{
    Strategy::Sequence(Sequence::Last(Step::Plain(0, primary)))
}

/// Makes the strategy `first; second`.
pub(crate) fn sequence(
    alloc: Global,
    first: Box<Primary>,
    second: Box<Primary>,
) -> Result<Strategy, AllocError>
    ensures { IfOk result (λ made. strategy_of made ≡
        forms.◌⨟◌ (primary_of first.value) (primary_of second.value)) }
{
    let rest = Box::new(alloc, Sequence::Last(Step::Plain(0, second)))?;
    Ok(Strategy::Sequence(Sequence::Then(Step::Plain(0, first), rest)))
}

/// Makes the strategy `first <+ second`.
pub(crate) fn left_choice(
    alloc: Global,
    first: Box<Primary>,
    second: Box<Primary>,
) -> Result<Strategy, AllocError>
    ensures { IfOk result (λ made. strategy_of made ≡
        forms.◌<+◌ (primary_of first.value) (primary_of second.value)) }
{
    let other = Box::new(alloc, alone(second))?;
    Ok(Strategy::LeftChoice(Sequence::Last(Step::Plain(0, first)), other))
}

/// Makes `id`.
pub(crate) fn identity(alloc: Global) -> Result<Box<Primary>, AllocError>
    ensures { IfOk result (λ made. primary_of made.value ≡ trees.identity) }
{
    Ok(Box::new(alloc, Primary::Id)?)
}

/// Makes `all(part)`.
pub(crate) fn all(alloc: Global, part: Box<Primary>) -> Result<Box<Primary>, AllocError>
    ensures { IfOk result (λ made. primary_of made.value ≡ forms.all (primary_of part.value)) }
{
    let part = Box::new(alloc, alone(part))?;
    Ok(Box::new(alloc, Primary::Operator(Operator::All, part))?)
}

/// Makes `one(part)`.
pub(crate) fn one(alloc: Global, part: Box<Primary>) -> Result<Box<Primary>, AllocError>
    ensures { IfOk result (λ made. primary_of made.value ≡ forms.one (primary_of part.value)) }
{
    let part = Box::new(alloc, alone(part))?;
    Ok(Box::new(alloc, Primary::Operator(Operator::One, part))?)
}

/// Makes the call of this name with this argument.
pub(crate) fn call_of(
    alloc: Global,
    name: &[u8],
    argument: Strategy,
) -> Result<Box<Primary>, AllocError>
    ensures { IfOk result (λ made. primary_of made.value ≡
        forms.called name.now (strategy_of argument)) }
{
    let arguments = Arguments::Strategies(vec![in alloc; argument]?);
    Ok(Box::new(alloc, build::call(alloc, name, arguments)?)?)
}

/// Makes `s`.
pub(crate) fn parameter(alloc: Global) -> Result<Box<Primary>, AllocError>
    ensures { IfOk result (λ made. primary_of made.value ≡ forms.s) }
{
    Ok(Box::new(alloc, build::call(alloc, PARAMETER, Arguments::Absent)?)?)
}

/// Makes the call of this name with the argument `s`.
pub(crate) fn with_parameter(alloc: Global, name: &[u8]) -> Result<Box<Primary>, AllocError>
    ensures { IfOk result (λ made. primary_of made.value ≡ forms.with_s name.now) }
{
    call_of(alloc, name, alone(parameter(alloc)?))
}

/// Makes `[]`.
pub(crate) fn empty_list(alloc: Global) -> Result<Box<Primary>, AllocError>
    ensures { IfOk result (λ made. primary_of made.value ≡ forms.empty_list) }
{
    Ok(Box::new(alloc, Primary::ListCongruence(Vec::new(alloc), None))?)
}

/// Makes `[first | rest]`.
pub(crate) fn list_of(
    alloc: Global,
    first: Box<Primary>,
    rest: Box<Primary>,
) -> Result<Box<Primary>, AllocError>
    ensures { IfOk result (λ made. primary_of made.value ≡
        forms.list_of (primary_of first.value) (primary_of rest.value)) }
{
    let rest = Box::new(alloc, alone(rest))?;
    let parts = vec![in alloc; alone(first)]?;
    Ok(Box::new(alloc, Primary::ListCongruence(parts, Some(rest)))?)
}

/// Makes the definition of the library with this name, the parameter `s` and this body.
pub(crate) fn definition(
    alloc: Global,
    name: &[u8],
    body: Strategy,
) -> Result<Definition, AllocError>
    ensures { IfOk result (λ made. top_of made ≡
        forms.from origins.Library (forms.◌≔◌ name.now (strategy_of body))) }
{
    let body = Box::new(alloc, body)?;
    let parameters = vec![in alloc; build::name(alloc, PARAMETER)?]?;
    let head = build::head(alloc, name, Parameters::Strategies(parameters))?;
    let form = DefinitionForm::Strategy(StrategyDefinition { head, body });
    let origin = Origin::Library;
    Ok(Definition { origin, form })
}
