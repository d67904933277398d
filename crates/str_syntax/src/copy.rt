//! Copies of strategies and patterns.
ghost use Rattle.std.specs.Prelude.{◌≡◌, IfOk, map};
ghost use Rattle.str_syntax.specs.Views.{arguments_of, definition_of, head_of, optional_pattern_of, optional_strategy_of, parameters_of, pattern_of, primary_of, rule_of, sequence_of, step_of, strategy_of};

use crate::strategy::{
    Arguments, DefinitionHead, Parameters, Pattern, Primary, Rule, Sequence, Step, Strategy,
    StrategyDefinition,
};
use crate::text::names;
use std::alloc::{AllocError, Global};

impl Parameters {
    /// Copies the parameters. `AllocError` where the memory for it is refused.
    pub fn copy(&self, alloc: Global) -> Result<Parameters, AllocError>
        ensures { IfOk result (λ made. parameters_of made ≡ parameters_of self.now) }
    {
        match self {
            Parameters::Absent => Ok(Parameters::Absent),
            Parameters::Strategies(fs) => Ok(Parameters::Strategies(names(alloc, fs)?)),
            Parameters::WithTerms(fs, xs) => {
                Ok(Parameters::WithTerms(names(alloc, fs)?, names(alloc, xs)?))
            }
        }
    }
}

impl DefinitionHead {
    /// Copies the name and the parameters. `AllocError` where the memory for them is refused.
    pub fn copy(&self, alloc: Global) -> Result<DefinitionHead, AllocError>
        ensures { IfOk result (λ made. head_of made ≡ head_of self.now) }
    {
        Ok(DefinitionHead {
            name: self.name.copy(alloc)?,
            parameters: self.parameters.copy(alloc)?,
        })
    }
}

impl Strategy {
    /// Copies the strategy. `AllocError` where the memory for it is refused.
    #[cycle(copy)]
    pub fn copy(&self, alloc: Global) -> Result<Strategy, AllocError>
        ensures { IfOk result (λ made. strategy_of made ≡ strategy_of self.now) }
    {
        match self {
            Strategy::Sequence(q) => Ok(Strategy::Sequence(q.copy(alloc)?)),
            Strategy::LeftChoice(q, s) => {
                Ok(Strategy::LeftChoice(q.copy(alloc)?, boxed(alloc, s)?))
            }
            Strategy::GuardedChoice(q, s, t) => {
                Ok(Strategy::GuardedChoice(q.copy(alloc)?, boxed(alloc, s)?, boxed(alloc, t)?))
            }
        }
    }
}

impl Sequence {
    /// Copies the sequence. `AllocError` where the memory for it is refused.
    #[cycle(copy)]
    pub fn copy(&self, alloc: Global) -> Result<Sequence, AllocError>
        ensures { IfOk result (λ made. sequence_of made ≡ sequence_of self.now) }
    {
        match self {
            Sequence::Last(s) => Ok(Sequence::Last(s.copy(alloc)?)),
            Sequence::Then(s, q) => {
                Ok(Sequence::Then(s.copy(alloc)?, Box::new(alloc, q.copy(alloc)?)?))
            }
        }
    }
}

impl Step {
    /// Copies the step. `AllocError` where the memory for it is refused.
    #[cycle(copy)]
    pub fn copy(&self, alloc: Global) -> Result<Step, AllocError>
        ensures { IfOk result (λ made. step_of made ≡ step_of self.now) }
    {
        match self {
            Step::Plain(at, s) => Ok(Step::Plain(*at, boxed_primary(alloc, s)?)),
            Step::Matching(at, s, there, p) => {
                let first = boxed_primary(alloc, s)?;
                Ok(Step::Matching(*at, first, *there, boxed_pattern(alloc, p)?))
            }
        }
    }
}

impl Primary {
    /// Copies the strategy. `AllocError` where the memory for it is refused.
    #[cycle(copy)]
    pub fn copy(&self, alloc: Global) -> Result<Primary, AllocError>
        ensures { IfOk result (λ made. primary_of made ≡ primary_of self.now) }
    {
        match self {
            Primary::Id => Ok(Primary::Id),
            Primary::Fail => Ok(Primary::Fail),
            Primary::Match(p) => Ok(Primary::Match(p.copy(alloc)?)),
            Primary::Build(p) => Ok(Primary::Build(p.copy(alloc)?)),
            Primary::Apply(s, p) => Ok(Primary::Apply(boxed(alloc, s)?, boxed_pattern(alloc, p)?)),
            Primary::Parenthesized(s) => Ok(Primary::Parenthesized(boxed(alloc, s)?)),
            Primary::Scope(xs, s) => Ok(Primary::Scope(names(alloc, xs)?, boxed(alloc, s)?)),
            Primary::Operator(o, s) => Ok(Primary::Operator(*o, boxed(alloc, s)?)),
            Primary::If(s, t, u) => {
                Ok(Primary::If(boxed(alloc, s)?, boxed(alloc, t)?, optional(alloc, u)?))
            }
            Primary::Recursive(x, s) => Ok(Primary::Recursive(x.copy(alloc)?, boxed(alloc, s)?)),
            Primary::Let(ds, s) => Ok(Primary::Let(definitions(alloc, ds)?, boxed(alloc, s)?)),
            Primary::Primitive(x, ps) => {
                Ok(Primary::Primitive(x.copy(alloc)?, patterns(alloc, ps)?))
            }
            Primary::Lambda(r) => Ok(Primary::Lambda(Box::new(alloc, r.copy(alloc)?)?)),
            Primary::Call(f, arguments) => {
                Ok(Primary::Call(f.copy(alloc)?, arguments.copy(alloc)?))
            }
            Primary::TupleCongruence(ss) => Ok(Primary::TupleCongruence(strategies(alloc, ss)?)),
            Primary::ListCongruence(ss, s) => {
                Ok(Primary::ListCongruence(strategies(alloc, ss)?, optional(alloc, s)?))
            }
        }
    }
}

impl Arguments {
    /// Copies the arguments. `AllocError` where the memory for them is refused.
    #[cycle(copy)]
    pub fn copy(&self, alloc: Global) -> Result<Arguments, AllocError>
        ensures { IfOk result (λ made. arguments_of made ≡ arguments_of self.now) }
    {
        match self {
            Arguments::Absent => Ok(Arguments::Absent),
            Arguments::Strategies(ss) => Ok(Arguments::Strategies(strategies(alloc, ss)?)),
            Arguments::WithTerms(ss, ps) => {
                let strategies = strategies(alloc, ss)?;
                let terms = patterns(alloc, ps)?;
                Ok(Arguments::WithTerms(strategies, Box::new(alloc, terms)?))
            }
        }
    }
}

impl Rule {
    /// Copies the rule. `AllocError` where the memory for it is refused.
    #[cycle(copy)]
    pub fn copy(&self, alloc: Global) -> Result<Rule, AllocError>
        ensures { IfOk result (λ made. rule_of made ≡ rule_of self.now) }
    {
        Ok(Rule {
            left: boxed_pattern(alloc, &self.left)?,
            right: boxed_pattern(alloc, &self.right)?,
            condition: optional(alloc, &self.condition)?,
        })
    }
}

impl StrategyDefinition {
    /// Copies the definition. `AllocError` where the memory for it is refused.
    #[cycle(copy)]
    pub fn copy(&self, alloc: Global) -> Result<StrategyDefinition, AllocError>
        ensures { IfOk result (λ made. definition_of made ≡ definition_of self.now) }
    {
        Ok(StrategyDefinition {
            head: self.head.copy(alloc)?,
            body: boxed(alloc, &self.body)?,
        })
    }
}

impl Pattern {
    /// Copies the pattern. `AllocError` where the memory for it is refused.
    #[cycle(copy)]
    pub fn copy(&self, alloc: Global) -> Result<Pattern, AllocError>
        ensures { IfOk result (λ made. pattern_of made ≡ pattern_of self.now) }
    {
        match self {
            Pattern::Variable(x) => Ok(Pattern::Variable(x.copy(alloc)?)),
            Pattern::Wildcard(offset) => Ok(Pattern::Wildcard(*offset)),
            Pattern::Alias(x, p) => Ok(Pattern::Alias(x.copy(alloc)?, boxed_pattern(alloc, p)?)),
            Pattern::Integer(z) => Ok(Pattern::Integer(*z)),
            Pattern::Quoted(text) => Ok(Pattern::Quoted(text.copy(alloc)?)),
            Pattern::Application(f, ps) => {
                Ok(Pattern::Application(f.copy(alloc)?, patterns(alloc, ps)?))
            }
            Pattern::Parenthesized(p) => Ok(Pattern::Parenthesized(boxed_pattern(alloc, p)?)),
            Pattern::Tuple(ps) => Ok(Pattern::Tuple(patterns(alloc, ps)?)),
            Pattern::List(ps, p) => {
                Ok(Pattern::List(patterns(alloc, ps)?, optional_pattern(alloc, p)?))
            }
            Pattern::Annotated(p, annotations) => {
                Ok(Pattern::Annotated(boxed_pattern(alloc, p)?, patterns(alloc, annotations)?))
            }
            Pattern::Applied(s) => Ok(Pattern::Applied(boxed(alloc, s)?)),
            Pattern::AppliedTo(s, p) => {
                Ok(Pattern::AppliedTo(boxed(alloc, s)?, boxed_pattern(alloc, p)?))
            }
        }
    }
}

#[cycle(copy)]
fn boxed(alloc: Global, source: &Strategy) -> Result<Box<Strategy>, AllocError>
    ensures { IfOk result (λ made. strategy_of made.value ≡ strategy_of source.now) }
{
    Ok(Box::new(alloc, source.copy(alloc)?)?)
}

#[cycle(copy)]
fn boxed_pattern(alloc: Global, source: &Pattern) -> Result<Box<Pattern>, AllocError>
    ensures { IfOk result (λ made. pattern_of made.value ≡ pattern_of source.now) }
{
    Ok(Box::new(alloc, source.copy(alloc)?)?)
}

#[cycle(copy)]
fn optional(
    alloc: Global,
    source: &Option<Box<Strategy>>,
) -> Result<Option<Box<Strategy>>, AllocError>
    ensures { IfOk result (λ made. optional_strategy_of made ≡ optional_strategy_of source.now) }
{
    match source {
        None => Ok(None),
        Some(s) => Ok(Some(boxed(alloc, s)?)),
    }
}

#[cycle(copy)]
fn optional_pattern(
    alloc: Global,
    source: &Option<Box<Pattern>>,
) -> Result<Option<Box<Pattern>>, AllocError>
    ensures { IfOk result (λ made. optional_pattern_of made ≡ optional_pattern_of source.now) }
{
    match source {
        None => Ok(None),
        Some(p) => Ok(Some(boxed_pattern(alloc, p)?)),
    }
}

#[cycle(copy)]
fn boxed_primary(alloc: Global, source: &Primary) -> Result<Box<Primary>, AllocError>
    ensures { IfOk result (λ made. primary_of made.value ≡ primary_of source.now) }
{
    Ok(Box::new(alloc, source.copy(alloc)?)?)
}

#[cycle(copy)]
fn patterns(alloc: Global, source: &[Pattern]) -> Result<Vec<Pattern>, AllocError>
    ensures { IfOk result (λ made. map pattern_of made.items ≡ map pattern_of source.now) }
{
    let mut made = Vec::with_capacity(alloc, source.len())?;
    for p in source {
        made.push(p.copy(alloc)?)?;
    }
    Ok(made)
}

#[cycle(copy)]
fn strategies(alloc: Global, source: &[Strategy]) -> Result<Vec<Strategy>, AllocError>
    ensures { IfOk result (λ made. map strategy_of made.items ≡ map strategy_of source.now) }
{
    let mut made = Vec::with_capacity(alloc, source.len())?;
    for s in source {
        made.push(s.copy(alloc)?)?;
    }
    Ok(made)
}

#[cycle(copy)]
fn definitions(
    alloc: Global,
    source: &[StrategyDefinition],
) -> Result<Vec<StrategyDefinition>, AllocError>
    ensures { IfOk result (λ made. map definition_of made.items ≡ map definition_of source.now) }
{
    let mut made = Vec::with_capacity(alloc, source.len())?;
    for d in source {
        made.push(d.copy(alloc)?)?;
    }
    Ok(made)
}
