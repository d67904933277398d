//! The trees of strategies and patterns: one type for each level at which operators bind.
use crate::text::{Name, Text};

/// A strategy: sequences with `<+`, or `<` and `+`, between them. These group to the right.
#[cycle(syntax)]
#[derive(Drop)]
pub enum Strategy {
    /// A sequence alone.
    Sequence(Sequence),
    /// `s1 <+ s2`, a left choice.
    LeftChoice(Sequence, Box<Strategy>),
    /// `s1 < s2 + s3`, a guarded choice.
    GuardedChoice(Sequence, Box<Strategy>, Box<Strategy>),
}

/// Steps with `;` between them, which group to the right.
#[cycle(syntax)]
#[derive(Drop)]
pub enum Sequence {
    /// The last step.
    Last(Step),
    /// `s1; s2`
    Then(Step, Box<Sequence>),
}

/// A strategy that no `;` or choice splits.
#[cycle(syntax)]
#[derive(Drop)]
pub enum Step {
    /// A strategy that no operator splits, after the byte of the file at which it begins.
    Plain(u64, Box<Primary>),
    /// `s => p`, where each of the two comes after the byte of the file at which it begins.
    Matching(u64, Box<Primary>, u64, Box<Pattern>),
}

/// The operators that have one strategy in parentheses.
#[derive(Clone, Copy, Debug, PartialEq, Eq)]
pub enum Operator {
    /// `where(s)`
    Where,
    /// `not(s)`
    Not,
    /// `all(s)`
    All,
    /// `one(s)`
    One,
    /// `some(s)`
    Some,
}

/// A strategy that no operator splits.
#[cycle(syntax)]
#[derive(Drop)]
pub enum Primary {
    /// `id`
    Id,
    /// `fail`
    Fail,
    /// `?p`
    Match(Pattern),
    /// `!p`
    Build(Pattern),
    /// `<s> p`
    Apply(Box<Strategy>, Box<Pattern>),
    /// `(s)`
    Parenthesized(Box<Strategy>),
    /// `{x, ..: s}`
    Scope(Vec<Name>, Box<Strategy>),
    /// `where(s)`, `not(s)`, `all(s)`, `one(s)` or `some(s)`
    Operator(Operator, Box<Strategy>),
    /// `if s1 then s2 end` or `if s1 then s2 else s3 end`
    If(Box<Strategy>, Box<Strategy>, Option<Box<Strategy>>),
    /// `rec x(s)`
    Recursive(Name, Box<Strategy>),
    /// `let f = s .. in s end`, with one definition or more.
    Let(Vec<StrategyDefinition>, Box<Strategy>),
    /// `prim("name", p, ..)`
    Primitive(Text, Vec<Pattern>),
    /// `\ p -> p where s \`
    Lambda(Box<Rule>),
    /// `f`, `f(s, ..)` or `f(s, .. | p, ..)`: a call, or a congruence where f is a constructor declared with as many sorts as there
    /// are strategies.
    Call(Name, Arguments),
    /// `()` or `(s, s, ..)`: the congruence of tuples, with any number of parts but one.
    TupleCongruence(Vec<Strategy>),
    /// `[]`, `[s, ..]` or `[s, .. | s]`: the congruence of lists, with one strategy or more before a bar.
    ListCongruence(Vec<Strategy>, Option<Box<Strategy>>),
}

/// The arguments of a call, as they are written.
#[cycle(syntax)]
#[derive(Drop)]
pub enum Arguments {
    /// No parentheses.
    Absent,
    /// `(s, ..)`, strategies.
    Strategies(Vec<Strategy>),
    /// `(s, .. | p, ..)`, strategies and terms. The terms stand in a box: few calls have any, and each primary takes the room of the
    /// largest.
    WithTerms(Vec<Strategy>, Box<Vec<Pattern>>),
}

/// `p -> p` or `p -> p where s`
#[cycle(syntax)]
#[derive(Drop)]
pub struct Rule {
    pub left: Box<Pattern>,
    pub right: Box<Pattern>,
    pub condition: Option<Box<Strategy>>,
}

/// The parameters of a rule or a definition, as they are written.
#[derive(Drop)]
pub enum Parameters {
    /// No parentheses.
    Absent,
    /// `(f, ..)`, strategies.
    Strategies(Vec<Name>),
    /// `(f, .. | x, ..)`, strategies and terms.
    WithTerms(Vec<Name>, Vec<Name>),
}

/// The name and the parameters of a rule or a definition.
#[derive(Drop)]
pub struct DefinitionHead {
    pub name: Name,
    pub parameters: Parameters,
}

/// `f(..) = s`
#[cycle(syntax)]
#[derive(Drop)]
pub struct StrategyDefinition {
    pub head: DefinitionHead,
    pub body: Box<Strategy>,
}

/// A pattern, in a match or in a build.
#[cycle(syntax)]
#[derive(Drop)]
pub enum Pattern {
    /// `x`
    Variable(Name),
    /// `_`, and the byte of the file at which it stands.
    Wildcard(u64),
    /// `x@p`
    Alias(Name, Box<Pattern>),
    /// `1`
    Integer(i64),
    /// `"text"`
    Quoted(Text),
    /// `C(p, ..)`, a constructor applied to any number of patterns.
    Application(Name, Vec<Pattern>),
    /// `(p)`, which is p.
    Parenthesized(Box<Pattern>),
    /// `()` or `(p, p, ..)`, with any number of parts but one.
    Tuple(Vec<Pattern>),
    /// `[]`, `[p, ..]` or `[p, .. | p]`, with one pattern or more before a bar.
    List(Vec<Pattern>, Option<Box<Pattern>>),
    /// `p{p, ..}`, a pattern with patterns of its annotations, of which there may be none.
    Annotated(Box<Pattern>, Vec<Pattern>),
    /// `<s>`, a strategy applied to the current term; in a build alone.
    Applied(Box<Strategy>),
    /// `<s> p`, a strategy applied to what p builds; in a build alone.
    AppliedTo(Box<Strategy>, Box<Pattern>),
}
