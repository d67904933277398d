//! Core programs over coordinates.
use crate::coordinate::Coordinate;
use crate::source::{CallTarget, SourcePattern};
use term_model::Sym;

/// A pattern, or what a build makes.
#[derive(Debug, Drop, PartialEq, Eq)]
pub enum CorePattern {
    /// Matches every term; a build has no use for it.
    Anything,
    Variable(Coordinate),
    /// A variable, and the pattern of its term; a build has no use for it.
    Alias(Coordinate, Box<CorePattern>),
    Integer(i64),
    /// A symbol applied to patterns; a quoted text is one with none.
    Applied(Sym, Vec<CorePattern>),
    /// The elements of a list, and the pattern of the rest after them where it may have more.
    List(Vec<CorePattern>, Option<Box<CorePattern>>),
    /// In a build alone: what the pattern makes, with the annotations of the variable's term.
    Like(Box<CorePattern>, Coordinate),
    /// A pattern of the term without its annotations, and a pattern of each of these.
    Annotated(Box<CorePattern>, Vec<CorePattern>),
}

/// A strategy. A chain that groups to the right is one list, so that no walk recurses along it.
#[cycle(strategy)]
#[derive(Debug, Drop)]
pub enum CoreStrategy {
    Id,
    Fail,
    /// The strategies one after another, two at least: `s1; s2; ..`.
    Sequence(Box<CoreStrategy>, Box<CoreStrategy>, Vec<CoreStrategy>),
    /// The first guard that succeeds decides; after the last comes the strategy that is tried where none does.
    Choice(Box<CoreArm>, Vec<CoreArm>, Box<CoreStrategy>),
    Match(SourcePattern),
    Build(SourcePattern),
    /// This number of new variables, and the strategy that sees them.
    Scope(usize, Box<CoreStrategy>),
    /// The strategy on each part of the term.
    All(Box<CoreStrategy>),
    /// The strategy on the first part of the term where it does not fail.
    One(Box<CoreStrategy>),
    /// The strategy on each part of the term, one at least, where it does not fail.
    Some(Box<CoreStrategy>),
    /// Definitions, and the strategy that sees them.
    LetIn(Vec<CoreDef>, Box<CoreStrategy>),
    /// A call with strategy and term arguments. Where the coordinate of its target is in a layer of variables it is of a strategy
    /// parameter, where it is in a layer of definitions it is of a definition.
    Call(CallTarget, Vec<CoreStrategy>, Vec<CorePattern>),
    /// A call of the primitive of this name, with term arguments.
    Primitive(Vec<u8>, Vec<CorePattern>),
}

/// A guard, and what follows where it succeeds.
#[cycle(strategy)]
#[derive(Debug, Drop)]
pub struct CoreArm {
    pub guard: CoreStrategy,
    pub then: CoreStrategy,
}

/// A definition: how many strategy and term parameters it has, and its body.
#[cycle(strategy)]
#[derive(Debug, Drop)]
pub struct CoreDef {
    pub strats: usize,
    pub terms: usize,
    pub body: CoreStrategy,
}
