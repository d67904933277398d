//! The trees of definition files.
#![tactic(auto)]

mod arity;
pub mod build;
mod copy;
pub mod definition;
pub mod key;
mod same_sort;
pub mod sort;
pub mod strategy;
pub mod text;

pub use definition::{Definition, DefinitionForm, File, Origin, RuleDefinition, Section};
pub use key::DefinitionKey;
pub use sort::{Declaration, SignaturePart, Sort};
pub use strategy::{
    Arguments, DefinitionHead, Operator, Parameters, Pattern, Primary, Rule, Sequence, Step,
    Strategy, StrategyDefinition,
};
pub use text::{Name, Text};
