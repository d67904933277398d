//! The plain evaluator of core programs, by recursion.
#![tactic(auto)]

mod bindings;
mod callee;
mod evaluation;
mod flat_values;
mod frame;
mod instance;
mod making;
mod matching;
mod primitive;
mod primitives;
mod run;
mod state;

pub use run::eval;
