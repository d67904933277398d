//! The compiler from cores to code.
#![tactic(auto)]

mod callee;
mod calls;
mod chain;
mod choices;
mod closed;
mod code_size;
mod conditional;
mod emit;
mod emitting;
mod expansion;
mod known;
mod layers;
mod leaves;
mod located;
mod names;
mod open_calls;
mod output;
mod pattern_size;
mod patterns;
mod program;
mod program_size;
mod recursion;
mod roots;
mod selects;
mod sources;
mod ways;

pub use program::{compile, compile_for_counts, compile_with_marks};
