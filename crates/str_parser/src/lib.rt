//! The trees of definition files from their tokens. The crate `front_tests` has the tests.
#![tactic(auto)]

mod call;
mod congruence;
mod descent;
pub mod expected;
pub mod file;
mod form;
mod input;
mod let_in;
mod names;
mod pattern;
mod primary;
pub mod refusal;
mod rule;
mod sorts;

pub use expected::{Candidate, Expected, SyntaxReason};
pub use file::{MAX_LEVEL, parse, parse_file};
pub use refusal::ParseRefusal;
