//! The constructors that a definition file declares.
#![tactic(auto)]

mod arities;
mod constructor;
pub mod signature;

pub use signature::Signature;
