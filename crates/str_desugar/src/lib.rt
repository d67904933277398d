//! The equations of the language: from a checked definition file to a core program over coordinates.
#![tactic(auto)]

mod alternatives;
mod assembly;
mod bound;
mod build;
mod build_patterns;
mod call;
mod congruence;
mod forms;
mod items;
mod keys;
pub mod laws;
mod locals;
mod marks;
mod match_patterns;
mod names;
mod offsets;
mod parts;
mod primitive;
pub mod program;
mod rules;
mod scopes;
mod strategy;
mod symbols;
mod variables;

pub use laws::{checked_files_resolve, checked_primitives_are_known};
pub use program::{alternative_heads, to_core};
