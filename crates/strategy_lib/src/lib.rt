//! The library of strategies, which is added to every file.
#![tactic(auto)]

mod forms;
mod library;

pub use library::with_library;
