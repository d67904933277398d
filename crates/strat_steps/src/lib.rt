//! The machine as a definition: its states, its steps, and the laws of its runs.
#![tactic(auto)]

mod laws;

pub use laws::{
    code_means_one_thing, code_runs, records_restore, references_step, runs_are_unique,
};
