//! What an evaluation changes.
use std::alloc::Global;
use term_model::Term;

/// The bindings and the rest of the budget, and where memory is taken.
#[derive(Drop)]
pub struct State {
    pub alloc: Global,
    /// The places of all layers, innermost last.
    pub places: Vec<Option<Term>>,
    /// How many nodes a derivation may still have.
    pub budget: u64,
}
