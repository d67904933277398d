//! Tests of the public calls from terms to the evaluator: terms and their text, primitives, and rows for the evaluator. They stand in a
//! crate of their own, since a crate with tests is proved once more for them.
#![tactic(auto)]

#[cfg(test)]
mod evaluator;
#[cfg(test)]
mod primitives;
#[cfg(test)]
mod term_text;
#[cfg(test)]
mod terms;
