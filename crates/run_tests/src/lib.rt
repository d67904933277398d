//! Tests of whole runs, from bytes to bytes. They stand in a crate of their own, since a crate with tests is proved once more for them.
#![tactic(auto)]

#[cfg(test)]
mod transform;
