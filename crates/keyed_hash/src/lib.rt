//! A hash function with two secret words, for tables of keys that somebody else chooses.
#![tactic(auto)]

mod hasher;
mod keys;

pub use hasher::KeyedHasher;
pub use keys::HashKeys;
