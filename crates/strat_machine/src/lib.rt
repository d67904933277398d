//! The machine that runs code, over every space of terms.
#![tactic(auto)]

mod addresses;
mod calls;
mod compact_records;
mod explaining;
mod failed_calls;
mod failing;
mod flat_values;
mod index;
mod instructions;
mod left_sides;
mod loaded;
mod machine;
mod partial;
mod patterns;
mod portions;
mod primitives;
mod program;
mod records;
mod roots;
mod running;
mod select;
mod shortening;
mod stack;
mod stacks;
mod steps;
mod tables;
mod tracer;
mod tracing;
mod traversals;
mod tries;
mod variables;

pub use explaining::{Account, Ending, Stand};
pub use left_sides::first_match;
pub use loaded::Loaded;
pub use machine::Machine;
pub use tracing::{Call, CallResult, CallsKept, Reach, Trace, Watched};
