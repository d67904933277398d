//! Primitives: named functions on flat values, kept with what they return.
#![tactic(auto)]

mod arguments;
mod calculations;
pub mod flat;
pub mod primitive;
pub mod registry;
pub mod standard;
mod standard_primitive;
mod texts;

pub use flat::{Bytes, Flat, Numbers};
pub use primitive::{Action, Calculation, Prim, PrimMeaning, Primitive};
pub use registry::Registry;
pub use standard::Standard;
pub use standard_primitive::{STANDARD, StandardPrimitive};
