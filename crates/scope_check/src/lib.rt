//! The judgement of a whole definition file.
#![tactic(auto)]

mod alternatives;
mod calls;
mod clashes;
mod collected;
mod declarations;
pub mod detail;
pub mod faults;
mod file;
mod findings;
mod groups;
mod heads;
pub mod judgement;
mod keys;
mod known;
pub mod laws;
mod layers;
mod library;
mod names;
mod nodes;
pub mod note;
pub mod refusal;
mod rules;
pub mod side;
mod top_heads;
mod tops;
mod walk;

pub use detail::Detail;
pub use faults::{FileFaults, find_faults};
pub use judgement::{Checked, check, judge};
pub use note::Note;
pub use refusal::CheckRefusal;
pub use side::Side;
