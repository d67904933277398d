//! Places, frames, and the matching and building of loaded patterns, over every space of terms.
#![tactic(auto)]

mod annotations;
mod applied;
mod arguments;
mod building;
mod first_parts;
mod frames;
mod loaded;
mod lookup;
mod making;
mod matching;
mod memory;
mod places;

pub use applied::{build_term, match_term};
pub use arguments::{build_all, place_arguments};
pub use building::{Built, Pushed};
pub use frames::{Closure, Frames};
pub use loaded::{LoadedPattern, load_pattern, load_patterns};
pub use lookup::value;
pub use making::outcome;
pub use matching::is_integer;
pub use memory::{narrow, push_on, release_spare};
pub use places::Places;
