//! The program as a library: the words of the command line, the files that they name, the run over them and over any streams, and what is
//! reported of it.
#![tactic(auto)]

mod checking;
mod definition_files;
mod ending;
mod failure;
mod formed;
mod items;
mod joined;
mod laws;
mod library_files;
mod names;
mod open_streams;
mod opening;
mod paths;
mod pretty;
mod primitives;
mod program;
mod progress;
mod raw;
mod report;
mod request;
mod stand_ins;
mod stopping;
mod tables;
mod usage;
mod version;
mod words;

pub use laws::{pretty_text_law, words_law};
pub use paths::{Files, Paths};
pub use primitives::run_standard;
pub use program::run;
pub use raw::without_quotes;
pub use request::{Form, Misuse, OutputOptions, Request, Texts, Unasked, request_of};
pub use stand_ins::open_stand_ins;
pub use usage::error_of;
pub use words::words_of;
