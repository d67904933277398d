//! Code that core programs are compiled to, and what it is for code to stand for a program.
#![tactic(auto)]

mod code;
mod instr;
mod laws;

pub use code::{Code, SourceMark};
pub use instr::{Argument, Case, Instr, Root, Traversal};
pub use laws::{longer_code_stands, merging_code_stands, small_code_stands, walking_code_stands};
