//! The tokens of definition files.
#![tactic(auto)]

mod gap;
mod integer;
pub mod lexer;
mod mark;
pub mod quoted;
mod runs;
pub mod token;
mod word;

pub use lexer::lex;
pub use token::{Keyword, LeftOut, Mark, QuotedText, Token, TokenKind};
