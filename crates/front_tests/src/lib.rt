//! Tests of the public calls from the text of definitions to its core program: the lexer, the trees, the parser, declarations, the library,
//! the checks and `to_core`. They stand in a crate of their own, since a crate with tests is proved once more for them.
#![tactic(auto)]

#[cfg(test)]
mod annotations;
#[cfg(test)]
mod checks;
#[cfg(test)]
mod copies;
#[cfg(test)]
mod cores;
#[cfg(test)]
mod declarations;
#[cfg(test)]
mod files;
#[cfg(test)]
mod front;
#[cfg(test)]
mod library;
#[cfg(test)]
mod mutations;
#[cfg(test)]
mod offsets;
#[cfg(test)]
mod same;
#[cfg(test)]
mod tokens;
#[cfg(test)]
mod trees;
