//! From definitions to their core program.
use crate::evaluator::texts::file_of;
use core_lang::Core;
use keyed_hash::HashKeys;
use prim_registry::{Registry, Standard};
use scope_check::check;
use std::alloc::Global;
use str_desugar::to_core;
use str_lexer::lex;
use str_parser::parse;
use strategy_lib::with_library;
use term_model::Fault;

/// The core program of the definitions of a row, which come after this front. They may call the library, and the primitives of the registry.
pub(crate) fn core_of_row(
    alloc: Global,
    front: &str,
    text: &str,
    registry: &Registry<Standard>,
) -> Result<Box<Core>, Fault> {
    let bytes = file_of(alloc, front, text)?;
    let tokens = lex(alloc, &bytes)?;
    let file = parse(alloc, &bytes, &tokens)?;
    let file = with_library(alloc, file)?;
    let names = registry.names(alloc)?;
    let checked = check(alloc, HashKeys::known(), file, &names, b"main")?;
    Ok(Box::new(alloc, to_core(alloc, HashKeys::known(), &checked)?)?)
}
