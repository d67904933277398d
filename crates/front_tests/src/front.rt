//! From the text of definitions to what is known of them.
use core_lang::Core;
use keyed_hash::HashKeys;
use scope_check::{Checked, check};
use std::alloc::Global;
use std::test::Fail;
use str_desugar::to_core;
use str_lexer::lex;
use str_parser::parse;
use str_syntax::File;
use term_model::PrimNames;

/// The file that the text spells.
pub(crate) fn read(alloc: Global, text: &str) -> Result<File, Fail> {
    let tokens = lex(alloc, text.as_bytes())?;
    Ok(parse(alloc, text.as_bytes(), &tokens)?)
}

/// The file without a fault, where `p` is a primitive without terms and with two.
pub(crate) fn check_file(alloc: Global, file: File) -> Result<Checked, Fail> {
    let mut primitives = PrimNames::new(alloc);
    primitives.insert(b"p", 0)?;
    primitives.insert(b"p", 2)?;
    Ok(check(alloc, HashKeys::known(), file, &primitives, b"main")?)
}

/// The core of the file.
pub(crate) fn core_of(alloc: Global, file: File) -> Result<Core, Fail> {
    let checked = check_file(alloc, file)?;
    Ok(to_core(alloc, HashKeys::known(), &checked)?)
}
