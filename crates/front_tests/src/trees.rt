//! Names, and copies. Copies of files with every form are tested where files are read and reduced.
use std::alloc::Global;
use std::collections::HashMap;
use std::test::Fail;
use str_syntax::{Arguments, Definition, DefinitionForm, Name, Origin, Parameters, Primary, build};

fn names(alloc: Global, words: &[&str]) -> Result<Vec<Name>, Fail> {
    let mut names = Vec::new(alloc);
    for word in words {
        names.push(Name::new(alloc, word.as_bytes(), 7)?)?;
    }
    Ok(names)
}

/// What `f` and `g` have at these keys.
fn table(alloc: Global) -> Result<HashMap<Name, i32>, Fail> {
    let mut table = HashMap::new(alloc);
    table.insert(Name::new(alloc, b"f", 1)?, 10)?;
    table.insert(Name::new(alloc, b"g", 2)?, 20)?;
    Ok(table)
}

/// What the name has in the table.
fn value_of(alloc: Global, table: &HashMap<Name, i32>, name: &[u8]) -> Result<Option<i32>, Fail> {
    let name = Name::new(alloc, name, 3)?;
    Ok(table.get(&name).copied())
}

/// Whether the names of these bytes at two places are the same.
fn are_same(alloc: Global, left: &[u8], right: &[u8]) -> Result<bool, Fail> {
    let left = Name::new(alloc, left, 3)?;
    let right = Name::new(alloc, right, 4)?;
    Ok(left == right)
}

#[test]
fn names_are_keys_by_their_bytes(rt: HostRuntime) -> Result<(), Fail> {
    let table = table(rt.alloc())?;
    let f = value_of(rt.alloc(), &table, b"f")?;
    let h = value_of(rt.alloc(), &table, b"h")?;
    if f != Some(10) || h.is_some() {
        return Err("another value".into());
    }
    Ok(())
}

#[test]
fn names_are_their_bytes(rt: HostRuntime) -> Result<(), Fail> {
    if !are_same(rt.alloc(), b"f", b"f")? || are_same(rt.alloc(), b"f", b"h")? {
        return Err("another name".into());
    }
    Ok(())
}

/// Whether these are the numbers of the parameters.
fn has_parameters(parameters: &Parameters, strategies: usize, terms: usize) -> bool {
    parameters.strategies() == strategies && parameters.terms() == terms
}

#[test]
fn parameters_are_counted(rt: HostRuntime) -> Result<(), Fail> {
    let alloc = rt.alloc();
    let strategies = Parameters::Strategies(names(alloc, &["f", "g"])?);
    let both = Parameters::WithTerms(names(alloc, &["f"])?, names(alloc, &["x", "y"])?);
    if !has_parameters(&Parameters::Absent, 0, 0)
        || !has_parameters(&strategies, 2, 0)
        || !has_parameters(&both, 1, 2)
    {
        return Err("another number".into());
    }
    Ok(())
}

/// The argument `x`, which is a term.
fn one_term(alloc: Global) -> Result<Arguments, Fail> {
    let mut patterns = Vec::new(alloc);
    patterns.push(build::variable(alloc, b"x")?)?;
    let patterns = Box::new(alloc, patterns)?;
    Ok(Arguments::WithTerms(Vec::new(alloc), patterns))
}

/// Whether these are the numbers of the arguments.
fn has_arguments(arguments: &Arguments, strategies: usize, terms: usize) -> bool {
    arguments.strategies() == strategies && arguments.terms() == terms
}

#[test]
fn arguments_are_counted(rt: HostRuntime) -> Result<(), Fail> {
    let terms = one_term(rt.alloc())?;
    if !has_arguments(&Arguments::Absent, 0, 0) || !has_arguments(&terms, 0, 1) {
        return Err("another number".into());
    }
    Ok(())
}

/// The definition `f = id` of the library.
fn of_library(alloc: Global) -> Result<Definition, Fail> {
    let head = build::head(alloc, b"f", Parameters::Absent)?;
    let body = build::strategy(alloc, Primary::Id)?;
    let form = DefinitionForm::Strategy(build::definition(alloc, head, body)?);
    let origin = Origin::Library;
    Ok(Definition { origin, form })
}

#[test]
fn copies_keep_places(rt: HostRuntime) -> Result<(), Fail> {
    let name = Name::new(rt.alloc(), b"f", 7)?;
    let copy = name.copy(rt.alloc())?;
    if copy.bytes() != b"f".as_slice() || copy.offset() != 7 {
        return Err("another name".into());
    }
    Ok(())
}

#[test]
fn copies_keep_origins(rt: HostRuntime) -> Result<(), Fail> {
    let definition = of_library(rt.alloc())?;
    let copy = definition.copy(rt.alloc())?;
    if copy.origin != Origin::Library {
        return Err("another origin".into());
    }
    Ok(())
}
