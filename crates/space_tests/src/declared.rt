//! Declarations one after the other, for runs in which memory is refused: `tools/growth` refuses each call for memory in turn. A declaration
//! that is refused memory leaves the signature as it was, and is made once more.
use keyed_hash::HashKeys;
use signature_core::Signature;
use std::alloc::{AllocError, Global};
use std::test::Fail;
use str_syntax::{Name, Sort};
use term_model::Fault;

/// Names and their numbers of arguments, each of the sort `T`.
const DECLARED: &[(&[u8], usize)] = &[
    (b"F", 1),
    (b"F", 2),
    (b"G", 0),
    (b"F", 0),
    (b"a_name_of_more_than_some_bytes", 3),
    (b"G", 4),
    (b"H", 1),
    (b"I", 2),
    (b"J", 0),
];

/// As many sorts `T`.
fn sorts(alloc: Global, count: usize) -> Result<Vec<Sort>, AllocError> {
    let mut sorts = Vec::with_capacity(alloc, count)?;
    for _ in 0..count {
        sorts.push(Sort::Named(Name::new(alloc, b"T", 0)?))?;
    }
    Ok(sorts)
}

/// Declares the name with as many arguments.
fn declare(
    alloc: Global,
    signature: &mut Signature,
    name: &[u8],
    count: usize,
) -> Result<(), Fault> {
    let arguments = sorts(alloc, count)?;
    let name = Name::new(alloc, name, 0)?;
    let to = Sort::Named(Name::new(alloc, b"T", 0)?);
    signature.declare(name, arguments, to)
}

/// Whether exactly the first declarations are known, as many as this.
fn knows_first(signature: &Signature, count: usize) -> bool {
    for (index, (name, number)) in DECLARED.iter().enumerate() {
        if signature.arity_known(name, *number) != (index < count) {
            return false;
        }
    }
    true
}

/// Declares the name after this many others, once more where memory is refused. Whether the signature is as it was after the refusal, and knows
/// one more in the end.
fn is_declared(
    alloc: Global,
    signature: &mut Signature,
    index: usize,
    name: &[u8],
    number: usize,
) -> Result<bool, Fault> {
    if declare(alloc, signature, name, number).is_err() {
        if !knows_first(signature, index) {
            return Ok(false);
        }
        declare(alloc, signature, name, number)?;
    }
    Ok(knows_first(signature, index.saturating_add(1)))
}

/// Whether the name is refused, since it is declared already.
fn is_refused(
    alloc: Global,
    signature: &mut Signature,
    name: &[u8],
    number: usize,
) -> Result<bool, Fault> {
    match declare(alloc, signature, name, number) {
        Ok(()) => Ok(false),
        Err(Fault::DuplicateDeclaration) => Ok(knows_first(signature, DECLARED.len())),
        Err(fault) => Err(fault),
    }
}

#[test]
fn declarations(rt: HostRuntime) -> Result<(), Fail> {
    let mut signature = Signature::new(rt.alloc(), HashKeys::known());
    for (index, (name, number)) in DECLARED.iter().enumerate() {
        if !is_declared(rt.alloc(), &mut signature, index, name, *number)? {
            return Err(Fail::new(index));
        }
    }
    for (name, number) in DECLARED {
        if !is_refused(rt.alloc(), &mut signature, name, *number)? {
            return Err(Fail::new(name.escape_ascii()));
        }
    }
    Ok(())
}
