//! Copies of names of primitives.
ghost use Rattle.std.specs.Prelude.{◌≡◌, IfOk};
ghost use Rattle.term_model.specs.Results.{Returns};

use std::alloc::{AllocError, Global};
use term_model::PrimNames;

/// A copy of the set.
pub(crate) fn copy_names(alloc: Global, source: &PrimNames) -> Result<PrimNames, AllocError>
    ensures { Returns result source.now }
{
    let mut made = PrimNames::new(alloc);
    for index in 0..source.len() {
        let (name, arity) = source.at(index);
        made.insert(name, arity)?;
    }
    Ok(made)
}

/// A copy of a name.
pub(crate) fn copied_name(alloc: Global, name: &[u8]) -> Result<Vec<u8>, AllocError>
    ensures { IfOk result (λ made. made.items ≡ name.now) }
{
    let mut made = Vec::with_capacity(alloc, name.len())?;
    made.extend_from_slice(name)?;
    Ok(made)
}
