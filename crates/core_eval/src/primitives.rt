//! Primitives as an evaluation calls them.
ghost use Rattle.std.specs.Prelude.{◌≡◌, IfOk};
ghost use Rattle.prim_registry.specs.Entries.{IsHonest};
ghost use Rattle.prim_registry.specs.Values.{answer_of, values_of};
ghost use Rattle.prim_registry.specs.Registered.{meaning_of};

use prim_registry::{Flat, PrimMeaning, Registry};
use std::alloc::AllocError;

/// Primitives that are called by their names. A cycle of calls cannot take a registry itself, which holds functions.
pub trait Primitives {
    ghost use Rattle.term_model.specs.Flat.{Meaning};

    /// What they mean.
    ghost meaning: { Self → Meaning };

    /// Whether each returns what it means.
    ghost honest: { Self → Type 0 };

    /// Calls the primitive of this name with as many arguments: returns what these primitives mean by it. `AllocError` where
    /// the primitive is refused a growth.
    fn call(&self, name: &[u8], args: &[Flat]) -> Result<Option<Flat>, AllocError>
        requires { honest self.now }
        ensures { IfOk result (λ answer. answer_of answer ≡
            meaning self.now name.now (values_of args.now)) };
}

/// A name that is not registered with as many arguments returns nothing.
impl<M: PrimMeaning> Primitives for Registry<M> {
    ghost meaning = { λ r. meaning_of M.answer r };

    ghost honest = { λ r. IsHonest M.answer r };

    fn call(&self, name: &[u8], args: &[Flat]) -> Result<Option<Flat>, AllocError> {
        match self.position(name, args.len()) {
            Some(index) => match self.call_at(index, args) {
                Ok(answer) => Ok(answer),
                Err(_) => Err(AllocError),
            },
            None => Ok(None),
        }
    }
}
