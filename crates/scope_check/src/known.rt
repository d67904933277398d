//! What a file is judged by.
ghost use Rattle.std.specs.Prelude.{◌≡◌};
ghost use Rattle.scope_check.specs.Primitives.{holds};

use keyed_hash::HashKeys;
use signature_core::Signature;
use term_model::PrimNames;

/// The constructors that a file declares, the primitives that there are, and the keys of tables of names.
#[derive(Clone, Copy)]
pub(crate) struct Known<'a> {
    pub(crate) signature: &'a Signature,
    pub(crate) primitives: &'a PrimNames,
    pub(crate) hashing: HashKeys,
}

impl<'a> Known<'a> {
    /// Whether there is a primitive of this name with this number of terms.
    pub(crate) fn has_primitive(&self, name: &[u8], terms: usize) -> bool
        ensures { result ≡ holds self.now.primitives.now name.now terms }
    {
        self.primitives.has(name, terms)
    }
}
