//! Sets of names of primitives with their numbers of arguments.
ghost use Rattle.std.specs.Prelude.{◌≡◌, ◌↔◌, ◌<◌, [], length, Contains, IsTrue, OnOk, OnErr};
ghost use Rattle.term_model.specs.NameSet.{key_at};
ghost use Rattle.term_model.specs.NameSet.{EachOnce, IsInserted};

use std::alloc::{AllocError, Global};
use std::marker::Model;

/// A name with a number of arguments.
#[derive(Debug, Drop)]
struct Entry {
    name: Vec<u8>,
    arity: usize,
}

/// A set of names with numbers of arguments; its pairs stand in the order in which they were inserted.
#[derive(Debug, Drop)]
pub struct PrimNames {
    entries: Vec<Entry>,
}

impl Model for PrimNames {
    ghost use Rattle.std.specs.Prelude.{List};
    ghost use Rattle.term_model.specs.PrimNames.{NameKey};
    ghost use Rattle.term_model.specs.NameSet.{EachOnce};
    ghost use Rattle.term_model.specs.PrimKey.{keys_of};

    ghost Value = { List NameKey };

    ghost view = { λ names. keys_of names.entries.items };

    ghost invariant = { λ names. EachOnce (keys_of names.entries.items) };
}

/// Whether two names are the same.
fn same_name(left: &[u8], right: &[u8]) -> bool
    ensures { IsTrue result ↔ (left.now ≡ right.now) }
{
    left == right
}

impl PrimNames {
    /// Returns the empty set. Takes no memory.
    pub fn new(alloc: Global) -> PrimNames
        ensures { result ≡ [] }
    {
        PrimNames {
            entries: Vec::new(alloc),
        }
    }

    /// Whether the name is in the set with this number of arguments. Takes no memory.
    pub fn has(&self, name: &[u8], arity: usize) -> bool
        ensures { IsTrue result ↔ Contains self.now (name.now, arity) }
    {
        for entry in &self.entries {
            if entry.arity == arity && same_name(&entry.name, name) {
                return true;
            }
        }
        false
    }

    /// Inserts the name with this number of arguments after the others, where it is not in the set. After an error, which is a refused
    /// growth, the set is as it was.
    pub fn insert(&mut self, name: &[u8], arity: usize) -> Result<(), AllocError>
        ensures inserted { OnOk result (IsInserted self.old (name.now, arity) self.new) }
        ensures unchanged { OnErr result (self.new ≡ self.old) }
    {
        if self.has(name, arity) {
            return Ok(());
        }
        let alloc = *self.entries.allocator();
        let name = Vec::from_slice(alloc, name)?;
        self.entries.push(Entry { name, arity })?;
        Ok(())
    }

    /// Returns the number of pairs in the set, each of which has one place.
    pub fn len(&self) -> usize
        ensures count { result ≡ length self.now }
        ensures once { EachOnce self.now }
    {
        self.entries.len()
    }

    /// Whether the set is empty.
    pub fn is_empty(&self) -> bool
        ensures { IsTrue result ↔ (self.now ≡ []) }
    {
        self.entries.is_empty()
    }

    /// Returns the pair at a place below `len`: the name and its number of arguments.
    pub fn at(&self, index: usize) -> (&[u8], usize)
        requires { index < length self.now }
        ensures { (result.0.now, result.1) ≡ key_at self.now index }
    {
        let entry = &self.entries[index];
        (entry.name.as_slice(), entry.arity)
    }
}
