//! With how many arguments each name is declared. Look-ups take no memory.
ghost use Rattle.std.specs.Prelude.{◌≡◌, [], ◌∷◌, OnOk, OnErr};
ghost use Rattle.signature_core.specs.Arities.{first_number, has_number, numbers_of, with_number, IsNoted};

use indexmap::{IndexMap, IndexSet};
use keyed_hash::HashKeys;
use std::alloc::{AllocError, Global};
use std::marker::Model;

/// Numbers of arguments of one name, each once. One alone takes no memory.
#[derive(Drop)]
pub(crate) struct Numbers {
    first: usize,
    others: IndexSet<usize, HashKeys>,
}

impl Model for Numbers {
    ghost use Rattle.std.specs.Prelude.{ℕ, List, ◌∷◌};

    ghost Value = { List ℕ };

    ghost view = { λ n. n.first ∷ n.others.keys };
}

impl Numbers {
    /// This number alone.
    fn new(alloc: Global, hashing: HashKeys, number: usize) -> Numbers
        ensures { result ≡ number ∷ [] }
    {
        Numbers {
            first: number,
            others: IndexSet::with_hasher(alloc, hashing),
        }
    }

    /// Whether the number is among these.
    fn has(&self, number: usize) -> bool
        ensures { result ≡ has_number self.now number }
    {
        number == self.first || self.others.contains(&number)
    }

    /// Adds the number, if it is none of these.
    #[tactic(auto, using(crate::proofs::ArityLaws::numbers))]
    fn add(&mut self, number: usize) -> Result<(), AllocError>
        ensures added { OnOk result (self.new ≡ with_number self.old number) }
        ensures unchanged { OnErr result (self.new ≡ self.old) }
    {
        if number == self.first {
            return Ok(());
        }
        self.others.insert(number)?;
        Ok(())
    }
}

/// The numbers of arguments of each name.
#[derive(Drop)]
pub(crate) struct Arities {
    by_name: IndexMap<Vec<u8>, Numbers, HashKeys>,
}

impl Arities {
    /// No names.
    pub(crate) fn new(alloc: Global, hashing: HashKeys) -> Arities
        ensures { result.by_name.entries ≡ [] }
    {
        Arities {
            by_name: IndexMap::with_hasher(alloc, hashing),
        }
    }

    /// Whether the name has this number.
    pub(crate) fn has(&self, name: &[u8], number: usize) -> bool
        ensures { result ≡ has_number (numbers_of self.now.by_name name.now) number }
    {
        match self.by_name.get(name) {
            Some(numbers) => numbers.has(number),
            None => false,
        }
    }

    /// The first number of the name.
    pub(crate) fn first(&self, name: &[u8]) -> Option<usize>
        ensures { result ≡ first_number (numbers_of self.now.by_name name.now) }
    {
        let numbers = self.by_name.get(name)?;
        Some(numbers.first)
    }

    /// Adds the number to those of the name.
    pub(crate) fn note(&mut self, name: &[u8], number: usize) -> Result<(), AllocError>
        ensures noted { OnOk result (IsNoted self.old.by_name name.now number self.new.by_name) }
        ensures unchanged { OnErr result (self.new.by_name.entries ≡ self.old.by_name.entries) }
    {
        if let Some(numbers) = self.by_name.get_mut(name) {
            return numbers.add(number);
        }
        let alloc = *self.by_name.allocator();
        let key = Vec::from_slice(alloc, name)?;
        let hashing = *self.by_name.hasher();
        let numbers = Numbers::new(alloc, hashing, number);
        self.by_name.insert(key, numbers)?;
        Ok(())
    }
}
