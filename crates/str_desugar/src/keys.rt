//! The keys of definitions that stand together.
ghost use Rattle.std.specs.Prelude.{◌≡◌, [], map, not, OnOk};
ghost use Rattle.std.specs.List.{list_any, position};
ghost use Rattle.core_lang.specs.Named.{written};
ghost use Rattle.indexmap.specs.IndexSet.{insert_key};
ghost use Rattle.str_desugar.specs.Frames.{key_position};
ghost use Rattle.str_desugar.specs.Keys.{named_key};
ghost use Rattle.str_syntax.specs.Key.{same_key};
ghost use Rattle.term_model.specs.Results.{Returns};

use crate::marks::{Marks, Wanted};
use indexmap::IndexSet;
use keyed_hash::HashKeys;
use std::alloc::{AllocError, Global};
use std::marker::Model;
use str_syntax::DefinitionKey;

/// Keys, each once, in the order in which they were added. A look-up of a name whose mark is not set ends there, and another one does
/// not walk the keys.
#[derive(Drop)]
pub(crate) struct Keys<'t> {
    table: IndexSet<DefinitionKey<'t>, HashKeys>,
    /// The marks of their names.
    marks: Marks,
}

impl<'t> Model for Keys<'t> {
    ghost use Rattle.std.specs.Prelude.{List};
    ghost use Rattle.str_syntax.specs.Key.{Key};

    ghost Value = { List Key };

    ghost view = { λ keys. keys.table.keys };

    ghost use Rattle.str_desugar.specs.Keys.{AreKeysMarked};

    ghost invariant = { λ keys. AreKeysMarked keys.marks keys.table.keys };
}

impl<'t> Keys<'t> {
    /// No keys, in a table that hashes so.
    pub(crate) fn new(alloc: Global, hashing: HashKeys) -> Keys<'t>
        ensures { result ≡ [] }
    {
        Keys {
            table: IndexSet::with_hasher(alloc, hashing),
            marks: Marks::new(hashing),
        }
    }

    /// Puts the key after the others where it is new, and returns whether it is. `AllocError` where the memory for it is refused.
    pub(crate) fn insert(&mut self, key: DefinitionKey<'t>) -> Result<bool, AllocError>
        ensures inserted { OnOk result (self.new ≡ insert_key same_key self.old key.entry) }
        ensures new { Returns result (not (list_any (same_key key.entry) self.old)) }
    {
        self.marks.set(key.name());
        Ok(self.table.insert(key)?)
    }

    /// The position of the definition that is called by this name with these numbers of strategies and terms.
    #[inline(always)]
    pub(crate) fn position(&self, wanted: &Wanted, strategies: usize, terms: usize) -> Option<usize>
        ensures { result ≡
            key_position (map named_key self.now) (written wanted.now) strategies terms }
    {
        if !self.marks.has(&*wanted) {
            return None;
        }
        let key = DefinitionKey::new(wanted.name().bytes(), strategies, terms);
        self.position_of(&key)
    }

    /// The position of the key, whatever the mark of its name.
    #[inline(never)]
    #[tactic(auto, using(crate::proofs::SlotLaws::positions))]
    pub(crate) fn position_of(&self, key: &DefinitionKey) -> Option<usize>
        ensures first { result ≡ position (same_key key.now) self.now }
        ensures called { result ≡ key_position (map named_key self.now)
            (written key.now.name) key.now.strategies key.now.terms }
    {
        self.table.get_index_of(&*key)
    }
}
