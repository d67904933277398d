//! Tables of keys.
ghost use Rattle.std.specs.Prelude.{◌≡◌, ◌||◌, [], not, OnOk};
ghost use Rattle.scope_check.specs.Seen as spec;
ghost use Rattle.scope_check.specs.Seen.{among, same_key};
ghost use Rattle.term_model.specs.Results.{Returns};

use indexmap::IndexSet;
use keyed_hash::HashKeys;
use std::alloc::{AllocError, Global};
use std::marker::Model;
use str_syntax::DefinitionKey;

/// The most keys that a look-up walks.
const FEW: usize = 8;

/// Whether the key is one of these.
fn stands_among<'a>(keys: &[DefinitionKey<'a>], key: &DefinitionKey<'a>) -> bool
    ensures { result ≡ among keys.now key.now }
{
    keys.iter().any(|other| *key == *other)
}

/// Keys that were added. A look-up compares at most eight of them.
#[derive(Drop)]
pub(crate) struct Keys<'a> {
    /// The first keys.
    few: Vec<DefinitionKey<'a>>,
    /// The keys after them.
    table: IndexSet<DefinitionKey<'a>, HashKeys>,
}

/// The keys, each once, in the order in which they were added.
impl<'a> Model for Keys<'a> {
    ghost use Rattle.std.specs.Prelude.{List, ◌++◌};
    ghost use Rattle.scope_check.specs.Seen.{Key};

    ghost Value = { List Key };

    ghost view = { λ t. t.few.items ++ t.table.keys };
}

impl<'a> Keys<'a> {
    /// No keys, in a table that hashes so.
    pub(crate) fn new(alloc: Global, hashing: HashKeys) -> Keys<'a>
        ensures { result ≡ [] }
    {
        Keys {
            few: Vec::new(alloc),
            table: IndexSet::with_hasher(alloc, hashing),
        }
    }

    /// Adds the key, and returns whether it was not there before. `AllocError` where a growth is refused.
    pub(crate) fn add(&mut self, key: DefinitionKey<'a>) -> Result<bool, AllocError>
        ensures added { OnOk result ((k : spec.Key) →
            among self.new k ≡ (among self.old k || same_key k key.entry)) }
        ensures new { Returns result (not (among self.old key.entry)) }
    {
        if stands_among(&self.few, &key) {
            return Ok(false);
        }
        if self.few.len() < FEW && self.table.is_empty() {
            self.few.push(key)?;
            return Ok(true);
        }
        Ok(self.table.insert(key)?)
    }

    /// Whether the key was added.
    pub(crate) fn has(&self, key: &DefinitionKey<'a>) -> bool
        ensures { result ≡ among self.now key.now }
    {
        if stands_among(&self.few, &*key) {
            return true;
        }
        !self.table.is_empty() && self.table.contains(&*key)
    }

    /// The numbers of the first key of this name.
    pub(crate) fn numbers_of(&self, name: &[u8]) -> Option<(usize, usize)> {
        for key in self.few.iter().chain(self.table.iter()) {
            if key.name() == name {
                return Some((key.strategies(), key.terms()));
            }
        }
        None
    }
}
