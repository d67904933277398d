//! Marks of names. A table sets the marks of its names, and a name whose mark is not set there is not looked up in it.
ghost use Rattle.std.specs.Prelude.{◌≡◌, ◌<◌, true, false};
ghost use Rattle.str_desugar.specs.Marks.{AreKept, is_marked, mark_of};

use keyed_hash::HashKeys;
use std::hash::{BuildHasher, Hasher};
use std::marker::Model;
use str_syntax::Name;

/// Returns the mark of a name under these keys.
fn mark_of(hashing: HashKeys, name: &[u8]) -> usize
    ensures mark { result ≡ mark_of hashing name.now }
    ensures small { result < 512 }
{
    let mut hasher = hashing.build_hasher();
    hasher.write(name);
    let hash = hasher.finish();
    (hash % 512) as usize
}

/// A name that is looked up in tables, with its mark.
#[derive(Drop)]
pub(crate) struct Wanted<'a> {
    name: &'a Name,
    hashing: HashKeys,
    mark: usize,
}

impl<'a> Model for Wanted<'a> {
    ghost use Rattle.std.specs.Prelude.{◌≡◌, ◌<◌};
    ghost use Rattle.str_syntax.specs.Trees.{Bytes};
    ghost use Rattle.str_desugar.specs.Marks.{mark_of};

    ghost Value = { Bytes };

    ghost view = { λ wanted. wanted.name.now };

    ghost invariant = { λ wanted.
        (wanted.mark ≡ mark_of wanted.hashing wanted.name.now) × (wanted.mark < 512) };
}

impl<'a> Wanted<'a> {
    /// Returns the name, to be looked up in tables that hash with these keys.
    pub(crate) fn new(hashing: HashKeys, name: &'a Name) -> Wanted<'a>
        ensures { result ≡ name.now }
    {
        let mark = mark_of(hashing, name.bytes());
        Wanted {
            name,
            hashing,
            mark,
        }
    }

    /// Returns the name.
    pub(crate) fn name(&self) -> &'a Name
        ensures { result.now ≡ self.now }
    {
        self.name
    }
}

/// The marks of the names of a table under its keys, as bits.
#[derive(Drop)]
pub(crate) struct Marks {
    hashing: HashKeys,
    words: [u64; 8],
}

impl Marks {
    /// Returns no marks.
    pub(crate) fn new(hashing: HashKeys) -> Marks {
        Marks {
            hashing,
            words: [0; 8],
        }
    }

    /// Returns whether the mark of the name is set. A mark under other keys says nothing, so it counts as set.
    #[inline(always)]
    pub(crate) fn has(&self, wanted: &Wanted) -> bool
        ensures { result ≡ false → is_marked self.now wanted.now ≡ false }
    {
        if self.hashing != wanted.hashing {
            return true;
        }
        let word = self.words[wanted.mark / 64];
        (word >> (wanted.mark % 64)) & 1 == 1
    }

    /// Sets the mark of the name.
    pub(crate) fn set(&mut self, name: &[u8])
        ensures added { is_marked self.new name.now ≡ true }
        ensures kept { AreKept self.old self.new }
    {
        let mark = mark_of(self.hashing, name);
        let index = mark / 64;
        self.words[index] |= 1 << (mark % 64);
    }
}
