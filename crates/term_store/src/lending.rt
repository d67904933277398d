//! What the store lends: heads, and the places of blocks and chains.
ghost use Rattle.std.specs.Prelude.{◌≡◌, ◌↔◌, ◌<◌, ℕ, length, map, IsTrue, Some};
ghost use Rattle.term_model.specs.Blocks.{list_in, IsAt};
ghost use Rattle.term_model.specs.Space.{IsTop};
ghost use Rattle.term_model.specs.declared.term.Head.TheVariants as heads;
ghost use Rattle.term_store.specs.Chains.{AreApart};
ghost use Rattle.term_store.specs.Shapes.{shape_parts};
ghost use Rattle.term_store.specs.Store.{head_in, IsAmong, AreDistinct};
ghost use Rattle.term_store.specs.Space.{count, term_of, symbol_at, chain_at, Stand, IsBlockOver};

use crate::store::StoreSpace;
use crate::stored::{StoredHead, StoredShape};
use term_model::{Block, Parts, Top};

impl StoreSpace {
    /// A head, lent.
    pub(crate) fn top(&self, head: StoredHead) -> Top<'_>
        requires { IsAmong (length self.now.symbols.keys) head }
        ensures { IsTop result (head_in self.now.symbols.keys head) }
    {
        match head {
            StoredHead::Int(value) => Top::Int(value),
            StoredHead::Symbol(number) => {
                Top::App(self.symbols.get_index(number as usize).unwrap())
            }
            StoredHead::List => Top::List,
        }
    }

    /// The places of the parts of a shape, lent.
    pub(crate) fn places<'a>(&'a self, shape: &'a StoredShape) -> Parts<'a, u32>
        ensures { result ≡ list_in self.now.chains (shape_parts shape.now) }
    {
        match shape {
            StoredShape::Int { .. } => Parts::of_slice(&[]),
            StoredShape::Applied { parts, .. } | StoredShape::List { parts, .. } => {
                Parts::of_block(parts, self.chains.blocks())
            }
        }
    }

    /// The place of a part of a shape, lent. Most parts are among the first three of a block.
    pub(crate) fn place_in<'a>(&'a self, shape: &'a StoredShape, index: usize) -> Option<&'a u32>
        ensures { IsAt result (list_in self.now.chains (shape_parts shape.now)) index }
    {
        let block = match shape {
            StoredShape::Int { .. } => return None,
            StoredShape::Applied { parts, .. } | StoredShape::List { parts, .. } => parts,
        };
        if let Some(place) = block.front.get(index) {
            return Some(place);
        }
        Parts::of_block(block, self.chains.blocks()).get(index)
    }

    /// The places of a chain, lent.
    #[tactic(auto, using(crate::proofs::LendingLaws::chains))]
    pub(crate) fn chain_places(&self, chain: u32) -> Parts<'_, u32>
        requires { chain < length self.now.chains }
        ensures { result ≡ chain_at self.now chain }
    {
        let blocks = self.chains.blocks();
        if chain == 0 {
            return Parts::of_slice(&[]);
        }
        Parts::of_block(&blocks[chain as usize - 1], blocks)
    }

    /// Nothing is held twice: a fact for proofs, at no cost.
    #[inline]
    fn distinct(&self)
        ensures symbols { AreDistinct self.now.symbols.keys }
        ensures chains { AreApart self.now.chains }
        ensures shapes { AreDistinct self.now.shapes.keys }
    {
        let _ = self.symbols.len();
        let _ = self.chains.len();
        let _ = self.shapes.len();
    }

    /// Whether a head is the symbol of a number.
    pub(crate) fn is_symbol(&self, head: StoredHead, number: u32) -> bool
        requires head { IsAmong (length self.now.symbols.keys) head }
        requires number { number < length self.now.symbols.keys }
        ensures { IsTrue result ↔ (head_in self.now.symbols.keys head ≡
            heads.App (symbol_at self.now number)) }
    {
        self.distinct();
        head == StoredHead::Symbol(number)
    }

    /// The number of the symbol of a head, if it has one.
    pub(crate) fn symbol_number(&self, head: StoredHead) -> Option<usize>
        requires { IsAmong (length self.now.symbols.keys) head }
        ensures { (n : ℕ) → n < length self.now.symbols.keys →
            head_in self.now.symbols.keys head ≡ heads.App (symbol_at self.now n) →
            result ≡ Some n }
    {
        self.distinct();
        match head {
            StoredHead::Symbol(number) => Some(number as usize),
            StoredHead::Int(_) | StoredHead::List => None,
        }
    }

    /// Whether two places have the same term, which is where they are the same number. Takes no memory.
    pub fn is_same(&self, one: u32, other: u32) -> bool
        requires one { one < count self.now }
        requires other { other < count self.now }
        ensures number { IsTrue result ↔ (one ≡ other) }
        ensures term { IsTrue result ↔ (term_of self.now one ≡ term_of self.now other) }
    {
        self.distinct();
        one == other
    }

    /// Whether the terms of a block are those of these places.
    pub(crate) fn are_same(&self, block: Block<u32>, places: &[u32]) -> bool
        requires block { IsBlockOver self.now block }
        requires stand { Stand self.now places.now }
        ensures { IsTrue result ↔ (map (term_of self.now) (list_in self.now.chains block) ≡
            map (term_of self.now) places.now) }
    {
        self.distinct();
        self.is_of(block, places)
    }
}
