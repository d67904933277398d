//! Lists of places, shared from their ends.
//!
//! A chain is a list under a number: the empty list has the number 0, and each other one is a block, which is at most three places before
//! a chain of a lesser number.
ghost use Rattle.std.specs.Prelude.{◌≡◌, ◌<◌, ◌≤◌, ◌+◌, ◌*◌, ◌^◌, ◌++◌, ◌∷◌, [], length, take, slice_index_or, if◌then◌else◌, IfOk, OnErr};
ghost use Rattle.term_model.specs.Blocks.{front_list, list_in, lists_of, AreLinked};
ghost use Rattle.term_store.specs.Chains.{AreApart, IsWhole, IsBlockOf};

use indexmap::IndexSet;
use keyed_hash::HashKeys;
use std::alloc::{AllocError, Global};
use std::marker::Model;
use term_model::{Block, Front};

/// The most chains that there are, besides the empty one.
const MAX_CHAINS: usize = 4_294_967_295;

/// Chains under their numbers. Contracts see the lists in order.
#[derive(Drop)]
pub(crate) struct Chains {
    blocks: IndexSet<Block<u32>, HashKeys>,
}

impl Model for Chains {
    ghost use Rattle.std.specs.Prelude.{ℕ, List};
    ghost use Rattle.term_model.specs.Blocks.{lists_of};
    ghost use Rattle.term_store.specs.Chains.{AreBlocks};

    ghost Value = { List (List ℕ) };

    ghost view = { λ c. lists_of c.blocks.keys };

    ghost invariant = { λ c. AreBlocks c.blocks.keys };
}

impl Chains {
    /// No chain but the empty one.
    pub(crate) fn new(alloc: Global, keys: HashKeys) -> Chains
        ensures { result ≡ [] ∷ [] }
    {
        Chains {
            blocks: IndexSet::with_hasher(alloc, keys),
        }
    }

    /// How many chains there are besides the empty one.
    #[tactic(auto, using(crate::proofs::ChainLemmas::chains))]
    pub(crate) fn len(&self) -> usize
        ensures len { result + 1 ≡ length self.now }
        ensures small { result < 2 ^ 63 }
        ensures apart { AreApart self.now }
    {
        self.blocks.len()
    }

    /// The blocks of the chains, of which the first has the number 1.
    #[tactic(auto, using(crate::proofs::ChainLemmas::chains))]
    pub(crate) fn blocks(&self) -> &[Block<u32>]
        ensures lists { lists_of result.now ≡ self.now }
        ensures linked { AreLinked result.now }
    {
        self.blocks.as_slice()
    }

    /// The block of a chain.
    #[tactic(auto, using(crate::proofs::ChainLemmas::chains))]
    pub(crate) fn block(&self, chain: u32) -> Block<u32>
        requires { chain < length self.now }
        ensures { IsBlockOf self.now chain result }
    {
        let blocks = &self.blocks;
        if chain == 0 {
            return Block {
                front: Front::Zero,
                rest: 0,
            };
        }
        *blocks.get_index(chain as usize - 1).unwrap()
    }

    /// The number of the chain of a block, and whether it is new.
    #[tactic(auto, using(crate::proofs::ChainLemmas::chains))]
    pub(crate) fn link(&mut self, block: Block<u32>) -> Result<(u32, bool), AllocError>
        requires rest { block.rest < length self.old }
        requires some { 0 < length (front_list block.front) }
        requires whole { IsWhole (slice_index_or self.old block.rest []) }
        ensures made { IfOk result (λ r. slice_index_or self.new r.0 [] ≡ list_in self.old block) }
        ensures within { IfOk result (λ r. r.0 < length self.new) }
        ensures chains { IfOk result (λ r. self.new ≡
            (if r.1 then self.old ++ list_in self.old block ∷ [] else self.old)) }
        ensures err { OnErr result (self.new ≡ self.old) }
    {
        if self.blocks.len() >= MAX_CHAINS {
            return Err(AllocError);
        }
        let (at, added) = self.blocks.insert_full(block)?;
        Ok(((at + 1) as u32, added))
    }

    /// Makes room for this many further chains.
    pub(crate) fn reserve(&mut self, count: usize) -> Result<(), AllocError>
        ensures { self.new ≡ self.old }
    {
        self.blocks.reserve(count)
    }

    /// Keeps the first chains, besides the empty one.
    #[tactic(auto, using(crate::proofs::ChainLemmas::chains))]
    pub(crate) fn truncate(&mut self, count: u32)
        requires { count < length self.old }
        ensures { self.new ≡ take (count + 1) self.old }
    {
        self.blocks.truncate(count as usize);
    }
}
