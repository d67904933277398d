//! Making terms: each shape and each chain is put in where it is new.
ghost use Rattle.std.specs.Prelude.{◌≡◌, ◌<◌, ◌≤◌, [], ◌∷◌, ◌++◌, length, map, slice_index_or, IfOk, MatchOption};
ghost use Rattle.term_model.specs.Term.{term};
ghost use Rattle.term_model.specs.Blocks.{front_list, list_in};
ghost use Rattle.term_store.specs.Store.{head_in, IsAmong, MayHave};
ghost use Rattle.term_store.specs.Chains.{IsBlockIn, IsChainIn};
ghost use Rattle.term_store.specs.Space.{count, term_of, shape_term, Stand, MayStand, IsBlockOver, Keeps, KeepsChains, IsMade, AreHeavy, replaced};

use crate::store::StoreSpace;
use crate::stored::{Extent, Span, StoredHead, StoredShape};
use std::alloc::AllocError;
use term_model::term::{MAX_DEPTH, MAX_WEIGHT};
use term_model::{Block, Front, Made};

/// The most places that there are.
const MAX_PLACES: usize = 4_294_967_295;

/// For more chains than these, room is made at once.
const FEW_LINKS: usize = 1_000;

impl StoreSpace {
    /// The place of the term of this shape.
    pub(crate) fn intern(&mut self, shape: StoredShape) -> Result<Made<u32>, AllocError>
        requires { MayStand self.old shape }
        ensures keeps { Keeps self.old self.new }
        ensures made { IfOk result (IsMade self.new (shape_term self.old shape)) }
    {
        let bare = self.bare_size(&shape);
        let annos = self.span(shape.annos());
        let weight = 1 + (bare.weight + annos.weight);
        let depth = 1 + bare.depth.max(annos.depth);
        if weight > MAX_WEIGHT || depth > MAX_DEPTH {
            self.oversize.set(weight, depth);
            return Ok(Made::Oversize);
        }
        let chains = self.chains.len();
        let symbols = self.symbols.len();
        if self.shapes.len() >= MAX_PLACES
            || chains > u32::MAX as usize
            || symbols > u32::MAX as usize
        {
            return Err(AllocError);
        }
        self.extents.reserve()?;
        let (at, added) = self.shapes.insert(shape)?;
        if !added {
            return Ok(Made::Fits(at as u32));
        }
        self.extents.push_reserved(Extent {
            weight,
            depth,
            chains: chains as u32,
            symbols: symbols as u32,
        });
        Ok(Made::Fits(at as u32))
    }

    /// The chain of a block; `None` where its terms are too heavy together.
    pub(crate) fn link(&mut self, block: Block<u32>) -> Result<Option<u32>, AllocError>
        requires some { 0 < length (front_list block.front) }
        requires block { IsBlockOver self.old block }
        ensures keeps { KeepsChains self.old self.new }
        ensures made { IfOk result
            (λ found. MatchOption found (AreHeavy self.old (list_in self.old.chains block))
            (λ n. IsChainIn self.new.chains n (list_in self.old.chains block))) }
    {
        let size = self.size_in(block);
        if size.weight > MAX_WEIGHT {
            self.oversize.set(1 + size.weight, 1 + size.depth);
            return Ok(None);
        }
        let length = self.len_in(block) as u32;
        self.spans.reserve(1)?;
        let (at, added) = self.chains.link(block)?;
        if !added {
            return Ok(Some(at));
        }
        self.spans.push_reserved(Span {
            weight: size.weight,
            depth: size.depth,
            length,
        });
        Ok(Some(at))
    }

    /// The block with one place more before the others; `None` where the terms of the others are too heavy together.
    fn push_front(
        &mut self,
        place: u32,
        block: Block<u32>,
    ) -> Result<Option<Block<u32>>, AllocError>
        requires place { place < count self.old }
        requires block { IsBlockOver self.old block }
        ensures keeps { KeepsChains self.old self.new }
        ensures made { IfOk result
            (λ found. MatchOption found (AreHeavy self.old (list_in self.old.chains block))
            (λ b. IsBlockIn self.new.chains b (place ∷ list_in self.old.chains block))) }
    {
        let front = match block.front {
            Front::Zero => Front::One(place),
            Front::One(a) => Front::Two(place, a),
            Front::Two(a, b) => Front::Three(place, a, b),
            Front::Three(_, _, _) => {
                let Some(rest) = self.link(block)? else {
                    return Ok(None);
                };
                return Ok(Some(Block {
                    front: Front::One(place),
                    rest,
                }));
            }
        };
        Ok(Some(Block {
            front,
            rest: block.rest,
        }))
    }

    /// The block of these places before those of a block; `None` where their terms are too heavy together.
    pub(crate) fn before(
        &mut self,
        places: &[u32],
        block: Block<u32>,
    ) -> Result<Option<Block<u32>>, AllocError>
        requires stand { Stand self.old places.now }
        requires block { IsBlockOver self.old block }
        ensures keeps { KeepsChains self.old self.new }
        ensures made { IfOk result
            (λ found. MatchOption found
            (AreHeavy self.old (places.now ++ list_in self.old.chains block))
            (λ b. IsBlockIn self.new.chains b (places.now ++ list_in self.old.chains block))) }
    {
        let mut block = block;
        let mut end = places.len();
        while end > 0 {
            let Some(longer) = self.push_front(places[end - 1], block)? else {
                return Ok(None);
            };
            block = longer;
            end -= 1;
        }
        Ok(Some(block))
    }

    /// The block of these places; `None` where their terms are too heavy together.
    #[inline]
    pub(crate) fn block_of(&mut self, places: &[u32]) -> Result<Option<Block<u32>>, AllocError>
        requires stand { Stand self.old places.now }
        ensures keeps { KeepsChains self.old self.new }
        ensures made { IfOk result
            (λ found. MatchOption found (AreHeavy self.old places.now)
            (λ b. IsBlockIn self.new.chains b places.now)) }
    {
        if places.len() > 3 {
            return self.long_block_of(places);
        }
        Ok(Some(Block {
            front: front_of(places),
            rest: 0,
        }))
    }

    /// The block of more places than three; `None` where their terms are too heavy together. The places after the first
    /// ones are linked from the end, three at a time.
    fn long_block_of(&mut self, places: &[u32]) -> Result<Option<Block<u32>>, AllocError>
        requires stand { Stand self.old places.now }
        requires long { 3 < length places.now }
        ensures keeps { KeepsChains self.old self.new }
        ensures made { IfOk result (λ found.
            MatchOption found (AreHeavy self.old places.now)
            (λ b. IsBlockIn self.new.chains b places.now)) }
    {
        let links = places.len() / 3;
        if links > FEW_LINKS {
            self.reserve_chains(links)?;
        }
        let mut rest = 0;
        let mut end = places.len();
        while end > 3 {
            let front = Front::Three(places[end - 3], places[end - 2], places[end - 1]);
            let Some(longer) = self.link(Block { front, rest })? else {
                return Ok(None);
            };
            rest = longer;
            end -= 3;
        }
        Ok(Some(Block {
            front: front_of(&places[..end]),
            rest,
        }))
    }

    /// The block of these places in place of the first ones of a block, of which it has at least as many; `None` where
    /// their terms are too heavy together. Goes along no more of the block than there are places.
    #[inline]
    pub(crate) fn block_with(
        &mut self,
        places: &[u32],
        block: Block<u32>,
    ) -> Result<Option<Block<u32>>, AllocError>
        requires stand { Stand self.old places.now }
        requires block { IsBlockOver self.old block }
        requires count { length places.now ≤ length (list_in self.old.chains block) }
        ensures keeps { KeepsChains self.old self.new }
        ensures made { IfOk result (λ found. MatchOption found
            (AreHeavy self.old (replaced places.now (list_in self.old.chains block)))
            (λ b. IsBlockIn self.new.chains b
            (replaced places.now (list_in self.old.chains block)))) }
    {
        if places.len() == self.len_in(block) {
            return self.block_of(places);
        }
        let others = self.after(block, places.len());
        self.before(places, others)
    }

    /// Makes room for this many further chains at once, since to grow little by little costs more.
    #[inline(never)]
    fn reserve_chains(&mut self, count: usize) -> Result<(), AllocError>
        ensures { KeepsChains self.old self.new }
    {
        self.chains.reserve(count)?;
        self.spans.reserve(count)
    }

    /// The number of the chain of these places; `None` where their terms are too heavy together.
    pub(crate) fn chain_of(&mut self, places: &[u32]) -> Result<Option<u32>, AllocError>
        requires stand { Stand self.old places.now }
        ensures keeps { KeepsChains self.old self.new }
        ensures made { IfOk result
            (λ found. MatchOption found (AreHeavy self.old places.now)
            (λ n. IsChainIn self.new.chains n places.now)) }
    {
        if places.is_empty() {
            return Ok(Some(0));
        }
        let Some(block) = self.block_of(places)? else {
            return Ok(None);
        };
        let found = self.link(block)?;
        Ok(found)
    }

    /// The place of the term of a head and parts, without annotations.
    pub(crate) fn make_plain(
        &mut self,
        head: StoredHead,
        parts: &[u32],
    ) -> Result<Made<u32>, AllocError>
        requires head { IsAmong (length self.old.symbols.keys) head }
        requires bare { MayHave head parts.now }
        requires parts { Stand self.old parts.now }
        ensures keeps { Keeps self.old self.new }
        ensures made { IfOk result (IsMade self.new
            (term (head_in self.old.symbols.keys head) (map (term_of self.old) parts.now) [])) }
    {
        let Some(block) = self.block_of(parts)? else {
            return Ok(Made::Oversize);
        };
        let made = self.intern(StoredShape::new(head, block, 0))?;
        Ok(made)
    }

    /// The place of the term of a head, parts and annotations.
    pub(crate) fn make_over(
        &mut self,
        head: StoredHead,
        parts: &[u32],
        annos: &[u32],
    ) -> Result<Made<u32>, AllocError>
        requires head { IsAmong (length self.old.symbols.keys) head }
        requires bare { MayHave head parts.now }
        requires parts { Stand self.old parts.now }
        requires annos { Stand self.old annos.now }
        ensures keeps { Keeps self.old self.new }
        ensures made { IfOk result
            (IsMade self.new (term (head_in self.old.symbols.keys head)
            (map (term_of self.old) parts.now) (map (term_of self.old) annos.now))) }
    {
        let Some(block) = self.block_of(parts)? else {
            return Ok(Made::Oversize);
        };
        let Some(chain) = self.chain_of(annos)? else {
            return Ok(Made::Oversize);
        };
        let made = self.intern(StoredShape::new(head, block, chain))?;
        Ok(made)
    }
}

/// The front of at most three places.
#[inline]
fn front_of(places: &[u32]) -> Front<u32>
    requires { length places.now ≤ 3 }
    ensures { front_list result ≡ places.now }
{
    match places {
        [] => Front::Zero,
        [a] => Front::One(*a),
        [a, b] => Front::Two(*a, *b),
        [a, b, c, ..] => Front::Three(*a, *b, *c),
    }
}
