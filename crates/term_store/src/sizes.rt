//! What is held at a place, and how heavy and deep it is.
ghost use Rattle.std.specs.Prelude.{◌≡◌, ◌<◌, ◌+◌, [], length, map, min, MatchOption};
ghost use Rattle.term_model.specs.Limits.{max_weight};
ghost use Rattle.term_model.specs.Term.{head_weight};
ghost use Rattle.term_model.specs.Blocks.{list_in};
ghost use Rattle.term_store.specs.Store.{head_in, IsAmong, IsSizeOf, IsSum, IsTotal};
ghost use Rattle.term_store.specs.Space.{count, term_of, chain_at, MayStand, IsBlockOver, IsShapeAt};
ghost use Rattle.term_store.specs.Places.{HasInteger};
ghost use Rattle.term_store.specs.Sizes.{IsBareOf};

use crate::store::StoreSpace;
use crate::stored::{Span, StoredHead, StoredShape};
use term_model::term::MAX_WEIGHT;
use term_model::{Block, Front};

/// How heavy and how deep several terms are together.
#[derive(Clone, Copy)]
pub(crate) struct Size {
    pub(crate) weight: u32,
    pub(crate) depth: u32,
}

impl StoreSpace {
    /// The shape at a place.
    #[inline]
    pub(crate) fn shape_at(&self, at: u32) -> StoredShape
        requires { at < count self.now }
        ensures { IsShapeAt self.now at result }
    {
        self.shapes.get(at)
    }

    /// The shape at a place, lent, if it is held there.
    #[inline]
    pub(crate) fn held_shape(&self, at: u32) -> Option<&StoredShape>
        requires { at < count self.now }
        ensures { MatchOption result (HasInteger self.now.shapes at)
            (λ s. IsShapeAt self.now at s.now) }
    {
        match self.shapes.held_at(at) {
            Some(shape) => Some(shape),
            None => None,
        }
    }

    /// How heavy and deep the term at a place is.
    #[inline]
    pub(crate) fn extent(&self, at: u32) -> Size
        requires { at < count self.now }
        ensures { IsSizeOf (term_of self.now at) result.weight result.depth }
    {
        self.extents.size(at)
    }

    /// How heavy, deep and many the terms of a chain are.
    #[inline]
    pub(crate) fn span(&self, chain: u32) -> Span
        requires { chain < length self.now.chains }
        ensures { IsSum (map (term_of self.now) (chain_at self.now chain)) result }
    {
        let spans = self.spans.as_slice();
        if chain == 0 {
            return Span {
                weight: 0,
                depth: 0,
                length: 0,
            };
        }
        spans[chain as usize - 1]
    }

    /// How heavy and deep the terms of a block are together.
    #[inline]
    pub(crate) fn size_in(&self, block: Block<u32>) -> Size
        requires { IsBlockOver self.now block }
        ensures { IsTotal (map (term_of self.now) (list_in self.now.chains block))
            result.weight result.depth }
    {
        let span = self.span(block.rest);
        match block.front {
            Front::Zero => Size {
                weight: span.weight,
                depth: span.depth,
            },
            Front::One(a) => {
                let a = self.extent(a);
                Size {
                    weight: a.weight + span.weight,
                    depth: a.depth.max(span.depth),
                }
            }
            Front::Two(a, b) => {
                let a = self.extent(a);
                let b = self.extent(b);
                Size {
                    weight: a.weight + (b.weight + span.weight),
                    depth: a.depth.max(b.depth.max(span.depth)),
                }
            }
            Front::Three(a, b, c) => {
                let a = self.extent(a);
                let b = self.extent(b);
                let c = self.extent(c);
                Size {
                    weight: a.weight + (b.weight + (c.weight + span.weight)),
                    depth: a.depth.max(b.depth.max(c.depth.max(span.depth))),
                }
            }
        }
    }

    /// How heavy and deep the head and the parts of a shape are together.
    #[inline]
    pub(crate) fn bare_size(&self, shape: &StoredShape) -> Size
        requires { MayStand self.now shape.now }
        ensures { IsBareOf self.now shape.now result }
    {
        match *shape {
            StoredShape::Int { .. } => Size {
                weight: 0,
                depth: 0,
            },
            StoredShape::Applied { parts, number, .. } => {
                let size = self.size_in(parts);
                let symbol = self.symbol_weight(StoredHead::Symbol(number));
                Size {
                    weight: symbol + size.weight,
                    depth: size.depth,
                }
            }
            StoredShape::List { parts, .. } => self.size_in(parts),
        }
    }

    /// How many bytes the symbol of a head has, or a number that is too heavy.
    #[inline]
    pub(crate) fn symbol_weight(&self, head: StoredHead) -> u32
        requires { IsAmong (length self.now.symbols.keys) head }
        ensures { result ≡ min (head_weight (head_in self.now.symbols.keys head)) (MAX_WEIGHT + 1) }
    {
        match head {
            StoredHead::Int(_) | StoredHead::List => 0,
            StoredHead::Symbol(number) => {
                let symbol = self.symbols.get_index(number as usize).unwrap();
                symbol.bytes().len().min(MAX_WEIGHT as usize + 1) as u32
            }
        }
    }
}
