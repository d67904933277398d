//! How heavy and deep the terms of all places are, and how many chains and symbols there were when their shapes came.
//!
//! The numbers of chains and symbols are the same for many shapes in a row, so that they are kept for the first of these alone.
ghost use Rattle.std.specs.Prelude.{◌≡◌, ◌<◌, ◌≤◌, ◌++◌, ◌∷◌, [], length, take, slice_index_or, vec_len, vec_capacity, IfOk, IsTrue};
ghost use Rattle.term_store.specs.Extents.{small_extents, epoch_at, no_epoch, AreSameBelow, HasCounts};

use crate::sizes::Size;
use crate::stored::Extent;
use std::alloc::{AllocError, Global};
use std::marker::Model;

/// From the shape with this number on, there were this many chains and symbols when a shape came.
#[derive(Clone, Copy)]
pub(crate) struct Epoch {
    pub(crate) first: u32,
    pub(crate) chains: u32,
    pub(crate) symbols: u32,
}

/// The extents of all places. The first places are those of small integers, which take no memory; the others are those of shapes, numbered
/// from 0 on.
#[derive(Drop)]
pub(crate) struct Extents {
    small: u32,
    sizes: Vec<Size>,
    epochs: Vec<Epoch>,
}

impl Model for Extents {
    ghost use Rattle.std.specs.Prelude.{min, ◌-◌, ◌++◌, vec_len, vec_capacity};
    ghost use Rattle.term_store.specs.Extents.{PlacedExtents, small_extents, held_extents};

    ghost Value = { PlacedExtents };

    ghost view = { λ e. record {
      items = small_extents e.small ++ held_extents e.epochs.items 0 e.sizes.items;
      room = min (vec_capacity e.sizes - vec_len e.sizes)
          (vec_capacity e.epochs - vec_len e.epochs);
      small = e.small;
    } };
}

impl Extents {
    /// The extents of the small integers alone.
    pub(crate) fn new(alloc: Global, small: u32) -> Extents
        ensures items { result.items ≡ small_extents small }
        ensures small { result.small ≡ small }
    {
        Extents {
            small,
            sizes: Vec::new(alloc),
            epochs: Vec::new(alloc),
        }
    }

    /// How heavy and deep the term at a place is.
    #[tactic(auto, using(crate::proofs::ExtentLaws::extents))]
    #[inline]
    pub(crate) fn size(&self, at: u32) -> Size
        requires { at < length self.now.items }
        ensures weight { (d : _) → result.weight ≡ (slice_index_or self.now.items at d).weight }
        ensures depth { (d : _) → result.depth ≡ (slice_index_or self.now.items at d).depth }
    {
        if at < self.small {
            return Size {
                weight: 1,
                depth: 1,
            };
        }
        self.sizes[(at - self.small) as usize]
    }

    /// The extent of a place.
    #[tactic(auto, using(crate::proofs::ExtentLaws::extents))]
    pub(crate) fn get(&self, at: usize) -> Extent
        requires { at < length self.now.items }
        ensures { (d : _) → result ≡ slice_index_or self.now.items at d }
    {
        let small = self.small as usize;
        if at < small {
            return Extent {
                weight: 1,
                depth: 1,
                chains: 0,
                symbols: 0,
            };
        }
        let size = self.sizes[at - small];
        let epoch = epoch_of(self.epochs.as_slice(), at - small);
        Extent {
            weight: size.weight,
            depth: size.depth,
            chains: epoch.chains,
            symbols: epoch.symbols,
        }
    }

    /// Makes room for one extent more.
    #[inline]
    pub(crate) fn reserve(&mut self) -> Result<(), AllocError>
        ensures items { self.new.items ≡ self.old.items }
        ensures small { self.new.small ≡ self.old.small }
        ensures room { IfOk result (λ _. 0 < self.new.room) }
    {
        self.sizes.reserve(1)?;
        self.epochs.reserve(1)
    }

    /// Adds the extent of one shape more.
    #[tactic(auto, using(crate::proofs::ExtentLaws::extents))]
    #[inline]
    pub(crate) fn push_reserved(&mut self, extent: Extent)
        requires room { 0 < self.old.room }
        requires few { length self.old.items < 4_294_967_295 }
        ensures items { self.new.items ≡ self.old.items ++ extent ∷ [] }
        ensures small { self.new.small ≡ self.old.small }
    {
        let number = self.sizes.len() as u32;
        put_counts(&mut self.epochs, number, extent);
        self.sizes.push_reserved(Size {
            weight: extent.weight,
            depth: extent.depth,
        });
    }

    /// Keeps the extents of the first places, those of the small integers among them.
    #[tactic(auto, using(crate::proofs::ExtentLaws::extents))]
    pub(crate) fn truncate(&mut self, count: usize)
        requires { self.old.small ≤ count }
        ensures items { self.new.items ≡ take count self.old.items }
        ensures small { self.new.small ≡ self.old.small }
    {
        let number = count - self.small as usize;
        self.sizes.truncate(number);
        cut(&mut self.epochs, number);
    }
}

/// The epoch of the shape with a number: the last that begins at it or before it.
#[tactic(auto, using(crate::proofs::ExtentLaws::extents))]
fn epoch_of(epochs: &[Epoch], number: usize) -> Epoch
    ensures { result ≡ epoch_at no_epoch epochs.now number }
{
    let mut count = epochs.len();
    while count > 0 {
        let epoch = epochs[count - 1];
        if epoch.first as usize <= number {
            return epoch;
        }
        count -= 1;
    }
    Epoch {
        first: 0,
        chains: 0,
        symbols: 0,
    }
}

/// Adds an epoch from a number on, unless the last one goes on: that which has the counts of an extent and begins before.
#[tactic(auto, using(crate::proofs::ExtentLaws::extents))]
#[inline]
fn put_counts(epochs: &mut Vec<Epoch>, number: u32, extent: Extent)
    requires { vec_len epochs.old < vec_capacity epochs.old }
    ensures same { AreSameBelow number epochs.old.items epochs.new.items }
    ensures counts { HasCounts (epoch_at no_epoch epochs.new.items number) extent }
{
    if has_counts(epochs.as_slice(), number, extent) {
        return;
    }
    epochs.push_reserved(Epoch {
        first: number,
        chains: extent.chains,
        symbols: extent.symbols,
    });
}

/// Whether the last epoch, or the absence of one, has the counts of an extent and begins at a number or before it.
#[tactic(auto, using(crate::proofs::ExtentLaws::extents))]
#[inline]
fn has_counts(epochs: &[Epoch], number: u32, extent: Extent) -> bool
    ensures { IsTrue result → HasCounts (epoch_at no_epoch epochs.now number) extent }
{
    let [.., last] = epochs else {
        return extent.chains == 0 && extent.symbols == 0;
    };
    if last.first > number {
        return false;
    }
    last.chains == extent.chains && last.symbols == extent.symbols
}

/// Drops the last epochs that do not begin before a number.
#[tactic(auto, using(crate::proofs::ExtentLaws::extents))]
fn cut(epochs: &mut Vec<Epoch>, number: usize)
    ensures { AreSameBelow number epochs.old.items epochs.new.items }
{
    while epochs.len() > 0 {
        if (epochs[epochs.len() - 1].first as usize) < number {
            return;
        }
        let _epoch = epochs.pop();
    }
}
