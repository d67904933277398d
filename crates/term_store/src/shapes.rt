//! Shapes under their places. The first places are those of the small integers, which are not held: their place says which
//! integer it is. Each other shape is held once, and its place is after those, by its number.
ghost use Rattle.std.specs.Prelude.{◌≡◌, ◌<◌, ◌≤◌, ◌+◌, ◌-◌, ◌/◌, ◌^◌, ◌∷◌, ◌++◌, [], length, slice_index_or, take, if◌then◌else◌, IfOk, OnErr, MatchOption, ⊤};
ghost use Rattle.term_store.specs.declared.stored.StoredShape.TheVariants as forms;
ghost use Rattle.term_store.specs.Places.{integers, integer_at, HasInteger, IsLarge, IsLargeShape, IsPlaced, small_count};
ghost use Rattle.term_store.specs.Store.{AreDistinct};

use crate::stored::StoredShape;
use indexmap::IndexSet;
use keyed_hash::HashKeys;
use std::alloc::{AllocError, Global};
use std::marker::Model;

/// How many small integers there are, of which half are negative.
pub(crate) fn small_integers() -> u32
    ensures { result ≡ small_count }
{
    2_147_483_648
}

/// Shapes under their places.
#[derive(Drop)]
pub(crate) struct Shapes {
    /// How many of the small integers are negative, and how many there are.
    negative: u32,
    small: u32,
    held: IndexSet<StoredShape, HashKeys>,
}

impl Model for Shapes {
    ghost use Rattle.std.specs.Prelude.{◌++◌};
    ghost use Rattle.term_store.specs.Places.{integers, PlacedShapes, AreLarge};

    ghost Value = { PlacedShapes };

    ghost view = { λ s. record {
      small = s.small;
      keys =
          integers s.negative s.small ++ s.held.keys;
    } };

    ghost invariant = { λ s. AreLarge s.negative s.small s.held.keys };
}

impl Shapes {
    /// The shapes of this many small integers, of which half are negative.
    pub(crate) fn new(alloc: Global, keys: HashKeys, small: u32) -> Shapes
        ensures small { result.small ≡ small }
        ensures keys { result.keys ≡ integers (small / 2) small }
    {
        Shapes {
            negative: small / 2,
            small,
            held: IndexSet::with_hasher(alloc, keys),
        }
    }

    /// How many places there are.
    #[inline]
    #[tactic(auto, using(crate::proofs::PlaceLaws::places))]
    pub(crate) fn len(&self) -> usize
        ensures len { result ≡ length self.now.keys }
        ensures distinct { AreDistinct self.now.keys }
        ensures small { self.now.small ≤ result }
    {
        self.small as usize + self.held.len()
    }

    /// How many shapes are held.
    #[inline]
    #[tactic(auto, using(crate::proofs::PlaceLaws::places))]
    pub(crate) fn held(&self) -> usize
        ensures held { result ≡ length self.now.keys - self.now.small }
        ensures small { self.now.small ≤ length self.now.keys }
        ensures few { result < 2 ^ 63 }
    {
        self.held.len()
    }

    /// The shape at a place.
    #[inline]
    #[tactic(auto, using(crate::proofs::PlaceLaws::places))]
    pub(crate) fn get(&self, at: u32) -> StoredShape
        requires { at < length self.now.keys }
        ensures { IsPlaced self.now at result }
    {
        if at < self.small {
            return StoredShape::Int {
                annos: 0,
                value: integer_of(at, self.negative),
            };
        }
        *self.held.get_index((at - self.small) as usize).unwrap()
    }

    /// The shape at a place, lent; `None` at the place of a small integer.
    #[inline]
    #[tactic(auto, using(crate::proofs::PlaceLaws::places))]
    pub(crate) fn held_at(&self, at: u32) -> Option<&StoredShape>
        requires { at < length self.now.keys }
        ensures { MatchOption result (HasInteger self.now at) (λ s. IsPlaced self.now at s.now) }
    {
        if at < self.small {
            return None;
        }
        Some(self.held.get_index((at - self.small) as usize).unwrap())
    }

    /// The integer of a place, if it is that of a small integer.
    #[inline]
    #[tactic(auto, using(crate::proofs::PlaceLaws::places))]
    pub(crate) fn integer(&self, at: u32) -> Option<i64>
        ensures { MatchOption result (self.now.small ≤ at)
            (λ z. IsPlaced self.now at (forms.Int 0 z)) }
    {
        if at < self.small {
            return Some(integer_of(at, self.negative));
        }
        None
    }

    /// The number of the shape that is held at a place.
    pub(crate) fn number_of(&self, at: u32) -> usize
        requires { self.now.small ≤ at }
        ensures { at ≡ self.now.small + result }
    {
        (at - self.small) as usize
    }

    /// The place of a small integer; `None` for others.
    #[inline]
    #[tactic(auto, using(crate::proofs::PlaceLaws::places))]
    pub(crate) fn place_of(&self, value: i64) -> Option<u32>
        ensures within { MatchOption result ⊤ (λ p. p < length self.now.keys) }
        ensures placed { MatchOption result ⊤ (λ p. IsPlaced self.now p (forms.Int 0 value)) }
    {
        small_place(value, self.negative, self.small)
    }

    /// The place of a shape, and whether it is new.
    #[inline]
    #[tactic(auto, using(crate::proofs::PlaceLaws::places))]
    pub(crate) fn insert(&mut self, shape: StoredShape) -> Result<(usize, bool), AllocError>
        ensures within { IfOk result (λ r. r.0 < length self.new.keys) }
        ensures placed { IfOk result (λ r. IsPlaced self.new r.0 shape) }
        ensures keys { IfOk result (λ r. self.new.keys ≡
            (if r.1 then self.old.keys ++ shape ∷ [] else self.old.keys)) }
        ensures small { self.new.small ≡ self.old.small }
        ensures err { OnErr result (self.new.keys ≡ self.old.keys) }
    {
        if let Some(place) = small_place_of(&shape, self.negative, self.small) {
            return Ok((place as usize, false));
        }
        let small = self.small as usize;
        let _ = self.held.len();
        let (number, added) = self.held.insert_full(shape)?;
        Ok((small + number, added))
    }

    /// Keeps the first places, of which all small integers are.
    #[tactic(auto, using(crate::proofs::PlaceLaws::places))]
    pub(crate) fn truncate(&mut self, count: usize)
        requires { self.old.small ≤ count }
        ensures keys { self.new.keys ≡ take count self.old.keys }
        ensures small { self.new.small ≡ self.old.small }
    {
        self.held.truncate(count - self.small as usize);
    }
}

/// The small integer of a place.
#[inline]
fn integer_of(at: u32, negative: u32) -> i64
    ensures { result ≡ integer_at negative at }
{
    at as i64 - negative as i64
}

/// The place of a shape, if it is that of a small integer.
#[inline]
fn small_place_of(shape: &StoredShape, negative: u32, small: u32) -> Option<u32>
    ensures within { MatchOption result ⊤ (λ p. p < small) }
    ensures placed { MatchOption result (IsLargeShape negative small shape.now)
        (λ p. shape.now ≡ forms.Int 0 (integer_at negative p)) }
{
    match *shape {
        StoredShape::Int { annos: 0, value } => small_place(value, negative, small),
        _ => None,
    }
}

/// The place of an integer, if it is one of the small ones.
#[inline]
fn small_place(value: i64, negative: u32, small: u32) -> Option<u32>
    ensures within { MatchOption result ⊤ (λ p. p < small) }
    ensures placed { MatchOption result (IsLarge negative small value)
        (λ p. value ≡ integer_at negative p) }
{
    let above_least = value.checked_add(negative as i64)?;
    match u32::try_from(above_least) {
        Ok(place) if place < small => Some(place),
        _ => None,
    }
}
