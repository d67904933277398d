//! The places of variables, and the trail of those that a failure empties again.
ghost use Rattle.std.specs.Prelude.{◌≡◌, ◌<◌, ◌-◌, List, Option, drop, nat_lt, if◌then◌else◌, Some, None, MatchOption, OnOk, OnErr, [], ◌∷◌, ◌++◌, length, map, replicate, reverse, take, slice_get};
ghost use Rattle.strat_steps.specs.Binding.{cleared, undone, above, down_to, trimmed, with_term};
ghost use Rattle.strat_patterns.specs.PlaceStack.{PlaceStack};

use crate::memory::{narrow, push_on, release_spare, reserve_on};
use std::alloc::{AllocError, Global};
use std::marker::Model;

/// The places, each with a reference or with nothing; the trail, of which the last entry is the newest; and the barrier. A place below the
/// barrier is put on the trail when it is given a reference.
#[derive(Drop)]
pub struct Places<R: Drop> {
    slots: Vec<Option<R>>,
    trail: Vec<u32>,
    barrier: usize,
}

impl<R: Drop> Model for Places<R> {
    ghost use Rattle.std.specs.Prelude.{reverse};
    ghost use Rattle.strat_patterns.specs.PlaceStack.{PlaceStack};

    ghost Value = { PlaceStack R };

    ghost view = { λ a. record {
      slots = a.slots.items;
      trail = reverse a.trail.items;
      barrier =
          a.barrier;
    } };
}

impl<R: Drop> Places<R> {
    /// Returns no places, with an empty trail; this takes no memory.
    pub fn new(alloc: Global) -> Places<R>
        ensures { result ≡ record { slots = []; trail = []; barrier = 0 } }
    {
        Places {
            slots: Vec::new(alloc),
            trail: Vec::new(alloc),
            barrier: 0,
        }
    }

    /// Removes all places and all entries of the trail, and sets the barrier to 0; the memory is kept.
    pub fn clear(&mut self)
        ensures { self.new ≡ record { slots = []; trail = []; barrier = 0 } }
    {
        self.slots.clear();
        self.trail.clear();
        self.barrier = 0;
    }

    /// Gives back memory that fewer places and entries of the trail than before have no use for.
    pub fn release_spare(&mut self)
        ensures { self.new ≡ self.old }
    {
        release_spare(&mut self.slots);
        release_spare(&mut self.trail);
    }

    /// Returns the number of places.
    pub fn len(&self) -> usize
        ensures { result ≡ length self.now.slots }
    {
        self.slots.len()
    }

    /// Returns the number of entries of the trail.
    pub fn height(&self) -> usize
        ensures { result ≡ length self.now.trail }
    {
        self.trail.len()
    }

    /// Returns the barrier.
    pub fn barrier(&self) -> usize
        ensures { result ≡ self.now.barrier }
    {
        self.barrier
    }

    /// Returns what each place has.
    pub fn slots(&self) -> &[Option<R>]
        ensures { result.now ≡ self.now.slots }
    {
        self.slots.as_slice()
    }

    /// Returns what a place has, or `None` if there is no such place.
    pub(crate) fn slot(&self, place: usize) -> Option<Option<&R>>
        ensures { MatchOption result (slice_get self.now.slots place ≡ None)
            (λ v. MatchOption v (slice_get self.now.slots place ≡ Some None)
            (λ r. slice_get self.now.slots place ≡ Some (Some r.now))) }
    {
        match self.slots.get(place) {
            None => None,
            Some(None) => Some(None),
            Some(Some(reference)) => Some(Some(reference)),
        }
    }

    /// Adds `count` empty places.
    ///
    /// # Errors
    ///
    /// Returns an error if there is no memory. Some of the places may then have been added.
    pub fn extend(&mut self, count: usize) -> Result<(), AllocError>
        ensures { OnOk result (self.new ≡
            record self.old { slots = self.old.slots ++ replicate count None }) }
    {
        push_empty(&mut self.slots, count)?;
        Ok(())
    }

    /// Removes all places except the first `count`; the trail and the barrier stay as they are.
    pub fn cut(&mut self, count: usize)
        ensures { self.new ≡ record self.old { slots = take count self.old.slots } }
    {
        self.slots.truncate(count);
    }

    /// Adds a place with a reference.
    ///
    /// # Errors
    ///
    /// Returns an error if there is no memory for one more place. The places then stay as they were.
    pub fn push_term(&mut self, reference: R) -> Result<(), AllocError>
        ensures pushed { OnOk result (self.new ≡
            record self.old { slots = self.old.slots ++ Some reference ∷ [] }) }
        ensures err { OnErr result (self.new ≡ self.old) }
    {
        push_on(&mut self.slots, Some(reference))?;
        Ok(())
    }

    /// Adds places with the references of the vector from position `from` on, which are moved out of it.
    ///
    /// # Errors
    ///
    /// Returns an error if there is no memory. Some of the places may then have been added, without references.
    pub fn push_terms(&mut self, terms: &mut Vec<R>, from: usize) -> Result<(), AllocError>
        ensures places { OnOk result (self.new ≡
            record self.old {
              slots = self.old.slots ++
                  map (λ r. Some r) (drop from terms.old.items);
            }) }
        ensures terms { OnOk result (terms.new.items ≡ take from terms.old.items) }
    {
        if terms.len() <= from {
            return Ok(());
        }
        self.move_terms(terms, from)
    }

    /// Adds places with the references from a position on.
    fn move_terms(&mut self, terms: &mut Vec<R>, from: usize) -> Result<(), AllocError>
        ensures places { OnOk result (self.new ≡
            record self.old {
              slots = self.old.slots ++
                  map (λ r. Some r) (drop from terms.old.items);
            }) }
        ensures terms { OnOk result (terms.new.items ≡ take from terms.old.items) }
    {
        let count = terms.len().saturating_sub(from);
        push_empty(&mut self.slots, count)?;
        fill_last(&mut self.slots, terms, from);
        Ok(())
    }

    /// Gives a place a reference, and puts the place on the trail if it is below the barrier. After an error it may be missing there.
    #[inline]
    pub(crate) fn give(&mut self, place: usize, reference: R) -> Result<(), AllocError>
        ensures { OnOk result (self.new ≡
            record self.old {
              slots = with_term place reference self.old.slots;
              trail = (if nat_lt place self.old.barrier
                  then place ∷ self.old.trail else self.old.trail);
            }) }
    {
        fill(&mut self.slots, place, reference);
        if place < self.barrier {
            push_on(&mut self.trail, narrow(place)?)?;
        }
        Ok(())
    }

    /// Sets the barrier to the number of places.
    pub fn guard(&mut self)
        ensures { self.new ≡ record self.old { barrier = length self.old.slots } }
    {
        self.barrier = self.slots.len();
    }

    /// Empties the places that were put on the trail above a height, takes these entries off the trail, removes the places from the barrier
    /// on, and sets the barrier.
    pub fn go_back(&mut self, height: usize, barrier: usize)
        ensures { self.new ≡ record {
          slots = take self.old.barrier
              (undone (above height self.old.trail) self.old.slots);
          trail = down_to height
              self.old.trail;
          barrier = barrier;
        } }
    {
        undo(&mut self.slots, &mut self.trail, height);
        self.slots.truncate(self.barrier);
        self.barrier = barrier;
    }

    /// Sets the barrier, and drops the newest entries of the trail above a height, down to the first that is below the barrier.
    pub fn trim(&mut self, height: usize, barrier: usize)
        ensures { self.new ≡ record self.old
            { trail = trimmed height barrier self.old.trail; barrier = barrier } }
    {
        trim_trail(&mut self.trail, height, barrier);
        self.barrier = barrier;
    }
}

/// Adds `count` empty places.
fn push_empty<R: Drop>(slots: &mut Vec<Option<R>>, count: usize) -> Result<(), AllocError>
    ensures { OnOk result (slots.new.items ≡ slots.old.items ++ replicate count None) }
{
    reserve_on(slots, count)?;
    for _i in 0..count {
        slots.push_reserved(None);
    }
    Ok(())
}

/// Gives a place a reference, if there is such a place.
#[tactic(auto, using(crate::proofs::PlaceLaws::placing))]
fn fill<R: Drop>(slots: &mut Vec<Option<R>>, place: usize, reference: R)
    ensures { slots.new.items ≡ with_term place reference slots.old.items }
{
    if place < slots.len() {
        slots[place] = Some(reference);
    }
}

/// Gives the last places, which have nothing, the references from a position on.
fn fill_last<R: Drop>(slots: &mut Vec<Option<R>>, terms: &mut Vec<R>, from: usize)
    ensures slots { (e : List (Option R)) → slots.old.items ≡ e ++
        replicate (length terms.old.items - from) None → slots.new.items ≡ e ++
        map (λ r. Some r) (drop from terms.old.items) }
    ensures terms { terms.new.items ≡ take from terms.old.items }
{
    let mut place = slots.len();
    while terms.len() > from {
        let Some(reference) = terms.pop() else {
            return;
        };
        place = place.saturating_sub(1);
        fill(slots, place, reference);
    }
}

/// Empties a place, if there is such a place.
#[tactic(auto, using(crate::proofs::PlaceLaws::placing))]
fn empty<R: Drop>(slots: &mut Vec<Option<R>>, place: usize)
    ensures { slots.new.items ≡ cleared place slots.old.items }
{
    if place < slots.len() {
        slots[place] = None;
    }
}

/// Empties the places that were put on the trail above a height.
fn undo<R: Drop>(slots: &mut Vec<Option<R>>, trail: &mut Vec<u32>, height: usize)
    ensures slots { slots.new.items ≡ undone (above height (reverse trail.old.items))
        slots.old.items }
    ensures trail { reverse trail.new.items ≡ down_to height (reverse trail.old.items) }
{
    while trail.len() > height {
        let Some(place) = trail.pop() else {
            return;
        };
        empty(slots, place as usize);
    }
}

/// Drops the last entries above a height that are not below the barrier.
#[tactic(auto, using(crate::proofs::PlaceLaws::trim_low))]
fn trim_trail(trail: &mut Vec<u32>, height: usize, barrier: usize)
    ensures { reverse trail.new.items ≡ trimmed height barrier (reverse trail.old.items) }
{
    while trail.len() > height {
        if (trail[trail.len() - 1] as usize) < barrier {
            return;
        }
        let _entry = trail.pop();
    }
}
