//! The machine's memory while it runs.
ghost use Rattle.std.specs.Prelude.{◌≡◌, length, take};
ghost use Rattle.strat_machine.specs.RecordStack.{saved_of};
ghost use Rattle.strat_machine.specs.Running.{IsClear};
ghost use Rattle.strat_steps.specs.State as state;

use crate::records::{Records, Saved};
use prim_registry::Flat;
use std::alloc::Global;
use strat_patterns::{Frames, Places};

/// A call that ends gives memory back if its frame is one of the last RELEASING of each FRAMES frames: those of a deep recursion do so
/// from time to time, and others never. As not each frame is that of a call, there are some such frames and not one.
const FRAMES: usize = 65_536;

const RELEASING: usize = 256;

/// The stacks, and the nodes that are left of the budget.
#[derive(Drop)]
pub(crate) struct Stacks<R: Drop, M: Drop> {
    pub(crate) frames: Frames,
    pub(crate) places: Places<R>,
    pub(crate) records: Records<R, M>,
    pub(crate) left: usize,
}

/// Vectors for terms that are made and for the arguments of a primitive. They are kept from step to step for their memory
/// alone.
#[derive(Drop)]
pub(crate) struct Scratch<R: Drop> {
    pub(crate) terms: Vec<R>,
    pub(crate) values: Vec<Flat>,
}

/// Where the machine is: the address of the instruction that comes next, the current frame and the current term. While the machine deals with
/// a failure, and after a run that ended without a term, it says nothing.
#[derive(Drop)]
pub(crate) struct Position<R: Drop> {
    pub(crate) address: usize,
    pub(crate) frame: usize,
    pub(crate) term: R,
}

/// What the machine does next.
#[derive(Clone, Copy, Debug, PartialEq, Eq)]
pub(crate) enum Next {
    /// It performs the instruction at its position.
    Running,
    /// It deals with a failure.
    Failing,
    /// The run has ended with the term of the position.
    Rewritten,
    /// The run has ended: the term has no rewriting.
    Failed,
    /// The run has ended: what it built is too large.
    Oversize,
    /// The run has ended: the budget does not suffice for the next instruction.
    Spent,
    /// What code of no program comes to.
    Stuck,
}

impl<R: Drop> Scratch<R> {
    /// Vectors without anything on them.
    pub(crate) fn new(alloc: Global) -> Scratch<R> {
        Scratch {
            terms: Vec::new(alloc),
            values: Vec::new(alloc),
        }
    }
}

impl<R: Drop, M: Drop> Stacks<R, M> {
    /// Stacks without anything on them.
    pub(crate) fn new(alloc: Global) -> Stacks<R, M>
        ensures { IsClear result }
    {
        Stacks {
            frames: Frames::new(alloc),
            places: Places::new(alloc),
            records: Records::new(alloc),
            left: 0,
        }
    }

    /// Takes everything off; the memory is kept.
    pub(crate) fn clear(&mut self)
        ensures { IsClear self.new }
    {
        self.frames.clear();
        self.places.clear();
        self.records.clear();
    }

    /// Takes off the frame of a call that ends, with those after it, and the places from its first one on.
    pub(crate) fn end_frame(&mut self, frame: usize, base: usize)
        ensures { self.new ≡ record self.old {
          frames = take frame self.old.frames;
          places = record self.old.places { slots = take base self.old.places.slots };
        } }
    {
        self.places.cut(base);
        self.frames.cut(frame);
        if frame % FRAMES >= FRAMES - RELEASING {
            self.release_spare();
        }
    }

    /// Gives back memory that the stacks have no more use for after a deep recursion.
    #[inline(never)]
    fn release_spare(&mut self)
        ensures { self.new ≡ self.old }
    {
        self.frames.release_spare();
        self.places.release_spare();
        self.records.release_spare();
    }

    /// What a failure restores, with this frame.
    pub(crate) fn state_to_restore(&self, frame: usize) -> Saved
        ensures { saved_of result ≡ state.saved frame (length self.now.frames)
            (length self.now.places.trail) self.now.places.barrier }
    {
        Saved {
            frame,
            frames: self.frames.len(),
            height: self.places.height(),
            barrier: self.places.barrier(),
        }
    }
}
