//! Control records, and the parts of the terms that are traversed.
ghost use Rattle.std.specs.Prelude.{◌≡◌, ◌+◌, ◌-◌, suc, MatchOption, [], ◌∷◌, length, take, drop};
ghost use Rattle.strat_steps.specs.References.{ref_call};
ghost use Rattle.strat_machine.specs.RecordStack.{records_of, saved_of, IsNoCall, IsNoChoice, IsChoice};
ghost use Rattle.term_model.specs.Results.{Returns};

use crate::compact_records::CompactRecords;
use crate::stack::Stack;
use std::alloc::{AllocError, Global};

/// What a failure restores: the current frame, how many frames there were, how many entries the trail had, and the barrier
/// that held before.
#[derive(Clone, Copy)]
pub(crate) struct Saved {
    pub(crate) frame: usize,
    pub(crate) frames: usize,
    pub(crate) height: usize,
    pub(crate) barrier: usize,
}

/// A traversal: the address of the code for a part, the next address after the traversal, the whole term, and of how many parts
/// that are done and that are left there are references.
#[derive(Drop)]
pub(crate) struct Traversed<R: Drop> {
    pub(crate) body: usize,
    pub(crate) next_address: usize,
    pub(crate) whole: R,
    pub(crate) done: usize,
    pub(crate) left: usize,
}

impl<R: Drop> Traversed<R> {
    /// The traversal with one part more that is done.
    pub(crate) fn one_more(self) -> Result<Traversed<R>, AllocError>
        ensures { Returns result (record self { done = suc self.done }) }
    {
        let Some(done) = self.done.checked_add(1) else {
            return Err(AllocError);
        };
        Ok(Traversed {
            body: self.body,
            next_address: self.next_address,
            whole: self.whole,
            done,
            left: self.left,
        })
    }

    /// The traversal with this many parts left.
    pub(crate) fn with_left(self, left: usize) -> Traversed<R>
        ensures { result ≡ record self { left = left } }
    {
        Traversed {
            body: self.body,
            next_address: self.next_address,
            whole: self.whole,
            done: self.done,
            left,
        }
    }

    /// The traversal with one part more that is done, and `moved` parts that were left.
    pub(crate) fn with_part_done(self, moved: usize) -> Result<Traversed<R>, AllocError>
        ensures { Returns result (record self { done = suc self.done + moved; left = 0 }) }
    {
        let more = self.one_more()?;
        let Some(done) = more.done.checked_add(moved) else {
            return Err(AllocError);
        };
        Ok(Traversed {
            body: more.body,
            next_address: more.next_address,
            whole: more.whole,
            done,
            left: 0,
        })
    }
}

/// A control record.
#[derive(Drop)]
pub(crate) enum Record<R: Drop, M: Drop> {
    /// Of a call: the next address, and the frame that is current again.
    Call {
        next_address: usize,
        frame: usize,
    },
    /// Of a choice: the address where a failure goes on, with this term.
    Choice {
        otherwise: usize,
        term: R,
        saved: Saved,
        mark: M,
    },
    All {
        traversed: Traversed<R>,
    },
    /// With the part that is tried.
    One {
        traversed: Traversed<R>,
        part: R,
        saved: Saved,
        mark: M,
    },
    /// With the part that is tried, and whether one before was rewritten.
    Some {
        traversed: Traversed<R>,
        part: R,
        found: bool,
        saved: Saved,
        mark: M,
    },
}

/// The records. The parts of all traversals stand on two stacks, those of the newest traversal on top: what the parts done
/// have become, the last of them on top, and of the parts that are left some of the next ones, the first of them on top.
#[derive(Drop)]
pub(crate) struct Records<R: Drop, M: Drop> {
    pub(crate) records: CompactRecords<R, M>,
    pub(crate) done: Stack<R>,
    pub(crate) left: Stack<R>,
}

impl<R: Drop, M: Drop> Records<R, M> {
    /// No records.
    pub(crate) fn new(alloc: Global) -> Records<R, M>
        ensures { records_of result ≡ [] }
    {
        Records {
            records: CompactRecords::new(alloc),
            done: Stack::new(alloc),
            left: Stack::new(alloc),
        }
    }

    /// Takes all records off.
    pub(crate) fn clear(&mut self)
        ensures { records_of self.new ≡ [] }
    {
        self.records.clear();
        self.done.clear();
        self.left.clear();
    }

    /// Gives back memory that fewer records and parts than before have no use for.
    pub(crate) fn release_spare(&mut self)
        ensures { self.new ≡ self.old }
    {
        self.records.release_spare();
        self.done.release_spare();
        self.left.release_spare();
    }

    /// Takes the newest record off, if it is of a call: its next address and its frame.
    pub(crate) fn pop_call(&mut self) -> Option<(usize, usize)>
        ensures { MatchOption result (IsNoCall (records_of self.old))
            (λ c. records_of self.old ≡ ref_call c.0 c.1 ∷ records_of self.new) }
    {
        self.records.pop_call()
    }

    /// Takes the newest record off, if it is of a choice: what a failure would have restored.
    pub(crate) fn drop_choice(&mut self) -> Option<Saved>
        ensures { MatchOption result (IsNoChoice (records_of self.old))
            (λ s. IsChoice (records_of self.old) (saved_of s) (records_of self.new)) }
    {
        self.records.drop_choice()
    }

    /// Takes the next of the parts that are left.
    pub(crate) fn next_part(&mut self, count: usize) -> Option<R>
        ensures kept { self.new ≡ record self.old { left = self.new.left } }
        ensures part { MatchOption result
            ((take count self.old.left ≡ []) × (self.new.left ≡ self.old.left))
            (λ r. (take count self.old.left ≡ r ∷ take (count - 1) self.new.left) ×
            (drop count self.old.left ≡ drop (count - 1) self.new.left)) }
    {
        if count == 0 {
            return None;
        }
        self.left.pop()
    }

    /// How many of the newest parts that are done there are, but at most `count`.
    pub(crate) fn done_count(&self, count: usize) -> usize
        ensures { result ≡ length (take count self.now.done) }
    {
        self.done.len().min(count)
    }

    /// Takes off the parts of the newest traversal, whose record is off.
    pub(crate) fn cut(&mut self, done: usize, left: usize)
        ensures { self.new ≡ record {
          records = self.old.records;
          done = drop done self.old.done;
          left = drop left self.old.left;
        } }
    {
        self.done.cut(done);
        self.left.cut(left);
    }
}
