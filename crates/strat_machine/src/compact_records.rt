//! Control records in little memory: what a failure restores and the traversals stand on stacks of their own.
ghost use Rattle.std.specs.Prelude.{◌≡◌, false, IsTrue, MatchOption, IfOk, OnOk, List, [], ◌∷◌, length, reverse};
ghost use Rattle.strat_machine.specs.declared.compact_records.CompactTraversed.{CompactTraversed};
ghost use Rattle.strat_machine.specs.CompactRecords.{HasNoCall, HasNoChoice, HasNoAll, HasChoice, AdvancesAll, traversed_in};

use crate::addresses::{Addresses, count_at};
use crate::records::{Record, Saved, Traversed};
use crate::stack::Stack;
use std::alloc::{AllocError, Global};
use std::marker::Model;
use strat_patterns::{narrow, push_on, release_spare};

/// What a record holds itself.
#[derive(Drop)]
enum CompactRecord<R: Drop> {
    Call { next_address: u32, frame: u32 },
    Choice { otherwise: u32, term: R },
    All,
    One { part: R },
    Some { part: R, found: bool },
}

/// What a failure restores, with the mark to which the space goes back.
#[derive(Drop)]
struct Checkpoint<M: Drop> {
    saved: Saved,
    mark: M,
}

/// A traversal.
#[derive(Drop)]
struct CompactTraversed<R: Drop> {
    body: u32,
    next_address: u32,
    whole: R,
    done: u32,
    left: u32,
}

/// The record of a choice.
#[derive(Drop)]
pub(crate) struct Choice<R: Drop, M: Drop> {
    pub(crate) otherwise: usize,
    pub(crate) term: R,
    pub(crate) saved: Saved,
    pub(crate) mark: M,
}

/// Records, of which the newest is seen first. Addresses, frames and counts are held in 32 bits; memory is out where one needs more.
#[derive(Drop)]
pub(crate) struct CompactRecords<R: Drop, M: Drop> {
    records: Stack<CompactRecord<R>>,
    checkpoints: Stack<Checkpoint<M>>,
    traversed: Vec<CompactTraversed<R>>,
}

impl<R: Drop, M: Drop> Model for CompactRecords<R, M> {
    ghost use Rattle.std.specs.Prelude.{List, reverse};
    ghost use Rattle.strat_machine.specs.CompactRecords.{joined};
    ghost use Rattle.strat_machine.specs.declared.records.Record.{Record};

    ghost Value = { List (Record R M) };

    ghost view = { λ a. joined a.records a.checkpoints (reverse a.traversed.items) };
}

impl<R: Drop, M: Drop> CompactRecords<R, M> {
    /// No records.
    pub(crate) fn new(alloc: Global) -> CompactRecords<R, M>
        ensures { result ≡ [] }
    {
        CompactRecords {
            records: Stack::new(alloc),
            checkpoints: Stack::new(alloc),
            traversed: Vec::new(alloc),
        }
    }

    /// Takes all records off.
    pub(crate) fn clear(&mut self)
        ensures { self.new ≡ [] }
    {
        self.records.clear();
        self.checkpoints.clear();
        self.traversed.clear();
    }

    /// Gives back memory that fewer records than before have no use for.
    pub(crate) fn release_spare(&mut self)
        ensures { self.new ≡ self.old }
    {
        self.records.release_spare();
        self.checkpoints.release_spare();
        release_spare(&mut self.traversed);
    }

    /// Puts the record of a call on.
    pub(crate) fn push_call(&mut self, next_address: usize, frame: usize) -> Result<(), AllocError>
        ensures { OnOk result (self.new ≡ Record.Call next_address frame ∷ self.old) }
    {
        narrow(next_address.max(frame))?;
        self.records.push(CompactRecord::Call {
            next_address: next_address as u32,
            frame: frame as u32,
        })?;
        Ok(())
    }

    /// Puts the record of a choice on.
    #[inline]
    pub(crate) fn push_choice(
        &mut self,
        otherwise: usize,
        term: R,
        saved: Saved,
        mark: M,
    ) -> Result<(), AllocError>
        ensures { OnOk result (self.new ≡ Record.Choice otherwise term saved mark ∷ self.old) }
    {
        narrow(otherwise)?;
        self.checkpoints.push(Checkpoint { saved, mark })?;
        self.records.push(CompactRecord::Choice {
            otherwise: otherwise as u32,
            term,
        })?;
        Ok(())
    }

    /// Puts the record of all(s) on.
    pub(crate) fn push_all(&mut self, traversed: Traversed<R>) -> Result<(), AllocError>
        ensures { OnOk result (self.new ≡ Record.All traversed ∷ self.old) }
    {
        push_on(&mut self.traversed, compact_traversed(traversed)?)?;
        self.records.push(CompactRecord::All)?;
        Ok(())
    }

    /// Puts the record of one(s) on, which tries this part.
    pub(crate) fn push_one(
        &mut self,
        traversed: Traversed<R>,
        part: R,
        saved: Saved,
        mark: M,
    ) -> Result<(), AllocError>
        ensures { OnOk result (self.new ≡ Record.One traversed part saved mark ∷ self.old) }
    {
        self.checkpoints.push(Checkpoint { saved, mark })?;
        push_on(&mut self.traversed, compact_traversed(traversed)?)?;
        self.records.push(CompactRecord::One { part })?;
        Ok(())
    }

    /// Puts the record of some(s) on, which tries this part.
    pub(crate) fn push_some(
        &mut self,
        traversed: Traversed<R>,
        part: R,
        found: bool,
        saved: Saved,
        mark: M,
    ) -> Result<(), AllocError>
        ensures { OnOk result (self.new ≡ Record.Some traversed part found saved mark ∷ self.old) }
    {
        self.checkpoints.push(Checkpoint { saved, mark })?;
        push_on(&mut self.traversed, compact_traversed(traversed)?)?;
        self.records.push(CompactRecord::Some { part, found })?;
        Ok(())
    }

    /// Takes the newest record off, if it is of a call: its next address and its frame.
    pub(crate) fn pop_call(&mut self) -> Option<(usize, usize)>
        ensures { MatchOption result ((self.new ≡ self.old) × HasNoCall self.old)
            (λ c. self.old ≡ Record.Call c.0 c.1 ∷ self.new) }
    {
        let CompactRecord::Call {
            next_address,
            frame,
        } = self.records.newest_item()?
        else {
            return None;
        };
        let next_address = *next_address as usize;
        let frame = *frame as usize;
        let _record = self.records.pop();
        Some((next_address, frame))
    }

    /// Whether the newest record is of a call.
    pub(crate) fn is_call(&self) -> bool
        ensures yes { IsTrue result → HasNoCall self.now → ⊥ }
        ensures no { result ≡ false → HasNoCall self.now }
    {
        matches!(self.records.newest_item(), Some(CompactRecord::Call { .. }))
    }

    /// Whether the newest record is of a choice.
    pub(crate) fn is_choice(&self) -> bool
        ensures yes { IsTrue result → HasNoChoice self.now → self.now ≡ [] }
        ensures no { result ≡ false → HasNoChoice self.now }
    {
        matches!(
            self.records.newest_item(),
            Some(CompactRecord::Choice { .. })
        )
    }

    /// Whether the newest record is of all(s).
    pub(crate) fn is_all(&self) -> bool
        ensures yes { IsTrue result → HasNoAll self.now → self.now ≡ [] }
        ensures no { result ≡ false → HasNoAll self.now }
    {
        matches!(self.records.newest_item(), Some(CompactRecord::All))
    }

    /// Takes the newest record off, if it is of a choice.
    pub(crate) fn pop_choice(&mut self) -> Option<Choice<R, M>>
        ensures { MatchOption result ((self.new ≡ self.old) × HasNoChoice self.old)
            (λ c. self.old ≡ Record.Choice c.otherwise c.term c.saved c.mark ∷ self.new) }
    {
        let CompactRecord::Choice { .. } = self.records.newest_item()? else {
            return None;
        };
        let Checkpoint { saved, mark } = self.checkpoints.pop()?;
        let Some(CompactRecord::Choice { otherwise, term }) = self.records.pop() else {
            unreachable!();
        };
        Some(Choice {
            otherwise: otherwise as usize,
            term,
            saved,
            mark,
        })
    }

    /// Takes the newest record off, if it is of a choice: what a failure would have restored.
    pub(crate) fn drop_choice(&mut self) -> Option<Saved>
        ensures { MatchOption result (HasNoChoice self.old) (λ s. HasChoice self.old s self.new) }
    {
        let CompactRecord::Choice { .. } = self.records.newest_item()? else {
            return None;
        };
        let Checkpoint { saved, .. } = self.checkpoints.pop()?;
        let _record = self.records.pop();
        Some(saved)
    }

    /// Takes the newest record off, if it is of all(s).
    pub(crate) fn pop_all(&mut self) -> Option<Traversed<R>>
        ensures { MatchOption result ((self.new ≡ self.old) × HasNoAll self.old)
            (λ v. self.old ≡ Record.All v ∷ self.new) }
    {
        let CompactRecord::All = self.records.newest_item()? else {
            return None;
        };
        let traversed = self.traversed.pop()?;
        let _record = self.records.pop();
        Some(traversed_of(traversed))
    }

    /// Goes on with the next of the parts that are left, if the newest record is of all(s) and has one: the address of the code for a
    /// part, and the part.
    pub(crate) fn advance_all(&mut self, left: &mut Stack<R>) -> Option<(usize, R)>
        ensures { MatchOption result ((self.new ≡ self.old) × (left.new ≡ left.old))
            (λ p. AdvancesAll self.old left.old p.0 p.1 self.new left.new) }
    {
        let CompactRecord::All = self.records.newest_item()? else {
            return None;
        };
        let newest = self.traversed.last()?;
        if newest.left == 0 {
            return None;
        }
        let body = newest.body as usize;
        let done = newest.done.checked_add(1)?;
        let others = newest.left - 1;
        let part = left.pop()?;
        count_newest(&mut self.traversed, done, others);
        Some((body, part))
    }

    /// Takes the newest record off. It is inlined, so that the record is not made in memory before its kind is told.
    #[inline(always)]
    pub(crate) fn pop(&mut self) -> Option<Record<R, M>>
        ensures { MatchOption result (self.old ≡ []) (λ r. self.old ≡ r ∷ self.new) }
    {
        match self.records.pop()? {
            CompactRecord::Call {
                next_address,
                frame,
            } => Some(Record::Call {
                next_address: next_address as usize,
                frame: frame as usize,
            }),
            CompactRecord::Choice { otherwise, term } => {
                let Checkpoint { saved, mark } = self.checkpoints.pop()?;
                Some(Record::Choice {
                    otherwise: otherwise as usize,
                    term,
                    saved,
                    mark,
                })
            }
            CompactRecord::All => {
                let traversed = traversed_of(self.traversed.pop()?);
                Some(Record::All { traversed })
            }
            CompactRecord::One { part } => {
                let Checkpoint { saved, mark } = self.checkpoints.pop()?;
                Some(Record::One {
                    traversed: traversed_of(self.traversed.pop()?),
                    part,
                    saved,
                    mark,
                })
            }
            CompactRecord::Some { part, found } => {
                let Checkpoint { saved, mark } = self.checkpoints.pop()?;
                Some(Record::Some {
                    traversed: traversed_of(self.traversed.pop()?),
                    part,
                    found,
                    saved,
                    mark,
                })
            }
        }
    }

    /// The number of records.
    pub(crate) fn len(&self) -> usize {
        self.records.len()
    }

    /// The next address of the newest record, if it is of a call.
    pub(crate) fn newest_call(&self) -> Option<usize> {
        match self.records.newest_item()? {
            CompactRecord::Call { next_address, .. } => Some(*next_address as usize),
            _ => None,
        }
    }

    /// Counts the calls that wait, each at the address after it, if that is one of `own`.
    pub(crate) fn count_calls(&self, own: &Addresses, counts: &mut Vec<u64>)
        ensures { length counts.new.items ≡ length counts.old.items }
    {
        for waiting in self.records.newest(self.records.len()) {
            if let CompactRecord::Call { next_address, .. } = waiting {
                let address = *next_address as usize;
                if own.contains(address) {
                    count_at(counts, address);
                }
            }
        }
    }

    /// The addresses after the calls that wait, the outermost first.
    pub(crate) fn addresses_after(&self, alloc: Global) -> Result<Vec<usize>, AllocError> {
        let mut addresses = Vec::new(alloc);
        for record in self.records.newest(self.records.len()) {
            if let CompactRecord::Call { next_address, .. } = record {
                addresses.push(*next_address as usize)?;
            }
        }
        Ok(addresses)
    }
}

/// The newest traversal has this many parts done and left.
fn count_newest<R: Drop>(traversed: &mut Vec<CompactTraversed<R>>, done: u32, left: u32)
    ensures { (v : CompactTraversed R) (rest : List (CompactTraversed R)) →
        reverse traversed.old.items ≡ v ∷ rest →
        reverse traversed.new.items ≡ record v { done = done; left = left } ∷ rest }
{
    let count = traversed.len();
    if count == 0 {
        return;
    }
    let newest = &mut traversed[count - 1];
    newest.done = done;
    newest.left = left;
}

fn compact_traversed<R: Drop>(traversed: Traversed<R>) -> Result<CompactTraversed<R>, AllocError>
    ensures { IfOk result (λ c. traversed_in c ≡ traversed) }
{
    let addresses = traversed.body.max(traversed.next_address);
    let counts = traversed.done.max(traversed.left);
    narrow(addresses.max(counts))?;
    Ok(CompactTraversed {
        body: traversed.body as u32,
        next_address: traversed.next_address as u32,
        whole: traversed.whole,
        done: traversed.done as u32,
        left: traversed.left as u32,
    })
}

fn traversed_of<R: Drop>(compact: CompactTraversed<R>) -> Traversed<R>
    ensures { result ≡ traversed_in compact }
{
    Traversed {
        body: compact.body as usize,
        next_address: compact.next_address as usize,
        whole: compact.whole,
        done: compact.done as usize,
        left: compact.left as usize,
    }
}
