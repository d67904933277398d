//! A stack, whose newest item is the first.
ghost use Rattle.std.specs.Prelude.{◌≡◌, ◌-◌, ◌≤◌, min, IsTrue, MatchOption, IfOk, OnOk, OnErr, [], ◌∷◌, ◌++◌, length, reverse, take, drop};
ghost use Rattle.term_model.specs.TermParts.{parts_of};
ghost use Rattle.strat_machine.specs.PartsOf.{PutsParts};
ghost use Rattle.term_model.specs.Results.{Returns};

use std::alloc::{AllocError, Global};
use std::marker::Model;
use strat_patterns::{push_on, release_spare};
use term_model::TermSpace;

/// Items, of which the newest is seen first.
#[derive(Drop)]
pub(crate) struct Stack<T: Drop> {
    items: Vec<T>,
}

impl<T: Drop> Model for Stack<T> {
    ghost use Rattle.std.specs.Prelude.{List, reverse};

    ghost Value = { List T };

    ghost view = { λ a. reverse a.items.items };
}

impl<T: Drop> Stack<T> {
    /// An empty stack.
    pub(crate) fn new(alloc: Global) -> Stack<T>
        ensures { result ≡ [] }
    {
        Stack {
            items: Vec::new(alloc),
        }
    }

    /// Takes off all items.
    pub(crate) fn clear(&mut self)
        ensures { self.new ≡ [] }
    {
        self.items.clear();
    }

    /// Gives back memory that fewer items than before have no use for.
    pub(crate) fn release_spare(&mut self)
        ensures { self.new ≡ self.old }
    {
        release_spare(&mut self.items);
    }

    /// The number of items.
    pub(crate) fn len(&self) -> usize
        ensures { result ≡ length self.now }
    {
        self.items.len()
    }

    /// Puts an item on.
    pub(crate) fn push(&mut self, item: T) -> Result<(), AllocError>
        ensures pushed { OnOk result (self.new ≡ item ∷ self.old) }
        ensures err { OnErr result (self.new ≡ self.old) }
    {
        push_on(&mut self.items, item)?;
        Ok(())
    }

    /// The newest item.
    pub(crate) fn newest_item(&self) -> Option<&T>
        ensures { MatchOption result (self.now ≡ []) (λ item. take 1 self.now ≡ item.now ∷ []) }
    {
        self.items.last()
    }

    /// Takes the newest item off.
    pub(crate) fn pop(&mut self) -> Option<T>
        ensures { MatchOption result ((self.old ≡ []) × (self.new ≡ []))
            (λ item. self.old ≡ item ∷ self.new) }
    {
        self.items.pop()
    }

    /// Takes off `count` items.
    pub(crate) fn cut(&mut self, count: usize)
        ensures { self.new ≡ drop count self.old }
    {
        let kept = self.items.len().saturating_sub(count);
        self.items.truncate(kept);
    }

    /// The newest `count` items, the oldest of them first.
    pub(crate) fn newest(&self, count: usize) -> &[T]
        ensures { result.now ≡ reverse (take count self.now) }
    {
        let from = self.items.len().saturating_sub(count);
        &self.items[from..]
    }

    /// Puts `count` items on another stack, the newest first, and returns how many there were.
    pub(crate) fn move_to(
        &mut self,
        other: &mut Stack<T>,
        count: usize,
    ) -> Result<usize, AllocError>
        ensures moved { OnOk result (other.new ≡ reverse (take count self.old) ++ other.old) }
        ensures cut { OnOk result (self.new ≡ drop count self.old) }
        ensures count { Returns result (min count (length self.old)) }
    {
        let moved = count.min(self.len());
        for _ in 0..moved {
            let Some(item) = self.pop() else {
                return Ok(moved);
            };
            other.push(item)?;
        }
        Ok(moved)
    }
}

/// The most parts of a term that are put on a stack one by one.
const FEW: usize = 3;

/// Puts parts of a term on a stack, those from the index `from` on and before the index `to`, the last one first.
#[inline(always)]
pub(crate) fn push_parts_between<S: TermSpace>(
    space: &S,
    stack: &mut Stack<S::Ref>,
    of: &S::Ref,
    from: usize,
    to: usize,
) -> Result<(), AllocError>
    requires stands { IsTrue (S.space.stands space.now of.now) }
    requires order { from ≤ to }
    requires within { to ≤ length (parts_of (S.space.term_of space.now of.now)) }
    ensures { OnOk result (PutsParts S.space space.now of.now from to stack.old stack.new) }
{
    let count = to - from;
    if count <= FEW {
        return push_few_parts(space, stack, of, from, to);
    }
    let before = stack.items.len();
    space.push_parts_from(of, from, count, &mut stack.items)?;
    reverse_from(&mut stack.items, before);
    Ok(())
}

/// Puts the same parts on a stack one by one.
#[inline]
fn push_few_parts<S: TermSpace>(
    space: &S,
    stack: &mut Stack<S::Ref>,
    of: &S::Ref,
    from: usize,
    to: usize,
) -> Result<(), AllocError>
    requires stands { IsTrue (S.space.stands space.now of.now) }
    requires order { from ≤ to }
    requires within { to ≤ length (parts_of (S.space.term_of space.now of.now)) }
    ensures { OnOk result (PutsParts S.space space.now of.now from to stack.old stack.new) }
{
    let mut index = to;
    while index > from {
        index -= 1;
        let part = space.part(of, index)?;
        stack.push(part)?;
    }
    Ok(())
}

/// Reverses the items from a position on.
fn reverse_from<T: Drop>(items: &mut Vec<T>, from: usize)
    requires { from ≤ length items.old.items }
    ensures { items.new.items ≡ take from items.old.items ++ reverse (drop from items.old.items) }
{
    items[from..].reverse();
}
