//! Walks along blocks.
ghost use Rattle.std.specs.Prelude.{◌≡◌, ◌<◌, ◌≤◌, ◌++◌, ◌+◌, ◌↔◌, take, drop, length, vec_len, vec_capacity, IsTrue, MatchOption, OnOk, OnErr};
ghost use Rattle.term_model.specs.Blocks.{front_list, list_in};
ghost use Rattle.term_store.specs.Chains.{IsBlockIn};
ghost use Rattle.term_store.specs.Walks.{NotBegun};

use crate::store::StoreSpace;
use std::alloc::AllocError;
use term_model::{Block, Front};

impl StoreSpace {
    /// How many places a block has, without a walk.
    #[inline]
    pub(crate) fn len_in(&self, block: Block<u32>) -> usize
        requires { block.rest < length self.now.chains }
        ensures { result ≡ length (list_in self.now.chains block) }
    {
        block.front.len() + self.span(block.rest).length as usize
    }

    /// The block of the places after the first `count`.
    pub(crate) fn after(&self, block: Block<u32>, count: usize) -> Block<u32>
        requires block { IsBlockIn self.now.chains block (list_in self.now.chains block) }
        requires count { count ≤ length (list_in self.now.chains block) }
        ensures { IsBlockIn self.now.chains result (drop count (list_in self.now.chains block)) }
    {
        let mut block = block;
        let mut left = count;
        while block.rest != 0 && left >= block.front.len() {
            left -= block.front.len();
            block = self.chains.block(block.rest);
        }
        Block {
            front: without(block.front, left),
            rest: block.rest,
        }
    }

    /// Puts the places of a block on a stack, which is as it was where there is no memory.
    pub(crate) fn push_block(
        &self,
        block: Block<u32>,
        stack: &mut Vec<u32>,
    ) -> Result<(), AllocError>
        requires { IsBlockIn self.now.chains block (list_in self.now.chains block) }
        ensures pushed { OnOk result (stack.new.items ≡ stack.old.items ++
            list_in self.now.chains block) }
        ensures err { OnErr result (stack.new.items ≡ stack.old.items) }
    {
        stack.reserve(self.len_in(block))?;
        push_front_of(block.front, stack);
        let mut rest = block.rest;
        while rest != 0 {
            let next = self.chains.block(rest);
            push_front_of(next.front, stack);
            rest = next.rest;
        }
        Ok(())
    }

    /// Puts the first `count` places of a block on a stack, which is as it was where there is no memory. Goes along no more
    /// of the block than that.
    pub(crate) fn push_first(
        &self,
        block: Block<u32>,
        count: usize,
        stack: &mut Vec<u32>,
    ) -> Result<(), AllocError>
        requires block { IsBlockIn self.now.chains block (list_in self.now.chains block) }
        requires count { count ≤ length (list_in self.now.chains block) }
        ensures pushed { OnOk result (stack.new.items ≡ stack.old.items ++
            take count (list_in self.now.chains block)) }
        ensures err { OnErr result (stack.new.items ≡ stack.old.items) }
    {
        stack.reserve(count)?;
        let mut block = block;
        let mut left = count;
        while block.rest > 0 && left >= block.front.len() {
            left -= block.front.len();
            push_front_of(block.front, stack);
            block = self.chains.block(block.rest);
        }
        push_front_of(first_of(block.front, left), stack);
        Ok(())
    }

    /// Whether a block is of these places.
    pub(crate) fn is_of(&self, block: Block<u32>, places: &[u32]) -> bool
        requires { IsBlockIn self.now.chains block (list_in self.now.chains block) }
        ensures { IsTrue result ↔ (list_in self.now.chains block ≡ places.now) }
    {
        let Some(mut left) = after_front(block.front, places) else {
            return false;
        };
        let mut rest = block.rest;
        while rest != 0 {
            let next = self.chains.block(rest);
            let Some(shorter) = after_front(next.front, left) else {
                return false;
            };
            left = shorter;
            rest = next.rest;
        }
        left.is_empty()
    }
}

/// The values after the first `count`.
fn without(front: Front<u32>, count: usize) -> Front<u32>
    ensures { front_list result ≡ drop count (front_list front) }
{
    match (front, count) {
        (front, 0) => front,
        (Front::Two(_, b), 1) => Front::One(b),
        (Front::Three(_, b, c), 1) => Front::Two(b, c),
        (Front::Three(_, _, c), 2) => Front::One(c),
        _ => Front::Zero,
    }
}

/// The first `count` values.
fn first_of(front: Front<u32>, count: usize) -> Front<u32>
    ensures { front_list result ≡ take count (front_list front) }
{
    match (front, count) {
        (_, 0) => Front::Zero,
        (Front::Two(a, _) | Front::Three(a, _, _), 1) => Front::One(a),
        (Front::Three(a, b, _), 2) => Front::Two(a, b),
        (front, _) => front,
    }
}

/// Puts the values on a stack that has room for them.
fn push_front_of(front: Front<u32>, stack: &mut Vec<u32>)
    requires { vec_len stack.old + length (front_list front) ≤ vec_capacity stack.old }
    ensures pushed { stack.new.items ≡ stack.old.items ++ front_list front }
    ensures capacity { vec_capacity stack.new ≡ vec_capacity stack.old }
{
    match front {
        Front::Zero => {}
        Front::One(a) => stack.push_reserved(a),
        Front::Two(a, b) => {
            stack.push_reserved(a);
            stack.push_reserved(b);
        }
        Front::Three(a, b, c) => {
            stack.push_reserved(a);
            stack.push_reserved(b);
            stack.push_reserved(c);
        }
    }
}

/// The places after these values; `None` where they do not begin with them.
fn after_front(front: Front<u32>, places: &[u32]) -> Option<&[u32]>
    ensures { MatchOption result (NotBegun (front_list front) places.now) (λ r. front_list front ++
        r.now ≡ places.now) }
{
    match (front, places) {
        (Front::Zero, _) => Some(places),
        (Front::One(a), [x, rest @ ..]) if a == *x => Some(rest),
        (Front::Two(a, b), [x, y, rest @ ..]) if a == *x && b == *y => Some(rest),
        (Front::Three(a, b, c), [x, y, z, rest @ ..]) if a == *x && b == *y && c == *z => {
            Some(rest)
        }
        _ => None,
    }
}
