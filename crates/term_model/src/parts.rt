//! A term as it is lent: its head, its parts and its annotations.
ghost use Rattle.std.specs.Prelude.{◌≡◌, ◌≤◌, ◌<◌, ◌↔◌, ◌∷◌, [], length, IsTrue, MatchOption};
ghost use Rattle.std.specs.Hash as fed;
ghost use Rattle.std.proofs.Common.{rules};
ghost use Rattle.std.specs.Cmp.Rules.{comparing, hashing};
ghost use Rattle.term_model.specs.Blocks.{front_list, list_in, lists_of, AreLinked, BeginsWith, IsAt, IsNumbered};

use crate::symbol::Sym;
use std::hash::{Hash, Hasher};
use std::marker::Model;

/// What the first number of a pair is multiplied by.
const HIGH: u64 = 4_294_967_296;

/// A head, lent: an integer, a symbol, or the head of lists.
#[derive(Drop)]
pub enum Top<'a> {
    /// An integer, which has no parts.
    Int(i64),
    /// A symbol that is applied to the parts.
    App(&'a Sym),
    /// A list, whose elements are the parts.
    List,
}

/// At most three values.
#[derive(Clone, Copy, PartialEq, Eq)]
pub enum Front<R> {
    /// None.
    Zero,
    /// One.
    One(R),
    /// Two, in order.
    Two(R, R),
    /// Three, in order.
    Three(R, R, R),
}

/// Values before the list of a number: the empty list has the number 0, and the list of the block
/// at index k has the number k + 1.
#[derive(Clone, Copy, PartialEq, Eq)]
pub struct Block<R> {
    /// The first values.
    pub front: Front<R>,
    /// The number of the list of the others.
    pub rest: u32,
}

/// Hashes the numbers in pairs, each as one number of 64 bits: all of them, but for a rest of 0 that is in no pair.
impl Hash for Block<u32> {
    ghost use Rattle.term_model.specs.BlockHashing.{block_writes};

    ghost hash_input = { block_writes };

    ghost respects_eq = { Prim.search (hashing, rules) };

    fn hash<H: Hasher>(&self, state: &mut H) {
        match self.front {
            Front::Zero => {
                if self.rest != 0 {
                    state.write_u32(self.rest);
                }
            }
            Front::One(a) => state.write_u64(a as u64 * HIGH + self.rest as u64),
            Front::Two(a, b) => {
                state.write_u64(a as u64 * HIGH + b as u64);
                if self.rest != 0 {
                    state.write_u32(self.rest);
                }
            }
            Front::Three(a, b, c) => {
                state.write_u64(a as u64 * HIGH + b as u64);
                state.write_u64(c as u64 * HIGH + self.rest as u64);
            }
        }
    }
}

impl<R> Front<R> {
    /// How many values there are.
    pub fn len(&self) -> usize
        ensures len { result ≡ length (front_list self.now) }
        ensures few { result ≤ 3 }
    {
        match self {
            Front::Zero => 0,
            Front::One(_) => 1,
            Front::Two(_, _) => 2,
            Front::Three(_, _, _) => 3,
        }
    }

    /// The value at an index.
    pub fn get(&self, index: usize) -> Option<&R>
        ensures { IsAt result (front_list self.now) index }
    {
        match (self, index) {
            (Front::One(a) | Front::Two(a, _) | Front::Three(a, _, _), 0) => Some(a),
            (Front::Two(_, b) | Front::Three(_, b, _), 1) => Some(b),
            (Front::Three(_, _, c), 2) => Some(c),
            _ => None,
        }
    }
}

/// References to several terms, lent: those of a slice or those of a block.
#[derive(Drop)]
pub struct Parts<'a, R> {
    slice: &'a [R],
    block: Option<&'a Block<R>>,
    blocks: &'a [Block<R>],
}

impl<'a, R> Model for Parts<'a, R> {
    ghost use Rattle.std.specs.Prelude.{List};
    ghost use Rattle.term_model.specs.Blocks.{lent, AreLinked};

    ghost Value = { List R };

    ghost view = { λ p. lent p.slice.now p.block p.blocks.now };

    ghost invariant = { λ p. AreLinked p.blocks.now };
}

impl<'a, R> Parts<'a, R> {
    /// The references of a slice.
    pub fn of_slice(slice: &'a [R]) -> Parts<'a, R>
        ensures { result ≡ slice.now }
    {
        Parts {
            slice,
            block: None,
            blocks: &[],
        }
    }

    /// The references of a block, whose rest is a list of these blocks.
    pub fn of_block(block: &'a Block<R>, blocks: &'a [Block<R>]) -> Parts<'a, R>
        requires { AreLinked blocks.now }
        ensures { result ≡ list_in (lists_of blocks.now) block.now }
    {
        Parts {
            slice: &[],
            block: Some(block),
            blocks,
        }
    }

    /// How many references there are.
    pub fn len(&self) -> usize
        ensures { result ≡ length self.now }
    {
        match self.block {
            None => self.slice.len(),
            Some(block) => len_in(block, self.blocks),
        }
    }

    /// Whether there are exactly `count` references. Goes along no more of them than that.
    pub fn has_len(&self, count: usize) -> bool
        ensures { IsTrue result ↔ (length self.now ≡ count) }
    {
        match self.block {
            None => self.slice.len() == count,
            Some(block) => has_len_in(block, self.blocks, count),
        }
    }

    /// Whether there are none.
    pub fn is_empty(&self) -> bool
        ensures { IsTrue result ↔ (self.now ≡ []) }
    {
        match self.block {
            None => self.slice.is_empty(),
            Some(block) => block.front.len() == 0 && len_in(block, self.blocks) == 0,
        }
    }

    /// The references in order, one at a time.
    #[tactic(auto, using(crate::proofs::BlockLaws::walks))]
    pub fn walk(&self) -> Walk<'a, R>
        ensures { result ≡ self.now }
    {
        Walk {
            slice: self.slice,
            block: self.block,
            index: 0,
            blocks: self.blocks,
        }
    }

    /// The reference at an index: at once in a slice, and along the blocks before it otherwise.
    pub fn get(&self, index: usize) -> Option<&'a R>
        ensures { IsAt result self.now index }
    {
        match self.block {
            None => self.slice.get(index),
            Some(block) => get_in(block, self.blocks, index),
        }
    }
}

/// The references that are still to come, of those that were lent.
#[derive(Drop)]
pub struct Walk<'a, R> {
    slice: &'a [R],
    block: Option<&'a Block<R>>,
    /// How many of the block's first values have come.
    index: usize,
    blocks: &'a [Block<R>],
}

impl<'a, R> Model for Walk<'a, R> {
    ghost use Rattle.std.specs.Prelude.{List};
    ghost use Rattle.term_model.specs.Blocks.{to_come, AreLinked};

    ghost Value = { List R };

    ghost view = { λ w. to_come w.slice.now w.block w.index w.blocks.now };

    ghost invariant = { λ w. AreLinked w.blocks.now };
}

impl<'a, R> Iterator for Walk<'a, R> {
    ghost use Rattle.std.specs.Iterator.{YieldsFirstRef, item_count};

    type Item = &'a R;

    ghost next_gives = { YieldsFirstRef (λ w. w) };

    ghost remaining = { item_count (λ w. w) };

    /// The next reference; `None` where all have come.
    #[tactic(auto, using(crate::proofs::BlockLaws::walks))]
    fn next(&mut self) -> Option<&'a R> {
        let Some(block) = self.block else {
            let (first, others) = self.slice.split_first()?;
            self.slice = others;
            return Some(first);
        };
        if let Some(at) = block.front.get(self.index) {
            self.index += 1;
            return Some(at);
        }
        let after = first_of(self.blocks, block.rest)?;
        self.block = Some(after);
        self.index = 1;
        after.front.get(0)
    }
}

/// The block that the list of this number begins with.
fn first_of<R>(blocks: &[Block<R>], number: u32) -> Option<&Block<R>>
    requires { AreLinked blocks.now }
    ensures { BeginsWith result blocks.now number }
{
    let mut rest = number;
    while let Some(next) = block_numbered(blocks, rest) {
        if next.front.len() > 0 {
            return Some(next);
        }
        rest = next.rest;
    }
    None
}

/// The block whose list has this number.
#[tactic(auto, using(crate::proofs::BlockLaws::numbering))]
fn block_numbered<R>(blocks: &[Block<R>], number: u32) -> Option<&Block<R>>
    requires { AreLinked blocks.now }
    ensures { IsNumbered result blocks.now number }
{
    let number = number as usize;
    if number == 0 || blocks.len() < number {
        return None;
    }
    Some(&blocks[number - 1])
}

/// How many values a block has.
fn len_in<R>(block: &Block<R>, blocks: &[Block<R>]) -> usize
    requires { AreLinked blocks.now }
    ensures { result ≡ length (list_in (lists_of blocks.now) block.now) }
{
    let mut count = block.front.len();
    let mut rest = block.rest;
    while let Some(next) = block_numbered(blocks, rest) {
        count += next.front.len();
        rest = next.rest;
    }
    count
}

/// Whether a block has exactly `count` values. Goes along no more of them than that.
fn has_len_in<R>(block: &Block<R>, blocks: &[Block<R>], count: usize) -> bool
    requires { AreLinked blocks.now }
    ensures { IsTrue result ↔ (length (list_in (lists_of blocks.now) block.now) ≡ count) }
{
    if count < block.front.len() {
        return false;
    }
    let mut left = count - block.front.len();
    let mut rest = block.rest;
    while let Some(next) = block_numbered(blocks, rest) {
        if left < next.front.len() {
            return false;
        }
        left -= next.front.len();
        rest = next.rest;
    }
    left == 0
}

/// The value of a block at an index.
fn get_in<'a, R>(block: &'a Block<R>, blocks: &'a [Block<R>], index: usize) -> Option<&'a R>
    requires { AreLinked blocks.now }
    ensures { IsAt result (list_in (lists_of blocks.now) block.now) index }
{
    if index < block.front.len() {
        return block.front.get(index);
    }
    let mut left = index - block.front.len();
    let mut rest = block.rest;
    while let Some(next) = block_numbered(blocks, rest) {
        if left < next.front.len() {
            return next.front.get(left);
        }
        left -= next.front.len();
        rest = next.rest;
    }
    None
}

/// A term as it is lent.
#[derive(Drop)]
pub struct Shape<'a, R> {
    /// What the term is, but for its parts and annotations.
    pub head: Top<'a>,
    /// The parts, in order.
    pub parts: Parts<'a, R>,
    /// The annotations, in order.
    pub annos: Parts<'a, R>,
}
