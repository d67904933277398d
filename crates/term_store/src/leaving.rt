//! Terms that leave the store, and share what they shared in it.
ghost use Rattle.std.specs.Prelude.{◌≡◌, ◌<◌, ◌≤◌, ◌+◌, length, map, drop, All, replicate, None, vec_len, IfOk, OnOk};
ghost use Rattle.term_model.specs.Blocks.{list_in};
ghost use Rattle.term_store.specs.Chains.{IsBlockIn};
ghost use Rattle.term_store.specs.Leaving.{AreLeft, MayHead};
ghost use Rattle.term_store.specs.Space.{count, term_of};
ghost use Rattle.term_store.specs.Store.{head_in, IsAmong};
ghost use Rattle.term_model.specs.Results.{Returns};

use crate::store::StoreSpace;
use crate::stored::StoredHead;
use std::alloc::{AllocError, Global};
use term_model::{Block, Head, Made, Term};

impl StoreSpace {
    /// The term at a place. Terms that are one in the store are one outside it.
    #[tactic(auto, using(crate::proofs::LeavingLemmas::leaving))]
    pub(crate) fn take_out(&self, alloc: Global, at: u32) -> Result<Term, AllocError>
        requires { at < count self.now }
        ensures { Returns result (term_of self.now at) }
    {
        let mut terms = none_left(alloc, self.shapes.held())?;
        let mut stack = Vec::new(alloc);
        self.leave_term(alloc, at, &mut terms, &mut stack)
    }

    /// The term at a place, which is made where it is not there yet. The stack is for places, and is as it was in the end.
    #[cycle(leave)]
    #[tactic(auto, using(crate::proofs::LeavingLemmas::leaving))]
    fn leave_term(
        &self,
        alloc: Global,
        at: u32,
        terms: &mut Vec<Option<Term>>,
        stack: &mut Vec<u32>,
    ) -> Result<Term, AllocError>
        requires at { at < count self.now }
        requires within { at < self.now.shapes.small + vec_len terms.old }
        requires left { AreLeft self.now terms.old.items }
        ensures term { Returns result (term_of self.now at) }
        ensures long { OnOk result (vec_len terms.new ≡ vec_len terms.old) }
        ensures left { OnOk result (AreLeft self.now terms.new.items) }
        ensures stack { OnOk result (stack.new.items ≡ stack.old.items) }
    {
        if let Some(value) = self.shapes.integer(at) {
            return Term::int(alloc, value);
        }
        let number = self.shapes.number_of(at);
        if let Some(term) = &terms[number] {
            let copy = term.clone()?;
            return Ok(copy);
        }
        let shape = self.shape_at(at);
        let parts = self.leave_block(alloc, at, shape.parts(), terms, stack)?;
        let annos = self.chains.block(shape.annos());
        let annos = self.leave_block(alloc, at, annos, terms, stack)?;
        let head = self.head_out(shape.head())?;
        let Made::Fits(term) = Term::new(alloc, head, parts, annos)? else {
            unreachable!()
        };
        let copy = term.clone()?;
        terms[number] = Some(copy);
        Ok(term)
    }

    /// The terms of the places of a block, which are before a place.
    #[cycle(leave)]
    #[tactic(auto, using(crate::proofs::LeavingLemmas::leaving))]
    fn leave_block(
        &self,
        alloc: Global,
        at: u32,
        block: Block<u32>,
        terms: &mut Vec<Option<Term>>,
        stack: &mut Vec<u32>,
    ) -> Result<Vec<Term>, AllocError>
        requires at { at < count self.now }
        requires within { at < self.now.shapes.small + vec_len terms.old }
        requires left { AreLeft self.now terms.old.items }
        requires block { IsBlockIn self.now.chains block (list_in self.now.chains block) }
        requires below { All (λ i. i < at) (list_in self.now.chains block) }
        ensures terms { IfOk result (λ ts. ts.items ≡
            map (term_of self.now) (list_in self.now.chains block)) }
        ensures long { OnOk result (vec_len terms.new ≡ vec_len terms.old) }
        ensures left { OnOk result (AreLeft self.now terms.new.items) }
        ensures stack { OnOk result (stack.new.items ≡ stack.old.items) }
    {
        let bottom = stack.len();
        self.push_block(block, stack)?;
        let made = self.leave_all(alloc, at, bottom, terms, stack)?;
        stack.truncate(bottom);
        Ok(made)
    }

    /// The terms of the places on the stack from an index on, which are before a place.
    #[cycle(leave)]
    #[tactic(auto, using(crate::proofs::LeavingLemmas::leaving))]
    fn leave_all(
        &self,
        alloc: Global,
        at: u32,
        bottom: usize,
        terms: &mut Vec<Option<Term>>,
        stack: &mut Vec<u32>,
    ) -> Result<Vec<Term>, AllocError>
        requires at { at < count self.now }
        requires within { at < self.now.shapes.small + vec_len terms.old }
        requires left { AreLeft self.now terms.old.items }
        requires bottom { bottom ≤ vec_len stack.old }
        requires below { All (λ i. i < at) (drop bottom stack.old.items) }
        ensures terms { IfOk result (λ ts. ts.items ≡
            map (term_of self.now) (drop bottom stack.old.items)) }
        ensures long { OnOk result (vec_len terms.new ≡ vec_len terms.old) }
        ensures left { OnOk result (AreLeft self.now terms.new.items) }
        ensures stack { OnOk result (stack.new.items ≡ stack.old.items) }
    {
        let end = stack.len();
        let mut made = Vec::with_capacity(alloc, end - bottom)?;
        for index in bottom..end {
            let place = stack[index];
            let term = self.leave_term(alloc, place, terms, stack)?;
            made.push(term)?;
        }
        Ok(made)
    }

    /// The head of a shape.
    #[tactic(auto, using(crate::proofs::LeavingLemmas::leaving))]
    fn head_out(&self, head: StoredHead) -> Result<Head, AllocError>
        requires { IsAmong (length self.now.symbols.keys) head }
        ensures head { Returns result (head_in self.now.symbols.keys head) }
        ensures may { IfOk result (λ h. MayHead head h) }
    {
        match head {
            StoredHead::Int(value) => Ok(Head::Int(value)),
            StoredHead::List => Ok(Head::List),
            StoredHead::Symbol(number) => {
                let symbol = self.symbols.get_index(number as usize).unwrap();
                let _ = symbol.kind();
                let copy = symbol.clone()?;
                Ok(Head::App(copy))
            }
        }
    }
}

/// No term for each of these shapes.
fn none_left(alloc: Global, count: usize) -> Result<Vec<Option<Term>>, AllocError>
    ensures { IfOk result (λ terms. terms.items ≡ replicate count None) }
{
    let mut terms = Vec::with_capacity(alloc, count)?;
    for _ in 0..count {
        terms.push(None)?;
    }
    Ok(terms)
}
