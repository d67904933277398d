//! The space of the runs that explanations follow.
ghost use Rattle.std.specs.Prelude.{All, IfOk, IsTrue, map};
ghost use Rattle.term_model.specs.Space.{Keeps, Makes, MayHave, space_in};
ghost use Rattle.term_model.specs.Term.{term};

use keyed_hash::HashKeys;
use std::alloc::{AllocError, Global};
use term_model::{Head, Kind, Made, Parts, Shape, Sym, Term, TermSpace, Top};
use term_store::StoreSpace;

/// A store in which a run is followed step by step. It does what the store does. It is a type of its own so that the compiler makes a
/// machine of its own for these runs: with two loops over one machine, the step would no longer be a part of the ordinary loop, which
/// would cost each run a third more.
#[derive(Drop)]
pub(crate) struct FollowedSpace {
    store: StoreSpace,
}

impl FollowedSpace {
    /// A store without terms, whose tables hash with these keys.
    pub(crate) fn new(alloc: Global, keys: HashKeys) -> FollowedSpace {
        FollowedSpace {
            store: StoreSpace::new(alloc, keys),
        }
    }
}

impl TermSpace for FollowedSpace {
    type Ref = u32;

    type Mark = usize;

    type Name = u32;

    ghost space = { space_in (λ s. s.store) ⟦<StoreSpace as TermSpace>⟧.space };

    ghost fits = { λ s r stands. ⟦<StoreSpace as TermSpace>⟧.fits s.store r stands };

    fn shape<'a>(&'a self, at: &'a u32) -> Shape<'a, u32> {
        self.store.shape(at)
    }

    fn head<'a>(&'a self, at: &'a u32) -> Top<'a> {
        self.store.head(at)
    }

    fn parts<'a>(&'a self, at: &'a u32) -> Parts<'a, u32> {
        self.store.parts(at)
    }

    fn annos<'a>(&'a self, at: &'a u32) -> Parts<'a, u32> {
        self.store.annos(at)
    }

    fn same(&self, one: &u32, other: &u32) -> bool {
        self.store.same(one, other)
    }

    fn dup(&self, at: &u32) -> Result<u32, AllocError> {
        self.store.dup(at)
    }

    fn int_of(&self, at: &u32) -> Option<i64> {
        self.store.int_of(at)
    }

    fn list_len(&self, at: &u32) -> Option<usize> {
        self.store.list_len(at)
    }

    fn is_app(&self, at: &u32, name: &u32, count: usize) -> bool {
        self.store.is_app(at, name, count)
    }

    fn number(&self, name: &u32) -> usize {
        self.store.number(name)
    }

    fn root_number(&self, at: &u32) -> Option<usize> {
        self.store.root_number(at)
    }

    fn count(&self, at: &u32) -> usize {
        self.store.count(at)
    }

    fn part(&self, at: &u32, index: usize) -> Result<u32, AllocError> {
        self.store.part(at, index)
    }

    fn push_parts(&self, at: &u32, stack: &mut Vec<u32>) -> Result<(), AllocError> {
        self.store.push_parts(at, stack)
    }

    fn push_parts_from(
        &self,
        at: &u32,
        from: usize,
        count: usize,
        stack: &mut Vec<u32>,
    ) -> Result<(), AllocError> {
        self.store.push_parts_from(at, from, count, stack)
    }

    fn push_annos(&self, at: &u32, stack: &mut Vec<u32>) -> Result<(), AllocError> {
        self.store.push_annos(at, stack)
    }

    fn name(&mut self, alloc: Global, symbol: &Sym) -> Result<u32, AllocError> {
        self.store.name(alloc, symbol)
    }

    fn name_spelled(&mut self, alloc: Global, kind: Kind, bytes: &[u8]) -> Result<u32, AllocError> {
        self.store.name_spelled(alloc, kind, bytes)
    }

    fn int(&mut self, alloc: Global, value: i64) -> Result<u32, AllocError> {
        self.store.int(alloc, value)
    }

    fn app(&mut self, alloc: Global, name: &u32, parts: &[u32]) -> Result<Made<u32>, AllocError> {
        self.store.app(alloc, name, parts)
    }

    fn list(&mut self, alloc: Global, elements: &[u32]) -> Result<Made<u32>, AllocError> {
        self.store.list(alloc, elements)
    }

    fn prepend(
        &mut self,
        alloc: Global,
        elements: &[u32],
        tail: &u32,
    ) -> Result<Made<u32>, AllocError> {
        self.store.prepend(alloc, elements, tail)
    }

    fn rest(&mut self, alloc: Global, at: &u32, count: usize) -> Result<u32, AllocError> {
        self.store.rest(alloc, at, count)
    }

    fn rebuild(&mut self, alloc: Global, at: &u32, parts: &[u32]) -> Result<Made<u32>, AllocError> {
        self.store.rebuild(alloc, at, parts)
    }

    fn with_annos(
        &mut self,
        alloc: Global,
        at: &u32,
        annos: &[u32],
    ) -> Result<Made<u32>, AllocError> {
        self.store.with_annos(alloc, at, annos)
    }

    fn like(&mut self, alloc: Global, at: &u32, other: &u32) -> Result<Made<u32>, AllocError> {
        self.store.like(alloc, at, other)
    }

    fn make(
        &mut self,
        alloc: Global,
        head: Head,
        parts: Vec<u32>,
        annos: Vec<u32>,
    ) -> Result<Made<u32>, AllocError>
        requires head { MayHave head parts.items }
        requires parts { All (λ r. IsTrue (⟦<FollowedSpace as TermSpace>⟧.space.stands self.old r))
            parts.items }
        requires annos { All (λ r. IsTrue (⟦<FollowedSpace as TermSpace>⟧.space.stands self.old r))
            annos.items }
        ensures keeps { Keeps ⟦<FollowedSpace as TermSpace>⟧.space self.old self.new }
        ensures made { IfOk result (Makes ⟦<FollowedSpace as TermSpace>⟧.space self.new
            (term head (map (⟦<FollowedSpace as TermSpace>⟧.space.term_of self.old) parts.items)
            (map (⟦<FollowedSpace as TermSpace>⟧.space.term_of self.old) annos.items))) }
    {
        self.store.make(alloc, head, parts, annos)
    }

    fn mark(&self) -> usize {
        self.store.mark()
    }

    fn back_to(&mut self, mark: usize) {
        self.store.back_to(mark);
    }

    fn enter(&mut self, alloc: Global, from: &Term) -> Result<u32, AllocError> {
        self.store.enter(alloc, from)
    }

    fn leave(&self, alloc: Global, at: &u32) -> Result<Term, AllocError> {
        self.store.leave(alloc, at)
    }
}
