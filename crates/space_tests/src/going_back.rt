//! Runs of the machine that go back, over a store that counts it; what is expected was worked out by hand.
ghost use Rattle.std.specs.Prelude.{All, map, IsTrue, IfOk};
ghost use Rattle.term_model.specs.Term.{term};
ghost use Rattle.term_model.specs.Space.{Keeps, Makes, MayHave, space_in};

use crate::single_calls::code_of;
use crate::spaces::Holds;
use aterm_text::{read_term, write_term};
use core_lang::Outcome;
use keyed_hash::HashKeys;
use prim_registry::{Registry, Standard};
use std::alloc::{AllocError, Global};
use std::test::Fail;
use strat_code::Code;
use strat_machine::Machine;
use term_model::{Head, Kind, Made, Parts, Shape, Sym, Term, TermSpace, Top};
use term_store::StoreSpace;

/// Definitions and a term; what the run writes, which is nothing where it fails, and by how many rules; how many shapes the
/// store holds then, and whether it went back once alone.
const ROWS: &[(&[u8], &[u8], &[u8], u32, usize, bool)] = &[
    (
        b"signature constructors A : T -> T B : T strategies main = (!A(B()); fail) <+ id",
        b"1",
        b"1",
        6,
        0,
        true,
    ),
    (
        b"signature constructors A : T -> T B : T strategies main = some(!A(B()); fail)",
        b"[1,2]",
        b"",
        8,
        1,
        false,
    ),
];

/// A space that counts how often it goes back.
#[derive(Drop)]
struct Counting<S> {
    space: S,
    back: u32,
}

impl<S: TermSpace + Drop> TermSpace for Counting<S> {
    type Ref = S::Ref;

    type Mark = S::Mark;

    type Name = S::Name;

    ghost space = { space_in (λ c. c.space) S.space };

    ghost fits = { λ c r stands. S.fits c.space r stands };

    fn shape<'a>(&'a self, at: &'a S::Ref) -> Shape<'a, S::Ref> {
        self.space.shape(at)
    }

    fn head<'a>(&'a self, at: &'a S::Ref) -> Top<'a> {
        self.space.head(at)
    }

    fn parts<'a>(&'a self, at: &'a S::Ref) -> Parts<'a, S::Ref> {
        self.space.parts(at)
    }

    fn annos<'a>(&'a self, at: &'a S::Ref) -> Parts<'a, S::Ref> {
        self.space.annos(at)
    }

    fn same(&self, one: &S::Ref, other: &S::Ref) -> bool {
        self.space.same(one, other)
    }

    fn dup(&self, at: &S::Ref) -> Result<S::Ref, AllocError> {
        self.space.dup(at)
    }

    fn int_of(&self, at: &S::Ref) -> Option<i64> {
        self.space.int_of(at)
    }

    fn list_len(&self, at: &S::Ref) -> Option<usize> {
        self.space.list_len(at)
    }

    fn is_app(&self, at: &S::Ref, name: &S::Name, count: usize) -> bool {
        self.space.is_app(at, name, count)
    }

    fn number(&self, name: &S::Name) -> usize {
        self.space.number(name)
    }

    fn root_number(&self, at: &S::Ref) -> Option<usize> {
        self.space.root_number(at)
    }

    fn count(&self, at: &S::Ref) -> usize {
        self.space.count(at)
    }

    fn part(&self, at: &S::Ref, index: usize) -> Result<S::Ref, AllocError> {
        self.space.part(at, index)
    }

    fn push_parts(&self, at: &S::Ref, stack: &mut Vec<S::Ref>) -> Result<(), AllocError> {
        self.space.push_parts(at, stack)
    }

    fn push_parts_from(
        &self,
        at: &S::Ref,
        from: usize,
        count: usize,
        stack: &mut Vec<S::Ref>,
    ) -> Result<(), AllocError> {
        self.space.push_parts_from(at, from, count, stack)
    }

    fn push_annos(&self, at: &S::Ref, stack: &mut Vec<S::Ref>) -> Result<(), AllocError> {
        self.space.push_annos(at, stack)
    }

    fn name(&mut self, alloc: Global, symbol: &Sym) -> Result<S::Name, AllocError> {
        self.space.name(alloc, symbol)
    }

    fn name_spelled(
        &mut self,
        alloc: Global,
        kind: Kind,
        bytes: &[u8],
    ) -> Result<S::Name, AllocError> {
        self.space.name_spelled(alloc, kind, bytes)
    }

    fn int(&mut self, alloc: Global, value: i64) -> Result<S::Ref, AllocError> {
        self.space.int(alloc, value)
    }

    fn app(
        &mut self,
        alloc: Global,
        name: &S::Name,
        parts: &[S::Ref],
    ) -> Result<Made<S::Ref>, AllocError> {
        self.space.app(alloc, name, parts)
    }

    fn list(&mut self, alloc: Global, elements: &[S::Ref]) -> Result<Made<S::Ref>, AllocError> {
        self.space.list(alloc, elements)
    }

    fn prepend(
        &mut self,
        alloc: Global,
        elements: &[S::Ref],
        tail: &S::Ref,
    ) -> Result<Made<S::Ref>, AllocError> {
        self.space.prepend(alloc, elements, tail)
    }

    fn rest(&mut self, alloc: Global, at: &S::Ref, count: usize) -> Result<S::Ref, AllocError> {
        self.space.rest(alloc, at, count)
    }

    fn rebuild(
        &mut self,
        alloc: Global,
        at: &S::Ref,
        parts: &[S::Ref],
    ) -> Result<Made<S::Ref>, AllocError> {
        self.space.rebuild(alloc, at, parts)
    }

    fn with_annos(
        &mut self,
        alloc: Global,
        at: &S::Ref,
        annos: &[S::Ref],
    ) -> Result<Made<S::Ref>, AllocError> {
        self.space.with_annos(alloc, at, annos)
    }

    fn like(
        &mut self,
        alloc: Global,
        at: &S::Ref,
        other: &S::Ref,
    ) -> Result<Made<S::Ref>, AllocError> {
        self.space.like(alloc, at, other)
    }

    fn make(
        &mut self,
        alloc: Global,
        head: Head,
        parts: Vec<S::Ref>,
        annos: Vec<S::Ref>,
    ) -> Result<Made<S::Ref>, AllocError>
        requires head { MayHave head parts.items }
        requires parts { All (λ r. IsTrue (S.space.stands self.old.space r)) parts.items }
        requires annos { All (λ r. IsTrue (S.space.stands self.old.space r)) annos.items }
        ensures keeps { Keeps ⟦<Counting<S> as TermSpace>⟧.space self.old self.new }
        ensures made { IfOk result
            (Makes ⟦<Counting<S> as TermSpace>⟧.space self.new
            (term head (map (S.space.term_of self.old.space) parts.items)
            (map (S.space.term_of self.old.space) annos.items))) }
    {
        self.space.make(alloc, head, parts, annos)
    }

    fn mark(&self) -> S::Mark {
        self.space.mark()
    }

    fn back_to(&mut self, mark: S::Mark) {
        self.back = self.back.saturating_add(1);
        self.space.back_to(mark);
    }

    fn enter(&mut self, alloc: Global, from: &Term) -> Result<S::Ref, AllocError> {
        self.space.enter(alloc, from)
    }

    fn leave(&self, alloc: Global, at: &S::Ref) -> Result<Term, AllocError> {
        self.space.leave(alloc, at)
    }
}

/// What a run comes to: what it writes, which is nothing where it fails; how many rules it takes; how many shapes the space holds then, and
/// how often it went back.
#[derive(Drop)]
pub(crate) struct Seen {
    pub(crate) written: Vec<u8>,
    pub(crate) rules: u64,
    pub(crate) held: usize,
    pub(crate) back: u32,
}

/// Runs the code on the term, and writes what it is rewritten to; nothing where it fails.
fn run<S: TermSpace + Drop>(
    alloc: Global,
    machine: &mut Machine<S>,
    code: &Code,
    term: &Term,
) -> Result<(Vec<u8>, u64), Fail> {
    let registry = Registry::<Standard>::new(alloc);
    if !registry.covers(code.prims()) {
        return Err(Fail::new("a primitive"));
    }
    let entered = machine.enter(term)?;
    let run = machine.run(code, entered, 100, &registry)?;
    let mut written = Vec::new(alloc);
    match &run.outcome {
        Outcome::Rewritten(found) => write_term(&machine.leave(found)?, &mut written)?,
        Outcome::Failed => {}
        _ => return Err(Fail::new("another ending")),
    }
    Ok((written, run.rules))
}

/// Runs the code on the term over the space, whose times back are counted.
fn run_over<S: TermSpace + Holds + Drop>(
    alloc: Global,
    space: S,
    code: &Code,
    term: &Term,
) -> Result<Seen, Fail> {
    let mut machine = Machine::new(alloc, Counting { space, back: 0 });
    let (written, rules) = run(alloc, &mut machine, code, term)?;
    let counting = machine.space();
    Ok(Seen {
        written,
        rules,
        held: counting.space.held(),
        back: counting.back,
    })
}

/// Runs the definitions on the term over a store.
pub(crate) fn run_in_store(alloc: Global, definitions: &[u8], text: &[u8]) -> Result<Seen, Fail> {
    let code = code_of(alloc, definitions)?;
    let term = read_term(alloc, text)?;
    let space = StoreSpace::new(alloc, HashKeys::known());
    run_over(alloc, space, &code, &term)
}

#[test]
fn gives_back(rt: HostRuntime) -> Result<(), Fail> {
    for (definitions, text, wanted, rules, held, once) in ROWS {
        let seen = run_in_store(rt.alloc(), definitions, text)?;
        if &seen.written[..] != *wanted || seen.rules != u64::from(*rules) {
            return Err(Fail::new("another outcome"));
        }
        if seen.held != *held || seen.back == 0 || (seen.back == 1) != *once {
            return Err(Fail::new("another number of shapes, or of times back"));
        }
    }
    Ok(())
}
