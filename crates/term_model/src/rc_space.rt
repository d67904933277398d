//! The space of terms themselves: they are shared, so that a reference is a term.
ghost use Rattle.std.specs.Prelude.{◌≡◌, ◌↔◌, ◌<◌, ◌≤◌, ◌++◌, All, map, drop, true, IfOk, IsTrue, Some, OnOk, OnErr, [], length};
ghost use Rattle.term_model.specs.Term.{term};
ghost use Rattle.term_model.specs.TermParts.{head_of, parts_of, annos_of};
ghost use Rattle.term_model.specs.declared.term.Head.TheVariants as heads;
ghost use Rattle.term_model.specs.Space.{Keeps, Makes, MayHave};
ghost use Rattle.term_model.specs.Symbol.{bytes_of};

use crate::made::Made;
use crate::parts::{Parts, Shape, Top};
use crate::space::TermSpace;
use crate::symbol::{Kind, Sym};
use crate::term::{Head, Term};
use std::alloc::{AllocError, Global};

/// The space in which a reference is a term: every reference stands, and going back changes nothing.
#[derive(Drop)]
pub struct RcSpace;

impl TermSpace for RcSpace {
    ghost use Rattle.term_model.specs.SharedTerms.{shared_terms, shared_fit};

    type Ref = Term;

    type Mark = ();

    type Name = Sym;

    ghost space = { shared_terms };

    ghost fits = { shared_fit };

    #[tactic(auto, using(crate::proofs::SpaceLemmas::standing))]
    fn shape<'a>(&'a self, at: &'a Term) -> Shape<'a, Term> {
        Shape {
            head: self.head(at),
            parts: self.parts(at),
            annos: self.annos(at),
        }
    }

    fn head<'a>(&'a self, at: &'a Term) -> Top<'a> {
        match at.head() {
            Head::Int(value) => Top::Int(*value),
            Head::App(symbol) => Top::App(symbol),
            Head::List => Top::List,
        }
    }

    #[tactic(auto, using(crate::proofs::SpaceLemmas::standing))]
    fn parts<'a>(&'a self, at: &'a Term) -> Parts<'a, Term> {
        Parts::of_slice(at.children())
    }

    #[tactic(auto, using(crate::proofs::SpaceLemmas::standing))]
    fn annos<'a>(&'a self, at: &'a Term) -> Parts<'a, Term> {
        Parts::of_slice(at.annos())
    }

    fn same(&self, one: &Term, other: &Term) -> bool {
        *one == *other
    }

    fn dup(&self, at: &Term) -> Result<Term, AllocError> {
        at.clone()
    }

    fn int_of(&self, at: &Term) -> Option<i64> {
        match at.head() {
            Head::Int(value) => Some(*value),
            Head::App(_) | Head::List => None,
        }
    }

    fn list_len(&self, at: &Term) -> Option<usize> {
        match at.head() {
            Head::List => Some(at.children().len()),
            Head::Int(_) | Head::App(_) => None,
        }
    }

    fn is_app(&self, at: &Term, name: &Sym, count: usize) -> bool {
        match at.head() {
            Head::App(symbol) => *symbol == *name && at.children().len() == count,
            Head::Int(_) | Head::List => false,
        }
    }

    fn number(&self, name: &Sym) -> usize {
        name.bytes().len()
    }

    fn root_number(&self, at: &Term) -> Option<usize> {
        match at.head() {
            Head::App(symbol) => Some(symbol.bytes().len()),
            Head::Int(_) | Head::List => None,
        }
    }

    fn count(&self, at: &Term) -> usize {
        at.children().len()
    }

    #[tactic(auto, using(crate::proofs::SpaceLemmas::standing))]
    fn part(&self, at: &Term, index: usize) -> Result<Term, AllocError> {
        at.children()[index].clone()
    }

    #[tactic(auto, using(crate::proofs::SpaceLemmas::standing))]
    fn push_parts(&self, at: &Term, stack: &mut Vec<Term>) -> Result<(), AllocError> {
        push_all(stack, at.children())
    }

    #[tactic(auto, using(crate::proofs::SpaceLemmas::standing))]
    fn push_parts_from(
        &self,
        at: &Term,
        from: usize,
        count: usize,
        stack: &mut Vec<Term>,
    ) -> Result<(), AllocError> {
        push_all(stack, &at.children()[from..from + count])
    }

    #[tactic(auto, using(crate::proofs::SpaceLemmas::standing))]
    fn push_annos(&self, at: &Term, stack: &mut Vec<Term>) -> Result<(), AllocError> {
        push_all(stack, at.annos())
    }

    fn name(&mut self, alloc: Global, symbol: &Sym) -> Result<Sym, AllocError> {
        let _ = alloc;
        symbol.clone()
    }

    fn name_spelled(&mut self, alloc: Global, kind: Kind, bytes: &[u8]) -> Result<Sym, AllocError> {
        Sym::of_spelling(alloc, kind, bytes)
    }

    #[tactic(auto, using(crate::proofs::SpaceLemmas::standing))]
    fn int(&mut self, alloc: Global, value: i64) -> Result<Term, AllocError> {
        Term::int(alloc, value)
    }

    #[tactic(auto, using(crate::proofs::SpaceLemmas::standing))]
    fn app(&mut self, alloc: Global, name: &Sym, parts: &[Term]) -> Result<Made<Term>, AllocError> {
        let symbol = name.clone()?;
        let parts = Vec::from_clones(alloc, parts)?;
        Term::app(alloc, symbol, parts)
    }

    #[tactic(auto, using(crate::proofs::SpaceLemmas::standing))]
    fn list(&mut self, alloc: Global, elements: &[Term]) -> Result<Made<Term>, AllocError> {
        let elements = Vec::from_clones(alloc, elements)?;
        Term::list(alloc, elements)
    }

    #[tactic(auto, using(crate::proofs::SpaceLemmas::standing))]
    fn prepend(
        &mut self,
        alloc: Global,
        elements: &[Term],
        tail: &Term,
    ) -> Result<Made<Term>, AllocError> {
        let others = tail.children();
        let mut all = Vec::with_capacity(alloc, elements.len() + others.len())?;
        push_all(&mut all, elements)?;
        push_all(&mut all, others)?;
        Term::list(alloc, all)
    }

    #[tactic(auto, using(crate::proofs::SpaceLemmas::standing))]
    fn rest(&mut self, alloc: Global, at: &Term, count: usize) -> Result<Term, AllocError> {
        let elements = Vec::from_clones(alloc, &at.children()[count..])?;
        let made = Term::list(alloc, elements)?;
        match made {
            Made::Fits(list) => Ok(list),
            Made::Oversize => unreachable!(),
        }
    }

    #[tactic(auto, using(crate::proofs::SpaceLemmas::standing, crate::proofs::SpaceLemmas::made_again))]
    fn rebuild(
        &mut self,
        alloc: Global,
        at: &Term,
        parts: &[Term],
    ) -> Result<Made<Term>, AllocError> {
        let own = at.children();
        let mut all = Vec::with_capacity(alloc, own.len())?;
        push_all(&mut all, parts)?;
        push_all(&mut all, &own[parts.len()..])?;
        at.rebuild(alloc, all)
    }

    #[tactic(auto, using(crate::proofs::SpaceLemmas::standing))]
    fn with_annos(
        &mut self,
        alloc: Global,
        at: &Term,
        annos: &[Term],
    ) -> Result<Made<Term>, AllocError> {
        let annos = Vec::from_clones(alloc, annos)?;
        at.with_annos(alloc, annos)
    }

    #[tactic(auto, using(crate::proofs::SpaceLemmas::standing))]
    fn like(&mut self, alloc: Global, at: &Term, other: &Term) -> Result<Made<Term>, AllocError> {
        let annos = Vec::from_clones(alloc, other.annos())?;
        at.with_annos(alloc, annos)
    }

    #[tactic(auto, using(crate::proofs::SpaceLemmas::standing))]
    fn make(
        &mut self,
        alloc: Global,
        head: Head,
        parts: Vec<Term>,
        annos: Vec<Term>,
    ) -> Result<Made<Term>, AllocError>
        requires head { MayHave head parts.items }
        ensures keeps { Keeps ⟦<RcSpace as TermSpace>⟧.space self.old self.new }
        ensures made { IfOk result
            (Makes ⟦<RcSpace as TermSpace>⟧.space self.new (term head parts.items annos.items)) }
    {
        Term::new(alloc, head, parts, annos)
    }

    fn mark(&self) -> () {}

    fn back_to(&mut self, mark: ()) {
        let () = mark;
    }

    #[tactic(auto, using(crate::proofs::SpaceLemmas::standing))]
    fn enter(&mut self, alloc: Global, from: &Term) -> Result<Term, AllocError> {
        let _ = alloc;
        from.fits();
        from.clone()
    }

    fn leave(&self, alloc: Global, at: &Term) -> Result<Term, AllocError> {
        let _ = alloc;
        at.clone()
    }
}

/// Puts the terms on the stack, which is as it was where that fails.
#[tactic(auto, using(crate::proofs::SpaceLemmas::appended))]
fn push_all(stack: &mut Vec<Term>, terms: &[Term]) -> Result<(), AllocError>
    ensures pushed { OnOk result (stack.new.items ≡ stack.old.items ++ terms.now) }
    ensures err { OnErr result (stack.new.items ≡ stack.old.items) }
{
    stack.extend_with_clones(terms)
}
