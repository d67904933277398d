//! Bringing terms in.
ghost use Rattle.std.specs.Prelude.{◌≡◌, ◌<◌, IfOk, OnOk};
ghost use Rattle.term_store.specs.Space.{count, term_of, Keeps};
ghost use Rattle.term_store.specs.Entering.{PutsOn};

use crate::store::StoreSpace;
use std::alloc::{AllocError, Global};
use term_model::{Made, Term};

impl StoreSpace {
    /// The place of a term that is brought in.
    pub(crate) fn bring_in(&mut self, alloc: Global, from: &Term) -> Result<u32, AllocError>
        ensures keeps { Keeps self.old self.new }
        ensures stands { IfOk result (λ k. k < count self.new) }
        ensures term { IfOk result (λ k. term_of self.new k ≡ from.now) }
    {
        let mut stack = Vec::new(alloc);
        self.enter_term(from, &mut stack)
    }

    /// The place of a term that is brought in. The stack, for the places of its parts and annotations, is as it was in the end.
    #[cycle(enter)]
    #[tactic(auto, using(crate::proofs::EnteringLemmas::entering))]
    fn enter_term(&mut self, from: &Term, stack: &mut Vec<u32>) -> Result<u32, AllocError>
        ensures keeps { Keeps self.old self.new }
        ensures stands { IfOk result (λ k. k < count self.new) }
        ensures term { IfOk result (λ k. term_of self.new k ≡ from.now) }
        ensures stack { OnOk result (stack.new.items ≡ stack.old.items) }
    {
        let bottom = stack.len();
        self.enter_all(from.children(), stack)?;
        let middle = stack.len();
        self.enter_all(from.annos(), stack)?;
        let head = self.stored_head(from.head())?;
        from.fits();
        let made = self.make_over(head, &stack[bottom..middle], &stack[middle..])?;
        stack.truncate(bottom);
        match made {
            Made::Fits(place) => Ok(place),
            Made::Oversize => unreachable!(),
        }
    }

    /// Brings the terms in, and puts their places on the stack.
    #[cycle(enter)]
    #[tactic(auto, using(crate::proofs::EnteringLemmas::entering))]
    fn enter_all(&mut self, terms: &[Term], stack: &mut Vec<u32>) -> Result<(), AllocError>
        ensures keeps { Keeps self.old self.new }
        ensures puts { OnOk result (PutsOn self.new terms.now stack.old.items stack.new.items) }
    {
        for term in terms {
            let place = self.enter_term(term, stack)?;
            stack.push(place)?;
        }
        Ok(())
    }
}
