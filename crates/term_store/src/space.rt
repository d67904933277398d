//! The store as a space of terms.
ghost use Rattle.std.specs.Prelude.{◌≡◌, ◌<◌, ◌+◌, nat_lt, nat_le, map, All, IsTrue, IfOk, Some};
ghost use Rattle.term_model.specs.Term.{term};
ghost use Rattle.term_model.specs.Results.{Returns};
ghost use Rattle.term_model.specs.Space.{GoesBack, Keeps, Makes, MayHave};
ghost use Rattle.term_store.specs.Places.{small_count};
ghost use Rattle.term_store.specs.Space as stored;
ghost use Rattle.indexmap.specs.IndexSet.{hasher_of};

use crate::chains::Chains;
use crate::extents::Extents;
use crate::oversize::{LastOversize, OversizeTerm};
use crate::shapes::{Shapes, small_integers};
use crate::store::StoreSpace;
use crate::stored::{StoredHead, StoredShape};
use indexmap::IndexSet;
use keyed_hash::HashKeys;
use std::alloc::{AllocError, Global};
use term_model::{Head, Kind, Made, Parts, Shape, Sym, Term, TermSpace, Top};

impl StoreSpace {
    /// A store that holds nothing. Its tables hash with these keys.
    #[tactic(auto, using(crate::proofs::SpaceLemmas::space))]
    pub fn new(alloc: Global, keys: HashKeys) -> StoreSpace
        ensures empty { stored.held_count result ≡ 0 }
        ensures keyed { hasher_of result.symbols ≡ keys }
    {
        let small = small_integers();
        StoreSpace {
            symbols: IndexSet::with_hasher(alloc, keys),
            named: 0,
            chains: Chains::new(alloc, keys),
            shapes: Shapes::new(alloc, keys, small),
            extents: Extents::new(alloc, small),
            spans: Vec::new(alloc),
            oversize: LastOversize::new(),
        }
    }

    /// How many shapes are held: each term that was made or entered, and each part and annotation of it, counts once, but
    /// for the small integers without annotations, of which none is held.
    pub fn len(&self) -> usize
        ensures { result ≡ stored.held_count self.now }
    {
        self.shapes.held()
    }

    /// The size of the last term that did not fit, if there was one. Going back leaves it. No contract speaks of it.
    pub fn oversize_term(&self) -> Option<OversizeTerm> {
        self.oversize.get()
    }
}

/// A reference is a place, and so two references are the same number exactly where their terms are equal. A mark is how
/// many shapes were held. A name is the number of a symbol; it keeps the symbols that came before it, too.
impl TermSpace for StoreSpace {
    ghost use Rattle.term_store.specs.StoredTerms.{stored_terms, stored_fit};

    type Ref = u32;

    type Mark = usize;

    type Name = u32;

    ghost space = { stored_terms };

    ghost fits = { stored_fit };

    #[tactic(auto, using(crate::proofs::LawsOfSpace::reading))]
    fn shape<'a>(&'a self, at: &'a u32) -> Shape<'a, u32> {
        Shape {
            head: self.head(at),
            parts: self.parts(at),
            annos: self.annos(at),
        }
    }

    #[tactic(auto, using(crate::proofs::LawsOfSpace::reading))]
    fn head<'a>(&'a self, at: &'a u32) -> Top<'a> {
        let shape = self.shape_at(*at);
        self.top(shape.head())
    }

    #[tactic(auto, using(crate::proofs::LawsOfSpace::reading))]
    fn parts<'a>(&'a self, at: &'a u32) -> Parts<'a, u32> {
        match self.held_shape(*at) {
            Some(shape) => self.places(shape),
            None => Parts::of_slice(&[]),
        }
    }

    #[tactic(auto, using(crate::proofs::LawsOfSpace::reading))]
    fn annos<'a>(&'a self, at: &'a u32) -> Parts<'a, u32> {
        match self.held_shape(*at) {
            Some(shape) => self.chain_places(shape.annos()),
            None => Parts::of_slice(&[]),
        }
    }

    #[tactic(auto, using(crate::proofs::LawsOfSpace::reading))]
    fn same(&self, one: &u32, other: &u32) -> bool {
        self.is_same(*one, *other)
    }

    /// Returns the reference once more. This never fails, since a reference is a number.
    fn dup(&self, at: &u32) -> Result<u32, AllocError>
        requires { IsTrue (nat_lt at.now (stored.count self.now)) }
        ensures same { Returns result at.now }
        ensures stands { IfOk result (λ r. IsTrue (nat_lt r (stored.count self.now))) }
        ensures term { IfOk result (λ r. stored.term_of self.now r ≡
            stored.term_of self.now at.now) }
        ensures copied { result ≡ Ok at.now }
    {
        Ok(*at)
    }

    #[tactic(auto, using(crate::proofs::LawsOfSpace::reading))]
    fn int_of(&self, at: &u32) -> Option<i64> {
        if let Some(value) = self.shapes.integer(*at) {
            return Some(value);
        }
        match self.shape_at(*at) {
            StoredShape::Int { value, .. } => Some(value),
            StoredShape::Applied { .. } | StoredShape::List { .. } => None,
        }
    }

    #[tactic(auto, using(crate::proofs::LawsOfSpace::reading))]
    fn list_len(&self, at: &u32) -> Option<usize> {
        match self.shape_at(*at) {
            StoredShape::List { parts, .. } => Some(self.len_in(parts)),
            StoredShape::Int { .. } | StoredShape::Applied { .. } => None,
        }
    }

    #[tactic(auto, using(crate::proofs::LawsOfSpace::reading))]
    fn is_app(&self, at: &u32, name: &u32, count: usize) -> bool {
        match self.held_shape(*at) {
            Some(shape) => {
                self.is_symbol(shape.head(), *name) && self.len_in(shape.parts()) == count
            }
            None => false,
        }
    }

    fn number(&self, name: &u32) -> usize {
        *name as usize
    }

    #[tactic(auto, using(crate::proofs::LawsOfSpace::reading))]
    fn root_number(&self, at: &u32) -> Option<usize> {
        match self.held_shape(*at) {
            Some(shape) => self.symbol_number(shape.head()),
            None => None,
        }
    }

    #[tactic(auto, using(crate::proofs::LawsOfSpace::reading))]
    fn count(&self, at: &u32) -> usize {
        match self.held_shape(*at) {
            Some(shape) => self.len_in(shape.parts()),
            None => 0,
        }
    }

    #[tactic(auto, using(crate::proofs::LawsOfSpace::reading))]
    fn part(&self, at: &u32, index: usize) -> Result<u32, AllocError> {
        match self.held_shape(*at) {
            Some(shape) => Ok(*self.place_in(shape, index).unwrap()),
            None => unreachable!(),
        }
    }

    #[tactic(auto, using(crate::proofs::LawsOfSpace::reading))]
    fn push_parts(&self, at: &u32, stack: &mut Vec<u32>) -> Result<(), AllocError> {
        let shape = self.shape_at(*at);
        self.push_block(shape.parts(), stack)
    }

    #[tactic(auto, using(crate::proofs::LawsOfSpace::reading))]
    fn push_parts_from(
        &self,
        at: &u32,
        from: usize,
        count: usize,
        stack: &mut Vec<u32>,
    ) -> Result<(), AllocError> {
        let shape = self.shape_at(*at);
        let parts = self.after(shape.parts(), from);
        self.push_first(parts, count, stack)
    }

    #[tactic(auto, using(crate::proofs::LawsOfSpace::reading))]
    fn push_annos(&self, at: &u32, stack: &mut Vec<u32>) -> Result<(), AllocError> {
        let shape = self.shape_at(*at);
        let annos = self.chains.block(shape.annos());
        self.push_block(annos, stack)
    }

    #[tactic(auto, using(crate::proofs::LawsOfSpace::makes_none))]
    fn name(&mut self, alloc: Global, symbol: &Sym) -> Result<u32, AllocError> {
        let _ = alloc;
        self.name_of(symbol)
    }

    #[tactic(auto, using(crate::proofs::LawsOfSpace::makes_none))]
    fn name_spelled(&mut self, alloc: Global, kind: Kind, bytes: &[u8]) -> Result<u32, AllocError> {
        self.name_of_spelling(alloc, kind, bytes)
    }

    #[tactic(auto, using(crate::proofs::LawsOfSpace::making))]
    fn int(&mut self, alloc: Global, value: i64) -> Result<u32, AllocError> {
        let _ = alloc;
        if let Some(place) = self.shapes.place_of(value) {
            return Ok(place);
        }
        let made = self.make_plain(StoredHead::Int(value), &[])?;
        match made {
            Made::Fits(place) => Ok(place),
            Made::Oversize => unreachable!(),
        }
    }

    #[tactic(auto, using(crate::proofs::LawsOfSpace::making))]
    fn app(&mut self, alloc: Global, name: &u32, parts: &[u32]) -> Result<Made<u32>, AllocError> {
        let _ = alloc;
        self.make_plain(StoredHead::Symbol(*name), parts)
    }

    #[tactic(auto, using(crate::proofs::LawsOfSpace::making))]
    fn list(&mut self, alloc: Global, elements: &[u32]) -> Result<Made<u32>, AllocError> {
        let _ = alloc;
        self.make_plain(StoredHead::List, elements)
    }

    #[tactic(auto, using(crate::proofs::LawsOfSpace::making))]
    fn prepend(
        &mut self,
        alloc: Global,
        elements: &[u32],
        tail: &u32,
    ) -> Result<Made<u32>, AllocError> {
        let _ = alloc;
        let shape = self.shape_at(*tail);
        let Some(parts) = self.before(elements, shape.elements())? else {
            return Ok(Made::Oversize);
        };
        self.intern(StoredShape::List { annos: 0, parts })
    }

    #[tactic(auto, using(crate::proofs::LawsOfSpace::making))]
    fn rest(&mut self, alloc: Global, at: &u32, count: usize) -> Result<u32, AllocError> {
        let _ = alloc;
        let shape = self.shape_at(*at);
        let parts = self.after(shape.elements(), count);
        let made = self.intern(StoredShape::List { annos: 0, parts })?;
        match made {
            Made::Fits(place) => Ok(place),
            Made::Oversize => unreachable!(),
        }
    }

    #[tactic(auto, using(crate::proofs::LawsOfSpace::making))]
    fn rebuild(&mut self, alloc: Global, at: &u32, parts: &[u32]) -> Result<Made<u32>, AllocError> {
        let _ = alloc;
        let shape = self.shape_at(*at);
        if self.are_same(shape.parts(), parts) {
            return Ok(Made::Fits(*at));
        }
        let Some(parts) = self.block_with(parts, shape.parts())? else {
            return Ok(Made::Oversize);
        };
        self.intern(StoredShape::new(shape.head(), parts, shape.annos()))
    }

    #[tactic(auto, using(crate::proofs::LawsOfSpace::making))]
    fn with_annos(
        &mut self,
        alloc: Global,
        at: &u32,
        annos: &[u32],
    ) -> Result<Made<u32>, AllocError> {
        let _ = alloc;
        let shape = self.shape_at(*at);
        let Some(annos) = self.chain_of(annos)? else {
            return Ok(Made::Oversize);
        };
        self.intern(StoredShape::new(shape.head(), shape.parts(), annos))
    }

    #[tactic(auto, using(crate::proofs::LawsOfSpace::making))]
    fn like(&mut self, alloc: Global, at: &u32, other: &u32) -> Result<Made<u32>, AllocError> {
        let _ = alloc;
        let shape = self.shape_at(*at);
        let annos = self.shape_at(*other).annos();
        if shape.annos() == annos {
            return Ok(Made::Fits(*at));
        }
        self.intern(StoredShape::new(shape.head(), shape.parts(), annos))
    }

    #[tactic(auto, using(crate::proofs::LawsOfSpace::making))]
    fn make(
        &mut self,
        alloc: Global,
        head: Head,
        parts: Vec<u32>,
        annos: Vec<u32>,
    ) -> Result<Made<u32>, AllocError>
        requires head { MayHave head parts.items }
        requires parts { All (λ r. IsTrue (nat_lt r (stored.count self.old))) parts.items }
        requires annos { All (λ r. IsTrue (nat_lt r (stored.count self.old))) annos.items }
        ensures keeps { Keeps ⟦<StoreSpace as TermSpace>⟧.space self.old self.new }
        ensures made { IfOk result
            (Makes ⟦<StoreSpace as TermSpace>⟧.space self.new
            (term head (map (stored.term_of self.old) parts.items)
            (map (stored.term_of self.old) annos.items))) }
    {
        let _ = alloc;
        let head = self.stored_head(&head)?;
        self.make_over(head, &parts, &annos)
    }

    #[tactic(auto, using(crate::proofs::LawsOfSpace::marking))]
    fn mark(&self) -> usize {
        self.shapes.held()
    }

    /// Gives back the shapes that came after the mark, with the chains and symbols that came with them.
    #[tactic(auto, using(crate::proofs::LawsOfSpace::marking))]
    fn back_to(&mut self, mark: usize)
        requires { IsTrue (nat_le mark (stored.held_count self.old)) }
        ensures back { GoesBack ⟦<StoreSpace as TermSpace>⟧.space self.old mark self.new }
        ensures given_back { mark < stored.held_count self.old →
            stored.GoesBack self.old self.new (small_count + mark) }
        ensures unchanged { mark ≡ stored.held_count self.old → self.new ≡ self.old }
    {
        if mark < self.shapes.held() {
            self.cut(small_integers() as usize + mark);
        }
    }

    #[tactic(auto, using(crate::proofs::LawsOfSpace::making))]
    fn enter(&mut self, alloc: Global, from: &Term) -> Result<u32, AllocError> {
        self.bring_in(alloc, from)
    }

    #[tactic(auto, using(crate::proofs::LawsOfSpace::reading))]
    fn leave(&self, alloc: Global, at: &u32) -> Result<Term, AllocError> {
        self.take_out(alloc, *at)
    }
}
