//! Spaces: where the terms of a run are kept, each under a reference.
ghost use Rattle.std.specs.Prelude.{◌≡◌, ◌↔◌, ◌<◌, ◌≤◌, All, map, take, drop, ◌++◌, ◌+◌, length, IfOk, IsTrue, MatchOption, [], slice_get, Some, OnOk, OnErr};
ghost use Rattle.term_model.specs.SymbolKinds.{symbol_spelled, IsSpelling};
ghost use Rattle.term_model.specs.Term.{term, Fits};
ghost use Rattle.term_model.specs.TermParts.{head_of, parts_of, annos_of};
ghost use Rattle.term_model.specs.declared.term.Head.TheVariants as heads;
ghost use Rattle.term_model.specs.declared.made.Made.TheVariants as made;
ghost use Rattle.term_model.specs.Space.{Space, Keeps, MakesNone, GoesBack, IsMark, Makes, Pushes, IsApplied, IsList, MayHave, IsTop};
ghost use Rattle.term_model.specs.Results.{Returns};

use crate::made::Made;
use crate::parts::{Parts, Shape, Top};
use crate::symbol::{Kind, Sym};
use crate::term::{Head, Term};
use std::alloc::{AllocError, Global};

/// Where terms are kept, each under a reference. A reference stands from when it is made until the space goes back to a
/// mark that was taken before; a mark is valid so long as what stood when it was taken stands.
///
/// A call that makes a term leaves each reference that stood with its term, each valid mark valid and each name known,
/// also where it returns `AllocError`, and then the space may hold more than before. `AllocError` is returned where there
/// is no memory, or where something that is shared has 2^64 - 1 owners.
pub trait TermSpace {
    /// Stands for a term.
    type Ref: Drop;

    /// A point in the making of terms, to go back to.
    type Mark: Drop;

    /// Stands for a symbol, for as long as the space is there.
    type Name: Drop;

    // What stands, what marks cover and which names are known.
    ghost space: { Space Self Self.Ref Self.Mark Self.Name };

    // The term of a reference that stands fits.
    ghost fits: { (s : Self) (r : Self.Ref) → IsTrue (space.stands s r) →
        Fits (space.term_of s r) };

    /// The term's head, parts and annotations, lent.
    fn shape<'a>(&'a self, at: &'a Self::Ref) -> Shape<'a, Self::Ref>
        requires { IsTrue (space.stands self.now at.now) }
        ensures head { IsTop result.head (head_of (space.term_of self.now at.now)) }
        ensures parts_stand { All (λ r. IsTrue (space.stands self.now r)) result.parts }
        ensures annos_stand { All (λ r. IsTrue (space.stands self.now r)) result.annos }
        ensures parts { map (space.term_of self.now) result.parts ≡
            parts_of (space.term_of self.now at.now) }
        ensures annos { map (space.term_of self.now) result.annos ≡
            annos_of (space.term_of self.now at.now) };

    /// What the term is, but for its parts and annotations.
    fn head<'a>(&'a self, at: &'a Self::Ref) -> Top<'a>
        requires { IsTrue (space.stands self.now at.now) }
        ensures { IsTop result (head_of (space.term_of self.now at.now)) };

    /// The term's parts, lent.
    fn parts<'a>(&'a self, at: &'a Self::Ref) -> Parts<'a, Self::Ref>
        requires { IsTrue (space.stands self.now at.now) }
        ensures stand { All (λ r. IsTrue (space.stands self.now r)) result }
        ensures parts { map (space.term_of self.now) result ≡
            parts_of (space.term_of self.now at.now) };

    /// The term's annotations, lent.
    fn annos<'a>(&'a self, at: &'a Self::Ref) -> Parts<'a, Self::Ref>
        requires { IsTrue (space.stands self.now at.now) }
        ensures stand { All (λ r. IsTrue (space.stands self.now r)) result }
        ensures annos { map (space.term_of self.now) result ≡
            annos_of (space.term_of self.now at.now) };

    /// Whether two references have the same term.
    fn same(&self, one: &Self::Ref, other: &Self::Ref) -> bool
        requires one { IsTrue (space.stands self.now one.now) }
        requires other { IsTrue (space.stands self.now other.now) }
        ensures { IsTrue result ↔ (space.term_of self.now one.now ≡
            space.term_of self.now other.now) };

    /// The reference once more.
    fn dup(&self, at: &Self::Ref) -> Result<Self::Ref, AllocError>
        requires { IsTrue (space.stands self.now at.now) }
        ensures same { Returns result at.now }
        ensures stands { IfOk result (λ r. IsTrue (space.stands self.now r)) }
        ensures term { IfOk result (λ r. space.term_of self.now r ≡
            space.term_of self.now at.now) };

    /// The integer that the term is, whatever its annotations.
    fn int_of(&self, at: &Self::Ref) -> Option<i64>
        requires { IsTrue (space.stands self.now at.now) }
        ensures { MatchOption result ((z : _) →
            head_of (space.term_of self.now at.now) ≡ heads.Int z →
            ⊥) (λ z. head_of (space.term_of self.now at.now) ≡ heads.Int z) };

    /// How many elements the list has that the term is, whatever its annotations.
    fn list_len(&self, at: &Self::Ref) -> Option<usize>
        requires { IsTrue (space.stands self.now at.now) }
        ensures { MatchOption result (head_of (space.term_of self.now at.now) ≡ heads.List →
            ⊥) (λ n. IsList (space.term_of self.now at.now) n) };

    /// Whether the term is the symbol of the name applied to `count` parts, whatever its annotations.
    fn is_app(&self, at: &Self::Ref, name: &Self::Name, count: usize) -> bool
        requires stands { IsTrue (space.stands self.now at.now) }
        requires known { IsTrue (space.knows self.now name.now) }
        ensures { IsTrue result ↔ IsApplied (space.term_of self.now at.now)
            (space.symbol_of self.now name.now) count };

    /// The number of the name, by which a table finds what it has for the name. Several names may have one number.
    fn number(&self, name: &Self::Name) -> usize
        requires { IsTrue (space.knows self.now name.now) }
        ensures { result ≡ space.number_of name.now };

    /// The number of the term's symbol, if it has one: that of each name of the symbol.
    fn root_number(&self, at: &Self::Ref) -> Option<usize>
        requires { IsTrue (space.stands self.now at.now) }
        ensures { (n : Self.Name) → IsTrue (space.knows self.now n) →
            head_of (space.term_of self.now at.now) ≡ heads.App (space.symbol_of self.now n) →
            result ≡ Some (space.number_of n) };

    /// How many parts the term has.
    fn count(&self, at: &Self::Ref) -> usize
        requires { IsTrue (space.stands self.now at.now) }
        ensures { result ≡ length (parts_of (space.term_of self.now at.now)) };

    /// The part at an index.
    fn part(&self, at: &Self::Ref, index: usize) -> Result<Self::Ref, AllocError>
        requires stands { IsTrue (space.stands self.now at.now) }
        requires within { index < length (parts_of (space.term_of self.now at.now)) }
        ensures stands { IfOk result (λ r. IsTrue (space.stands self.now r)) }
        ensures term { IfOk result
            (λ r. slice_get (parts_of (space.term_of self.now at.now)) index ≡
            Some (space.term_of self.now r)) };

    /// Puts the parts on a stack, the first one first. The stack is as it was where there is no memory.
    fn push_parts(&self, at: &Self::Ref, stack: &mut Vec<Self::Ref>) -> Result<(), AllocError>
        requires { IsTrue (space.stands self.now at.now) }
        ensures pushed { OnOk result
            (Pushes space self.now (parts_of (space.term_of self.now at.now))
            stack.old.items stack.new.items) }
        ensures err { OnErr result (stack.new.items ≡ stack.old.items) };

    /// Puts `count` parts on a stack, those from the index `from` on, the first one first. The stack is as it was where
    /// there is no memory.
    fn push_parts_from(
        &self,
        at: &Self::Ref,
        from: usize,
        count: usize,
        stack: &mut Vec<Self::Ref>,
    ) -> Result<(), AllocError>
        requires stands { IsTrue (space.stands self.now at.now) }
        requires within { from + count ≤ length (parts_of (space.term_of self.now at.now)) }
        ensures pushed { OnOk result
            (Pushes space self.now
            (take count (drop from (parts_of (space.term_of self.now at.now))))
            stack.old.items stack.new.items) }
        ensures err { OnErr result (stack.new.items ≡ stack.old.items) };

    /// Puts the annotations on a stack, the first one first. The stack is as it was where there is no memory.
    fn push_annos(&self, at: &Self::Ref, stack: &mut Vec<Self::Ref>) -> Result<(), AllocError>
        requires { IsTrue (space.stands self.now at.now) }
        ensures pushed { OnOk result
            (Pushes space self.now (annos_of (space.term_of self.now at.now))
            stack.old.items stack.new.items) }
        ensures err { OnErr result (stack.new.items ≡ stack.old.items) };

    /// The name of a symbol. It is known for as long as the space is there, whatever the space goes back to. No term is
    /// made: exactly what stood stands, also where `AllocError` is returned.
    fn name(&mut self, alloc: Global, symbol: &Sym) -> Result<Self::Name, AllocError>
        ensures keeps { Keeps space self.old self.new }
        ensures known { IfOk result (λ n. IsTrue (space.knows self.new n)) }
        ensures symbol { IfOk result (λ n. space.symbol_of self.new n ≡ symbol.now) }
        ensures none { MakesNone space self.old self.new };

    /// The name of the symbol of this kind and these bytes: a plain name, a quoted text without escapes, or, with no
    /// bytes, the symbol of tuples. It is known for as long as the space is there. No term is made, as for `name`.
    fn name_spelled(
        &mut self,
        alloc: Global,
        kind: Kind,
        bytes: &[u8],
    ) -> Result<Self::Name, AllocError>
        requires { IsSpelling kind bytes.now }
        ensures keeps { Keeps space self.old self.new }
        ensures known { IfOk result (λ n. IsTrue (space.knows self.new n)) }
        ensures symbol { IfOk result (λ n. space.symbol_of self.new n ≡
            symbol_spelled kind bytes.now) }
        ensures none { MakesNone space self.old self.new };

    /// The integer, with no annotations.
    fn int(&mut self, alloc: Global, value: i64) -> Result<Self::Ref, AllocError>
        ensures keeps { Keeps space self.old self.new }
        ensures stands { IfOk result (λ r. IsTrue (space.stands self.new r)) }
        ensures term { IfOk result (λ r. space.term_of self.new r ≡ term (heads.Int value) [] []) };

    /// The symbol of the name applied to the parts, with no annotations; `Oversize` exactly where that term does not fit.
    fn app(
        &mut self,
        alloc: Global,
        name: &Self::Name,
        parts: &[Self::Ref],
    ) -> Result<Made<Self::Ref>, AllocError>
        requires known { IsTrue (space.knows self.old name.now) }
        requires stand { All (λ r. IsTrue (space.stands self.old r)) parts.now }
        ensures keeps { Keeps space self.old self.new }
        ensures made { IfOk result
            (Makes space self.new
            (term (heads.App (space.symbol_of self.old name.now))
            (map (space.term_of self.old) parts.now) [])) };

    /// The list of the elements, with no annotations; `Oversize` exactly where that term does not fit.
    fn list(&mut self, alloc: Global, elements: &[Self::Ref]) -> Result<Made<Self::Ref>, AllocError>
        requires stand { All (λ r. IsTrue (space.stands self.old r)) elements.now }
        ensures keeps { Keeps space self.old self.new }
        ensures made { IfOk result
            (Makes space self.new (term heads.List (map
            (space.term_of self.old) elements.now) [])) };

    /// The list of these elements and then those of the tail, with no annotations; `Oversize` exactly where that term
    /// does not fit.
    fn prepend(
        &mut self,
        alloc: Global,
        elements: &[Self::Ref],
        tail: &Self::Ref,
    ) -> Result<Made<Self::Ref>, AllocError>
        requires stand { All (λ r. IsTrue (space.stands self.old r)) elements.now }
        requires stands { IsTrue (space.stands self.old tail.now) }
        requires list { head_of (space.term_of self.old tail.now) ≡ heads.List }
        ensures keeps { Keeps space self.old self.new }
        ensures made { IfOk result
            (Makes space self.new
            (term heads.List (map (space.term_of self.old) elements.now ++
            parts_of (space.term_of self.old tail.now)) [])) };

    /// The list without its first `count` elements, with no annotations. It fits, as the list does.
    fn rest(&mut self, alloc: Global, at: &Self::Ref, count: usize) -> Result<Self::Ref, AllocError>
        requires stands { IsTrue (space.stands self.old at.now) }
        requires list { head_of (space.term_of self.old at.now) ≡ heads.List }
        requires count { count ≤ length (parts_of (space.term_of self.old at.now)) }
        ensures keeps { Keeps space self.old self.new }
        ensures stands { IfOk result (λ r. IsTrue (space.stands self.new r)) }
        ensures term { IfOk result (λ r. space.term_of self.new r ≡
            term heads.List (drop count (parts_of (space.term_of self.old at.now))) []) };

    /// The term with these parts in place of its first ones, of which it has at least as many; the others stay.
    /// `Oversize` exactly where that term does not fit. The same reference where the parts are all of the term's own.
    fn rebuild(
        &mut self,
        alloc: Global,
        at: &Self::Ref,
        parts: &[Self::Ref],
    ) -> Result<Made<Self::Ref>, AllocError>
        requires stands { IsTrue (space.stands self.old at.now) }
        requires stand { All (λ r. IsTrue (space.stands self.old r)) parts.now }
        requires count { length parts.now ≤ length (parts_of (space.term_of self.old at.now)) }
        ensures keeps { Keeps space self.old self.new }
        ensures made { IfOk result
            (Makes space self.new
            (term (head_of (space.term_of self.old at.now))
            (map (space.term_of self.old) parts.now ++
            drop (length parts.now) (parts_of (space.term_of self.old at.now)))
            (annos_of (space.term_of self.old at.now)))) }
        ensures unchanged { map (space.term_of self.old) parts.now ≡
            parts_of (space.term_of self.old at.now) → IfOk result (λ m. m ≡ made.Fits at.now) };

    /// The term with exactly these annotations in place of its own; `Oversize` exactly where that term does not fit.
    fn with_annos(
        &mut self,
        alloc: Global,
        at: &Self::Ref,
        annos: &[Self::Ref],
    ) -> Result<Made<Self::Ref>, AllocError>
        requires stands { IsTrue (space.stands self.old at.now) }
        requires stand { All (λ r. IsTrue (space.stands self.old r)) annos.now }
        ensures keeps { Keeps space self.old self.new }
        ensures made { IfOk result
            (Makes space self.new
            (term (head_of (space.term_of self.old at.now))
            (parts_of (space.term_of self.old at.now)) (map (space.term_of self.old) annos.now))) };

    /// The term with exactly the annotations of another one in place of its own; `Oversize` exactly where that term does
    /// not fit.
    fn like(
        &mut self,
        alloc: Global,
        at: &Self::Ref,
        other: &Self::Ref,
    ) -> Result<Made<Self::Ref>, AllocError>
        requires stands { IsTrue (space.stands self.old at.now) }
        requires other { IsTrue (space.stands self.old other.now) }
        ensures keeps { Keeps space self.old self.new }
        ensures made { IfOk result
            (Makes space self.new
            (term (head_of (space.term_of self.old at.now))
            (parts_of (space.term_of self.old at.now))
            (annos_of (space.term_of self.old other.now)))) };

    /// The term of this head with these parts and annotations; `Oversize` exactly where it does not fit. An integer is
    /// given no parts.
    fn make(
        &mut self,
        alloc: Global,
        head: Head,
        parts: Vec<Self::Ref>,
        annos: Vec<Self::Ref>,
    ) -> Result<Made<Self::Ref>, AllocError>
        requires head { MayHave head parts.items }
        requires parts { All (λ r. IsTrue (space.stands self.old r)) parts.items }
        requires annos { All (λ r. IsTrue (space.stands self.old r)) annos.items }
        ensures keeps { Keeps space self.old self.new }
        ensures made { IfOk result
            (Makes space self.new
            (term head (map (space.term_of self.old) parts.items)
            (map (space.term_of self.old) annos.items))) };

    /// A mark of what stands now.
    fn mark(&self) -> Self::Mark
        ensures { IsMark space self.now result };

    /// Gives back what came after the mark: exactly what the mark covers stands.
    fn back_to(&mut self, mark: Self::Mark)
        requires { IsTrue (space.is_valid self.old mark) }
        ensures { GoesBack space self.old mark self.new };

    /// Brings a term in.
    fn enter(&mut self, alloc: Global, from: &Term) -> Result<Self::Ref, AllocError>
        ensures keeps { Keeps space self.old self.new }
        ensures stands { IfOk result (λ r. IsTrue (space.stands self.new r)) }
        ensures term { IfOk result (λ r. space.term_of self.new r ≡ from.now) };

    /// The term of a reference.
    fn leave(&self, alloc: Global, at: &Self::Ref) -> Result<Term, AllocError>
        requires { IsTrue (space.stands self.now at.now) }
        ensures { IfOk result (λ t. t ≡ space.term_of self.now at.now) };
}
