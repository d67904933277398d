//! Signatures: the constructors that are declared.
ghost use Rattle.std.specs.Prelude.{◌≡◌, ◌↔◌, ◌⊎◌, ◌++◌, ◌∷◌, [], map, All, Err, IsOk, IsTrue, IfErr, OnErr, OnOk};
ghost use Rattle.signature_core.specs.DeclaredTerm.{all_are_declared, term_is_declared};
ghost use Rattle.signature_core.specs.Lookup.{root_is_declared};
ghost use Rattle.signature_core.specs.Signature.{arity_known, is_declared, is_declared_name};
ghost use Rattle.signature_core.specs.Lookup.{first_arity};
ghost use Rattle.signature_core.specs.Views.{declaration};
ghost use Rattle.term_model.specs.declared.fault.Fault.TheVariants.{DuplicateDeclaration, Memory, TermUndeclared};
ghost use Rattle.term_model.specs.Term.{trees_of};

use crate::arities::Arities;
use crate::constructor::Constructor;
use indexmap::IndexSet;
use keyed_hash::HashKeys;
use std::alloc::Global;
use std::marker::Model;
use str_syntax::{Name, Sort};
use term_model::{Fault, Kind, Parts, RcSpace, Term, TermSpace, Top};

/// The declared constructors, in the order in which they were declared.
#[derive(Drop)]
pub struct Signature {
    declarations: IndexSet<Constructor, HashKeys>,
    arities: Arities,
}

impl Model for Signature {
    ghost use Rattle.std.specs.Prelude.{List};
    ghost use Rattle.signature_core.specs.Arities.{AreNumbersOf};
    ghost use Rattle.signature_core.specs.Signature.{Declared};

    ghost Value = { List Declared };

    ghost use Rattle.std.specs.Coded.{coded_list};
    ghost use Rattle.signature_core.specs.DeclaredCode.{declared_code};

    ghost coded = { coded_list declared_code };

    ghost view = { λ s. s.declarations.keys };

    ghost invariant = { λ s. AreNumbersOf s.declarations.keys s.arities.by_name };
}

impl Signature {
    /// A signature without declarations, whose tables hash with these keys. Takes no memory.
    #[tactic(auto, using(crate::proofs::ArityLaws::none))]
    pub fn new(alloc: Global, hashing: HashKeys) -> Signature
        ensures { result ≡ [] }
    {
        Signature {
            declarations: IndexSet::with_hasher(alloc, hashing),
            arities: Arities::new(alloc, hashing),
        }
    }

    /// Declares the constructor of this name that makes a term of the sort `to` of arguments of these sorts: it becomes the last
    /// declaration. `DuplicateDeclaration` exactly where a declaration of the same name, the same sorts of arguments and the same
    /// sort `to` is there; the same name with other sorts is an overload. `Memory` where a growth is refused. After an error the
    /// signature is as it was.
    #[tactic(auto, using(crate::proofs::ArityLaws::declares))]
    pub fn declare(&mut self, name: Name, arguments: Vec<Sort>, to: Sort) -> Result<(), Fault>
        ensures declared { OnOk result (self.new ≡ self.old ++
            declaration name arguments.items to ∷ []) }
        ensures duplicate { (result ≡ Err DuplicateDeclaration)
            ↔ IsTrue (is_declared self.old (declaration name arguments.items to)) }
        ensures fault { IfErr result (λ fault. (fault ≡ DuplicateDeclaration) ⊎ (fault ≡ Memory)) }
        ensures unchanged { OnErr result (self.new ≡ self.old) }
    {
        let constructor = Constructor::new(name, arguments, to);
        if self.declarations.contains(&constructor) {
            return Err(Fault::DuplicateDeclaration);
        }
        self.declarations.reserve(1)?;
        self.arities.note(constructor.name(), constructor.arity())?;
        self.declarations.insert(constructor)?;
        Ok(())
    }

    /// Whether a constructor of this name is declared with this number of arguments. Takes no memory.
    pub fn arity_known(&self, name: &[u8], number: usize) -> bool
        ensures { result ≡ arity_known self.now name.now number }
    {
        self.arities.has(name, number)
    }

    /// Whether a constructor of this name is declared, with whatever number of arguments. Takes no memory.
    #[tactic(auto, using(crate::proofs::ArityLaws::names))]
    pub fn is_declared_name(&self, name: &[u8]) -> bool
        ensures { result ≡ is_declared_name self.now name.now }
    {
        self.first_arity(name).is_some()
    }

    /// The number of arguments of the first declaration of this name, or `None` where the name is not declared. Takes no memory.
    pub fn first_arity(&self, name: &[u8]) -> Option<usize>
        ensures { result ≡ first_arity self.now name.now }
    {
        self.arities.first(name)
    }

    /// `Ok` exactly where each application in the term is declared, at any depth and in annotations; else `TermUndeclared`. An
    /// application of a plain name is declared with its number of parts, and a quoted symbol with parts never is; integers, lists,
    /// tuples and quoted symbols without parts need no declaration. Calls itself no deeper than the term is deep, and takes no
    /// memory.
    #[tactic(auto, using(term_model::proofs::SpaceLemmas::standing))]
    pub fn check_term(&self, term: &Term) -> Result<(), Fault>
        ensures declared { IsOk result ↔ IsTrue (term_is_declared self.now term.now) }
        ensures fault { IfErr result (λ fault. fault ≡ TermUndeclared) }
    {
        term.fits();
        self.check_in(&RcSpace, term)
    }

    /// The same of a term of a space, which stays in the space: `Ok` exactly where each application in it is declared, at any
    /// depth and in annotations; else `TermUndeclared`. Calls itself no deeper than the term is deep, and takes no memory.
    pub fn check_in<S: TermSpace>(&self, space: &S, at: &S::Ref) -> Result<(), Fault>
        requires { IsTrue (S.space.stands space.now at.now) }
        ensures declared { IsOk result ↔ IsTrue
            (term_is_declared self.now (S.space.term_of space.now at.now)) }
        ensures fault { IfErr result (λ fault. fault ≡ TermUndeclared) }
    {
        if !self.covers(space, at) {
            return Err(Fault::TermUndeclared);
        }
        Ok(())
    }

    /// Whether each application in the term is declared.
    #[cycle(covers)]
    #[tactic(auto, using(crate::proofs::TermLaws::parts))]
    fn covers<S: TermSpace>(&self, space: &S, at: &S::Ref) -> bool
        requires { IsTrue (S.space.stands space.now at.now) }
        ensures { result ≡ term_is_declared self.now (S.space.term_of space.now at.now) }
    {
        self.covers_root(space, at)
            && self.covers_all(space, &space.parts(at))
            && self.covers_all(space, &space.annos(at))
    }

    /// Whether each application in the terms is declared.
    #[cycle(covers)]
    #[tactic(auto, using(crate::proofs::TermLaws::parts))]
    fn covers_all<S: TermSpace>(&self, space: &S, terms: &Parts<'_, S::Ref>) -> bool
        requires { All (λ r. IsTrue (S.space.stands space.now r)) terms.now }
        ensures { result ≡ all_are_declared self.now
            (trees_of (map (S.space.term_of space.now) terms.now)) }
    {
        for term in terms.walk() {
            if !self.covers(space, term) {
                return false;
            }
        }
        true
    }

    /// Whether the root of the term may have as many parts as it has.
    fn covers_root<S: TermSpace>(&self, space: &S, at: &S::Ref) -> bool
        requires { IsTrue (S.space.stands space.now at.now) }
        ensures { result ≡ root_is_declared self.now (S.space.term_of space.now at.now) }
    {
        let Top::App(symbol) = space.head(at) else {
            return true;
        };
        let number = space.count(at);
        match symbol.kind() {
            Kind::Plain => self.arity_known(symbol.bytes(), number),
            Kind::Quoted => number == 0,
            Kind::Tuple => true,
        }
    }
}
