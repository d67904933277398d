//! Primitives by their names.
ghost use Rattle.std.specs.Prelude.{◌≡◌, ◌↔◌, ◌⊎◌, ◌++◌, ◌∷◌, ◌<◌, [], length, Contains, Err, IsTrue, IfOk, IfErr, IfSome, IsSome, OnOk, OnErr};
ghost use Rattle.prim_registry.specs.Entries.{entries_of, primitives_of, AnswersAs, IsHonest};
ghost use Rattle.prim_registry.specs.RegistryNames.{arity_of};
ghost use Rattle.prim_registry.specs.RegistryNames.{entry_at, name_of, AreNamesOf, Covers, HasName};
ghost use Rattle.prim_registry.specs.Values.{answer_of, values_of};
ghost use Rattle.std.specs.Option.{option_map};
ghost use Rattle.term_model.specs.Flat.{number};
ghost use Rattle.term_model.specs.declared.fault.Fault.TheVariants.{DuplicateDeclaration, Memory};

use crate::flat::Flat;
use crate::primitive::{PrimMeaning, Primitive};
use std::alloc::{AllocError, Global};
use term_model::{Fault, PrimNames};

/// Whether two names are the same.
fn same_name(left: &[u8], right: &[u8]) -> bool
    ensures { IsTrue result ↔ (left.now ≡ right.now) }
{
    left == right
}

/// Primitives, each under a name of its own, in the order in which they were registered.
#[derive(Drop)]
pub struct Registry<M> {
    primitives: Vec<Primitive<M>>,
}

impl<M: PrimMeaning> Registry<M> {
    /// Returns a registry without primitives. Takes no memory.
    pub fn new(alloc: Global) -> Registry<M>
        ensures empty { entries_of result ≡ [] }
        ensures honest { IsHonest M.answer result }
    {
        Registry {
            primitives: Vec::new(alloc),
        }
    }

    /// Whether a primitive has this name, whatever its number of arguments.
    fn has_name(&self, name: &[u8]) -> bool
        ensures { IsTrue result ↔ HasName self.now name.now }
    {
        for primitive in &self.primitives {
            if same_name(primitive.name(), name) {
                return true;
            }
        }
        false
    }

    /// Registers a primitive after those that are there. `DuplicateDeclaration` exactly where a primitive of the same name is
    /// there, whatever its number of arguments; `Memory` where a growth is refused. After an error the registry is as it was.
    pub fn register(&mut self, primitive: Primitive<M>) -> Result<(), Fault>
        requires honest { IsHonest M.answer self.old }
        requires answers { AnswersAs M.answer primitive }
        ensures honest { IsHonest M.answer self.new }
        ensures registered { OnOk result (entries_of self.new ≡ entries_of self.old ++
            (name_of primitive, arity_of primitive) ∷ []) }
        ensures duplicate { (result ≡ Err DuplicateDeclaration)
            ↔ HasName self.old (name_of primitive) }
        ensures fault { IfErr result (λ fault. (fault ≡ DuplicateDeclaration) ⊎ (fault ≡ Memory)) }
        ensures unchanged { OnErr result (primitives_of self.new ≡ primitives_of self.old) }
    {
        if self.has_name(primitive.name()) {
            return Err(Fault::DuplicateDeclaration);
        }
        if self.primitives.push(primitive).is_err() {
            return Err(Fault::Memory);
        }
        Ok(())
    }

    /// Returns how many primitives are registered.
    pub fn len(&self) -> usize
        ensures { result ≡ length (entries_of self.now) }
    {
        self.primitives.len()
    }

    /// Returns the place of the primitive of this name with this number of arguments, counted from 0 in the order of registering;
    /// `None` where there is none. The place stays the same while others are registered. Takes no memory.
    pub fn position(&self, name: &[u8], arity: usize) -> Option<usize>
        ensures present { IsSome result ↔ Contains (entries_of self.now) (name.now, arity) }
        ensures within { IfSome result (λ index. index < length (entries_of self.now)) }
        ensures entry { IfSome result (λ index. entry_at self.now index ≡ (name.now, arity)) }
    {
        for (index, primitive) in self.primitives.iter().enumerate() {
            if primitive.arity() == arity && same_name(primitive.name(), name) {
                return Some(index);
            }
        }
        None
    }

    /// Whether a primitive of this name with this number of arguments is registered. Takes no memory.
    pub fn has(&self, name: &[u8], arity: usize) -> bool
        ensures { IsTrue result ↔ Contains (entries_of self.now) (name.now, arity) }
    {
        self.position(name, arity).is_some()
    }

    /// Whether each of the names is registered with its number of arguments. Takes no memory.
    pub fn covers(&self, names: &PrimNames) -> bool
        ensures { IsTrue result ↔ Covers self.now names.now }
    {
        for index in 0..names.len() {
            let (name, arity) = names.at(index);
            if !self.has(name, arity) {
                return false;
            }
        }
        true
    }

    /// Returns the names that are registered, with their numbers of arguments.
    pub fn names(&self, alloc: Global) -> Result<PrimNames, AllocError>
        ensures { IfOk result (λ names. AreNamesOf self.now names) }
    {
        let mut names = PrimNames::new(alloc);
        for primitive in &self.primitives {
            names.insert(primitive.name(), primitive.arity())?;
        }
        Ok(names)
    }

    /// Calls the primitive at this place, which takes as many arguments as there are: returns what the meaning has for its name
    /// and these arguments. `Memory` where the primitive is refused a growth.
    pub fn call_at(&self, index: usize, args: &[Flat]) -> Result<Option<Flat>, Fault>
        requires honest { IsHonest M.answer self.now }
        requires within { index < length (entries_of self.now) }
        requires arity { (entry_at self.now index).1 ≡ length args.now }
        ensures answer { IfOk result (λ answer. answer_of answer ≡
            M.answer (entry_at self.now index).0 (values_of args.now)) }
        ensures fault { IfErr result (λ fault. fault ≡ Memory) }
    {
        match self.primitives[index].run(args) {
            Ok(answer) => Ok(answer),
            Err(AllocError) => Err(Fault::Memory),
        }
    }

    /// Calls the function on two integers of the primitive at this place, if it has one: returns what the meaning has for its name and
    /// the integers. `None` where it has none. Takes no memory.
    pub fn calculate_at(&self, index: usize, left: i64, right: i64) -> Option<Option<i64>>
        requires honest { IsHonest M.answer self.now }
        requires within { index < length (entries_of self.now) }
        ensures { IfSome result (λ answer. option_map number answer ≡
            M.answer (entry_at self.now index).0 (number left ∷ number right ∷ [])) }
    {
        self.primitives[index].calculate(left, right)
    }

    /// Calls the primitive of this name, which takes as many arguments as there are: returns what the meaning has for the name and
    /// these arguments. `Memory` where the primitive is refused a growth.
    pub fn call(&self, name: &[u8], args: &[Flat]) -> Result<Option<Flat>, Fault>
        requires honest { IsHonest M.answer self.now }
        requires has { Contains (entries_of self.now) (name.now, length args.now) }
        ensures answer { IfOk result (λ answer. answer_of answer ≡
            M.answer name.now (values_of args.now)) }
        ensures fault { IfErr result (λ fault. fault ≡ Memory) }
    {
        match self.position(name, args.len()) {
            Some(index) => self.call_at(index, args),
            None => unreachable!(),
        }
    }
}
