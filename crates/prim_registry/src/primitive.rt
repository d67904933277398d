//! A primitive: a name, a number of arguments and a function, kept with what the function returns.
ghost use Rattle.std.specs.Prelude.{◌≡◌, ◌∷◌, [], ℕ, ℤ, List, Option, length, IfOk, IfSome};
ghost use Rattle.std.specs.Option.{option_map};
ghost use Rattle.prim_registry.specs.Answers.{AnswersBy, CalculatesBy};
ghost use Rattle.prim_registry.specs.Values.{answer_of, values_of};
ghost use Rattle.term_model.specs.Flat.{number};

use crate::flat::{Bytes, Flat};
use std::alloc::AllocError;
use std::marker::PhantomData;

/// A meaning of primitives: what each returns, by its name and its arguments.
pub trait PrimMeaning {
    ghost use Rattle.term_model.specs.Flat.{Meaning};

    ghost answer: { Meaning };
}

/// The function of a primitive: it returns a flat value or none, and `AllocError` where a growth of memory is refused.
pub type Action = Box<dyn Fn(&[Flat]) -> Result<Option<Flat>, AllocError>>;

/// A function on two integers: it returns an integer or none.
pub type Calculation = Box<dyn Fn(i64, i64) -> Option<i64>>;

/// A function on two integers that may be called on any.
#[derive(Drop)]
struct Calculator {
    calculation: Calculation,
    ghost may_run: { (left right : ℤ) → Calculation.pre calculation left right },
}

/// A named function on a number of flat values, which returns what the meaning `M` has for the name.
#[derive(Drop)]
pub struct Primitive<M> {
    name: Bytes,
    arity: usize,
    action: Action,
    calculator: Option<Calculator>,
    meaning: PhantomData<M>,
    ghost may_run: { (args : _) → length args.now ≡ arity → Action.pre action args },
}

impl<M: PrimMeaning> Primitive<M> {
    ghost use Rattle.prim_registry.specs.Entries.{AnswersAs};
    ghost use Rattle.prim_registry.specs.RegistryNames.{arity_of};
    ghost use Rattle.prim_registry.specs.RegistryNames.{name_of};

    /// Returns the primitive of this name with `arity` arguments. The function may be called on any flat values of that number, and
    /// whenever it returns `Ok`, that is what the meaning has for the name.
    pub fn new(name: Vec<u8>, arity: usize, action: Action) -> Primitive<M>
        requires may_run { (args : _) → length args.now ≡ arity → Action.pre action args }
        requires answers { AnswersBy (Action.post action) arity (M.answer name.items) }
        ensures name { name_of result ≡ name.items }
        ensures arity { arity_of result ≡ arity }
        ensures answers { AnswersAs M.answer result }
    {
        let name = Bytes::new(name);
        Primitive {
            name,
            arity,
            action,
            calculator: None,
            meaning: PhantomData,
        }
    }

    /// Returns the primitive with a second function for calls on two integers, which needs neither a slice nor `Flat`. The function may be
    /// called on any two integers, and returns what the meaning has for the name and them.
    pub fn with_calculation(self, calculation: Calculation) -> Primitive<M>
        requires may_run { (left right : ℤ) → Calculation.pre calculation left right }
        requires answers { AnswersAs M.answer self }
        requires calculates { CalculatesBy (Calculation.post calculation) (M.answer
            (name_of self)) }
        ensures name { name_of result ≡ name_of self }
        ensures arity { arity_of result ≡ arity_of self }
        ensures answers { AnswersAs M.answer result }
    {
        Primitive {
            name: self.name,
            arity: self.arity,
            action: self.action,
            calculator: Some(Calculator { calculation }),
            meaning: PhantomData,
        }
    }

    /// Returns the name.
    pub fn name(&self) -> &[u8]
        ensures { result.now ≡ name_of self.now }
    {
        self.name.as_slice()
    }

    /// Returns the number of arguments.
    pub fn arity(&self) -> usize
        ensures { result ≡ arity_of self.now }
    {
        self.arity
    }

    /// Calls the function: returns what the meaning has for the name and the arguments, and `AllocError` where the function
    /// is refused a growth of memory.
    pub fn run(&self, args: &[Flat]) -> Result<Option<Flat>, AllocError>
        requires arity { length args.now ≡ arity_of self.now }
        requires answers { AnswersAs M.answer self.now }
        ensures { IfOk result (λ answer. answer_of answer ≡
            M.answer (name_of self.now) (values_of args.now)) }
    {
        (self.action)(args)
    }

    /// Calls the function on two integers, if there is one: returns what the meaning has for the name and the integers. `None` where
    /// there is no such function. Takes no memory.
    pub fn calculate(&self, left: i64, right: i64) -> Option<Option<i64>>
        requires answers { AnswersAs M.answer self.now }
        ensures { IfSome result (λ answer. option_map number answer ≡
            M.answer (name_of self.now) (number left ∷ number right ∷ [])) }
    {
        let calculator = self.calculator.as_ref()?;
        Some((calculator.calculation)(left, right))
    }
}

/// Another name of the type.
pub type Prim<M> = Primitive<M>;
