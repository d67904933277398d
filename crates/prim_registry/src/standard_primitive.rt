//! The standard primitives as values, for whoever registers them.
ghost use Rattle.std.specs.Prelude.{◌≡◌, ◌∷◌, [], IfOk};
ghost use Rattle.std.specs.Option.{option_map};
ghost use Rattle.prim_registry.specs.Standard.{standard};
ghost use Rattle.prim_registry.specs.StandardPrimitives.{is_arithmetic, key_of};
ghost use Rattle.prim_registry.specs.Values.{answer_of, values_of};
ghost use Rattle.term_model.specs.Flat.{number};

use crate::calculations::{difference, lesser, product, quotient, remainder, sum};
use crate::flat::Flat;
use crate::standard::{
    add, concat, div, explode, implode, int_text, length, less, modulo, mul, sub, text_int,
};
use std::alloc::{AllocError, Global};

/// A standard primitive.
#[derive(Clone, Copy)]
pub enum StandardPrimitive {
    Add,
    Sub,
    Mul,
    Div,
    Mod,
    Less,
    Concat,
    Length,
    Explode,
    Implode,
    IntText,
    TextInt,
}

/// All of them, in the order in which they are registered.
pub const STANDARD: [StandardPrimitive; 12] = [
    StandardPrimitive::Add,
    StandardPrimitive::Sub,
    StandardPrimitive::Mul,
    StandardPrimitive::Div,
    StandardPrimitive::Mod,
    StandardPrimitive::Less,
    StandardPrimitive::Concat,
    StandardPrimitive::Length,
    StandardPrimitive::Explode,
    StandardPrimitive::Implode,
    StandardPrimitive::IntText,
    StandardPrimitive::TextInt,
];

impl StandardPrimitive {
    /// Returns the name by which programs call it.
    pub fn name(self) -> &'static [u8]
        ensures { result.now ≡ (key_of self).0 }
    {
        match self {
            StandardPrimitive::Add => b"add",
            StandardPrimitive::Sub => b"sub",
            StandardPrimitive::Mul => b"mul",
            StandardPrimitive::Div => b"div",
            StandardPrimitive::Mod => b"mod",
            StandardPrimitive::Less => b"less",
            StandardPrimitive::Concat => b"concat",
            StandardPrimitive::Length => b"length",
            StandardPrimitive::Explode => b"explode",
            StandardPrimitive::Implode => b"implode",
            StandardPrimitive::IntText => b"int_text",
            StandardPrimitive::TextInt => b"text_int",
        }
    }

    /// Returns the number of arguments.
    pub fn arity(self) -> usize
        ensures { result ≡ (key_of self).1 }
    {
        match self {
            StandardPrimitive::Add
            | StandardPrimitive::Sub
            | StandardPrimitive::Mul
            | StandardPrimitive::Div
            | StandardPrimitive::Mod
            | StandardPrimitive::Less
            | StandardPrimitive::Concat => 2,
            StandardPrimitive::Length
            | StandardPrimitive::Explode
            | StandardPrimitive::Implode
            | StandardPrimitive::IntText
            | StandardPrimitive::TextInt => 1,
        }
    }

    /// Returns what the primitive has for these arguments, and `AllocError` where memory for it is refused.
    pub fn answer(self, alloc: Global, args: &[Flat]) -> Result<Option<Flat>, AllocError>
        ensures { IfOk result (λ answer. answer_of answer ≡
            standard (key_of self).0 (values_of args.now)) }
    {
        match self {
            StandardPrimitive::Add => Ok(add(args)),
            StandardPrimitive::Sub => Ok(sub(args)),
            StandardPrimitive::Mul => Ok(mul(args)),
            StandardPrimitive::Div => Ok(div(args)),
            StandardPrimitive::Mod => Ok(modulo(args)),
            StandardPrimitive::Less => Ok(less(args)),
            StandardPrimitive::Concat => concat(alloc, args),
            StandardPrimitive::Length => Ok(length(args)),
            StandardPrimitive::Explode => explode(alloc, args),
            StandardPrimitive::Implode => implode(alloc, args),
            StandardPrimitive::IntText => int_text(alloc, args),
            StandardPrimitive::TextInt => Ok(text_int(args)),
        }
    }

    /// Whether it takes two integers and returns an integer or none.
    pub fn is_arithmetic(self) -> bool
        ensures { result ≡ is_arithmetic self }
    {
        matches!(
            self,
            StandardPrimitive::Add
                | StandardPrimitive::Sub
                | StandardPrimitive::Mul
                | StandardPrimitive::Div
                | StandardPrimitive::Mod
                | StandardPrimitive::Less
        )
    }

    /// Returns what the primitive has for two integers: `None` if it is not arithmetic, since no other primitive takes two integers.
    pub fn calculate(self, left: i64, right: i64) -> Option<i64>
        ensures { option_map number result ≡
            standard (key_of self).0 (number left ∷ number right ∷ []) }
    {
        match self {
            StandardPrimitive::Add => sum(left, right),
            StandardPrimitive::Sub => difference(left, right),
            StandardPrimitive::Mul => product(left, right),
            StandardPrimitive::Div => quotient(left, right),
            StandardPrimitive::Mod => remainder(left, right),
            StandardPrimitive::Less => lesser(left, right),
            StandardPrimitive::Concat
            | StandardPrimitive::Length
            | StandardPrimitive::Explode
            | StandardPrimitive::Implode
            | StandardPrimitive::IntText
            | StandardPrimitive::TextInt => None,
        }
    }
}
