//! The standard primitives. Each function takes the arguments of a call, of whatever number and kinds.
ghost use Rattle.std.specs.Prelude.{◌≡◌, codes};
ghost use Rattle.std.specs.Option.{option_map};
ghost use Rattle.prim_registry.specs.Standard.{standard};
ghost use Rattle.prim_registry.specs.Values.{answer_of, values_of};
ghost use Rattle.term_model.specs.Flat.{number};

use crate::arguments::{one_text, two_integers};
use crate::calculations::{difference, lesser, product, quotient, remainder, sum};
use crate::flat::Flat;
use crate::primitive::PrimMeaning;
pub use crate::texts::{concat, explode, implode, int_text, text_int};
use term_model::bytes::greatest_magnitude;

/// The meaning of the standard primitives.
pub struct Standard;

impl PrimMeaning for Standard {
    ghost answer = { standard };
}

/// The integer as an answer, where there is one.
fn answer(value: Option<i64>) -> Option<Flat>
    ensures { answer_of result ≡ option_map number value }
{
    Some(Flat::Int(value?))
}

/// Returns the sum of two integers, where it has 64 bits; `None` at other arguments.
pub fn add(args: &[Flat]) -> Option<Flat>
    ensures { answer_of result ≡ standard (codes "add") (values_of args.now) }
{
    let (left, right) = two_integers(args)?;
    answer(sum(left, right))
}

/// Returns the first of two integers without the second, where that has 64 bits; `None` at other arguments.
pub fn sub(args: &[Flat]) -> Option<Flat>
    ensures { answer_of result ≡ standard (codes "sub") (values_of args.now) }
{
    let (left, right) = two_integers(args)?;
    answer(difference(left, right))
}

/// Returns the product of two integers, where it has 64 bits; `None` at other arguments.
pub fn mul(args: &[Flat]) -> Option<Flat>
    ensures { answer_of result ≡ standard (codes "mul") (values_of args.now) }
{
    let (left, right) = two_integers(args)?;
    answer(product(left, right))
}

/// Returns the quotient of two integers, cut towards 0. `None` where the second is 0, where the quotient has more than 64 bits, and
/// at other arguments.
pub fn div(args: &[Flat]) -> Option<Flat>
    ensures { answer_of result ≡ standard (codes "div") (values_of args.now) }
{
    let (left, right) = two_integers(args)?;
    answer(quotient(left, right))
}

/// Returns what is left of the first of two integers without the second times their quotient, which is cut towards 0 and may
/// have more than 64 bits. `None` where the second is 0, and at other arguments.
pub fn modulo(args: &[Flat]) -> Option<Flat>
    ensures { answer_of result ≡ standard (codes "mod") (values_of args.now) }
{
    let (left, right) = two_integers(args)?;
    answer(remainder(left, right))
}

/// Returns the first of two integers where it is less than the second; `None` where it is not, and at other arguments.
pub fn less(args: &[Flat]) -> Option<Flat>
    ensures { answer_of result ≡ standard (codes "less") (values_of args.now) }
{
    let (left, right) = two_integers(args)?;
    answer(lesser(left, right))
}

/// Returns the number of bytes of a string, where it has 64 bits; `None` at other arguments.
pub fn length(args: &[Flat]) -> Option<Flat>
    ensures { answer_of result ≡ standard (codes "length") (values_of args.now) }
{
    let text = one_text(args)?;
    if text.len() as u64 > greatest_magnitude(false) {
        return None;
    }
    Some(Flat::Int(text.len() as i64))
}
