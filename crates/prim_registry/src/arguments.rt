//! Arguments of the kinds that a primitive takes.
ghost use Rattle.std.specs.Prelude.{◌≡◌};
ghost use Rattle.std.specs.Option.{option_map};
ghost use Rattle.prim_registry.specs.Standard.{one_integer as integer_of, one_list as list_of, one_text as text_of, two_integers as integers_of, two_texts as texts_of};
ghost use Rattle.prim_registry.specs.Values.{values_of};

use crate::flat::Flat;

/// Two integers, where the arguments are these and no others.
pub(crate) fn two_integers(args: &[Flat]) -> Option<(i64, i64)>
    ensures { result ≡ integers_of (values_of args.now) }
{
    match args {
        [Flat::Int(first), Flat::Int(second)] => Some((*first, *second)),
        _ => None,
    }
}

/// The bytes of two strings.
pub(crate) fn two_texts(args: &[Flat]) -> Option<(&[u8], &[u8])>
    ensures { option_map (λ p. (p.0.now, p.1.now)) result ≡ texts_of (values_of args.now) }
{
    match args {
        [Flat::Str(first), Flat::Str(second)] => Some((first.as_slice(), second.as_slice())),
        _ => None,
    }
}

/// One integer.
pub(crate) fn one_integer(args: &[Flat]) -> Option<i64>
    ensures { result ≡ integer_of (values_of args.now) }
{
    match args {
        [Flat::Int(value)] => Some(*value),
        _ => None,
    }
}

/// The bytes of one string.
pub(crate) fn one_text(args: &[Flat]) -> Option<&[u8]>
    ensures { option_map (λ bytes. bytes.now) result ≡ text_of (values_of args.now) }
{
    match args {
        [Flat::Str(text)] => Some(text.as_slice()),
        _ => None,
    }
}

/// One list of integers.
pub(crate) fn one_list(args: &[Flat]) -> Option<&[i64]>
    ensures { option_map (λ numbers. numbers.now) result ≡ list_of (values_of args.now) }
{
    match args {
        [Flat::Ints(numbers)] => Some(numbers.as_slice()),
        _ => None,
    }
}
