//! What the standard primitives make of two integers.
ghost use Rattle.std.specs.Prelude.{◌≡◌, ◌+ℤ◌, ◌-ℤ◌, ◌*ℤ◌};
ghost use Rattle.std.specs.Option.{option_map};
ghost use Rattle.prim_registry.specs.Standard as standard;
ghost use Rattle.term_model.specs.Flat.{number};

/// The sum, where it has 64 bits.
pub(crate) fn sum(left: i64, right: i64) -> Option<i64>
    ensures { option_map number result ≡ standard.ranged (left +ℤ right) }
{
    left.checked_add(right)
}

/// The first without the second, where that has 64 bits.
pub(crate) fn difference(left: i64, right: i64) -> Option<i64>
    ensures { option_map number result ≡ standard.ranged (left -ℤ right) }
{
    left.checked_sub(right)
}

/// The product, where it has 64 bits.
pub(crate) fn product(left: i64, right: i64) -> Option<i64>
    ensures { option_map number result ≡ standard.ranged (left *ℤ right) }
{
    left.checked_mul(right)
}

/// The quotient, cut towards 0, where the second is not 0 and the quotient has 64 bits.
pub(crate) fn quotient(left: i64, right: i64) -> Option<i64>
    ensures { option_map number result ≡ standard.quotient left right }
{
    if right == 0 {
        return None;
    }
    left.checked_div(right)
}

/// What the quotient, which may have more than 64 bits, leaves of the first; none where the second is 0.
pub(crate) fn remainder(left: i64, right: i64) -> Option<i64>
    ensures { option_map number result ≡ standard.remainder left right }
{
    if right == 0 {
        return None;
    }
    Some(left.wrapping_rem(right))
}

/// The first, where it is less than the second.
pub(crate) fn lesser(left: i64, right: i64) -> Option<i64>
    ensures { option_map number result ≡ standard.lesser left right }
{
    if left < right { Some(left) } else { None }
}
