//! Memory for the stacks: vectors that take more of it or give it back, and numbers in 32 bits.
ghost use Rattle.std.specs.Prelude.{◌≡◌, ◌+◌, ◌<◌, ◌≤◌, vec_len, vec_capacity, IfErr, OnOk, OnErr, [], ◌∷◌, ◌++◌};
ghost use Rattle.term_model.specs.Results.{Returns};

use std::alloc::AllocError;

/// Puts an item at the end of a vector.
///
/// Memory is taken in a function of its own, which is not inlined, so that the common case stays small where it is inlined.
///
/// # Errors
///
/// Returns an error if there is no memory for one more item. The vector then has the items that it had.
pub fn push_on<T: Drop>(items: &mut Vec<T>, item: T) -> Result<(), AllocError>
    ensures pushed { OnOk result (items.new.items ≡ items.old.items ++ item ∷ []) }
    ensures err { OnErr result (items.new.items ≡ items.old.items) }
{
    if items.len() == items.capacity() {
        grow(items)?;
    }
    items.push_reserved(item);
    Ok(())
}

/// Makes room for `count` more items.
///
/// # Errors
///
/// Returns an error if there is no memory for them. The vector has the items that it had in any case.
pub(crate) fn reserve_on<T: Drop>(items: &mut Vec<T>, count: usize) -> Result<(), AllocError>
    ensures same { items.new.items ≡ items.old.items }
    ensures room { OnOk result (vec_len items.new + count ≤ vec_capacity items.new) }
{
    if items.capacity() - items.len() < count {
        grow_by(items, count)?;
    }
    Ok(())
}

/// Takes memory for `count` more items.
#[inline(never)]
fn grow_by<T: Drop>(items: &mut Vec<T>, count: usize) -> Result<(), AllocError>
    ensures same { items.new.items ≡ items.old.items }
    ensures room { OnOk result (vec_len items.new + count ≤ vec_capacity items.new) }
{
    items.reserve(count)?;
    Ok(())
}

/// Takes memory for one more item.
#[inline(never)]
fn grow<T: Drop>(items: &mut Vec<T>) -> Result<(), AllocError>
    ensures same { items.new.items ≡ items.old.items }
    ensures room { OnOk result (vec_len items.new < vec_capacity items.new) }
{
    items.reserve(1)?;
    Ok(())
}

/// Gives memory back if less than half of what the vector has is in use, and keeps half as much again as that.
///
/// Where no smaller block of memory can be had, the vector keeps what it has.
pub fn release_spare<T: Drop>(items: &mut Vec<T>)
    ensures { items.new.items ≡ items.old.items }
{
    let count = items.len();
    if count < items.capacity() / 2 {
        items.shrink_to(count + count / 2);
    }
}

/// Returns the number in 32 bits.
///
/// # Errors
///
/// Returns an error if the number needs more than 32 bits: no stack has room for it.
pub fn narrow(number: usize) -> Result<u32, AllocError>
    ensures ok { Returns result number }
    ensures err { IfErr result (λ _. 4294967296 ≤ number) }
{
    if number > u32::MAX as usize {
        return Err(AllocError);
    }
    Ok(number as u32)
}
