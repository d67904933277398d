//! Lists in a space.
ghost use Rattle.std.specs.Prelude.{◌≡◌, IsTrue, IfOk};

use std::alloc::{AllocError, Global};
use term_model::{Made, TermSpace};

/// The list of the integers below a number; an empty one where that would not fit.
pub(crate) fn numbered<S: TermSpace>(
    alloc: Global,
    space: &mut S,
    size: u32,
) -> Result<S::Ref, AllocError>
    ensures { IfOk result (λ r. IsTrue (S.space.stands space.new r)) }
{
    let mut elements = Vec::new(alloc);
    for value in 0..size {
        let element = space.int(alloc, i64::from(value))?;
        elements.push(element)?;
    }
    match space.list(alloc, &elements[..])? {
        Made::Fits(list) => Ok(list),
        Made::Oversize => space.int(alloc, 0),
    }
}

/// Takes the first element of the list away until there is none, and returns how many there were.
pub(crate) fn taken_apart<S: TermSpace>(
    alloc: Global,
    space: &mut S,
    list: &S::Ref,
) -> Result<usize, AllocError>
    requires { IsTrue (S.space.stands space.old list.now) }
{
    let mut tail = space.dup(list)?;
    let count = space.count(&tail);
    for index in 0..count {
        match space.list_len(&tail) {
            Some(long) if long > 0 => tail = space.rest(alloc, &tail, 1)?,
            _ => return Ok(index),
        }
    }
    Ok(count)
}

/// Puts the integers below a number in front of an empty list, one by one, and returns how many elements it then has.
pub(crate) fn built<S: TermSpace>(
    alloc: Global,
    space: &mut S,
    size: u32,
) -> Result<usize, AllocError> {
    let Made::Fits(mut list) = space.list(alloc, &[])? else {
        return Ok(0);
    };
    let mut element = Vec::new(alloc);
    for value in 0..size {
        element.clear();
        let first = space.int(alloc, i64::from(value))?;
        element.push(first)?;
        if space.list_len(&list).is_none() {
            break;
        }
        let Made::Fits(longer) = space.prepend(alloc, &element[..], &list)? else {
            break;
        };
        list = longer;
    }
    Ok(space.count(&list))
}
