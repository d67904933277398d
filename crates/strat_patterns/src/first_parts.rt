//! The first parts of a term.
ghost use Rattle.std.specs.Prelude.{IfOk, IsTrue};
ghost use Rattle.term_model.specs.TermParts.{parts_of};
ghost use Rattle.strat_steps.specs.Matches.{AreFirst};

use std::alloc::{AllocError, Global};
use term_model::TermSpace;

/// The parts of the term on a vector, but at most `count` of them, by one walk along them.
pub(crate) fn first_parts<S: TermSpace>(
    space: &S,
    alloc: Global,
    at: &S::Ref,
    count: usize,
) -> Result<Vec<S::Ref>, AllocError>
    requires { IsTrue (S.space.stands space.now at.now) }
    ensures { IfOk result (λ rs.
        AreFirst S.space space.now (parts_of (S.space.term_of space.now at.now)) count rs.items) }
{
    let mut parts = Vec::new(alloc);
    for part in space.parts(at).walk() {
        if parts.len() == count {
            return Ok(parts);
        }
        let reference = space.dup(part)?;
        parts.push(reference)?;
    }
    Ok(parts)
}
