//! Bindings: the places of a run.
ghost use Rattle.std.specs.Prelude.{◌≡◌, ◌++◌, IfOk, OnOk};
ghost use Rattle.core_lang.specs.Environment.{empty_places, filled_places};
ghost use Rattle.term_model.specs.Term.{trees_of};

use std::alloc::{AllocError, Global};
use term_model::Term;

/// Returns a copy of the bindings.
pub(crate) fn save(alloc: Global, places: &[Option<Term>]) -> Result<Vec<Option<Term>>, AllocError>
    ensures { IfOk result (λ copy. copy.items ≡ places.now) }
{
    let mut copy = Vec::new(alloc);
    for place in places {
        match place {
            None => {
                copy.push(None)?;
            }
            Some(t) => {
                copy.push(Some(t.clone()?))?;
            }
        }
    }
    Ok(copy)
}

/// Adds this number of new places, with nothing.
pub(crate) fn push_empty(places: &mut Vec<Option<Term>>, count: usize) -> Result<(), AllocError>
    ensures { OnOk result (places.new.items ≡ places.old.items ++ empty_places count) }
{
    for _i in 0..count {
        places.push(None)?;
    }
    Ok(())
}

/// Adds new places with these terms.
pub(crate) fn push_terms(places: &mut Vec<Option<Term>>, terms: &[Term]) -> Result<(), AllocError>
    ensures { OnOk result (places.new.items ≡ places.old.items ++
        filled_places (trees_of terms.now)) }
{
    for t in terms {
        places.push(Some(t.clone()?))?;
    }
    Ok(())
}
