//! Calls of primitives.
ghost use Rattle.std.specs.Prelude.{◌≡◌, IfOk, length};
ghost use Rattle.std.specs.Option.{option_and_then, option_map};
ghost use Rattle.core_lang.specs.Building.{instances as instances_of};
ghost use Rattle.core_lang.specs.Ending.{answered, arguments};
ghost use Rattle.core_lang.specs.Resolved.{by_coordinates};
ghost use Rattle.core_lang.specs.Settled.{ends};
ghost use Rattle.core_lang.specs.Views.{patterns_of};
ghost use Rattle.term_model.specs.Flat.{all_flat};
ghost use Rattle.term_model.specs.Flat as flat;
ghost use Rattle.term_model.specs.Term.{made_of, trees_of};
ghost use Rattle.core_eval.specs.Evaluates.{verdict_of};
ghost use Rattle.core_eval.specs.Frame.{environment_of};

use crate::flat_values::{flat_values, term_of};
use crate::frame::Frame;
use crate::instance::instances;
use crate::making::build_outcome;
use crate::primitives::Primitives;
use crate::state::State;
use core_lang::{CorePattern, Outcome};
use std::alloc::{AllocError, Global};
use term_model::{Made, Term};

/// Calls the primitive of this name with the instances of the patterns; the node of the call is paid.
pub(crate) fn evaluate_primitive<P: Primitives>(
    primitives: &P,
    name: &[u8],
    terms: &[CorePattern],
    frame: &Frame,
    state: &State,
) -> Result<Outcome<Term>, AllocError>
    requires { P.honest primitives.now }
    ensures { IfOk result (λ r. verdict_of r state.now.places.items ≡
        ends (answered (P.meaning primitives.now name.now)
        (arguments (instances_of (by_coordinates.place_of (environment_of frame.now))
        (patterns_of terms.now) state.now.places.items) state.now.places.items))) }
{
    match instances(state.alloc, terms, frame, state.places.as_slice())? {
        None => Ok(Outcome::Failed),
        Some(Made::Oversize) => Ok(Outcome::Oversize),
        Some(Made::Fits(values)) => {
            let made = answer(state.alloc, primitives, name, values.as_slice())?;
            Ok(build_outcome(made))
        }
    }
}

/// Makes the term of what the primitive of this name returns to the terms; none where one of them is no flat value, or where it
/// returns nothing.
fn answer<P: Primitives>(
    alloc: Global,
    primitives: &P,
    name: &[u8],
    terms: &[Term],
) -> Result<Option<Made<Term>>, AllocError>
    requires { P.honest primitives.now }
    ensures { IfOk result (λ made. made ≡
        option_map made_of (option_map flat.term_of
        (option_and_then (P.meaning primitives.now name.now) (all_flat (trees_of terms.now))))) }
{
    let Some(args) = flat_values(alloc, terms)? else {
        return Ok(None);
    };
    let Some(value) = primitives.call(name, args.as_slice())? else {
        return Ok(None);
    };
    let made = term_of(alloc, &value)?;
    Ok(Some(made))
}
