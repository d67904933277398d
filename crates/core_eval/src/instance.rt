//! What a build makes of a pattern.
ghost use Rattle.std.specs.Prelude.{◌≡◌, IfOk, [], Some, Option, false};
ghost use Rattle.std.specs.Option.{option_map};
ghost use Rattle.core_lang.specs.Building as building;
ghost use Rattle.core_lang.specs.Resolved.{by_coordinates};
ghost use Rattle.core_lang.specs.Views.{elements_in, pattern_of, patterns_of, rest_of};
ghost use Rattle.term_model.specs.Term.{Trees, node, end, fits, made_of};
ghost use Rattle.core_eval.specs.Frame.{environment_of};
ghost use Rattle.core_eval.specs.Instance.{AreMade, made_like_other};

use crate::frame::{Frame, value};
use crate::making::{append, application, integer, is_list, keep, like_other, list};
use core_lang::{Coordinate, CorePattern};
use std::alloc::{AllocError, Global};
use term_model::{Head, Made, Term};

/// The instance of the pattern, with the annotations of another term if there is one in place of its own; none where
/// a variable has no term, however large the rest.
#[cycle(instance)]
pub(crate) fn instance(
    alloc: Global,
    p: &CorePattern,
    other: Option<&Term>,
    frame: &Frame,
    places: &[Option<Term>],
) -> Result<Option<Made<Term>>, AllocError>
    ensures { IfOk result (λ made. made ≡
        option_map made_of (made_like_other
        (building.instance (by_coordinates.place_of (environment_of frame.now)) (pattern_of p.now)
        places.now) other.entry)) }
{
    match p {
        CorePattern::Anything | CorePattern::Alias(_, _) => Ok(None),
        CorePattern::Variable(x) => { variable(alloc, *x, other, frame, places) }
        CorePattern::Integer(number) => {
            let made = integer(alloc, *number, other)?;
            Ok(Some(made))
        }
        CorePattern::Applied(symbol, parts) => {
            let terms = instances(alloc, parts.as_slice(), frame, places)?;
            application(alloc, symbol, terms, other)
        }
        CorePattern::List(first, rest) => {
            let terms = instances(alloc, first.as_slice(), frame, places)?;
            let others = rest_elements(alloc, rest, frame, places)?;
            let made = list(alloc, append(terms, others)?, other)?;
            Ok(made)
        }
        CorePattern::Like(part, x) => match value(frame, *x, places) {
            Some(t) => match other {
                None => instance(alloc, part, Some(t), frame, places),
                Some(_) => instance(alloc, part, other, frame, places),
            },
            None => Ok(None),
        },
        CorePattern::Annotated(part, annotations) => {
            let annos = instances(alloc, annotations.as_slice(), frame, places)?;
            annotated_instance(alloc, part, annos, other, frame, places)
        }
    }
}

/// Makes the instance of the pattern with these annotations, or with those of another term if there is one.
#[cycle(instance)]
fn annotated_instance(
    alloc: Global,
    p: &CorePattern,
    annos: Option<Made<Vec<Term>>>,
    other: Option<&Term>,
    frame: &Frame,
    places: &[Option<Term>],
) -> Result<Option<Made<Term>>, AllocError>
    ensures { IfOk result (λ made. (us : Option Trees) → AreMade us annos →
        made ≡ option_map made_of
        (made_like_other (building.made_with
        (building.instance (by_coordinates.place_of (environment_of frame.now)) (pattern_of p.now)
        places.now) us) other.entry)) }
{
    let Some(annos) = annos else {
        return Ok(None);
    };
    match other {
        None => { with_annotations(alloc, p, annos, frame, places) }
        Some(_) => { instance(alloc, p, other, frame, places) }
    }
}

/// Makes the instance of the pattern with these annotations.
#[cycle(instance)]
fn with_annotations(
    alloc: Global,
    p: &CorePattern,
    annos: Made<Vec<Term>>,
    frame: &Frame,
    places: &[Option<Term>],
) -> Result<Option<Made<Term>>, AllocError>
    ensures { IfOk result (λ made. (us : Option Trees) → AreMade us (Some annos) →
        made ≡ option_map made_of
        (building.made_with (building.instance (by_coordinates.place_of (environment_of frame.now))
        (pattern_of p.now) places.now) us)) }
{
    let Made::Fits(holder) = holder(alloc, annos)? else {
        let made = too_large(alloc, p, frame, places)?;
        return Ok(made);
    };
    let made = instance(alloc, p, Some(&holder), frame, places)?;
    Ok(made)
}

/// Makes a term with these annotations: the empty list.
fn holder(alloc: Global, annos: Made<Vec<Term>>) -> Result<Made<Term>, AllocError>
    ensures { IfOk result (λ made. (us : Trees) → AreMade (Some us) (Some annos) →
        made ≡ made_of (node Head.List end us)) }
{
    match annos {
        Made::Fits(annos) => { Term::new(alloc, Head::List, Vec::new(alloc), annos) }
        Made::Oversize => Ok(Made::Oversize),
    }
}

/// What the instance of the pattern is with annotations that are too large for any term.
#[cycle(instance)]
fn too_large(
    alloc: Global,
    p: &CorePattern,
    frame: &Frame,
    places: &[Option<Term>],
) -> Result<Option<Made<Term>>, AllocError>
    ensures { IfOk result (λ made. (us : Trees) → fits (node Head.List end us) ≡ false →
        made ≡ option_map made_of
        (building.made_with (building.instance (by_coordinates.place_of (environment_of frame.now))
        (pattern_of p.now) places.now) (Some us))) }
{
    let Some(_) = instance(alloc, p, None, frame, places)? else {
        return Ok(None);
    };
    Ok(Some(Made::Oversize))
}

/// Makes the term of the variable, with the annotations of another term if there is one; none where it has no term.
fn variable(
    alloc: Global,
    x: Coordinate,
    other: Option<&Term>,
    frame: &Frame,
    places: &[Option<Term>],
) -> Result<Option<Made<Term>>, AllocError>
    ensures { IfOk result (λ made. made ≡
        option_map made_of (made_like_other
        (building.value_in (by_coordinates.place_of (environment_of frame.now) x) places.now)
        other.entry)) }
{
    match value(frame, x, places) {
        Some(t) => {
            let made = like_other(alloc, t, other)?;
            Ok(Some(made))
        }
        None => Ok(None),
    }
}

/// Makes the elements of the instance of the rest of a list; an absent rest has none.
#[cycle(instance)]
fn rest_elements(
    alloc: Global,
    rest: &Option<Box<CorePattern>>,
    frame: &Frame,
    places: &[Option<Term>],
) -> Result<Option<Made<Vec<Term>>>, AllocError>
    ensures { IfOk result (λ made. AreMade
        (building.element_instances (by_coordinates.place_of (environment_of frame.now))
        (elements_in [] (rest_of rest.now)) places.now) made) }
{
    match rest {
        None => Ok(Some(Made::Fits(Vec::new(alloc)))),
        Some(p) => {
            let made = elements(alloc, p, frame, places)?;
            Ok(made)
        }
    }
}

/// The elements of the instance of the pattern, which is a list; none where it is no list.
#[cycle(instance)]
fn elements(
    alloc: Global,
    p: &CorePattern,
    frame: &Frame,
    places: &[Option<Term>],
) -> Result<Option<Made<Vec<Term>>>, AllocError>
    ensures { IfOk result (λ made. AreMade
        (building.elements_of (building.instance
        (by_coordinates.place_of (environment_of frame.now)) (pattern_of p.now) places.now)) made) }
{
    match p {
        CorePattern::Variable(x) => match value(frame, *x, places) {
            Some(t) => {
                if !is_list(t) {
                    return Ok(None);
                }
                t.fits();
                let parts = Vec::from_clones(alloc, t.children())?;
                Ok(Some(Made::Fits(parts)))
            }
            None => Ok(None),
        },
        CorePattern::List(first, rest) => {
            let terms = instances(alloc, first.as_slice(), frame, places)?;
            let others = rest_elements(alloc, rest, frame, places)?;
            let all = append(terms, others)?;
            Ok(all)
        }
        CorePattern::Like(part, x) => match value(frame, *x, places) {
            Some(_) => { elements(alloc, part, frame, places) }
            None => Ok(None),
        },
        CorePattern::Annotated(part, annotations) => {
            let Some(_) = instances(alloc, annotations.as_slice(), frame, places)? else {
                return Ok(None);
            };
            elements(alloc, part, frame, places)
        }
        CorePattern::Anything => Ok(None),
        CorePattern::Alias(_, _) => Ok(None),
        CorePattern::Integer(_) => Ok(None),
        CorePattern::Applied(_, _) => Ok(None),
    }
}

/// The instances of the patterns; none where one has none, else oversize where one does not fit.
#[cycle(instance)]
pub(crate) fn instances(
    alloc: Global,
    patterns: &[CorePattern],
    frame: &Frame,
    places: &[Option<Term>],
) -> Result<Option<Made<Vec<Term>>>, AllocError>
    ensures { IfOk result (λ made. AreMade
        (building.instances (by_coordinates.place_of (environment_of frame.now))
        (patterns_of patterns.now) places.now) made) }
{
    let mut terms = Vec::new(alloc);
    let mut fit = true;
    for p in patterns {
        let Some(made) = instance(alloc, p, None, frame, places)? else {
            return Ok(None);
        };
        fit &= keep(&mut terms, made)?;
    }
    if !fit {
        return Ok(Some(Made::Oversize));
    }
    Ok(Some(Made::Fits(terms)))
}
