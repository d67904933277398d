//! What variables have.
ghost use Rattle.std.specs.Prelude.{◌≡◌, IsTrue, MatchOption, Some, None, map};
ghost use Rattle.std.specs.Option.{option_map};
ghost use Rattle.core_lang.specs.Building.{value_in};
ghost use Rattle.strat_patterns.specs.Builds.{held_in};
ghost use Rattle.strat_steps.specs.References.{AllPlaces};
ghost use Rattle.strat_steps.specs.State.{place_at};

use crate::frames::Frames;
use core_lang::Coordinate;
use term_model::TermSpace;

/// Returns the reference that a variable has, seen from the frame at `here`, or `None` if it has none yet. The space is that of the
/// references.
pub fn value<'a, S: TermSpace>(
    space: &S,
    frames: &Frames,
    here: usize,
    variable: Coordinate,
    slots: &'a [Option<S::Ref>],
) -> Option<&'a S::Ref>
    requires { AllPlaces (λ r. IsTrue (S.space.stands space.now r)) slots.now }
    ensures { MatchOption result (value_in (place_at frames.now here variable)
        (map (option_map (S.space.term_of space.now)) slots.now) ≡ None)
        (λ r. IsTrue (S.space.stands space.now r.now) ×
        (value_in (place_at frames.now here variable)
        (map (option_map (S.space.term_of space.now)) slots.now) ≡
        Some (S.space.term_of space.now r.now))) }
{
    let _ = space;
    held(frames, here, variable, slots)
}

/// What the place of a variable has.
fn held<'a, R>(
    frames: &Frames,
    here: usize,
    variable: Coordinate,
    slots: &'a [Option<R>],
) -> Option<&'a R>
    ensures { MatchOption result (held_in (place_at frames.now here variable) slots.now ≡ None)
        (λ r. held_in (place_at frames.now here variable) slots.now ≡ Some r.now) }
{
    let place = frames.place_of(here, variable, slots.len())?;
    match &slots[place] {
        Some(reference) => Some(reference),
        None => None,
    }
}
