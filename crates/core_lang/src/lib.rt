//! Core programs and their meaning.
#![tactic(auto)]

mod coordinate;
mod copy;
mod core_program;
mod examples;
mod laws;
mod primitives;
mod program;
mod range;
mod run;
mod source;

pub use coordinate::Coordinate;
pub use core_program::Core;
pub use examples::{
    more_programs, small_program_resolved, small_programs, small_programs_out_of_range,
};
pub use laws::{
    budgets_settle, coordinates_keep_primitives, coordinates_stand_for_names,
    derivations_keep_bindings, identity_keeps, matching_goes_left_to_right, other_roots_fail,
    outcomes_are_unique, patterns_match_one_way, primitives_that_occur_decide,
    programs_in_range_have_names,
};
pub use program::{CoreArm, CoreDef, CorePattern, CoreStrategy};
pub use run::{Outcome, Run};
pub use source::{CallTarget, SourcePattern};
