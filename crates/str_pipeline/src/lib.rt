//! From the bytes of definitions and of a term to the bytes of the answer.
#![tactic(auto)]

mod alternative_table;
mod alternatives;
mod answer;
mod call_rows;
mod callers;
mod causes;
mod checking;
mod compiled;
mod counted;
mod counters;
mod definition_counts;
mod empty_text;
mod explainer;
mod explaining;
mod failures;
mod fault_remarks;
mod faulty;
mod followed;
mod joined;
mod laws;
mod pipeline;
mod profile_table;
mod program;
mod progress;
mod rerun;
mod run_record;
mod run_tables;
mod runs;
mod sink;
mod source;
mod status;
mod tally;
mod usage;
mod waiting_calls;

pub use answer::{DEFAULT_BUDGET, MAX_BUDGET, MAX_DEFINITIONS, MAX_TERM};
pub use checking::{check_definitions, check_joined};
pub use counted::Counted;
pub use diagnostics::{
    Advice, Context, Coverage, Excerpt, Explanation, Hint, HintOnLine, Inquiry, NameHint,
    NamedLine, Operation, OtherPlace, OversizeTerm, Position, Reason, Remark, Role, Row, RunNotes,
    Shown, Subject, TermExpected, Used, Wanted,
};
pub use empty_text::EmptyText;
pub use faulty::Faulty;
pub use laws::{joined_form_law, one_line_law};
pub use pipeline::{
    transform, transform_joined, transform_joined_with_notes, transform_with_notes,
};
pub use program::Program;
pub use progress::FileProgress;
pub use sink::{Sink, write_all};
pub use source::{Source, read_all};
pub use status::{Options, Status};
pub use tally::Count;
