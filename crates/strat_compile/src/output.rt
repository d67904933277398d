//! Code as it is emitted, from its end to its beginning.
ghost use Rattle.strat_compile.specs.Tables.{HaveTables};

use crate::sources::{Marked, Sources};
use strat_code::{Case, Instr};

/// The code from here to the end. What stands last in the code is emitted first, so that the place that an instruction leads
/// to is known when it is emitted. A place is how many instructions there are from there to the end; a definition is
/// known by its label until all is emitted.
#[derive(Drop)]
pub(crate) struct Output {
    /// The last one first.
    pub(crate) instrs: Vec<Instr>,
    /// The tables that instructions select from, with places in their cases.
    pub(crate) tables: Vec<Vec<Case>>,
    /// For each label where the code of its definition starts.
    pub(crate) starts: Vec<usize>,
    /// How many strategies may still be looked at in alternatives.
    pub(crate) visits: usize,
    /// For each definition of the program whether it may reach itself by calls.
    pub(crate) recursive: Vec<bool>,
    /// Whether the code that is emitted is that of an expansion: of a call in place or of a specialization.
    pub(crate) is_expanding: bool,
    /// Whether only definitions with strategy parameters are in place in the expansion.
    pub(crate) is_sparing: bool,
    /// The size of the code of all expansions.
    pub(crate) expanded: usize,
    /// Whether each call is a call: none is expanded.
    pub(crate) keeps_calls: bool,
    /// Where strategies stand in the definition file, if that is kept.
    pub(crate) sources: Option<Sources>,
    ghost tidy: { HaveTables tables.items instrs.items },
}

/// Code with addresses, and its tables.
#[derive(Drop)]
pub(crate) struct Finished {
    pub(crate) instrs: Vec<Instr>,
    pub(crate) tables: Vec<Vec<Case>>,
    pub(crate) marked: Marked,
}
