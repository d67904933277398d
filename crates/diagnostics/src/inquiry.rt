//! What is asked of a run beside its result.

/// Of which files of definitions the alternatives are counted.
#[derive(Clone, Copy, Debug, PartialEq, Eq)]
pub enum Coverage {
    LastFile,
    AllFiles,
}

/// What a person asks of a run beside its result.
#[derive(Drop)]
pub struct Inquiry {
    /// Why it has no result, and all warnings about the definitions.
    pub explains: bool,
    /// How often each alternative was tried, matched and succeeded, in these files.
    pub counts: Option<Coverage>,
    /// How many rules each definition took.
    pub profiles: bool,
    /// The calls of the definitions with these names.
    pub traces: Vec<Vec<u8>>,
    /// Of those calls the ones that fail.
    pub only_failures: bool,
}

impl Inquiry {
    /// Returns whether tables or traces are asked for, which take another run.
    pub fn wants_tables(&self) -> bool {
        self.counts.is_some() || self.profiles || !self.traces.is_empty()
    }

    /// Returns whether the answer takes the text of the term.
    pub fn needs_term(&self) -> bool {
        self.explains || self.wants_tables()
    }
}
