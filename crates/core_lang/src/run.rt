//! Results of runs.

/// How a run ends: with a term, by failing, with a term that would be too large, or with its budget used up.
#[derive(Clone, Debug, Drop, PartialEq, Eq)]
pub enum Outcome<R> {
    Rewritten(R),
    Failed,
    Oversize,
    Spent,
}

/// A run: how it ended, how many nodes of the derivation it took, and how many steps of a machine.
#[derive(Clone, Debug, Drop, PartialEq, Eq)]
pub struct Run<R> {
    pub outcome: Outcome<R>,
    pub rules: u64,
    pub steps: u64,
}
