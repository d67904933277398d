//! What is asked, and how it ended.
use term_model::Fault;

/// How a transformation is to be done.
#[derive(Debug, Drop)]
pub struct Options {
    /// The name of the definition that is applied to the term, one without parameters. Any bytes will do: where no definition has
    /// the name, the definitions are refused.
    pub main: Vec<u8>,
    /// Whether a term is refused that has an application which the definitions do not declare.
    pub strict: bool,
    /// The most rules of the run, which are the nodes of its derivation: at most `MAX_BUDGET`.
    pub budget: u64,
}

/// How a transformation ended.
#[derive(Debug, Drop)]
pub enum Status {
    /// The term was rewritten, and the result is written.
    Rewritten,
    /// The strategy failed.
    Failed,
    /// A term was to be made that is too large.
    Oversize,
    /// No derivation is within the budget.
    Spent,
    /// The definitions or the text of the term were refused.
    Refused(Fault),
}
