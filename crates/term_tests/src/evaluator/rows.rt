//! Programs as texts: what each makes of a term, and by how many nodes.

/// A strategy, or definitions with a `main`; a term; the term to which it is rewritten, or `#failed` or `#oversize`; and the number of nodes of
/// the derivation.
pub(crate) struct Row(
    pub &'static str,
    pub &'static str,
    pub &'static str,
    pub u32,
);

/// What stands before definitions, and before a strategy that is run.
pub(crate) const DEFINITIONS: &str = "strategies ";

pub(crate) const MAIN_IS: &str = "strategies main = ";

pub(crate) const STRATEGIES: &[Row] = &[
    Row("id", "(1,2)", "(1,2)", 2),
    Row("fail", "(1,2)", "#failed", 2),
    Row("?(x,_); !x", "(7,f(1))", "7", 5),
    Row("?(x,1); !x", "(1,2)", "#failed", 4),
    Row("!(x,2)", "(1,2)", "#failed", 3),
    Row("(?(x,1) <+ ?(1,x)); !x", "(1,2)", "2", 7),
    Row("?(x,x)", "(1,1)", "(1,1)", 3),
    Row("?(x,x)", "(1,1{5})", "#failed", 3),
    Row("?x; {y: ?y; !(x,y)}", "5", "(5,5)", 8),
    Row("id < fail + id", "1", "#failed", 4),
    Row("fail < id + id", "1", "1", 4),
    Row("id; id; id", "1", "1", 6),
    Row("fail <+ fail <+ id", "1", "1", 6),
];

/// Definitions without an end: a recursion, and a call that hands on its term.
pub(crate) const ENDLESS: &[&str] = &["main = rec x(x)", "main = ?x; f(|x)  f(|x) = f(|x)"];
