//! Programs on strings of about half the greatest weight of a term: `HALF` is the greatest of which two fit in a pair, `MORE` has one letter
//! more, and `HEAVY` has two more. What has no instance fails, whatever the size of its parts.
use crate::evaluator::rows::Row;

pub(crate) const LARGE_TERMS: &[Row] = &[
    Row("?x; !(x,x)", "HALF", "(HALF,HALF)", 5),
    Row("?x; !(x,x)", "MORE", "#oversize", 5),
    Row("?x; !(x,x,y)", "MORE", "#failed", 5),
    // a part that is too large
    Row("?x; !(1,2); all(!(x,x))", "HEAVY", "#oversize", 8),
    Row("?x; !(1,2); one(!(x,x))", "HEAVY", "#oversize", 8),
    Row("?x; !(1,2); some(!(x,x))", "HEAVY", "#oversize", 8),
    // a whole that is too large
    Row("?x; !(1,2); all(!x)", "HEAVY", "#oversize", 9),
    Row("?x; !(1,x); one(!x)", "HEAVY", "#oversize", 8),
    Row("?x; !(1,2); some(!x)", "HEAVY", "#oversize", 9),
    // no choice catches it
    Row("?x; (!(x,x) <+ id)", "HEAVY", "#oversize", 6),
];

/// Those with annotations.
pub(crate) const LARGE_ANNOTATIONS: &[Row] = &[
    // annotations that are kept
    Row("?x; !3{x,x}", "HALF", "3{HALF,HALF}", 5),
    Row("?x; !3{x,x}", "MORE", "#oversize", 5),
    Row("?x; !x{x}", "HEAVY", "#oversize", 5),
    Row("?x; !3{1{x,x}}", "MORE", "#oversize", 5),
    Row("?x; !3{x,x,y}", "MORE", "#failed", 5),
    Row("?x; !3{1{x,x},y}", "MORE", "#failed", 5),
    // annotations that are dropped
    Row("?x; !(3{x,x}){1}", "MORE", "3{1}", 5),
    Row("?x; !(3{x,x}){}", "MORE", "3", 5),
    Row("?x; !(x{x}){1}", "HEAVY", "HEAVY{1}", 5),
    Row("?x; !(3{x,x}){y}", "MORE", "#failed", 5),
    Row("?x; !(y{1}){x,x}", "MORE", "#failed", 5),
    Row("?x; ![1|[2]{x,x}]", "MORE", "[1,2]", 5),
    Row("?x; ![1|[2]{x,x}]{x,x}", "MORE", "#oversize", 5),
];

/// Definitions with term arguments.
pub(crate) const LARGE_ARGUMENTS: &[Row] = &[
    Row("f(|y) = id  main = ?x; f(|(x,x))", "HEAVY", "#oversize", 5),
    Row(
        "f(|y,z) = id  main = ?x; f(|(x,x),y)",
        "HEAVY",
        "#failed",
        5,
    ),
];
