//! Definitions with closures and term arguments.
use crate::evaluator::rows::Row;

pub(crate) const CALLS: &[Row] = &[
    Row("main = let f = ?1 in f end", "1", "1", 4),
    Row("main = let f = ?1 in f end", "2", "#failed", 4),
    Row("main = {x: let f = ?x in f; !x end}", "7", "7", 7),
    // a definition is called through two layers, and sees the variable of its own
    Row("main = ?x; let f = !x in {x: !2; ?x; f} end", "7", "7", 12),
    // term arguments: one, and one without a term
    Row("f(|x) = !x  main = f(|3)", "1", "3", 3),
    Row("f(|y) = id  main = f(|x)", "1", "#failed", 3),
    // the places of a call are dropped after it
    Row("f(|y) = id  main = f(|1); !x", "4", "#failed", 6),
    Row("f(s) = s  main = f(?1)", "1", "1", 4),
    Row("f(s) = s  main = f(?1)", "2", "#failed", 4),
    // a closure binds, and is undone
    Row("f(s) = s <+ id  main = f(?x; fail); !x", "1", "#failed", 11),
    // a closure runs where it was made
    Row("f(s|y) = !y; ?x; s  main = ?x; f(!x|9)", "4", "4", 12),
    // a parameter is handed on as its closure
    Row(
        "f(s) = let g(t) = t <+ id in g(s) end  main = f(fail)",
        "3",
        "3",
        8,
    ),
    // a closure binds at its maker
    Row(
        "f(s) = ?F(x); !x; s  main = where(!5 => x); f(!Pair(<id>, x))",
        "F(2)",
        "Pair(2,5)",
        28,
    ),
];
