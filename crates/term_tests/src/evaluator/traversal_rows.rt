//! Programs of traversals.
use crate::evaluator::rows::Row;

pub(crate) const TRAVERSALS: &[Row] = &[
    Row("all(fail)", "[]", "[]", 2),
    Row("all(fail)", "[1]", "#failed", 3),
    Row("all(id)", "(1,2)", "(1,2)", 4),
    Row("all(?1)", "(1,2)", "#failed", 4),
    Row("all(!2)", "(1,3){5}", "(2,2){5}", 4),
    Row("all(id)", "7", "7", 2),
    Row("all(?x)", "(1,1)", "(1,1)", 5),
    Row("all(?x)", "(1,2)", "#failed", 5),
    Row("one(?1)", "(2,1,1)", "(2,1,1)", 4),
    Row("one(fail)", "(1,2)", "#failed", 4),
    Row("one(!9)", "(1,2){5}", "(9,2){5}", 3),
    Row("one(id)", "[]", "#failed", 2),
    // each part has the same bindings
    Row("one(?x; ?2); !x", "(1,2)", "2", 11),
    Row("some(?1)", "(2,1,1)", "(2,1,1)", 5),
    Row("some(fail)", "(1,2)", "#failed", 4),
    Row("some(!9)", "(1,2){5}", "(9,9){5}", 4),
    Row("some(id)", "3", "#failed", 2),
    // the second part sees what the first one bound
    Row("some(?x; !9)", "(1,2,1)", "(9,2,9)", 11),
    // a part that fails leaves no binding
    Row("some(?x; ?2); !x", "(1,2)", "2", 11),
];
