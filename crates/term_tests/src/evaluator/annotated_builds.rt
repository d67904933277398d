//! Programs with annotations in builds. Those that are dropped again need an instance.
use crate::evaluator::rows::Row;

pub(crate) const ANNOTATED_BUILDS: &[Row] = &[
    Row("?x; !x{x}", "1{a}", "1{1{a}}", 5),
    Row("?x; !x{}", "F(1{a}){b}", "F(1{a})", 5),
    Row("!1{}", "7", "1", 2),
    Row("!1{2,3}", "7", "1{2,3}", 2),
    // a variable without a term
    Row("!1{x}", "7", "#failed", 3),
    Row("!x{1}", "7", "#failed", 3),
    // annotations of what has some
    Row("!(1{2}){3}", "7", "1{3}", 2),
    Row("!(1{2}){}", "7", "1", 2),
    Row("!(1{x}){3}", "7", "#failed", 3),
    Row("!((1{x}){2}){3}", "7", "#failed", 3),
    // annotations of the rest of a list
    Row("![1|[2]{3}]", "7", "[1,2]", 2),
    Row("![1|[2]{x}]", "7", "#failed", 3),
    Row("![1|2{3}]", "7", "#failed", 2),
    Row("?x; ![1|x{2}]{3}", "[2]{a}", "[1,2]{3}", 5),
];
