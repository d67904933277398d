//! Programs with lists, integers and names of whole terms.
use crate::evaluator::rows::Row;

pub(crate) const PATTERNS: &[Row] = &[
    Row("?[x|xs]; !xs", "[1,2,9]{5}", "[2,9]", 5),
    Row("?xs; ![1|xs]", "[2]{5}", "[1,2]", 5),
    Row("?[x]", "[1,2]", "#failed", 3),
    Row("?[x|xs]", "[]", "#failed", 3),
    Row("?[1|_]", "[2]", "#failed", 2),
    Row("?[]", "[]", "[]", 2),
    Row("?[]", "1", "#failed", 2),
    Row("?x; ![1|x]", "3", "#failed", 5),
    // integers that are the same in their lower halves, and the greatest and the least one
    Row("?1", "4294967297", "#failed", 2),
    Row("?4294967297", "1", "#failed", 2),
    Row("?(x,x)", "(1,4294967297)", "#failed", 3),
    Row(
        "?(9223372036854775807,-9223372036854775808)",
        "(9223372036854775807,-9223372036854775808)",
        "(9223372036854775807,-9223372036854775808)",
        2,
    ),
    Row("?x@(y,2); !(y,y)", "(3,2)", "(3,3)", 5),
    Row("?x@2", "3", "#failed", 3),
];
