//! Programs with calls of primitives.
use crate::evaluator::rows::Row;

/// Adds the parts of a pair.
pub(crate) const ADD: &str = "?(x,y); prim(\"add\",x,y)";

pub(crate) const PRIMITIVES: &[Row] = &[
    Row(ADD, "(2,3)", "5", 5),
    // at the greatest and the least integer, and past them
    Row(ADD, "(9223372036854775807,0)", "9223372036854775807", 5),
    Row(ADD, "(9223372036854775807,1)", "#failed", 5),
    Row(ADD, "(-9223372036854775807,-1)", "-9223372036854775808", 5),
    Row(ADD, "(-9223372036854775808,-1)", "#failed", 5),
    // arguments that are annotated, not flat, without a term, or too large
    Row(ADD, "(2{5},3)", "5", 5),
    Row(ADD, "([1],2)", "#failed", 5),
    Row(ADD, "(2,(1))", "#failed", 5),
    Row("?x; prim(\"add\",x,y)", "1", "#failed", 5),
    Row("?x; prim(\"add\",(x,x),y)", "HEAVY", "#failed", 5),
    Row("?x; prim(\"length\",(x,x))", "HEAVY", "#oversize", 5),
    Row("?(x,y); prim(\"sub\",x,y)", "(5,3)", "2", 5),
    Row("?x; prim(\"length\",x)", "\"aaa\"{5}", "3", 5),
    Row("?x; prim(\"length\",x)", "3", "#failed", 5),
    Row("?x; prim(\"length\",x)", "abc", "#failed", 5),
    Row("?x; prim(\"implode\",x)", "[97{5},97]", "\"aa\"", 5),
    Row("?x; prim(\"implode\",x)", "[97,[]]", "#failed", 5),
    Row("?x; prim(\"implode\",x)", "[256]", "#failed", 5),
    Row("?x; prim(\"implode\",x)", "[4294967361]", "#failed", 5),
    Row("?x; prim(\"explode\",x)", "\"aa\"", "[97,97]", 5),
    // a result that is too large
    Row("?x; prim(\"concat\",x,x)", "HEAVY", "#oversize", 5),
    Row("all(prim(\"add\",3,4))", "(1,1)", "(7,7)", 4),
];
