//! Programs with annotations in matches.
use crate::evaluator::rows::Row;

pub(crate) const ANNOTATED_MATCHES: &[Row] = &[
    // as many annotations as there are patterns
    Row("?x{_}; !x", "1{a}", "1", 5),
    Row("?x{_}; !x", "1", "#failed", 4),
    Row("?x{_}; !x", "1{a,b}", "#failed", 4),
    Row("?x{}", "1", "1", 3),
    Row("?x{}", "1{a}", "#failed", 3),
    Row("{x, y: ?_{y,_{x}}; !(x,y)}", "1{a,2{b}}", "(b,a)", 5),
    // of an application, an integer and a list
    Row("?F(x){A(y)}; !G(y){x}", "F(1){A(2)}", "G(2){1}", 5),
    Row("?F(x){A(y)}", "F(1){G(2)}", "#failed", 3),
    Row("?F(x){A(y)}", "G(1){A(2)}", "#failed", 3),
    Row("?F(x){_}; !x", "F(1{a}){b}", "1{a}", 5),
    Row("?1{_}", "1{a}", "1{a}", 2),
    Row("?1{_}", "2{a}", "#failed", 2),
    Row("?[_]{}", "[1]", "[1]", 2),
    Row("?[_]{}", "[1,2]", "#failed", 2),
    Row("?[_]{}", "[1]{a}", "#failed", 2),
    // a variable before braces has its term without annotations
    Row("?x{x}", "1{1}", "1{1}", 3),
    Row("?x{x}", "1{1{a}}", "#failed", 3),
    Row("?(x,x{y})", "(1,1{a})", "(1,1{a})", 3),
    Row("?(x,x{y})", "(1{a},1{a})", "#failed", 3),
    Row("?(x{y},x)", "(1{a},1)", "(1{a},1)", 3),
    Row("?(x{y},x)", "(1{a},1{a})", "#failed", 3),
    Row("?(x,_{x})", "(a,1{a})", "(a,1{a})", 3),
    Row("?(x,_{x})", "(a,1{b})", "#failed", 3),
    Row("?x@_{y}; !(x,y)", "1{a}", "(1{a},a)", 5),
    Row("?(x@_){y}; !(x,y)", "1{a}", "(1,a)", 5),
    // braces before braces
    Row("{x, y: ?(_{}){y}; !y}", "1{a}", "a", 5),
    Row("?(_{x}){y}", "1{a}", "#failed", 3),
    // the rest of a list has no annotations
    Row("?[1|x{}]; !x", "[1,2]{a}", "[2]", 5),
    Row("?[1|x{_}]", "[1,2]{a}", "#failed", 3),
    Row("?[1|x]{y}; !(x,y)", "[1,2]{a}", "([2],a)", 5),
    // a failed match gives back what it bound
    Row("(?(x{_},1) <+ ?(_,x)); !x", "(7{a},2)", "2", 7),
];
