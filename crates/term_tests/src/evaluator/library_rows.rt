//! Definitions that call strategies of the library.
use crate::evaluator::rows::Row;

pub(crate) const LIBRARY: &[Row] = &[
    Row("main = where(oncetd(?Foo(x))); !x", "G(Foo(1),2)", "1", 19),
    Row(
        "f(s) = s  main = try(f(?Foo(x); fail)); !x",
        "Foo(1)",
        "#failed",
        13,
    ),
    Row(
        "main = ?F(x,_); topdown(try(?x; !0))",
        "F(1,G(1))",
        "F(0,G(0))",
        46,
    ),
    Row("main = repeat(\\ x -> F(x,x) \\)", "1", "#oversize", 231),
];
