//! Files that call primitives, where the standard ones are registered.
use crate::transform::rows::TextRow;

pub(crate) const PRIMITIVE_ROWS: &[TextRow] = &[
    (
        "strategies main = ?(x,y); prim(\"add\",x,y)",
        "(2,3)",
        "5",
        Some(5),
    ),
    (
        "strategies main = ?(x,y); prim(\"add\",x,y)",
        "(9223372036854775807,1)",
        "#failed",
        None,
    ),
    (
        "strategies main = ?(x,y); prim(\"add\",x,y)",
        "(2147483647,1)",
        "2147483648",
        Some(5),
    ),
    (
        "strategies main = ?(x,y); prim(\"div\",x,y)",
        "(-2147483648,-1)",
        "2147483648",
        Some(5),
    ),
    (
        "strategies main = ?(x,y); prim(\"div\",x,y)",
        "(-9223372036854775808,-1)",
        "#failed",
        None,
    ),
    (
        "strategies main = ?(x,y); prim(\"mod\",x,y)",
        "(-9223372036854775808,-1)",
        "0",
        Some(5),
    ),
    (
        "strategies main = ?x; prim(\"implode\",x)",
        "[4294967361]",
        "#failed",
        None,
    ),
    (
        "strategies main = ?(x,y); prim(\"add\",x,y)",
        "([1],2)",
        "#failed",
        None,
    ),
    (
        "strategies main = ?x; prim(\"length\",x)",
        "\"abc\"{n}",
        "3",
        Some(5),
    ),
    (
        "strategies main = ?x; prim(\"add\",x,y)",
        "1",
        "#failed",
        None,
    ),
    (
        "strategies main = prim(\"add\",1)",
        "1",
        "#refused UnknownPrimitive",
        None,
    ),
    (
        "strategies main = prim(\"nope\")",
        "1",
        "#refused UnknownPrimitive",
        None,
    ),
    (
        "strategies main = map(\\ (x,y) -> <prim(\"add\",x,y)> () \\)",
        "[(1,2),(3,4)]",
        "[3,7]",
        None,
    ),
];
