//! Rows with annotations in patterns.
use crate::transform::rows::{Row, TextRow};

/// The constructors of these files.
pub(crate) const CONSTRUCTORS: &str =
    "signature constructors A : T B : T F : T -> T G : T * T -> T ";

pub(crate) const ANNOTATION_ROWS: &[TextRow] = &[
    // alternatives by the root, whatever the annotations
    (
        "rules r : F(x){A()} -> (1,x) r : F(x){} -> (2,x) r : x{y} -> (3,x,y) strategies main = r <+ !4",
        "F(0{B}){A}",
        "(1,0{B})",
        Some(10),
    ),
    (
        "rules r : F(x){A()} -> (1,x) r : F(x){} -> (2,x) r : x{y} -> (3,x,y) strategies main = r <+ !4",
        "F(0)",
        "(2,0)",
        Some(14),
    ),
    (
        "rules r : F(x){A()} -> (1,x) r : F(x){} -> (2,x) r : x{y} -> (3,x,y) strategies main = r <+ !4",
        "F(0){B}",
        "(3,F(0),B)",
        Some(16),
    ),
    (
        "rules r : F(x){A()} -> (1,x) r : F(x){} -> (2,x) r : x{y} -> (3,x,y) strategies main = r <+ !4",
        "F(0){A,B}",
        "4",
        Some(15),
    ),
    (
        "rules r : F(x){A()} -> (1,x) r : F(x){} -> (2,x) r : x{y} -> (3,x,y) strategies main = r <+ !4",
        "A{7}",
        "(3,A,7)",
        Some(16),
    ),
    (
        "rules r : [x]{y} -> 1 r : [x|_]{y} -> 2 r : 5{y} -> 3 r : z@F(_){y} -> 4 strategies main = map(try(r))",
        "[[0]{a},[0,0]{a},5{a},F(0){a},[0],5,F(0){a,b}]",
        "[1,2,3,4,[0],5,F(0){a,b}]",
        Some(257),
    ),
    // a failed match gives back what it bound
    (
        "strategies main = (?G(x{_},A()) <+ ?G(_,x)); !x",
        "G(1{B},2)",
        "2",
        Some(7),
    ),
    (
        "strategies main = {x: (?G(x{y},_); fail) <+ id}; ?x; !x",
        "G(1{B},2)",
        "G(1{B},2)",
        Some(12),
    ),
    (
        "strategies main = ?G(x,_); ?G(_,x{y}); !y",
        "G(1,1{A})",
        "A",
        Some(7),
    ),
    (
        "strategies main = ?G(x,_); ?G(_,x{y}); !y",
        "G(1{A},1{A})",
        "#failed",
        Some(6),
    ),
    (
        "strategies main = ?G(x,y); where(!x{y} => z{w}); !(z,w)",
        "G(1{B},A{B})",
        "(1,A{B})",
        Some(14),
    ),
    // in strategies of all kinds
    (
        "strategies main = F(\\ x{_} -> x{} \\)",
        "F(1{A}){B}",
        "F(1){B}",
        Some(14),
    ),
    (
        "strategies main = all(?_{_} < !0 + !1)",
        "G(1{A},2){B}",
        "G(0,1){B}",
        Some(8),
    ),
    (
        "strategies main = some(\\ x{y} -> y{x} \\)",
        "[1{A},2,3{A,B}]{B}",
        "[A{1},2,3{A,B}]{B}",
        Some(12),
    ),
    (
        "strategies main = one(?_{A()})",
        "[1{B},2{A},3]",
        "[1{B},2{A},3]",
        Some(4),
    ),
    (
        "strategies main = topdown(try(\\ x{_} -> x \\))",
        "F(G(1{A},F(2){B}){A}){B}",
        "F(G(1,F(2)))",
        Some(60),
    ),
    (
        "strategies main = bottomup(\\ x -> x{} \\)",
        "F(G(1{A},F(2){B,A}){A{B}}){B}",
        "F(G(1,F(2)))",
        Some(41),
    ),
    (
        "strategies main = innermost(\\ F(x){A()} -> x \\)",
        "F(F(F(1){A}){A}){B}",
        "F(1){B}",
        Some(84),
    ),
    (
        "strategies f(s | x) = ?y{x}; s; !y main = f(?_{z} | A()); !z",
        "1{A}",
        "A",
        Some(12),
    ),
    (
        "strategies f(| x) = !x main = f(| 1{<?_{y}; !y>})",
        "7{A}",
        "1{A}",
        Some(17),
    ),
    (
        "strategies main = if ?x{y} then !y{x} else !B() end",
        "1{A}",
        "A{1}",
        Some(10),
    ),
    (
        "strategies main = if ?x{y} then !y{x} else !B() end",
        "1",
        "B",
        Some(9),
    ),
    ("strategies main = not(?_{_})", "1", "1", Some(4)),
    (
        "strategies main = let f = ?x{_} in f; !x end",
        "1{A}",
        "1",
        Some(7),
    ),
    (
        "strategies main = rec r(\\ x{_} -> x \\; ?y; r <+ !y{y})",
        "1{A}",
        "1{1}",
        Some(20),
    ),
    // results in braces, from left to right
    (
        "strategies main = !(<?F(x); !x>){<?F(x); !(x,x)>, 2}",
        "F(1{A}){B}",
        "1{(1{A},1{A}),2}",
        Some(22),
    ),
    ("strategies main = !1{<fail>, y}", "7", "#failed", Some(9)),
    ("strategies main = !1{y, <id>}", "7", "#failed", Some(12)),
    // refusals
    ("strategies main = !1{2}{3}", "1", "#refused Syntax", None),
    (
        "strategies main = !1{_}",
        "1",
        "#refused NotBuildable",
        None,
    ),
    (
        "strategies main = !1{x@2}",
        "1",
        "#refused NotBuildable",
        None,
    ),
    (
        "strategies main = ?1{C()}",
        "1",
        "#refused Undeclared",
        None,
    ),
    ("strategies main = ?1{2 | x}", "1", "#refused Syntax", None),
];

/// Files that call primitives, where the standard ones are registered.
pub(crate) const ANNOTATED_ARGUMENTS: &[TextRow] = &[
    (
        "strategies main = ?x; prim(\"length\", x{1})",
        "\"abc\"",
        "3",
        Some(5),
    ),
    (
        "strategies main = ?(x{_}, y); prim(\"add\", x, y{x})",
        "(2{a},3{b})",
        "5",
        Some(5),
    ),
    (
        "strategies main = ?x; !x{<prim(\"add\", x, 1)>}",
        "7{a}",
        "7{8}",
        Some(14),
    ),
    (
        "strategies main = ?x; prim(\"length\", x{y})",
        "\"abc\"",
        "#failed",
        Some(5),
    ),
];

/// Builds of large and deep terms. What is dropped again is not judged by its size.
pub(crate) const LARGE_ROWS: &[Row] = &[
    Row {
        defs: &[("strategies main = ?x; !3{x,x}", 1)],
        term: &[("\"", 1), ("a", 8_388_607), ("\"", 1)],
        line: &[("#oversize", 1)],
        rules: Some(5),
    },
    Row {
        defs: &[("strategies main = ?x; !(3{x,x}){4}", 1)],
        term: &[("\"", 1), ("a", 8_388_607), ("\"", 1)],
        line: &[("3{4}", 1)],
        rules: Some(5),
    },
    Row {
        defs: &[("strategies main = ?x; !(3{x,x}){}", 1)],
        term: &[("\"", 1), ("a", 8_388_607), ("\"", 1)],
        line: &[("3", 1)],
        rules: Some(5),
    },
    Row {
        defs: &[("strategies main = ?x; ![1|[2]{x,x}]", 1)],
        term: &[("\"", 1), ("a", 8_388_607), ("\"", 1)],
        line: &[("[1,2]", 1)],
        rules: Some(5),
    },
    Row {
        defs: &[("strategies main = ?x; !3{x,x,y}", 1)],
        term: &[("\"", 1), ("a", 8_388_607), ("\"", 1)],
        line: &[("#failed", 1)],
        rules: Some(5),
    },
    Row {
        defs: &[("strategies main = ?x; !(3{x,x}){y}", 1)],
        term: &[("\"", 1), ("a", 8_388_607), ("\"", 1)],
        line: &[("#failed", 1)],
        rules: Some(5),
    },
    Row {
        defs: &[("strategies main = ?x; !(x{x}){4}; ?_{z}; !z", 1)],
        term: &[("\"", 1), ("a", 8_388_608), ("\"", 1)],
        line: &[("4", 1)],
        rules: Some(9),
    },
    Row {
        defs: &[("strategies main = ?x; !x{x}", 1)],
        term: &[("\"", 1), ("a", 8_388_608), ("\"", 1)],
        line: &[("#oversize", 1)],
        rules: Some(5),
    },
    Row {
        defs: &[("strategies main = ?x; !1{x}", 1)],
        term: &[("[", 999), ("]", 999)],
        line: &[("1{", 1), ("[", 999), ("]", 999), ("}", 1)],
        rules: Some(5),
    },
    Row {
        defs: &[("strategies main = ?x; !1{x}", 1)],
        term: &[("[", 1_000), ("]", 1_000)],
        line: &[("#oversize", 1)],
        rules: Some(5),
    },
    Row {
        defs: &[("strategies main = ?x; !(1{x}){2}", 1)],
        term: &[("[", 1_000), ("]", 1_000)],
        line: &[("1{2}", 1)],
        rules: Some(5),
    },
    Row {
        defs: &[("strategies main = ?x{}; !(1,[2]{x})", 1)],
        term: &[("[", 1_000), ("]", 1_000)],
        line: &[("#oversize", 1)],
        rules: Some(5),
    },
    Row {
        defs: &[("strategies main = ?_{x}; !x{}", 1)],
        term: &[("1{", 999), ("1", 1), ("}", 999)],
        line: &[("1", 1)],
        rules: Some(5),
    },
];
