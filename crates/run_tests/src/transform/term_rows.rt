//! Rows of the whole term text: what `id` and small programs make of terms.
use crate::transform::rows::{Row, TextRow};

/// Rows with a text of several pieces, or of one that is repeated.
pub(crate) const TERM_ROWS: &[Row] = &[
    // depth-1000
    Row {
        defs: &[("strategies main = id", 1)],
        term: &[("[", 1_000), ("]", 1_000)],
        line: &[("[", 1_000), ("]", 1_000)],
        rules: Some(2),
    },
    // depth-1001
    Row {
        defs: &[("strategies main = id", 1)],
        term: &[("[", 1_001), ("]", 1_001)],
        line: &[("#refused TermOversize", 1)],
        rules: None,
    },
    // depth-1001-open
    Row {
        defs: &[("strategies main = id", 1)],
        term: &[("[", 1_001)],
        line: &[("#refused TermOversize", 1)],
        rules: None,
    },
    // a million brackets
    Row {
        defs: &[("strategies main = id", 1)],
        term: &[("[", 1_000_000)],
        line: &[("#refused TermOversize", 1)],
        rules: None,
    },
    // depth-1000-cut
    Row {
        defs: &[("strategies main = id", 1)],
        term: &[("[", 1_000)],
        line: &[("#refused TermSyntax", 1)],
        rules: None,
    },
    // depth-1001-applied
    Row {
        defs: &[("strategies main = id", 1)],
        term: &[("f(", 1_000), ("f", 1), (")", 1_000)],
        line: &[("#refused TermOversize", 1)],
        rules: None,
    },
];

/// Rows whose texts are each one piece.
pub(crate) const TERM_TEXT_ROWS: &[TextRow] = &[
    // spelling
    (
        "strategies main = id",
        " f ( 007 , \"a\\\"b\" , g() ) { x }",
        "f(7,\"a\\\"b\",g){x}",
        Some(2),
    ),
    // annotations-differ
    ("strategies main = ?(x,x)", "(1{a},1)", "#failed", Some(3)),
    // value-keeps-annotations
    (
        "strategies main = ?(x,_); !x",
        "(7{a},1){b}",
        "7{a}",
        Some(5),
    ),
    // prefix-0
    ("strategies main = id", "", "#refused TermSyntax", None),
    // prefix-1
    ("strategies main = id", "f", "f", None),
    // prefix-2
    ("strategies main = id", "f ", "f", None),
    // prefix-3
    ("strategies main = id", "f (", "#refused TermSyntax", None),
    // prefix-4
    ("strategies main = id", "f ( ", "#refused TermSyntax", None),
    // prefix-5
    ("strategies main = id", "f ( 0", "#refused TermSyntax", None),
    // prefix-6
    (
        "strategies main = id",
        "f ( 00",
        "#refused TermSyntax",
        None,
    ),
    // prefix-7
    (
        "strategies main = id",
        "f ( 007",
        "#refused TermSyntax",
        None,
    ),
    // prefix-8
    (
        "strategies main = id",
        "f ( 007 ",
        "#refused TermSyntax",
        None,
    ),
    // prefix-9
    (
        "strategies main = id",
        "f ( 007 ,",
        "#refused TermSyntax",
        None,
    ),
    // prefix-10
    (
        "strategies main = id",
        "f ( 007 , ",
        "#refused TermSyntax",
        None,
    ),
    // prefix-11
    (
        "strategies main = id",
        "f ( 007 , \"",
        "#refused TermSyntax",
        None,
    ),
    // prefix-12
    (
        "strategies main = id",
        "f ( 007 , \"a",
        "#refused TermSyntax",
        None,
    ),
    // prefix-13
    (
        "strategies main = id",
        "f ( 007 , \"a\\",
        "#refused TermSyntax",
        None,
    ),
    // prefix-14
    (
        "strategies main = id",
        "f ( 007 , \"a\\\"",
        "#refused TermSyntax",
        None,
    ),
    // prefix-15
    (
        "strategies main = id",
        "f ( 007 , \"a\\\"b",
        "#refused TermSyntax",
        None,
    ),
    // prefix-16
    (
        "strategies main = id",
        "f ( 007 , \"a\\\"b\"",
        "#refused TermSyntax",
        None,
    ),
    // prefix-17
    (
        "strategies main = id",
        "f ( 007 , \"a\\\"b\" ",
        "#refused TermSyntax",
        None,
    ),
    // prefix-18
    (
        "strategies main = id",
        "f ( 007 , \"a\\\"b\" ,",
        "#refused TermSyntax",
        None,
    ),
    // prefix-19
    (
        "strategies main = id",
        "f ( 007 , \"a\\\"b\" , ",
        "#refused TermSyntax",
        None,
    ),
    // prefix-20
    (
        "strategies main = id",
        "f ( 007 , \"a\\\"b\" , g",
        "#refused TermSyntax",
        None,
    ),
    // prefix-21
    (
        "strategies main = id",
        "f ( 007 , \"a\\\"b\" , g(",
        "#refused TermSyntax",
        None,
    ),
    // prefix-22
    (
        "strategies main = id",
        "f ( 007 , \"a\\\"b\" , g()",
        "#refused TermSyntax",
        None,
    ),
    // prefix-23
    (
        "strategies main = id",
        "f ( 007 , \"a\\\"b\" , g() ",
        "#refused TermSyntax",
        None,
    ),
    // prefix-24
    (
        "strategies main = id",
        "f ( 007 , \"a\\\"b\" , g() )",
        "f(7,\"a\\\"b\",g)",
        None,
    ),
    // prefix-25
    (
        "strategies main = id",
        "f ( 007 , \"a\\\"b\" , g() ) ",
        "f(7,\"a\\\"b\",g)",
        None,
    ),
    // prefix-26
    (
        "strategies main = id",
        "f ( 007 , \"a\\\"b\" , g() ) {",
        "#refused TermSyntax",
        None,
    ),
    // prefix-27
    (
        "strategies main = id",
        "f ( 007 , \"a\\\"b\" , g() ) { ",
        "#refused TermSyntax",
        None,
    ),
    // prefix-28
    (
        "strategies main = id",
        "f ( 007 , \"a\\\"b\" , g() ) { x",
        "#refused TermSyntax",
        None,
    ),
    // prefix-29
    (
        "strategies main = id",
        "f ( 007 , \"a\\\"b\" , g() ) { x ",
        "#refused TermSyntax",
        None,
    ),
    // prefix-30
    (
        "strategies main = id",
        "f ( 007 , \"a\\\"b\" , g() ) { x }",
        "f(7,\"a\\\"b\",g){x}",
        None,
    ),
];
