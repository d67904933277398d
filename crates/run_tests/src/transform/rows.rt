//! Definitions with what they make of terms.

/// Texts in a row, each repeated its number of times.
pub(crate) type Pieces = &'static [(&'static str, usize)];

/// Definitions and the text of a term, the line, and the nodes of the derivation where they count.
pub(crate) struct Row {
    pub(crate) defs: Pieces,
    pub(crate) term: Pieces,
    pub(crate) line: Pieces,
    pub(crate) rules: Option<u32>,
}

/// The same in one text each.
pub(crate) type TextRow = (&'static str, &'static str, &'static str, Option<u32>);

/// A text of the joined form, and the line.
pub(crate) struct JoinedRow {
    pub(crate) text: Pieces,
    pub(crate) line: Pieces,
}

/// Rows with a text of several pieces, or of one that is repeated.
pub(crate) const ROWS: &[Row] = &[
    Row {
        defs: &[("strategies main = ?", 1), ("0", 2000), ("7", 1)],
        term: &[("-", 1), ("0", 2000), ("9223372036854775808", 1)],
        line: &[("#failed", 1)],
        rules: Some(2),
    },
    Row {
        defs: &[("strategies main = id", 1)],
        term: &[("[-", 1), ("0", 2000), ("9223372036854775808,-0]", 1)],
        line: &[("[-9223372036854775808,0]", 1)],
        rules: Some(2),
    },
    Row {
        defs: &[("strategies main = ", 1), ("(", 200), ("id", 1), (")", 200)],
        term: &[("1", 1)],
        line: &[("#refused Nesting", 1)],
        rules: None,
    },
    Row {
        defs: &[("strategies main = id", 1), (" ", 1_048_557)],
        term: &[("1", 1)],
        line: &[("#refused DefsTooLong", 1)],
        rules: None,
    },
    Row {
        defs: &[("strategies main = id", 1)],
        term: &[("1", 1), (" ", 16_777_216)],
        line: &[("#refused TermTooLong", 1)],
        rules: None,
    },
    Row {
        defs: &[("strategies main = ", 1), ("(", 199), ("id", 1), (")", 199)],
        term: &[("1", 1)],
        line: &[("1", 1)],
        rules: None,
    },
    Row {
        defs: &[("strategies main = ", 1), ("(", 201)],
        term: &[("1", 1)],
        line: &[("#refused Nesting", 1)],
        rules: None,
    },
    Row {
        defs: &[("strategies main = ", 1), ("(", 200)],
        term: &[("1", 1)],
        line: &[("#refused Syntax", 1)],
        rules: None,
    },
    Row {
        defs: &[("strategies main = ", 1), ("(", 100_000)],
        term: &[("1", 1)],
        line: &[("#refused Nesting", 1)],
        rules: None,
    },
    // a congruence with 10,000 parts: 6 rules for each of them, and 5 for the rest
    Row {
        defs: &[("strategies main = (id", 1), (",id", 9_999), (")", 1)],
        term: &[("(1", 1), (",1", 9_999), (")", 1)],
        line: &[("(1", 1), (",1", 9_999), (")", 1)],
        rules: Some(60_005),
    },
    Row {
        defs: &[("strategies main = ?(x", 1), (",_", 100_000), (")", 1)],
        term: &[("(1,2)", 1)],
        line: &[("#failed", 1)],
        rules: Some(3),
    },
    Row {
        defs: &[("strategies main = ", 1), ("id;", 199), ("id", 1)],
        term: &[("1", 1)],
        line: &[("1", 1)],
        rules: Some(400),
    },
    Row {
        defs: &[("strategies main = ", 1), ("id;", 200), ("id", 1)],
        term: &[("1", 1)],
        line: &[("#refused Nesting", 1)],
        rules: None,
    },
    Row {
        defs: &[("strategies main = ", 1), ("(", 200), (")", 200)],
        term: &[("()", 1)],
        line: &[("()", 1)],
        rules: Some(2),
    },
    Row {
        defs: &[("strategies main = id", 1)],
        term: &[("f(", 999), ("f", 1), (")", 999)],
        line: &[("f(", 999), ("f", 1), (")", 999)],
        rules: Some(2),
    },
    // too-many-alternatives
    Row {
        defs: &[("strategies", 1), (" main = id", 1_001), (" ", 1)],
        term: &[("1", 1)],
        line: &[("#refused Parameters", 1)],
        rules: None,
    },
    // thousand-alternatives
    Row {
        defs: &[("strategies", 1), (" main = id", 1_000), (" ", 1)],
        term: &[("1", 1)],
        line: &[("1", 1)],
        rules: Some(4),
    },
];

/// Rows whose texts are each one piece.
pub(crate) const TEXT_ROWS: &[TextRow] = &[
    ("strategies main = id", "F(1)", "F(1)", Some(2)),
    ("strategies main = ?(x,_); !x", "(7,f(1))", "7", Some(5)),
    ("strategies main = id", "failed", "failed", Some(2)),
    ("strategies main = fail", "failed", "#failed", Some(2)),
    ("strategies main = id", "F(1", "#refused TermSyntax", None),
    ("strategies main = id", "1.5", "#refused TermSyntax", None),
    (
        "strategies main = id",
        "F(1) 2",
        "#refused TermSyntax",
        None,
    ),
    ("strategies main = id", "", "#refused TermSyntax", None),
    (
        "strategies main = id",
        "t{a}{b}",
        "#refused TermSyntax",
        None,
    ),
    (
        "strategies main = id",
        "9223372036854775808",
        "#refused TermSyntax",
        None,
    ),
    (
        "strategies main = id",
        "-9223372036854775809",
        "#refused TermSyntax",
        None,
    ),
    (
        "strategies main = id",
        "2147483648{-2147483649}",
        "2147483648{-2147483649}",
        Some(2),
    ),
    (
        "strategies main = ?9223372036854775808",
        "1",
        "#refused Lexical",
        None,
    ),
    (
        "strategies main = ?-9223372036854775809",
        "1",
        "#refused Lexical",
        None,
    ),
    (
        "strategies main = ?9223372036854775807; !-9223372036854775808",
        "9223372036854775807",
        "-9223372036854775808",
        Some(4),
    ),
    ("strategies main = id", "-", "#refused TermSyntax", None),
    (
        "strategies main = (?(x,1) <+ ?(1,x)); !x",
        "(1,2)",
        "2",
        Some(7),
    ),
    ("strategies main = ?(x,1); !x", "(1,2)", "#failed", Some(4)),
    (
        "strategies main = foo",
        "1",
        "#refused UnknownStrategy",
        None,
    ),
    ("strategies main = #", "1", "#refused Lexical", None),
    ("strategies main = id;", "1", "#refused Syntax", None),
    ("strategies main = #", "F(1", "#refused Lexical", None),
    (
        "// swaps\nstrategies main = ?(x,/*,*/y); !(y,x) //",
        "(1,2)",
        "(2,1)",
        Some(5),
    ),
    ("rules r: x -> x strategies main = !1", "2", "1", Some(2)),
    ("strategies main = !_", "1", "#refused NotBuildable", None),
    ("module m", "1", "#refused ReservedWord", None),
    ("strategies main = id;", "F(1", "#refused Syntax", None),
];

pub(crate) const JOINED_ROWS: &[JoinedRow] = &[
    JoinedRow {
        text: &[("strategies main = id", 1)],
        line: &[("#refused TermSyntax", 1)],
    },
    JoinedRow {
        text: &[("strategies main = id\n#term\r\nF(1)", 1)],
        line: &[("F(1)", 1)],
    },
    JoinedRow {
        text: &[("strategies main = id\n#term", 1)],
        line: &[("#refused TermSyntax", 1)],
    },
    JoinedRow {
        text: &[("strategies main = id\n#term\r", 1)],
        line: &[("#refused Lexical", 1)],
    },
    JoinedRow {
        text: &[("strategies main = id\n #term\n1", 1)],
        line: &[("#refused Lexical", 1)],
    },
    JoinedRow {
        text: &[("strategies main = id\n#termx\n#term\n1", 1)],
        line: &[("#refused Lexical", 1)],
    },
    JoinedRow {
        text: &[("strategies main = id\n#term\n1\n#term\n2", 1)],
        line: &[("#refused TermSyntax", 1)],
    },
    JoinedRow {
        text: &[
            ("strategies main = id", 1),
            (" ", 1_048_555),
            ("\n#term\n1", 1),
        ],
        line: &[("1", 1)],
    },
    JoinedRow {
        text: &[
            ("strategies main = id", 1),
            (" ", 1_048_556),
            ("\n#term\n1", 1),
        ],
        line: &[("#refused DefsTooLong", 1)],
    },
    JoinedRow {
        text: &[("strategies main = id\n#term\n1", 1), (" ", 16_777_215)],
        line: &[("1", 1)],
    },
    JoinedRow {
        text: &[("", 1)],
        line: &[("#refused NoMain", 1)],
    },
    JoinedRow {
        text: &[("strategies main = id\n#term\n1", 1)],
        line: &[("1", 1)],
    },
    JoinedRow {
        text: &[("#term\n1", 1)],
        line: &[("#refused NoMain", 1)],
    },
    JoinedRow {
        text: &[("#term", 1)],
        line: &[("#refused NoMain", 1)],
    },
    JoinedRow {
        text: &[("#term\r\n1", 1)],
        line: &[("#refused NoMain", 1)],
    },
    JoinedRow {
        text: &[("\n#term\n1", 1)],
        line: &[("#refused NoMain", 1)],
    },
    JoinedRow {
        text: &[("strategies main = !1\n#term\n#term\n", 1)],
        line: &[("#refused TermSyntax", 1)],
    },
    JoinedRow {
        text: &[("strategies main = id\r\n#term\r\n 1 ", 1)],
        line: &[("1", 1)],
    },
    JoinedRow {
        text: &[("strategies main = id\n#term \n1", 1)],
        line: &[("#refused Lexical", 1)],
    },
    JoinedRow {
        text: &[("strategies main = id\n#ter\n1", 1)],
        line: &[("#refused Lexical", 1)],
    },
    JoinedRow {
        text: &[("strategies main = id\r#term\n1", 1)],
        line: &[("#refused Lexical", 1)],
    },
    JoinedRow {
        text: &[("strategies main = id;\n#term\nF(1", 1)],
        line: &[("#refused Syntax", 1)],
    },
    JoinedRow {
        text: &[("strategies main = id #term\n1", 1)],
        line: &[("#refused Lexical", 1)],
    },
];
