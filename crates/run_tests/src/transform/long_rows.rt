//! Long runs. A call of `repeat` whose strategy is a rule takes 12 rules for each time that the rule rewrites, and 11 where it fails.
use crate::transform::rows::Row;

pub(crate) const LONG_ROWS: &[Row] = &[
    // 1 for the call of main, 12 for each Succ, 11 for Zero
    Row {
        defs: &[(
            "signature constructors Succ : N -> N rules Down : Succ(x) -> x strategies main = repeat(Down)",
            1,
        )],
        term: &[("Succ(", 900), ("Zero", 1), (")", 900)],
        line: &[("Zero", 1)],
        rules: Some(10_812),
    },
    // the same for each element
    Row {
        defs: &[(
            "rules Rest : [_|xs] -> xs strategies main = repeat(Rest)",
            1,
        )],
        term: &[("[0", 1), (",0", 3_999), ("]", 1)],
        line: &[("[]", 1)],
        rules: Some(48_012),
    },
    // ten times s takes a call, 9 sequences, and 10 calls of s; the innermost, of id, takes 30, and each that is around takes
    // 20 and ten times those inside: 320, 3,220, 32,220 and 322,220. The call of main is one more.
    Row {
        defs: &[(
            "strategies ten(s) = s; s; s; s; s; s; s; s; s; s main = ten(ten(ten(ten(ten(id)))))",
            1,
        )],
        term: &[("F(1)", 1)],
        line: &[("F(1)", 1)],
        rules: Some(322_221),
    },
    // ten thousand calls that could each have a copy of the code of bottomup
    Row {
        defs: &[
            (
                "signature constructors A : T B : T -> T rules inner : B(x) -> x ",
                1,
            ),
            (
                "outer : A() -> <t; t; t; t; t; t; t; t; t; t> B(A()) ",
                1_000,
            ),
            ("strategies t = bottomup(try(inner)) main = outer", 1),
        ],
        term: &[("A", 1)],
        line: &[("A", 1)],
        rules: Some(169),
    },
    // definitions whose calls in place would double the code at each level
    Row {
        defs: &[(
            "strategies a = id; id b = a; a c = b; b d = c; c e = d; d f = e; e g = f; f h = g; g
            i = h; h j = i; i k = j; j l = k; k m = l; l n = m; m o = n; n p = o; o main = p",
            1,
        )],
        term: &[("A", 1)],
        line: &[("A", 1)],
        rules: Some(196_607),
    },
    // a pattern of 10,000 parts, of which the code has one copy, not one for each of 1,000 calls
    Row {
        defs: &[
            ("strategies long = ![0", 1),
            (",0", 9_999),
            ("] main = try([long", 1),
            (",long", 999),
            ("])", 1),
        ],
        term: &[("A", 1)],
        line: &[("A", 1)],
        rules: Some(8),
    },
];

/// Definitions that have no outcome.
pub(crate) const ENDLESS: &[&str] = &[
    "strategies main = rec x(x; id)",
    "strategies f(|x) = f(|x) main = f(|1)",
];
