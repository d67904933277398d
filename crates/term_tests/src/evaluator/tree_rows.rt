//! Programs as words, since no text is such a program: builds of `_` and of `x@p`, which the checks refuse; `p^x`, the pattern p with the
//! annotations of x, which only congruences have; and a sequence at the end of another, which is one sequence in a text.
use crate::evaluator::words::Word::{
    self, Alias, Annotated, Anything, Build, Id, Like, List, ListAndRest, Match, Scope, Then,
};
use crate::evaluator::words::{ONE, PAIR, TWO, X, Y};

/// What the words say; the words; and the term, its outcome and the number of nodes, as in other rows.
pub(crate) struct TreeRow(
    pub &'static str,
    pub &'static [Word],
    pub &'static str,
    pub &'static str,
    pub u32,
);

const THREE: Word = Word::Number(3);

/// No annotations.
const NONE: Word = Annotated(0);

pub(crate) const TREES: &[TreeRow] = &[
    TreeRow("!_", &[Anything, Build], "1", "#failed", 2),
    TreeRow("!_{}", &[Anything, NONE, Build], "7", "#failed", 2),
    TreeRow(
        "!1{_}",
        &[ONE, Anything, Annotated(1), Build],
        "7",
        "#failed",
        2,
    ),
    TreeRow(
        "!x@1",
        &[ONE, Alias(0, 0), Build, Scope(1)],
        "3",
        "#failed",
        3,
    ),
    TreeRow(
        "!(x@1){2}",
        &[ONE, Alias(0, 0), TWO, Annotated(1), Build, Scope(1)],
        "7",
        "#failed",
        3,
    ),
    TreeRow(
        "?x; !(1,2)^x",
        &[X, Match, ONE, TWO, PAIR, Like(0, 0), Build, Then, Scope(1)],
        "9{5}",
        "(1,2){5}",
        5,
    ),
    TreeRow(
        "!1^x",
        &[ONE, Like(0, 0), Build, Scope(1)],
        "9",
        "#failed",
        3,
    ),
    TreeRow(
        "?1^x",
        &[ONE, Like(0, 0), Match, Scope(1)],
        "1",
        "#failed",
        3,
    ),
    TreeRow(
        "?(1^x){}",
        &[ONE, Like(0, 0), NONE, Match, Scope(1)],
        "1",
        "#failed",
        3,
    ),
    TreeRow(
        "?x; !(1{2})^x",
        &[
            X,
            Match,
            ONE,
            TWO,
            Annotated(1),
            Like(0, 0),
            Build,
            Then,
            Scope(1),
        ],
        "7{a}",
        "1{a}",
        5,
    ),
    TreeRow(
        "?x; !(1^x){2}",
        &[
            X,
            Match,
            ONE,
            Like(0, 0),
            TWO,
            Annotated(1),
            Build,
            Then,
            Scope(1),
        ],
        "7{a}",
        "1{2}",
        5,
    ),
    TreeRow(
        "?x; !(1{y})^x",
        &[
            X,
            Match,
            ONE,
            Y,
            Annotated(1),
            Like(0, 0),
            Build,
            Then,
            Scope(2),
        ],
        "7{a}",
        "#failed",
        5,
    ),
    TreeRow(
        "?x; !(1^y){x}",
        &[
            X,
            Match,
            ONE,
            Like(0, 1),
            X,
            Annotated(1),
            Build,
            Then,
            Scope(2),
        ],
        "7{a}",
        "#failed",
        5,
    ),
    TreeRow(
        "?x; ![1|[2]^x]",
        &[
            X,
            Match,
            ONE,
            TWO,
            List(1),
            Like(0, 0),
            ListAndRest(1),
            Build,
            Then,
            Scope(1),
        ],
        "3{5}",
        "[1,2]",
        5,
    ),
    TreeRow(
        "?x; ![1|([2]^x){3}]",
        &[
            X,
            Match,
            ONE,
            TWO,
            List(1),
            Like(0, 0),
            THREE,
            Annotated(1),
            ListAndRest(1),
            Build,
            Then,
            Scope(1),
        ],
        "7{a}",
        "[1,2]",
        5,
    ),
    TreeRow("id; (id; id)", &[Id, Id, Id, Then, Then], "1", "1", 6),
];

/// Those on long strings.
pub(crate) const LARGE_TREES: &[TreeRow] = &[TreeRow(
    "?x; !(3{x,x})^x",
    &[
        X,
        Match,
        THREE,
        X,
        X,
        Annotated(2),
        Like(0, 0),
        Build,
        Then,
        Scope(1),
    ],
    "MORE",
    "3",
    5,
)];
