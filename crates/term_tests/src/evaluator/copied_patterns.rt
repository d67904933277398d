//! Patterns that are copied.
use crate::evaluator::words::{ONE, PAIR, TWO, Word as W, X, Y};

/// A pattern with every form in it, and others like it.
pub(crate) const EVERY_FORM: &[W] = &[
    X,
    W::Anything,
    W::ListAndRest(1),
    Y,
    TWO,
    W::List(2),
    W::Alias(1, 0),
    W::Applied(b"f", 1),
    W::Like(0, 1),
    PAIR,
    X,
    ONE,
    W::Annotated(0),
    W::Annotated(2),
];

pub(crate) const OTHER_FORMS: &[&'static [W]] = &[
    &[W::Anything],
    &[X, W::List(1), W::Applied(b"f", 0), PAIR],
    &[
        X,
        W::Anything,
        W::ListAndRest(1),
        Y,
        TWO,
        W::List(2),
        W::Alias(1, 0),
        W::Applied(b"f", 1),
        W::Like(1, 0),
        PAIR,
        X,
        ONE,
        W::Annotated(0),
        W::Annotated(2),
    ],
    &[
        X,
        W::Anything,
        W::ListAndRest(1),
        Y,
        TWO,
        W::List(2),
        W::Alias(1, 0),
        W::Applied(b"f", 1),
        W::Like(0, 1),
        PAIR,
        X,
        ONE,
        W::Annotated(2),
    ],
];
