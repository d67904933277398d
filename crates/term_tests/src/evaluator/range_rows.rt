//! Coordinates in range and out of range.
use crate::evaluator::words::{ONE, Word as W, X, Y};

/// Programs, the position of main, and whether they are in range.
pub(crate) const RANGES: &[(&'static str, &'static [W], usize, bool)] = &[
    ("a variable", &[X, W::Build, W::Scope(1)], 0, true),
    ("no slot of a scope", &[Y, W::Build, W::Scope(1)], 0, false),
    (
        "no slot of main's layer",
        &[W::Variable(1, 0), W::Build, W::Scope(1)],
        0,
        false,
    ),
    (
        "a layer of definitions",
        &[W::Variable(2, 0), W::Build, W::Scope(1)],
        0,
        false,
    ),
    (
        "no layer of variables",
        &[W::Variable(3, 0), W::Build, W::Scope(1)],
        0,
        false,
    ),
    ("no definition 1", &[W::Call(1, 1, 0, 0)], 0, false),
    ("no layer", &[W::Call(2, 0, 0, 0)], 0, false),
    ("no parameter", &[W::Call(0, 0, 0, 0)], 0, false),
    (
        "an argument too many",
        &[W::Id, W::Call(1, 0, 1, 0)],
        0,
        false,
    ),
    ("a term too many", &[ONE, W::Call(1, 0, 0, 1)], 0, false),
    ("no variable in all", &[X, W::Build, W::AllParts], 0, false),
    (
        "no variable in a rest",
        &[ONE, X, W::ListAndRest(1), W::Match],
        0,
        false,
    ),
    (
        "no variable before @",
        &[ONE, W::Alias(0, 0), W::Match],
        0,
        false,
    ),
    (
        "no variable after ^",
        &[ONE, W::Like(0, 0), W::Build],
        0,
        false,
    ),
    (
        "no definition in let",
        &[W::Call(1, 1, 0, 0), W::Definition(0, 0), W::Id, W::Let(1)],
        0,
        false,
    ),
    (
        "variables in and before braces",
        &[X, ONE, Y, W::Annotated(2), W::Match, W::Scope(2)],
        0,
        true,
    ),
    (
        "no variable before braces",
        &[Y, ONE, W::Annotated(1), W::Match, W::Scope(1)],
        0,
        false,
    ),
    (
        "no variable in braces",
        &[X, ONE, Y, W::Annotated(2), W::Match, W::Scope(1)],
        0,
        false,
    ),
    ("no main", &[W::Id], 1, false),
    (
        "main has a parameter",
        &[W::Id, W::Definition(1, 0), W::Id],
        1,
        false,
    ),
];
