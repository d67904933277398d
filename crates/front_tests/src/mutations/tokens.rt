//! Files of one token, and every two tokens in some places of a file, against the second reading.
use super::compare;
use super::grammar::{Grammar, grammar_of_tables};
use super::readings::{Reading, reading_of};
use super::words::{Word, words};
use std::alloc::Global;
use std::test::Fail;

/// One token of each kind, but for the words of parts that are left out.
const TOKENS: &str = "
    signature sorts constructors rules strategies id fail where not if then else end all one some rec let in prim
    ( ) [ ] { } | , : ; = ! ? @ * + \\ < > -> => <+
    x x' _ 1 -1 \"q\" ";

const LEFT_OUT: &str = "module imports overlays with switch case otherwise external";

/// Beginnings of files that any two tokens are put after.
const FRONTS: &[&str] = &[
    "",
    "signature sorts A",
    "signature constructors C : A",
    "rules r",
    "rules r : x -> x",
    "strategies main =",
    "strategies main = ! < id >",
    "strategies main = f ( x",
    "strategies main = ? x { }",
    "strategies main = ! < id > x { 1",
];

/// What a file of this one token is read as.
fn reading_of_one(token: &str) -> Reading {
    match token {
        "signature" | "rules" | "strategies" => Reading::File,
        _ => Reading::Syntax(0),
    }
}

#[test]
fn files_of_one_token(rt: HostRuntime) -> Result<(), Fail> {
    for token in TOKENS.split_whitespace() {
        if reading_of(rt.alloc(), token.as_bytes()) != reading_of_one(token) {
            return Err(Fail::new(token));
        }
    }
    for word in LEFT_OUT.split_whitespace() {
        if reading_of(rt.alloc(), word.as_bytes()) != Reading::ReservedWord(0) {
            return Err(Fail::new(word));
        }
    }
    Ok(())
}

/// Compares the readings of the front with these tokens after it.
fn compare_pair<'a>(
    alloc: Global,
    grammar: &Grammar,
    front: &'a str,
    pair: &[Word<'a>; 2],
) -> Result<(), Fail> {
    let mut words = words(alloc, front)?;
    words.extend_from_slice(pair)?;
    compare(alloc, grammar, &words)
}

/// Compares the readings of the front with each of the tokens, and another, after it.
fn compare_pairs<'a>(
    alloc: Global,
    grammar: &Grammar,
    front: &'a str,
    tokens: &[Word<'a>],
) -> Result<(), Fail> {
    for first in tokens {
        for second in tokens {
            compare_pair(alloc, grammar, front, &[*first, *second])?;
        }
    }
    Ok(())
}

#[test]
fn any_two_tokens(rt: HostRuntime) -> Result<(), Fail> {
    let grammar = grammar_of_tables(rt.alloc())?;
    let tokens = words(rt.alloc(), TOKENS)?;
    for front in FRONTS {
        compare_pairs(rt.alloc(), &grammar, front, &tokens)?;
    }
    Ok(())
}
