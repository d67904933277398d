//! What matches of terms without their annotations add to a store, and when it is given back; what is expected was worked out by hand.
use crate::going_back::{Seen, run_in_store};
use std::alloc::Global;
use std::test::Fail;

/// A strategy of main and a term; what the run writes, which is nothing where it fails; how many shapes the store holds then; and how often
/// it went back.
type Row = (&'static [u8], &'static [u8], &'static [u8], usize, u32);

const ROWS: &[Row] = &[
    // the shapes are a, F(1){a} and, if a pattern sees it, F(1); a small integer has none
    (b"?x{_}; !x", b"F(1){a}", b"F(1)", 3, 0),
    (b"?x{y}; !y", b"F(1){a}", b"a", 3, 0),
    (b"?_{y}; !y", b"F(1){a}", b"a", 2, 0),
    (b"?F(x){_}; !x", b"F(1){a}", b"1", 2, 0),
    (b"?F(_){_,_}", b"F(1){a}", b"", 2, 0),
    (b"?x{_,_}", b"F(1){a}", b"", 2, 0),
    (b"?x@F(_){_}; !x", b"F(1){a}", b"F(1){a}", 2, 0),
    (b"?(x@F(_)){_}; !x", b"F(1){a}", b"F(1)", 3, 0),
    (b"?(F(_){}){_}", b"F(1){a}", b"F(1){a}", 3, 0),
    (b"?(F(_){_}){_}", b"F(1){a}", b"", 3, 0),
    // a term without annotations is its own
    (b"?x{}; !x", b"F(1)", b"F(1)", 1, 0),
    (b"?(F(_){}){}", b"F(1)", b"F(1)", 1, 0),
    // a term that is there is not made again
    (b"?(x,y{_}); !y", b"(F(1),F(1){a})", b"F(1)", 4, 0),
    (
        b"?(x,y{_}); ?(_,y{x})",
        b"(a,F(1){a})",
        b"(a,F(1){a})",
        4,
        0,
    ),
    (b"?x{x}", b"1{1}", b"1{1}", 1, 0),
    // an annotation is seen without its own
    (b"?_{x{_}}; !x", b"1{F(1){a}}", b"F(1)", 4, 0),
    // what a failed match has made stays until the run goes back
    (b"?(x{_},0)", b"(F(1){a},2)", b"", 4, 0),
    (b"?(x{_},0) <+ id", b"(F(1){a},2)", b"(F(1){a},2)", 3, 1),
    (b"(?x{_}; fail) <+ id", b"F(1){a}", b"F(1){a}", 2, 1),
    (b"(?x{_}; fail) <+ !2", b"F(1){a}", b"2", 2, 1),
    (b"((?x{_}; fail) <+ ?y{_}) ; !y", b"F(1){a}", b"F(1)", 3, 1),
    (b"some(?x{_}; fail)", b"[F(1){a},F(2){a}]", b"", 4, 2),
    (
        b"one({x: ?F(x){_}; ?F(2){_}})",
        b"[F(1){a},F(2){a}]",
        b"[F(1){a},F(2){a}]",
        4,
        1,
    ),
    (
        b"all({x: ?x{_}; !x})",
        b"[F(1){a},F(2){a}]",
        b"[F(1),F(2)]",
        7,
        0,
    ),
];

/// The strategy of main in a file with a constructor.
fn run(alloc: Global, strategy: &[u8], text: &[u8]) -> Result<Seen, Fail> {
    let mut definitions = b"signature constructors F : T -> T strategies main = ".to_vec(alloc)?;
    definitions.extend_from_slice(strategy)?;
    run_in_store(alloc, &definitions, text)
}

#[test]
fn bare_terms(rt: HostRuntime) -> Result<(), Fail> {
    for (strategy, text, wanted, held, back) in ROWS {
        let seen = run(rt.alloc(), strategy, text)?;
        if &seen.written[..] != *wanted || seen.held != *held || seen.back != *back {
            return Err(Fail::from((strategy.escape_ascii(), seen.held, seen.back)));
        }
    }
    Ok(())
}
