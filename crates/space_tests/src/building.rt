//! A client that makes terms over any space, and the same terms by the makers of terms.
ghost use Rattle.std.specs.Prelude.{◌≡◌, IfOk, IfSome, IsTrue, [], ◌∷◌};
ghost use Rattle.term_model.specs.Term.{term};
ghost use Rattle.term_model.specs.declared.term.Head.TheVariants as heads;

use std::alloc::{AllocError, Global};
use std::test::Fail;
use term_model::{Head, Made, Sym, Term, TermSpace};

/// Names of symbols, and two integers.
const MAKERS: &[(&[u8], i64, i64)] = &[
    (b"F", 1, 2),
    (b"Plus", -7, -7),
    (b"of_15_letters__", 0, 9223372036854775807),
    (b"F", 1, 4294967297),
    (b"F", -9223372036854775808, 0),
];

/// The list of the second integer and of the symbol over both, with the first integer as its annotation, after something
/// else was made and given back.
fn build_list<S: TermSpace>(
    alloc: Global,
    space: &mut S,
    symbol: &Sym,
    left: i64,
    right: i64,
) -> Result<Option<S::Ref>, AllocError>
    ensures stands { IfOk result (λ made. IfSome made (λ r. IsTrue (S.space.stands space.new r))) }
    ensures term { IfOk result (λ made. IfSome made (λ r. S.space.term_of space.new r ≡
        term heads.List (term (heads.Int right) [] [] ∷
        term (heads.App symbol.now)
        (term (heads.Int left) [] [] ∷ term (heads.Int right) [] [] ∷ []) [] ∷ [])
        (term (heads.Int left) [] [] ∷ []))) }
{
    let name = space.name(alloc, symbol)?;
    let mut stack = Vec::new(alloc);
    let first = space.int(alloc, left)?;
    stack.push(first)?;
    let second = space.int(alloc, right)?;
    stack.push(second)?;
    let Made::Fits(pair) = space.app(alloc, &name, &stack[..])? else {
        return Ok(None);
    };
    let mark = space.mark();
    let _extra = space.list(alloc, &stack[..])?;
    space.back_to(mark);
    stack.push(pair)?;
    let Made::Fits(list) = space.list(alloc, &stack[1..])? else {
        return Ok(None);
    };
    let Made::Fits(noted) = space.with_annos(alloc, &list, &stack[..1])? else {
        return Ok(None);
    };
    Ok(Some(noted))
}

/// The term that `build_list` makes, by the makers of terms.
fn expected_list(alloc: Global, symbol: &Sym, left: i64, right: i64) -> Result<Term, Fail> {
    let parts = vec![in alloc; Term::int(alloc, left)?, Term::int(alloc, right)?]?;
    let Made::Fits(pair) = Term::app(alloc, symbol.clone()?, parts)? else {
        return Err(Fail::new("oversize"));
    };
    let elements = vec![in alloc; Term::int(alloc, right)?, pair]?;
    let annos = vec![in alloc; Term::int(alloc, left)?]?;
    let Made::Fits(list) = Term::new(alloc, Head::List, elements, annos)? else {
        return Err(Fail::new("oversize"));
    };
    Ok(list)
}

/// Whether the client that makes terms makes the one that is expected.
fn makes<S: TermSpace>(
    alloc: Global,
    space: &mut S,
    name: &[u8],
    left: i64,
    right: i64,
) -> Result<bool, Fail> {
    let symbol = Sym::plain(alloc, name)?.ok_or("no name")?;
    let Some(made) = build_list(alloc, space, &symbol, left, right)? else {
        return Ok(false);
    };
    let term = space.leave(alloc, &made)?;
    Ok(term == expected_list(alloc, &symbol, left, right)?)
}

/// Runs the client that makes terms over a space.
pub(crate) fn run_makers<S: TermSpace>(alloc: Global, space: &mut S) -> Result<(), Fail> {
    for (name, left, right) in MAKERS {
        if !makes(alloc, space, name, *left, *right)? {
            return Err(Fail::new(name.escape_ascii()));
        }
    }
    Ok(())
}
