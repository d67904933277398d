//! The first nodes of terms, for messages.
ghost use Rattle.std.specs.Prelude.{All, IsTrue};

use std::alloc::{AllocError, Global};
use term_model::{Made, Parts, Sym, Term, TermSpace, Top};

/// How many nodes of a term are kept.
const NODES: usize = 200;

/// How deep they are at most, where the root is 1 deep.
const DEPTH: usize = 100;

/// The first 200 nodes of a term that are at most 100 deep, in the order of its text: a node, its parts, its annotations. Where others
/// of the parts of a node, or of its annotations, are left out, one plain `_` without parts stands for them; where a node would weigh
/// too much with these, one stands for it.
pub(crate) fn first_nodes<S: TermSpace>(
    space: &S,
    alloc: Global,
    at: &S::Ref,
) -> Result<Term, AllocError>
    requires { IsTrue (S.space.stands space.now at.now) }
{
    let mut left = NODES;
    shorten(space, alloc, at, DEPTH - 1, &mut left)
}

/// The first `left` nodes of a term that are at most `depth` levels below its root.
#[cycle(shortening)]
fn shorten<S: TermSpace>(
    space: &S,
    alloc: Global,
    at: &S::Ref,
    depth: usize,
    left: &mut usize,
) -> Result<Term, AllocError>
    requires { IsTrue (S.space.stands space.now at.now) }
{
    *left = left.saturating_sub(1);
    let shape = space.shape(at);
    let parts = shorten_all(space, alloc, &shape.parts, depth, left)?;
    let bare = match shape.head {
        Top::Int(value) => Made::Fits(Term::int(alloc, value)?),
        Top::App(symbol) => Term::app(alloc, symbol.clone()?, parts)?,
        Top::List => Term::list(alloc, parts)?,
    };
    let annos = shorten_all(space, alloc, &shape.annos, depth, left)?;
    let term = fitting(alloc, bare)?;
    if annos.is_empty() {
        return Ok(term);
    }
    let made = term.annotated(alloc, annos)?;
    fitting(alloc, made)
}

/// The first `left` nodes of several terms that are at most `depth` deep, each term's root being 1 deep, and one `_` for the terms
/// that are left out.
#[cycle(shortening)]
fn shorten_all<S: TermSpace>(
    space: &S,
    alloc: Global,
    parts: &Parts<S::Ref>,
    depth: usize,
    left: &mut usize,
) -> Result<Vec<Term>, AllocError>
    requires { All (λ r. IsTrue (S.space.stands space.now r)) parts.now }
{
    let mut terms = Vec::new(alloc);
    for part in parts.walk() {
        if depth == 0 || *left == 0 {
            terms.push(left_out(alloc)?)?;
            return Ok(terms);
        }
        let term = shorten(space, alloc, part, depth - 1, left)?;
        terms.push(term)?;
    }
    Ok(terms)
}

/// The term that was made, or `_` where it does not fit: an integer weighs less than the `_` that stands for it.
fn fitting(alloc: Global, made: Made<Term>) -> Result<Term, AllocError> {
    match made {
        Made::Fits(term) => Ok(term),
        Made::Oversize => left_out(alloc),
    }
}

/// The term `_`, which stands for what is left out.
fn left_out(alloc: Global) -> Result<Term, AllocError> {
    let symbol = Sym::named(alloc, b"_")?;
    let Made::Fits(term) = Term::app(alloc, symbol, Vec::new(alloc))? else {
        unreachable!()
    };
    Ok(term)
}
