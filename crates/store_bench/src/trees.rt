//! Trees, as terms and in a space.
use crate::nodes::Node;
use std::alloc::{AllocError, Global};
use term_model::{Made, Sym, Term, TermSpace};

/// The tree as a term; `None` where it would not fit.
pub(crate) fn tree_of(
    alloc: Global,
    symbol: &Sym,
    nodes: &[Node],
) -> Result<Option<Term>, AllocError> {
    let mut stack: Vec<Term> = Vec::new(alloc);
    for node in nodes {
        if node.count == 0 {
            stack.push(Term::int(alloc, node.value)?)?;
            continue;
        }
        let from = stack.len().saturating_sub(node.count);
        let parts = stack.split_off(from)?;
        let Made::Fits(term) = Term::app(alloc, symbol.clone()?, parts)? else {
            return Ok(None);
        };
        stack.push(term)?;
    }
    Ok(stack.pop())
}

/// Makes each node of the tree in the space.
pub(crate) fn make_all<S: TermSpace>(
    alloc: Global,
    space: &mut S,
    symbol: &Sym,
    nodes: &[Node],
) -> Result<(), AllocError> {
    let name = space.name(alloc, symbol)?;
    let mut stack = Vec::new(alloc);
    for node in nodes {
        if node.count == 0 {
            let leaf = space.int(alloc, node.value)?;
            stack.push(leaf)?;
            continue;
        }
        let from = stack.len().saturating_sub(node.count);
        let made = space.app(alloc, &name, &stack[from..])?;
        stack.truncate(from);
        if let Made::Fits(made) = made {
            stack.push(made)?;
        }
    }
    Ok(())
}
