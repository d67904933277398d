//! Chains of alternatives whose code has been emitted, but for the selects in front of it.
ghost use Rattle.std.specs.Prelude.{◌≡◌, ◌∷◌, ◌++◌, [], ◌↔◌, IfOk, IsTrue, OnOk, length, map};
ghost use Rattle.strat_code.specs.CodeOf.{case_of};
ghost use Rattle.strat_compile.specs.ChainOf.{bodies_of, body_of, roots_of};
ghost use Rattle.strat_compile.specs.Chains as spec;
ghost use Rattle.strat_compile.specs.Chains.{cases_between, cases_onto, skipped_from};
ghost use Rattle.term_model.specs.Results.{Returns};

use crate::layers::{successor, sum};
use std::alloc::{AllocError, Global};
use strat_code::{Case, Root};

/// An alternative whose code has been emitted: the roots that it asks for, the nodes of its derivation where the term has none
/// of them, and the place of its code.
#[derive(Drop)]
pub(crate) struct Body {
    /// The last one first.
    pub(crate) roots: Vec<Root>,
    pub(crate) nodes: usize,
    pub(crate) start: usize,
}

/// The alternatives of a chain, which may have none.
#[derive(Drop)]
pub(crate) struct Chain {
    /// The last one first.
    pub(crate) bodies: Vec<Body>,
    /// The place of what is done when no alternative is left.
    pub(crate) last: usize,
}

/// The cases of alternatives, and for each alternative how many of them come before its own.
#[derive(Drop)]
pub(crate) struct Cases {
    pub(crate) cases: Vec<Case>,
    pub(crate) skipped: Vec<usize>,
}

impl Chain {
    /// No alternative, in front of the code at this place.
    pub(crate) fn new(alloc: Global, last: usize) -> Chain
        ensures bodies { bodies_of result ≡ [] }
        ensures last { result.last ≡ last }
    {
        Chain {
            bodies: Vec::new(alloc),
            last,
        }
    }

    /// Whether there is no alternative.
    pub(crate) fn is_empty(&self) -> bool
        ensures { IsTrue result ↔ (length (bodies_of self.now) ≡ 0) }
    {
        self.bodies.len() == 0
    }

    /// An alternative more, in front of the others.
    pub(crate) fn push(&mut self, body: Body) -> Result<(), AllocError>
        ensures bodies { OnOk result (bodies_of self.new ≡ body_of body ∷ bodies_of self.old) }
        ensures last { self.new.last ≡ self.old.last }
    {
        self.bodies.push(body)?;
        Ok(())
    }

    /// The cases of the alternatives, which leave the chain. Their code begins at `base`, without the selects in front.
    pub(crate) fn cases(&mut self, alloc: Global, base: usize) -> Result<Cases, AllocError>
        ensures cases { IfOk result (λ made.
            map case_of made.cases.items ≡
            cases_between (bodies_of self.old) base self.old.last) }
        ensures skipped { IfOk result (λ made. made.skipped.items ≡
            skipped_from 0 (bodies_of self.old)) }
        ensures empty { OnOk result (bodies_of self.new ≡ []) }
    {
        let mut cases = Vec::new(alloc);
        let mut skipped = Vec::new(alloc);
        while let Some(body) = self.bodies.pop() {
            skipped.push(cases.len())?;
            push_cases(&mut cases, body, self.bodies.len(), base, self.last)?;
        }
        Ok(Cases { cases, skipped })
    }
}

/// Adds the cases of an alternative after which `left` others come, one for each of its roots.
fn push_cases(
    cases: &mut Vec<Case>,
    body: Body,
    left: usize,
    base: usize,
    last: usize,
) -> Result<(), AllocError>
    ensures { OnOk result (map case_of cases.new.items ≡ map case_of cases.old.items ++
        (let b = body_of body in
        cases_onto b.roots (spec.nodes_passed left b.nodes)
        b.start (spec.place_passed left base last) [])) }
{
    let Body {
        mut roots,
        nodes,
        start,
    } = body;
    let nodes = nodes_passed(nodes, left)?;
    let otherwise = place_passed(left, base, last)?;
    while let Some(root) = roots.pop() {
        cases.push(Case {
            root,
            nodes: nodes_of_case(roots.len(), nodes),
            body: start,
            otherwise,
        })?;
    }
    Ok(())
}

/// The nodes of an alternative after which `left` others come, where the term has another root.
fn nodes_passed(nodes: usize, left: usize) -> Result<usize, AllocError>
    ensures { Returns result (spec.nodes_passed left nodes) }
{
    if left == 0 {
        return Ok(nodes);
    }
    successor(nodes)
}

/// Where a failure in an alternative goes on after which `left` others come.
fn place_passed(left: usize, base: usize, last: usize) -> Result<usize, AllocError>
    ensures { Returns result (spec.place_passed left base last) }
{
    if left == 0 {
        return Ok(last);
    }
    sum(base, left)
}

/// The nodes of a case after which so many others of its alternative come.
fn nodes_of_case(others: usize, nodes: usize) -> usize
    ensures { result ≡ spec.nodes_of_case others nodes }
{
    if others == 0 { nodes } else { 0 }
}
