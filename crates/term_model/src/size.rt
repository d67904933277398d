//! The size of a node that is to be made, by the sizes that its parts keep.
ghost use Rattle.std.specs.Prelude.{MatchOption, SomeIff, ◌<◌, ◌*◌, ◌+◌, ◌≤◌};
ghost use Rattle.term_model.specs.Term.{weights, head_weight, trees_of};
ghost use Rattle.term_model.specs.TermSize.{IsSize};

use crate::term::{Head, MAX_WEIGHT, Term};

/// How much several terms weigh together, and how deep the deepest is.
#[derive(Clone, Copy)]
pub(crate) struct Size {
    pub(crate) weight: u32,
    pub(crate) depth: u32,
}

/// The size of terms that do not weigh more than a term may.
pub(crate) fn size_of_all(terms: &[Term]) -> Option<Size>
    ensures { MatchOption result (MAX_WEIGHT < weights (trees_of terms.now))
        (λ size. IsSize size terms.now) }
{
    let mut weight = 0;
    let mut depth = 0;
    for term in terms {
        weight += term.weight();
        depth = depth.max(term.depth());
        if weight > MAX_WEIGHT {
            return None;
        }
    }
    Some(Size { weight, depth })
}

/// The weight of a node with this head, whose parts and annotations weigh so much, where it fits.
pub(crate) fn weight_with(head: &Head, below: u32) -> Option<u32>
    requires { below ≤ 2 * MAX_WEIGHT }
    ensures { SomeIff result (1 + (head_weight head.now + below) ≤ MAX_WEIGHT)
        (1 + (head_weight head.now + below)) }
{
    let bytes = match head {
        Head::App(symbol) => symbol.bytes().len(),
        Head::Int(_) | Head::List => 0,
    };
    if below >= MAX_WEIGHT || bytes >= (MAX_WEIGHT - below) as usize {
        return None;
    }
    Some(1 + bytes as u32 + below)
}
