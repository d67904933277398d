//! Equality of terms: it goes down along their depth, and along each list by a loop.
ghost use Rattle.std.specs.Prelude.{◌≡◌};
ghost use Rattle.term_model.specs.Same.{same, same_all};
ghost use Rattle.term_model.specs.Term.{trees_of};

use crate::term::Term;

/// Whether two terms are the same.
#[cycle(same)]
#[tactic(auto, using(crate::proofs::EqualityLemmas::equality))]
pub(crate) fn are_same(left: &Term, right: &Term) -> bool
    ensures { result ≡ same left.now right.now }
{
    left.weight() == right.weight()
        && left.head() == right.head()
        && all_same(left.children(), right.children())
        && all_same(left.annos(), right.annos())
}

/// Whether two slices have the same terms in the same order.
#[cycle(same)]
#[tactic(auto, using(crate::proofs::EqualityLemmas::equality))]
fn all_same(left: &[Term], right: &[Term]) -> bool
    ensures { result ≡ same_all (trees_of left.now) (trees_of right.now) }
{
    if left.len() != right.len() {
        return false;
    }
    for (one, other) in left.iter().zip(right) {
        if !are_same(one, other) {
            return false;
        }
    }
    true
}
