//! Equality and hash of sorts: they are those of their trees, wherever the names stand.
ghost use Rattle.std.specs.Prelude.{◌≡◌, ◌↔◌, IsTrue, fold};
ghost use Rattle.str_syntax.specs.SameSort.{same_sort, same_sorts};
ghost use Rattle.str_syntax.specs.SortHashing.{sort_writes, sorts_writes};
ghost use Rattle.str_syntax.specs.Views.{sort_tree_of, sorts_of};

use crate::sort::Sort;
use std::hash::{Hash, Hasher};

impl PartialEq for Sort {
    ghost use Rattle.std.specs.Cmp.{on_per};
    ghost use Rattle.str_syntax.specs.SortEquality.{same_sort_partial_equiv};

    ghost eq = { λ a b. same_sort (sort_tree_of a) (sort_tree_of b) };

    #[tactic(auto, using(crate::proofs::SortLaws::equal))]
    fn eq(&self, other: &Sort) -> bool
        ensures same { result ≡ same_sort (sort_tree_of self.now) (sort_tree_of other.now) }
        ensures equal { IsTrue result ↔ (sort_tree_of self.now ≡ sort_tree_of other.now) }
    {
        are_same(self, other)
    }

    ghost laws = { on_per sort_tree_of same_sort_partial_equiv };
}

impl Eq for Sort {
    ghost use Rattle.std.specs.Cmp.{on_equiv};
    ghost use Rattle.str_syntax.specs.SortEquality.{same_sort_equiv};

    ghost laws = { on_equiv sort_tree_of same_sort_equiv };
}

impl Hash for Sort {
    ghost use Rattle.str_syntax.specs.SortHashing.{sort_writes-same};

    ghost hash_input = { λ a. sort_writes (sort_tree_of a) };

    ghost respects_eq = { λ a b. sort_writes-same (sort_tree_of a) (sort_tree_of b) };

    fn hash<H: Hasher>(&self, state: &mut H) {
        feed(self, state);
    }
}

/// Whether two sorts are the same.
#[cycle(same)]
fn are_same(left: &Sort, right: &Sort) -> bool
    ensures { result ≡ same_sort (sort_tree_of left.now) (sort_tree_of right.now) }
{
    match (left, right) {
        (Sort::Named(a), Sort::Named(b)) => a == b,
        (Sort::Applied(a, parts), Sort::Applied(b, others)) => a == b && all_same(parts, others),
        _ => false,
    }
}

/// Whether two slices have the same sorts in the same order.
#[cycle(same)]
#[tactic(auto, using(crate::proofs::SortLaws::equality))]
fn all_same(left: &[Sort], right: &[Sort]) -> bool
    ensures { result ≡ same_sorts (sorts_of left.now) (sorts_of right.now) }
{
    if left.len() != right.len() {
        return false;
    }
    for (one, other) in left.iter().zip(right) {
        if !are_same(one, other) {
            return false;
        }
    }
    true
}

/// Feeds the hasher a sort.
#[cycle(feed)]
fn feed<H: Hasher>(sort: &Sort, state: &mut H)
    ensures { state.new ≡ fold H.write state.old (sort_writes (sort_tree_of sort.now)) }
{
    match sort {
        Sort::Named(a) => {
            0u8.hash(state);
            a.hash(state);
        }
        Sort::Applied(a, parts) => {
            1u8.hash(state);
            a.hash(state);
            feed_all(parts, state);
        }
    }
}

/// Feeds the hasher the sorts, and what ends them.
#[cycle(feed)]
fn feed_all<H: Hasher>(sorts: &[Sort], state: &mut H)
    ensures { state.new ≡ fold H.write state.old (sorts_writes (sorts_of sorts.now)) }
{
    for sort in sorts {
        feed(sort, state);
    }
    2u8.hash(state);
}
