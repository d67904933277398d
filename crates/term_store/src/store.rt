//! What a store is made of.
ghost use Rattle.std.specs.Prelude.{◌≡◌, ◌≤◌, length};
ghost use Rattle.term_store.specs.Places.{small_count};
ghost use Rattle.term_store.specs.Store.{IsStore};

use crate::chains::Chains;
use crate::extents::Extents;
use crate::oversize::LastOversize;
use crate::shapes::Shapes;
use crate::stored::Span;
use indexmap::IndexSet;
use keyed_hash::HashKeys;
use term_model::Sym;

/// Terms under their places, each held once: a shape is a head, with the places of its parts and annotations, and
/// comes after them. The first 2,147,483,648 places are those of the integers from -1,073,741,824 to 1,073,741,823 without
/// annotations, which are not held and take no memory. Numbers have 32 bits: if 2,147,483,647 shapes are held, or
/// 4,294,967,295 chains of parts or symbols, a call that needs one more returns `AllocError`, as if out of memory.
#[derive(Drop)]
pub struct StoreSpace {
    pub(crate) symbols: IndexSet<Sym, HashKeys>,
    /// How many of the symbols stay for good, since they or later ones were brought in as names.
    pub(crate) named: u32,
    pub(crate) chains: Chains,
    pub(crate) shapes: Shapes,
    pub(crate) extents: Extents,
    /// The span of each chain but the empty one.
    pub(crate) spans: Vec<Span>,
    pub(crate) oversize: LastOversize,
    ghost store: { IsStore symbols.keys chains shapes.keys extents.items spans.items },
    ghost small: { shapes.small ≡ small_count },
    ghost sized: { extents.small ≡ small_count },
    ghost within: { named ≤ length symbols.keys },
}
