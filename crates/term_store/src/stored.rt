//! Shapes as they are stored, and the sizes beside them.
ghost use Rattle.std.specs.Prelude.{◌≡◌, ◌++◌, ◌+◌, ◌*◌};
ghost use Rattle.std.specs.Hash as fed;
ghost use Rattle.std.proofs.Common.{rules};
ghost use Rattle.std.specs.Cmp.Rules.{comparing, hashing};
ghost use Rattle.term_store.specs.declared.stored.StoredHead.TheVariants as stored;
ghost use Rattle.term_store.specs.Shapes.{shape_of, shape_head, shape_parts, shape_annos};

use std::hash::{Hash, Hasher};
use term_model::{Block, Front};

/// Two numbers of 32 bits are hashed as one of 64.
const HIGH: u64 = 4_294_967_296;

/// The block of no places.
const EMPTY: Block<u32> = Block {
    front: Front::Zero,
    rest: 0,
};

/// What a term is, but for its parts and annotations: an integer, the number of a symbol, or the head of lists.
#[derive(Clone, Copy, PartialEq, Eq)]
pub(crate) enum StoredHead {
    Int(i64),
    Symbol(u32),
    List,
}

/// A term as it is held: an integer, the number of a symbol with the block of its parts, or a list with the block of its
/// elements, each with the chain of its annotations. It takes 32 bytes, since an integer stands where others have their parts.
#[derive(Clone, Copy, PartialEq, Eq)]
pub(crate) enum StoredShape {
    Int {
        annos: u32,
        value: i64,
    },
    Applied {
        annos: u32,
        parts: Block<u32>,
        number: u32,
    },
    List {
        annos: u32,
        parts: Block<u32>,
    },
}

const _: () = prove!(size_of::<StoredShape>() == 32);

impl StoredShape {
    /// The shape of a head, which takes no parts if it is an integer.
    #[inline]
    pub(crate) fn new(head: StoredHead, parts: Block<u32>, annos: u32) -> StoredShape
        ensures { result ≡ shape_of head parts annos }
    {
        match head {
            StoredHead::Int(value) => StoredShape::Int { annos, value },
            StoredHead::Symbol(number) => StoredShape::Applied {
                annos,
                parts,
                number,
            },
            StoredHead::List => StoredShape::List { annos, parts },
        }
    }

    /// The head.
    #[inline]
    pub(crate) fn head(&self) -> StoredHead
        ensures { result ≡ shape_head self.now }
    {
        match *self {
            StoredShape::Int { value, .. } => StoredHead::Int(value),
            StoredShape::Applied { number, .. } => StoredHead::Symbol(number),
            StoredShape::List { .. } => StoredHead::List,
        }
    }

    /// The block of the parts.
    #[inline]
    pub(crate) fn parts(&self) -> Block<u32>
        ensures { result ≡ shape_parts self.now }
    {
        match *self {
            StoredShape::Int { .. } => EMPTY,
            StoredShape::Applied { parts, .. } | StoredShape::List { parts, .. } => parts,
        }
    }

    /// The block of the elements of a list.
    #[inline]
    pub(crate) fn elements(&self) -> Block<u32>
        requires { shape_head self.now ≡ stored.List }
        ensures { result ≡ shape_parts self.now }
    {
        match *self {
            StoredShape::List { parts, .. } => parts,
            StoredShape::Int { .. } | StoredShape::Applied { .. } => unreachable!(),
        }
    }

    /// The chain of the annotations.
    #[inline]
    pub(crate) fn annos(&self) -> u32
        ensures { result ≡ shape_annos self.now }
    {
        match *self {
            StoredShape::Int { annos, .. }
            | StoredShape::Applied { annos, .. }
            | StoredShape::List { annos, .. } => annos,
        }
    }
}

impl Hash for StoredShape {
    ghost use Rattle.term_store.specs.Hashing.{shape_writes};

    ghost hash_input = { shape_writes };

    ghost respects_eq = { Prim.search (hashing, rules) };

    fn hash<H: Hasher>(&self, state: &mut H) {
        match *self {
            StoredShape::Int { annos, value } => {
                state.write_u64(value.cast_unsigned());
                if annos != 0 {
                    state.write_u32(annos);
                }
            }
            StoredShape::Applied {
                annos,
                parts,
                number,
            } => {
                state.write_u64(number as u64 * HIGH + annos as u64);
                parts.hash(state);
            }
            StoredShape::List { annos, parts } => {
                state.write_u64(annos as u64);
                parts.hash(state);
            }
        }
    }
}

/// How heavy and deep a term is, and how many chains and symbols there were when its shape came.
#[derive(Clone, Copy)]
pub(crate) struct Extent {
    pub(crate) weight: u32,
    pub(crate) depth: u32,
    pub(crate) chains: u32,
    pub(crate) symbols: u32,
}

/// How heavy, deep and many the terms of a chain are.
#[derive(Clone, Copy)]
pub(crate) struct Span {
    pub(crate) weight: u32,
    pub(crate) depth: u32,
    pub(crate) length: u32,
}
