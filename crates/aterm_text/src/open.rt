//! What the reader keeps of a text up to an index.
ghost use Rattle.std.specs.Prelude.{◌≡◌, [], true};

use std::alloc::Global;

/// What a bracket encloses.
#[derive(Drop)]
pub(crate) enum Enclosing<N: Drop> {
    Parts(N),
    Elements,
    /// The annotations of the term that is read right before them.
    Annotations,
}

/// A bracket that is open, and how many of the terms that are read come before those in it.
#[derive(Drop)]
pub(crate) struct Bracket<N: Drop> {
    pub(crate) enclosing: Enclosing<N>,
    pub(crate) bottom: usize,
}

/// The brackets that are open, and the terms in them and after them.
#[derive(Drop)]
pub(crate) struct Reader<R: Drop, N: Drop> {
    pub(crate) open: Vec<Bracket<N>>,
    pub(crate) terms: Vec<R>,
    /// Whether all terms so far fit. Where one does not, neither does that of the whole text, and no more are made.
    pub(crate) fits: bool,
}

/// What may come next.
#[derive(Clone, Copy, Drop)]
pub(crate) enum Next {
    /// A term.
    Term,
    /// A term, or the bracket that closes the innermost one.
    First,
    /// What follows a term, which may be annotated.
    Whole,
    /// What follows a term with annotations.
    Done,
}

impl<R: Drop, N: Drop> Reader<R, N> {
    /// Nothing is read.
    pub(crate) fn new(alloc: Global) -> Reader<R, N>
        ensures opened { result.«open».items ≡ [] }
        ensures terms { result.terms.items ≡ [] }
        ensures fits { result.fits ≡ true }
    {
        Reader {
            open: Vec::new(alloc),
            terms: Vec::new(alloc),
            fits: true,
        }
    }
}
