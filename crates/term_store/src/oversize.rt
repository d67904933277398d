//! The size of the last term that did not fit.
use std::marker::Model;

/// The size of a term that did not fit, counted as `Term::weight` and `Term::depth` count. If the depth alone is too great,
/// both numbers are exact. If the weight is too great, each is a lower bound, since some parts may not have been added up.
#[derive(Clone, Copy, Debug, PartialEq, Eq)]
pub struct OversizeTerm {
    /// The weight, in nodes and bytes of symbols.
    pub weight: u32,
    /// The depth, in levels.
    pub depth: u32,
}

/// The size of the last term that did not fit, if there was one. Contracts see nothing of it.
#[derive(Drop)]
pub(crate) struct LastOversize {
    size: Option<OversizeTerm>,
}

impl Model for LastOversize {
    ghost use Rattle.std.specs.Prelude.{⊤};

    ghost Value = { ⊤ };

    ghost view = { λ _. tt };
}

impl LastOversize {
    /// No size, as long as each term fitted.
    pub(crate) fn new() -> LastOversize {
        LastOversize { size: None }
    }

    /// The size that was kept last, if there is one.
    pub(crate) fn get(&self) -> Option<OversizeTerm> {
        self.size
    }

    /// Keeps the size of a term that does not fit.
    #[cold]
    pub(crate) fn set(&mut self, weight: u32, depth: u32) {
        self.size = Some(OversizeTerm { weight, depth });
    }
}
