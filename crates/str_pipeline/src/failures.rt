//! The failures of a run that are reported, with the calls that waited.

use crate::callers::library_call;
use crate::causes::Leaf;
use strat_machine::Stand;

/// Which failure of a run is reported.
#[derive(Clone, Copy, Debug, PartialEq, Eq)]
pub(crate) enum FailureKind {
    /// The one that nothing caught.
    Last,
    /// The deepest one in front of it.
    Deepest,
}

impl FailureKind {
    /// What is added to a failure of this kind. It may have come inside a call that is reported already.
    pub(crate) fn note(self, is_inside: bool) -> &'static [u8] {
        match self {
            FailureKind::Deepest => b", the deepest failure before that, and maybe the cause",
            FailureKind::Last if is_inside => self.inner_note(),
            FailureKind::Last => b"",
        }
    }

    /// What is added to the failure inside a call.
    pub(crate) fn inner_note(self) -> &'static [u8] {
        match self {
            FailureKind::Last => b", the last failure inside that call",
            FailureKind::Deepest => b", inside that call",
        }
    }
}

/// A failure that is reported: before which instruction the run stood, and the bytes at which the calls stand that waited.
#[derive(Drop)]
pub(crate) struct Failure<'a> {
    pub(crate) kind: FailureKind,
    pub(crate) leaf: Leaf<'a>,
    pub(crate) stand: &'a Stand,
    /// Where the run stood before the call of DEFS, if the failure came in a file in front of DEFS and that is known.
    pub(crate) call: Option<&'a Stand>,
    /// The outermost first; nothing in place of one of the library.
    pub(crate) sites: Vec<Option<usize>>,
}

impl<'a> Failure<'a> {
    /// The index of the call of DEFS at which it is reported, if it came in a file in front of DEFS. These are the first `library` bytes.
    pub(crate) fn call_index(&self, library: usize) -> Option<usize> {
        library_call(&self.sites, self.leaf.offset(), library)
    }

    /// The calls that waited from an index on.
    pub(crate) fn sites_from(&self, index: usize) -> &[Option<usize>] {
        self.sites.get(index..).unwrap_or(&[])
    }

    /// Whether it came in the same call of a file in front of DEFS as another one, as far as the calls that waited tell.
    pub(crate) fn is_in_call_of(&self, other: &Failure<'_>, library: usize) -> bool {
        let index = self.call_index(library);
        let Some(index) = index.filter(|_| index == other.call_index(library)) else {
            return false;
        };
        let have_one_term = match (self.call, other.call) {
            (Some(call), Some(other_call)) => call.term == other_call.term,
            _ => true,
        };
        have_one_term && self.sites.get(..=index) == other.sites.get(..=index)
    }
}
