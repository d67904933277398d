//! What was read of the joined form when the end of its definitions was found.
ghost use Rattle.std.specs.Prelude.{◌≤◌, vec_len};

/// The definitions of the joined form, and what was read after them.
#[derive(Drop)]
pub(crate) struct JoinedFront {
    pub(crate) bytes: Vec<u8>,
    /// Where the definitions end.
    pub(crate) definitions: usize,
    /// Where the term text begins.
    pub(crate) term: usize,
    /// Whether nothing is left to be read.
    pub(crate) is_ended: bool,
    ghost definitions_within: { definitions ≤ vec_len bytes },
    ghost term_within: { term ≤ vec_len bytes },
}
