//! A device in memory whose calls fail from a given one on.
ghost use Rattle.std.specs.Prelude.{◌≤◌, vec_len, vec_capacity};

mod calls;

use crate::tally::{Calls, Count};

/// A reader of given bytes, or a writer with room for some. A call moves at most `piece` bytes.
/// From call number `bad` on, the first being 1, each call fails, or takes nothing where it is
/// silent.
#[derive(Drop)]
pub struct Faulty {
    bytes: Vec<u8>,
    taken: usize,
    room: usize,
    piece: usize,
    bad: Option<u64>,
    is_silent: bool,
    calls: Calls,
    failed: Count,
    ghost within: { taken ≤ vec_len bytes },
    ghost moves: { 1 ≤ piece },
    ghost reserved: { room ≤ vec_capacity bytes },
}
