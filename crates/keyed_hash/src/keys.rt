//! The keys of a hash function.
ghost use Rattle.std.specs.Prelude.{◌≡◌, ◌+◌, ◌*◌, ◌/◌, suc};

use crate::hasher::KeyedHasher;
use std::hash::BuildHasher;
use std::random::RandomSource;

/// The keys of tests and benchmarks, and of a run to which no random bytes are given.
const KNOWN_STATE: u64 = 0x243f_6a88_85a3_08d3;

/// The multiplier of those keys.
const KNOWN_MULTIPLIER: u64 = 0x9e37_79b9_7f4a_7c15;

/// The two secret words of a hash function: its first state, and its multiplier, which is odd. Whoever does not know them cannot choose keys
/// of a table that collide more often than others do.
#[derive(Clone, Copy, PartialEq, Eq, Drop)]
pub struct HashKeys {
    state: u64,
    multiplier: u64,
}

impl HashKeys {
    /// Returns the keys of any two words. The multiplier is made odd: an even one would be zero once the length of what is
    /// hashed is mixed in, for one of the lengths.
    pub fn new(state: u64, multiplier: u64) -> HashKeys
        ensures state { result.state ≡ state }
        ensures odd { result.multiplier ≡ multiplier / 2 * 2 + 1 }
    {
        HashKeys {
            state,
            multiplier: multiplier / 2 * 2 + 1,
        }
    }

    /// Returns keys that everybody knows: for tests and benchmarks, which are to do the same in each run.
    pub fn known() -> HashKeys {
        HashKeys::new(KNOWN_STATE, KNOWN_MULTIPLIER)
    }

    /// Draws keys from a source of random bytes. If it fails, the keys are the known ones.
    pub fn draw<R: RandomSource>(source: &R) -> HashKeys {
        let mut bytes = [0; 16];
        if source.fill_bytes(&mut bytes).is_err() {
            return HashKeys::known();
        }
        HashKeys::new(word_at(&bytes, 0), word_at(&bytes, 8))
    }
}

/// Returns the word of eight bytes.
fn word_at(bytes: &[u8; 16], at: usize) -> u64 {
    let mut word = 0;
    for byte in bytes.iter().skip(at).take(8) {
        word = word << 8 | *byte as u64;
    }
    word
}

impl BuildHasher for HashKeys {
    type Hasher = KeyedHasher;

    ghost use Rattle.keyed_hash.specs.Folding.{first_hasher};

    ghost build_hasher = { λ keys. first_hasher keys.state keys.multiplier };

    fn build_hasher(&self) -> KeyedHasher {
        KeyedHasher {
            state: self.state,
            multiplier: self.multiplier,
        }
    }
}
