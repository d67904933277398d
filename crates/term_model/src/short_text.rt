//! Short texts that stand where their owner does, and take no memory of their own.
ghost use Rattle.std.specs.Prelude.{◌≡◌, ◌<◌, length, MatchOption};

use std::marker::Model;

/// The most bytes that stand in place: with them, a symbol takes as many bytes as with a share.
const MOST: usize = 14;

/// At most 14 bytes.
#[derive(Drop)]
pub struct ShortText {
    length: u8,
    bytes: [u8; MOST],
}

impl Model for ShortText {
    ghost use Rattle.std.specs.Prelude.{List, ℕ, take, ◌≤◌};

    ghost Value = { List ℕ };

    ghost view = { λ s. take s.length s.bytes };

    ghost invariant = { λ s. s.length ≤ 14 };
}

impl ShortText {
    /// These bytes, where they are at most 14; `None` where they are more.
    #[inline]
    pub fn new(text: &[u8]) -> Option<ShortText>
        ensures { MatchOption result (14 < length text.now) (λ short. short ≡ text.now) }
    {
        if text.len() > MOST {
            return None;
        }
        let mut bytes = [0; MOST];
        bytes[..text.len()].copy_from_slice(text);
        Some(ShortText {
            length: text.len() as u8,
            bytes,
        })
    }

    /// The same bytes once more.
    pub fn copy(&self) -> ShortText
        ensures { result ≡ self.now }
    {
        ShortText {
            length: self.length,
            bytes: self.bytes,
        }
    }

    /// The bytes.
    #[inline]
    pub fn as_slice(&self) -> &[u8]
        ensures { result.now ≡ self.now }
    {
        &self.bytes[..usize::from(self.length)]
    }
}
