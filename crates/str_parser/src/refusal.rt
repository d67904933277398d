//! Why tokens are refused, with what a person wants to know.

use crate::expected::SyntaxReason;
use std::alloc::{AllocError, AllocFailed};
use term_model::Fault;

/// Why tokens are refused. An offset `at` is that of `Fault`.
#[derive(Clone, Copy, Debug, PartialEq, Eq)]
pub enum ParseRefusal {
    /// A growth of memory was refused.
    Memory,
    /// No phrase goes on with the token at the offset, for this reason.
    Syntax { at: u64, reason: SyntaxReason },
    /// A part begins one level beyond the greatest.
    Nesting { at: u64 },
}

/// The fault without its reason.
impl From<ParseRefusal> for Fault {
    ghost use Rattle.std.specs.Prelude.{◌≡◌};
    ghost use Rattle.str_parser.specs.Refusals.{fault_of};

    ghost from_gives = { λ refusal fault. fault ≡ fault_of refusal };

    fn from(refusal: ParseRefusal) -> Fault {
        match refusal {
            ParseRefusal::Memory => Fault::Memory,
            ParseRefusal::Syntax { at, .. } => Fault::Syntax { at },
            ParseRefusal::Nesting { at } => Fault::Nesting { at },
        }
    }
}

/// A refused growth is the refusal `Memory`.
impl From<AllocError> for ParseRefusal {
    ghost use Rattle.std.specs.Prelude.{◌≡◌};
    ghost use Rattle.str_parser.specs.declared.refusal.ParseRefusal.TheVariants.{Memory};

    ghost from_gives = { λ _ refusal. refusal ≡ Memory };

    fn from(_: AllocError) -> ParseRefusal {
        Self::Memory
    }
}

/// So is a refused growth that gives a value back, which is dropped.
impl<T: Drop> From<AllocFailed<T>> for ParseRefusal {
    ghost use Rattle.std.specs.Prelude.{◌≡◌};
    ghost use Rattle.str_parser.specs.declared.refusal.ParseRefusal.TheVariants.{Memory};

    ghost from_gives = { λ _ refusal. refusal ≡ Memory };

    fn from(_: AllocFailed<T>) -> ParseRefusal {
        ParseRefusal::from(AllocError)
    }
}
