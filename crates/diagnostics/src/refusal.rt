//! Why definitions are refused, with what a person wants to know.

use scope_check::CheckRefusal;
use std::alloc::AllocError;
use str_parser::ParseRefusal;
use term_model::Fault;

/// Why definitions are refused.
#[derive(Drop)]
pub enum Refusal {
    /// They are no tokens, or a growth of memory was refused.
    Fault(Fault),
    /// The parser refuses them.
    Parse(ParseRefusal),
    /// The checks refuse them.
    Check(CheckRefusal),
}

/// The fault without its reason.
impl From<Refusal> for Fault {
    ghost use Rattle.std.specs.Prelude.{◌≡◌};
    ghost use Rattle.diagnostics.specs.Refusals.{fault_of};

    ghost from_gives = { λ refusal fault. fault ≡ fault_of refusal };

    fn from(refusal: Refusal) -> Fault {
        match refusal {
            Refusal::Fault(fault) => fault,
            Refusal::Parse(refusal) => Fault::from(refusal),
            Refusal::Check(refusal) => Fault::from(refusal),
        }
    }
}

/// A fault that has no reason beside it.
impl From<Fault> for Refusal {
    ghost use Rattle.std.specs.Prelude.{◌≡◌};
    ghost use Rattle.diagnostics.specs.declared.refusal.Refusal.TheVariants as refusals;

    ghost from_gives = { λ fault refusal. refusal ≡ refusals.Fault fault };

    fn from(fault: Fault) -> Refusal {
        Refusal::Fault(fault)
    }
}

/// A refused growth is the fault `Memory`.
impl From<AllocError> for Refusal {
    ghost use Rattle.std.specs.Prelude.{◌≡◌};
    ghost use Rattle.diagnostics.specs.declared.refusal.Refusal.TheVariants as refusals;
    ghost use Rattle.term_model.specs.declared.fault.Fault.TheVariants.{Memory};

    ghost from_gives = { λ _ refusal. refusal ≡ refusals.Fault Memory };

    fn from(_: AllocError) -> Refusal {
        Refusal::Fault(Fault::Memory)
    }
}

impl From<ParseRefusal> for Refusal {
    ghost use Rattle.std.specs.Prelude.{◌≡◌};
    ghost use Rattle.diagnostics.specs.declared.refusal.Refusal.TheVariants as refusals;

    ghost from_gives = { λ refusal made. made ≡ refusals.Parse refusal };

    fn from(refusal: ParseRefusal) -> Refusal {
        Refusal::Parse(refusal)
    }
}

impl From<CheckRefusal> for Refusal {
    ghost use Rattle.std.specs.Prelude.{◌≡◌};
    ghost use Rattle.diagnostics.specs.declared.refusal.Refusal.TheVariants as refusals;

    ghost from_gives = { λ refusal made. made ≡ refusals.Check refusal };

    fn from(refusal: CheckRefusal) -> Refusal {
        Refusal::Check(refusal)
    }
}
