//! Why a file is refused.

use crate::note::Note;
use std::alloc::AllocError;
use std::marker::Model;
use term_model::Fault;

/// Why a file is refused: for a fault, with the note of the first place in the text that has it, or for want of memory.
#[derive(Drop)]
pub struct CheckRefusal {
    /// Nothing is noted where memory is refused.
    note: Option<Note>,
}

/// A refusal is its fault.
impl Model for CheckRefusal {
    ghost use Rattle.term_model.specs.declared.fault.Fault.{Fault};
    ghost use Rattle.scope_check.specs.Found.{fault_or_memory};

    ghost Value = { Fault };

    ghost view = { λ refusal. fault_or_memory refusal.note };
}

impl CheckRefusal {
    ghost use Rattle.std.specs.Prelude.{◌≡◌};
    ghost use Rattle.scope_check.specs.Complaint.{fault_of};
    ghost use Rattle.scope_check.specs.Found.{complaint_of};

    /// The refusal of a file that has the fault at this place.
    pub(crate) fn of(note: Note) -> CheckRefusal
        ensures { result ≡ fault_of (complaint_of note.detail) }
    {
        CheckRefusal { note: Some(note) }
    }

    /// The first place in the text that has the fault, with what is wrong there. Of a refusal for want of memory there is none.
    pub fn note(&self) -> Option<&Note> {
        self.note.as_ref()
    }

    /// The fault.
    pub fn fault(&self) -> Fault
        ensures { result ≡ self.now }
    {
        match &self.note {
            Some(note) => note.detail().fault(),
            None => Fault::Memory,
        }
    }
}

/// A refused growth is the fault `Memory`.
impl From<AllocError> for CheckRefusal {
    ghost use Rattle.std.specs.Prelude.{◌≡◌};
    ghost use Rattle.term_model.specs.declared.fault.Fault.TheVariants.{Memory};

    ghost from_gives = { λ _ refusal. refusal ≡ Memory };

    fn from(_: AllocError) -> CheckRefusal {
        CheckRefusal { note: None }
    }
}

/// A refusal is given on as its fault.
impl From<CheckRefusal> for Fault {
    ghost use Rattle.std.specs.Prelude.{◌≡◌};

    ghost from_gives = { λ refusal fault. fault ≡ refusal };

    fn from(refusal: CheckRefusal) -> Fault {
        refusal.fault()
    }
}
