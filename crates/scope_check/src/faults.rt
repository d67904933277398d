//! All that is wrong with a file, for people.
ghost use Rattle.std.specs.Prelude.{◌≡◌, IfOk, is_none};
ghost use Rattle.scope_check.specs.Complaint.{first_fault};
ghost use Rattle.scope_check.specs.Found.{finds_nothing};
ghost use Rattle.scope_check.specs.Primitives.{holds};
ghost use Rattle.str_syntax.specs.Views.{file_of};

use crate::file::find_in_file;
use crate::findings::Findings;
use crate::note::Note;
use keyed_hash::HashKeys;
use signature_core::Signature;
use std::alloc::{AllocError, Global};
use str_syntax::File;
use term_model::PrimNames;

/// What is wrong with a file, for people, and its signature.
#[derive(Drop)]
pub struct FileFaults {
    signature: Signature,
    findings: Findings,
}

impl FileFaults {
    /// The constructors that the file declares, without declarations that stand again.
    pub fn signature(&self) -> &Signature {
        &self.signature
    }

    /// Returns whether nothing is wrong with the file.
    pub fn is_sound(&self) -> bool
        ensures { result ≡ finds_nothing self.now.findings }
    {
        match self.findings.least() {
            None => true,
            Some(_) => false,
        }
    }

    /// The notes in the order of the text, and after them those whose place is not known: at most the first hundred. Those for which
    /// memory was refused are left out.
    pub fn notes(&self) -> &[Note] {
        self.findings.collected()
    }

    /// How many notes there were.
    pub fn count(&self) -> usize {
        self.findings.count()
    }
}

/// Finds all that is wrong with the file, as `judge` does, and collects the notes of the file, but for those of the library. Nothing is found
/// exactly where `judge` refuses nothing. `AllocError` where a growth is refused.
pub fn find_faults(
    alloc: Global,
    hashing: HashKeys,
    file: &File,
    primitives: &PrimNames,
    main: &[u8],
) -> Result<FileFaults, AllocError>
    ensures { IfOk result (λ faults. finds_nothing faults.findings ≡
        is_none (first_fault (holds primitives.now) (file_of file.now) main.now)) }
{
    let mut findings = Findings::collecting(alloc);
    let signature = find_in_file(alloc, hashing, file, primitives, main, &mut findings)?;
    Ok(FileFaults {
        signature,
        findings,
    })
}
