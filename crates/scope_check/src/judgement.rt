//! The judgement of a file.
ghost use Rattle.std.specs.Prelude.{◌≡◌, ◌⊎◌, None, Some, IfErr, IfOk};
ghost use Rattle.scope_check.specs.Checked.{IsChecked};
ghost use Rattle.scope_check.specs.Complaint.{first_fault};
ghost use Rattle.scope_check.specs.Primitives.{holds};
ghost use Rattle.str_syntax.specs.Views.{file_of};
ghost use Rattle.term_model.specs.declared.fault.Fault.TheVariants.{Memory};

use crate::file::find_in_file;
use crate::findings::Findings;
use crate::refusal::CheckRefusal;
use keyed_hash::HashKeys;
use signature_core::Signature;
use std::alloc::Global;
use std::marker::Model;
use str_syntax::File;
use term_model::{Fault, PrimNames};

/// A file without a fault, its signature, and the name of its main definition.
#[derive(Drop)]
pub struct Checked {
    file: File,
    signature: Signature,
    main: Vec<u8>,
}

impl Model for Checked {
    ghost use Rattle.scope_check.specs.Checked.{Checked, IsChecked};
    ghost use Rattle.str_syntax.specs.Views.{file_of};

    ghost Value = { Checked };

    ghost use Rattle.std.specs.Coded.{codes};
    ghost use Rattle.signature_core.specs.DeclaredCode.{declared_code};
    ghost use Rattle.str_syntax.specs.contracts.definition.File as files;

    ghost coded = { Prim.hlevel (codes, files.the_row.coded, declared_code) };

    ghost view = { λ c. record { file = c.file; declarations = c.signature; main = c.main.items } };

    ghost invariant = { λ c. IsChecked (file_of c.file) c.signature c.main.items };
}

impl Checked {
    /// The file, with all definitions that stand in it.
    pub fn file(&self) -> &File
        ensures file { result.now ≡ self.now.file }
        ensures checked { IsChecked (file_of self.now.file) self.now.declarations self.now.main }
    {
        &self.file
    }

    /// The constructors that the file declares.
    pub fn signature(&self) -> &Signature
        ensures signature { result.now ≡ self.now.declarations }
        ensures checked { IsChecked (file_of self.now.file) self.now.declarations self.now.main }
    {
        &self.signature
    }

    /// The name of the main definition.
    pub fn main(&self) -> &[u8]
        ensures main { result.now ≡ self.now.main }
        ensures checked { IsChecked (file_of self.now.file) self.now.declarations self.now.main }
    {
        &self.main
    }

    /// Returns the declarations of the file, and drops its trees.
    pub fn into_signature(self) -> Signature
        ensures signature { result ≡ self.declarations }
        ensures checked { IsChecked (file_of self.file) self.declarations self.main }
    {
        let Checked { signature, .. } = self;
        signature
    }
}

/// Judges the file, whose definition `main` is to be run and whose primitives are those of the set, and keeps it with its signature.
/// An error is the fault of the least number among those that occur anywhere in the file:
///
/// - `DuplicateDeclaration` where a constructor is declared twice with the same sorts;
/// - `Undeclared` where a pattern has a constructor that is not declared with this number of sorts;
/// - `Parameters` where a definition or a scope repeats a name, where alternatives of one key have other parameters, or where a key
///   has over 1,000 alternatives;
/// - `Clash` where a definition, a strategy parameter or a `rec` has the name of a declared constructor, or where a definition of the
///   file has the key of one of the library's; the library's strategy parameters may have any name;
/// - `UnknownStrategy` where a call is no congruence, and what it calls is not seen where it stands;
/// - `NotBuildable` where a build has `_` or `x@p`;
/// - `UnknownPrimitive` where a primitive is called that is not among these with this number of terms;
/// - `NoMain` where no definition at top level has the name `main` and no parameters.
///
/// `Memory` where a growth is refused, whatever else occurs. After an error the file is dropped. The tables of names hash with the
/// keys, and nothing else depends on them.
pub fn check(
    alloc: Global,
    hashing: HashKeys,
    file: File,
    primitives: &PrimNames,
    main: &[u8],
) -> Result<Checked, Fault>
    ensures file { IfOk result (λ checked. checked.file ≡ file) }
    ensures main { IfOk result (λ checked. checked.main ≡ main.now) }
    ensures checked { IfOk result
        (λ checked. IsChecked (file_of file) checked.declarations main.now) }
    ensures faultless { IfOk result
        (λ checked. first_fault (holds primitives.now) (file_of file) main.now ≡ None) }
    ensures fault { IfErr result (λ fault. (fault ≡ Memory) ⊎
        (first_fault (holds primitives.now) (file_of file) main.now ≡ Some fault)) }
{
    let checked = judge(alloc, hashing, file, primitives, main)?;
    Ok(checked)
}

/// Judges the file as `check` does. Where it is refused for a fault, the refusal has the note of the first place in the text that has
/// this fault.
pub fn judge(
    alloc: Global,
    hashing: HashKeys,
    file: File,
    primitives: &PrimNames,
    main: &[u8],
) -> Result<Checked, CheckRefusal>
    ensures file { IfOk result (λ checked. checked.file ≡ file) }
    ensures main { IfOk result (λ checked. checked.main ≡ main.now) }
    ensures checked { IfOk result
        (λ checked. IsChecked (file_of file) checked.declarations main.now) }
    ensures faultless { IfOk result
        (λ checked. first_fault (holds primitives.now) (file_of file) main.now ≡ None) }
    ensures fault { IfErr result (λ fault. (fault ≡ Memory) ⊎
        (first_fault (holds primitives.now) (file_of file) main.now ≡ Some fault)) }
{
    let mut findings = Findings::none();
    let signature = find_in_file(alloc, hashing, &file, primitives, main, &mut findings)?;
    if let Some(note) = findings.least() {
        return Err(CheckRefusal::of(note));
    }
    let main = Vec::from_slice(alloc, main)?;
    Ok(Checked {
        file,
        signature,
        main,
    })
}
