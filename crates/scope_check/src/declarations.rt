//! The signature of a file.
ghost use Rattle.std.specs.Prelude.{◌≡◌, ◌∷◌, [], map, IfOk, OnOk};
ghost use Rattle.scope_check.specs.Tables.{Declares, declared_by, declared_in};
ghost use Rattle.signature_core.specs.Signature.{declarations_of, declarations_of_part, declarations_of_parts, declarations_of_sections, declarations_of_signature};
ghost use Rattle.signature_core.specs.Views.{declaration};
ghost use Rattle.str_syntax.specs.Views.{declaration_of, file_of, section_of, signature_of, sort_tree_of};

use crate::detail::Detail;
use crate::findings::Findings;
use keyed_hash::HashKeys;
use signature_core::Signature;
use std::alloc::{AllocError, Global};
use str_syntax::{Declaration, File, Name, Section, SignaturePart, Sort};
use term_model::Fault;

/// The signature of the file, in which each declaration that stands again is left out and found. `AllocError` where a growth is refused.
pub(crate) fn signature_of(
    alloc: Global,
    hashing: HashKeys,
    file: &File,
    findings: &mut Findings,
) -> Result<Signature, AllocError>
    ensures { IfOk result (λ made.
        Declares [] (declarations_of (file_of file.now)) made findings.old findings.new) }
{
    let mut signature = Signature::new(alloc, hashing);
    declare_sections(alloc, &mut signature, &file.sections, findings)?;
    Ok(signature)
}

/// Declares what the sections declare, one after another.
fn declare_sections(
    alloc: Global,
    signature: &mut Signature,
    sections: &[Section],
    findings: &mut Findings,
) -> Result<(), AllocError>
    ensures { OnOk result (Declares signature.old
        (declarations_of_sections (map section_of sections.now))
        signature.new findings.old findings.new) }
{
    for section in sections {
        declare_section(alloc, signature, section, findings)?;
    }
    Ok(())
}

/// Declares what the section declares.
fn declare_section(
    alloc: Global,
    signature: &mut Signature,
    section: &Section,
    findings: &mut Findings,
) -> Result<(), AllocError>
    ensures { OnOk result (Declares signature.old
        (declared_in (section_of section.now))
        signature.new findings.old findings.new) }
{
    match section {
        Section::Signature(parts) => declare_parts(alloc, signature, parts, findings),
        Section::Rules(_) | Section::Strategies(_) => Ok(()),
    }
}

/// Declares what the parts of a signature declare.
fn declare_parts(
    alloc: Global,
    signature: &mut Signature,
    parts: &[SignaturePart],
    findings: &mut Findings,
) -> Result<(), AllocError>
    ensures { OnOk result (Declares signature.old
        (declarations_of_signature (map signature_of parts.now))
        signature.new findings.old findings.new) }
{
    for part in parts {
        declare_part(alloc, signature, part, findings)?;
    }
    Ok(())
}

/// Declares what the part of a signature declares.
fn declare_part(
    alloc: Global,
    signature: &mut Signature,
    part: &SignaturePart,
    findings: &mut Findings,
) -> Result<(), AllocError>
    ensures { OnOk result (Declares signature.old
        (declared_by (signature_of part.now))
        signature.new findings.old findings.new) }
{
    match part {
        SignaturePart::Sorts(_) => Ok(()),
        SignaturePart::Constructors(all) => declare_all(alloc, signature, all, findings),
    }
}

/// Declares the constructors.
fn declare_all(
    alloc: Global,
    signature: &mut Signature,
    all: &[Declaration],
    findings: &mut Findings,
) -> Result<(), AllocError>
    ensures { OnOk result (Declares signature.old
        (declarations_of_parts (map declaration_of all.now))
        signature.new findings.old findings.new) }
{
    for one in all {
        declare(alloc, signature, one, findings)?;
    }
    Ok(())
}

/// Declares the constructor, if the declaration is of one.
fn declare(
    alloc: Global,
    signature: &mut Signature,
    one: &Declaration,
    findings: &mut Findings,
) -> Result<(), AllocError>
    ensures { OnOk result (Declares signature.old
        (declarations_of_part (declaration_of one.now))
        signature.new findings.old findings.new) }
{
    match one {
        Declaration::Constant(c, a) => declare_constructor(alloc, signature, c, &[], a, findings),
        Declaration::Constructor(c, parts, a) => declare_constructor(
            alloc, signature, c, parts, a, findings,
        ),
        Declaration::Injection(_, _) => Ok(()),
    }
}

/// Declares the constructor of copies of the name and the sorts, or finds that it is declared.
fn declare_constructor(
    alloc: Global,
    signature: &mut Signature,
    name: &Name,
    arguments: &[Sort],
    to: &Sort,
    findings: &mut Findings,
) -> Result<(), AllocError>
    ensures { OnOk result (Declares signature.old
        (declaration name.now arguments.now to.now ∷ [])
        signature.new findings.old findings.new) }
{
    let copied = name.copy(alloc)?;
    let arguments = copy_sorts(alloc, arguments)?;
    let to = to.copy(alloc)?;
    match signature.declare(copied, arguments, to) {
        Ok(()) => Ok(()),
        Err(Fault::DuplicateDeclaration) => {
            findings.note(name, Detail::DeclaredAgain);
            Ok(())
        }
        Err(_) => Err(AllocError),
    }
}

fn copy_sorts(alloc: Global, source: &[Sort]) -> Result<Vec<Sort>, AllocError>
    ensures { IfOk result (λ made. map sort_tree_of made.items ≡ map sort_tree_of source.now) }
{
    let mut made = Vec::with_capacity(alloc, source.len())?;
    for sort in source {
        made.push(sort.copy(alloc)?)?;
    }
    Ok(made)
}
