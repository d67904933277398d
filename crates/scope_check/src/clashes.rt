//! Where constructors are declared whose names are those of definitions of the library.
ghost use Rattle.std.specs.Prelude.{◌≡◌, OnOk};

use crate::detail::Detail;
use crate::findings::Findings;
use crate::note::place_of;
use std::alloc::{AllocError, Global};
use str_syntax::{Declaration, DefinitionHead, Name, Section, SignaturePart};

/// Notes each declaration of a constructor whose name is that of a definition of the library, if a clash was found: the definition
/// itself has no place in the file. `AllocError` where a growth is refused.
pub(crate) fn place_clashes(
    alloc: Global,
    sections: &[Section],
    heads: &[&DefinitionHead],
    findings: &mut Findings,
) -> Result<(), AllocError>
    ensures { OnOk result (findings.new ≡ findings.old) }
{
    if !findings.has_clash() {
        return Ok(());
    }
    let names = declared_names(alloc, sections, heads)?;
    for name in &names {
        findings.note(name, Detail::Clash);
    }
    Ok(())
}

/// The names of constructors, where they are declared, that are names of definitions of the library among the heads.
fn declared_names<'t>(
    alloc: Global,
    sections: &'t [Section],
    heads: &[&DefinitionHead],
) -> Result<Vec<&'t Name>, AllocError> {
    let mut names = Vec::new(alloc);
    for section in sections {
        if let Section::Signature(parts) = section {
            add_parts(&mut names, parts, heads)?;
        }
    }
    Ok(names)
}

/// Adds those in the parts of a signature.
fn add_parts<'t>(
    names: &mut Vec<&'t Name>,
    parts: &'t [SignaturePart],
    heads: &[&DefinitionHead],
) -> Result<(), AllocError> {
    for part in parts {
        if let SignaturePart::Constructors(all) = part {
            add_declarations(names, all, heads)?;
        }
    }
    Ok(())
}

/// Adds those among the declarations.
fn add_declarations<'t>(
    names: &mut Vec<&'t Name>,
    all: &'t [Declaration],
    heads: &[&DefinitionHead],
) -> Result<(), AllocError> {
    for one in all {
        match one {
            Declaration::Constant(name, _) | Declaration::Constructor(name, _, _) => {
                if is_of_library(heads, name) {
                    names.push(name)?;
                }
            }
            Declaration::Injection(_, _) => {}
        }
    }
    Ok(())
}

/// Whether a definition of the library has the name.
fn is_of_library(heads: &[&DefinitionHead], name: &Name) -> bool {
    heads.iter().any(|head| place_of(&head.name).is_none() && head.name.bytes() == name.bytes())
}
