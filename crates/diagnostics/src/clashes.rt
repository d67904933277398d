//! Where constructors and strategies of one name stand.

use crate::fault_places::{FaultPlace, OtherPlace, OtherThing, RefusedDefinitions};
use crate::shown::Shown;
use scope_check::Note;
use str_syntax::{Declaration, Name, Section, SignaturePart};

/// The most bytes of a name that is looked for. A longer one may be cut in the note.
const LONGEST_NAME: usize = 63;

/// Returns where a constructor is reported that has the name of the strategy at this byte: if one of them stands in a library and the other
/// after it, at the other, with the line of the first.
pub(crate) fn clash_place(
    definitions: &RefusedDefinitions<'_>,
    note: &Note,
    offset: u64,
) -> FaultPlace {
    let as_found = FaultPlace::as_found(note);
    let name = note.name();
    let found_at = usize::try_from(offset).unwrap_or(usize::MAX);
    if name.len() > LONGEST_NAME
        || declaration_from(definitions, name, found_at) == Some(found_at)
    {
        return as_found;
    }
    if found_at < definitions.library {
        let Some(declared) = declaration_from(definitions, name, definitions.library) else {
            return as_found;
        };
        let thing = OtherThing::Strategy(Shown::new(name));
        let line = definitions.line_of(found_at);
        return FaultPlace {
            offset: Some(declared as u64),
            other: Some(OtherPlace { thing, line }),
        };
    }
    match declaration_from(definitions, name, 0) {
        Some(declared) if declared < definitions.library => {
            let thing = OtherThing::Constructor(Shown::new(name));
            let line = definitions.line_of(declared);
            FaultPlace {
                offset: as_found.offset,
                other: Some(OtherPlace { thing, line }),
            }
        }
        _ => as_found,
    }
}

/// The byte of the first declaration of a constructor of this name that does not stand in front of this byte.
fn declaration_from(
    definitions: &RefusedDefinitions<'_>,
    name: &[u8],
    from: usize,
) -> Option<usize> {
    for section in &definitions.file.sections {
        let Section::Signature(parts) = section else {
            continue;
        };
        for part in parts {
            if let Some(found) = declaration_in(part, name, from) {
                return Some(found);
            }
        }
    }
    None
}

/// The same in a part of a signature.
fn declaration_in(part: &SignaturePart, name: &[u8], from: usize) -> Option<usize> {
    let SignaturePart::Constructors(declarations) = part else {
        return None;
    };
    for declaration in declarations {
        let Some(declared) = name_declared(declaration) else {
            continue;
        };
        let at = usize::try_from(declared.offset()).unwrap_or(usize::MAX);
        if at >= from && declared.bytes() == name {
            return Some(at);
        }
    }
    None
}

/// The name of the constructor that is declared, if one is.
fn name_declared(declaration: &Declaration) -> Option<&Name> {
    match declaration {
        Declaration::Constant(name, _) | Declaration::Constructor(name, _, _) => Some(name),
        Declaration::Injection(_, _) => None,
    }
}
