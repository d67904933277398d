//! Where the faults that the checks find are reported, and the other places that they are about.

use crate::clashes::clash_place;
use crate::parameter_lists::parameters_place;
use crate::pieces::position_in;
use crate::shown::Shown;
use scope_check::{Detail, Note};
use std::alloc::Global;
use std::fmt;
use str_syntax::File;

/// Definitions that the checks refuse: their text, of which the first bytes are a library, and their file.
#[derive(Clone, Copy)]
pub struct RefusedDefinitions<'a> {
    pub text: &'a [u8],
    pub library: usize,
    pub file: &'a File,
}

impl<'a> RefusedDefinitions<'a> {
    /// The line on which a byte stands, from 1.
    pub(crate) fn line_of(&self, offset: usize) -> usize {
        position_in(self.text, offset).line
    }
}

/// What stands at another place that a fault is about.
#[derive(Clone, Copy)]
pub(crate) enum OtherThing {
    /// An alternative with these parameters, where the place that is reported has others.
    Parameters { here: Shown, there: Shown },
    /// The declaration of the constructor of this name.
    Constructor(Shown),
    /// The definition of the strategy of this name, or a parameter of one.
    Strategy(Shown),
}

/// Another place that a fault is about.
#[derive(Clone, Copy)]
pub struct OtherPlace {
    pub(crate) thing: OtherThing,
    /// Its line in the text of all definitions, from 1.
    pub line: usize,
}

/// What is said in front of ` on line ` and the number.
impl fmt::Display for OtherPlace {
    fn fmt<W: fmt::Write>(&self, f: &mut fmt::Formatter<W>) -> fmt::Result {
        match &self.thing {
            OtherThing::Parameters { here, there } => write!(f, "{here} here, {there}"),
            OtherThing::Constructor(name) => write!(f, "constructor {name} is declared"),
            OtherThing::Strategy(name) => write!(f, "strategy {name} is defined"),
        }
    }
}

/// The byte at which a fault is reported, if it has a place, and another place that it is about.
#[derive(Clone, Copy)]
pub struct FaultPlace {
    pub offset: Option<u64>,
    pub other: Option<OtherPlace>,
}

impl FaultPlace {
    /// The place at which the checks found it.
    pub(crate) fn as_found(note: &Note) -> FaultPlace {
        FaultPlace {
            offset: note.offset(),
            other: None,
        }
    }
}

/// Returns where a fault is reported that the checks found in the definitions; nothing if another one is reported for it. It is reported
/// where it is to be mended: at an alternative whose parameters are not those of most, and in front of a library rather than in it. If memory
/// is refused, it is reported where it was found.
pub fn fault_place(
    alloc: Global,
    definitions: &RefusedDefinitions<'_>,
    note: &Note,
) -> Option<FaultPlace> {
    let Some(offset) = note.offset() else {
        return Some(FaultPlace::as_found(note));
    };
    match note.detail() {
        Detail::OtherParameters => match parameters_place(alloc, definitions, offset) {
            Ok(place) => place,
            Err(_) => Some(FaultPlace::as_found(note)),
        },
        Detail::Clash => Some(clash_place(definitions, note, offset)),
        _ => Some(FaultPlace::as_found(note)),
    }
}
