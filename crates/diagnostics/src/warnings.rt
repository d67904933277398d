//! Warnings about definitions in which nothing is wrong: what is certain to fail, to be skipped or not to be called.

use crate::explanation::Remark;
use crate::groups::add_group_warnings;
use crate::line::push_number;
use crate::listing::head_of;
use crate::pieces::position_in;
use crate::unbound::Walk;
use scope_check::Checked;
use signature_core::Signature;
use std::alloc::{AllocError, Global};
use str_syntax::{Definition, DefinitionForm, DefinitionHead, File, Origin, Section};

/// The most warnings that are shown.
const MOST_TOLD: usize = 100;

/// A warning: the byte of the definitions that it is about, what it says, and the byte of another place whose line ends it.
#[derive(Drop)]
pub(crate) struct Warning {
    pub(crate) offset: usize,
    pub(crate) text: Vec<u8>,
    pub(crate) other: Option<usize>,
}

/// A rule or definition at the top of a file.
#[derive(Clone, Copy)]
pub(crate) struct Alternative<'a> {
    pub(crate) form: &'a DefinitionForm,
    /// The number of its section.
    pub(crate) section: usize,
}

impl<'a> Alternative<'a> {
    pub(crate) fn head(self) -> &'a DefinitionHead {
        head_of(self.form)
    }

    /// The byte of the definitions at which its name begins.
    pub(crate) fn offset(self) -> usize {
        usize::try_from(self.head().name.offset()).unwrap_or(usize::MAX)
    }
}

/// The definitions that warnings are about: their text, of which the first bytes are a library, their file with its signature, the name of
/// the definition that is applied, and whether nothing is wrong in them.
#[derive(Clone, Copy)]
pub struct Definitions<'a> {
    pub text: &'a [u8],
    pub library: usize,
    pub file: &'a File,
    pub signature: &'a Signature,
    pub main: &'a [u8],
    pub is_sound: bool,
}

impl<'a> Definitions<'a> {
    /// Definitions of this text in which nothing is wrong. Its first bytes, as many as `library` says, are a library.
    pub fn of_checked(text: &'a [u8], library: usize, checked: &'a Checked) -> Definitions<'a> {
        Definitions {
            text,
            library,
            file: checked.file(),
            signature: checked.signature(),
            main: checked.main(),
            is_sound: true,
        }
    }
}

/// Adds the warnings about the definitions as remarks: the first hundred, in the order of the text but those about a library last, and how
/// many there are if that is more. An error is a refused growth; some of the remarks may have been added.
pub fn add_warnings(
    alloc: Global,
    definitions: &Definitions<'_>,
    remarks: &mut Vec<Remark>,
) -> Result<(), AllocError> {
    let alternatives = alternatives_of(alloc, definitions.file)?;
    let (calls, mut warnings) = walk_along(alloc, definitions, &alternatives)?.into_parts();
    add_group_warnings(alloc, definitions, &alternatives, &calls, &mut warnings)?;
    tell(alloc, definitions, &warnings, remarks)
}

/// Adds the warnings about variables as remarks, as `add_warnings` does: about those that nothing binds, so that what needs them always
/// fails, and those that have the name of a constructor. They are about what is certainly not as it was meant. An error is a refused
/// growth; some of the remarks may have been added.
pub fn add_variable_warnings(
    alloc: Global,
    definitions: &Definitions<'_>,
    remarks: &mut Vec<Remark>,
) -> Result<(), AllocError> {
    let alternatives = alternatives_of(alloc, definitions.file)?;
    let (_, warnings) = walk_along(alloc, definitions, &alternatives)?.into_parts();
    tell(alloc, definitions, &warnings, remarks)
}

/// Walks through these alternatives.
fn walk_along<'a>(
    alloc: Global,
    definitions: &Definitions<'a>,
    alternatives: &[Alternative<'a>],
) -> Result<Walk<'a>, AllocError> {
    let mut walk = Walk::new(alloc, definitions.signature);
    for alternative in alternatives {
        walk.look_at(alternative.form)?;
    }
    Ok(walk)
}

/// Adds the first hundred warnings as remarks, in the order of the text but those about a library last, and how many there are if that is
/// more.
fn tell(
    alloc: Global,
    definitions: &Definitions<'_>,
    warnings: &[Warning],
    remarks: &mut Vec<Remark>,
) -> Result<(), AllocError> {
    let (text, library) = (definitions.text, definitions.library);
    let mut order = Vec::new(alloc);
    for warning in warnings {
        order.push(warning)?;
    }
    order.sort_by_key(|warning| (warning.offset < library, warning.offset))?;
    for warning in order.iter().take(MOST_TOLD) {
        remarks.push(Remark {
            position: Some(position_in(text, warning.offset)),
            text: text_of(alloc, warning)?,
            on_line: warning.other.map(|other| position_in(text, other).line),
        })?;
    }
    add_count(alloc, warnings.len(), b" warnings", remarks)
}

/// What is shown of a warning.
fn text_of(alloc: Global, warning: &Warning) -> Result<Vec<u8>, AllocError> {
    let mut line = b"warning: ".to_vec(alloc)?;
    line.extend_from_slice(&warning.text)?;
    Ok(line)
}

/// Adds how many of these things there are, if only the first hundred are shown. An error is a refused growth; nothing is added then.
pub fn add_count(
    alloc: Global,
    count: usize,
    things: &[u8],
    remarks: &mut Vec<Remark>,
) -> Result<(), AllocError> {
    if count <= MOST_TOLD {
        return Ok(());
    }
    let mut text = b"these are the first 100 of ".to_vec(alloc)?;
    push_number(count as u64, &mut text)?;
    text.extend_from_slice(things)?;
    remarks.push(Remark {
        position: None,
        text,
        on_line: None,
    })?;
    Ok(())
}

/// The rules and definitions of the file, without those of the library, in the order of the text.
pub(crate) fn alternatives_of(
    alloc: Global,
    file: &File,
) -> Result<Vec<Alternative<'_>>, AllocError> {
    let mut found = Vec::new(alloc);
    for (number, section) in file.sections.iter().enumerate() {
        match section {
            Section::Signature(_) => {}
            Section::Rules(definitions) => add_alternatives(definitions, number, &mut found)?,
            Section::Strategies(definitions) => add_alternatives(definitions, number, &mut found)?,
        }
    }
    Ok(found)
}

fn add_alternatives<'a>(
    definitions: &'a [Definition],
    section: usize,
    found: &mut Vec<Alternative<'a>>,
) -> Result<(), AllocError> {
    for definition in definitions {
        if definition.origin == Origin::File {
            found.push(Alternative {
                form: &definition.form,
                section,
            })?;
        }
    }
    Ok(())
}
