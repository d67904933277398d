//! The definitions of the library, and a file with them after its own.
ghost use Rattle.std.specs.Prelude.{◌≡◌, IfOk, map};
ghost use Rattle.str_syntax.specs.declared.definition.Origin.TheVariants as origins;
ghost use Rattle.str_syntax.specs.Views.{file_of, section_of, top_of};
ghost use Rattle.strategy_lib.specs.Library as library;

use crate::forms::{
    all, alone, call_of, definition, empty_list, identity, left_choice, list_of, one, parameter,
    sequence, with_parameter,
};
use std::alloc::{AllocError, Global};
use str_syntax::{Definition, File, Section};

/// try(s) = s <+ id
fn try_definition(alloc: Global) -> Result<Definition, AllocError>
    ensures { IfOk result (λ made. top_of made ≡
        library.from origins.Library library.try_definition) }
{
    let body = left_choice(alloc, parameter(alloc)?, identity(alloc)?)?;
    definition(alloc, b"try", body)
}

/// repeat(s) = try(s; repeat(s))
fn repeat_definition(alloc: Global) -> Result<Definition, AllocError>
    ensures { IfOk result (λ made. top_of made ≡
        library.from origins.Library library.repeat_definition) }
{
    let again = sequence(alloc, parameter(alloc)?, with_parameter(alloc, b"repeat")?)?;
    let body = alone(call_of(alloc, b"try", again)?);
    definition(alloc, b"repeat", body)
}

/// topdown(s) = s; all(topdown(s))
fn topdown_definition(alloc: Global) -> Result<Definition, AllocError>
    ensures { IfOk result (λ made. top_of made ≡
        library.from origins.Library library.topdown_definition) }
{
    let below = all(alloc, with_parameter(alloc, b"topdown")?)?;
    let body = sequence(alloc, parameter(alloc)?, below)?;
    definition(alloc, b"topdown", body)
}

/// bottomup(s) = all(bottomup(s)); s
fn bottomup_definition(alloc: Global) -> Result<Definition, AllocError>
    ensures { IfOk result (λ made. top_of made ≡
        library.from origins.Library library.bottomup_definition) }
{
    let below = all(alloc, with_parameter(alloc, b"bottomup")?)?;
    let body = sequence(alloc, below, parameter(alloc)?)?;
    definition(alloc, b"bottomup", body)
}

/// oncetd(s) = s <+ one(oncetd(s))
fn oncetd_definition(alloc: Global) -> Result<Definition, AllocError>
    ensures { IfOk result (λ made. top_of made ≡
        library.from origins.Library library.oncetd_definition) }
{
    let below = one(alloc, with_parameter(alloc, b"oncetd")?)?;
    let body = left_choice(alloc, parameter(alloc)?, below)?;
    definition(alloc, b"oncetd", body)
}

/// oncebu(s) = one(oncebu(s)) <+ s
fn oncebu_definition(alloc: Global) -> Result<Definition, AllocError>
    ensures { IfOk result (λ made. top_of made ≡
        library.from origins.Library library.oncebu_definition) }
{
    let below = one(alloc, with_parameter(alloc, b"oncebu")?)?;
    let body = left_choice(alloc, below, parameter(alloc)?)?;
    definition(alloc, b"oncebu", body)
}

/// alltd(s) = s <+ all(alltd(s))
fn alltd_definition(alloc: Global) -> Result<Definition, AllocError>
    ensures { IfOk result (λ made. top_of made ≡
        library.from origins.Library library.alltd_definition) }
{
    let below = all(alloc, with_parameter(alloc, b"alltd")?)?;
    let body = left_choice(alloc, parameter(alloc)?, below)?;
    definition(alloc, b"alltd", body)
}

/// innermost(s) = bottomup(try(s; innermost(s)))
fn innermost_definition(alloc: Global) -> Result<Definition, AllocError>
    ensures { IfOk result (λ made. top_of made ≡
        library.from origins.Library library.innermost_definition) }
{
    let again = sequence(
        alloc,
        parameter(alloc)?,
        with_parameter(alloc, b"innermost")?,
    )?;
    let tried = alone(call_of(alloc, b"try", again)?);
    let body = alone(call_of(alloc, b"bottomup", tried)?);
    definition(alloc, b"innermost", body)
}

/// map(s) = [] <+ [s | map(s)]
fn map_definition(alloc: Global) -> Result<Definition, AllocError>
    ensures { IfOk result (λ made. top_of made ≡
        library.from origins.Library library.map_definition) }
{
    let elements = list_of(alloc, parameter(alloc)?, with_parameter(alloc, b"map")?)?;
    let body = left_choice(alloc, empty_list(alloc)?, elements)?;
    definition(alloc, b"map", body)
}

/// Makes the section of the library.
fn library_section(alloc: Global) -> Result<Section, AllocError>
    ensures { IfOk result (λ made. section_of made ≡ library.library_section origins.Library) }
{
    let mut all = Vec::with_capacity(alloc, 9)?;
    all.push(try_definition(alloc)?)?;
    all.push(repeat_definition(alloc)?)?;
    all.push(topdown_definition(alloc)?)?;
    all.push(bottomup_definition(alloc)?)?;
    all.push(oncetd_definition(alloc)?)?;
    all.push(oncebu_definition(alloc)?)?;
    all.push(alltd_definition(alloc)?)?;
    all.push(innermost_definition(alloc)?)?;
    all.push(map_definition(alloc)?)?;
    Ok(Section::Strategies(all))
}

/// Returns the file with one more section after its own, which has the nine definitions of the library, in their order. They are
/// marked as the library's, and no name in them stands in a file: the offset of each is 0. Nothing else of the file is looked at, so the
/// definitions are there whether or not it calls them or defines one of their keys itself. `AllocError` where the memory for the
/// definitions is refused; the file is dropped then.
///
/// The definitions are the equations that the Stratego/XT Manual gives for these names.
pub fn with_library(alloc: Global, mut file: File) -> Result<File, AllocError>
    ensures { IfOk result (λ made. file_of made ≡ library.with_library (file_of file)) }
{
    file.sections.push(library_section(alloc)?)?;
    Ok(file)
}
