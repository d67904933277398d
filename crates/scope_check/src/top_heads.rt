//! The heads of the rules and definitions of a file.
ghost use Rattle.std.specs.Prelude.{◌≡◌, ◌++◌, map, IfOk, OnOk};
ghost use Rattle.scope_check.specs.Found.{tops_of};
ghost use Rattle.scope_check.specs.Seen.{head_of_top, tops_in};
ghost use Rattle.scope_check.specs.Tables.{heads_of};
ghost use Rattle.str_syntax.specs.Views.{head_of, section_of, top_of};

use std::alloc::{AllocError, Global};
use str_syntax::{Definition, DefinitionForm, DefinitionHead, Section};

/// The heads of the rules and definitions in the sections, in order. `AllocError` where a growth is refused.
pub(crate) fn heads_in_sections(
    alloc: Global,
    sections: &[Section],
) -> Result<Vec<&DefinitionHead>, AllocError>
    ensures { IfOk result (λ heads. heads_of heads.items ≡
        map head_of_top (tops_in (map section_of sections.now))) }
{
    let mut heads = Vec::new(alloc);
    for section in sections {
        add_section(&mut heads, section)?;
    }
    Ok(heads)
}

/// Adds the heads of one section.
fn add_section<'t>(
    heads: &mut Vec<&'t DefinitionHead>,
    section: &'t Section,
) -> Result<(), AllocError>
    ensures { OnOk result (heads_of heads.new.items ≡ heads_of heads.old.items ++
        map head_of_top (tops_of (section_of section.now))) }
{
    match section {
        Section::Signature(_) => Ok(()),
        Section::Rules(all) => add_tops(heads, all),
        Section::Strategies(all) => add_tops(heads, all),
    }
}

/// Adds the heads of rules and definitions.
fn add_tops<'t>(
    heads: &mut Vec<&'t DefinitionHead>,
    all: &'t [Definition],
) -> Result<(), AllocError>
    ensures { OnOk result (heads_of heads.new.items ≡ heads_of heads.old.items ++
        map head_of_top (map top_of all.now)) }
{
    for one in all {
        heads.push(head_of(one))?;
    }
    Ok(())
}

/// The head of a rule or a definition.
pub(crate) fn head_of(one: &Definition) -> &DefinitionHead
    ensures { head_of result.now ≡ head_of_top (top_of one.now) }
{
    match &one.form {
        DefinitionForm::Rule(r) => &r.head,
        DefinitionForm::Strategy(d) => &d.head,
    }
}
