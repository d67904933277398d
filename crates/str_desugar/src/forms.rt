//! The rules and definitions of a file, in the order of the text.
ghost use Rattle.std.specs.Prelude.{◌≡◌, ℕ, Bool, ◌++◌, IfOk, OnOk, map};
ghost use Rattle.scope_check.specs.Seen.{head_of_form};
ghost use Rattle.str_syntax.specs.Trees.{Bytes};
ghost use Rattle.str_syntax.specs.Views.{file_of, form_of, head_of, section_of, top_of};
ghost use Rattle.str_desugar.specs.Equations.{forms_among, forms_of_section};
ghost use Rattle.str_desugar.specs.Forms.{read_forms, tops_at};
ghost use Rattle.str_desugar.specs.Groups.{head_in};

use crate::alternatives::Groups;
use keyed_hash::HashKeys;
use std::alloc::{AllocError, Global};
use str_syntax::{Definition, DefinitionForm, DefinitionHead, File, Section};

/// Lists the rules and definitions of all sections. `AllocError` where a growth is refused.
pub(crate) fn forms_in(alloc: Global, file: &File) -> Result<Vec<&DefinitionForm>, AllocError>
    ensures { IfOk result (λ forms. read_forms forms.items ≡
        forms_among (file_of file.now).sections) }
{
    let mut forms = Vec::new(alloc);
    for section in &file.sections {
        add_section(&mut forms, section)?;
    }
    Ok(forms)
}

/// Adds the rules and definitions of one section.
fn add_section<'a>(
    forms: &mut Vec<&'a DefinitionForm>,
    section: &'a Section,
) -> Result<(), AllocError>
    ensures { OnOk result (read_forms forms.new.items ≡ read_forms forms.old.items ++
        forms_of_section (section_of section.now)) }
{
    match section {
        Section::Signature(_) => Ok(()),
        Section::Rules(all) => add_forms(forms, all),
        Section::Strategies(all) => add_forms(forms, all),
    }
}

/// Adds what the definitions of a section are.
fn add_forms<'a>(
    forms: &mut Vec<&'a DefinitionForm>,
    all: &'a [Definition],
) -> Result<(), AllocError>
    ensures { OnOk result (read_forms forms.new.items ≡ read_forms forms.old.items ++
        map (λ top. top.form) (map top_of all.now)) }
{
    for one in all {
        forms.push(&one.form)?;
    }
    Ok(())
}

/// Returns the head of a rule or a definition.
pub(crate) fn head_of(form: &DefinitionForm) -> &DefinitionHead
    ensures { head_of result.now ≡ head_of_form (form_of form.now) }
{
    match form {
        DefinitionForm::Rule(rule) => &rule.head,
        DefinitionForm::Strategy(definition) => &definition.head,
    }
}

/// Groups the rules and definitions, one group for each definition of the program. `AllocError` where a growth is refused.
pub(crate) fn groups_of<'a>(
    alloc: Global,
    hashing: HashKeys,
    forms: &[&'a DefinitionForm],
) -> Result<Groups<'a>, AllocError>
    ensures { IfOk result (λ groups. (declared : Bytes → ℕ → Bool) →
        groups ≡ map head_in (tops_at declared (read_forms forms.now))) }
{
    let mut heads = Vec::with_capacity(alloc, forms.len())?;
    for form in forms {
        heads.push(head_of(form))?;
    }
    let groups = Groups::new(alloc, hashing, heads)?;
    Ok(groups)
}
