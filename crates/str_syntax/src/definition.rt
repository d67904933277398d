//! The trees of files.
ghost use Rattle.std.specs.Prelude.{◌≡◌, IfOk, map};
ghost use Rattle.str_syntax.specs.Views.{file_of, form_of, rule_definition_of, section_of, signature_of, top_of};

use crate::sort::SignaturePart;
use crate::strategy::{DefinitionHead, Rule, StrategyDefinition};
use std::alloc::{AllocError, Global};

/// A definition file: its sections, in order.
#[derive(Drop)]
pub struct File {
    pub sections: Vec<Section>,
}

/// A section of a definition file.
#[derive(Drop)]
pub enum Section {
    /// `signature ..`
    Signature(Vec<SignaturePart>),
    /// `rules ..`
    Rules(Vec<Definition>),
    /// `strategies ..`
    Strategies(Vec<Definition>),
}

/// Where a definition comes from.
#[derive(Clone, Copy, Debug, PartialEq, Eq)]
pub enum Origin {
    /// The file.
    File,
    /// The library.
    Library,
}

/// A rule or a strategy definition, and where it comes from.
#[derive(Drop)]
pub struct Definition {
    pub origin: Origin,
    pub form: DefinitionForm,
}

/// What a definition of a section is. Rules and strategy definitions may stand in both kinds of section.
#[derive(Drop)]
pub enum DefinitionForm {
    /// `r(..) : p -> p where s`
    Rule(RuleDefinition),
    /// `f(..) = s`
    Strategy(StrategyDefinition),
}

/// `r(..) : p -> p where s`
#[derive(Drop)]
pub struct RuleDefinition {
    pub head: DefinitionHead,
    pub rule: Rule,
}

impl RuleDefinition {
    /// Copies the definition. `AllocError` where the memory for it is refused.
    pub fn copy(&self, alloc: Global) -> Result<RuleDefinition, AllocError>
        ensures { IfOk result (λ made. rule_definition_of made ≡ rule_definition_of self.now) }
    {
        Ok(RuleDefinition {
            head: self.head.copy(alloc)?,
            rule: self.rule.copy(alloc)?,
        })
    }
}

impl DefinitionForm {
    /// Copies the definition. `AllocError` where the memory for it is refused.
    pub fn copy(&self, alloc: Global) -> Result<DefinitionForm, AllocError>
        ensures { IfOk result (λ made. form_of made ≡ form_of self.now) }
    {
        match self {
            DefinitionForm::Rule(rule) => Ok(DefinitionForm::Rule(rule.copy(alloc)?)),
            DefinitionForm::Strategy(definition) => {
                Ok(DefinitionForm::Strategy(definition.copy(alloc)?))
            }
        }
    }
}

impl Definition {
    /// Copies the definition. `AllocError` where the memory for it is refused.
    pub fn copy(&self, alloc: Global) -> Result<Definition, AllocError>
        ensures { IfOk result (λ made. top_of made ≡ top_of self.now) }
    {
        Ok(Definition {
            origin: self.origin,
            form: self.form.copy(alloc)?,
        })
    }
}

impl Section {
    /// Copies the section. `AllocError` where the memory for it is refused.
    pub fn copy(&self, alloc: Global) -> Result<Section, AllocError>
        ensures { IfOk result (λ made. section_of made ≡ section_of self.now) }
    {
        match self {
            Section::Signature(parts) => Ok(Section::Signature(signature_parts(alloc, parts)?)),
            Section::Rules(all) => Ok(Section::Rules(definitions(alloc, all)?)),
            Section::Strategies(all) => Ok(Section::Strategies(definitions(alloc, all)?)),
        }
    }
}

impl File {
    /// Copies the file. `AllocError` where the memory for it is refused.
    pub fn copy(&self, alloc: Global) -> Result<File, AllocError>
        ensures { IfOk result (λ made. file_of made ≡ file_of self.now) }
    {
        Ok(File {
            sections: sections(alloc, &self.sections)?,
        })
    }
}

fn signature_parts(
    alloc: Global,
    source: &[SignaturePart],
) -> Result<Vec<SignaturePart>, AllocError>
    ensures { IfOk result (λ made. map signature_of made.items ≡ map signature_of source.now) }
{
    let mut made = Vec::with_capacity(alloc, source.len())?;
    for part in source {
        made.push(part.copy(alloc)?)?;
    }
    Ok(made)
}

fn definitions(alloc: Global, source: &[Definition]) -> Result<Vec<Definition>, AllocError>
    ensures { IfOk result (λ made. map top_of made.items ≡ map top_of source.now) }
{
    let mut made = Vec::with_capacity(alloc, source.len())?;
    for definition in source {
        made.push(definition.copy(alloc)?)?;
    }
    Ok(made)
}

fn sections(alloc: Global, source: &[Section]) -> Result<Vec<Section>, AllocError>
    ensures { IfOk result (λ made. map section_of made.items ≡ map section_of source.now) }
{
    let mut made = Vec::with_capacity(alloc, source.len())?;
    for section in source {
        made.push(section.copy(alloc)?)?;
    }
    Ok(made)
}
