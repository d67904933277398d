//! The alternatives of definitions: those that are never called, never tried, or apart from the others.

use crate::line::{MOST_OF_NAME, push_cut};
use crate::warnings::{Alternative, Definitions, Warning};
use std::alloc::{AllocError, Global};
use str_syntax::{Arguments, DefinitionForm, DefinitionHead, Name, Parameters, Pattern, Rule};

/// What a call finds a definition by: its name and its numbers of strategies and of terms.
#[derive(Clone, Copy, PartialEq, Eq, PartialOrd, Ord)]
pub(crate) struct Key<'a> {
    name: &'a [u8],
    strategies: usize,
    terms: usize,
}

impl<'a> Key<'a> {
    /// The key of a definition.
    pub(crate) fn of_head(head: &'a DefinitionHead) -> Key<'a> {
        Key {
            name: head.name.bytes(),
            strategies: head.parameters.strategies(),
            terms: head.parameters.terms(),
        }
    }

    /// The key of a call.
    pub(crate) fn of_call(name: &'a Name, arguments: &Arguments) -> Key<'a> {
        Key {
            name: name.bytes(),
            strategies: arguments.strategies(),
            terms: arguments.terms(),
        }
    }
}

/// Adds the warnings about these alternatives, where definitions call these keys. No definition of a library is reported as never called,
/// since a library serves other programs, too; nor is one that may be meant to be applied; nor is any where the definitions have a fault,
/// since a call may then have a misspelled name.
pub(crate) fn add_group_warnings(
    alloc: Global,
    definitions: &Definitions<'_>,
    alternatives: &[Alternative<'_>],
    calls: &[Key<'_>],
    warnings: &mut Vec<Warning>,
) -> Result<(), AllocError> {
    let mut sorted = alternatives.to_vec(alloc)?;
    sorted.sort_by_key(|alternative| Key::of_head(alternative.head()))?;
    let mut called = calls.to_vec(alloc)?;
    called.sort()?;
    let used = sections_of_used_rules(alloc, alternatives, &called)?;
    let mut before: Option<Earlier<'_>> = None;
    for alternative in &sorted {
        let key = Key::of_head(alternative.head());
        before = match before {
            Some(earlier) if Key::of_head(earlier.alternative.head()) == key => {
                add_later(alloc, &earlier, alternative, warnings)?;
                Some(earlier.with(alternative))
            }
            _ => {
                let may_be_meant = is_needed(definitions, alternative)
                    || is_entry_point(alternative, &used);
                if !may_be_meant && called.binary_search(&key).is_err() {
                    add_uncalled(alloc, alternative, warnings)?;
                }
                Some(Earlier::first(alternative))
            }
        };
    }
    Ok(())
}

/// An alternative of a definition that comes before another one: the first that always succeeds and, if there is none, the last.
#[derive(Clone, Copy)]
struct Earlier<'a> {
    alternative: Alternative<'a>,
    always_succeeds: bool,
}

impl<'a> Earlier<'a> {
    /// It is the only one.
    fn first(alternative: &Alternative<'a>) -> Earlier<'a> {
        Earlier {
            alternative: *alternative,
            always_succeeds: always_succeeds(alternative),
        }
    }

    /// Returns the alternative to compare with those after the next one.
    fn with(self, next: &Alternative<'a>) -> Earlier<'a> {
        if self.always_succeeds {
            self
        } else {
            Earlier::first(next)
        }
    }
}

/// Whether the definition with this first alternative may be needed without a call.
fn is_needed(definitions: &Definitions<'_>, first: &Alternative<'_>) -> bool {
    let name = first.head().name.bytes();
    let is_applied = name == definitions.main || name == b"main".as_slice();
    !definitions.is_sound || is_applied || first.offset() < definitions.library
}

/// Whether the definition with this first alternative may be meant to be applied by its name: it has no parameters, and is not one of the
/// rules of a section that definitions use.
fn is_entry_point(first: &Alternative<'_>, sections_of_used_rules: &[usize]) -> bool {
    let key = Key::of_head(first.head());
    let has_parameters = key.strategies > 0 || key.terms > 0;
    !has_parameters
        && sections_of_used_rules
            .binary_search(&first.section)
            .is_err()
}

/// The numbers of the sections with a rule that has one of these keys, which are sorted; in their order.
fn sections_of_used_rules(
    alloc: Global,
    alternatives: &[Alternative<'_>],
    called: &[Key<'_>],
) -> Result<Vec<usize>, AllocError> {
    let mut sections = Vec::new(alloc);
    for alternative in alternatives {
        let DefinitionForm::Rule(rule) = alternative.form else {
            continue;
        };
        let is_noted = sections.last() == Some(&alternative.section);
        if !is_noted && (&*called).binary_search(&Key::of_head(&rule.head)).is_ok() {
            sections.push(alternative.section)?;
        }
    }
    Ok(sections)
}

/// Adds that a definition is never called.
fn add_uncalled(
    alloc: Global,
    first: &Alternative<'_>,
    warnings: &mut Vec<Warning>,
) -> Result<(), AllocError> {
    let mut text = Vec::new(alloc);
    push_cut(first.head().name.bytes(), MOST_OF_NAME, &mut text)?;
    text.extend_from_slice(b" is never called")?;
    warnings.push(Warning {
        offset: first.offset(),
        text,
        other: None,
    })?;
    Ok(())
}

/// Adds the warning about an alternative that comes after another one, if there is one.
fn add_later(
    alloc: Global,
    earlier: &Earlier<'_>,
    alternative: &Alternative<'_>,
    warnings: &mut Vec<Warning>,
) -> Result<(), AllocError> {
    let relation = if earlier.always_succeeds {
        b" is never reached: no term gets past that".as_slice()
    } else if earlier.alternative.section != alternative.section {
        b" is not in the section of that".as_slice()
    } else {
        return Ok(());
    };
    let mut text = b"this alternative of ".to_vec(alloc)?;
    push_cut(alternative.head().name.bytes(), MOST_OF_NAME, &mut text)?;
    text.extend_from_slice(relation)?;
    warnings.push(Warning {
        offset: alternative.offset(),
        text,
        other: Some(earlier.alternative.offset()),
    })?;
    Ok(())
}

/// Whether the alternative is a rule that never fails.
fn always_succeeds(alternative: &Alternative<'_>) -> bool {
    let DefinitionForm::Rule(definition) = alternative.form else {
        return false;
    };
    let terms = match &definition.head.parameters {
        Parameters::WithTerms(_, terms) => terms.as_slice(),
        Parameters::Absent | Parameters::Strategies(_) => &[],
    };
    never_fails(&definition.rule, terms)
}

/// Whether a rule with these term parameters matches each term, and can always build its right side.
fn never_fails(rule: &Rule, terms: &[Name]) -> bool {
    if rule.condition.is_some() {
        return false;
    }
    match &*rule.left {
        Pattern::Wildcard(_) => has_instance(&rule.right, None, terms),
        Pattern::Variable(name) if !is_among(terms, name) => {
            has_instance(&rule.right, Some(name), terms)
        }
        _ => false,
    }
}

fn is_among(names: &[Name], name: &Name) -> bool {
    names.iter().any(|other| other.bytes() == name.bytes())
}

/// Whether a build always has an instance where this variable and these parameters have values.
#[cycle(instances)]
fn has_instance(source: &Pattern, variable: Option<&Name>, terms: &[Name]) -> bool {
    match source {
        Pattern::Variable(name) => {
            is_among(terms, name) || variable.is_some_and(|other| other.bytes() == name.bytes())
        }
        Pattern::Integer(_) | Pattern::Quoted(_) => true,
        Pattern::Parenthesized(inner) => has_instance(inner, variable, terms),
        Pattern::Application(_, parts) | Pattern::Tuple(parts) => {
            have_instances(parts, variable, terms)
        }
        Pattern::List(elements, None) => have_instances(elements, variable, terms),
        Pattern::Annotated(part, annotations) => {
            has_instance(part, variable, terms) && have_instances(annotations, variable, terms)
        }
        _ => false,
    }
}

#[cycle(instances)]
fn have_instances(sources: &[Pattern], variable: Option<&Name>, terms: &[Name]) -> bool {
    for source in sources {
        if !has_instance(source, variable, terms) {
            return false;
        }
    }
    true
}
