//! The rules and definitions at top level.
ghost use Rattle.std.specs.Prelude.{map};
ghost use Rattle.scope_check.specs.Found.{found_in_top, found_in_tops, tops_of};
ghost use Rattle.scope_check.specs.Tables.{Adds, Finds, known_of, layers_of};
ghost use Rattle.str_syntax.specs.Views.{section_of, top_of};
ghost use Rattle.scope_check.specs.Seen.{tops_in};

use crate::findings::Findings;
use crate::known::Known;
use crate::layers::Layers;
use crate::rules::find_in_rule_definition;
use crate::walk::find_in_definition;
use std::alloc::{AllocError, Global};
use str_syntax::{Definition, DefinitionForm, Section};

/// Finds what is wrong in the rules and definitions. `AllocError` where a growth is refused.
fn find_in_tops<'t>(
    alloc: Global,
    known: &Known<'_>,
    layers: &Layers<'_, 't>,
    all: &'t [Definition],
    findings: &mut Findings,
) -> Result<(), AllocError>
    ensures { Finds result found_in_tops known.now layers.now (map top_of all.now)
        findings.old findings.new }
{
    for one in all {
        find_in_top(alloc, known, layers, one, findings)?;
    }
    Ok(())
}

/// Finds what is wrong in the rule or the definition.
fn find_in_top<'t>(
    alloc: Global,
    known: &Known<'_>,
    layers: &Layers<'_, 't>,
    one: &'t Definition,
    findings: &mut Findings,
) -> Result<(), AllocError>
    ensures { Finds result found_in_top known.now layers.now (top_of one.now)
        findings.old findings.new }
{
    match &one.form {
        DefinitionForm::Rule(r) => find_in_rule_definition(
            alloc, known, one.origin, layers, &r.head, &r.rule, findings,
        ),
        DefinitionForm::Strategy(d) => find_in_definition(
            alloc, known, one.origin, layers, d, findings,
        ),
    }
}

/// Finds what is wrong in the sections, but for what their heads are together. `AllocError` where a growth is refused.
pub(crate) fn find_in_sections<'t>(
    alloc: Global,
    known: &Known<'_>,
    layers: &Layers<'_, 't>,
    all: &'t [Section],
    findings: &mut Findings,
) -> Result<(), AllocError>
    ensures { Adds result findings.old
        (found_in_tops (known_of known.now) (layers_of layers.now)
        (tops_in (map section_of all.now)))
        findings.new }
{
    for one in all {
        find_in_section(alloc, known, layers, one, findings)?;
    }
    Ok(())
}

/// Finds what is wrong in the section.
fn find_in_section<'t>(
    alloc: Global,
    known: &Known<'_>,
    layers: &Layers<'_, 't>,
    one: &'t Section,
    findings: &mut Findings,
) -> Result<(), AllocError>
    ensures { Finds result found_in_tops known.now layers.now (tops_of (section_of one.now))
        findings.old findings.new }
{
    match one {
        Section::Signature(_) => Ok(()),
        Section::Rules(all) => find_in_tops(alloc, known, layers, all, findings),
        Section::Strategies(all) => find_in_tops(alloc, known, layers, all, findings),
    }
}
