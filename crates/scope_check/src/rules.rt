//! Rules that stand after a head.
ghost use Rattle.scope_check.specs.Found.{found_at, found_in_rule, joined};
ghost use Rattle.scope_check.specs.Seen.{among, in_body, inner};
ghost use Rattle.scope_check.specs.Somewhere.{heading};
ghost use Rattle.scope_check.specs.Tables.{Adds, known_of, layers_of};
ghost use Rattle.str_syntax.specs.Views.{head_of, rule_of};

use crate::findings::Findings;
use crate::heads::{find_in_head, parameter_keys};
use crate::keys::Keys;
use crate::known::Known;
use crate::layers::Layers;
use crate::walk::find_in_rule;
use std::alloc::{AllocError, Global};
use str_syntax::{DefinitionHead, Origin, Rule};

/// Finds what is wrong in the rule that stands after the head. `AllocError` where a growth is refused.
pub(crate) fn find_in_rule_definition<'t>(
    alloc: Global,
    known: &Known<'_>,
    origin: Origin,
    layers: &Layers<'_, 't>,
    head: &'t DefinitionHead,
    tree: &'t Rule,
    findings: &mut Findings,
) -> Result<(), AllocError>
    ensures { Adds result findings.old
        (joined (found_at (known_of known.now) (heading origin (head_of head.now)))
        (found_in_rule (known_of known.now) (in_body (head_of head.now) (layers_of layers.now))
        (rule_of tree.now)))
        findings.new }
{
    find_in_head(alloc, known, origin, head, findings)?;
    let keys = parameter_keys(alloc, known.hashing, head)?;
    find_in_seen_rule(alloc, known, layers, &keys, tree, findings)?;
    Ok(())
}

/// Finds what is wrong in a rule that sees these keys.
fn find_in_seen_rule<'t>(
    alloc: Global,
    known: &Known<'_>,
    layers: &Layers<'_, 't>,
    keys: &Keys<'t>,
    tree: &'t Rule,
    findings: &mut Findings,
) -> Result<(), AllocError>
    ensures { Adds result findings.old
        (found_in_rule (known_of known.now) (inner (among keys.now) (layers_of layers.now))
        (rule_of tree.now))
        findings.new }
{
    let inner = Layers::Inner {
        keys: &*keys,
        outer: &*layers,
    };
    find_in_rule(alloc, known, &inner, tree, findings)
}
