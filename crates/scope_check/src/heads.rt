//! The heads of rules and definitions.
ghost use Rattle.std.specs.Prelude.{◌≡◌, is_some, IfOk};
ghost use Rattle.std.specs.List.{list_any};
ghost use Rattle.scope_check.specs.Complaint.{clash, clashes};
ghost use Rattle.scope_check.specs.Found.{found_at, found_if, joined};
ghost use Rattle.scope_check.specs.Seen.{among, nothing, parameter_keys};
ghost use Rattle.scope_check.specs.Somewhere.{heading};
ghost use Rattle.scope_check.specs.Tables.{Adds, known_of};
ghost use Rattle.signature_core.specs.Signature.{is_declared_name};
ghost use Rattle.str_syntax.specs.Views.{head_of};

use crate::detail::Detail;
use crate::findings::Findings;
use crate::keys::Keys;
use crate::known::Known;
use crate::library::is_own;
use crate::names::{find_repeats, keys_of_names};
use keyed_hash::HashKeys;
use signature_core::Signature;
use std::alloc::{AllocError, Global};
use str_syntax::{DefinitionHead, Name, Origin};

/// The keys of the strategy parameters. `AllocError` where a growth is refused.
pub(crate) fn parameter_keys(
    alloc: Global,
    hashing: HashKeys,
    head: &DefinitionHead,
) -> Result<Keys<'_>, AllocError>
    ensures { IfOk result (λ keys. among keys ≡ among (parameter_keys (head_of head.now))) }
{
    keys_of_names(alloc, hashing, head.parameters.strategy_names())
}

/// Finds what is wrong with the head by itself. `AllocError` where a growth is refused.
pub(crate) fn find_in_head(
    alloc: Global,
    known: &Known<'_>,
    origin: Origin,
    head: &DefinitionHead,
    findings: &mut Findings,
) -> Result<(), AllocError>
    ensures { Adds result findings.old
        (found_at (known_of known.now) (heading origin (head_of head.now))) findings.new }
{
    let strategies = head.parameters.strategy_names();
    let terms = head.parameters.term_names();
    find_repeats(alloc, known.hashing, strategies, terms, findings)?;
    find_clash(known.signature, origin, head, findings);
    Ok(())
}

/// Finds that the name or, unless it is the library's, a strategy parameter is the name of a declared constructor.
#[tactic(auto, using(crate::proofs::FoundLaws::nothing_more))]
fn find_clash(signature: &Signature, origin: Origin, head: &DefinitionHead, findings: &mut Findings)
    ensures { findings.new ≡ joined findings.old
        (found_if clash (clashes signature.now nothing (heading origin (head_of head.now)))) }
{
    if let Some(name) = clashing_name(signature, origin, head) {
        findings.note(name, Detail::Clash);
    }
}

/// The first of the name and, unless it is the library's, the strategy parameters that is the name of a declared constructor.
fn clashing_name<'t>(
    signature: &Signature,
    origin: Origin,
    head: &'t DefinitionHead,
) -> Option<&'t Name>
    ensures { is_some result ≡ clashes signature.now nothing (heading origin (head_of head.now)) }
{
    if signature.is_declared_name(head.name.bytes()) {
        return Some(&head.name);
    }
    if is_own(origin) {
        return first_declared(signature, head.parameters.strategy_names());
    }
    None
}

/// The first of the names that is the name of a declared constructor.
fn first_declared<'t>(signature: &Signature, names: &'t [Name]) -> Option<&'t Name>
    ensures { is_some result ≡ list_any (is_declared_name signature.now) names.now }
{
    for name in names {
        if signature.is_declared_name(name.bytes()) {
            return Some(name);
        }
    }
    None
}
