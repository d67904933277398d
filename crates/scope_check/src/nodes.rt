//! What is wrong with one node.
ghost use Rattle.std.specs.Prelude.{◌≡◌, not};
ghost use Rattle.scope_check.specs.Complaint.{clash, is_built, not_buildable, undeclared, unknown_primitive};
ghost use Rattle.scope_check.specs.Found.{found_if, joined};
ghost use Rattle.scope_check.specs.Primitives.{holds};
ghost use Rattle.signature_core.specs.Signature.{arity_known, is_declared_name};

use crate::detail::Detail;
use crate::findings::Findings;
use crate::known::Known;
use crate::side::Side;
use signature_core::Signature;
use str_syntax::{Name, Text};

/// Finds that the constructor is not declared with this number of parts.
#[tactic(auto, using(crate::proofs::FoundLaws::nothing_more))]
pub(crate) fn find_undeclared(
    signature: &Signature,
    name: &Name,
    parts: usize,
    findings: &mut Findings,
)
    ensures { findings.new ≡ joined findings.old
        (found_if undeclared (not (arity_known signature.now name.now parts))) }
{
    if signature.arity_known(name.bytes(), parts) {
        return;
    }
    let declared = signature.first_arity(name.bytes());
    findings.note(name, Detail::Undeclared { parts, declared });
}

/// Finds that the name of a strategy is that of a declared constructor.
#[tactic(auto, using(crate::proofs::FoundLaws::nothing_more))]
pub(crate) fn find_clash(signature: &Signature, name: &Name, findings: &mut Findings)
    ensures { findings.new ≡ joined findings.old
        (found_if clash (is_declared_name signature.now name.now)) }
{
    if signature.is_declared_name(name.bytes()) {
        findings.note(name, Detail::Clash);
    }
}

/// Finds that a wildcard that stands at the offset is built.
#[tactic(auto, using(crate::proofs::FoundLaws::nothing_more))]
pub(crate) fn find_built_wildcard(side: Side, offset: u64, findings: &mut Findings)
    ensures { findings.new ≡ joined findings.old (found_if not_buildable (is_built side)) }
{
    if side.is_built() {
        findings.note_wildcard(offset);
    }
}

/// Finds that a pattern with `@` after the name is built.
#[tactic(auto, using(crate::proofs::FoundLaws::nothing_more))]
pub(crate) fn find_built_alias(side: Side, name: &Name, findings: &mut Findings)
    ensures { findings.new ≡ joined findings.old (found_if not_buildable (is_built side)) }
{
    if side.is_built() {
        findings.note(name, Detail::BuiltAlias);
    }
}

/// Finds that there is no primitive of this name with this number of terms.
#[tactic(auto, using(crate::proofs::FoundLaws::nothing_more))]
pub(crate) fn find_unknown_primitive(
    known: &Known<'_>,
    name: &Text,
    terms: usize,
    findings: &mut Findings,
)
    ensures { findings.new ≡ joined findings.old
        (found_if unknown_primitive (not (holds known.now.primitives.now name.now terms))) }
{
    if !known.has_primitive(name.bytes(), terms) {
        findings.note_anywhere(name.bytes(), Detail::UnknownPrimitive { terms });
    }
}
