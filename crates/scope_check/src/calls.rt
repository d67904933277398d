//! What a call is.
ghost use Rattle.std.specs.Prelude.{◌≡◌, ◌||◌, not};
ghost use Rattle.scope_check.specs.Complaint.{called, is_congruence, unknown_strategy};
ghost use Rattle.scope_check.specs.Found.{found_if, joined};
ghost use Rattle.scope_check.specs.Tables.{layers_of};
ghost use Rattle.str_syntax.specs.Views.{arguments_of};

use crate::detail::Detail;
use crate::findings::Findings;
use crate::layers::{Layers, is_seen, numbers_seen};
use signature_core::Signature;
use str_syntax::{Arguments, DefinitionKey, Name};

/// Finds that the call is no congruence, and that what it calls is not seen.
#[tactic(auto, using(crate::proofs::FoundLaws::nothing_more))]
pub(crate) fn find_unknown_strategy<'t>(
    signature: &Signature,
    layers: &Layers<'_, 't>,
    name: &'t Name,
    given: &Arguments,
    findings: &mut Findings,
)
    ensures { findings.new ≡ joined findings.old (found_if unknown_strategy
        (not (is_congruence signature.now name.now (arguments_of given.now) ||
        layers_of layers.now (called name.now (arguments_of given.now))))) }
{
    if is_congruence(signature, name, given) {
        return;
    }
    let strategies = given.strategies();
    let terms = given.terms();
    if is_seen(layers, &DefinitionKey::new(name.bytes(), strategies, terms)) {
        return;
    }
    let seen = numbers_to_note(layers, name, findings);
    let detail = Detail::UnknownStrategy {
        strategies,
        terms,
        seen,
    };
    findings.note(name, detail);
}

/// The numbers with which the name is seen, if a note of an unknown strategy there would be kept.
fn numbers_to_note(
    layers: &Layers<'_, '_>,
    name: &Name,
    findings: &Findings,
) -> Option<(usize, usize)> {
    if findings.wants_unknown(name) {
        return numbers_seen(layers, name.bytes());
    }
    None
}

/// Whether the call is a congruence.
#[tactic(auto, using(str_syntax::proofs::ArityLaws::counted))]
fn is_congruence(signature: &Signature, name: &Name, given: &Arguments) -> bool
    ensures { result ≡ is_congruence signature.now name.now (arguments_of given.now) }
{
    match given {
        Arguments::Absent => false,
        Arguments::Strategies(ss) => signature.arity_known(name.bytes(), ss.len()),
        Arguments::WithTerms(_, _) => false,
    }
}
