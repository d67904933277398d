//! Names that must differ from one another.
ghost use Rattle.std.specs.Prelude.{◌≡◌, ◌||◌, ◌++◌, map, IfOk, OnOk};
ghost use Rattle.scope_check.specs.Complaint.{bad_parameters, repeats};
ghost use Rattle.scope_check.specs.Found.{found_if};
ghost use Rattle.scope_check.specs.Seen as spec;
ghost use Rattle.scope_check.specs.Seen.{among, plain_key, same_key};
ghost use Rattle.scope_check.specs.Tables.{repeats_after, Adds, AreWith};

use crate::detail::Detail;
use crate::findings::Findings;
use crate::keys::Keys;
use keyed_hash::HashKeys;
use std::alloc::{AllocError, Global};
use str_syntax::{DefinitionKey, Name};

/// Adds the plain keys of the names, and finds those that were there before or stand again. `AllocError` where a growth is refused.
fn add_names<'a>(
    keys: &mut Keys<'a>,
    names: &'a [Name],
    findings: &mut Findings,
) -> Result<(), AllocError>
    ensures added { OnOk result (AreWith keys.old (map plain_key names.now) keys.new) }
    ensures found { Adds result findings.old
        (found_if bad_parameters (repeats_after (among keys.old) names.now)) findings.new }
{
    for name in names {
        add_name(keys, name, findings)?;
    }
    Ok(())
}

/// Adds the plain key of the name, and finds that it was there before.
#[tactic(auto, using(crate::proofs::FoundLaws::nothing_more))]
fn add_name<'a>(
    keys: &mut Keys<'a>,
    name: &'a Name,
    findings: &mut Findings,
) -> Result<(), AllocError>
    ensures added { OnOk result ((k : spec.Key) →
        among keys.new k ≡ (among keys.old k || same_key k (plain_key name.now))) }
    ensures found { Adds result findings.old
        (found_if bad_parameters (among keys.old (plain_key name.now))) findings.new }
{
    if !keys.add(DefinitionKey::plain(name.bytes()))? {
        findings.note(name, Detail::Repeated);
    }
    Ok(())
}

/// The plain keys of the names. `AllocError` where a growth is refused.
pub(crate) fn keys_of_names(
    alloc: Global,
    hashing: HashKeys,
    names: &[Name],
) -> Result<Keys<'_>, AllocError>
    ensures { IfOk result (λ keys. among keys ≡ among (map plain_key names.now)) }
{
    let mut keys = Keys::new(alloc, hashing);
    for name in names {
        keys.add(DefinitionKey::plain(name.bytes()))?;
    }
    Ok(keys)
}

/// Finds the names that stand again after themselves, in both lists together. `AllocError` where a growth is refused.
pub(crate) fn find_repeats<'a>(
    alloc: Global,
    hashing: HashKeys,
    names: &'a [Name],
    others: &'a [Name],
    findings: &mut Findings,
) -> Result<(), AllocError>
    ensures { Adds result findings.old
        (found_if bad_parameters (repeats (names.now ++ others.now))) findings.new }
{
    let mut keys = Keys::new(alloc, hashing);
    add_names(&mut keys, names, findings)?;
    add_names(&mut keys, others, findings)?;
    Ok(())
}
