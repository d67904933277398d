//! Definitions that stand together.
ghost use Rattle.std.specs.Prelude.{◌≡◌, map, IfOk};
ghost use Rattle.scope_check.specs.Found.{found_group};
ghost use Rattle.scope_check.specs.Seen.{among, heads_in, key_of, plain_key};
ghost use Rattle.scope_check.specs.Tables.{Adds, heads_of};
ghost use Rattle.str_syntax.specs.Views.{definitions_of};

use crate::alternatives::find_in_group;
use crate::findings::Findings;
use crate::keys::Keys;
use keyed_hash::HashKeys;
use std::alloc::{AllocError, Global};
use str_syntax::{DefinitionHead, DefinitionKey, StrategyDefinition};

/// The heads of the definitions. `AllocError` where a growth is refused.
pub(crate) fn heads_of(
    alloc: Global,
    definitions: &[StrategyDefinition],
) -> Result<Vec<&DefinitionHead>, AllocError>
    ensures { IfOk result (λ heads. heads_of heads.items ≡
        heads_in (definitions_of definitions.now)) }
{
    let mut heads = Vec::with_capacity(alloc, definitions.len())?;
    for definition in definitions {
        heads.push(&definition.head)?;
    }
    Ok(heads)
}

/// The keys of the heads. `AllocError` where a growth is refused.
pub(crate) fn keys_of<'a>(
    alloc: Global,
    hashing: HashKeys,
    heads: &[&'a DefinitionHead],
) -> Result<Keys<'a>, AllocError>
    ensures { IfOk result (λ keys. among keys ≡ among (map key_of (heads_of heads.now))) }
{
    let mut keys = Keys::new(alloc, hashing);
    for head in heads {
        keys.add(head.key())?;
    }
    Ok(keys)
}

/// The keys of the definitions. `AllocError` where a growth is refused.
pub(crate) fn definition_keys(
    alloc: Global,
    hashing: HashKeys,
    definitions: &[StrategyDefinition],
) -> Result<Keys<'_>, AllocError>
    ensures { IfOk result (λ keys. among keys ≡
        among (map key_of (heads_in (definitions_of definitions.now)))) }
{
    let heads = heads_of(alloc, definitions)?;
    keys_of(alloc, hashing, &heads)
}

/// Finds what is wrong with the definitions as a group. `AllocError` where a growth is refused.
pub(crate) fn find_in_definition_group(
    alloc: Global,
    hashing: HashKeys,
    definitions: &[StrategyDefinition],
    findings: &mut Findings,
) -> Result<(), AllocError>
    ensures { Adds result findings.old
        (found_group (heads_in (definitions_of definitions.now))) findings.new }
{
    let heads = heads_of(alloc, definitions)?;
    find_in_group(alloc, hashing, &heads, findings)
}

/// Whether one of the heads has this name and no parameters.
pub(crate) fn has_plain(heads: &[&DefinitionHead], name: &[u8]) -> bool
    ensures { result ≡ among (map key_of (heads_of heads.now)) (plain_key name.now) }
{
    let plain = DefinitionKey::plain(name);
    for head in heads {
        if plain == head.key() {
            return true;
        }
    }
    false
}
