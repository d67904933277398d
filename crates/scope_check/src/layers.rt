//! What is seen at a place, in layers.
ghost use Rattle.std.specs.Prelude.{◌≡◌};
ghost use Rattle.scope_check.specs.Tables.{layers_of};

use crate::keys::Keys;
use str_syntax::{DefinitionKey, Name};

/// What is seen at a place, innermost first. The names stand in trees, and the layers on the stack.
#[derive(Clone, Copy)]
pub(crate) enum Layers<'a, 't> {
    /// Nothing.
    Outermost,
    /// The keys of definitions that stand together, or of the strategy parameters of a definition.
    Inner {
        keys: &'a Keys<'t>,
        outer: &'a Layers<'a, 't>,
    },
    /// The name of a `rec`.
    Recursive {
        name: &'t Name,
        outer: &'a Layers<'a, 't>,
    },
}

/// Whether the key is seen.
pub(crate) fn is_seen<'t>(layers: &Layers<'_, 't>, key: &DefinitionKey<'t>) -> bool
    ensures { result ≡ layers_of layers.now key.now }
{
    match layers {
        Layers::Outermost => false,
        Layers::Inner { keys, outer } => keys.has(&*key) || is_seen(outer, &*key),
        Layers::Recursive { name, outer } => {
            *key == DefinitionKey::plain(name.bytes()) || is_seen(outer, &*key)
        }
    }
}

/// The numbers of strategies and of terms with which the name is seen, innermost first.
pub(crate) fn numbers_seen(layers: &Layers<'_, '_>, name: &[u8]) -> Option<(usize, usize)> {
    match layers {
        Layers::Outermost => None,
        Layers::Inner { keys, outer } => {
            let here = keys.numbers_of(name);
            if here.is_some() {
                return here;
            }
            numbers_seen(outer, name)
        }
        Layers::Recursive { name: own, outer } => {
            if own.bytes() == name {
                return Some((0, 0));
            }
            numbers_seen(outer, name)
        }
    }
}
