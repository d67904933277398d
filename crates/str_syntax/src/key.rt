//! Keys: what a call refers to a definition by.
ghost use Rattle.std.specs.Prelude.{◌≡◌};
ghost use Rattle.str_syntax.specs.Key.{key_of, plain_key};
ghost use Rattle.str_syntax.specs.Views.{head_of};

use crate::strategy::DefinitionHead;
use std::hash::{Hash, Hasher};
use std::marker::Model;

/// The name of a definition with its numbers of strategy and term parameters, or that of a call with its numbers of arguments.
/// The name is borrowed from a tree.
#[derive(Drop)]
pub struct DefinitionKey<'a> {
    name: &'a [u8],
    strategies: usize,
    terms: usize,
}

impl<'a> Model for DefinitionKey<'a> {
    ghost use Rattle.str_syntax.specs.Key.{Key};

    ghost Value = { Key };

    ghost view = { λ k. record { name = k.name.now; strategies = k.strategies; terms = k.terms } };
}

impl<'a> DefinitionKey<'a> {
    /// Returns the key of this name and these numbers.
    pub fn new(name: &'a [u8], strategies: usize, terms: usize) -> DefinitionKey<'a>
        ensures { result ≡ record { name = name.now; strategies = strategies; terms = terms } }
    {
        DefinitionKey {
            name,
            strategies,
            terms,
        }
    }

    /// Returns the key of a strategy parameter or of a `rec` of this name.
    pub fn plain(name: &'a [u8]) -> DefinitionKey<'a>
        ensures { result ≡ plain_key name.now }
    {
        DefinitionKey::new(name, 0, 0)
    }

    /// Returns the bytes of the name.
    pub fn name(&self) -> &'a [u8]
        ensures { result.now ≡ self.now.name }
    {
        self.name
    }

    /// Returns the number of strategies.
    pub fn strategies(&self) -> usize
        ensures { result ≡ self.now.strategies }
    {
        self.strategies
    }

    /// Returns the number of terms.
    pub fn terms(&self) -> usize
        ensures { result ≡ self.now.terms }
    {
        self.terms
    }
}

impl DefinitionHead {
    /// Returns the key of the rule or the definition.
    pub fn key(&self) -> DefinitionKey<'_>
        ensures { result ≡ key_of (head_of self.now) }
    {
        let strategies = self.parameters.strategies();
        let terms = self.parameters.terms();
        DefinitionKey::new(self.name.bytes(), strategies, terms)
    }
}

impl<'a> PartialEq for DefinitionKey<'a> {
    ghost use Rattle.str_syntax.specs.Key.{same_key};
    ghost use Rattle.str_syntax.specs.SameKey.{same_key_partial_equiv};

    ghost eq = { same_key };

    ghost laws = { same_key_partial_equiv };

    fn eq(&self, other: &DefinitionKey<'a>) -> bool {
        self.name == other.name
            && (self.strategies == other.strategies && self.terms == other.terms)
    }
}

impl<'a> Eq for DefinitionKey<'a> {
    ghost use Rattle.str_syntax.specs.SameKey.{same_key_equiv};

    ghost laws = { same_key_equiv };
}

impl<'a> Hash for DefinitionKey<'a> {
    ghost use Rattle.str_syntax.specs.SameKey.{key_writes, key_writes-same};

    ghost hash_input = { key_writes };

    ghost respects_eq = { key_writes-same };

    fn hash<H: Hasher>(&self, state: &mut H) {
        self.name.hash(state);
        self.strategies.hash(state);
        self.terms.hash(state);
    }
}
