//! Symbols whose bytes stand elsewhere: a symbol is looked up by them before it is made.
ghost use Rattle.std.specs.Prelude.{◌≡◌};
ghost use Rattle.term_model.specs.Same.{same_symbol};
ghost use Rattle.term_model.specs.SymbolKinds.{symbol_spelled, IsSpelling};

use indexmap::Equivalent;
use std::hash::{Hash, Hasher};
use std::marker::Model;
use term_model::{Kind, Sym};

/// The kind and the bytes of a symbol.
#[derive(Drop)]
pub(crate) struct Spelled<'a> {
    kind: Kind,
    bytes: &'a [u8],
}

impl<'a> Model for Spelled<'a> {
    ghost use Rattle.term_model.specs.Symbol.{Symbol};
    ghost use Rattle.term_model.specs.SymbolKinds.{symbol_spelled, IsSpelling};

    ghost Value = { Symbol };

    ghost view = { λ s. symbol_spelled s.kind s.bytes.now };

    ghost invariant = { λ s. IsSpelling s.kind s.bytes.now };
}

impl<'a> Spelled<'a> {
    pub(crate) fn new(kind: Kind, bytes: &'a [u8]) -> Spelled<'a>
        requires { IsSpelling kind bytes.now }
        ensures { result ≡ symbol_spelled kind bytes.now }
    {
        Spelled { kind, bytes }
    }

    #[tactic(auto, using(crate::proofs::SpellingLaws::spelled))]
    fn is(&self, kind: Kind, bytes: &[u8]) -> bool
        requires { IsSpelling kind bytes.now }
        ensures { result ≡ same_symbol self.now (symbol_spelled kind bytes.now) }
    {
        self.kind == kind && self.bytes == bytes
    }
}

impl<'a> PartialEq for Spelled<'a> {
    ghost use Rattle.term_model.specs.Same.{same_symbol, same_symbol_partial_equiv};

    ghost eq = { same_symbol };

    ghost laws = { same_symbol_partial_equiv };

    fn eq(&self, other: &Spelled<'a>) -> bool {
        self.is(other.kind, other.bytes)
    }
}

impl<'a> Eq for Spelled<'a> {
    ghost use Rattle.term_model.specs.Same.{same_symbol_equiv};

    ghost laws = { same_symbol_equiv };
}

/// Hashes as the symbol does.
impl<'a> Hash for Spelled<'a> {
    ghost use Rattle.term_model.specs.Hashing.{symbol_writes, symbol_writes-same};

    ghost hash_input = { symbol_writes };

    ghost respects_eq = { symbol_writes-same };

    #[tactic(auto, using(crate::proofs::SpellingLaws::spelled))]
    fn hash<H: Hasher>(&self, state: &mut H) {
        state.write(self.bytes);
    }
}

impl<'a> Equivalent<Sym> for &Spelled<'a> {
    ghost use Rattle.term_model.specs.Same.{same_symbol, same_symbol_equiv};
    ghost use Rattle.term_model.specs.Hashing.{symbol_writes-same};

    ghost equivalent = { λ q. same_symbol q.now };

    ghost respects_hash = { λ q. symbol_writes-same q.now };

    ghost respects_eq = { λ q. same_symbol_equiv.congr q.now };

    #[tactic(auto, using(crate::proofs::SpellingLaws::spelled))]
    fn equivalent(&self, key: &Sym) -> bool {
        self.is(key.kind(), key.bytes())
    }
}
