//! Symbols: plain names, quoted bytes, and the empty symbol of tuples.
ghost use Rattle.std.specs.Prelude.{true, false, ◌≡◌, ◌↔◌, IsTrue, IfOk, MatchOption};
ghost use Rattle.std.specs.List.{list_all};
ghost use Rattle.term_model.specs.Symbol.{Plain, Quoted, Tuple, bytes_of, is_name, begins_name, continues_name, IsSymbol};
ghost use Rattle.term_model.specs.SymbolKinds.{kind_of, symbol_spelled, IsSpelling};
ghost use Rattle.term_model.specs.Results.{Returns};

use crate::short_text::ShortText;
use std::alloc::{AllocError, Global};
use std::fmt;
use std::hash::{Hash, Hasher};
use std::marker::Model;
use std::rc::RcSlice;

/// Which kind of symbol it is.
#[derive(Clone, Copy, Debug, PartialEq, Eq)]
pub enum Kind {
    /// A plain name.
    Plain,
    /// A quoted text of any bytes.
    Quoted,
    /// The empty symbol of tuples.
    Tuple,
}

/// Where the bytes of a symbol are: short ones stand in place, others are shared.
#[derive(Drop)]
enum Spelling {
    ShortPlain(ShortText),
    Plain(RcSlice<u8>),
    ShortQuoted(ShortText),
    Quoted(RcSlice<u8>),
    Tuple,
}

/// A symbol. Its bytes are shared among its clones, or, where they are few, copied with it. Symbols
/// of different kinds are different, whatever their bytes. `clone` takes no memory: it returns
/// `AllocError` only where 2^64 - 1 owners exist.
#[derive(Drop)]
pub struct Sym {
    spelling: Spelling,
}

impl Model for Sym {
    ghost use Rattle.term_model.specs.Symbol.{Symbol, IsSymbol};

    ghost Value = { Symbol };

    ghost use Rattle.term_model.specs.Spelling.{symbol_of};

    ghost view = { λ s. symbol_of s.spelling };

    ghost invariant = { λ s. IsSymbol (symbol_of s.spelling) };
}

/// Whether a name may begin with this byte: a letter A to Z or a to z, or `_`.
pub fn begins(byte: u8) -> bool
    ensures { result ≡ begins_name byte }
{
    byte.is_ascii_alphabetic() || byte == b'_'
}

/// Whether a name may go on with this byte: a letter, a digit, or one of `_`, `-`, `+`, `*`, `$`.
pub fn continues(byte: u8) -> bool
    ensures { result ≡ continues_name byte }
{
    byte.is_ascii_alphanumeric() || matches!(byte, b'_' | b'-' | b'+' | b'*' | b'$')
}

/// Whether the bytes are a plain name.
fn is_plain(bytes: &[u8]) -> bool
    ensures { result ≡ is_name bytes.now }
{
    match bytes.split_first() {
        None => false,
        Some((first, others)) => begins(*first) && all_continue(others),
    }
}

/// Whether a name may go on with these bytes.
fn all_continue(bytes: &[u8]) -> bool
    ensures { result ≡ list_all continues_name bytes.now }
{
    bytes.iter().all(|byte| continues(*byte))
}

impl Sym {
    /// The plain symbol of this name, or `None` where the bytes are no name: a name is a letter or
    /// `_`, then letters, digits and `_`, `-`, `+`, `*`, `$`. Copies the bytes; `AllocError` where
    /// there is no memory for them.
    pub fn plain(alloc: Global, bytes: &[u8]) -> Result<Option<Sym>, AllocError>
        ensures { IfOk result (λ found. MatchOption found (is_name bytes.now ≡ false)
            (λ s. (is_name bytes.now ≡ true) × (s ≡ Plain bytes.now))) }
    {
        if !is_plain(bytes) {
            return Ok(None);
        }
        let symbol = Sym::named(alloc, bytes)?;
        Ok(Some(symbol))
    }

    /// The plain symbol of bytes that are known to be a name, which are not scanned again. Copies
    /// the bytes; `AllocError` where there is no memory for them.
    pub fn named(alloc: Global, bytes: &[u8]) -> Result<Sym, AllocError>
        requires { is_name bytes.now ≡ true }
        ensures { Returns result (Plain bytes.now) }
    {
        let spelling = match ShortText::new(bytes) {
            Some(text) => Spelling::ShortPlain(text),
            None => Spelling::Plain(RcSlice::from_slice(alloc, bytes)?),
        };
        Ok(Sym { spelling })
    }

    /// The quoted symbol of these bytes, which stand for themselves, with no escapes. Copies the
    /// bytes; `AllocError` where there is no memory for them.
    pub fn quoted(alloc: Global, bytes: &[u8]) -> Result<Sym, AllocError>
        ensures { Returns result (Quoted bytes.now) }
    {
        if let Some(text) = ShortText::new(bytes) {
            return Ok(Sym {
                spelling: Spelling::ShortQuoted(text),
            });
        }
        let text = RcSlice::from_slice(alloc, bytes)?;
        Ok(Sym {
            spelling: Spelling::Quoted(text),
        })
    }

    /// The empty symbol of tuples.
    pub fn tuple() -> Sym
        ensures { result ≡ Tuple }
    {
        Sym {
            spelling: Spelling::Tuple,
        }
    }

    /// The symbol of this kind and these bytes: a plain name, a quoted text without escapes, or,
    /// with no bytes, the symbol of tuples. Copies the bytes; `AllocError` where there is no memory
    /// for them.
    pub fn of_spelling(alloc: Global, kind: Kind, bytes: &[u8]) -> Result<Sym, AllocError>
        requires { IsSpelling kind bytes.now }
        ensures { Returns result (symbol_spelled kind bytes.now) }
    {
        match kind {
            Kind::Plain => Sym::named(alloc, bytes),
            Kind::Quoted => Sym::quoted(alloc, bytes),
            Kind::Tuple => Ok(Sym::tuple()),
        }
    }

    /// Which kind of symbol it is.
    pub fn kind(&self) -> Kind
        ensures kind { result ≡ kind_of self.now }
        ensures symbol { IsSymbol self.now }
    {
        match &self.spelling {
            Spelling::ShortPlain(_) | Spelling::Plain(_) => Kind::Plain,
            Spelling::ShortQuoted(_) | Spelling::Quoted(_) => Kind::Quoted,
            Spelling::Tuple => Kind::Tuple,
        }
    }

    /// The bytes of the name or of the quoted text, without escapes; none for the symbol of tuples.
    pub fn bytes(&self) -> &[u8]
        ensures { result.now ≡ bytes_of self.now }
    {
        match &self.spelling {
            Spelling::ShortPlain(text) | Spelling::ShortQuoted(text) => text.as_slice(),
            Spelling::Plain(text) | Spelling::Quoted(text) => text.as_slice(),
            Spelling::Tuple => &[],
        }
    }
}

impl Clone for Sym {
    ghost is_clone = { λ s copy. copy ≡ s };

    fn clone(&self) -> Result<Sym, AllocError> {
        let spelling = match &self.spelling {
            Spelling::ShortPlain(text) => Spelling::ShortPlain(text.copy()),
            Spelling::Plain(text) => Spelling::Plain(text.clone()?),
            Spelling::ShortQuoted(text) => Spelling::ShortQuoted(text.copy()),
            Spelling::Quoted(text) => Spelling::Quoted(text.clone()?),
            Spelling::Tuple => Spelling::Tuple,
        };
        Ok(Sym { spelling })
    }
}

impl PartialEq for Sym {
    ghost use Rattle.term_model.specs.Same.{same_symbol, same_symbol_partial_equiv};

    ghost eq = { same_symbol };

    #[tactic(auto, using(crate::proofs::EqualityLemmas::equal))]
    fn eq(&self, other: &Sym) -> bool
        ensures same { result ≡ same_symbol self.now other.now }
        ensures equal { IsTrue result ↔ (self.now ≡ other.now) }
    {
        self.kind() == other.kind() && self.bytes() == other.bytes()
    }

    ghost laws = { same_symbol_partial_equiv };
}

impl Eq for Sym {
    ghost use Rattle.term_model.specs.Same.{same_symbol_equiv};

    ghost laws = { same_symbol_equiv };
}

/// Hashes the bytes alone, in one write: symbols of two kinds seldom have the same bytes.
impl Hash for Sym {
    ghost use Rattle.term_model.specs.Hashing.{symbol_writes, symbol_writes-same};

    ghost hash_input = { symbol_writes };

    ghost respects_eq = { symbol_writes-same };

    fn hash<H: Hasher>(&self, state: &mut H) {
        state.write(self.bytes());
    }
}

/// Shows the kind and the bytes.
impl fmt::Debug for Sym {
    fn fmt<W: fmt::Write>(&self, f: &mut fmt::Formatter<W>) -> fmt::Result {
        f.debug_tuple("Sym")
            .field(&self.kind())
            .field(&self.bytes())
            .finish()
    }
}
