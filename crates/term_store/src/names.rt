//! Symbols under their numbers.
ghost use Rattle.std.specs.Prelude.{◌≡◌, ◌<◌, length, IfOk};
ghost use Rattle.term_store.specs.Space.{count, symbol_at, Keeps};
ghost use Rattle.term_model.specs.SymbolKinds.{symbol_spelled, IsSpelling};
ghost use Rattle.term_store.specs.Store.{head_in, IsAmong};

use crate::spelled::Spelled;
use crate::store::StoreSpace;
use crate::stored::StoredHead;
use std::alloc::{AllocError, Global};
use term_model::{Head, Kind, Sym};

/// The most symbols that there are.
const MAX_SYMBOLS: usize = 4_294_967_295;

impl StoreSpace {
    /// The number of a symbol, which is put in where it is new.
    #[tactic(auto, using(crate::proofs::SpellingLaws::found_at))]
    pub(crate) fn number_of(&mut self, symbol: &Sym) -> Result<u32, AllocError>
        ensures keeps { Keeps self.old self.new }
        ensures within { IfOk result (λ n. n < length self.new.symbols.keys) }
        ensures small { IfOk result (λ n. n < 4_294_967_295) }
        ensures symbol { IfOk result (λ n. symbol_at self.new n ≡ symbol.now) }
        ensures shapes { count self.new ≡ count self.old }
    {
        if let Some(at) = self.symbols.get_index_of(symbol) {
            if at < MAX_SYMBOLS {
                return Ok(at as u32);
            }
        }
        let copy = symbol.clone()?;
        self.put_symbol(copy)
    }

    /// The number of a symbol, which is put in where it is new.
    fn put_symbol(&mut self, symbol: Sym) -> Result<u32, AllocError>
        ensures keeps { Keeps self.old self.new }
        ensures within { IfOk result (λ n. n < length self.new.symbols.keys) }
        ensures small { IfOk result (λ n. n < 4_294_967_295) }
        ensures symbol { IfOk result (λ n. symbol_at self.new n ≡ symbol) }
        ensures shapes { count self.new ≡ count self.old }
    {
        if self.symbols.len() >= MAX_SYMBOLS {
            return Err(AllocError);
        }
        let (at, _) = self.symbols.insert_full(symbol)?;
        Ok(at as u32)
    }

    /// The number of the symbol of a kind and bytes, which is made where it is new.
    #[tactic(auto, using(crate::proofs::SpellingLaws::found_at))]
    fn number_of_spelling(
        &mut self,
        alloc: Global,
        kind: Kind,
        bytes: &[u8],
    ) -> Result<u32, AllocError>
        requires { IsSpelling kind bytes.now }
        ensures keeps { Keeps self.old self.new }
        ensures within { IfOk result (λ n. n < length self.new.symbols.keys) }
        ensures small { IfOk result (λ n. n < 4_294_967_295) }
        ensures symbol { IfOk result (λ n. symbol_at self.new n ≡ symbol_spelled kind bytes.now) }
        ensures shapes { count self.new ≡ count self.old }
    {
        if let Some(at) = self.symbols.get_index_of(&Spelled::new(kind, bytes)) {
            if at < MAX_SYMBOLS {
                return Ok(at as u32);
            }
        }
        let symbol = Sym::of_spelling(alloc, kind, bytes)?;
        self.put_symbol(symbol)
    }

    /// The number of a symbol, which stays for good from now on.
    pub(crate) fn name_of(&mut self, symbol: &Sym) -> Result<u32, AllocError>
        ensures keeps { Keeps self.old self.new }
        ensures within { IfOk result (λ n. n < self.new.named) }
        ensures symbol { IfOk result (λ n. symbol_at self.new n ≡ symbol.now) }
        ensures shapes { count self.new ≡ count self.old }
    {
        let number = self.number_of(symbol)?;
        self.named = self.named.max(number + 1);
        Ok(number)
    }

    /// The number of the symbol of a kind and bytes, which stays for good from now on.
    pub(crate) fn name_of_spelling(
        &mut self,
        alloc: Global,
        kind: Kind,
        bytes: &[u8],
    ) -> Result<u32, AllocError>
        requires { IsSpelling kind bytes.now }
        ensures keeps { Keeps self.old self.new }
        ensures within { IfOk result (λ n. n < self.new.named) }
        ensures symbol { IfOk result (λ n. symbol_at self.new n ≡ symbol_spelled kind bytes.now) }
        ensures shapes { count self.new ≡ count self.old }
    {
        let number = self.number_of_spelling(alloc, kind, bytes)?;
        self.named = self.named.max(number + 1);
        Ok(number)
    }

    /// A head as it is stored.
    pub(crate) fn stored_head(&mut self, head: &Head) -> Result<StoredHead, AllocError>
        ensures keeps { Keeps self.old self.new }
        ensures among { IfOk result (λ h. IsAmong (length self.new.symbols.keys) h) }
        ensures head { IfOk result (λ h. head_in self.new.symbols.keys h ≡ head.now) }
    {
        match head {
            Head::Int(value) => Ok(StoredHead::Int(*value)),
            Head::App(symbol) => Ok(StoredHead::Symbol(self.number_of(symbol)?)),
            Head::List => Ok(StoredHead::List),
        }
    }
}
