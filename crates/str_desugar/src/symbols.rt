//! Symbols of names and texts of the file.
ghost use Rattle.term_model.specs.Symbol.{Quoted};
ghost use Rattle.str_desugar.specs.Equations.{constructor_symbol};
ghost use Rattle.term_model.specs.Results.{Returns};

use indexmap::IndexSet;
use keyed_hash::HashKeys;
use std::alloc::{AllocError, Global};
use str_syntax::{Name, Text};
use term_model::Sym;

/// The most bytes of a symbol that is not shared, since it stands in place.
const IN_PLACE: usize = 14;

/// The symbols of a file. Each long one is kept once and shared.
#[derive(Drop)]
pub(crate) struct Symbols {
    alloc: Global,
    known: IndexSet<Sym, HashKeys>,
}

impl Symbols {
    /// No symbols, in a table that hashes so.
    pub(crate) fn new(alloc: Global, hashing: HashKeys) -> Symbols {
        Symbols {
            alloc,
            known: IndexSet::with_hasher(alloc, hashing),
        }
    }

    /// The keys with which the table of symbols hashes.
    pub(crate) fn hashing(&self) -> HashKeys {
        *self.known.hasher()
    }

    /// The symbol of the constructor of this name.
    pub(crate) fn constructor(&mut self, name: &Name) -> Result<Sym, AllocError>
        ensures { Returns result (constructor_symbol name.now) }
    {
        let symbol = constructor_symbol(self.alloc, name)?;
        self.share(symbol)
    }

    /// The symbol of a quoted text.
    pub(crate) fn quoted_symbol(&mut self, text: &Text) -> Result<Sym, AllocError>
        ensures { Returns result (Quoted text.now) }
    {
        let symbol = Sym::quoted(self.alloc, text.bytes())?;
        self.share(symbol)
    }

    /// The symbol that was kept first of those that are this one.
    fn share(&mut self, symbol: Sym) -> Result<Sym, AllocError>
        ensures { Returns result symbol }
    {
        if symbol.bytes().len() <= IN_PLACE {
            return Ok(symbol);
        }
        if let Some(known) = self.known.get(&symbol) {
            let shared = known.clone()?;
            return Ok(shared);
        }
        let kept = symbol.clone()?;
        self.known.insert(kept)?;
        Ok(symbol)
    }
}

/// The symbol of the constructor of this name, made anew.
fn constructor_symbol(alloc: Global, name: &Name) -> Result<Sym, AllocError>
    ensures { Returns result (constructor_symbol name.now) }
{
    match Sym::plain(alloc, name.bytes())? {
        Some(symbol) => Ok(symbol),
        None => Sym::quoted(alloc, name.bytes()),
    }
}
