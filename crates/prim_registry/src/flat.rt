//! Flat values: what primitives are given and return.
ghost use Rattle.std.specs.Prelude.{◌≡◌, ℕ, ℤ, List};
ghost use Rattle.term_model.specs.Symbol.{bytes_of};

use std::marker::Model;
use term_model::Sym;

/// What holds the bytes of a string.
#[derive(Debug, Drop)]
enum Holder {
    Vector(Vec<u8>),
    Symbol(Sym),
}

/// The bytes of a string.
#[derive(Debug, Drop)]
pub struct Bytes {
    holder: Holder,
}

impl Model for Bytes {
    ghost use Rattle.std.specs.Prelude.{ℕ, List};
    ghost use Rattle.prim_registry.specs.HeldBytes.{held_bytes};

    ghost Value = { List ℕ };

    ghost view = { λ b. held_bytes b.holder };
}

impl Bytes {
    /// Returns the string of these bytes.
    pub fn new(bytes: Vec<u8>) -> Bytes
        ensures { result ≡ bytes.items }
    {
        Bytes {
            holder: Holder::Vector(bytes),
        }
    }

    /// Returns the string of the bytes of a symbol, without a copy.
    pub fn of_symbol(symbol: Sym) -> Bytes
        ensures { result ≡ bytes_of symbol }
    {
        Bytes {
            holder: Holder::Symbol(symbol),
        }
    }

    /// Returns the bytes.
    pub fn as_slice(&self) -> &[u8]
        ensures { result.now ≡ self.now }
    {
        match &self.holder {
            Holder::Vector(bytes) => bytes.as_slice(),
            Holder::Symbol(symbol) => symbol.bytes(),
        }
    }
}

/// The integers of a list.
#[derive(Debug, Drop)]
pub struct Numbers {
    numbers: Vec<i64>,
}

impl Model for Numbers {
    ghost Value = { List ℤ };

    ghost view = { λ n. n.numbers.items };
}

impl Numbers {
    /// Returns the list of these integers.
    pub fn new(numbers: Vec<i64>) -> Numbers
        ensures { result ≡ numbers.items }
    {
        Numbers { numbers }
    }

    /// Returns the integers.
    pub fn as_slice(&self) -> &[i64]
        ensures { result.now ≡ self.now }
    {
        self.numbers.as_slice()
    }

    /// Returns the integers as a vector, without a copy.
    pub fn into_vec(self) -> Vec<i64>
        ensures { result.items ≡ self }
    {
        self.numbers
    }
}

/// A flat value.
#[derive(Debug, Drop)]
pub enum Flat {
    /// An integer.
    Int(i64),
    /// A string.
    Str(Bytes),
    /// A list of integers, which may be empty.
    Ints(Numbers),
}
