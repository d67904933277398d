//! Names that a layer gives slots to.
ghost use Rattle.std.specs.Prelude.{◌≡◌, [], ◌∷◌, ◌++◌, length, map, IfOk, OnOk, OnErr};
ghost use Rattle.std.specs.List.{position};
ghost use Rattle.std.specs.Str.{bytes_eq};
ghost use Rattle.core_lang.specs.Named.{position_of, written};
ghost use Rattle.str_desugar.specs.Gathered.{has_name, with_new};
ghost use Rattle.str_desugar.specs.HeldNames.{held_names};
ghost use Rattle.term_model.specs.Results.{Returns};

use crate::marks::{Marks, Wanted};
use indexmap::IndexSet;
use keyed_hash::HashKeys;
use std::alloc::{AllocError, Global};
use std::marker::Model;
use str_syntax::Name;

/// The most names that a look-up walks.
const FEW: usize = 8;

/// Names in order, which a look-up does not walk, as long as no name is a repeated one; in a checked file none is.
#[derive(Drop)]
struct Hashed {
    /// The names in front of the first one that repeats another.
    distinct: IndexSet<Name, HashKeys>,
    /// The names from there on.
    others: Vec<Name>,
}

impl Model for Hashed {
    ghost use Rattle.std.specs.Prelude.{◌++◌, ℕ, List};

    ghost Value = { List (List ℕ) };

    ghost view = { λ names. names.distinct.keys ++ names.others.items };
}

impl Hashed {
    /// The names of a list, in order.
    fn of(alloc: Global, hashing: HashKeys, source: &[Name]) -> Result<Hashed, AllocError>
        ensures { Returns result source.now }
    {
        let mut made = Hashed {
            distinct: IndexSet::with_hasher(alloc, hashing),
            others: Vec::new(alloc),
        };
        for name in source {
            made.push(name.copy(alloc)?)?;
        }
        Ok(made)
    }

    /// How many names there are.
    fn len(&self) -> usize
        ensures { result ≡ length self.now }
    {
        self.distinct.len() + self.others.len()
    }

    /// Puts the name after the others.
    fn push(&mut self, name: Name) -> Result<(), AllocError>
        ensures pushed { OnOk result (self.new ≡ self.old ++ name ∷ []) }
        ensures unchanged { OnErr result (self.new ≡ self.old) }
    {
        if !self.others.is_empty() || self.distinct.contains(&name) {
            self.others.push(name)?;
            return Ok(());
        }
        self.distinct.insert(name)?;
        Ok(())
    }

    /// The slot of the first name that is the same.
    fn position(&self, name: &Name) -> Option<usize>
        ensures { result ≡ position (bytes_eq name.now) self.now }
    {
        if let Some(slot) = self.distinct.get_index_of(&*name) {
            return Some(slot);
        }
        let slot = position_among(&self.others, name)?;
        Some(self.distinct.len() + slot)
    }
}

/// Few names are walked, and more are hashed.
#[derive(Drop)]
enum Held {
    Few(Vec<Name>),
    Many(Hashed),
}

impl Held {
    /// Puts the name after the others.
    fn push(&mut self, alloc: Global, hashing: HashKeys, name: Name) -> Result<(), AllocError>
        ensures pushed { OnOk result (held_names self.new ≡ held_names self.old ++ name ∷ []) }
        ensures unchanged { OnErr result (held_names self.new ≡ held_names self.old) }
    {
        match self {
            Held::Many(names) => names.push(name)?,
            Held::Few(names) => {
                if names.len() < FEW {
                    names.push(name)?;
                    return Ok(());
                }
                let mut many = Hashed::of(alloc, hashing, names)?;
                many.push(name)?;
                *self = Held::Many(many);
            }
        }
        Ok(())
    }

    /// The slot of the first name that is the same.
    #[inline(never)]
    fn position(&self, name: &Name) -> Option<usize>
        ensures { result ≡ position (bytes_eq name.now) (held_names self.now) }
    {
        match self {
            Held::Few(names) => position_among(names, name),
            Held::Many(names) => names.position(name),
        }
    }
}

/// Names in the order of their slots. A look-up of a name whose mark is not set compares none of them, and else at most eight,
/// as long as no name is a repeated one.
#[derive(Drop)]
struct Table {
    held: Held,
    /// The marks of the names.
    marks: Marks,
}

impl Model for Table {
    ghost use Rattle.std.specs.Prelude.{ℕ, List};
    ghost use Rattle.str_desugar.specs.HeldNames.{held_names};

    ghost Value = { List (List ℕ) };

    ghost view = { λ names. held_names names.held };

    ghost use Rattle.str_desugar.specs.Marks.{AreMarked};

    ghost invariant = { λ names. AreMarked names.marks (held_names names.held) };
}

impl Table {
    /// No names.
    fn new(alloc: Global, hashing: HashKeys) -> Table
        ensures { result ≡ [] }
    {
        Table {
            held: Held::Few(Vec::new(alloc)),
            marks: Marks::new(hashing),
        }
    }

    /// How many names there are.
    fn len(&self) -> usize
        ensures { result ≡ length self.now }
    {
        match &self.held {
            Held::Few(names) => names.len(),
            Held::Many(names) => names.len(),
        }
    }

    /// Puts a copy of the name after the others.
    fn push(&mut self, alloc: Global, hashing: HashKeys, name: &Name) -> Result<(), AllocError>
        ensures { OnOk result (self.new ≡ self.old ++ name.now ∷ []) }
    {
        let copy = name.copy(alloc)?;
        self.marks.set(name.bytes());
        self.held.push(alloc, hashing, copy)?;
        Ok(())
    }

    /// The slot of the first name that is the same.
    #[inline(always)]
    #[tactic(auto, using(crate::proofs::SlotLaws::positions))]
    fn position(&self, wanted: &Wanted) -> Option<usize>
        ensures { result ≡ position_of (written wanted.now) (map written self.now) }
    {
        if !self.marks.has(&*wanted) {
            return None;
        }
        self.held.position(wanted.name())
    }
}

/// A table of the one name.
#[inline(never)]
fn table_of(alloc: Global, hashing: HashKeys, name: &Name) -> Result<Box<Table>, AllocError>
    ensures { IfOk result (λ made. made.value ≡ name.now ∷ []) }
{
    let mut made = Box::new(alloc, Table::new(alloc, hashing))?;
    made.push(alloc, hashing, name)?;
    Ok(made)
}

/// Names in the order of their slots, in a table that is made with the first of them. So no names take no memory, and a value of
/// this type takes little of the call stack.
#[derive(Drop)]
pub(crate) struct Names {
    /// The keys with which the table hashes.
    hashing: HashKeys,
    table: Option<Box<Table>>,
}

impl Model for Names {
    ghost use Rattle.std.specs.Prelude.{ℕ, List};
    ghost use Rattle.str_desugar.specs.HeldNames.{names_among};

    ghost Value = { List (List ℕ) };

    ghost view = { λ names. names_among names.table };
}

impl Names {
    /// No names, in a table that hashes so.
    pub(crate) fn new(hashing: HashKeys) -> Names
        ensures { result ≡ [] }
    {
        Names {
            hashing,
            table: None,
        }
    }

    /// The keys with which these names are hashed.
    pub(crate) fn hashing(&self) -> HashKeys {
        self.hashing
    }

    /// How many names there are.
    pub(crate) fn len(&self) -> usize
        ensures { result ≡ length self.now }
    {
        match &self.table {
            None => 0,
            Some(table) => table.len(),
        }
    }

    /// Puts a copy of the name after the others. `AllocError` where the memory for it is refused.
    pub(crate) fn push(&mut self, alloc: Global, name: &Name) -> Result<(), AllocError>
        ensures { OnOk result (self.new ≡ self.old ++ name.now ∷ []) }
    {
        match &mut self.table {
            None => self.table = Some(table_of(alloc, self.hashing, name)?),
            Some(table) => table.push(alloc, self.hashing, name)?,
        }
        Ok(())
    }

    /// Whether the name is one of these.
    #[tactic(auto, using(crate::proofs::GatheredLaws::has_position))]
    pub(crate) fn contains(&self, wanted: &Wanted) -> bool
        ensures { result ≡ has_name self.now wanted.now }
    {
        self.position(wanted).is_some()
    }

    /// Puts a copy of the name after the others where it is new. `AllocError` where the memory for it is refused.
    pub(crate) fn insert_new(&mut self, alloc: Global, wanted: &Wanted) -> Result<(), AllocError>
        ensures { OnOk result (self.new ≡ with_new self.old wanted.now) }
    {
        if self.contains(wanted) {
            return Ok(());
        }
        self.push(alloc, wanted.name())
    }

    /// The slot of the first name that is the same.
    #[inline(always)]
    pub(crate) fn position(&self, wanted: &Wanted) -> Option<usize>
        ensures { result ≡ position_of (written wanted.now) (map written self.now) }
    {
        match &self.table {
            None => None,
            Some(table) => table.position(&*wanted),
        }
    }
}

/// The position of the first of these names that is the same.
fn position_among(names: &[Name], name: &Name) -> Option<usize>
    ensures { result ≡ position (bytes_eq name.now) names.now }
{
    names.iter().position(|other| same(name, other))
}

/// Whether two names are the same.
pub(crate) fn same(name: &Name, other: &Name) -> bool
    ensures { result ≡ bytes_eq name.now other.now }
{
    name.bytes() == other.bytes()
}

/// The names of a list, in order. `AllocError` where the memory for them is refused.
#[inline(never)]
pub(crate) fn names_in(
    alloc: Global,
    hashing: HashKeys,
    source: &[Name],
) -> Result<Names, AllocError>
    ensures { Returns result source.now }
{
    let mut made = Names::new(hashing);
    for name in source {
        made.push(alloc, name)?;
    }
    Ok(made)
}
