//! Code: instructions that stand for a core.
ghost use Rattle.std.specs.Prelude.{◌≡◌, ◌<◌, length, slice_get, Some};
ghost use Rattle.strat_code.specs.CodeOf.{code_of, IsCode};

use crate::instr::{Case, Instr};
use std::marker::Model;
use term_model::PrimNames;

/// From an address on, code is of what stands at this byte of the definition file; what is of the library stands at 0.
#[derive(Clone, Copy, Debug, PartialEq, Eq)]
pub struct SourceMark {
    pub address: usize,
    pub offset: u64,
}

/// Instructions, the tables of cases that they select from, and the primitives that they apply. There is a core with the same
/// primitives that they stand for, and each address in them is one of an instruction. A run begins at address 0.
#[derive(Drop)]
pub struct Code {
    instrs: Vec<Instr>,
    /// Several instructions may select from one table, each without its first cases.
    tables: Vec<Vec<Case>>,
    prims: PrimNames,
    /// Where strategies stand in the definition file, by addresses. The view leaves this out.
    marks: Vec<SourceMark>,
    /// Where the code of the definitions of the program begins, if that is kept. The view leaves this out.
    entries: Vec<usize>,
}

impl Model for Code {
    ghost use Rattle.strat_code.specs.CodeOf.{CodeParts, code_of, IsCode};

    ghost Value = { CodeParts };

    ghost use Rattle.std.specs.Coded.{codes};
    ghost use Rattle.strat_code.specs.contracts.instr.Instr as instructions;
    ghost use Rattle.strat_code.specs.contracts.instr.Case as cases;

    ghost coded = { Prim.hlevel (codes, instructions.the_row.coded, cases.the_row.coded) };

    ghost view = { λ c. record {
      instrs = c.instrs.items;
      tables = c.tables.items;
      prims =
          c.prims;
    } };

    ghost invariant = { λ c. IsCode (code_of c.tables.items c.instrs.items) c.prims };
}

impl Code {
    /// The code of these instructions with these tables and primitives. They stand for some core with the same primitives, and
    /// each address in them is one of an instruction. The marks say where strategies stand in the definition file, in the order of their
    /// addresses; no contract speaks of them.
    pub fn new(
        instrs: Vec<Instr>,
        tables: Vec<Vec<Case>>,
        prims: PrimNames,
        marks: Vec<SourceMark>,
        entries: Vec<usize>,
    ) -> Code
        requires { IsCode (code_of tables.items instrs.items) prims }
        ensures instrs { result.instrs ≡ instrs.items }
        ensures tables { result.tables ≡ tables.items }
        ensures prims { result.prims ≡ prims }
    {
        Code {
            instrs,
            tables,
            prims,
            marks,
            entries,
        }
    }

    /// The addresses at which the code of the definitions of the program begins, if they are kept: the code of each ends where that of the one
    /// before it begins, and that of the first one at the end. No contract speaks of them.
    pub fn entries(&self) -> &[usize] {
        self.entries.as_slice()
    }

    /// The last mark that is not after the instruction at an address: where its strategy, or one before it in the same definition, stands in
    /// the definition file. No contract speaks of it.
    pub fn mark_at(&self, address: usize) -> Option<SourceMark> {
        let after = self.marks.partition_point(|mark| mark.address <= address);
        self.marks.get(after.checked_sub(1)?).copied()
    }

    /// The number of instructions.
    pub fn len(&self) -> usize
        ensures { result ≡ length self.now.instrs }
    {
        self.instrs.len()
    }

    /// The instruction at an address.
    pub fn at(&self, address: usize) -> &Instr
        requires { address < length self.now.instrs }
        ensures { slice_get self.now.instrs address ≡ Some result.now }
    {
        &self.instrs[address]
    }

    /// The primitives that occur in the core: their names, each with the number of arguments with which it is called.
    pub fn prims(&self) -> &PrimNames
        ensures { result.now ≡ self.now.prims }
    {
        &self.prims
    }

    /// All instructions: with the tables, those of some core with the same primitives.
    pub fn instrs(&self) -> &[Instr]
        ensures same { result.now ≡ self.now.instrs }
        ensures stands { IsCode (code_of self.now.tables self.now.instrs) self.now.prims }
    {
        self.instrs.as_slice()
    }

    /// The tables that instructions select from.
    pub fn tables(&self) -> &[Vec<Case>]
        ensures { result.now ≡ self.now.tables }
    {
        self.tables.as_slice()
    }
}
