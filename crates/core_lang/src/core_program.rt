//! Cores: programs over coordinates that are in range.
ghost use Rattle.std.specs.Prelude.{◌≡◌, ◌↔◌, IfOk, IsTrue};
ghost use Rattle.core_lang.specs.Views.{definitions_of};
ghost use Rattle.core_lang.specs.Core.{program_of};
ghost use Rattle.core_lang.specs.InRange.{InRange};
ghost use Rattle.core_lang.specs.Primitives.{AreOccurring};

use crate::primitives::primitives_of;
use crate::program::CoreDef;
use crate::range;
use std::alloc::{AllocError, Global};
use std::marker::Model;
use term_model::PrimNames;

/// A core program: definitions, one of which is main. Each coordinate in it leads to what is wanted of it.
#[derive(Drop)]
pub struct Core {
    defs: Vec<CoreDef>,
    main: usize,
    prims: PrimNames,
    /// Where the names of the definitions stand in the definition file, as far as that is known. The view leaves them out.
    heads: Vec<u64>,
}

impl Model for Core {
    ghost use Rattle.core_lang.specs.Core.{CoreParts, IsCore};
    ghost use Rattle.core_lang.specs.Views.{definitions_of};

    ghost Value = { CoreParts };

    ghost use Rattle.std.specs.Coded.{codes};
    ghost use Rattle.core_lang.specs.contracts.program.CoreStrategy as strategies;
    ghost use Rattle.core_lang.specs.contracts.program.CorePattern as patterns;

    ghost coded = { Prim.hlevel (codes, strategies.the_row.coded, patterns.the_row.coded) };

    ghost view = { λ c. record { defs = c.defs.items; main = c.main; prims = c.prims } };

    ghost invariant = { λ c. IsCore (definitions_of c.defs.items) c.main c.prims };
}

impl Core {
    /// Whether these definitions, with the one at `main` as main, are a core: `main` is there and has no parameters,
    /// each coordinate of a variable leads to a variable, and that of a call to a definition with as many parameters
    /// as the call has arguments, or to a strategy parameter where it has none.
    pub fn in_range(defs: &[CoreDef], main: usize) -> bool
        ensures { IsTrue result ↔ InRange (definitions_of defs.now) main }
    {
        range::has_definition(defs, main, 0, 0) && range::program_in_range(defs)
    }

    /// Returns the core of these definitions, with the one at `main` as main; `AllocError` where the memory for the names of its
    /// primitives is refused.
    pub fn new(alloc: Global, defs: Vec<CoreDef>, main: usize) -> Result<Core, AllocError>
        requires { InRange (definitions_of defs.items) main }
        ensures definitions { IfOk result (λ core. core.defs ≡ defs.items) }
        ensures main { IfOk result (λ core. core.main ≡ main) }
    {
        let prims = primitives_of(alloc, defs.as_slice())?;
        let heads = Vec::new(alloc);
        Ok(Core {
            defs,
            main,
            prims,
            heads,
        })
    }

    /// The same core, whose definitions have their names at these bytes of the definition file; those of the library at 0.
    pub fn with_heads(self, heads: Vec<u64>) -> Core
        ensures { result ≡ self }
    {
        let Core {
            defs,
            main,
            prims,
            ..
        } = self;
        Core {
            defs,
            main,
            prims,
            heads,
        }
    }

    /// The byte of the definition file at which the name of a definition stands, where one is known. No contract speaks of it.
    pub fn head(&self, position: usize) -> Option<u64> {
        self.heads.get(position).copied()
    }

    /// The definitions.
    pub fn defs(&self) -> &[CoreDef]
        ensures same { result.now ≡ self.now.defs }
        ensures in_range { InRange (program_of self.now) self.now.main }
        ensures occurring { AreOccurring self.now.prims (program_of self.now) }
    {
        self.defs.as_slice()
    }

    /// The position of main among the definitions.
    pub fn main(&self) -> usize
        ensures { result ≡ self.now.main }
    {
        self.main
    }

    /// The primitives that occur in the core: their names, each with the number of arguments with which it is called.
    pub fn prims(&self) -> &PrimNames
        ensures same { result.now ≡ self.now.prims }
        ensures occurring { AreOccurring self.now.prims (program_of self.now) }
    {
        &self.prims
    }
}
