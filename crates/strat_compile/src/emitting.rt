//! What is emitted, one instruction or label after another.
ghost use Rattle.std.specs.Prelude.{◌≡◌, IfOk, OnOk, [], length};
ghost use Rattle.strat_code.specs.CodeOf.{code_of, instr_of};
ghost use Rattle.strat_compile.specs.Located.{code_in};
ghost use Rattle.strat_compile.specs.Output.{emitted_of, nothing, onto, place, starting, with_labels};
ghost use Rattle.strat_compile.specs.Tables.{SelectsNot};

use crate::code_size::code_fits;
use crate::located::{locate, located_tables};
use crate::output::{Finished, Output};
use crate::sources::{Sources, marks_of};
use std::alloc::{AllocError, Global};
use strat_code::Instr;

/// How many strategies are looked at in one alternative at most. One that needs more joins no chain, and the walk ends where
/// definitions call themselves.
const VISITS_OF_ALTERNATIVE: usize = 500;

/// How many strategies are looked at in all alternatives together, so that tables stay small, and making them quick, however
/// often a short program calls a long definition.
const VISITS: usize = 200_000;

impl Output {
    /// No code. `recursive` says for each definition of the program whether it may reach itself by calls, and `keeps_calls` whether no call is
    /// expanded. `sources` is there if it is kept where strategies stand in the definition file.
    #[tactic(auto, unfolding(crate::specs::Output::emitted_of))]
    pub(crate) fn new(
        alloc: Global,
        recursive: Vec<bool>,
        keeps_calls: bool,
        sources: Option<Sources>,
    ) -> Output
        ensures { emitted_of result ≡ nothing }
    {
        Output {
            instrs: Vec::new(alloc),
            tables: Vec::new(alloc),
            starts: Vec::new(alloc),
            visits: VISITS,
            recursive,
            is_expanding: false,
            is_sparing: false,
            expanded: 0,
            keeps_calls,
            sources,
        }
    }

    /// How many instructions there are from here to the end.
    #[tactic(auto, unfolding(crate::specs::Output::emitted_of))]
    pub(crate) fn place(&self) -> usize
        ensures { result ≡ place (emitted_of self.now) }
    {
        self.instrs.len()
    }

    /// How many labels there are.
    #[tactic(auto, unfolding(crate::specs::Output::emitted_of))]
    pub(crate) fn labels(&self) -> usize
        ensures { result ≡ length (emitted_of self.now).starts }
    {
        self.starts.len()
    }

    /// Puts an instruction in front, which selects from no table.
    #[tactic(auto, using(crate::proofs::TableLaws::same_tables), unfolding(crate::specs::Output::emitted_of))]
    pub(crate) fn emit(&mut self, instr: Instr) -> Result<(), AllocError>
        requires { SelectsNot instr }
        ensures { OnOk result (emitted_of self.new ≡
            onto (instr_of [] instr) (emitted_of self.old)) }
    {
        self.instrs.push(instr)?;
        Ok(())
    }

    /// How many strategies may be looked at in one alternative.
    pub(crate) fn visits_left(&self) -> usize {
        if self.visits < VISITS_OF_ALTERNATIVE {
            self.visits
        } else {
            VISITS_OF_ALTERNATIVE
        }
    }

    /// Counts strategies that have been looked at.
    #[tactic(auto, unfolding(crate::specs::Output::emitted_of))]
    pub(crate) fn count_visits(&mut self, visits: usize)
        ensures { emitted_of self.new ≡ emitted_of self.old }
    {
        self.visits = self.visits.saturating_sub(visits);
    }

    /// Says that the code of an expansion begins. Returns at which place, unless it is a part of another one.
    #[tactic(auto, unfolding(crate::specs::Output::emitted_of))]
    pub(crate) fn begin_expansion(&mut self) -> Option<usize>
        ensures { emitted_of self.new ≡ emitted_of self.old }
    {
        if self.is_expanding {
            return None;
        }
        self.is_expanding = true;
        Some(self.instrs.len())
    }

    /// Counts the size of the code of an expansion that began at this place and has ended.
    #[tactic(auto, unfolding(crate::specs::Output::emitted_of))]
    pub(crate) fn end_expansion(&mut self, began: Option<usize>)
        ensures { emitted_of self.new ≡ emitted_of self.old }
    {
        let Some(place) = began else {
            return;
        };
        self.is_expanding = false;
        self.expanded = self.expanded.saturating_add(self.size_since(place));
    }

    /// Returns the size of the code that has been emitted since this place.
    fn size_since(&self, place: usize) -> usize {
        let Some(code) = self.instrs.as_slice().get(place..) else {
            return 0;
        };
        let mut left = usize::MAX;
        if !code_fits(code, &mut left) {
            return usize::MAX;
        }
        usize::MAX.saturating_sub(left)
    }

    /// Adds labels. Where they start will be known later.
    #[tactic(auto, unfolding(crate::specs::Output::emitted_of))]
    pub(crate) fn add_labels(&mut self, count: usize) -> Result<(), AllocError>
        ensures { OnOk result (emitted_of self.new ≡ with_labels count (emitted_of self.old)) }
    {
        for _ in 0..count {
            self.starts.push(1)?;
        }
        Ok(())
    }

    /// The label starts here.
    #[tactic(auto, unfolding(crate::specs::Output::emitted_of))]
    pub(crate) fn start(&mut self, label: usize)
        ensures { emitted_of self.new ≡ starting label (emitted_of self.old) }
    {
        let here = self.instrs.len();
        if label < self.starts.len() {
            self.starts[label] = here;
        }
    }

    /// The code with addresses in place of places and labels.
    #[tactic(auto, unfolding(crate::specs::Output::emitted_of))]
    pub(crate) fn finish(self, alloc: Global) -> Result<Finished, AllocError>
        ensures { IfOk result (λ made. code_of made.tables.items made.instrs.items ≡
            code_in (emitted_of self)) }
    {
        let Output {
            mut instrs,
            tables,
            starts,
            sources,
            ..
        } = self;
        let count = instrs.len();
        let tables = located_tables(alloc, tables, count)?;
        let mut made = Vec::with_capacity(alloc, count)?;
        while let Some(instr) = instrs.pop() {
            let instr = locate(alloc, instr, count, starts.as_slice())?;
            made.push(instr)?;
        }
        let marked = marks_of(alloc, count, sources)?;
        Ok(Finished {
            instrs: made,
            tables,
            marked,
        })
    }
}
