//! Where strategies stand in the definition file: marks beside the code, for explanations of runs. No contract speaks of them.
ghost use Rattle.std.specs.Prelude.{◌≡◌, OnOk};
ghost use Rattle.strat_compile.specs.Output.{emitted_of};

use crate::output::Output;
use core_lang::Core;
use std::alloc::{AllocError, Global};
use strat_code::SourceMark;

/// What is marked while code is emitted, from its end to its beginning.
#[derive(Drop)]
pub(crate) struct Sources {
    /// Where the names of the program's definitions stand, by their labels.
    heads: Vec<u64>,
    /// Where their code begins. In place of an address each has the place of its instruction.
    entries: Vec<usize>,
    /// In place of an address each has the place of its instruction.
    marks: Vec<SourceMark>,
    /// Whether no selection passes a call by.
    performs_calls: bool,
}

impl Sources {
    /// Nothing is marked yet in the code of this core.
    pub(crate) fn new(
        alloc: Global,
        core: &Core,
        performs_calls: bool,
    ) -> Result<Sources, AllocError> {
        let count = core.defs().len();
        let mut heads = Vec::with_capacity(alloc, count)?;
        for position in 0..count {
            heads.push(core.head(position).unwrap_or(0))?;
        }
        Ok(Sources {
            heads,
            entries: Vec::from_elem(alloc, 0usize, count)?,
            marks: Vec::new(alloc),
            performs_calls,
        })
    }

    /// Marks an instruction, unless it is marked already.
    fn mark(&mut self, place: usize, offset: u64) -> Result<(), AllocError> {
        if let Some(last) = self.marks.last() {
            if last.address == place {
                return Ok(());
            }
        }
        self.marks.push(SourceMark {
            address: place,
            offset,
        })?;
        Ok(())
    }

    /// Marks an instruction with which the code of a label begins, if that is the label of a definition of the program.
    fn mark_start(&mut self, place: usize, label: usize) -> Result<(), AllocError> {
        if let Some(entry) = self.entries.get_mut(label) {
            *entry = place;
        }
        let Some(offset) = self.heads.get(label).copied() else {
            return Ok(());
        };
        self.mark(place, offset)
    }
}

impl Output {
    /// Whether no selection may pass a call by.
    pub(crate) fn performs_calls(&self) -> bool {
        match &self.sources {
            Some(sources) => sources.performs_calls,
            None => false,
        }
    }

    /// The strategy of the newest instruction stands at this byte of the definition file, if at one that is known.
    #[tactic(auto, unfolding(crate::specs::Output::emitted_of))]
    #[inline(never)]
    pub(crate) fn mark(&mut self, offset: Option<u64>) -> Result<(), AllocError>
        ensures { OnOk result (emitted_of self.new ≡ emitted_of self.old) }
    {
        let place = self.instrs.len();
        if let Some(sources) = &mut self.sources {
            if let Some(offset) = offset {
                sources.mark(place, offset)?;
            }
        }
        Ok(())
    }

    /// The code of the label begins with the newest instruction.
    #[tactic(auto, unfolding(crate::specs::Output::emitted_of))]
    #[inline(never)]
    pub(crate) fn mark_start(&mut self, label: usize) -> Result<(), AllocError>
        ensures { OnOk result (emitted_of self.new ≡ emitted_of self.old) }
    {
        let place = self.instrs.len();
        if let Some(sources) = &mut self.sources {
            sources.mark_start(place, label)?;
        }
        Ok(())
    }
}

/// What is marked in code, by addresses: where its strategies stand, and where its definitions begin.
#[derive(Drop)]
pub(crate) struct Marked {
    pub(crate) marks: Vec<SourceMark>,
    pub(crate) entries: Vec<usize>,
}

/// What is marked in code of this number of instructions.
pub(crate) fn marks_of(
    alloc: Global,
    count: usize,
    sources: Option<Sources>,
) -> Result<Marked, AllocError> {
    let mut marks = Vec::new(alloc);
    let mut entries = Vec::new(alloc);
    let Some(sources) = sources else {
        return Ok(Marked { marks, entries });
    };
    for mark in sources.marks.iter().rev() {
        marks.push(SourceMark {
            address: count.saturating_sub(mark.address),
            offset: mark.offset,
        })?;
    }
    for place in &sources.entries {
        entries.push(count.saturating_sub(*place))?;
    }
    Ok(Marked { marks, entries })
}
