//! Sets of addresses, and counts by addresses.
ghost use Rattle.std.specs.Prelude.{◌≡◌, length};

use std::alloc::{AllocError, Global};
use strat_code::{Code, Instr};

/// A set of addresses of code.
#[derive(Drop)]
pub(crate) struct Addresses {
    /// Whether it has each address.
    members: Vec<bool>,
}

impl Addresses {
    /// Returns those of `members` that are below `count`.
    pub(crate) fn of(
        alloc: Global,
        count: usize,
        members: &[usize],
    ) -> Result<Addresses, AllocError> {
        let mut addresses = Addresses {
            members: Vec::from_elem(alloc, false, count)?,
        };
        for address in members {
            addresses.insert(*address);
        }
        Ok(addresses)
    }

    /// Returns the empty set, to which no address can be added; this takes no memory.
    pub(crate) fn none(alloc: Global) -> Addresses {
        Addresses {
            members: Vec::new(alloc),
        }
    }

    /// Returns the addresses of the own code of the definitions whose code begins at `entries`: not that of a strategy argument, nor
    /// that of a definition in a `let`. So a call that runs such code is a call of the definition.
    pub(crate) fn of_own_code(
        alloc: Global,
        code: &Code,
        entries: &[usize],
    ) -> Result<Addresses, AllocError> {
        let mut own = Addresses::of(alloc, code.len(), entries)?;
        // Within the code of one call each instruction leads to later ones.
        for address in 0..code.len() {
            if own.contains(address) {
                own.insert_next(code, address);
            }
        }
        Ok(own)
    }

    /// Whether the set has an address.
    pub(crate) fn contains(&self, address: usize) -> bool {
        matches!(self.members.get(address), Some(true))
    }

    /// Adds an address.
    fn insert(&mut self, address: usize) {
        if let Some(is_member) = self.members.get_mut(address) {
            *is_member = true;
        }
    }

    /// Adds the addresses at which a call goes on after an instruction.
    fn insert_next(&mut self, code: &Code, address: usize) {
        let next = address.saturating_add(1);
        match code.instrs().get(address) {
            Some(
                Instr::Commit { next_address, .. }
                | Instr::Jump { next_address }
                | Instr::CallDefinition { next_address, .. },
            ) => self.insert(*next_address),
            Some(Instr::EndDefinition | Instr::EndArgument | Instr::PartDone | Instr::Finish) => {}
            Some(Instr::Try { otherwise, .. }) => self.insert_both(next, *otherwise),
            Some(Instr::Traverse { next_address, .. }) => self.insert_both(next, *next_address),
            Some(
                Instr::Select {
                    table,
                    skipped,
                    last,
                    ..
                },
            ) => {
                self.insert(*last);
                // The first select from a table leads to all its cases.
                if *skipped == 0 {
                    self.insert_cases(code, *table);
                }
            }
            _ => self.insert(next),
        }
    }

    fn insert_both(&mut self, first: usize, second: usize) {
        self.insert(first);
        self.insert(second);
    }

    /// Adds the addresses to which the cases of a table lead.
    fn insert_cases(&mut self, code: &Code, table: usize) {
        let Some(cases) = code.tables().get(table) else {
            return;
        };
        for case in cases {
            self.insert_both(case.body, case.otherwise);
        }
    }
}

/// Adds one to the number at an address, if there is one.
pub(crate) fn count_at(counts: &mut Vec<u64>, address: usize)
    ensures { length counts.new.items ≡ length counts.old.items }
{
    if let Some(count) = counts.get_mut(address) {
        *count = count.saturating_add(1);
    }
}
