//! What a run did in each alternative of a definition.
//!
//! The code of a definition with several alternatives is one choice. An alternative stands there after a `Try`, or is one of a chain that
//! selects share; the last one comes after all others. Each but the last ends with the `Commit` that takes the choice off.

use crate::counters::{Counters, Stretch};
use std::alloc::{AllocError, Global};
use strat_code::{Case, Instr};
use strat_machine::first_match;

/// How often an alternative was tried, and what came of it.
#[derive(Clone, Copy, Debug, PartialEq, Eq)]
pub(crate) struct AlternativeCounts {
    /// Its number among the alternatives of its definition, from 0.
    pub(crate) number: usize,
    /// The byte of its name in the definitions; 0 for the library.
    pub(crate) offset: usize,
    /// The address of its first instruction.
    pub(crate) start: usize,
    pub(crate) tried: u64,
    /// How often the term had one of the roots that it asks for, if a selection looked at that.
    pub(crate) selected: Option<u64>,
    /// How often the match succeeded with which it begins, if it begins with one.
    pub(crate) matched: Option<u64>,
    pub(crate) succeeded: u64,
    /// In how many calls it had not ended when the run had.
    pub(crate) unfinished: u64,
    pub(crate) rules: u64,
}

impl AlternativeCounts {
    /// Returns how often it failed after the match with which it begins or, if it begins with none, at all.
    pub(crate) fn failures(&self) -> u64 {
        let begun = self.matched.unwrap_or(self.tried);
        begun.saturating_sub(self.succeeded.saturating_add(self.unfinished))
    }

    /// Returns whether it matched or, if it begins with no match, succeeded.
    pub(crate) fn has_matched(&self) -> bool {
        self.matched.unwrap_or(self.succeeded) > 0
    }
}

/// An alternative in the code: the instruction that enters it, its own instructions, and how often it was tried.
#[derive(Clone, Copy)]
struct Arm {
    entrance: usize,
    body: Stretch,
    tried: u64,
    selected: Option<u64>,
}

/// Returns what a run did in the alternatives of a definition with this number of term parameters, whose names stand at these bytes, and
/// whose code is this.
pub(crate) fn count_alternatives(
    alloc: Global,
    counters: Counters<'_>,
    heads: &[u64],
    parameters: usize,
    code: Stretch,
) -> Result<Vec<AlternativeCounts>, AllocError> {
    let mut walk = Walk {
        counters,
        heads,
        parameters,
        found: Vec::with_capacity(alloc, heads.len())?,
        committed: 0,
    };
    let mut address = code.from;
    for _ in 0..heads.len() {
        if walk.found.len().saturating_add(1) < heads.len() {
            address = walk.add_arms(alloc, address)?;
        }
    }
    walk.add_last(Stretch {
        from: address,
        to: code.to,
    })?;
    Ok(walk.found)
}

/// A walk along the alternatives of a definition.
#[derive(Drop)]
struct Walk<'a> {
    counters: Counters<'a>,
    heads: &'a [u64],
    parameters: usize,
    /// Those that were found, and how often these succeeded.
    found: Vec<AlternativeCounts>,
    committed: u64,
}

impl<'a> Walk<'a> {
    /// Adds the alternative, or the chain of them, that an instruction enters, and returns where the next one is entered: there, if it enters
    /// none.
    fn add_arms(&mut self, alloc: Global, address: usize) -> Result<usize, AllocError> {
        match self.counters.code.instrs().get(address) {
            Some(Instr::Try { otherwise, .. }) => {
                self.add_guarded(Arm {
                    entrance: address,
                    body: Stretch {
                        from: address.saturating_add(1),
                        to: *otherwise,
                    },
                    tried: self.counters.passed(address),
                    selected: None,
                })?;
                Ok(*otherwise)
            }
            Some(Instr::Select { table, last, .. }) => {
                if let Some(cases) = self.counters.code.tables().get(*table) {
                    self.add_chain(alloc, address, cases, *last)?;
                }
                Ok(*last)
            }
            _ => Ok(address),
        }
    }

    /// Adds the alternatives of a chain whose selects begin at this address. Each select tries all from its own on, so that those which it
    /// passes by were tried, too.
    fn add_chain(
        &mut self,
        alloc: Global,
        selects: usize,
        cases: &[Case],
        last: usize,
    ) -> Result<(), AllocError> {
        let bodies = bodies_of(alloc, cases)?;
        let (mut begun, mut taken) = (0u64, 0u64);
        for (index, from) in bodies.iter().enumerate() {
            let entrance = selects.saturating_add(index);
            let next = bodies.get(index.saturating_add(1)).copied();
            begun = begun.saturating_add(self.counters.passed(entrance));
            let tried = begun.saturating_sub(taken);
            let selected = self.counters.reached(*from);
            taken = taken.saturating_add(selected);
            self.add_guarded(Arm {
                entrance,
                body: Stretch {
                    from: *from,
                    to: next.unwrap_or(last),
                },
                tried,
                selected: Some(selected),
            })?;
        }
        Ok(())
    }

    /// Adds an alternative whose code ends with a `Commit`.
    fn add_guarded(&mut self, arm: Arm) -> Result<(), AllocError> {
        let succeeded = self.counters.passed(arm.body.last());
        let entrance = Stretch {
            from: arm.entrance,
            to: arm.entrance.saturating_add(1),
        };
        let own = self.counters.rules_of(entrance);
        let rules = own.saturating_add(self.counters.rules_of(arm.body));
        self.committed = self.committed.saturating_add(succeeded);
        self.push(arm, succeeded, rules)
    }

    /// Adds the last alternative, whose code ends with that of the definition.
    fn add_last(&mut self, body: Stretch) -> Result<(), AllocError> {
        let ended = self.counters.passed(body.last());
        let arm = Arm {
            entrance: body.from,
            body,
            tried: self.counters.reached(body.from),
            selected: None,
        };
        let rules = self.counters.rules_of(body);
        self.push(arm, ended.saturating_sub(self.committed), rules)
    }

    /// Adds an alternative that succeeded this number of times and took this number of rules.
    fn push(&mut self, arm: Arm, succeeded: u64, rules: u64) -> Result<(), AllocError> {
        let number = self.found.len();
        let offset = self.heads.get(number).copied().unwrap_or(0);
        let matched = self.matched(arm.body);
        let counts = AlternativeCounts {
            number,
            offset: usize::try_from(offset).unwrap_or(0),
            start: arm.body.from,
            tried: arm.tried,
            selected: arm.selected,
            matched,
            succeeded,
            unfinished: self.counters.unfinished_in(arm.body),
            rules,
        };
        self.found.push(counts)?;
        Ok(())
    }

    /// Returns how often the match succeeded with which the code begins, if it begins with one that can fail.
    fn matched(&self, body: Stretch) -> Option<u64> {
        let code = self.counters.code;
        let address = first_match(code, body.from, body.to, self.parameters)?;
        Some(self.counters.passed(address))
    }
}

/// Returns the addresses of the bodies of these cases, in order. Neighbouring cases may have one body.
fn bodies_of(alloc: Global, cases: &[Case]) -> Result<Vec<usize>, AllocError> {
    let mut bodies = Vec::new(alloc);
    for case in cases {
        if bodies.last().copied() != Some(case.body) {
            bodies.push(case.body)?;
        }
    }
    Ok(bodies)
}
