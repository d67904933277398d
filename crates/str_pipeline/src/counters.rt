//! What a run did, by the instructions of its code.

use strat_code::Code;
use strat_machine::Account;

/// Instructions that stand together: from one address up to another.
#[derive(Clone, Copy, Debug, PartialEq, Eq)]
pub(crate) struct Stretch {
    pub(crate) from: usize,
    pub(crate) to: usize,
}

impl Stretch {
    /// Returns the address of its last instruction.
    pub(crate) fn last(self) -> usize {
        self.to.saturating_sub(1)
    }
}

/// What each instruction of the code did in a run.
#[derive(Clone, Copy)]
pub(crate) struct Counters<'a> {
    pub(crate) code: &'a Code,
    pub(crate) account: &'a Account,
}

impl<'a> Counters<'a> {
    /// Returns how often the instruction at an address was the next one.
    pub(crate) fn reached(self, address: usize) -> u64 {
        self.account.reached.get(address).copied().unwrap_or(0)
    }

    /// Returns how often the instruction at an address neither failed nor ended the run.
    pub(crate) fn passed(self, address: usize) -> u64 {
        self.account.passed.get(address).copied().unwrap_or(0)
    }

    /// Returns how many calls of definitions had not ended in these instructions when the run had.
    pub(crate) fn unfinished_in(self, stretch: Stretch) -> u64 {
        sum_of(&self.account.unfinished, stretch)
    }

    /// Returns how many rules these instructions were charged.
    pub(crate) fn rules_of(self, stretch: Stretch) -> u64 {
        sum_of(&self.account.rules, stretch)
    }

    /// Returns how many steps these instructions took.
    pub(crate) fn steps_of(self, stretch: Stretch) -> u64 {
        sum_of(&self.account.reached, stretch)
    }

    /// Returns how many rules all instructions were charged.
    pub(crate) fn all_rules(self) -> u64 {
        self.rules_of(Stretch {
            from: 0,
            to: self.code.len(),
        })
    }
}

/// Returns the sum of the numbers at these addresses.
fn sum_of(numbers: &[u64], stretch: Stretch) -> u64 {
    let mut sum: u64 = 0;
    for address in stretch.from..stretch.to.min(numbers.len()) {
        sum = sum.saturating_add(numbers[address]);
    }
    sum
}
