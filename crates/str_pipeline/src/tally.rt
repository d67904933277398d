//! Numbers of calls.
ghost use Rattle.std.specs.Prelude.{◌≡◌, ◌+◌, ◌-◌, ◌^◌, ◌≤◌, ◌↔◌, ℕ, IsTrue, min};
ghost use Rattle.std.specs.Borrow.{ftrue};

use std::marker::{Model, PhantomData};

/// A number that starts at 0 and goes up by 1. Clauses alone read it, so it takes no memory and
/// has no limit.
#[derive(Drop)]
pub struct Count {
    marker: PhantomData<u8>,
    pub ghost number: { ℕ },
}

impl Model for Count {
    ghost also_owns = { λ _. ftrue };
}

impl Count {
    /// A number that is 0.
    pub fn new() -> Count
        ensures { result.number ≡ 0 }
    {
        Count {
            marker: PhantomData,
        }
    }

    /// Adds 1.
    pub fn step(&mut self)
        ensures { self.new.number ≡ self.old.number + 1 }
    {}
}

/// A number of calls that the program can compare: beside the count it keeps the greatest `u64`
/// that the count has reached.
#[derive(Drop)]
pub(crate) struct Calls {
    count: Count,
    reached: u64,
    ghost counted: { reached ≡ min count.number (2 ^ 64 - 1) },
}

impl Calls {
    pub(crate) fn new() -> Calls
        ensures { result.count.number ≡ 0 }
    {
        Calls {
            count: Count::new(),
            reached: 0,
        }
    }

    pub(crate) fn step(&mut self)
        ensures { self.new.count.number ≡ self.old.count.number + 1 }
    {
        self.count.step();
        self.reached = self.reached.saturating_add(1);
    }

    /// Whether there were at least this number of calls.
    pub(crate) fn has_reached(&self, number: u64) -> bool
        ensures { IsTrue result ↔ (number ≤ self.now.count.number) }
    {
        number <= self.reached
    }
}
