//! The calls that fail first.
//!
//! Nothing is kept of the calls that have not ended, since a deep recursion has many of them. One run says at which steps calls fail, and
//! how many records there are then. Of all calls that begin with so many records, the one that fails is the last one before that step: so
//! a second run says the numbers of the calls.
use std::alloc::{AllocError, Global};

/// A call that fails.
#[derive(Clone, Copy, Debug, PartialEq, Eq, PartialOrd, Ord)]
struct FailedCall {
    /// How many records there are with that of the call.
    height: usize,
    /// How many steps come before the one that takes its record off.
    steps: u64,
    /// How many calls began before it, once that is known.
    number: u64,
}

/// The calls that fail first.
#[derive(Drop)]
pub(crate) struct FailedCalls {
    calls: Vec<FailedCall>,
}

impl FailedCalls {
    /// No calls; this takes no memory.
    pub(crate) fn new(alloc: Global) -> FailedCalls {
        FailedCalls {
            calls: Vec::new(alloc),
        }
    }

    /// Adds a call that fails after this number of steps at this height, unless there are `most` calls.
    pub(crate) fn add(&mut self, height: usize, steps: u64, most: usize) -> Result<(), AllocError> {
        if self.calls.len() < most {
            self.calls.push(FailedCall {
                height,
                steps,
                number: 0,
            })?;
        }
        Ok(())
    }

    /// Sorts the calls by their heights and, for each height, in the order in which they fail.
    pub(crate) fn sort(&mut self) -> Result<(), AllocError> {
        self.calls.sort()?;
        Ok(())
    }

    /// Notes that a call of this number begins after this number of steps at this height. The calls are sorted.
    pub(crate) fn note_begin(&mut self, height: usize, steps: u64, number: u64) {
        let wanted = (height, steps);
        let index = self
            .calls
            .partition_point(|call| (call.height, call.steps) < wanted);
        if let Some(call) = self.calls.get_mut(index) {
            if call.height == height {
                call.number = number;
            }
        }
    }

    /// Returns the numbers of the calls, in ascending order.
    pub(crate) fn numbers(&self, alloc: Global) -> Result<Vec<u64>, AllocError> {
        let mut numbers = Vec::with_capacity(alloc, self.calls.len())?;
        for call in &self.calls {
            numbers.push(call.number)?;
        }
        numbers.sort()?;
        Ok(numbers)
    }
}
