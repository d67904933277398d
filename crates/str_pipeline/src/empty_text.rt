//! A text without bytes.
ghost use Rattle.std.specs.Prelude.{◌≡◌, Some, []};
ghost use Rattle.str_pipeline.specs.Asked.{reads_of};

use crate::source::Source;
use crate::tally::Count;

/// A reader of a text without bytes.
#[derive(Drop)]
pub struct EmptyText {
    calls: Count,
}

impl EmptyText {
    /// Makes a text without bytes, with no call counted yet.
    pub fn new() -> EmptyText
        ensures { reads_of result ≡ 0 }
    {
        EmptyText {
            calls: Count::new(),
        }
    }
}

impl Source for EmptyText {
    ghost reader = { record {
      coming = λ e. Some [];
      reads = λ e. reads_of e;
      failed_reads = λ e. 0;
    } };

    fn read(&mut self, _piece: &mut [u8]) -> Option<usize> {
        self.calls.step();
        Some(0)
    }
}
