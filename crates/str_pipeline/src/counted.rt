//! Devices of std.
ghost use Rattle.std.specs.Prelude.{◌≡◌};
ghost use Rattle.str_pipeline.specs.Asked.{device_of, calls_of, failures_of, is_broken};

use crate::sink::Sink;
use crate::source::Source;
use crate::tally::Count;
use std::io::{ErrorKind, Read, Write};

/// A reader or a writer of std. It shows the bytes that the device shows: those of a slice or a vector, and none of a file,
/// a terminal or a standard stream. Any error is a failed call, and the kind of the last one is kept.
#[derive(Drop)]
pub struct Counted<D> {
    device: D,
    calls: Count,
    failed: Count,
    failure: Option<ErrorKind>,
    /// Whether the last failed call was a write into a pipe that nobody reads any more.
    is_broken_pipe: bool,
}

impl<D> Counted<D> {
    /// Makes a reader or a writer of the device, with no call counted yet.
    pub fn new(device: D) -> Counted<D>
        ensures device { device_of result ≡ device }
        ensures calls { calls_of result ≡ 0 }
        ensures failures { failures_of result ≡ 0 }
    {
        Counted {
            device,
            calls: Count::new(),
            failed: Count::new(),
            failure: None,
            is_broken_pipe: false,
        }
    }

    /// Returns the device.
    pub fn into_inner(self) -> D
        ensures { result ≡ device_of self }
    {
        self.device
    }
}

impl<D: Read> Source for Counted<D> {
    ghost reader = { record {
      coming = λ c. D.remaining (device_of c);
      reads = λ c. calls_of c;
      failed_reads = λ c. failures_of c;
    } };

    fn read(&mut self, piece: &mut [u8]) -> Option<usize> {
        self.calls.step();
        match self.device.read(piece) {
            Ok(count) => Some(count),
            Err(error) => {
                self.failed.step();
                self.failure = Some(error.kind());
                None
            }
        }
    }

    fn failure(&self) -> Option<ErrorKind> {
        self.failure
    }
}

impl<D: Write> Sink for Counted<D> {
    ghost writer = { record {
      written = λ c. D.contents (device_of c);
      writes = λ c. calls_of c;
      failed_writes = λ c. failures_of c;
      is_closed = λ c. is_broken c;
    } };

    fn write(&mut self, text: &[u8]) -> Option<usize> {
        self.calls.step();
        match self.device.write(text) {
            Ok(count) => {
                if count == 0 && !text.is_empty() {
                    self.failed.step();
                    self.failure = Some(ErrorKind::WriteZero);
                    self.is_broken_pipe = false;
                }
                Some(count)
            }
            Err(error) => {
                self.failed.step();
                let kind = error.kind();
                self.failure = Some(kind);
                self.is_broken_pipe = kind == ErrorKind::BrokenPipe;
                None
            }
        }
    }

    fn is_closed(&self) -> bool {
        self.is_broken_pipe
    }

    fn failure(&self) -> Option<ErrorKind> {
        self.failure
    }
}
