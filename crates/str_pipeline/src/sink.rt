//! What is written to.
ghost use Rattle.std.specs.Prelude.{◌≡◌, ◌+◌, ◌≤◌, Option, length, is_err, IfSome, IfErr, OnOk, if◌then◌else◌};
ghost use Rattle.str_pipeline.specs.Device.{Writer, Gains, GainsPrefix};
ghost use Rattle.str_pipeline.specs.Transfer.{WritesFront, is_failed_write};

use std::io::ErrorKind;
use term_model::Fault;

/// A writer. A call that returns `None` failed.
pub trait Sink {
    /// The bytes written so far, where the device shows them, how many writes it has had, how many of them failed, or took no byte of a
    /// text that is not empty, and whether the last of these failed since nobody reads any more what is written.
    ghost writer: { Writer Self };

    /// Takes the first bytes of `text` and returns their number.
    fn write(&mut self, text: &[u8]) -> Option<usize>
        ensures bound { IfSome result (λ n. n ≤ length text.now) }
        ensures bytes { WritesFront (writer.written self.old)
            (writer.written self.new) result text.now }
        ensures writes { writer.writes self.new ≡ writer.writes self.old + 1 }
        ensures failed { writer.failed_writes self.new ≡ writer.failed_writes self.old +
            (if is_failed_write result text.now then 1 else 0) };

    /// Returns whether the last failed write failed since nobody reads any more what is written, as where the program at the other end of a
    /// pipe has ended.
    fn is_closed(&self) -> bool
        ensures { result ≡ writer.is_closed self.now };

    /// Why the last failed write failed, for a person; nothing where none failed, or where the device does not know. No clause speaks
    /// of it.
    fn failure(&self) -> Option<ErrorKind> {
        None
    }
}

/// Writes the whole text. The fault is `Write`, where a write failed or took no byte; what was
/// written by then is a prefix of the text.
#[tactic(auto, using(crate::proofs::DeviceLemmas::gains_more))]
pub fn write_all<W: Sink>(sink: &mut W, text: &[u8]) -> Result<(), Fault>
    ensures whole { OnOk result (Gains (W.writer.written sink.old)
        (W.writer.written sink.new) text.now) }
    ensures prefix { GainsPrefix (W.writer.written sink.old) (W.writer.written sink.new) text.now }
    ensures failed { W.writer.failed_writes sink.new ≡ W.writer.failed_writes sink.old +
        (if is_err result then 1 else 0) }
    ensures kinds { IfErr result (λ e. e ≡ Fault.Write) }
{
    let mut sent = 0;
    while sent < text.len() {
        let Some(count) = sink.write(&text[sent..]) else {
            return Err(Fault::Write);
        };
        if count == 0 {
            return Err(Fault::Write);
        }
        sent += count;
    }
    Ok(())
}
