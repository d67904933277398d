//! What the calls of a device in memory do.
ghost use Rattle.std.specs.Prelude.{◌≡◌, ◌+◌, ◌-◌, ◌<◌, ◌≤◌, [], None, Some, length, min, true, false, is_none, if◌then◌else◌, IfOk, IfSome};
ghost use Rattle.str_pipeline.specs.Transfer.{ReadsFront, WritesFront, is_failed_write};
ghost use Rattle.str_pipeline.specs.Asked.{orders_of, is_bad_call, bytes_coming, bytes_written, call_count, failure_count};

use crate::faulty::Faulty;
use crate::sink::Sink;
use crate::source::Source;
use crate::tally::{Calls, Count};
use std::alloc::{AllocError, Global};

impl Faulty {
    /// Makes a reader of these bytes.
    pub fn reader(bytes: Vec<u8>, piece: usize, bad: Option<u64>) -> Faulty
        requires piece { 1 ≤ piece }
        requires bad { IfSome bad (λ n. 1 ≤ n) }
        ensures orders { orders_of result ≡
            record { piece = piece; bad = bad; is_silent = false; room = 0 } }
        ensures coming { ⟦<Faulty as Source>⟧.reader.coming result ≡ Some bytes.items }
        ensures reads { ⟦<Faulty as Source>⟧.reader.reads result ≡ 0 }
        ensures failed { ⟦<Faulty as Source>⟧.reader.failed_reads result ≡ 0 }
    {
        Faulty {
            bytes,
            taken: 0,
            room: 0,
            piece,
            bad,
            is_silent: false,
            calls: Calls::new(),
            failed: Count::new(),
        }
    }

    /// Makes a writer with room for this number of bytes, all reserved. A write into a full one fails, but an empty
    /// one takes nothing there. An error is a refused growth.
    pub fn writer(
        alloc: Global,
        room: usize,
        piece: usize,
        bad: Option<u64>,
        silent: bool,
    ) -> Result<Faulty, AllocError>
        requires piece { 1 ≤ piece }
        requires bad { IfSome bad (λ n. 1 ≤ n) }
        ensures orders { IfOk result (λ w. orders_of w ≡
            record { piece = piece; bad = bad; is_silent = silent; room = room }) }
        ensures written { IfOk result (λ w. ⟦<Faulty as Sink>⟧.writer.written w ≡ Some []) }
        ensures writes { IfOk result (λ w. ⟦<Faulty as Sink>⟧.writer.writes w ≡ 0) }
        ensures failed { IfOk result (λ w. ⟦<Faulty as Sink>⟧.writer.failed_writes w ≡ 0) }
    {
        Ok(Faulty {
            bytes: Vec::with_capacity(alloc, room)?,
            taken: 0,
            room,
            piece,
            bad,
            is_silent: silent,
            calls: Calls::new(),
            failed: Count::new(),
        })
    }

    /// Returns what was written so far.
    pub fn written(&self) -> &[u8]
        ensures { ⟦<Faulty as Sink>⟧.writer.written self.now ≡ Some result.now }
    {
        self.bytes.as_slice()
    }

    /// Counts one more call, and returns whether it is a bad one.
    fn begins_badly(&mut self) -> bool
        ensures bad { result ≡ is_bad_call (orders_of self.old) (call_count self.old + 1) }
        ensures counted { call_count self.new ≡ call_count self.old + 1 }
        ensures orders { orders_of self.new ≡ orders_of self.old }
        ensures coming { bytes_coming self.new ≡ bytes_coming self.old }
        ensures written { bytes_written self.new ≡ bytes_written self.old }
        ensures failed { failure_count self.new ≡ failure_count self.old }
    {
        self.calls.step();
        match self.bad {
            None => false,
            Some(first) => self.calls.has_reached(first),
        }
    }

    /// Returns what a bad write does.
    fn refuse(&mut self, text: &[u8]) -> Option<usize>
        ensures answer { result ≡ (if (orders_of self.old).is_silent then Some 0 else None) }
        ensures counted { call_count self.new ≡ call_count self.old }
        ensures orders { orders_of self.new ≡ orders_of self.old }
        ensures written { bytes_written self.new ≡ bytes_written self.old }
        ensures failed { failure_count self.new ≡ failure_count self.old +
            (if is_failed_write result text.now then 1 else 0) }
    {
        if !self.is_silent {
            self.failed.step();
            return None;
        }
        if !text.is_empty() {
            self.failed.step();
        }
        Some(0)
    }
}

impl Source for Faulty {
    ghost reader = { record {
      coming = λ f. Some (bytes_coming f);
      reads = λ f. call_count f;
      failed_reads = λ f. failure_count f;
    } };

    /// A bad call fails. Each other one moves as many bytes as `self`'s piece, the slice and what
    /// is left allow.
    fn read(&mut self, piece: &mut [u8]) -> Option<usize>
        ensures bound { IfSome result (λ n. n ≤ length piece.new) }
        ensures bytes { ReadsFront (Some (bytes_coming self.old)) (Some (bytes_coming self.new))
            result piece.new }
        ensures reads { call_count self.new ≡ call_count self.old + 1 }
        ensures failed { failure_count self.new ≡ failure_count self.old +
            (if is_none result then 1 else 0) }
        ensures orders { orders_of self.new ≡ orders_of self.old }
        ensures answer { result ≡ (if is_bad_call (orders_of self.old) (call_count self.new)
            then None
            else Some (min (length piece.new)
            (min (orders_of self.old).piece (length (bytes_coming self.old))))) }
    {
        if self.begins_badly() {
            self.failed.step();
            return None;
        }
        let left = &self.bytes[self.taken..];
        let count = piece.len().min(self.piece.min(left.len()));
        piece[..count].copy_from_slice(&left[..count]);
        self.taken += count;
        Some(count)
    }
}

impl Sink for Faulty {
    ghost writer = { record {
      written = λ f. Some (bytes_written f);
      writes = λ f. call_count f;
      failed_writes = λ f. failure_count f;
      is_closed = λ f. false;
    } };

    /// A bad call fails, or takes nothing where `self` is silent. Of the others one into a full
    /// writer fails unless the text is empty, and each other one takes as many bytes as `self`'s
    /// piece and the room allow.
    fn write(&mut self, text: &[u8]) -> Option<usize>
        ensures bound { IfSome result (λ n. n ≤ length text.now) }
        ensures bytes { WritesFront (Some (bytes_written self.old)) (Some (bytes_written self.new))
            result text.now }
        ensures writes { call_count self.new ≡ call_count self.old + 1 }
        ensures failed { failure_count self.new ≡ failure_count self.old +
            (if is_failed_write result text.now then 1 else 0) }
        ensures orders { orders_of self.new ≡ orders_of self.old }
        ensures bad { is_bad_call (orders_of self.old) (call_count self.new) ≡ true →
            result ≡ (if (orders_of self.old).is_silent then Some 0 else None) }
        ensures full { is_bad_call (orders_of self.old) (call_count self.new) ≡ false →
            0 < length text.now →
            (orders_of self.old).room ≤ length (bytes_written self.old) → result ≡ None }
        ensures good { is_bad_call (orders_of self.old) (call_count self.new) ≡ false →
            length (bytes_written self.old) < (orders_of self.old).room →
            result ≡ Some (min (length text.now)
            (min (orders_of self.old).piece
            ((orders_of self.old).room - length (bytes_written self.old)))) }
    {
        if self.begins_badly() {
            return self.refuse(text);
        }
        let free = self.room.saturating_sub(self.bytes.len());
        if free == 0 && !text.is_empty() {
            self.failed.step();
            return None;
        }
        let count = text.len().min(self.piece.min(free));
        if self.bytes.extend_from_slice(&text[..count]).is_err() {
            self.failed.step();
            return None;
        }
        Some(count)
    }

    fn is_closed(&self) -> bool {
        false
    }
}
