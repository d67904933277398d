//! Readers and writers of std that fail: what a successful call gives or takes is what the device does, and a call fails only where the
//! device does.
ghost use Rattle.std.specs.Prelude.{◌≤◌};
ghost use Rattle.prim_registry.specs.Entries.{IsHonest};
ghost use Rattle.term_model.specs.Limits.{max_budget};

use crate::transform::pipeline::plain_options;
use keyed_hash::HashKeys;
use linked_list_allocator::LocalHeap;
use prim_registry::{PrimMeaning, Registry, Standard};
use std::alloc::{AllocError, Global};
use std::fs::File;
use std::io::{Read, Write, repeat};
use std::test::Fail;
use str_pipeline::{
    Counted, MAX_BUDGET, Options, Sink, Source, Status, read_all, transform, write_all,
};
use term_model::Fault;

const HELLO: &[u8] = b"hello";

/// What stands in a slice before it is written to.
const BLANK: [u8; 8] = [b'.'; 8];

/// Whether the front of the slice has the first bytes of the text, as many as this, and the rest is as it was.
fn has_front(slice: &[u8], text: &[u8], count: usize) -> bool {
    slice.iter().enumerate().all(|(index, byte)| {
        if index < count {
            text.get(index) == Some(byte)
        } else {
            *byte == b'.'
        }
    })
}

/// Whether two writes of `hello` to the slice take what it has room for, and do not fail.
fn takes_what_fits(room: &mut [u8]) -> bool {
    let (first, second) = (room.len().min(5), room.len().saturating_sub(5).min(5));
    let mut sink = Counted::new(room);
    sink.write(HELLO) == Some(first) && sink.write(HELLO) == Some(second)
}

/// Whether `hello` is written to the slice whole.
fn is_written_whole(room: &mut [u8]) -> bool {
    let mut sink = Counted::new(room);
    write_all(&mut sink, HELLO).is_ok()
}

/// Whether a slice with room for this many bytes, eight at most, takes as many of `hello` by calls, and by the loop over them.
fn is_filled(room: usize) -> bool {
    let room = room.min(8);
    let mut by_calls = BLANK;
    let mut by_the_loop = BLANK;
    takes_what_fits(&mut by_calls[..room])
        && has_front(&by_calls, b"hellohel", room)
        && is_written_whole(&mut by_the_loop[..room]) == (5 <= room)
        && has_front(&by_the_loop, HELLO, room.min(5))
}

#[test]
fn a_slice_without_room(rt: HostRuntime) -> Result<(), Fail> {
    for room in 0..9usize {
        if !is_filled(room) {
            return Err(Fail::new(room));
        }
    }
    Ok(())
}

/// How many writes of `hello` a writer takes before one fails, and a hundred at most.
fn writes_before_a_failure<W: Write>(sink: &mut Counted<W>) -> usize {
    for count in 0..100usize {
        if sink.write(HELLO).is_none() {
            return count;
        }
    }
    100
}

/// How many writes of `hello` a vector takes that has this many bytes of memory. `None` where it does not hold exactly what they took.
fn writes_within(alloc: Global, bytes: usize) -> Result<Option<usize>, AllocError> {
    let heap = LocalHeap::new(alloc, bytes)?;
    let mut sink = Counted::new(Vec::new(&heap));
    let count = writes_before_a_failure(&mut sink);
    let text = sink.into_inner();
    let is_whole = text.len() == count.saturating_mul(5)
        && text.chunks(5).all(|piece| piece == HELLO);
    Ok(if is_whole { Some(count) } else { None })
}

/// Bytes of memory, and whether a vector within them takes all of the writes.
const HEAPS: &[(usize, bool)] = &[(16, false), (128, false), (256, false), (4096, true)];

#[test]
fn a_vector_without_memory(rt: HostRuntime) -> Result<(), Fail> {
    for (bytes, is_all) in HEAPS {
        let Some(count) = writes_within(rt.alloc(), *bytes)? else {
            return Err(Fail::new(bytes));
        };
        if (count == 100) != *is_all {
            return Err(Fail::from((bytes, count)));
        }
    }
    Ok(())
}

/// Whether the reader gives `hello` in two calls, and fails in the next two.
fn fails_after_hello<R: Read + Drop>(device: R) -> bool {
    let mut source = Counted::new(device);
    let mut piece = [b'.'; 8];
    source.read(&mut piece[..3]) == Some(3)
        && source.read(&mut piece[3..]) == Some(2)
        && has_front(&piece, HELLO, 5)
        && source.read(&mut piece).is_none()
        && source.read(&mut piece).is_none()
}

/// Whether reading all that the reader gives fails.
fn fails_to_read<R: Read + Drop>(alloc: Global, device: R) -> bool {
    let mut source = Counted::new(device);
    matches!(read_all(alloc, &mut source, 100), Err(Fault::Read))
}

/// A directory is opened as a file, and each read of it fails.
#[test]
fn a_directory(rt: HostRuntime) -> Result<(), Fail> {
    let folder = File::open(&rt, "/")?;
    if !fails_after_hello(HELLO.chain(&folder)) {
        return Err(Fail::new("a call"));
    }
    if !fails_to_read(rt.alloc(), HELLO.chain(&folder)) {
        return Err(Fail::new("the loop"));
    }
    Ok(())
}

/// What does not show its bytes is read all the same, and does not fail.
#[test]
fn a_reader_that_shows_nothing(rt: HostRuntime) -> Result<(), Fail> {
    let mut source = Counted::new(repeat(b'h').take(5));
    let text = read_all(rt.alloc(), &mut source, 5)?;
    if !text.is_some_and(|bytes| bytes.as_slice() == b"hhhhh".as_slice()) {
        return Err(Fail::new("another text"));
    }
    Ok(())
}

const DEFINITIONS: &[u8] = b"strategies main = ?(x,_); !x";

const PAIR: &[u8] = b"(f(1),7)";

const LINE: &[u8] = b"f(1)\n";

/// Transforms the pair, and writes to this device.
fn write_line<W: Write + Drop>(
    alloc: Global,
    device: W,
    options: &Options,
    registry: &Registry<Standard>,
) -> Result<Status, Fault>
    requires budget { options.now.budget ≤ max_budget }
    requires honest { IsHonest ⟦<Standard as PrimMeaning>⟧.answer registry.now }
{
    let mut definitions = Counted::new(DEFINITIONS);
    let mut term = Counted::new(PAIR);
    let mut out = Counted::new(device);
    transform(
        alloc,
        HashKeys::known(),
        &mut definitions,
        &mut term,
        options,
        registry,
        &mut out,
    )
}

/// Whether a slice with room for this many bytes, eight at most, has as many of the line after a run, which ends with the fault `Write` where
/// these are not all.
fn is_cut(alloc: Global, room: usize, options: &Options, registry: &Registry<Standard>) -> bool
    requires budget { options.now.budget ≤ max_budget }
    requires honest { IsHonest ⟦<Standard as PrimMeaning>⟧.answer registry.now }
{
    let room = room.min(8);
    let mut slice = BLANK;
    let answer = write_line(alloc, &mut slice[..room], options, registry);
    let is_right = match answer {
        Ok(status) => matches!(status, Status::Rewritten) && 5 <= room,
        Err(fault) => matches!(fault, Fault::Write) && room < 5,
    };
    is_right && has_front(&slice, LINE, room.min(5))
}

#[test]
fn a_line_without_room(rt: HostRuntime) -> Result<(), Fail> {
    let options = plain_options(rt.alloc(), MAX_BUDGET)?;
    let registry = Registry::<Standard>::new(rt.alloc());
    for room in 0..9usize {
        if !is_cut(rt.alloc(), room, &options, &registry) {
            return Err(Fail::new(room));
        }
    }
    Ok(())
}

/// Whether a run ends with the fault `Read`, and writes nothing, where this reader comes after the front of the definitions.
fn is_read_fault<R: Read + Drop>(
    alloc: Global,
    device: R,
    options: &Options,
    registry: &Registry<Standard>,
) -> bool
    requires budget { options.now.budget ≤ max_budget }
    requires honest { IsHonest ⟦<Standard as PrimMeaning>⟧.answer registry.now }
{
    let mut slice = BLANK;
    let mut definitions = Counted::new(device);
    let mut term = Counted::new(PAIR);
    let mut out = Counted::new(&mut slice[..]);
    let answer = transform(
        alloc,
        HashKeys::known(),
        &mut definitions,
        &mut term,
        options,
        registry,
        &mut out,
    );
    matches!(answer, Err(Fault::Read)) && has_front(&slice, LINE, 0)
}

#[test]
fn definitions_in_a_directory(rt: HostRuntime) -> Result<(), Fail> {
    let options = plain_options(rt.alloc(), MAX_BUDGET)?;
    let registry = Registry::<Standard>::new(rt.alloc());
    let folder = File::open(&rt, "/")?;
    if !is_read_fault(rt.alloc(), DEFINITIONS.chain(&folder), &options, &registry) {
        return Err(Fail::new("another ending"));
    }
    Ok(())
}
