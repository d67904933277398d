//! Devices and the loops over them.
use linked_list_allocator::LocalHeap;
use std::alloc::{AllocError, Global};
use std::test::Fail;
use str_pipeline::{Counted, Faulty, Sink, Source, read_all, write_all};
use term_model::Fault;

const HELLO: &[u8] = b"hello";

/// A limit, the bytes of a call, the first bad call, and whether all of `hello` is read, or nothing since it is longer than the limit.
const READS: &[(usize, usize, Option<u64>, bool)] = &[
    (5, 2, None, true),
    (4, 2, None, false),
    (4, 9, Some(2), false),
    (9, 1, Some(7), true),
];

/// A reader of `hello`. A call reads a byte at least, and calls are counted from 1 on.
fn reader(alloc: Global, piece: usize, bad: Option<u64>) -> Result<Faulty, AllocError> {
    let bad = match bad {
        Some(call) => Some(call.max(1)),
        None => None,
    };
    Ok(Faulty::reader(HELLO.to_vec(alloc)?, piece.max(1), bad))
}

/// Whether all is read, or nothing where it is longer than the limit.
fn is_read(alloc: Global, reader: Faulty, limit: usize, is_whole: bool) -> Result<bool, Fault> {
    let mut reader = reader;
    match read_all(alloc, &mut reader, limit)? {
        Some(bytes) => Ok(is_whole && bytes.as_slice() == HELLO),
        None => Ok(!is_whole),
    }
}

#[test]
fn reads_in_pieces(rt: HostRuntime) -> Result<(), Fail> {
    for (limit, piece, bad, is_whole) in READS {
        let reader = reader(rt.alloc(), *piece, *bad)?;
        if !is_read(rt.alloc(), reader, *limit, *is_whole)? {
            return Err(Fail::from((limit, piece)));
        }
    }
    Ok(())
}

/// Whether reading fails where this call does.
fn fails_at(alloc: Global, bad: u64) -> Result<bool, AllocError> {
    let mut reader = reader(alloc, 1, Some(bad))?;
    Ok(matches!(read_all(alloc, &mut reader, 9), Err(Fault::Read)))
}

#[test]
fn a_read_that_fails(rt: HostRuntime) -> Result<(), Fail> {
    for bad in 1..7u64 {
        if !fails_at(rt.alloc(), bad)? {
            return Err(Fail::new(bad));
        }
    }
    Ok(())
}

#[test]
fn reads_a_slice(rt: HostRuntime) -> Result<(), Fail> {
    let mut source = Counted::new(b"abc".as_slice());
    let text = read_all(rt.alloc(), &mut source, 5)?;
    if !text.is_some_and(|bytes| bytes.as_slice() == b"abc".as_slice()) {
        return Err(Fail::new("abc"));
    }
    Ok(())
}

/// The room of a writer, the bytes of a call, the first bad call, whether that is silent, and what is written of `F(1)`.
const WRITES: &[(usize, usize, Option<u64>, bool, &[u8])] = &[
    (9, 1, None, false, b"F(1)"),
    (4, 3, None, false, b"F(1)"),
    (9, 1, Some(3), false, b"F("),
    (9, 3, Some(2), true, b"F(1"),
    (2, 9, None, false, b"F("),
    (0, 9, None, false, b""),
];

/// A writer. A call writes a byte at least, and calls are counted from 1 on.
fn writer(
    alloc: Global,
    room: usize,
    piece: usize,
    bad: Option<u64>,
    is_silent: bool,
) -> Result<Faulty, AllocError> {
    let bad = match bad {
        Some(call) => Some(call.max(1)),
        None => None,
    };
    Faulty::writer(alloc, room, piece.max(1), bad, is_silent)
}

/// Whether this is written of `F(1)`, and that is all of it exactly where the loop does not fail.
fn is_written(writer: Faulty, written: &[u8]) -> bool {
    let mut writer = writer;
    let is_whole = write_all(&mut writer, b"F(1)").is_ok();
    writer.written() == written && is_whole == (written.len() == 4)
}

#[test]
fn writes_a_prefix(rt: HostRuntime) -> Result<(), Fail> {
    for (room, piece, bad, is_silent, written) in WRITES {
        let writer = writer(rt.alloc(), *room, *piece, *bad, *is_silent)?;
        if !is_written(writer, written) {
            return Err(Fail::from((room, piece)));
        }
    }
    Ok(())
}

#[test]
fn writes_to_a_vector(rt: HostRuntime) -> Result<(), Fail> {
    let mut sink = Counted::new(Vec::new(rt.alloc()));
    if sink.write(b"abc") != Some(3) {
        return Err(Fail::new("abc"));
    }
    Ok(())
}

const HELLOS: &[u8] = b"hello hello hello hello hello hello";

/// Whether reading takes more than these bytes of memory. Where it does not, all is read.
fn is_refused(alloc: Global, bytes: usize) -> Result<bool, Fail> {
    let heap = LocalHeap::new(alloc, bytes)?;
    let mut reader = Faulty::reader(HELLOS.to_vec(alloc)?, 2, None);
    match read_all(&heap, &mut reader, 100) {
        Ok(Some(text)) if text.as_slice() == HELLOS => Ok(false),
        Err(Fault::Memory) => Ok(true),
        _ => Err(Fail::new("another answer")),
    }
}

#[test]
fn refuses_each_growth(rt: HostRuntime) -> Result<(), Fail> {
    let mut refused = 0u32;
    for units in 1..40usize {
        if is_refused(rt.alloc(), units * 16)? {
            refused = refused.saturating_add(1);
        }
    }
    if refused == 0 || refused >= 39 {
        return Err(Fail::new(refused));
    }
    Ok(())
}
