//! Texts put at each place between two tokens of valid files, and at both ends.
use super::files;
use super::readings::{Reading, reading_of, text};
use super::words::{Word, words};
use std::alloc::{AllocError, Global};
use std::test::Fail;

/// After each of these the file is as before.
const GAPS: &[&[u8]] = &[
    b"\r\n",
    b"\t\r",
    b"/* /* \" # module \n */",
    b"// /* \" # module */\r\n",
    b"/***/",
];

/// At each of these there is no token, this many bytes after its beginning.
const FAULTS: &[(&[u8], u64)] = &[
    (b"/* ", 0),
    (b"/*/ ", 0),
    (b"/* /* */ */", 10),
    (b"\"\n\"", 0),
    (b"\"\\8\"", 0),
    (b"\xc3\xa9", 0),
    (b"_\x80", 1),
    (b"9223372036854775808", 0),
    (b"x -9223372036854775809", 2),
];

/// At each of these there is no token, this many bytes after its beginning, if nothing stands after it.
const ENDS: &[(&[u8], u64)] = &[(b"/* *", 0), (b"\"a", 0), (b"\"a\\\"", 0), (b"x-1 /", 4)];

/// The words of this front, this text, and then the words of this back.
fn text_with(alloc: Global, front: &str, put: &[u8], back: &str) -> Result<Vec<u8>, AllocError> {
    let mut joined = front.as_bytes().to_vec(alloc)?;
    joined.extend_from_slice(put)?;
    joined.extend_from_slice(b" ")?;
    joined.extend_from_slice(back.as_bytes())?;
    Ok(joined)
}

/// Fails with the front where the text between is not read so.
fn expect(
    alloc: Global,
    front: &str,
    put: &[u8],
    back: &str,
    expected: Reading,
) -> Result<(), Fail> {
    let joined = text_with(alloc, front, put, back)?;
    if reading_of(alloc, &joined) != expected {
        return Err(Fail::new(front));
    }
    Ok(())
}

/// Tries all texts between these.
fn try_place(alloc: Global, front: &str, back: &str) -> Result<(), Fail> {
    let at = front.len() as u64;
    for put in GAPS {
        expect(alloc, front, put, back, Reading::File)?;
    }
    for (put, place) in FAULTS {
        let fault = Reading::Lexical(at.saturating_add(*place));
        expect(alloc, front, put, back, fault)?;
    }
    for (put, place) in ENDS {
        let fault = Reading::Lexical(at.saturating_add(*place));
        expect(alloc, front, put, "", fault)?;
    }
    Ok(())
}

/// Tries all texts between these words.
fn try_words(alloc: Global, front: &[Word<'_>], back: &[Word<'_>]) -> Result<(), Fail> {
    let front = text(alloc, front)?;
    let back = text(alloc, back)?;
    try_place(alloc, front.as_str(), back.as_str())
}

/// Tries each place between two of the words, and both ends.
fn try_places(alloc: Global, words: &[Word<'_>]) -> Result<(), Fail> {
    for number in 0..words.len() {
        let (front, back) = words.split_at(number);
        try_words(alloc, front, back)?;
    }
    try_words(alloc, words, &[])
}

#[test]
fn texts_between_any_two_tokens(rt: HostRuntime) -> Result<(), Fail> {
    let words = words(rt.alloc(), files::FORMS)?;
    try_places(rt.alloc(), &words)
}
