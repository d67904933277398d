//! Reading and writing of terms; what is expected was worked out by hand.
use aterm_text::{read_term, text_len, write_term};
use std::alloc::{AllocError, Global};
use std::test::Fail;
use term_model::{Fault, Term};

/// Texts that spell terms, and the canonical text of each.
const SPELLINGS: &[(&[u8], &[u8])] = &[
    (
        b" f ( 007 , \"a\\\"b\" , g() ) { x }",
        b"f(7,\"a\\\"b\",g){x}",
    ),
    (b"\"\\011\\101\\377\\000\"", b"\"\\tA\xff\\000\""),
    (
        b"\"\\n\\r\\\\\\177\\037 \\n\"",
        b"\"\\n\\r\\\\\\177\\037 \\n\"",
    ),
    (b"\"f\" ( \"\"{} )", b"\"f\"(\"\")"),
    (b"-0", b"0"),
    (b"( -00012 )\n", b"(-12)"),
    (b" [ ( ) , x-+*$9 ( ) ]{}", b"[(),x-+*$9]"),
    (
        b"9223372036854775807{-9223372036854775808}",
        b"9223372036854775807{-9223372036854775808}",
    ),
    (b"_(_,[[]]){a,b(c){d}}", b"_(_,[[]]){a,b(c){d}}"),
];

/// Whether this is what is written of the term after a first byte. A vector that is refused memory stays as it was, and is written to once
/// more.
fn is_appended(term: &Term, out: &mut Vec<u8>, canonical: &[u8]) -> Result<bool, AllocError> {
    if write_term(term, out).is_err() {
        if out[..] != b">"[..] {
            return Ok(false);
        }
        write_term(term, out)?;
    }
    Ok(out.strip_prefix(b">") == Some(canonical))
}

/// Whether this is what is written of the term after what was written before, and the length is known without writing.
fn is_written(alloc: Global, term: &Term, canonical: &[u8]) -> Result<bool, AllocError> {
    let mut out = b">".to_vec(alloc)?;
    Ok(is_appended(term, &mut out, canonical)? && text_len(term) == canonical.len() as u64)
}

/// Whether the text spells a term with this canonical text.
fn spells(alloc: Global, text: &[u8], canonical: &[u8]) -> Result<bool, Fault> {
    let term = read_term(alloc, text)?;
    Ok(is_written(alloc, &term, canonical)?)
}

#[test]
fn canonical_texts(rt: HostRuntime) -> Result<(), Fail> {
    for (text, canonical) in SPELLINGS {
        if !spells(rt.alloc(), text, canonical)? {
            return Err(Fail::new(text.escape_ascii()));
        }
    }
    Ok(())
}

#[test]
fn measures_of_a_term(rt: HostRuntime) -> Result<(), Fail> {
    let term = read_term(rt.alloc(), SPELLINGS[0].0)?;
    if text_len(&term) != 16 || term.weight() != 11 || term.depth() != 2 {
        return Err(Fail::new("the first spelling"));
    }
    Ok(())
}

/// Texts that spell no term, and the byte at which each is refused.
const REFUSALS: &[(&[u8], u64)] = &[
    (b"F(1", 3),
    (b"1.5", 1),
    (b"F(1) 2", 5),
    (b"", 0),
    (b" \n", 2),
    (b"t{a}{b}", 4),
    (b"9223372036854775808", 18),
    (b"-9223372036854775809", 19),
    (b"18446744073709551617", 19),
    (b"-", 1),
    (b"- 1", 1),
    (b"+1", 0),
    (b"f(1,)", 4),
    (b"f(,1)", 2),
    (b"[1)", 2),
    (b"(1 2)", 3),
    (b"\"a\nb\"", 2),
    (b"\"\\400\"", 2),
    (b"\"\\18\"", 3),
    (b"\"\\a\"", 2),
    (b"\"\\", 2),
    (b"\"\\1", 3),
    (b"\"\\12", 4),
    (b"\"a\" \"b\"", 4),
];

/// Whether the text is refused at this byte, since it spells no term.
fn is_no_term(alloc: Global, text: &[u8], place: u64) -> bool {
    matches!(read_term(alloc, text), Err(Fault::TermSyntax { at }) if at == place)
}

/// Whether the text is refused at this byte, since the term would be oversize.
fn is_oversize(alloc: Global, text: &[u8], place: u64) -> bool {
    matches!(read_term(alloc, text), Err(Fault::TermOversize { at }) if at == place)
}

#[test]
fn refusals(rt: HostRuntime) -> Result<(), Fail> {
    for (text, place) in REFUSALS {
        if !is_no_term(rt.alloc(), text, *place) {
            return Err(Fail::new(text.escape_ascii()));
        }
    }
    Ok(())
}

/// A text of 30 bytes, some of whose fronts spell terms.
const WHOLE: &[u8] = b"f ( 007 , \"a\\\"b\" , g() ) { x }";

/// The canonical text of the term that the front of this length spells, where it spells one.
fn spelled_by(length: usize) -> Option<&'static [u8]> {
    match length {
        1 | 2 => Some(b"f"),
        24 | 25 => Some(b"f(7,\"a\\\"b\",g)"),
        30 => Some(b"f(7,\"a\\\"b\",g){x}"),
        _ => None,
    }
}

/// Whether the front spells what it should, or is refused at its end.
fn is_read(alloc: Global, front: &[u8]) -> Result<bool, Fault> {
    match spelled_by(front.len()) {
        Some(canonical) => spells(alloc, front, canonical),
        None => Ok(is_no_term(alloc, front, front.len() as u64)),
    }
}

#[test]
fn fronts(rt: HostRuntime) -> Result<(), Fail> {
    if WHOLE.len() != 30 {
        return Err(Fail::new("another length"));
    }
    for length in 0..=WHOLE.len() {
        if !is_read(rt.alloc(), &WHOLE[..length])? {
            return Err(Fail::new(length));
        }
    }
    Ok(())
}

/// The byte so many times, in front of the rest.
fn repeat(alloc: Global, byte: u8, count: usize, rest: &[u8]) -> Result<Vec<u8>, AllocError> {
    let mut text = vec![in alloc; byte; count]?;
    text.extend_from_slice(rest)?;
    Ok(text)
}

/// What stands after thousands of zeros, and the canonical text of the term where it is in range.
const AFTER_ZEROS: &[(&[u8], Option<&[u8]>)] = &[
    (b"", Some(b"0")),
    (b"9223372036854775807", Some(b"9223372036854775807")),
    (b"9223372036854775808", None),
];

/// Whether so many zeros and the digits after them spell the term, or are refused at the last digit.
fn is_after_zeros(
    alloc: Global,
    count: usize,
    digits: &[u8],
    expected: Option<&[u8]>,
) -> Result<bool, Fault> {
    let text = repeat(alloc, b'0', count, digits)?;
    match expected {
        Some(canonical) => spells(alloc, &text, canonical),
        None => Ok(is_no_term(alloc, &text, text.len().saturating_sub(1) as u64)),
    }
}

#[test]
fn leading_zeros(rt: HostRuntime) -> Result<(), Fail> {
    for (digits, expected) in AFTER_ZEROS {
        if !is_after_zeros(rt.alloc(), 5_000, digits, *expected)? {
            return Err(Fail::new(digits.escape_ascii()));
        }
    }
    Ok(())
}

/// Bytes that are repeated, with how often, and the byte at which the text is refused.
const OVERSIZE: &[(u8, usize, u64)] = &[
    (b'[', 1001, 1000),
    (b'[', 1_000_000, 1000),
    (b'(', 1_000_000, 1000),
    (b'a', 16_777_216, 16_777_216),
];

#[test]
fn too_deep_and_too_heavy(rt: HostRuntime) -> Result<(), Fail> {
    for (byte, count, place) in OVERSIZE {
        let text = repeat(rt.alloc(), *byte, *count, b"")?;
        if !is_oversize(rt.alloc(), &text, *place) {
            return Err(Fail::new(count));
        }
    }
    Ok(())
}

#[test]
fn the_deepest_term(rt: HostRuntime) -> Result<(), Fail> {
    let mut text = repeat(rt.alloc(), b'[', 1000, b"")?;
    if !is_no_term(rt.alloc(), &text, 1000) {
        return Err(Fail::new("a thousand open lists"));
    }
    text.extend_from_slice(&[b']'; 1000])?;
    if !spells(rt.alloc(), &text, &text)? {
        return Err(Fail::new("a thousand lists"));
    }
    Ok(())
}

#[test]
fn the_longest_name(rt: HostRuntime) -> Result<(), Fail> {
    let text = repeat(rt.alloc(), b'a', 16_777_216, b",")?;
    if !is_no_term(rt.alloc(), &text, 16_777_216) {
        return Err(Fail::new("what follows it"));
    }
    Ok(())
}

/// The text of a list of a million integers.
fn million(alloc: Global) -> Result<Vec<u8>, AllocError> {
    let mut text = b"[".to_vec(alloc)?;
    for _ in 1..1_000_000 {
        text.extend_from_slice(b"1,")?;
    }
    text.extend_from_slice(b"1]")?;
    Ok(text)
}

#[test]
fn a_list_of_a_million(rt: HostRuntime) -> Result<(), Fail> {
    let text = million(rt.alloc())?;
    let term = read_term(rt.alloc(), &text)?;
    if term.weight() != 1_000_001 || term.depth() != 2 {
        return Err(Fail::new("its measures"));
    }
    if !is_written(rt.alloc(), &term, &text)? {
        return Err(Fail::new("its text"));
    }
    Ok(())
}
