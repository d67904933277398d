//! Texts that are read into a space and written from it, and terms that are judged where they lie in it: in both spaces.
use aterm_text::{read_in, write_out};
use keyed_hash::HashKeys;
use signature_core::Signature;
use std::alloc::{AllocError, Global};
use std::test::Fail;
use str_syntax::{Name, Sort};
use term_model::{Fault, RcSpace, TermSpace};
use term_store::StoreSpace;

/// Texts, and the canonical texts of the terms that they spell.
const SPELLED: &[(&[u8], &[u8])] = &[
    (
        b" f ( 007 , \"a\\\"b\" , g() ) { x } ",
        b"f(7,\"a\\\"b\",g){x}",
    ),
    (b"[ ]", b"[]"),
    (b"( )", b"()"),
    (b"\"\\101\\n\"(-0)", b"\"A\\n\"(0)"),
    (
        b"[1,2,3,4,5,6,7,8,9]{[1,2,3,4],k{7}}",
        b"[1,2,3,4,5,6,7,8,9]{[1,2,3,4],k{7}}",
    ),
    (
        b"a_name_of_more_than_some_bytes(a_name_of_more_than_some_bytes)",
        b"a_name_of_more_than_some_bytes(a_name_of_more_than_some_bytes)",
    ),
];

/// Texts that are refused, with the place of the refusal.
const REFUSED: &[(&[u8], u64)] = &[
    (b"f(1,]", 4),
    (b"f(1){}{}", 6),
    (b"[1,2", 4),
    (b"9223372036854775808", 18),
];

/// Texts of terms, and whether each of their applications is declared, where `F` is with one argument.
const JUDGED: &[(&[u8], bool)] = &[
    (b"F(1)", true),
    (b"F(1,2)", false),
    (b"[F(F(\"text\"))]{(F(2),[])}", true),
    (b"[1,2,3,F([4,G])]", false),
    (b"[1]{G}", false),
    (b"\"quoted\"(1)", false),
];

/// Texts of terms, and how many parts each has.
const COUNTED: &[(&[u8], usize)] = &[
    (b"7{1}", 0),
    (b"F", 0),
    (b"[]{1}", 0),
    (b"F(1,2,3)", 3),
    (b"(1,2,3,4)", 4),
    (b"[1,2,3,4,5,6,7,8,9,10,11,12,13]", 13),
];

fn store(alloc: Global) -> StoreSpace {
    StoreSpace::new(alloc, HashKeys::known())
}

/// Whether the text is read into the space and written from it as the other text.
fn is_spelled<S: TermSpace>(
    alloc: Global,
    space: &mut S,
    text: &[u8],
    canonical: &[u8],
) -> Result<bool, Fault> {
    let at = read_in(space, alloc, text)?;
    let mut out = Vec::new(alloc);
    write_out(space, &at, &mut out)?;
    Ok(out[..] == canonical[..])
}

/// Whether the text is refused for its syntax at this place.
fn is_refused<S: TermSpace>(alloc: Global, space: &mut S, text: &[u8], place: u64) -> bool {
    match read_in(space, alloc, text) {
        Err(Fault::TermSyntax { at }) => at == place,
        _ => false,
    }
}

/// A signature in which `F` is declared with one argument.
fn signature_of_one(alloc: Global) -> Result<Signature, Fault> {
    let mut signature = Signature::new(alloc, HashKeys::known());
    let mut arguments = Vec::with_capacity(alloc, 1)?;
    arguments.push(sort(alloc)?)?;
    signature.declare(Name::new(alloc, b"F", 0)?, arguments, sort(alloc)?)?;
    Ok(signature)
}

fn sort(alloc: Global) -> Result<Sort, AllocError> {
    let name = Name::new(alloc, b"T", 0)?;
    Ok(Sort::Named(name))
}

/// Whether each application of the term that the text spells is declared.
fn is_declared<S: TermSpace>(
    alloc: Global,
    space: &mut S,
    signature: &Signature,
    text: &[u8],
) -> Result<bool, Fault> {
    let at = read_in(space, alloc, text)?;
    Ok(signature.check_in(space, &at).is_ok())
}

/// How many parts of the term that the text spells a walk meets; no term is without parts where it meets some.
fn count_by_walk<S: TermSpace>(alloc: Global, space: &mut S, text: &[u8]) -> Result<usize, Fault> {
    let at = read_in(space, alloc, text)?;
    let parts = space.parts(&at);
    let mut count: usize = 0;
    for _ in parts.walk() {
        count = count.saturating_add(1);
    }
    if parts.is_empty() != (count == 0) {
        return Ok(usize::MAX);
    }
    Ok(count)
}

/// Reads the texts into the space, and writes them from it.
fn spell_all<S: TermSpace + Drop>(alloc: Global, space: S) -> Result<(), Fail> {
    let mut space = space;
    for (text, canonical) in SPELLED {
        if !is_spelled(alloc, &mut space, text, canonical)? {
            return Err(Fail::new(text.escape_ascii()));
        }
    }
    Ok(())
}

#[test]
fn texts(rt: HostRuntime) -> Result<(), Fail> {
    spell_all(rt.alloc(), RcSpace)?;
    spell_all(rt.alloc(), store(rt.alloc()))
}

/// Reads the texts that are refused.
fn refuse_all<S: TermSpace + Drop>(alloc: Global, space: S) -> Result<(), Fail> {
    let mut space = space;
    for (text, place) in REFUSED {
        if !is_refused(alloc, &mut space, text, *place) {
            return Err(Fail::new(text.escape_ascii()));
        }
    }
    Ok(())
}

#[test]
fn refused_texts(rt: HostRuntime) -> Result<(), Fail> {
    refuse_all(rt.alloc(), RcSpace)?;
    refuse_all(rt.alloc(), store(rt.alloc()))
}

/// Judges the terms in the space.
fn judge_all<S: TermSpace + Drop>(alloc: Global, space: S) -> Result<(), Fail> {
    let mut space = space;
    let signature = signature_of_one(alloc)?;
    for (text, are_declared) in JUDGED {
        if is_declared(alloc, &mut space, &signature, text)? != *are_declared {
            return Err(Fail::new(text.escape_ascii()));
        }
    }
    Ok(())
}

#[test]
fn declared_terms(rt: HostRuntime) -> Result<(), Fail> {
    judge_all(rt.alloc(), RcSpace)?;
    judge_all(rt.alloc(), store(rt.alloc()))
}

/// Counts the parts of the terms in the space.
fn walk_all<S: TermSpace + Drop>(alloc: Global, space: S) -> Result<(), Fail> {
    let mut space = space;
    for (text, count) in COUNTED {
        if count_by_walk(alloc, &mut space, text)? != *count {
            return Err(Fail::new(text.escape_ascii()));
        }
    }
    Ok(())
}

#[test]
fn walks(rt: HostRuntime) -> Result<(), Fail> {
    walk_all(rt.alloc(), RcSpace)?;
    walk_all(rt.alloc(), store(rt.alloc()))
}
