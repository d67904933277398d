//! Symbols, their hashes, and short texts.
use crate::terms::making::symbol;
use std::alloc::{AllocError, Global};
use std::hash::{DefaultHasher, Hash, Hasher};
use std::test::Fail;
use term_model::{Head, Kind, ShortText, Sym};

const NAMES: &[&[u8]] = &[
    b"a-1",
    b"_",
    b"Zero",
    b"x+*$0",
    b"of_14_letters_",
    b"of_15_letters__",
];

/// Texts that are no names.
const TEXTS: &[&[u8]] = &[
    b"1a",
    b"",
    b"-",
    b"a b",
    b"a\xff",
    b"14 bytes long.",
    b"15 bytes long..",
];

/// Whether the symbol is of this kind, has these bytes and is the same as its copy.
fn is_of(symbol: &Sym, kind: Kind, bytes: &[u8]) -> Result<bool, AllocError> {
    Ok(symbol.kind() == kind && symbol.bytes() == bytes && symbol.clone()? == *symbol)
}

/// Whether the name is that of a plain symbol.
fn is_plain(alloc: Global, name: &[u8]) -> Result<bool, AllocError> {
    let Some(symbol) = Sym::plain(alloc, name)? else {
        return Ok(false);
    };
    is_of(&symbol, Kind::Plain, name)
}

/// Whether the text is that of a quoted symbol.
fn is_quoted(alloc: Global, text: &[u8]) -> Result<bool, AllocError> {
    let symbol = Sym::quoted(alloc, text)?;
    is_of(&symbol, Kind::Quoted, text)
}

#[test]
fn plain_symbols(rt: HostRuntime) -> Result<(), Fail> {
    for name in NAMES {
        if !is_plain(rt.alloc(), name)? {
            return Err(Fail::new(name.escape_ascii()));
        }
    }
    Ok(())
}

#[test]
fn quoted_symbols(rt: HostRuntime) -> Result<(), Fail> {
    for text in TEXTS {
        if is_plain(rt.alloc(), text)? || !is_quoted(rt.alloc(), text)? {
            return Err(Fail::new(text.escape_ascii()));
        }
    }
    Ok(())
}

#[test]
fn the_symbol_of_tuples() -> Result<(), Fail> {
    if !is_of(&Sym::tuple(), Kind::Tuple, b"")? {
        return Err(Fail::new("the symbol of tuples"));
    }
    Ok(())
}

/// Whether the two ways to make a plain symbol agree.
fn is_named(alloc: Global) -> Result<bool, Fail> {
    Ok(Sym::named(alloc, b"f")? == symbol(alloc, b"f")?)
}

fn is_plain_quoted(alloc: Global) -> Result<bool, Fail> {
    Ok(Sym::quoted(alloc, b"f")? == symbol(alloc, b"f")?)
}

fn is_tuple_quoted(alloc: Global) -> Result<bool, AllocError> {
    Ok(Sym::quoted(alloc, b"")? == Sym::tuple())
}

#[test]
fn symbols_of_two_kinds_differ(rt: HostRuntime) -> Result<(), Fail> {
    if !is_named(rt.alloc())? || !is_quoted(rt.alloc(), b"f")? {
        return Err(Fail::new("the symbols of f"));
    }
    if is_plain_quoted(rt.alloc())? || is_tuple_quoted(rt.alloc())? {
        return Err(Fail::new("a symbol in quotes and without"));
    }
    Ok(())
}

/// The hash of the value, by std's hasher.
fn hash_of<T: Hash>(value: &T) -> u64 {
    let mut state = DefaultHasher::new();
    value.hash(&mut state);
    state.finish()
}

fn hash_of_plain(alloc: Global) -> Result<u64, AllocError> {
    Ok(hash_of(&Head::App(Sym::named(alloc, b"f")?)))
}

fn hash_of_copy(alloc: Global) -> Result<u64, AllocError> {
    let head = Head::App(Sym::named(alloc, b"f")?);
    Ok(hash_of(&head.clone()?))
}

fn hash_of_other(alloc: Global) -> Result<u64, AllocError> {
    Ok(hash_of(&Head::App(Sym::quoted(alloc, b"g f")?)))
}

#[test]
fn hashes(rt: HostRuntime) -> Result<(), Fail> {
    let plain = hash_of_plain(rt.alloc())?;
    if hash_of_copy(rt.alloc())? != plain {
        return Err(Fail::new("a symbol and its copy"));
    }
    if hash_of_other(rt.alloc())? == plain {
        return Err(Fail::new("symbols of other bytes"));
    }
    if hash_of(&Head::Int(2)) == hash_of(&Head::List) {
        return Err(Fail::new("an integer and a list"));
    }
    Ok(())
}

/// Texts, and whether each is short.
const SHORT_TEXTS: &[(&[u8], bool)] = &[
    (b"", true),
    (b"f", true),
    (b"fourteen_bytes", true),
    (b"fifteen_of_them", false),
];

/// Whether the text is kept, with its bytes in it and in its copy, exactly where it is short.
fn is_kept(text: &[u8], is_short: bool) -> bool {
    match ShortText::new(text) {
        Some(kept) => is_short && kept.as_slice() == text && kept.copy().as_slice() == text,
        None => !is_short,
    }
}

#[test]
fn short_texts() -> Result<(), Fail> {
    for (text, is_short) in SHORT_TEXTS {
        if !is_kept(text, *is_short) {
            return Err(Fail::new(text.escape_ascii()));
        }
    }
    Ok(())
}
