//! The judgement of small files with ample memory; what is expected was worked out by hand.
use crate::front::{check_file, read};
use keyed_hash::HashKeys;
use scope_check::{CheckRefusal, Checked, find_faults, judge};
use std::alloc::{AllocError, Global};
use std::str;
use std::test::Fail;
use str_syntax::File;
use strategy_lib::with_library;
use term_model::PrimNames;

/// Why the file is refused, where `add` with two terms is the one primitive, if it is.
fn refusal(alloc: Global, file: File) -> Result<Option<CheckRefusal>, AllocError> {
    let mut primitives = PrimNames::new(alloc);
    primitives.insert(b"add", 2)?;
    Ok(judge(alloc, HashKeys::known(), file, &primitives, b"main").err())
}

/// The word of the fault that the file has and what is noted of it, or nothing.
fn refusal_text(alloc: Global, file: File) -> Result<String, Fail> {
    let Some(refusal) = refusal(alloc, file)? else {
        return Ok(String::new(alloc));
    };
    let word = refusal.fault().word();
    let note = refusal.note().ok_or("nothing is noted")?;
    Ok(format!(in alloc; "{word}: {note}")?)
}

/// Whether this is the refusal of the file.
pub(crate) fn is_refused_so(alloc: Global, file: File, expected: &str) -> Result<bool, Fail> {
    let text = refusal_text(alloc, file)?;
    Ok(text.as_str() == expected)
}

/// A line of a table: definitions, and the refusal after a `#`; without it they have no fault.
fn definitions_and_refusal(line: &str) -> (&str, &str) {
    line.split_once(" # ").unwrap_or((line, ""))
}

const FAULTS: &str =
    "signature constructors C : A -> A C : A -> A strategies f = id main = id # DuplicateDeclaration: constructor C is declared twice with the same sorts
signature constructors C : A -> A C : A * A -> A strategies f = id main = id
signature constructors C : A * A -> A strategies f = ?C(x) main = id # Undeclared: constructor C with 1 part is not declared (it is declared with 2)
strategies f = ?C(x) main = id # Undeclared: constructor C with 1 part is not declared
signature constructors C : A -> A strategies f = ?C(x) main = id
strategies f(s, s) = id main = id # Parameters: duplicate name s
strategies f(s | s) = id main = id # Parameters: duplicate name s
strategies f(s, t | x) = id main = id
strategies f = {x, y, x: id} main = id # Parameters: duplicate name x
strategies f = {x, y: id} main = id
signature constructors C : A -> A strategies C = id main = id # Clash: name C is that of a declared constructor and of a strategy
signature constructors C : A -> A strategies f(C) = id main = id # Clash: name C is that of a declared constructor and of a strategy
signature constructors C : A -> A strategies f(| C) = id main = id
signature constructors C : A -> A strategies f = rec C(id) main = id # Clash: name C is that of a declared constructor and of a strategy
signature constructors C : A -> A strategies f = rec D(id) main = id
strategies f(s) = f main = id # UnknownStrategy: strategy f with 0 strategy and 0 term parameters is not defined (it is defined with 1 and 0)
strategies f(s) = f(id) main = id
strategies f(s) = s main = id
strategies f(s) = s(id) main = id # UnknownStrategy: strategy s with 1 strategy and 0 term parameters is not defined (it is defined with 0 and 0)
strategies f(| x) = x main = id # UnknownStrategy: strategy x with 0 strategy and 0 term parameters is not defined
signature constructors C : A -> A strategies f = C(id) main = id
signature constructors C : A * A -> A strategies f = C(id) main = id # UnknownStrategy: strategy C with 1 strategy and 0 term parameters is not defined
strategies f = let g = id in g end main = id
strategies f = !_ main = id # NotBuildable: pattern _ cannot be built
strategies f = ?_ main = id
strategies f = !x@x main = id # NotBuildable: pattern x@ cannot be built
strategies f = prim(\"main\") main = id # UnknownPrimitive: primitive main with 0 terms is unknown
strategies f = prim(\"add\", x, x) main = id
strategies f = prim(\"add\", x) main = id # UnknownPrimitive: primitive add with 1 term is unknown
strategies f = main main = id
signature constructors C : A -> A strategies C(s, s) = prim(\"p\") main = id # Parameters: duplicate name s
strategies f(s |) = s main(|) = f(id |)
strategies main = abcdefghijklmnopqrstuvwxyz0123456789abcdefghijklmnopqrstuvwxyz0123456789 # UnknownStrategy: strategy abcdefghijklmnopqrstuvwxyz0123456789abcdefghijklmnopqrstuvwxyz01.. with 0 strategy and 0 term parameters is not defined";

#[test]
fn faults(rt: HostRuntime) -> Result<(), Fail> {
    for line in FAULTS.split('\n') {
        let (text, expected) = definitions_and_refusal(line);
        if !is_refused_so(rt.alloc(), read(rt.alloc(), text)?, expected)? {
            return Err(Fail::new(line));
        }
    }
    Ok(())
}

/// A definition, how often it stands there, one definition more, the fault and what is noted of it.
const TOGETHER: &[(&str, usize, &str, &str)] = &[
    (
        "f(s) = id",
        1,
        "f(s) = id",
        "NoMain: strategy main without parameters is not defined",
    ),
    (
        "f(s) = id",
        1,
        "f(t) = id",
        "Parameters: strategy f has alternatives with other parameters",
    ),
    (
        "main(s) = id",
        1,
        "main(s) = id",
        "NoMain: strategy main without parameters is not defined",
    ),
    (
        "main(s) = id",
        1,
        "main(t) = id",
        "Parameters: strategy main has alternatives with other parameters",
    ),
    (
        "f(s) = id",
        2,
        "f(t) = id",
        "Parameters: strategy f has alternatives with other parameters",
    ),
    (
        "f(s) = id",
        999,
        "f(s) = id",
        "NoMain: strategy main without parameters is not defined",
    ),
    (
        "f(s) = id",
        1000,
        "f(s) = id",
        "Parameters: strategy f has over 1000 alternatives",
    ),
];

/// The file of a definition this number of times, and one definition more.
fn file_of_copies(alloc: Global, first: &str, number: usize, last: &str) -> Result<File, Fail> {
    let mut text = String::from_str(alloc, "strategies ")?;
    for _ in 0..number {
        text.push_str(first)?;
        text.push_str(" ")?;
    }
    text.push_str(last)?;
    read(alloc, text.as_str())
}

#[test]
fn definitions_together(rt: HostRuntime) -> Result<(), Fail> {
    for (first, number, last, expected) in TOGETHER {
        let file = file_of_copies(rt.alloc(), first, *number, last)?;
        if !is_refused_so(rt.alloc(), file, expected)? {
            return Err(Fail::new(expected));
        }
    }
    Ok(())
}

/// Definitions in front of the library's, as of `try(s)` and `map(s)`.
const WITH_LIBRARY: &str = "strategies f = id main = id
signature constructors s : A -> A strategies f = id main = id
signature constructors s : A -> A strategies f(s) = id main = id # Clash: name s is that of a declared constructor and of a strategy
signature constructors map : A * A -> A strategies f = id main = id # Clash: name map is that of a declared constructor and of a strategy
strategies try(s) = id main = id # Clash: strategy try is a definition of the library
strategies try(x) = id main = id # Parameters: strategy try has alternatives with other parameters
strategies try = id main = id
strategies try(s, t) = id main = id
strategies try(s | x) = id main = id";

#[test]
fn definitions_before_the_library(rt: HostRuntime) -> Result<(), Fail> {
    for line in WITH_LIBRARY.split('\n') {
        let (text, expected) = definitions_and_refusal(line);
        let file = with_library(rt.alloc(), read(rt.alloc(), text)?)?;
        if !is_refused_so(rt.alloc(), file, expected)? {
            return Err(Fail::new(line));
        }
    }
    Ok(())
}

/// Whether the parts are those of the file that declares C of one sort.
fn has_its_parts(checked: &Checked) -> bool {
    checked.main() == b"main".as_slice()
        && checked.file().sections.len() == 2
        && checked.signature().arity_known(b"C", 1)
        && !checked.signature().is_declared_name(b"D")
}

#[test]
fn a_file_without_a_fault(rt: HostRuntime) -> Result<(), Fail> {
    let text = "signature constructors C : A -> A strategies main = ?C(x)";
    let checked = check_file(rt.alloc(), read(rt.alloc(), text)?)?;
    if !has_its_parts(&checked) {
        return Err("other parts".into());
    }
    Ok(())
}

/// Definitions in front of the library's, the word of their fault, the name that is noted, and the name as it stands there: where this
/// first stands in the text is the place that is noted.
const PLACES: &[(&str, &str, &str, &str)] = &[
    // The first place of the least fault.
    (
        "signature constructors C : A -> A strategies C(s, t) = id g(a, a) = id f(s, t) = id f(s, u) = id",
        "Parameters",
        "a",
        "a) = id",
    ),
    ("strategies f = id try(s) = id", "Clash", "try", "try(s)"),
    (
        "signature constructors map : A -> A strategies try(s) = id",
        "Clash",
        "map",
        "map :",
    ),
    (
        "signature constructors map : A -> A strategies try(t) = id",
        "Parameters",
        "try",
        "try(t)",
    ),
    (
        "signature constructors C : A -> A map : A -> A strategies g(s, t) = id",
        "Clash",
        "map",
        "map :",
    ),
];

/// Whether the refusal is for this fault, and notes this name at this place.
fn is_noted_at(refusal: &CheckRefusal, word: &str, name: &str, at: Option<usize>) -> bool {
    let Some(note) = refusal.note() else {
        return false;
    };
    refusal.fault().word() == word
        && note.name() == name.as_bytes()
        && note.offset() == at.map(|at| at as u64)
}

#[test]
fn places(rt: HostRuntime) -> Result<(), Fail> {
    for (text, word, name, piece) in PLACES {
        let file = with_library(rt.alloc(), read(rt.alloc(), text)?)?;
        let refusal = refusal(rt.alloc(), file)?.ok_or("no refusal")?;
        if !is_noted_at(&refusal, word, name, text.find(*piece)) {
            return Err(Fail::new(text));
        }
    }
    Ok(())
}

/// Definitions, and the names that are noted in them, in the order of the text.
const ALL_FAULTS: &[(&str, &str)] = &[
    ("strategies main = id", ""),
    // After a declaration that stands again, the rest is still judged.
    (
        "signature constructors C : A -> A C : A -> A strategies f = ?C(x, y) main = g",
        "C C g",
    ),
    // Each head with other parameters, and a name that stands again.
    (
        "strategies f(s) = id f(t) = id f(u) = id g(a, a) = id main = !_",
        "f f a _",
    ),
    // Of a definition of the library nothing is noted but the constructor of its name.
    (
        "signature constructors map : A -> A strategies try(s) = id",
        "map try main",
    ),
];

/// The names that are noted in the file, with a space between each two, where there are no primitives.
fn names_noted(alloc: Global, file: &File) -> Result<String, Fail> {
    let primitives = PrimNames::new(alloc);
    let faults = find_faults(alloc, HashKeys::known(), file, &primitives, b"main")?;
    let mut names = String::new(alloc);
    for note in faults.notes() {
        if !names.is_empty() {
            names.push_str(" ")?;
        }
        names.push_str(str::from_utf8(note.name()).unwrap_or("?"))?;
    }
    Ok(names)
}

#[test]
fn all_faults(rt: HostRuntime) -> Result<(), Fail> {
    for (text, expected) in ALL_FAULTS {
        let file = with_library(rt.alloc(), read(rt.alloc(), text)?)?;
        if names_noted(rt.alloc(), &file)?.as_str() != *expected {
            return Err(Fail::new(text));
        }
    }
    Ok(())
}

/// 10,000 definitions and main.
fn large_text(alloc: Global) -> Result<String, Fail> {
    let mut text = String::from_str(alloc, "strategies main = id")?;
    for number in 0..10000 {
        write!(text, " f{number}(s) = s")?;
    }
    Ok(text)
}

#[test]
fn a_large_file(rt: HostRuntime) -> Result<(), Fail> {
    let text = large_text(rt.alloc())?;
    if !is_refused_so(rt.alloc(), read(rt.alloc(), text.as_str())?, "")? {
        return Err("a fault".into());
    }
    Ok(())
}
