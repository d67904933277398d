//! Each public call with ample memory; what is expected was worked out by hand.
use aterm_text::read_term;
use keyed_hash::HashKeys;
use signature_core::Signature;
use std::alloc::Global;
use std::test::Fail;
use str_syntax::{Name, Sort};
use term_model::Fault;

/// A declaration: a name, the sorts of its arguments, its own sort, and whether it is new to those above it. The sorts of the arguments
/// have blanks between them.
type Declared = (&'static str, &'static str, &'static str, bool);

/// A name and a number of arguments: whether this name is known with this number, and the number of its first declaration.
type Asked = (&'static str, usize, bool, Option<usize>);

/// A sort, written `A`, or with the name in front of the names that it is applied to: `List:A` is `List(A)`.
fn sort(alloc: Global, text: &str) -> Result<Sort, Fail> {
    let mut name = None;
    let mut inner = Vec::new(alloc);
    for word in text.split(':') {
        let next = Name::new(alloc, word.as_bytes(), 0)?;
        if name.is_none() {
            name = Some(next);
        } else {
            inner.push(Sort::Named(next))?;
        }
    }
    let name = name.ok_or("no sort")?;
    if inner.is_empty() {
        return Ok(Sort::Named(name));
    }
    Ok(Sort::Applied(name, inner))
}

/// Declares, and returns whether the declaration was new.
fn declares(
    alloc: Global,
    signature: &mut Signature,
    name: &str,
    arguments: &str,
    to: &str,
) -> Result<bool, Fail> {
    let mut sorts = Vec::new(alloc);
    for text in arguments.split_whitespace() {
        sorts.push(sort(alloc, text)?)?;
    }
    let to = sort(alloc, to)?;
    let name = Name::new(alloc, name.as_bytes(), 2)?;
    match signature.declare(name, sorts, to) {
        Ok(()) => Ok(true),
        Err(Fault::DuplicateDeclaration) => Ok(false),
        Err(_) => Err("another fault".into()),
    }
}

/// The signature of these declarations, each of which is new or is not, as its row says.
fn signature(alloc: Global, rows: &[Declared]) -> Result<Signature, Fail> {
    let mut signature = Signature::new(alloc, HashKeys::known());
    for (name, arguments, to, is_new) in rows {
        if declares(alloc, &mut signature, name, arguments, to)? != *is_new {
            return Err(Fail::new(name));
        }
    }
    Ok(signature)
}

/// Whether the signature says this of the name.
fn is_known_so(signature: &Signature, asked: &Asked) -> bool {
    let (name, number, known, first) = asked;
    signature.arity_known(name.as_bytes(), *number) == *known
        && signature.first_arity(name.as_bytes()) == *first
        && signature.is_declared_name(name.as_bytes()) == first.is_some()
}

/// Declarations, and what is known by them.
const KNOWN: &[(&[Declared], &[Asked])] = &[
    (&[], &[("F", 1, false, None)]),
    (
        &[("F", "A", "A", true), ("F", "A", "A", false)],
        &[
            ("F", 1, true, Some(1)),
            ("F", 2, false, Some(1)),
            ("G", 1, false, None),
        ],
    ),
    (
        &[
            ("Zero", "", "Exp", true),
            ("Zero", "", "Exp", false),
            ("Var", "Str", "Exp", true),
            ("Var", "Str", "Ty", true),
            ("Var", "Str", "Exp", false),
            ("Var", "Exp", "Exp", true),
            ("Var", "Str Str", "Exp", true),
            ("Var", "", "Exp", true),
            ("Call", "List:Exp", "Exp", true),
            ("Call", "List:Str", "Exp", true),
            ("Call", "List Exp", "Exp", true),
            ("Call", "List:Exp", "Exp", false),
            ("Call", "Pair:Exp:Exp", "Exp", true),
            ("Call", "Pair:Exp", "Exp", true),
        ],
        &[
            ("Zero", 0, true, Some(0)),
            ("Zero", 1, false, Some(0)),
            ("Var", 0, true, Some(1)),
            ("Var", 1, true, Some(1)),
            ("Var", 2, true, Some(1)),
            ("Var", 3, false, Some(1)),
            ("Call", 1, true, Some(1)),
            ("Call", 2, true, Some(1)),
            ("Cal", 1, false, None),
        ],
    ),
];

#[test]
fn declarations(rt: HostRuntime) -> Result<(), Fail> {
    for (declared, asked) in KNOWN {
        let signature = signature(rt.alloc(), declared)?;
        for row in *asked {
            if !is_known_so(&signature, row) {
                return Err(Fail::new(row.0));
            }
        }
    }
    Ok(())
}

/// Whether the term of this text is declared.
fn is_declared(alloc: Global, signature: &Signature, text: &str) -> Result<bool, Fail> {
    let term = read_term(alloc, text.as_bytes())?;
    match signature.check_term(&term) {
        Ok(()) => Ok(true),
        Err(Fault::TermUndeclared) => Ok(false),
        Err(_) => Err("another fault".into()),
    }
}

/// Terms, and whether they are declared where `F` of one argument and `Zero` of none are.
const TERMS: &[(&str, bool)] = &[
    ("7", true),
    ("F(7)", true),
    ("F(G(7))", false),
    ("F", false),
    ("F(1, 2)", false),
    ("F(Zero)", true),
    ("\"F\"", true),
    ("\"F\"(7)", false),
    ("()", true),
    ("(1)", true),
    ("(G)", false),
    ("[1, \"s\"]", true),
    ("[1, G]", false),
    ("1{Zero}", true),
    ("1{G}", false),
    ("[]{\"F\"(7)}", false),
    ("G", false),
];

#[test]
fn terms(rt: HostRuntime) -> Result<(), Fail> {
    let declared = &[("F", "A", "A", true), ("Zero", "", "A", true)];
    let signature = signature(rt.alloc(), declared)?;
    for (text, expected) in TERMS {
        if is_declared(rt.alloc(), &signature, text)? != *expected {
            return Err(Fail::new(text));
        }
    }
    Ok(())
}
