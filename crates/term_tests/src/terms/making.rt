//! Making terms, with annotations and with the parts of others.
use std::alloc::{AllocError, Global};
use std::test::Fail;
use term_model::{Head, Made, Sym, Term};

/// The term, where it fits.
pub(crate) fn fitting(made: Made<Term>) -> Result<Term, Fail> {
    match made {
        Made::Fits(term) => Ok(term),
        Made::Oversize => Err(Fail::new("oversize")),
    }
}

/// The plain symbol of this name.
pub(crate) fn symbol(alloc: Global, name: &[u8]) -> Result<Sym, Fail> {
    match Sym::plain(alloc, name)? {
        Some(symbol) => Ok(symbol),
        None => Err(Fail::new("no name")),
    }
}

/// The string of these bytes.
pub(crate) fn string(alloc: Global, bytes: &[u8]) -> Result<Term, Fail> {
    let symbol = Sym::quoted(alloc, bytes)?;
    fitting(Term::app(alloc, symbol, Vec::new(alloc))?)
}

/// The symbol of this name applied to the parts.
fn apply(alloc: Global, name: &[u8], parts: Vec<Term>) -> Result<Term, Fail> {
    let symbol = symbol(alloc, name)?;
    fitting(Term::app(alloc, symbol, parts)?)
}

/// A vector of one term, this integer.
fn one_integer(alloc: Global, value: i64) -> Result<Vec<Term>, AllocError> {
    Ok(vec![in alloc; Term::int(alloc, value)?]?)
}

/// A vector of one term, the symbol of this name applied to nothing.
fn one_name(alloc: Global, name: &[u8]) -> Result<Vec<Term>, Fail> {
    Ok(vec![in alloc; apply(alloc, name, Vec::new(alloc))?]?)
}

/// `f(7,"a\"b",g)`
fn f_of_three(alloc: Global) -> Result<Term, Fail> {
    let mut parts = one_integer(alloc, 7)?;
    parts.push(string(alloc, b"a\"b")?)?;
    parts.push(apply(alloc, b"g", Vec::new(alloc))?)?;
    apply(alloc, b"f", parts)
}

/// `f(7)`
fn f_of_seven(alloc: Global) -> Result<Term, Fail> {
    apply(alloc, b"f", one_integer(alloc, 7)?)
}

/// The term with these annotations in place of its own.
fn with_annos(alloc: Global, term: &Term, annos: Vec<Term>) -> Result<Term, Fail> {
    fitting(term.with_annos(alloc, annos)?)
}

/// Whether the term has this weight and depth, and so many parts and annotations.
fn measures(term: &Term, weight: u32, depth: u32, parts: usize, annos: usize) -> bool {
    term.weight() == weight
        && term.depth() == depth
        && term.children().len() == parts
        && term.annos().len() == annos
}

fn have_the_same_head(one: &Term, other: &Term) -> Result<bool, AllocError> {
    Ok(one.head().clone()? == other.head().clone()?)
}

/// Whether the first is another term than the second, and the same without its annotations.
fn is_annotated(alloc: Global, annotated: &Term, term: &Term) -> Result<bool, Fail> {
    let bare = with_annos(alloc, annotated, Vec::new(alloc))?;
    Ok(bare == *term && *annotated != *term && have_the_same_head(annotated, term)?)
}

#[test]
fn a_term_with_annotations(rt: HostRuntime) -> Result<(), Fail> {
    let alloc = rt.alloc();
    let f = f_of_three(alloc)?;
    let annotated = with_annos(alloc, &f, one_name(alloc, b"x")?)?;
    if !measures(&annotated, 11, 2, 3, 1) || !is_annotated(alloc, &annotated, &f)? {
        return Err(Fail::new("f with annotations"));
    }
    Ok(())
}

#[test]
fn the_head_of_an_integer(rt: HostRuntime) -> Result<(), Fail> {
    let seven = Term::int(rt.alloc(), 7)?;
    if *seven.head() != Head::Int(7) {
        return Err(Fail::new("another head"));
    }
    Ok(())
}

/// `[1]{a}`
fn list_of_one(alloc: Global) -> Result<Term, Fail> {
    let list = fitting(Term::list(alloc, one_integer(alloc, 1)?)?)?;
    with_annos(alloc, &list, one_name(alloc, b"a")?)
}

/// The term with this integer in place of its only part.
fn with_integer(alloc: Global, term: &Term, value: i64) -> Result<Term, Fail> {
    let parts = one_integer(alloc, value)?;
    if term.children().len() != parts.len() {
        return Err(Fail::new("another number of parts"));
    }
    fitting(term.rebuild(alloc, parts)?)
}

fn is_part(alloc: Global, value: i64, term: &Term) -> Result<bool, AllocError> {
    Ok(term.children() == one_integer(alloc, value)?.as_slice())
}

fn is_anno(alloc: Global, symbol: &[u8], term: &Term) -> Result<bool, Fail> {
    Ok(term.annos() == one_name(alloc, symbol)?.as_slice())
}

/// Whether the term is `[2]{a}`.
fn is_list_of_two(alloc: Global, term: &Term) -> Result<bool, Fail> {
    Ok(*term.head() == Head::List && is_part(alloc, 2, term)? && is_anno(alloc, b"a", term)?)
}

#[test]
fn a_list_with_another_part(rt: HostRuntime) -> Result<(), Fail> {
    let one = list_of_one(rt.alloc())?;
    let two = with_integer(rt.alloc(), &one, 2)?;
    if two == one || !is_list_of_two(rt.alloc(), &two)? {
        return Err(Fail::new("the list, its part or its annotation"));
    }
    Ok(())
}

/// `f(7){x}`, of its parts and annotations
fn make_at_once(alloc: Global) -> Result<Term, Fail> {
    let head = Head::App(Sym::named(alloc, b"f")?);
    fitting(Term::new(alloc, head, one_integer(alloc, 7)?, one_name(alloc, b"x")?)?)
}

fn is_made_at_once(alloc: Global, annotated: &Term) -> Result<bool, Fail> {
    Ok(make_at_once(alloc)? == *annotated)
}

/// Whether an integer can have the annotations of the term.
fn is_taken_over(alloc: Global, annotated: &Term) -> Result<bool, Fail> {
    let made = Term::new_like(alloc, Head::Int(8), Vec::new(alloc), annotated)?;
    let eight = fitting(made)?;
    Ok(*eight.head() == Head::Int(8) && eight.annos() == annotated.annos())
}

#[test]
fn annotations_from_the_start(rt: HostRuntime) -> Result<(), Fail> {
    let alloc = rt.alloc();
    let annotated = with_annos(alloc, &f_of_seven(alloc)?, one_name(alloc, b"x")?)?;
    if !is_made_at_once(alloc, &annotated)? {
        return Err(Fail::new("made at once"));
    }
    if !is_taken_over(alloc, &annotated)? {
        return Err(Fail::new("made with the annotations of another term"));
    }
    Ok(())
}

/// `f(7){7}`, made of a term to which there is no other reference
fn annotate_alone(alloc: Global) -> Result<Term, Fail> {
    fitting(f_of_seven(alloc)?.annotated(alloc, one_integer(alloc, 7)?)?)
}

/// `f(7){7}`, made of a term to which there is another reference
fn annotate_while_shared(alloc: Global) -> Result<Term, Fail> {
    let f = f_of_seven(alloc)?;
    let shared = f.clone()?.annotated(alloc, one_integer(alloc, 7)?)?;
    fitting(shared)
}

#[test]
fn annotations_of_a_shared_term(rt: HostRuntime) -> Result<(), Fail> {
    let alone = annotate_alone(rt.alloc())?;
    if alone.children().len() != 1 || alone.annos().len() != 1 {
        return Err(Fail::new("a part and an annotation"));
    }
    if alone != annotate_while_shared(rt.alloc())? {
        return Err(Fail::new("with another reference and without"));
    }
    Ok(())
}

fn equals_its_copy(made: &Made<Term>) -> Result<bool, AllocError> {
    Ok(made.clone()? == *made)
}

fn is_shown_as(alloc: Global, made: &Made<Term>, expected: &str) -> Result<bool, AllocError> {
    let text = format!(in alloc; "{made:?}")?;
    Ok(text.as_str() == expected)
}

#[test]
fn what_is_made_is_shown(rt: HostRuntime) -> Result<(), Fail> {
    let seven = Made::Fits(Term::int(rt.alloc(), 7)?);
    let expected =
        "Fits(Term { node: Node { head: Int(7), parts: [], annos: None, weight: 1, depth: 1 } })";
    if !is_shown_as(rt.alloc(), &seven, expected)? || !equals_its_copy(&seven)? {
        return Err(Fail::new("seven"));
    }
    Ok(())
}
