//! Writing the canonical text of a term.
ghost use Rattle.std.specs.Prelude.{◌≡◌, [], ◌∷◌, ◌++◌, All, IsTrue, OnOk, is_ok, if◌then◌else◌};
ghost use Rattle.aterm_text.specs.Text.{text};
ghost use Rattle.aterm_text.specs.Output.{Extends, bare_text_of, enclosed_in, texts_in};

use crate::output::{push_byte, push_bytes, push_number};
use crate::quoting::push_quoted;
use std::alloc::AllocError;
use term_model::symbol::Kind;
use term_model::{Parts, TermSpace, Top};

/// The canonical text of the term, or nothing where a growth was refused.
#[tactic(auto, using(crate::proofs::WriteLemmas::cut_back))]
pub(crate) fn write<S: TermSpace>(
    space: &S,
    at: &S::Ref,
    out: &mut Vec<u8>,
) -> Result<(), AllocError>
    requires { IsTrue (S.space.stands space.now at.now) }
    ensures { out.new.items ≡ (if is_ok result then out.old.items ++
        text (S.space.term_of space.now at.now) else out.old.items) }
{
    let length = out.len();
    let written = push_term(space, at, out);
    if written.is_err() {
        out.truncate(length);
    }
    written
}

#[cycle(write)]
#[tactic(auto, using(crate::proofs::WriteLemmas::writing))]
fn push_term<S: TermSpace>(space: &S, at: &S::Ref, out: &mut Vec<u8>) -> Result<(), AllocError>
    requires { IsTrue (S.space.stands space.now at.now) }
    ensures written { OnOk result (out.new.items ≡ out.old.items ++
        text (S.space.term_of space.now at.now)) }
    ensures kept { Extends out.old.items out.new.items }
{
    push_bare(space, at, out)?;
    push_enclosed(space, &space.annos(at), b'{', b'}', out)?;
    Ok(())
}

/// A term without its annotations.
#[cycle(write)]
#[tactic(auto, using(crate::proofs::WriteLemmas::writing))]
fn push_bare<S: TermSpace>(space: &S, at: &S::Ref, out: &mut Vec<u8>) -> Result<(), AllocError>
    requires { IsTrue (S.space.stands space.now at.now) }
    ensures written { OnOk result (out.new.items ≡ out.old.items ++
        bare_text_of (S.space.term_of space.now at.now)) }
    ensures kept { Extends out.old.items out.new.items }
{
    match space.head(at) {
        Top::Int(value) => push_number(value, out),
        Top::App(symbol) => match symbol.kind() {
            Kind::Tuple => push_between(space, &space.parts(at), b'(', b')', out),
            Kind::Plain => {
                push_bytes(symbol.bytes(), out)?;
                push_enclosed(space, &space.parts(at), b'(', b')', out)
            }
            Kind::Quoted => {
                push_quoted(symbol.bytes(), out)?;
                push_enclosed(space, &space.parts(at), b'(', b')', out)
            }
        },
        Top::List => push_between(space, &space.parts(at), b'[', b']', out),
    }
}

/// The terms in brackets, or nothing where there are none.
#[cycle(write)]
#[tactic(auto, using(crate::proofs::WriteLemmas::writing))]
fn push_enclosed<S: TermSpace>(
    space: &S,
    terms: &Parts<'_, S::Ref>,
    left: u8,
    right: u8,
    out: &mut Vec<u8>,
) -> Result<(), AllocError>
    requires { All (λ r. IsTrue (S.space.stands space.now r)) terms.now }
    ensures written { OnOk result (out.new.items ≡ out.old.items ++
        enclosed_in S.space.term_of space.now terms.now left right) }
    ensures kept { Extends out.old.items out.new.items }
{
    if terms.is_empty() {
        return Ok(());
    }
    push_between(space, terms, left, right, out)?;
    Ok(())
}

/// The terms in brackets.
#[cycle(write)]
#[tactic(auto, using(crate::proofs::WriteLemmas::writing))]
fn push_between<S: TermSpace>(
    space: &S,
    terms: &Parts<'_, S::Ref>,
    left: u8,
    right: u8,
    out: &mut Vec<u8>,
) -> Result<(), AllocError>
    requires { All (λ r. IsTrue (S.space.stands space.now r)) terms.now }
    ensures written { OnOk result (out.new.items ≡ out.old.items ++ left ∷
        (texts_in S.space.term_of space.now terms.now ++ right ∷ [])) }
    ensures kept { Extends out.old.items out.new.items }
{
    push_byte(left, out)?;
    push_all(space, terms, out)?;
    push_byte(right, out)?;
    Ok(())
}

/// The terms with commas between.
#[cycle(write)]
#[tactic(auto, using(crate::proofs::WriteLemmas::writing))]
fn push_all<S: TermSpace>(
    space: &S,
    terms: &Parts<'_, S::Ref>,
    out: &mut Vec<u8>,
) -> Result<(), AllocError>
    requires { All (λ r. IsTrue (S.space.stands space.now r)) terms.now }
    ensures written { OnOk result (out.new.items ≡ out.old.items ++
        texts_in S.space.term_of space.now terms.now) }
    ensures kept { Extends out.old.items out.new.items }
{
    let mut left = terms.walk();
    let Some(first) = left.next() else {
        return Ok(());
    };
    push_term(space, first, out)?;
    for term in left {
        push_byte(b',', out)?;
        push_term(space, term, out)?;
    }
    Ok(())
}
