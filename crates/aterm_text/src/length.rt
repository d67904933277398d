//! The length of the canonical text of a term, counted with no memory. Each function adds to what
//! is counted already.
ghost use Rattle.std.specs.Prelude.{◌≡◌, ◌<◌, ◌+◌, ◌^◌, length};
ghost use Rattle.std.specs.Fmt.{signed_decimal};
ghost use Rattle.aterm_text.specs.Text.{text, texts, enclosed, bare_text, item_text, quoted_text};
ghost use Rattle.term_model.specs.Term.{trees_of};

use itoa::Buffer;
use term_model::symbol::Kind;
use term_model::term::MAX_WEIGHT;
use term_model::{Head, Term};

/// A text has at most 24 bytes for each unit of its term's weight.
#[tactic(auto, using(crate::proofs::LengthLemmas::text_bound))]
pub(crate) fn text_len(term: &Term) -> u64
    ensures { result ≡ length (text term.now) }
{
    let weight = term.weight();
    prove!(weight <= MAX_WEIGHT);
    with_term(0, term)
}

#[cycle(length)]
#[tactic(auto, using(crate::proofs::LengthLemmas::counting))]
fn with_term(counted: u64, term: &Term) -> u64
    requires { counted + length (text term.now) < 2 ^ 64 }
    ensures { result ≡ counted + length (text term.now) }
{
    let counted = with_bare(counted, term.head(), term.children());
    with_enclosed(counted, term.annos())
}

/// A term without its annotations.
#[cycle(length)]
#[tactic(auto, using(crate::proofs::LengthLemmas::counting))]
fn with_bare(counted: u64, head: &Head, parts: &[Term]) -> u64
    requires { counted + length
        (bare_text head.now (trees_of parts.now) (texts (trees_of parts.now))) < 2 ^ 64 }
    ensures { result ≡ counted +
        length (bare_text head.now (trees_of parts.now) (texts (trees_of parts.now))) }
{
    match head {
        Head::Int(value) => counted + number_len(*value),
        Head::App(symbol) => match symbol.kind() {
            Kind::Tuple => with_between(counted, parts),
            Kind::Plain => with_enclosed(counted + symbol.bytes().len() as u64, parts),
            Kind::Quoted => with_enclosed(with_quoted(counted, symbol.bytes()), parts),
        },
        Head::List => with_between(counted, parts),
    }
}

/// The terms in brackets, or nothing where there are none.
#[cycle(length)]
#[tactic(auto, using(crate::proofs::LengthLemmas::counting))]
fn with_enclosed(counted: u64, terms: &[Term]) -> u64
    requires { counted + length (enclosed (trees_of terms.now) 40 41 (texts (trees_of terms.now))) <
        2 ^ 64 }
    ensures { result ≡ counted +
        length (enclosed (trees_of terms.now) 40 41 (texts (trees_of terms.now))) }
{
    if terms.is_empty() {
        return counted;
    }
    with_between(counted, terms)
}

/// The terms in brackets.
#[cycle(length)]
#[tactic(auto, using(crate::proofs::LengthLemmas::counting))]
fn with_between(counted: u64, terms: &[Term]) -> u64
    requires { counted + (2 + length (texts (trees_of terms.now))) < 2 ^ 64 }
    ensures { result ≡ counted + (2 + length (texts (trees_of terms.now))) }
{
    with_all(counted + 2, terms)
}

/// The terms with commas between.
#[cycle(length)]
#[tactic(auto, using(crate::proofs::LengthLemmas::counting))]
fn with_all(counted: u64, terms: &[Term]) -> u64
    requires { counted + length (texts (trees_of terms.now)) < 2 ^ 64 }
    ensures { result ≡ counted + length (texts (trees_of terms.now)) }
{
    let Some((first, others)) = terms.split_first() else {
        return counted;
    };
    let mut counted = with_term(counted, first);
    for term in others {
        counted = with_term(counted + 1, term);
    }
    counted
}

fn number_len(value: i64) -> u64
    ensures { result ≡ length (signed_decimal value) }
{
    let mut buffer = Buffer::new();
    buffer.format(value).len() as u64
}

/// Quoted text of these bytes.
#[tactic(auto, using(crate::proofs::LengthLemmas::counting))]
fn with_quoted(counted: u64, bytes: &[u8]) -> u64
    requires { counted + length (quoted_text bytes.now) < 2 ^ 64 }
    ensures { result ≡ counted + length (quoted_text bytes.now) }
{
    let mut counted = counted + 2;
    for byte in bytes {
        counted += item_len(*byte);
    }
    counted
}

fn item_len(byte: u8) -> u64
    ensures { result ≡ length (item_text byte) }
{
    match byte {
        b'"' | b'\\' | b'\n' | b'\t' | b'\r' => 2,
        0..=31 | 127 => 4,
        _ => 1,
    }
}
