//! The textual format of terms: reading a text, and writing the canonical text of a term.
#![tactic(auto)]

mod brackets;
mod length;
mod numbers;
mod open;
mod output;
mod quoted;
mod quoting;
mod reader;
mod scan;
mod writer;

ghost use Rattle.std.specs.Prelude.{◌≡◌, ◌++◌, ℕ, List, length, is_ok, if◌then◌else◌, IfOk, IsTrue};
ghost use Rattle.aterm_text.specs.Grammar.{IsText};
ghost use Rattle.aterm_text.specs.Depth.{TooDeep};
ghost use Rattle.aterm_text.specs.ReadTerm.{IsReading};
ghost use Rattle.aterm_text.specs.ReadIn.{map_ok};
ghost use Rattle.aterm_text.specs.Text.{text};
ghost use Rattle.aterm_text.specs.Canonical.{IsCanonical, ReadsBack};
ghost use Rattle.term_model.specs.Space.{Keeps};
ghost use Rattle.term_model.specs.Term.{Tree, IsTerm, Fits};

use std::alloc::{AllocError, Global};
use term_model::{Fault, RcSpace, Term, TermSpace};

/// Reads the term that the whole text spells, in one pass over its bytes.
///
/// `Ok` exactly where the text spells a term that fits (weight at most 16,777,216, depth at most
/// 1,000) and no term begins at depth 1,001; it then spells no other term.
///
/// # Errors
/// Offsets count bytes from the front of the text.
/// - `TermOversize` exactly where a term begins at depth 1,001, at its first byte, or where the text
///   spells a term that does not fit, at the text's length.
/// - `TermSyntax` where the text is neither of these: at the first byte with which it begins no
///   spelling, or at its length where it ends too early.
/// - `Memory` where a growth was refused.
#[tactic(auto, using(crate::proofs::Meaning::same_reading))]
pub fn read_term(alloc: Global, text: &[u8]) -> Result<Term, Fault>
    ensures { IsReading text.now result }
{
    read_in(&mut RcSpace, alloc, text)
}

/// Reads the term that the whole text spells into a space, as `read_term` does, and returns its reference. No term is
/// made outside the space.
///
/// # Errors
/// Those of `read_term`. What stood in the space stands, which may then hold more than before.
#[tactic(auto, using(crate::proofs::Meaning::reading))]
pub fn read_in<S: TermSpace>(space: &mut S, alloc: Global, text: &[u8]) -> Result<S::Ref, Fault>
    ensures keeps { Keeps S.space space.old space.new }
    ensures stands { IfOk result (λ r. IsTrue (S.space.stands space.new r)) }
    ensures reading { IsReading text.now (map_ok (S.space.term_of space.new) result) }
{
    reader::read_in(space, alloc, text)
}

/// Appends the canonical text of the term, with no line feed after it. It grows only the vector,
/// and takes no other memory.
///
/// # Errors
/// Where a growth was refused; the vector then holds what it held before.
#[tactic(auto, using(term_model::proofs::SpaceLemmas::standing))]
pub fn write_term(term: &Term, out: &mut Vec<u8>) -> Result<(), AllocError>
    ensures { out.new.items ≡ (if is_ok result then out.old.items ++ text term.now
        else out.old.items) }
{
    term.fits();
    write_out(&RcSpace, term, out)
}

/// Appends the canonical text of a term of a space, with no line feed after it. No term is taken out of the space: it
/// grows only the vector, and takes no other memory.
///
/// # Errors
/// Where a growth was refused; the vector then holds what it held before.
pub fn write_out<S: TermSpace>(space: &S, at: &S::Ref, out: &mut Vec<u8>) -> Result<(), AllocError>
    requires { IsTrue (S.space.stands space.now at.now) }
    ensures { out.new.items ≡ (if is_ok result then out.old.items ++
        text (S.space.term_of space.now at.now) else out.old.items) }
{
    writer::write(space, at, out)
}

/// The length of the canonical text of the term in bytes. It takes no memory.
pub fn text_len(term: &Term) -> u64
    ensures { result ≡ length (text term.now) }
{
    length::text_len(term)
}

/// Laws, with nothing to run. The canonical text of each term spells that term, holds no line feed
/// and does not begin with `#`; where the term fits, reading that text returns it. No text that
/// spells a term that fits is too deep.
#[tactic(auto, using(crate::proofs::Canonical::canonical, crate::proofs::RoundTrip::reads_back))]
pub fn text_laws()
    ensures canonical { (t : Tree) → IsTerm t → IsCanonical t }
    ensures reads_back { (t : Tree) → IsTerm t → Fits t → ReadsBack t }
    ensures not_deep { (t : Tree) (bytes : List ℕ) → IsText t bytes → Fits t → ¬ (TooDeep bytes) }
{}
