//! What explanations say of a failing instruction: the strategy as it is written, and why it fails.

use diagnostics::{Listing, MOST_OF_NAME, Phrase, push_cut};
use std::alloc::{AllocError, Global};
use str_lexer::Keyword;
use strat_code::{Code, Instr, SourceMark};
use strat_machine::Stand;
use term_model::bytes::is_blank_byte;

/// The most bytes of a strategy that are shown, blanks not counted, up to the end of a character.
const MOST_OF_STRATEGY: usize = 60;

/// The most bytes that a character of UTF-8 has after its first one.
const MOST_CONTINUATIONS: usize = 3;

/// The instruction before which a run stands, with its place in the definitions.
#[derive(Clone, Copy)]
pub(crate) struct Leaf<'a> {
    pub(crate) instruction: &'a Instr,
    /// The mark of the instruction, or the last one before it.
    pub(crate) mark: Option<SourceMark>,
    /// Whether the mark is that of the instruction.
    pub(crate) is_marked: bool,
    /// The strategy as it is written, if it is found.
    pub(crate) phrase: Option<Phrase>,
}

impl<'a> Leaf<'a> {
    /// The instruction before which the run stands; nothing if the code has none there.
    pub(crate) fn new(listing: &Listing, code: &'a Code, stand: &Stand) -> Option<Leaf<'a>> {
        let instruction = code.instrs().get(stand.address)?;
        let mark = code.mark_at(stand.address);
        let is_marked = mark.map(|mark| mark.address) == Some(stand.address);
        let mut leaf = Leaf {
            instruction,
            mark,
            is_marked,
            phrase: None,
        };
        leaf.phrase = leaf.find_phrase(listing);
        Some(leaf)
    }

    /// The byte of the definitions at which the strategy, or one before it in the same definition, stands; nothing where it is one of the
    /// library.
    pub(crate) fn offset(&self) -> Option<usize> {
        file_offset(self.mark)
    }

    /// The strategy as it is written.
    fn find_phrase(&self, listing: &Listing) -> Option<Phrase> {
        let offset = self.offset()?;
        let head = listing.head_before(offset)?;
        let is_head = listing.is_head(offset);
        match self.instruction {
            Instr::ApplyPrimitive { name, .. } => listing.primitive_in(head, name),
            Instr::GiveUp { .. } => listing.form_in(head, Keyword::Fail, Keyword::Not),
            Instr::Traverse { .. } => listing.form_in(head, Keyword::One, Keyword::Some),
            _ if !self.is_marked => None,
            Instr::Match { .. } if is_head => listing.left_side(offset),
            Instr::Build { .. } if is_head || listing.is_lambda(offset) => {
                listing.right_side(offset)
            }
            _ if is_head => None,
            Instr::Match { .. } | Instr::Build { .. } => listing.pattern_at(offset),
            _ => listing.call_at(offset),
        }
    }
}

/// The byte of the definitions at which a mark is; nothing for the library.
pub(crate) fn file_offset(mark: Option<SourceMark>) -> Option<usize> {
    let offset = mark?.offset;
    if offset == 0 {
        return None;
    }
    usize::try_from(offset).ok()
}

/// Whether a strategy of which this many bytes are shown is cut before this next one. No character of UTF-8 is cut in two.
fn is_cut_before(byte: u8, shown: usize) -> bool {
    if shown < MOST_OF_STRATEGY {
        return false;
    }
    let is_continuation = (0x80..0xC0).contains(&byte);
    !is_continuation || shown >= MOST_OF_STRATEGY.saturating_add(MOST_CONTINUATIONS)
}

/// Puts a strategy on the line as it is written, with one blank for each run of blanks, and `..` for what is more than is shown.
pub(crate) fn push_phrase(
    listing: &Listing,
    phrase: Phrase,
    line: &mut Vec<u8>,
) -> Result<(), AllocError> {
    let mut shown: usize = 0;
    let mut is_gap = false;
    for byte in listing.text_of(phrase) {
        if is_blank_byte(*byte) {
            is_gap = true;
            continue;
        }
        if is_cut_before(*byte, shown) {
            return line.extend_from_slice(b"..");
        }
        if is_gap {
            line.push(b' ')?;
        }
        is_gap = false;
        line.push(*byte)?;
        shown = shown.saturating_add(1);
    }
    Ok(())
}

/// Puts the strategy on the line, or what it is where it is not found.
fn push_strategy(
    listing: &Listing,
    leaf: &Leaf,
    otherwise: &[u8],
    line: &mut Vec<u8>,
) -> Result<(), AllocError> {
    match leaf.phrase {
        Some(phrase) => push_phrase(listing, phrase, line),
        None => line.extend_from_slice(otherwise),
    }
}

/// Puts on the line what fails.
pub(crate) fn push_failure(
    alloc: Global,
    listing: &Listing,
    leaf: &Leaf,
    stand: &Stand,
    line: &mut Vec<u8>,
) -> Result<(), AllocError> {
    match leaf.instruction {
        Instr::Match { .. } => {
            push_strategy(listing, leaf, b"a pattern", line)?;
            line.extend_from_slice(b" does not match")
        }
        Instr::Build { .. } => {
            push_strategy(listing, leaf, b"a build", line)?;
            line.extend_from_slice(b" cannot be built")?;
            push_lack(alloc, listing, leaf, stand, line)
        }
        Instr::CallDefinition { .. } => {
            push_strategy(listing, leaf, b"a call", line)?;
            line.extend_from_slice(b" cannot be called")?;
            push_lack(alloc, listing, leaf, stand, line)
        }
        Instr::ApplyPrimitive { .. } => push_primitive(alloc, listing, leaf, stand, line),
        Instr::GiveUp { .. } => push_giving_up(listing, leaf, line),
        Instr::Traverse { .. } => {
            push_strategy(listing, leaf, b"'one' or 'some'", line)?;
            line.extend_from_slice(b" succeeds on no part of the term")
        }
        _ => line.extend_from_slice(b"it fails"),
    }
}

/// That a call of the library fails, and what to call instead if its strategy may fail on a term.
pub(crate) fn search_failure(listing: &Listing, call: Option<Phrase>) -> &'static [u8] {
    let Some(call) = call else {
        return b" fails".as_slice();
    };
    let text = listing.text_of(call);
    if text.starts_with(b"bottomup(") {
        return b" fails; bottomup(try(..)) keeps the terms on which its strategy fails".as_slice();
    }
    if text.starts_with(b"topdown(") {
        return b" fails; topdown(try(..)) keeps the terms on which its strategy fails".as_slice();
    }
    b" fails".as_slice()
}

/// Puts on the line that a `fail` is reached, or that a `not` fails.
fn push_giving_up(listing: &Listing, leaf: &Leaf, line: &mut Vec<u8>) -> Result<(), AllocError> {
    let Some(phrase) = leaf.phrase else {
        return line.extend_from_slice(b"'fail' is reached, or the strategy of a 'not' succeeds");
    };
    push_phrase(listing, phrase, line)?;
    line.extend_from_slice(if is_fail(listing, phrase) {
        b" is reached".as_slice()
    } else {
        b" fails".as_slice()
    })
}

/// Whether what fails is a `not`, whose strategy has made a term.
pub(crate) fn is_negation(listing: &Listing, leaf: &Leaf) -> bool {
    match (leaf.instruction, leaf.phrase) {
        (Instr::GiveUp { .. }, Some(phrase)) => !is_fail(listing, phrase),
        _ => false,
    }
}

/// Whether a phrase is `fail`.
fn is_fail(listing: &Listing, phrase: Phrase) -> bool {
    listing.text_of(phrase) == b"fail".as_slice()
}

/// Puts on the line what is made that is too large.
pub(crate) fn push_excess(
    listing: &Listing,
    leaf: &Leaf,
    line: &mut Vec<u8>,
) -> Result<(), AllocError> {
    match leaf.instruction {
        Instr::Build { .. } => push_strategy(listing, leaf, b"a build", line)?,
        Instr::CallDefinition { .. } => push_strategy(
            listing,
            leaf,
            b"an argument of a call",
            line,
        )?,
        Instr::ApplyPrimitive { name, .. } => push_primitive_call(listing, leaf, name, line)?,
        _ => line.extend_from_slice(b"a traversal")?,
    }
    line.extend_from_slice(b" makes the term")
}

/// Puts on the line why a primitive has no result.
fn push_primitive(
    alloc: Global,
    listing: &Listing,
    leaf: &Leaf,
    stand: &Stand,
    line: &mut Vec<u8>,
) -> Result<(), AllocError> {
    let Instr::ApplyPrimitive { name, .. } = leaf.instruction else {
        return Ok(());
    };
    push_primitive_call(listing, leaf, name, line)?;
    if stand.values.iter().all(|value| value.is_some()) {
        return line.extend_from_slice(b" fails");
    }
    line.extend_from_slice(b" cannot be called")?;
    push_lack(alloc, listing, leaf, stand, line)
}

/// Puts the call of a primitive on the line.
fn push_primitive_call(
    listing: &Listing,
    leaf: &Leaf,
    name: &[u8],
    line: &mut Vec<u8>,
) -> Result<(), AllocError> {
    if let Some(phrase) = leaf.phrase {
        return push_phrase(listing, phrase, line);
    }
    line.extend_from_slice(b"prim(\"")?;
    push_cut(name, MOST_OF_NAME, line)?;
    line.extend_from_slice(b"\", ..)")
}

/// Puts on the line what a build or a call lacks: the first variable without a value or, where all have one, a list.
fn push_lack(
    alloc: Global,
    listing: &Listing,
    leaf: &Leaf,
    stand: &Stand,
    line: &mut Vec<u8>,
) -> Result<(), AllocError> {
    let Some(lacking) = stand.values.iter().position(|value| value.is_none()) else {
        return line.extend_from_slice(b": what comes after a '|' is no list");
    };
    let names = variables(alloc, listing, leaf)?;
    if names.len() != stand.values.len() {
        return line.extend_from_slice(b": a variable in it has no value");
    }
    line.extend_from_slice(b": ")?;
    if let Some(name) = names.get(lacking) {
        push_phrase(listing, *name, line)?;
    }
    line.extend_from_slice(b" has no value")
}

/// The variables of the strategy as they are written, each as often as it stands there.
pub(crate) fn variables(
    alloc: Global,
    listing: &Listing,
    leaf: &Leaf,
) -> Result<Vec<Phrase>, AllocError> {
    let Some(phrase) = leaf.phrase else {
        return Ok(Vec::new(alloc));
    };
    let among = match leaf.instruction {
        Instr::CallDefinition { .. } => listing.terms_of(phrase),
        Instr::ApplyPrimitive { .. } => Phrase {
            first: phrase.first.saturating_add(1),
            after: phrase.after,
        },
        _ => phrase,
    };
    listing.variables_in(alloc, among)
}
