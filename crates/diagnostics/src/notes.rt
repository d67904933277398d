//! What a person wants to know of a refusal and of a run. No contract of the transformation speaks of it.
ghost use Rattle.std.specs.Prelude.{◌≡◌, option_copied};

use crate::excerpt::{Excerpt, line_feeds};
use crate::explanation::Explanation;
use crate::fault_places::{FaultPlace, RefusedDefinitions, fault_place};
use crate::hint::Hint;
use crate::inquiry::Inquiry;
use crate::name_hints::{name_hint, primitive_place, whole_file};
use crate::pieces::piece;
use crate::reason::{
    Reason, Wanted, left_out_reason, no_token_reason, syntax_reason, term_syntax_reason,
};
use crate::refusal::Refusal;
use crate::rows::Row;
use crate::shown::Shown;
use crate::syntax_hints::syntax_hint;
use crate::text_hints::{left_out_hint, lexical_hint, term_hint};
use crate::undeclared::undeclared_application;
use core_lang::Outcome;
use scope_check::{Detail, Note};
use signature_core::Signature;
use std::alloc::Global;
use str_lexer::lex;
use str_parser::ParseRefusal;
use term_model::bytes::{is_blank_byte, is_digit_byte};
use term_model::{Fault, PrimNames};
use term_store::OversizeTerm;

/// One of the two texts that a transformation reads.
#[derive(Clone, Copy, Debug, PartialEq, Eq)]
pub enum Subject {
    Definitions,
    Term,
}

/// What a run used: how many rules, how many steps of the machine, and how many shapes of terms the store holds at its end.
#[derive(Clone, Copy, Debug, PartialEq, Eq)]
pub struct Used {
    pub rules: u64,
    pub steps: u64,
    pub shapes: usize,
}

/// What a person wants to know of a transformation. Of a refusal: which text is refused, at which place, and what is wrong there. Of a run:
/// what it used and, where it is asked for, what it did, why it has no result, and warnings. Takes no memory unless that is asked for.
#[derive(Drop)]
pub struct RunNotes {
    subject: Subject,
    reason: Option<Reason>,
    place: Option<Excerpt>,
    hint: Option<Hint>,
    lines_before_term: usize,
    has_term_line: bool,
    used: Option<Used>,
    oversize: Option<OversizeTerm>,
    inquiry: Option<Inquiry>,
    /// The texts of a run of which more may have to be reported.
    definitions: Option<Vec<u8>>,
    term: Option<Vec<u8>>,
    /// How many bytes of the definitions, from the first on, are a library.
    library: usize,
    rows: Option<Vec<Row>>,
    explanation: Option<Explanation>,
}

impl RunNotes {
    /// Nothing was noted.
    pub fn none() -> RunNotes {
        RunNotes {
            subject: Subject::Definitions,
            reason: None,
            place: None,
            hint: None,
            lines_before_term: 0,
            has_term_line: true,
            used: None,
            oversize: None,
            inquiry: None,
            definitions: None,
            term: None,
            library: 0,
            rows: None,
            explanation: None,
        }
    }

    /// Returns notes in which nothing was noted yet. Of a run what the inquiry asks for is reported; and of one that fails, or of which
    /// tables are shown, the warnings about variables. For that the program may run again after the answer is written; the texts that this
    /// takes are kept in memory until then.
    pub fn asking(inquiry: Inquiry) -> RunNotes {
        let mut notes = RunNotes::none();
        notes.inquiry = Some(inquiry);
        notes
    }

    /// Drops what was noted before.
    pub fn begin(&mut self) {
        let inquiry = self.inquiry.take();
        *self = RunNotes::none();
        self.inquiry = inquiry;
    }

    /// Returns what is asked of the run; nothing if no inquiry was made.
    pub fn inquiry(&self) -> Option<&Inquiry> {
        self.inquiry.as_ref()
    }

    /// Which text is refused, where one is.
    pub fn subject(&self) -> Subject {
        self.subject
    }

    /// What is wrong with it, where that is known.
    pub fn reason(&self) -> Option<&Reason> {
        self.reason.as_ref()
    }

    /// The place at which it is refused, where there is one, in lines of the text.
    pub fn place(&self) -> Option<&Excerpt> {
        self.place.as_ref()
    }

    /// What was probably meant there, if that is guessed.
    pub fn hint(&self) -> Option<&Hint> {
        self.hint.as_ref()
    }

    /// How many lines of the input stand in front of the text that is refused: where the joined form was read those before the term, and
    /// else none.
    pub fn lines_before(&self) -> usize {
        match self.subject {
            Subject::Definitions => 0,
            Subject::Term => self.lines_before_term,
        }
    }

    /// What the run used, where there was one that came to its end.
    pub fn used(&self) -> Option<&Used>
        ensures { option_copied result ≡ self.now.used }
    {
        self.used.as_ref()
    }

    /// The size of the term that did not fit, where a run came to one and its size is known.
    pub fn oversize_term(&self) -> Option<&OversizeTerm> {
        self.oversize.as_ref()
    }

    /// Returns the rows of tables of what the run did, in the order in which they are to be written; none if none were asked for, or if
    /// memory for them was refused.
    pub fn rows(&self) -> &[Row] {
        match &self.rows {
            Some(rows) => rows.as_slice(),
            None => &[],
        }
    }

    /// Why the run has no result, and warnings, if they are to be reported; what a check of definitions found; or nothing if memory for it was
    /// refused.
    pub fn explanation(&self) -> Option<&Explanation> {
        self.explanation.as_ref()
    }

    /// Notes the size of a term that did not fit.
    pub fn note_oversize(&mut self, size: Option<OversizeTerm>) {
        self.oversize = size;
    }

    /// Keeps the text of the definitions, if more of the run may have to be reported than its result.
    pub fn keep_definitions(&mut self, text: Vec<u8>) {
        if self.inquiry.is_some() {
            self.definitions = Some(text);
        }
    }

    /// Keeps the text of the term, if the run may have to be repeated.
    pub fn keep_term(&mut self, text: Vec<u8>) {
        if self
            .inquiry
            .as_ref()
            .is_some_and(|inquiry| inquiry.needs_term())
        {
            self.term = Some(text);
        }
    }

    /// Notes how many bytes of the definitions, from the first on, are a library.
    pub fn note_library(&mut self, bytes: usize) {
        self.library = bytes;
    }

    /// How many bytes of the definitions, from the first on, are a library.
    pub fn library(&self) -> usize {
        self.library
    }

    /// Hands out the text of the definitions; nothing if it is not kept.
    pub fn take_definitions(&mut self) -> Option<Vec<u8>> {
        self.definitions.take()
    }

    /// Hands out the text of the term; nothing if it is not kept.
    pub fn take_term(&mut self) -> Option<Vec<u8>> {
        self.term.take()
    }

    /// Notes the rows of tables of what the run did.
    pub fn note_rows(&mut self, rows: Vec<Row>) {
        self.rows = Some(rows);
    }

    /// Notes what is to be said of the run or of the check.
    pub fn note_explanation(&mut self, explanation: Explanation) {
        self.explanation = Some(explanation);
    }

    /// Notes what the run used.
    pub fn note_run(&mut self, used: Used)
        ensures { self.new ≡ record self.old { used = Some used } }
    {
        self.used = Some(used);
    }

    /// Notes that the term comes after this part of the joined form, and whether a line `#term` ends it.
    pub fn begin_term(&mut self, front: &[u8], has_term_line: bool) {
        self.lines_before_term = line_feeds(front);
        self.has_term_line = has_term_line;
    }

    /// Notes why these definitions are refused. Where memory for a hint is refused there is none.
    pub fn note_definitions(
        &mut self,
        alloc: Global,
        text: &[u8],
        refusal: &Refusal,
        primitives: &PrimNames,
    ) {
        match refusal {
            Refusal::Fault(fault) => self.note_tokens(alloc, text, fault, primitives),
            Refusal::Parse(ParseRefusal::Memory) => {}
            Refusal::Parse(ParseRefusal::Syntax { at, reason }) => {
                let rest = text_after(text, *at);
                let wanted = Wanted::InDefinitions(*reason);
                self.keep(text, *at, syntax_reason(Subject::Definitions, rest, wanted));
                let hint = syntax_hint(alloc, text, index_of(*at), *reason);
                self.hint = usable_hint(hint, primitives);
            }
            Refusal::Parse(ParseRefusal::Nesting { at }) => {
                self.keep(text, *at, Reason::NestedTooDeeply);
            }
            Refusal::Check(refusal) => {
                if let Some(note) = refusal.note() {
                    self.note_check(alloc, text, note, primitives);
                }
            }
        }
    }

    /// Notes why this text is no list of tokens, if the fault says that.
    fn note_tokens(&mut self, alloc: Global, text: &[u8], fault: &Fault, primitives: &PrimNames) {
        match fault {
            Fault::Lexical { at } => {
                let (before, after) = (text_before(text, *at), text_after(text, *at));
                self.keep(text, *at, no_token_reason(before, after));
                self.hint = usable_hint(lexical_hint(alloc, before, after), primitives);
            }
            Fault::ReservedWord { at } => {
                let after = text_after(text, *at);
                self.keep(text, *at, left_out_reason(after));
                self.hint = left_out_hint(after);
            }
            _ => {}
        }
    }

    /// Notes what the checks found.
    fn note_check(&mut self, alloc: Global, text: &[u8], note: &Note, primitives: &PrimNames) {
        let place = match self.note_hint(alloc, text, note, primitives) {
            Some(at) => Some(at),
            None => only_call(alloc, text, note),
        };
        match place {
            Some(at) => self.keep(text, at, Reason::Checked(*note)),
            None => self.reason = Some(Reason::Checked(*note)),
        }
    }

    /// Notes what was probably meant in definitions of this text, and returns the byte at which what the checks found in them is reported.
    fn note_hint(
        &mut self,
        alloc: Global,
        text: &[u8],
        note: &Note,
        primitives: &PrimNames,
    ) -> Option<u64> {
        let Ok(file) = whole_file(alloc, text) else {
            return note.offset();
        };
        let definitions = RefusedDefinitions {
            text,
            library: self.library,
            file: &file,
        };
        let place = fault_place(alloc, &definitions, note);
        let place = place.unwrap_or(FaultPlace::as_found(note));
        self.hint = match place.other {
            Some(other) => Some(Hint::Elsewhere(other)),
            None => name_hint(alloc, &definitions, note, primitives),
        };
        place.offset
    }

    /// Notes that the definitions are too long.
    pub fn note_long_definitions(&mut self) {
        self.reason = Some(Reason::DefinitionsTooLong);
    }

    /// Notes the first application in this text of a term that the signature does not declare, if memory for the search is there.
    pub fn note_undeclared(&mut self, alloc: Global, text: &[u8], signature: &Signature) {
        let Some(application) = undeclared_application(alloc, text, signature) else {
            return;
        };
        let name = piece(text, application.from, application.to);
        let reason = Reason::UndeclaredApplication {
            name: Shown::new(name),
            parts: application.parts,
            declared: signature.first_arity(name),
        };
        self.keep(text, application.from as u64, reason);
    }

    /// Notes why this text of a term is refused.
    pub fn note_term(&mut self, text: &[u8], fault: &Fault) {
        self.subject = Subject::Term;
        match fault {
            Fault::TermSyntax { .. } if is_blank(text) => {
                let has_line = self.has_term_line;
                self.reason = Some(if has_line {
                    Reason::NoTerm
                } else {
                    Reason::NoTermLine
                });
            }
            Fault::TermSyntax { at } => {
                let (before, after) = (text_before(text, *at), text_after(text, *at));
                let reason = term_syntax_reason(text, before, after);
                let place = match reason {
                    Reason::IntegerOutOfRange => integer_start(before),
                    _ => *at,
                };
                self.keep(text, place, reason);
                self.hint = term_hint(text, before, after);
            }
            Fault::TermOversize { at } if text_after(text, *at).is_empty() => {
                self.reason = Some(Reason::TermTooLarge);
            }
            Fault::TermOversize { at } => self.keep(text, *at, Reason::TermTooDeep),
            _ => {}
        }
    }

    /// Notes why a text was refused of which no place is known.
    pub fn note_outcome(&mut self, outcome: &Result<Outcome<Vec<u8>>, Fault>) {
        match outcome {
            Err(Fault::DefsTooLong) => self.note_long_definitions(),
            Err(Fault::TermTooLong) => {
                self.subject = Subject::Term;
                self.reason = Some(Reason::TermTooLong);
            }
            Err(Fault::TermUndeclared) => {
                self.subject = Subject::Term;
                if self.reason.is_none() {
                    self.reason = Some(Reason::TermUndeclared);
                }
            }
            _ => {}
        }
    }

    /// Notes what is wrong at the offset of the text. Where the text ends too early, that is the end of its last line that is not blank.
    fn keep(&mut self, text: &[u8], at: u64, reason: Reason) {
        let at = match reason {
            Reason::EndsEarly { .. } => end_of(text),
            _ => index_of(at),
        };
        self.reason = Some(reason);
        self.place = Some(Excerpt::new(text, at));
    }
}

/// The hint, unless it needs a primitive that is not registered.
fn usable_hint(hint: Option<Hint>, primitives: &PrimNames) -> Option<Hint> {
    let hint = hint?;
    match hint.primitive() {
        Some(name) if !primitives.has(name.as_bytes(), 2) => None,
        _ => Some(hint),
    }
}

/// The byte at which the call of the unknown primitive begins that the note is about, if it is called only once.
fn only_call(alloc: Global, text: &[u8], note: &Note) -> Option<u64> {
    let Detail::UnknownPrimitive { .. } = note.detail() else {
        return None;
    };
    let tokens = lex(alloc, text).ok()?;
    primitive_place(&tokens, note.name(), 0, 1)
}

/// Whether the text is blank.
fn is_blank(text: &[u8]) -> bool {
    text.iter().all(|byte| is_blank_byte(*byte))
}

/// Returns how many bytes the text has without the blanks at its end.
fn end_of(text: &[u8]) -> usize {
    text.iter()
        .rposition(|byte| !is_blank_byte(*byte))
        .map_or(0, |last| last.saturating_add(1))
}

/// Returns the offset at which the integer begins whose digits the text ends with.
fn integer_start(text: &[u8]) -> u64 {
    let digits = text
        .iter()
        .rposition(|byte| !is_digit_byte(*byte))
        .map_or(0, |last| last.saturating_add(1));
    let is_negative = text[..digits.min(text.len())].ends_with(b"-");
    digits.saturating_sub(usize::from(is_negative)) as u64
}

/// Returns the index of the byte at the offset.
fn index_of(at: u64) -> usize {
    usize::try_from(at).unwrap_or(usize::MAX)
}

/// Returns the text before the offset.
fn text_before(text: &[u8], at: u64) -> &[u8] {
    &text[..index_of(at).min(text.len())]
}

/// Returns the text from the offset on.
fn text_after(text: &[u8], at: u64) -> &[u8] {
    &text[index_of(at).min(text.len())..]
}
