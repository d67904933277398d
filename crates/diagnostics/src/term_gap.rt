//! Where a text stops being the beginning of a term, for a person.

use term_model::bytes::is_blank_byte;
use term_model::symbol::continues;

/// What could stand where a text stops being the beginning of a term. Where a term ends, its parts or annotations could, too.
#[derive(Clone, Copy, Debug, PartialEq, Eq)]
pub enum TermExpected {
    Term,
    TermOrParenthesis,
    TermOrBracket,
    TermOrBrace,
    CommaOrParenthesis,
    CommaOrBracket,
    CommaOrBrace,
    /// A digit of an integer whose minus is there.
    Digit,
    End,
}

impl TermExpected {
    /// What could stand there, as a list.
    pub(crate) fn words(&self) -> &'static str {
        match self {
            TermExpected::Term => "a term",
            TermExpected::TermOrParenthesis => "a term or ')'",
            TermExpected::TermOrBracket => "a term or ']'",
            TermExpected::TermOrBrace => "a term or '}'",
            TermExpected::CommaOrParenthesis => "',' or ')'",
            TermExpected::CommaOrBracket => "',' or ']'",
            TermExpected::CommaOrBrace => "',' or '}'",
            TermExpected::Digit => "a digit",
            TermExpected::End => "the end of the text",
        }
    }
}

/// The most brackets that are remembered. No more are open in the beginning of a term that fits.
const MOST_OPEN: usize = 1000;

/// What is open at the end of the beginning of a term.
#[derive(Clone, Copy)]
pub(crate) struct TermGap {
    /// The brackets that are open, the outermost first, as many as are remembered.
    open: [u8; MOST_OPEN],
    depth: usize,
    /// The last byte that is no blank.
    last: Option<u8>,
    /// Where the quoted text begins that is open.
    quote: Option<usize>,
    is_escaped: bool,
    /// Whether a minus without a digit stands at the end.
    is_signed: bool,
}

impl TermGap {
    /// Returns what is open at the end of this text.
    pub(crate) fn after(text: &[u8]) -> TermGap {
        let mut gap = TermGap {
            open: [0; MOST_OPEN],
            depth: 0,
            last: None,
            quote: None,
            is_escaped: false,
            is_signed: false,
        };
        for (index, byte) in text.iter().enumerate() {
            gap.read(index, *byte);
        }
        gap
    }

    /// Where the quoted text begins that is open.
    pub(crate) fn quote(&self) -> Option<usize> {
        self.quote
    }

    /// What could stand next.
    pub(crate) fn expected(&self) -> TermExpected {
        if self.is_signed {
            return TermExpected::Digit;
        }
        match self.last {
            None | Some(b',') => TermExpected::Term,
            Some(b'(') => TermExpected::TermOrParenthesis,
            Some(b'[') => TermExpected::TermOrBracket,
            Some(b'{') => TermExpected::TermOrBrace,
            _ => self.closing(),
        }
    }

    /// What could stand after a whole term.
    fn closing(&self) -> TermExpected {
        let Some(outer) = self.depth.checked_sub(1) else {
            return TermExpected::End;
        };
        match self.open.get(outer) {
            Some(b'[') => TermExpected::CommaOrBracket,
            Some(b'{') => TermExpected::CommaOrBrace,
            _ => TermExpected::CommaOrParenthesis,
        }
    }

    /// Goes on with the byte at the index.
    fn read(&mut self, index: usize, byte: u8) {
        if self.quote.is_some() {
            self.read_quoted(byte);
            return;
        }
        self.is_signed = byte == b'-' && !self.last.is_some_and(continues);
        match byte {
            b'"' => self.quote = Some(index),
            b'(' | b'[' | b'{' => self.push_open(byte),
            b')' | b']' | b'}' => self.depth = self.depth.saturating_sub(1),
            _ => {}
        }
        if !is_blank_byte(byte) {
            self.last = Some(byte);
        }
    }

    /// Goes on with a byte of a quoted text.
    fn read_quoted(&mut self, byte: u8) {
        if self.is_escaped {
            self.is_escaped = false;
            return;
        }
        match byte {
            b'\\' => self.is_escaped = true,
            b'"' => self.quote = None,
            _ => {}
        }
    }

    /// Remembers the bracket that is open from here on.
    fn push_open(&mut self, bracket: u8) {
        if let Some(place) = self.open.get_mut(self.depth) {
            *place = bracket;
        }
        self.depth = self.depth.saturating_add(1);
    }
}
