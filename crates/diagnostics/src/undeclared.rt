//! Where the text of a term has an application that a signature does not declare.

use crate::pieces::piece;
use signature_core::Signature;
use std::alloc::{AllocError, Global};
use term_model::bytes::is_blank_byte;
use term_model::symbol::{begins, continues};

/// An application in the text of a term: the bytes from the one to the other are its name, or its quoted symbol.
#[derive(Clone, Copy)]
pub(crate) struct Application {
    pub(crate) from: usize,
    pub(crate) to: usize,
    pub(crate) parts: usize,
}

/// The first application in the text, which is that of a term, that the signature does not declare.
pub(crate) fn undeclared_application(
    alloc: Global,
    text: &[u8],
    signature: &Signature,
) -> Option<Application> {
    let mut search = ApplicationSearch::new(alloc, text, signature);
    for (at, byte) in text.iter().enumerate() {
        search.read(at, *byte).ok()?;
    }
    search.end_token(text.len());
    search.end_symbol();
    search.found
}

/// What the byte before is part of.
#[derive(Clone, Copy, Debug, PartialEq, Eq)]
enum Inside {
    Nothing,
    Number,
    /// A name that begins at this byte.
    Name(usize),
    /// A quoted text that begins at this byte.
    Quotes(usize),
    /// The same, after a backslash.
    Escape(usize),
}

/// A name or a quoted text that has ended, after which a parenthesis may open.
#[derive(Clone, Copy)]
struct Symbol {
    from: usize,
    to: usize,
    is_quoted: bool,
}

/// A bracket that is open: after a symbol, or that of a list, a tuple or annotations.
#[derive(Clone, Copy)]
struct OpenBracket {
    symbol: Option<Symbol>,
    has_part: bool,
    commas: usize,
}

/// A search through the text of a term.
#[derive(Drop)]
struct ApplicationSearch<'a> {
    text: &'a [u8],
    signature: &'a Signature,
    inside: Inside,
    symbol: Option<Symbol>,
    brackets: Vec<OpenBracket>,
    found: Option<Application>,
}

impl<'a> ApplicationSearch<'a> {
    fn new(alloc: Global, text: &'a [u8], signature: &'a Signature) -> ApplicationSearch<'a> {
        ApplicationSearch {
            text,
            signature,
            inside: Inside::Nothing,
            symbol: None,
            brackets: Vec::new(alloc),
            found: None,
        }
    }

    /// Goes on with the byte that stands there.
    fn read(&mut self, at: usize, byte: u8) -> Result<(), AllocError> {
        match self.inside {
            Inside::Escape(from) => self.inside = Inside::Quotes(from),
            Inside::Quotes(from) if byte == b'\\' => self.inside = Inside::Escape(from),
            Inside::Quotes(from) if byte == b'"' => self.end_quotes(from, at),
            Inside::Quotes(_) => {}
            Inside::Name(_) | Inside::Number if continues(byte) => {}
            Inside::Name(_) | Inside::Number | Inside::Nothing => {
                self.end_token(at);
                self.begin(at, byte)?;
            }
        }
        Ok(())
    }

    /// Ends a quoted text with the byte that stands there.
    fn end_quotes(&mut self, from: usize, at: usize) {
        self.inside = Inside::Nothing;
        self.symbol = Some(Symbol {
            from,
            to: at.saturating_add(1),
            is_quoted: true,
        });
    }

    /// Ends a name or a number in front of the byte that stands there.
    fn end_token(&mut self, at: usize) {
        if let Inside::Name(from) = self.inside {
            self.symbol = Some(Symbol {
                from,
                to: at,
                is_quoted: false,
            });
        }
        self.inside = Inside::Nothing;
    }

    /// Looks at a byte that is not inside of a token.
    fn begin(&mut self, at: usize, byte: u8) -> Result<(), AllocError> {
        if is_blank_byte(byte) {
            return Ok(());
        }
        if byte == b'(' {
            let symbol = self.symbol.take();
            return self.open(symbol);
        }
        self.end_symbol();
        match byte {
            b'[' | b'{' => self.open(None)?,
            b')' | b']' | b'}' => self.close(),
            b',' => self.count_comma(),
            b'"' => self.begin_part(Inside::Quotes(at)),
            _ if begins(byte) => self.begin_part(Inside::Name(at)),
            _ => self.begin_part(Inside::Number),
        }
        Ok(())
    }

    /// Begins a part of the innermost bracket with this token.
    fn begin_part(&mut self, inside: Inside) {
        self.inside = inside;
        self.note_part();
    }

    /// Notes that the innermost bracket has a part.
    fn note_part(&mut self) {
        if let Some(innermost) = self.brackets.last_mut() {
            innermost.has_part = true;
        }
    }

    fn count_comma(&mut self) {
        if let Some(innermost) = self.brackets.last_mut() {
            innermost.commas = innermost.commas.saturating_add(1);
        }
    }

    /// Opens a bracket after this symbol, or one that is a part itself.
    fn open(&mut self, symbol: Option<Symbol>) -> Result<(), AllocError> {
        self.note_part();
        self.brackets.push(OpenBracket {
            symbol,
            has_part: false,
            commas: 0,
        })?;
        Ok(())
    }

    /// Closes the innermost bracket.
    fn close(&mut self) {
        let Some(bracket) = self.brackets.pop() else {
            return;
        };
        let Some(symbol) = bracket.symbol else {
            return;
        };
        let parts = if bracket.has_part {
            bracket.commas.saturating_add(1)
        } else {
            0
        };
        self.judge(symbol, parts);
    }

    /// Ends a symbol after which no parenthesis opens.
    fn end_symbol(&mut self) {
        if let Some(symbol) = self.symbol.take() {
            self.judge(symbol, 0);
        }
    }

    /// Keeps the application of the symbol to this number of parts if it is not declared and comes before what was found.
    fn judge(&mut self, symbol: Symbol, parts: usize) {
        let is_declared = if symbol.is_quoted {
            parts == 0
        } else {
            let name = piece(self.text, symbol.from, symbol.to);
            self.signature.arity_known(name, parts)
        };
        let is_first = match &self.found {
            Some(found) => symbol.from < found.from,
            None => true,
        };
        if !is_declared && is_first {
            self.found = Some(Application {
                from: symbol.from,
                to: symbol.to,
                parts,
            });
        }
    }
}
