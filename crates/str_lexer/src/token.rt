//! The tokens of definition files.
ghost use Rattle.std.specs.Prelude.{◌≡◌};
ghost use Rattle.term_model.specs.Results.{Returns};

use std::alloc::{AllocError, Global};
use std::marker::Model;

/// The bytes that a quoted text stands for.
#[derive(Drop)]
pub struct QuotedText {
    /// In a box, as tokens of other kinds are small.
    bytes: Box<Vec<u8>>,
}

impl Model for QuotedText {
    ghost use Rattle.std.specs.Prelude.{ℕ, List};

    ghost Value = { List ℕ };

    ghost view = { λ text. text.bytes.value.items };
}

impl QuotedText {
    /// The text of these bytes.
    pub(crate) fn new(alloc: Global, bytes: Vec<u8>) -> Result<QuotedText, AllocError>
        ensures { Returns result bytes.items }
    {
        Ok(QuotedText {
            bytes: Box::new(alloc, bytes)?,
        })
    }

    /// The bytes of the text, with each escape in place of what spells it.
    pub fn bytes(&self) -> &[u8]
        ensures { result.now ≡ self.now }
    {
        &self.bytes
    }
}

/// A word of the language that is never a name.
#[derive(Clone, Copy, Debug, PartialEq, Eq)]
pub enum Keyword {
    /// `signature`
    Signature,
    /// `sorts`
    Sorts,
    /// `constructors`
    Constructors,
    /// `rules`
    Rules,
    /// `strategies`
    Strategies,
    /// `id`
    Id,
    /// `fail`
    Fail,
    /// `where`
    Where,
    /// `not`
    Not,
    /// `if`
    If,
    /// `then`
    Then,
    /// `else`
    Else,
    /// `end`
    End,
    /// `all`
    All,
    /// `one`
    One,
    /// `some`
    Some,
    /// `rec`
    Rec,
    /// `let`
    Let,
    /// `in`
    In,
    /// `prim`
    Prim,
}

/// A word of a part of Stratego that this language leaves out.
#[derive(Clone, Copy, Debug, PartialEq, Eq)]
pub enum LeftOut {
    /// `module`
    Module,
    /// `imports`
    Imports,
    /// `overlays`
    Overlays,
    /// `with`
    With,
    /// `switch`
    Switch,
    /// `case`
    Case,
    /// `otherwise`
    Otherwise,
    /// `external`
    External,
}

/// A token that is written with signs.
#[derive(Clone, Copy, Debug, PartialEq, Eq)]
pub enum Mark {
    /// `(`
    OpenParenthesis,
    /// `)`
    CloseParenthesis,
    /// `[`
    OpenBracket,
    /// `]`
    CloseBracket,
    /// `{`
    OpenBrace,
    /// `}`
    CloseBrace,
    /// `|`
    Bar,
    /// `,`
    Comma,
    /// `:`
    Colon,
    /// `;`
    Semicolon,
    /// `=`
    Equals,
    /// `?`
    Question,
    /// `!`
    Exclamation,
    /// `@`
    At,
    /// `*`
    Star,
    /// `+`
    Plus,
    /// `\`
    Backslash,
    /// `<`
    Less,
    /// `>`
    Greater,
    /// `->`
    Arrow,
    /// `=>`
    DoubleArrow,
    /// `<+`
    LeftChoice,
}

/// What a token is.
#[derive(Drop)]
pub enum TokenKind {
    /// A name, which is the token's text.
    Name,
    /// `_`
    Wildcard,
    /// An integer of this value.
    Integer(i64),
    /// A quoted text.
    Quoted(QuotedText),
    /// A mark.
    Mark(Mark),
    /// A keyword.
    Keyword(Keyword),
    /// A word of a part that is left out.
    LeftOut(LeftOut),
}

/// A token of a definition file. Its text is the bytes of the file from `from` on, up to `to`,
/// which are offsets in bytes.
#[derive(Drop)]
pub struct Token {
    /// What it is.
    pub kind: TokenKind,
    /// Where its first byte stands.
    pub from: usize,
    /// Where the first byte after it stands.
    pub to: usize,
}
