//! The tokens that are still to be read, each with its text.
ghost use Rattle.std.specs.Prelude.{◌≡◌, ◌≤◌, ◌↔◌, IsTrue, length, []};
ghost use Rattle.str_parser.specs.Lexemes.{lexemes, lexeme_of};
ghost use Rattle.str_parser.specs.Within.{AreWithin};
ghost use Rattle.str_parser.specs.Readings.{lexeme_in, IsFirst, IsAfter, IsAfterKeyword, IsSyntax};

use crate::expected::{Candidate, SyntaxReason};
use crate::refusal::ParseRefusal;
use std::marker::Model;
use str_lexer::{Keyword, Mark, Token, TokenKind};

/// A token with its text.
#[derive(Clone, Copy)]
pub(crate) enum Lexeme<'a> {
    Name(&'a [u8]),
    Wildcard,
    Integer(i64),
    Quoted(&'a [u8]),
    Mark(Mark),
    Keyword(Keyword),
    LeftOut,
}

/// The tokens from one place of a file on, and the bytes of the file.
#[derive(Drop)]
pub(crate) struct Input<'a> {
    text: &'a [u8],
    tokens: &'a [Token],
}

impl<'a> Model for Input<'a> {
    ghost use Rattle.std.specs.Prelude.{List, length};
    ghost use Rattle.str_parser.specs.Lexemes.{Lexeme, lexemes};
    ghost use Rattle.str_parser.specs.Within.{AreWithin};

    ghost Value = { List Lexeme };

    ghost view = { λ i. lexemes i.text.now i.tokens.now };

    ghost invariant = { λ i. AreWithin (length i.text.now) i.tokens.now };
}

/// The token of this kind, with its text.
fn with_text<'a>(text: &'a [u8], token: &'a Token) -> Lexeme<'a>
    requires { (token.now.from ≤ token.now.to) × (token.now.to ≤ length text.now) }
    ensures { lexeme_in result ≡ lexeme_of text.now token.now }
{
    match &token.kind {
        TokenKind::Name => Lexeme::Name(&text[token.from..token.to]),
        TokenKind::Wildcard => Lexeme::Wildcard,
        TokenKind::Integer(value) => Lexeme::Integer(*value),
        TokenKind::Quoted(quoted) => Lexeme::Quoted(quoted.bytes()),
        TokenKind::Mark(mark) => Lexeme::Mark(*mark),
        TokenKind::Keyword(keyword) => Lexeme::Keyword(*keyword),
        TokenKind::LeftOut(_) => Lexeme::LeftOut,
    }
}

impl<'a> Input<'a> {
    /// These tokens of this text.
    pub(crate) fn new(text: &'a [u8], tokens: &'a [Token]) -> Input<'a>
        requires { AreWithin (length text.now) tokens.now }
        ensures { result ≡ lexemes text.now tokens.now }
    {
        Input { text, tokens }
    }

    /// Reads the first token; also returns the tokens after it.
    pub(crate) fn first(&self) -> Option<(Lexeme<'a>, Input<'a>)>
        ensures { IsFirst self.now result }
    {
        let (token, tokens) = self.tokens.split_first()?;
        let rest = Input {
            text: self.text,
            tokens,
        };
        Some((with_text(self.text, token), rest))
    }

    /// The tokens after this mark, where they begin with it.
    pub(crate) fn after(&self, mark: Mark) -> Option<Input<'a>>
        ensures { IsAfter mark self.now result }
    {
        let (first, rest) = self.first()?;
        match first {
            Lexeme::Mark(found) if found == mark => Some(rest),
            _ => None,
        }
    }

    /// The tokens after this keyword, where they begin with it.
    pub(crate) fn after_keyword(&self, keyword: Keyword) -> Option<Input<'a>>
        ensures { IsAfterKeyword keyword self.now result }
    {
        let (first, rest) = self.first()?;
        match first {
            Lexeme::Keyword(found) if found == keyword => Some(rest),
            _ => None,
        }
    }

    /// The byte at which the tokens begin, or the length of the text where there is none.
    pub(crate) fn at(&self) -> u64 {
        match self.tokens.first() {
            Some(token) => token.from as u64,
            None => self.text.len() as u64,
        }
    }

    /// The refusal of the first token, in the place of which one of these was expected.
    pub(crate) fn syntax(&self, expected: &'static [Candidate]) -> ParseRefusal
        ensures { IsSyntax result }
    {
        self.refusal(SyntaxReason::any_of(expected))
    }

    /// The refusal of the first token, for this reason.
    pub(crate) fn refusal(&self, reason: SyntaxReason) -> ParseRefusal
        ensures { IsSyntax result }
    {
        let at = self.at();
        ParseRefusal::Syntax { at, reason }
    }

    /// Tells whether there is no token.
    pub(crate) fn is_empty(&self) -> bool
        ensures { IsTrue result ↔ (self.now ≡ []) }
    {
        self.tokens.is_empty()
    }
}
