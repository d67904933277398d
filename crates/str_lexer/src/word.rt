//! The words: those that are no names, and names.
ghost use Rattle.std.specs.Prelude.{true, ◌≡◌, ℕ, List, ◌∷◌, MatchOption};
ghost use Rattle.term_model.specs.Symbol.{begins_name};
ghost use Rattle.str_lexer.specs.Tokens.{first_is};
ghost use Rattle.str_lexer.specs.Words.{keyword_bytes, left_out_bytes, reserved_bytes};
ghost use Rattle.str_lexer.specs.WordTokens.{kind_of};
ghost use Rattle.str_lexer.specs.Readings.{IsAmong, BeginsToken};

use crate::runs::word_length;
use crate::token::{Keyword, LeftOut, TokenKind};

/// A word that is no name.
#[derive(Clone, Copy)]
pub(crate) enum Reserved {
    Wildcard,
    Keyword(Keyword),
    LeftOut(LeftOut),
}

/// The words that are no names, where more than one begins with a letter.
const BEGINNING_WITH_C: &[Reserved] = &[
    Reserved::Keyword(Keyword::Constructors),
    Reserved::LeftOut(LeftOut::Case),
];

const BEGINNING_WITH_E: &[Reserved] = &[
    Reserved::Keyword(Keyword::Else),
    Reserved::Keyword(Keyword::End),
    Reserved::LeftOut(LeftOut::External),
];

const BEGINNING_WITH_I: &[Reserved] = &[
    Reserved::Keyword(Keyword::Id),
    Reserved::Keyword(Keyword::If),
    Reserved::Keyword(Keyword::In),
    Reserved::LeftOut(LeftOut::Imports),
];

const BEGINNING_WITH_O: &[Reserved] = &[
    Reserved::Keyword(Keyword::One),
    Reserved::LeftOut(LeftOut::Overlays),
    Reserved::LeftOut(LeftOut::Otherwise),
];

const BEGINNING_WITH_R: &[Reserved] = &[
    Reserved::Keyword(Keyword::Rules),
    Reserved::Keyword(Keyword::Rec),
];

const BEGINNING_WITH_S: &[Reserved] = &[
    Reserved::Keyword(Keyword::Signature),
    Reserved::Keyword(Keyword::Sorts),
    Reserved::Keyword(Keyword::Strategies),
    Reserved::Keyword(Keyword::Some),
    Reserved::LeftOut(LeftOut::Switch),
];

const BEGINNING_WITH_W: &[Reserved] = &[
    Reserved::Keyword(Keyword::Where),
    Reserved::LeftOut(LeftOut::With),
];

/// The bytes of the keyword.
fn bytes_of_keyword(keyword: Keyword) -> &'static [u8]
    ensures { result.now ≡ keyword_bytes keyword }
{
    match keyword {
        Keyword::Signature => b"signature",
        Keyword::Sorts => b"sorts",
        Keyword::Constructors => b"constructors",
        Keyword::Rules => b"rules",
        Keyword::Strategies => b"strategies",
        Keyword::Id => b"id",
        Keyword::Fail => b"fail",
        Keyword::Where => b"where",
        Keyword::Not => b"not",
        Keyword::If => b"if",
        Keyword::Then => b"then",
        Keyword::Else => b"else",
        Keyword::End => b"end",
        Keyword::All => b"all",
        Keyword::One => b"one",
        Keyword::Some => b"some",
        Keyword::Rec => b"rec",
        Keyword::Let => b"let",
        Keyword::In => b"in",
        Keyword::Prim => b"prim",
    }
}

/// The bytes of the word.
fn bytes_of_left_out(word: LeftOut) -> &'static [u8]
    ensures { result.now ≡ left_out_bytes word }
{
    match word {
        LeftOut::Module => b"module",
        LeftOut::Imports => b"imports",
        LeftOut::Overlays => b"overlays",
        LeftOut::With => b"with",
        LeftOut::Switch => b"switch",
        LeftOut::Case => b"case",
        LeftOut::Otherwise => b"otherwise",
        LeftOut::External => b"external",
    }
}

impl Reserved {
    /// The bytes of the word.
    fn bytes(self) -> &'static [u8]
        ensures { result.now ≡ reserved_bytes self }
    {
        match self {
            Reserved::Wildcard => b"_",
            Reserved::Keyword(keyword) => bytes_of_keyword(keyword),
            Reserved::LeftOut(word) => bytes_of_left_out(word),
        }
    }

    /// The kind of token that the word is.
    fn kind(self) -> TokenKind
        ensures { result ≡ kind_of self }
    {
        match self {
            Reserved::Wildcard => TokenKind::Wildcard,
            Reserved::Keyword(keyword) => TokenKind::Keyword(keyword),
            Reserved::LeftOut(word) => TokenKind::LeftOut(word),
        }
    }
}

/// The words that are no names and begin with this byte.
fn beginning_with(first: u8) -> &'static [Reserved]
    ensures { (r : Reserved) (rest : List ℕ) → reserved_bytes r ≡ first ∷ rest →
        IsAmong r result.now }
{
    match first {
        b'_' => &[Reserved::Wildcard],
        b'a' => &[Reserved::Keyword(Keyword::All)],
        b'c' => BEGINNING_WITH_C,
        b'e' => BEGINNING_WITH_E,
        b'f' => &[Reserved::Keyword(Keyword::Fail)],
        b'i' => BEGINNING_WITH_I,
        b'l' => &[Reserved::Keyword(Keyword::Let)],
        b'm' => &[Reserved::LeftOut(LeftOut::Module)],
        b'n' => &[Reserved::Keyword(Keyword::Not)],
        b'o' => BEGINNING_WITH_O,
        b'p' => &[Reserved::Keyword(Keyword::Prim)],
        b'r' => BEGINNING_WITH_R,
        b's' => BEGINNING_WITH_S,
        b't' => &[Reserved::Keyword(Keyword::Then)],
        b'w' => BEGINNING_WITH_W,
        _ => &[],
    }
}

/// The word that these bytes are, unless they are a name.
fn reserved_word(bytes: &[u8]) -> Option<Reserved>
    ensures { MatchOption result ((r : Reserved) → reserved_bytes r ≡ bytes.now →
        ⊥) (λ r. reserved_bytes r ≡ bytes.now) }
{
    let (first, _) = bytes.split_first()?;
    for reserved in beginning_with(*first) {
        if reserved.bytes() == bytes {
            return Some(*reserved);
        }
    }
    None
}

/// The word that the bytes begin with, and the bytes after it.
pub(crate) fn word<'a>(text: &'a [u8]) -> (TokenKind, &'a [u8])
    requires { first_is begins_name text.now ≡ true }
    ensures { BeginsToken result.0 text.now result.1.now }
{
    let end = 1 + word_length(&text[1..]);
    let (bytes, rest) = text.split_at(end);
    match reserved_word(bytes) {
        Some(reserved) => (reserved.kind(), rest),
        None => (TokenKind::Name, rest),
    }
}
