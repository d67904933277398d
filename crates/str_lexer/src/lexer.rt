//! Tokens from bytes, in one pass.
ghost use Rattle.std.specs.Prelude.{true, ◌≡◌, ◌==◌, List, [], ◌∷◌, ◌++◌, IfOk};
ghost use Rattle.str_lexer.specs.declared.token.Token.{Token};
ghost use Rattle.str_lexer.specs.Tokens.{first_is};
ghost use Rattle.str_lexer.specs.Lexes.{left_out};
ghost use Rattle.str_lexer.specs.Lexing.{AreSlices, IsLexing};
ghost use Rattle.str_lexer.specs.Readings.{begins_integer, IsTokenRead, IsCutting, IsSearch};

use crate::gap::gap;
use crate::integer;
use crate::mark::mark;
use crate::quoted::quoted_text;
use crate::token::{Token, TokenKind};
use crate::word::word;
use std::alloc::{AllocError, Global};
use term_model::{Fault, symbol};

/// The integer that the bytes begin with, and the bytes after it.
fn integer_token<'a>(text: &'a [u8]) -> Option<(TokenKind, &'a [u8])>
    requires { begins_integer text.now ≡ true }
    ensures { IsTokenRead text.now result }
{
    let Some((value, rest)) = integer::integer(text) else {
        return None;
    };
    Some((TokenKind::Integer(value), rest))
}

/// The quoted text that the bytes begin with, and the bytes after it.
fn quoted_token<'a>(
    alloc: Global,
    text: &'a [u8],
) -> Result<Option<(TokenKind, &'a [u8])>, AllocError>
    requires { first_is (λ b. b == 34) text.now ≡ true }
    ensures { IfOk result (λ found. IsTokenRead text.now found) }
{
    let Some((value, rest)) = quoted_text(alloc, text)? else {
        return Ok(None);
    };
    Ok(Some((TokenKind::Quoted(value), rest)))
}

/// The token that the bytes begin with, and the bytes after it.
fn token<'a>(alloc: Global, text: &'a [u8]) -> Result<Option<(TokenKind, &'a [u8])>, AllocError>
    ensures { IfOk result (λ found. IsTokenRead text.now found) }
{
    let Some((first, _)) = text.split_first() else {
        return Ok(None);
    };
    if symbol::begins(*first) {
        return Ok(Some(word(text)));
    }
    if integer::begins(text) {
        return Ok(integer_token(text));
    }
    if *first == b'"' {
        return quoted_token(alloc, text);
    }
    let Some((mark, rest)) = mark(text) else {
        return Ok(None);
    };
    Ok(Some((TokenKind::Mark(mark), rest)))
}

fn is_left_out(token: &Token) -> bool
    ensures { result ≡ left_out token.now }
{
    matches!(token.kind, TokenKind::LeftOut(_))
}

/// Where the first word of a left-out part stands, once this token comes after others.
fn first_left_out(before: Option<usize>, token: &Token) -> Option<usize>
    ensures { (ts : List Token) → IsSearch ts before → IsSearch (ts ++ (token.now ∷ [])) result }
{
    match before {
        Some(from) => Some(from),
        None if is_left_out(token) => Some(token.from),
        None => None,
    }
}

/// The tokens that the bytes are, the words of left-out parts among them, and where the first such word stands.
fn cut(alloc: Global, text: &[u8]) -> Result<(Vec<Token>, Option<usize>), Fault>
    ensures { IsCutting text.now result }
{
    let mut tokens = Vec::new(alloc);
    let mut left_out = None;
    let mut rest = text;
    while !rest.is_empty() {
        if let Some(following) = gap(rest) {
            rest = following;
            continue;
        }
        let from = text.len() - rest.len();
        let Some((kind, following)) = token(alloc, rest)? else {
            return Err(Fault::Lexical { at: from as u64 });
        };
        let to = text.len() - following.len();
        let token = Token { kind, from, to };
        left_out = first_left_out(left_out, &token);
        tokens.push(token)?;
        rest = following;
    }
    Ok((tokens, left_out))
}

/// The tokens that the bytes are, each the longest at its place, with blanks and comments between
/// them.
///
/// `Lexical` where the bytes are no tokens: `at` is the offset, in bytes, of the first byte that
/// begins no token, or of a comment or a quoted text that is not closed, or of an integer that is
/// out of range. `ReservedWord` where they are tokens and one is a word of a left-out part: `at`
/// is the offset of the first such word. `Memory` where a growth is refused.
pub fn lex(alloc: Global, text: &[u8]) -> Result<Vec<Token>, Fault>
    ensures exact { IsLexing text.now result }
    ensures slices { IfOk result (λ ts. AreSlices text.now 0 ts.items) }
{
    let (tokens, left_out) = cut(alloc, text)?;
    if let Some(from) = left_out {
        return Err(Fault::ReservedWord { at: from as u64 });
    }
    Ok(tokens)
}
