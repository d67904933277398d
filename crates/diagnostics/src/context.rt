//! What the tokens of definitions are in the middle of at a place.

use crate::phrases::{is_mark, is_of_scope};
use str_lexer::{Keyword, Mark, Token, TokenKind};

/// What a token belongs to.
#[derive(Clone, Copy, Debug, PartialEq, Eq)]
pub enum Role {
    Strategy,
    /// A pattern that is matched.
    Match,
    /// A pattern that is built.
    Build,
}

/// What a token belongs to, and whether it stands between brackets there.
#[derive(Clone, Copy, Debug, PartialEq, Eq)]
pub struct Context {
    pub role: Role,
    pub is_part: bool,
}

impl Context {
    /// What has to stand before and after a strategy there. In a build it is applied, as `<s>`; outside brackets that stands in parentheses,
    /// since what comes next might be read as its operand.
    pub(crate) fn around_strategy(&self) -> (&'static str, &'static str) {
        match self.role {
            Role::Build if self.is_part => ("<", ">"),
            Role::Build => ("(<", ">)"),
            _ => ("", ""),
        }
    }
}

/// How many tokens are looked at for what leads to a token.
const NEAR: usize = 500;

/// What the token at an index belongs to, if the tokens in front of it begin a file; nothing for one of a signature, or if what leads to
/// it is too far away.
pub(crate) fn context_at(tokens: &[Token], index: usize) -> Option<Context> {
    if is_in_signature(tokens, index) {
        return None;
    }
    near_context(tokens, index)
}

/// What the token at an index belongs to, which is not in a signature; nothing if what leads to it is too far away.
pub(crate) fn near_context(tokens: &[Token], index: usize) -> Option<Context> {
    let mut way = Way {
        depth: 0,
        is_part: false,
        is_parted: false,
        is_after_bar: false,
    };
    let end = index.min(tokens.len());
    for at in (end.saturating_sub(NEAR)..end).rev() {
        if let Some(role) = way.step(tokens, at, at.saturating_add(1) == index) {
            return Some(Context {
                role,
                is_part: way.is_part,
            });
        }
    }
    None
}

/// The way back from a token to what leads to it.
#[derive(Clone, Copy)]
struct Way {
    /// How many brackets are closed after the place that is reached, and opened before it.
    depth: usize,
    /// Whether a bracket that is open around the token is passed.
    is_part: bool,
    /// Whether a comma or a bar is passed since.
    is_parted: bool,
    /// Whether a bar is passed since.
    is_after_bar: bool,
}

impl Way {
    /// Goes on to the token at an index, and returns what it leads to. It may be right before the one from which the way begins.
    fn step(&mut self, tokens: &[Token], at: usize, is_last: bool) -> Option<Role> {
        let token = tokens.get(at)?;
        if closes(token) {
            self.depth = self.depth.saturating_add(1);
            return None;
        }
        if opens(token) {
            return self.pass_bracket(token);
        }
        if self.depth > 0 {
            return None;
        }
        self.is_after_bar = self.is_after_bar || is_mark(token, Mark::Bar);
        self.is_parted = self.is_parted || self.is_after_bar || is_mark(token, Mark::Comma);
        if self.is_parted {
            None
        } else {
            role_led_by(tokens, at, is_last)
        }
    }

    /// Passes an opening bracket. What comes after a bar between parentheses is built.
    fn pass_bracket(&mut self, token: &Token) -> Option<Role> {
        if self.depth > 0 {
            self.depth = self.depth.saturating_sub(1);
            return None;
        }
        let is_argument = self.is_after_bar && is_mark(token, Mark::OpenParenthesis);
        self.is_part = true;
        self.is_parted = false;
        self.is_after_bar = false;
        if is_argument { Some(Role::Build) } else { None }
    }
}

/// What the token at an index leads to, which is no bracket, comma or bar; nothing if it belongs to what comes after it.
fn role_led_by(tokens: &[Token], at: usize, is_last: bool) -> Option<Role> {
    match &tokens.get(at)?.kind {
        TokenKind::Name | TokenKind::Integer(_) | TokenKind::Quoted(_) => None,
        TokenKind::Wildcard | TokenKind::Mark(Mark::At) => None,
        TokenKind::Keyword(Keyword::Prim) => Some(Role::Build),
        TokenKind::Mark(Mark::Exclamation | Mark::Arrow | Mark::Greater) => Some(Role::Build),
        TokenKind::Mark(Mark::Question | Mark::DoubleArrow) => Some(Role::Match),
        TokenKind::Mark(Mark::Colon) if !is_of_scope(tokens, at) => Some(Role::Match),
        TokenKind::Mark(Mark::Backslash) if !is_last => Some(Role::Match),
        _ => Some(Role::Strategy),
    }
}

/// Whether the last section that begins before a token is a signature.
fn is_in_signature(tokens: &[Token], index: usize) -> bool {
    for at in (0..index.min(tokens.len())).rev() {
        match &tokens[at].kind {
            TokenKind::Keyword(Keyword::Signature) => return true,
            TokenKind::Keyword(Keyword::Rules | Keyword::Strategies) => return false,
            _ => {}
        }
    }
    false
}

/// Whether the token opens a bracket.
pub(crate) fn opens(token: &Token) -> bool {
    is_mark(token, Mark::OpenParenthesis)
        || is_mark(token, Mark::OpenBracket)
        || is_mark(token, Mark::OpenBrace)
}

/// Whether the token closes a bracket.
pub(crate) fn closes(token: &Token) -> bool {
    is_mark(token, Mark::CloseParenthesis)
        || is_mark(token, Mark::CloseBracket)
        || is_mark(token, Mark::CloseBrace)
}
