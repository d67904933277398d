//! Tokens that belong together: where patterns, calls and other strategies begin and end.

use str_lexer::{Keyword, Mark, Token, TokenKind};

/// Whether the token is a name.
pub(crate) fn is_name(token: &Token) -> bool {
    matches!(token.kind, TokenKind::Name)
}

/// Whether the token is this mark.
pub(crate) fn is_mark(token: &Token, wanted: Mark) -> bool {
    match &token.kind {
        TokenKind::Mark(mark) => *mark == wanted,
        _ => false,
    }
}

/// Whether the token at an index is this text in quotes.
fn is_quoted(tokens: &[Token], index: usize, wanted: &[u8]) -> bool {
    match tokens.get(index).map(|token| &token.kind) {
        Some(TokenKind::Quoted(text)) => text.bytes() == wanted,
        _ => false,
    }
}

/// Whether the token at an index is this keyword.
pub(crate) fn is_keyword(tokens: &[Token], index: usize, wanted: Keyword) -> bool {
    match tokens.get(index).map(|token| &token.kind) {
        Some(TokenKind::Keyword(keyword)) => *keyword == wanted,
        _ => false,
    }
}

/// Whether the call of the primitive of this name begins with the token at an index.
pub(crate) fn calls_primitive(tokens: &[Token], index: usize, name: &[u8]) -> bool {
    is_keyword(tokens, index, Keyword::Prim) && is_quoted(tokens, index.saturating_add(2), name)
}

/// Whether the token after that at an index is this mark.
pub(crate) fn next_is(tokens: &[Token], index: usize, wanted: Mark) -> bool {
    match tokens.get(index.saturating_add(1)) {
        Some(next) => is_mark(next, wanted),
        None => false,
    }
}

/// How many brackets are open after a token.
pub(crate) fn depth_after(depth: usize, token: &Token) -> usize {
    let TokenKind::Mark(mark) = &token.kind else {
        return depth;
    };
    match mark {
        Mark::OpenParenthesis | Mark::OpenBracket | Mark::OpenBrace | Mark::Less => {
            depth.saturating_add(1)
        }
        Mark::CloseParenthesis | Mark::CloseBracket | Mark::CloseBrace | Mark::Greater => {
            depth.saturating_sub(1)
        }
        _ => depth,
    }
}

/// Where the pattern begins in which a token is the first name, or the first token of all: at the sign in front of it, or after what leads
/// to it.
pub(crate) fn first_of_pattern(tokens: &[Token], named: usize) -> usize {
    match tokens.get(named).map(|token| &token.kind) {
        Some(TokenKind::Name | TokenKind::Wildcard) => first_before(tokens, named),
        Some(TokenKind::Mark(Mark::Backslash)) => named.saturating_add(1),
        Some(TokenKind::Mark(Mark::Less)) => after_bracket(tokens, named),
        _ => named,
    }
}

/// Where the pattern begins in which a token is the first name. What an application `<s> p` in front of it has is passed over.
fn first_before(tokens: &[Token], named: usize) -> usize {
    let mut depth: usize = 0;
    for index in (0..named.min(tokens.len())).rev() {
        let token = &tokens[index];
        if depth == 0 {
            let led = pattern_led_by(tokens, index, named);
            if led.is_some() || !is_inside(token) {
                return led.unwrap_or(named);
            }
        }
        depth = depth_before(depth, token);
    }
    named
}

/// Where the pattern begins to which the token at an index leads, if a token after it belongs to that pattern.
fn pattern_led_by(tokens: &[Token], index: usize, named: usize) -> Option<usize> {
    let first = match &tokens.get(index)?.kind {
        TokenKind::Mark(Mark::Question | Mark::Exclamation) => index,
        TokenKind::Mark(Mark::Colon) if is_of_scope(tokens, index) => return None,
        TokenKind::Mark(
            Mark::Colon | Mark::Arrow | Mark::DoubleArrow | Mark::Greater | Mark::Backslash,
        ) => index.saturating_add(1),
        _ => return None,
    };
    if end_of_phrase(tokens, first) > named {
        Some(first)
    } else {
        None
    }
}

/// Whether the colon at an index is that of a scope, as in `{x, y: s}`.
pub(crate) fn is_of_scope(tokens: &[Token], colon: usize) -> bool {
    match colon.checked_sub(2).and_then(|index| tokens.get(index)) {
        Some(token) => is_mark(token, Mark::OpenBrace) || is_mark(token, Mark::Comma),
        None => false,
    }
}

/// Whether a token can stand in a pattern in front of its first name that is in no application, or is the end of `<s>`.
fn is_inside(token: &Token) -> bool {
    match &token.kind {
        TokenKind::Name | TokenKind::Integer(_) | TokenKind::Quoted(_) => true,
        TokenKind::Mark(Mark::OpenParenthesis | Mark::OpenBracket | Mark::OpenBrace) => true,
        TokenKind::Mark(Mark::CloseParenthesis | Mark::CloseBracket | Mark::CloseBrace) => true,
        TokenKind::Mark(Mark::Comma | Mark::Bar | Mark::Greater) => true,
        _ => false,
    }
}

/// How many `<..>` stand open in front of a token, if this many do after it and the tokens are read backwards.
fn depth_before(depth: usize, token: &Token) -> usize {
    if is_mark(token, Mark::Greater) {
        depth.saturating_add(1)
    } else if is_mark(token, Mark::Less) {
        depth.saturating_sub(1)
    } else {
        depth
    }
}

/// The index after the bracket that closes the one at an index.
fn after_bracket(tokens: &[Token], first: usize) -> usize {
    let mut depth: usize = 0;
    for index in first..tokens.len() {
        depth = depth_after(depth, &tokens[index]);
        if depth == 0 {
            return index.saturating_add(1);
        }
    }
    tokens.len()
}

/// The index after the first such mark outside of brackets from an index on, if no `=` comes before it.
pub(crate) fn after_mark(tokens: &[Token], from: usize, wanted: Mark) -> Option<usize> {
    let mut depth: usize = 0;
    for index in from..tokens.len() {
        let token = &tokens[index];
        if depth == 0 && is_mark(token, Mark::Equals) {
            return None;
        }
        if depth == 0 && is_mark(token, wanted) {
            return Some(index.saturating_add(1));
        }
        depth = depth_after(depth, token);
    }
    None
}

/// Where the phrase ends that begins with a token: a pattern, or a call.
pub(crate) fn end_of_phrase(tokens: &[Token], first: usize) -> usize {
    let mut depth: usize = 0;
    for index in first..tokens.len() {
        depth = depth_after(depth, &tokens[index]);
        if depth == 0 && !goes_on(tokens, index) {
            return index.saturating_add(1);
        }
    }
    tokens.len()
}

/// Whether a pattern can begin with the token at an index.
fn begins_pattern(tokens: &[Token], index: usize) -> bool {
    match tokens.get(index).map(|token| &token.kind) {
        Some(TokenKind::Name | TokenKind::Integer(_) | TokenKind::Quoted(_)) => true,
        Some(TokenKind::Wildcard) => true,
        Some(TokenKind::Mark(Mark::OpenParenthesis | Mark::OpenBracket | Mark::Less)) => true,
        _ => false,
    }
}

/// Whether a phrase in which no bracket is open goes on after the token at an index.
fn goes_on(tokens: &[Token], index: usize) -> bool {
    let is_annotated = next_is(tokens, index, Mark::OpenBrace);
    match tokens.get(index).map(|token| &token.kind) {
        Some(TokenKind::Mark(Mark::Question | Mark::Exclamation | Mark::At)) => true,
        Some(TokenKind::Mark(Mark::Greater)) => begins_pattern(tokens, index.saturating_add(1)),
        Some(TokenKind::Name | TokenKind::Keyword(_)) => {
            is_annotated
                || next_is(tokens, index, Mark::OpenParenthesis)
                || next_is(tokens, index, Mark::At)
        }
        Some(TokenKind::Mark(Mark::CloseParenthesis | Mark::CloseBracket)) => is_annotated,
        Some(TokenKind::Integer(_) | TokenKind::Quoted(_) | TokenKind::Wildcard) => is_annotated,
        _ => false,
    }
}
