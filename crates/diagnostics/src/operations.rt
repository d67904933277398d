//! What was probably meant by an operator between two terms, which the language does not have.

use crate::advice::Advice;
use crate::context::{Role, context_at};
use crate::hint::Hint;
use crate::pieces::piece;
use crate::syntax_hints::Site;
use std::alloc::Global;
use str_lexer::{Keyword, Mark, Token, TokenKind, lex};
use str_parser::{Candidate, parse};
use term_model::Fault;
use term_model::bytes::is_blank_byte;

/// An operation on two terms for which there is a primitive.
#[derive(Clone, Copy, Debug, PartialEq, Eq)]
pub enum Operation {
    Sum,
    Difference,
    Product,
    Quotient,
    Concatenation,
}

impl Operation {
    /// What is done to what: the beginning of a sentence.
    pub fn words(self) -> &'static str {
        match self {
            Operation::Sum => "add integers",
            Operation::Difference => "subtract integers",
            Operation::Product => "multiply integers",
            Operation::Quotient => "divide integers",
            Operation::Concatenation => "join texts",
        }
    }

    /// The name of the primitive.
    pub fn primitive(self) -> &'static str {
        match self {
            Operation::Sum => "add",
            Operation::Difference => "sub",
            Operation::Product => "mul",
            Operation::Quotient => "div",
            Operation::Concatenation => "concat",
        }
    }
}

/// What was probably meant by a `+` at the site: a choice of strategies, or a sum or concatenation of terms.
pub(crate) fn plus_hint(site: &Site<'_>) -> Option<Hint> {
    let context = context_at(site.tokens, site.index)?;
    let is_rule = site.expects_only(Candidate::Arrow) || site.expects(Candidate::WhereKeyword);
    let next = site.index.saturating_add(1);
    let is_in_pattern = context.role != Role::Strategy && (context.is_part || is_rule);
    if !is_in_pattern && !is_literal(site.tokens, next) {
        return Some(Hint::Advice(Advice::LeftChoice));
    }
    let is_text = is_text(site.tokens, next) || is_text(site.tokens, site.index.saturating_sub(1));
    let operation = if is_text {
        Operation::Concatenation
    } else {
        Operation::Sum
    };
    infix_hint(site, operation)
}

/// What was probably meant by an operator at the site, if there is a term after it.
pub(crate) fn infix_hint(site: &Site<'_>, operation: Operation) -> Option<Hint> {
    let next = site.index.saturating_add(1);
    if begins_term(site.tokens, next) && !site.is_head(next) && !site.is_swallowed() {
        operation_hint(site.tokens, site.index, operation)
    } else {
        None
    }
}

/// What was probably meant by a negative integer that stands right after a name.
pub(crate) fn negative_hint(site: &Site<'_>) -> Option<Hint> {
    let token = site.tokens.get(site.index)?;
    let context = context_at(site.tokens, site.index)?;
    let is_negative = piece(site.text, token.from, token.to).starts_with(b"-");
    if is_negative && context.role == Role::Build && site.follows_name() {
        operation_hint(site.tokens, site.index, Operation::Difference)
    } else {
        None
    }
}

/// What was probably meant by a sign that begins no token, if this part of the definitions comes before it, and this one begins with it.
pub(crate) fn sign_hint(alloc: Global, before: &[u8], after: &[u8]) -> Option<Hint> {
    let operation = match after.first() {
        Some(b'-') => Operation::Difference,
        Some(b'/') => Operation::Quotient,
        _ => return None,
    };
    let next = after.iter().skip(1).find(|byte| !is_blank_byte(**byte));
    if !next.is_some_and(|next| begins_operand(*next)) {
        return None;
    }
    let tokens = beginning(alloc, before)?;
    operation_hint(&tokens, tokens.len(), operation)
}

/// The tokens of a text, if a file begins with it.
fn beginning(alloc: Global, text: &[u8]) -> Option<Vec<Token>> {
    let tokens = lex(alloc, text).ok()?;
    match parse(alloc, text, &tokens) {
        Ok(_) => Some(tokens),
        Err(Fault::Syntax { at }) if at == text.len() as u64 => Some(tokens),
        Err(_) => None,
    }
}

/// What was probably meant by an operator after the tokens up to an index, if a term ends there that is not matched.
fn operation_hint(tokens: &[Token], index: usize, operation: Operation) -> Option<Hint> {
    let context = context_at(tokens, index)?;
    if context.role == Role::Match || !ends_term(tokens, index.checked_sub(1)?) {
        return None;
    }
    Some(Hint::Operation { operation, context })
}

/// Whether a term can begin with this byte.
fn begins_operand(byte: u8) -> bool {
    byte.is_ascii_alphanumeric() || matches!(byte, b'_' | b'(' | b'<')
}

/// Whether a term can begin with the token at an index.
fn begins_term(tokens: &[Token], index: usize) -> bool {
    match tokens.get(index).map(|token| &token.kind) {
        Some(TokenKind::Name | TokenKind::Integer(_) | TokenKind::Quoted(_)) => true,
        Some(TokenKind::Mark(Mark::OpenParenthesis | Mark::Less)) => true,
        _ => false,
    }
}

/// Whether a term can end with the token at an index.
fn ends_term(tokens: &[Token], index: usize) -> bool {
    match tokens.get(index).map(|token| &token.kind) {
        Some(TokenKind::Name | TokenKind::Integer(_) | TokenKind::Quoted(_)) => true,
        Some(TokenKind::Mark(Mark::CloseParenthesis)) => true,
        _ => false,
    }
}

/// Whether the token at an index is an integer or a text.
fn is_literal(tokens: &[Token], index: usize) -> bool {
    matches!(
        tokens.get(index).map(|token| &token.kind),
        Some(TokenKind::Integer(_) | TokenKind::Quoted(_))
    )
}

/// Whether the token at an index is a text.
fn is_text(tokens: &[Token], index: usize) -> bool {
    matches!(
        tokens.get(index).map(|token| &token.kind),
        Some(TokenKind::Quoted(_))
    )
}
