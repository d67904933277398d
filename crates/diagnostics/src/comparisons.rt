//! What was probably meant by a comparison of two terms, which the language does not write with a sign.

use crate::advice::Advice;
use crate::context::{Role, context_at, near_context};
use crate::phrases::{is_name, next_is};
use crate::pieces::piece;
use crate::syntax_hints::Site;
use str_lexer::{Keyword, Mark, Token, TokenKind};
use str_parser::Candidate;

/// What to write in place of the comparison at the site, if one stands there.
pub(crate) fn comparison(site: &Site<'_>) -> Option<Advice> {
    let last = site.index.checked_sub(1)?;
    let context = context_at(site.tokens, site.index)?;
    let sign = site.mark_at(site.index);
    if site.expects(Candidate::Colon) {
        return None;
    }
    if site.expects(Candidate::Plus) {
        return variable_comparison(site, last);
    }
    if site.expects(Candidate::Strategy) {
        return match sign {
            Some(Mark::Equals) => condition_at(site, last),
            _ => integer_comparison(site, last),
        };
    }
    let is_part_of_build = context.is_part && context.role == Role::Build;
    match sign? {
        Mark::Equals | Mark::Exclamation => comparison_at(site, site.index),
        Mark::Less | Mark::Greater if ends_rule(site) => built_at(site),
        Mark::Greater if ends_operand(site) => greater_comparison(site, last),
        Mark::Less if is_part_of_build => built_at(site),
        _ => None,
    }
}

/// Whether a rule without a condition could end at the site.
fn ends_rule(site: &Site<'_>) -> bool {
    site.expects(Candidate::WhereKeyword) && site.expects(Candidate::Definition)
}

/// Whether a definition of a strategy or the condition of an `if` could end at the site.
fn ends_operand(site: &Site<'_>) -> bool {
    site.expects(Candidate::Operator) || site.expects(Candidate::ThenKeyword)
}

/// The comparison whose sign begins at the site, in a build, if there are blanks around the sign.
fn built_at(site: &Site<'_>) -> Option<Advice> {
    if touches_next(site.tokens, site.index.checked_sub(1)?) {
        None
    } else {
        comparison_at(site, site.index)
    }
}

/// The comparison whose sign begins at an index, if a condition begins with the name or integer in front of it.
fn condition_at(site: &Site<'_>, sign: usize) -> Option<Advice> {
    if begins_condition(site.tokens, sign.checked_sub(1)?) {
        comparison_at(site, sign)
    } else {
        None
    }
}

/// The comparison of a name by a `>` or `>=`, if the name is a variable or the other side is an integer.
fn greater_comparison(site: &Site<'_>, last: usize) -> Option<Advice> {
    let next = site.index.saturating_add(1);
    let after = next.saturating_add(1);
    let is_integer = is_integer(site.tokens, next) || is_integer(site.tokens, after);
    if is_integer || is_variable(site, last) {
        condition_at(site, site.index)
    } else {
        None
    }
}

/// The comparison of an integer in place of a strategy, on either side of the sign.
fn integer_comparison(site: &Site<'_>, last: usize) -> Option<Advice> {
    if !is_integer(site.tokens, site.index) {
        return None;
    }
    match site.mark_at(last) {
        Some(Mark::Less) => condition_at(site, last),
        _ => comparison_at(site, site.index.saturating_add(1)),
    }
}

/// The comparison of two names by a `<`, if one of them is a variable.
fn variable_comparison(site: &Site<'_>, last: usize) -> Option<Advice> {
    let sign = last.checked_sub(1)?;
    if is_variable(site, sign.checked_sub(1)?) || is_variable(site, last) {
        condition_at(site, sign)
    } else {
        None
    }
}

/// The comparison whose sign begins at an index. After `==` and `!=` any term may come, and after the others what ends a comparison.
fn comparison_at(site: &Site<'_>, sign: usize) -> Option<Advice> {
    let is_long = site.touches(sign, Mark::Equals);
    let last = if is_long {
        sign.saturating_add(1)
    } else {
        sign
    };
    let is_even = touches_next(site.tokens, last)
        == touches_next(site.tokens, sign.checked_sub(1)?);
    let is_whole = is_even && ends(site, last.saturating_add(1));
    match (site.mark_at(sign)?, is_long) {
        (Mark::Equals, true) => Some(Advice::Equality),
        (Mark::Exclamation, true) => Some(Advice::Inequality),
        (Mark::Less, false) if is_whole => Some(Advice::Less),
        (Mark::Greater, false) if is_whole => Some(Advice::Greater),
        (Mark::Less, true) if is_whole => Some(Advice::AtMost),
        (Mark::Greater, true) if is_whole => Some(Advice::AtLeast),
        _ => None,
    }
}

/// Whether there is no blank between the token at an index and the next one.
fn touches_next(tokens: &[Token], index: usize) -> bool {
    match (tokens.get(index), tokens.get(index.saturating_add(1))) {
        (Some(token), Some(next)) => token.to == next.from,
        _ => false,
    }
}

/// Whether a name or an integer is at an index, and after it what comes after a whole comparison.
fn ends(site: &Site<'_>, operand: usize) -> bool {
    if !is_operand(site.tokens, operand) {
        return false;
    }
    let after = operand.saturating_add(1);
    match site.tokens.get(after).map(|token| &token.kind) {
        None => true,
        Some(TokenKind::Keyword(keyword)) => !matches!(keyword, Keyword::Id | Keyword::Fail),
        Some(TokenKind::Mark(mark)) => matches!(
            mark,
            Mark::CloseParenthesis | Mark::CloseBracket | Mark::Comma | Mark::Semicolon
        ),
        Some(TokenKind::Name) => site.is_head(after),
        _ => false,
    }
}

/// Whether a name or an integer is at an index, and in front of it what comes before a condition.
fn begins_condition(tokens: &[Token], operand: usize) -> bool {
    if !is_operand(tokens, operand) {
        return false;
    }
    let before = operand.checked_sub(1).and_then(|index| tokens.get(index));
    match before.map(|token| &token.kind) {
        Some(TokenKind::Keyword(keyword)) => matches!(keyword, Keyword::Where | Keyword::If),
        Some(TokenKind::Mark(mark)) => matches!(mark, Mark::OpenParenthesis | Mark::Semicolon),
        _ => false,
    }
}

/// Whether the token at an index is a name or an integer.
fn is_operand(tokens: &[Token], index: usize) -> bool {
    is_integer(tokens, index) || tokens.get(index).is_some_and(|token| is_name(token))
}

/// Whether the token at an index is an integer.
fn is_integer(tokens: &[Token], index: usize) -> bool {
    matches!(
        tokens.get(index).map(|token| &token.kind),
        Some(TokenKind::Integer(_))
    )
}

/// Whether the name at an index stands in a pattern, too, between it and the name of a definition in front of it.
fn is_variable(site: &Site<'_>, named: usize) -> bool {
    let Some(name) = site.tokens.get(named) else {
        return false;
    };
    let name = piece(site.text, name.from, name.to);
    for index in (0..named.min(site.tokens.len())).rev() {
        let token = &site.tokens[index];
        let is_same = piece(site.text, token.from, token.to) == name;
        if is_same && is_in_pattern(site.tokens, index) {
            return true;
        }
        if is_name(token) && site.is_head(index) {
            return false;
        }
    }
    false
}

/// Whether the name at an index is a variable of a pattern.
fn is_in_pattern(tokens: &[Token], index: usize) -> bool {
    match near_context(tokens, index) {
        Some(context) => {
            context.role != Role::Strategy && !next_is(tokens, index, Mark::OpenParenthesis)
        }
        None => false,
    }
}
