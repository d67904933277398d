//! Rules in place of strategies, strategies in place of rules, and conditions that are none.

use crate::advice::Advice;
use crate::phrases::{is_keyword, is_mark, is_name, is_of_scope};
use crate::pieces::position_in;
use crate::syntax_hints::Site;
use str_lexer::{Keyword, Mark};
use str_parser::Candidate;

/// Whether the token at fault is in the definition of a strategy, which has a `=` after its name.
pub(crate) fn is_in_strategy(site: &Site<'_>) -> bool {
    sign_before(site).is_some_and(|sign| site.mark_at(sign) == Some(Mark::Equals))
}

/// Whether the token at fault is in a rule, which has a `:` after its name.
pub(crate) fn is_in_rule(site: &Site<'_>) -> bool {
    sign_before(site).is_some_and(|sign| site.mark_at(sign) == Some(Mark::Colon))
}

/// Whether the `=` at fault seems to compare terms in the condition of a rule: what is in front of its left side is on the same line.
pub(crate) fn is_compared(site: &Site<'_>) -> bool {
    let Some(name) = site.name_in_front() else {
        return false;
    };
    let before = name.checked_sub(1).and_then(|index| site.tokens.get(index));
    let (Some(before), Some(left)) = (before, site.tokens.get(name)) else {
        return false;
    };
    let is_led = is_mark(before, Mark::Semicolon)
        || is_keyword(site.tokens, name.saturating_sub(1), Keyword::Where);
    let lines = (
        position_in(site.text, before.from).line,
        position_in(site.text, left.from).line,
    );
    is_led && lines.0 == lines.1 && is_in_rule(site)
}

/// The advice on this keyword, which is the token at fault, if it seems to belong to another place.
pub(crate) fn misplacement_advice(site: &Site<'_>, keyword: Keyword) -> Option<Advice> {
    let sign = sign_before(site)?;
    if site.mark_at(sign) != Some(Mark::Colon) {
        return None;
    }
    let mut between = sign..site.index;
    let has_where = between.any(|index| is_keyword(site.tokens, index, Keyword::Where));
    if keyword == Keyword::Where && has_where {
        return Some(Advice::SecondCondition);
    }
    let mut between = sign..site.index;
    let has_arrow = between.any(|index| site.mark_at(index) == Some(Mark::Arrow));
    if site.expects(Candidate::Pattern) && !has_arrow && begins_strategy(keyword) {
        return Some(Advice::StrategyAfterColon);
    }
    None
}

/// Whether strategies begin with the keyword, and patterns never do.
fn begins_strategy(keyword: Keyword) -> bool {
    matches!(
        keyword,
        Keyword::Id
            | Keyword::Fail
            | Keyword::Not
            | Keyword::Where
            | Keyword::If
            | Keyword::All
            | Keyword::One
            | Keyword::Some
            | Keyword::Rec
            | Keyword::Let
            | Keyword::Prim
    )
}

/// The index of the `=` or `:` of the definition in which the token at fault seems to be.
fn sign_before(site: &Site<'_>) -> Option<usize> {
    for name in (0..site.index.min(site.tokens.len())).rev() {
        if !is_name(&site.tokens[name]) {
            continue;
        }
        match site.sign_after(name) {
            Some(sign) if sign < site.index && !is_of_scope(site.tokens, sign) => return Some(sign),
            _ => {}
        }
    }
    None
}
