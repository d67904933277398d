//! What was probably meant where the tokens of definitions are no phrase.

use crate::advice::Advice;
use crate::comparisons::comparison;
use crate::context::{Role, closes, context_at, opens};
use crate::hint::Hint;
use crate::misplacement::{is_compared, is_in_rule, is_in_strategy, misplacement_advice};
use crate::operations::{Operation, infix_hint, negative_hint, plus_hint};
use crate::phrases::{is_keyword, is_mark, is_name};
use crate::pieces::{piece, position_in};
use crate::shown::Shown;
use std::alloc::{AllocError, Global};
use str_lexer::{Keyword, Mark, Token, TokenKind, lex};
use str_parser::{Candidate, SyntaxReason};

/// What was probably meant where the tokens of the text are no phrase from this byte on, for this reason.
pub(crate) fn syntax_hint(
    alloc: Global,
    text: &[u8],
    at: usize,
    reason: SyntaxReason,
) -> Option<Hint> {
    let tokens = lex(alloc, text).ok()?;
    let index = tokens.partition_point(|token| token.from < at);
    let site = Site {
        text,
        tokens: &tokens,
        index,
        reason,
    };
    if let Some(advice) = comparison(&site) {
        return Some(Hint::Advice(advice));
    }
    match site.token_hint() {
        Some(hint) => Some(hint),
        None => site.bracket_hint(alloc).ok()?,
    }
}

/// The tokens of a text, the index of the first one with which no phrase goes on, and why none does.
#[derive(Clone, Copy)]
pub(crate) struct Site<'a> {
    pub(crate) text: &'a [u8],
    pub(crate) tokens: &'a [Token],
    pub(crate) index: usize,
    reason: SyntaxReason,
}

impl<'a> Site<'a> {
    /// Whether this could stand in place of the token at fault.
    pub(crate) fn expects(&self, candidate: Candidate) -> bool {
        self.reason.expected().has(candidate)
    }

    /// Whether nothing else could stand there.
    pub(crate) fn expects_only(&self, candidate: Candidate) -> bool {
        self.reason.expected().is_only(candidate)
    }

    /// What the token at fault and those beside it tell.
    fn token_hint(&self) -> Option<Hint> {
        let token = self.tokens.get(self.index)?;
        match &token.kind {
            TokenKind::Keyword(keyword) => self.keyword_hint(*keyword),
            TokenKind::Mark(mark) => self.mark_hint(*mark),
            TokenKind::Wildcard if self.expects(Candidate::Strategy) => {
                Some(Hint::Advice(Advice::WildcardAsStrategy))
            }
            TokenKind::Name if self.index == 0 && self.is_head(0) => {
                Some(Hint::Advice(Advice::SectionWord))
            }
            _ if self.index == 0 => Some(Hint::Advice(Advice::NoDefinitions)),
            TokenKind::Integer(_) | TokenKind::Quoted(_) => self.literal_hint(),
            _ => None,
        }
    }

    /// What an integer or a text at fault tells.
    fn literal_hint(&self) -> Option<Hint> {
        if self.expects(Candidate::Strategy) {
            self.bar_hint_at_term()
        } else {
            negative_hint(self)
        }
    }

    /// What a term among the strategies of a call tells, if definitions of that name have terms.
    fn bar_hint_at_term(&self) -> Option<Hint> {
        let name = self.name_around()?;
        let last = self.index.checked_sub(1)?;
        let is_argument = last == name.saturating_add(1) || self.has_mark(last, Mark::Comma);
        let is_inside = (name.saturating_add(2)..last).any(|index| self.opens_other(index));
        if !is_argument || is_inside {
            return None;
        }
        Some(Hint::TermsAfterBar {
            name: self.shown_token(name),
            has_strategies: self.has_strategies(name)?,
        })
    }

    /// Whether a bracket that is no parenthesis opens at an index.
    fn opens_other(&self, index: usize) -> bool {
        match self.tokens.get(index) {
            Some(token) => opens(token) && !is_mark(token, Mark::OpenParenthesis),
            None => false,
        }
    }

    /// Whether the definitions of the name at an index that have terms have strategies, too, if they are alike in this.
    fn has_strategies(&self, name: usize) -> Option<bool> {
        let token = self.tokens.get(name)?;
        let called = piece(self.text, token.from, token.to);
        let mut found = None;
        for (index, other) in self.tokens.iter().enumerate() {
            let is_same = is_name(other) && piece(self.text, other.from, other.to) == called;
            if !is_same || !self.is_head(index) {
                continue;
            }
            let before = self.before_bar(index);
            if found.is_some() && before.is_some() && found != before {
                return None;
            }
            found = before.or(found);
        }
        found
    }

    /// Whether there are names in front of the bar among the parameters of the definition whose name is at an index.
    fn before_bar(&self, name: usize) -> Option<bool> {
        let first = name.saturating_add(2);
        for index in first..self.tokens.len() {
            let token = self.tokens.get(index)?;
            if is_mark(token, Mark::Bar) {
                return Some(index > first);
            }
            if !is_name(token) && !is_mark(token, Mark::Comma) {
                return None;
            }
        }
        None
    }

    /// What a mark at fault tells.
    fn mark_hint(&self, mark: Mark) -> Option<Hint> {
        match mark {
            _ if self.index == 0 => Some(Hint::Advice(Advice::NoDefinitions)),
            Mark::Plus => plus_hint(self),
            Mark::Star => infix_hint(self, Operation::Product),
            Mark::Colon if self.touches(self.index, Mark::Equals) => Some(Hint::Advice(
                Advice::Assignment,
            )),
            Mark::Colon if self.is_in_parameters() => Some(Hint::Advice(Advice::TypedParameters)),
            Mark::Equals if is_compared(self) => Some(Hint::Advice(Advice::EqualsInCondition)),
            Mark::Colon | Mark::Equals => self.head_hint(self.name_in_front()?),
            Mark::Arrow if is_in_strategy(self) => Some(Hint::Advice(Advice::RuleInStrategy)),
            Mark::Bar if self.is_swallowed() => self.head_hint(self.name_around()?),
            Mark::OpenParenthesis if self.comes_after(Keyword::Rules) => {
                Some(Hint::Advice(Advice::DynamicRules))
            }
            Mark::Bar if self.touches(self.index, Mark::OpenBracket) => {
                Some(Hint::Advice(Advice::ConcreteSyntax))
            }
            Mark::Less if self.expects(Candidate::Pattern) => {
                Some(Hint::Advice(Advice::AppliedInMatch))
            }
            Mark::DoubleArrow
                if self.expects(Candidate::Pattern) && self.is_behind(Mark::Greater) => {
                Some(Hint::Advice(Advice::MissingOperand))
            }
            Mark::OpenBrace if self.touches_before() => {
                Some(Hint::Advice(Advice::AnnotatedStrategy))
            }
            _ => None,
        }
    }

    /// What a keyword at fault tells.
    fn keyword_hint(&self, keyword: Keyword) -> Option<Hint> {
        let is_wanted = self.expects(Candidate::Name)
            || self.expects(Candidate::Constructor)
            || self.expects_only(Candidate::Sort)
            || self.expects(Candidate::Pattern);
        if let Some(advice) = misplacement_advice(self, keyword) {
            return Some(Hint::Advice(advice));
        }
        let next = self.tokens.get(self.index.saturating_add(1));
        let is_called = next.is_some_and(|next| is_mark(next, Mark::OpenParenthesis));
        if keyword == Keyword::Rules && is_called {
            return Some(Hint::Advice(Advice::DynamicRules));
        }
        if keyword == Keyword::Prim && is_called && self.is_in_build() {
            return self.primitive_hint();
        }
        let is_defined = next.is_some_and(|next| is_mark(next, Mark::Equals)
            || is_mark(next, Mark::Colon));
        if is_defined || (is_wanted && !begins_section(keyword)) {
            return Some(Hint::KeywordAsName(self.shown_token(self.index)));
        }
        None
    }

    /// Whether a pattern would go on there that is built.
    fn is_in_build(&self) -> bool {
        let context = context_at(self.tokens, self.index);
        let is_built = context.is_some_and(|context| context.role == Role::Build);
        is_built && self.expects(Candidate::Pattern)
    }

    /// What the call of a primitive tells, of which the token at fault is the first.
    fn primitive_hint(&self) -> Option<Hint> {
        let name = self.index.saturating_add(2);
        match &self.tokens.get(name)?.kind {
            TokenKind::Quoted(_) => Some(Hint::PrimitiveInBuild {
                name: self.shown_token(name),
                context: context_at(self.tokens, self.index)?,
            }),
            _ => None,
        }
    }

    /// What it tells that the token at this index is the name of a definition, with the token in front of it.
    fn head_hint(&self, name: usize) -> Option<Hint> {
        let before = self.tokens.get(name.checked_sub(1)?)?;
        let line = position_in(self.text, before.from).line;
        let name = self.shown_token(name);
        if is_mark(before, Mark::Greater) {
            return Some(Hint::TakenAsOperand { name, line });
        }
        if !joins(before) {
            return None;
        }
        Some(Hint::JoinedByOperator {
            name,
            operator: Shown::new(piece(self.text, before.from, before.to)),
            line,
        })
    }

    /// The index of the name in front of the parenthesis in which the token at fault is.
    fn name_around(&self) -> Option<usize> {
        let name = self.opening_of(self.index)?.checked_sub(1)?;
        if is_name(self.tokens.get(name)?) {
            Some(name)
        } else {
            None
        }
    }

    /// Whether the token at fault is among the parameters of a definition.
    pub(crate) fn is_swallowed(&self) -> bool {
        self.name_around().is_some_and(|name| self.is_head(name))
    }

    /// The index of the name in front of the token at fault, or of that in front of the parentheses there.
    pub(crate) fn name_in_front(&self) -> Option<usize> {
        let last = self.index.checked_sub(1)?;
        let name = if is_mark(self.tokens.get(last)?, Mark::CloseParenthesis) {
            self.opening_of(last)?.checked_sub(1)?
        } else {
            last
        };
        if is_name(self.tokens.get(name)?) {
            Some(name)
        } else {
            None
        }
    }

    /// The index of the parenthesis that is closed by the one at an index.
    fn opening_of(&self, closing: usize) -> Option<usize> {
        let mut depth: usize = 1;
        for index in (0..closing.min(self.tokens.len())).rev() {
            if is_mark(&self.tokens[index], Mark::CloseParenthesis) {
                depth = depth.saturating_add(1);
            }
            if is_mark(&self.tokens[index], Mark::OpenParenthesis) {
                depth = depth.saturating_sub(1);
            }
            if depth == 0 {
                return Some(index);
            }
        }
        None
    }

    /// Whether a name is in front of the token at fault, and in front of that what a name among parameters has there.
    fn is_in_parameters(&self) -> bool {
        let Some(before) = self
            .index
            .checked_sub(2)
            .and_then(|index| self.tokens.get(index))
        else {
            return false;
        };
        let is_among = is_mark(before, Mark::OpenParenthesis)
            || is_mark(before, Mark::Comma)
            || is_mark(before, Mark::Bar);
        is_among && self.name_in_front().is_some() && self.name_around().is_some()
    }

    /// The mark at an index.
    pub(crate) fn mark_at(&self, index: usize) -> Option<Mark> {
        match &self.tokens.get(index)?.kind {
            TokenKind::Mark(mark) => Some(*mark),
            _ => None,
        }
    }

    /// Whether this mark is at an index.
    fn has_mark(&self, index: usize, wanted: Mark) -> bool {
        self.mark_at(index) == Some(wanted)
    }

    /// Whether this mark follows the token at an index without a blank between them.
    pub(crate) fn touches(&self, index: usize, wanted: Mark) -> bool {
        let next = index.saturating_add(1);
        match (self.tokens.get(index), self.tokens.get(next)) {
            (Some(token), Some(next)) => is_mark(next, wanted) && token.to == next.from,
            _ => false,
        }
    }

    /// The token before the one at fault.
    fn token_before(&self) -> Option<&'a Token> {
        self.tokens.get(self.index.checked_sub(1)?)
    }

    /// Whether the token at fault comes after a name.
    pub(crate) fn follows_name(&self) -> bool {
        self.token_before().is_some_and(|before| is_name(before))
    }

    /// Whether the token at fault comes after this mark.
    fn is_behind(&self, wanted: Mark) -> bool {
        self.token_before()
            .is_some_and(|before| is_mark(before, wanted))
    }

    /// Whether the token at fault follows the one before it at once, a name or a closing parenthesis.
    fn touches_before(&self) -> bool {
        match (self.token_before(), self.tokens.get(self.index)) {
            (Some(before), Some(token)) => {
                let is_end = is_name(before) || is_mark(before, Mark::CloseParenthesis);
                is_end && before.to == token.from
            }
            _ => false,
        }
    }

    /// Whether the token at fault comes after this keyword.
    fn comes_after(&self, keyword: Keyword) -> bool {
        match self.index.checked_sub(1) {
            Some(last) => is_keyword(self.tokens, last, keyword),
            None => false,
        }
    }

    /// The text of the token at an index.
    fn shown_token(&self, index: usize) -> Shown {
        match self.tokens.get(index) {
            Some(token) => Shown::new(piece(self.text, token.from, token.to)),
            None => Shown::new(b""),
        }
    }

    /// The innermost bracket that is open at the fault, if the text ends there, a section or a definition seems to begin there, or the token
    /// there is the arrow of a rule.
    fn bracket_hint(&self, alloc: Global) -> Result<Option<Hint>, AllocError> {
        if !self.begins_another() {
            return Ok(None);
        }
        let mut open = Vec::new(alloc);
        for token in self.tokens.iter().take(self.index) {
            if opens(token) {
                open.push(token)?;
            }
            if closes(token) {
                open.pop();
            }
        }
        let Some(last) = open.pop() else {
            return Ok(None);
        };
        Ok(Some(Hint::NeverClosed {
            bracket: Shown::new(piece(self.text, last.from, last.to)),
            place: position_in(self.text, last.from),
        }))
    }

    /// Whether the text ends at the fault, a section or a definition seems to begin there, or the token there is the arrow of a rule.
    fn begins_another(&self) -> bool {
        let Some(token) = self.tokens.get(self.index) else {
            return true;
        };
        match &token.kind {
            TokenKind::Keyword(keyword) => begins_section(*keyword),
            TokenKind::Name => self.is_head(self.index),
            TokenKind::Mark(Mark::Arrow) => is_in_rule(self),
            _ => false,
        }
    }

    /// Whether the name at an index is followed by what follows the name of a definition.
    pub(crate) fn is_head(&self, name: usize) -> bool {
        self.sign_after(name).is_some()
    }

    /// The index of the `=` or `:` after the name at an index and its parameters, if there is one.
    pub(crate) fn sign_after(&self, name: usize) -> Option<usize> {
        let mut depth: usize = 0;
        for index in name.saturating_add(1)..self.tokens.len() {
            let token = self.tokens.get(index)?;
            if is_mark(token, Mark::OpenParenthesis) {
                depth = depth.saturating_add(1);
                continue;
            }
            if depth == 0 {
                let is_sign = is_mark(token, Mark::Equals) || is_mark(token, Mark::Colon);
                return if is_sign { Some(index) } else { None };
            }
            if is_mark(token, Mark::CloseParenthesis) {
                depth = depth.saturating_sub(1);
            }
        }
        None
    }
}

/// Whether the token joins what comes after it to what comes before.
fn joins(token: &Token) -> bool {
    match &token.kind {
        TokenKind::Keyword(keyword) => *keyword == Keyword::Where,
        TokenKind::Mark(mark) => matches!(
            mark,
            Mark::Semicolon
                | Mark::LeftChoice
                | Mark::Plus
                | Mark::DoubleArrow
                | Mark::Arrow
                | Mark::Equals
                | Mark::Exclamation
                | Mark::Question
        ),
        _ => false,
    }
}

/// Whether a section begins with the keyword.
fn begins_section(keyword: Keyword) -> bool {
    matches!(
        keyword,
        Keyword::Signature | Keyword::Rules | Keyword::Strategies
    )
}
