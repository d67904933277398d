//! The text of definitions: tokens, phrases, and the definitions in which they stand.

use crate::explanation::Position;
use crate::phrases::{
    after_mark, calls_primitive, depth_after, end_of_phrase, first_of_pattern, is_keyword, is_mark,
    is_name, next_is,
};
use crate::pieces::{piece, position_in};
use std::alloc::{AllocError, Global};
use std::ops::Range;
use str_lexer::{Keyword, Mark, Token, lex};
use str_parser::parse;
use str_syntax::{Definition, DefinitionForm, DefinitionHead, File, Section};
use term_model::Fault;

/// The head of a rule or a definition at the top of the file: its name, from a byte up to another, and its numbers of parameters.
#[derive(Clone, Copy, Debug, PartialEq, Eq)]
pub struct Head {
    from: usize,
    to: usize,
    strategies: usize,
    terms: usize,
}

impl Head {
    /// The head of a definition, as it stands in the text.
    fn of_definition(head: &DefinitionHead) -> Head {
        let from = usize::try_from(head.name.offset()).unwrap_or(usize::MAX);
        Head {
            from,
            to: from.saturating_add(head.name.bytes().len()),
            strategies: head.parameters.strategies(),
            terms: head.parameters.terms(),
        }
    }
}

/// Tokens that belong together, from an index up to another.
#[derive(Clone, Copy, Debug, PartialEq, Eq)]
pub struct Phrase {
    pub first: usize,
    pub after: usize,
}

/// The text of definitions in which nothing is wrong, its tokens, and the heads of its definitions in the order in which they stand.
#[derive(Drop)]
pub struct Listing<'a> {
    text: &'a [u8],
    tokens: Vec<Token>,
    heads: Vec<Head>,
}

impl<'a> Listing<'a> {
    /// The listing of the text. The fault is `Memory` where the text is that of definitions.
    pub fn new(alloc: Global, text: &'a [u8]) -> Result<Listing<'a>, Fault> {
        let tokens = lex(alloc, text)?;
        let file = parse(alloc, text, &tokens)?;
        let heads = heads_of(alloc, &file)?;
        Ok(Listing {
            text,
            tokens,
            heads,
        })
    }

    /// The line and the column of a byte.
    pub fn position(&self, offset: usize) -> Position {
        position_in(self.text, offset)
    }

    /// How many heads there are.
    pub fn heads(&self) -> usize {
        self.heads.len()
    }

    /// The index of the last head that is not after a byte: the definition in which the byte stands.
    pub fn head_before(&self, offset: usize) -> Option<usize> {
        self.heads
            .partition_point(|head| head.from <= offset)
            .checked_sub(1)
    }

    /// The name of the definition whose head has this index.
    pub fn name_of(&self, head: usize) -> &[u8] {
        match self.heads.get(head) {
            Some(head) => piece(self.text, head.from, head.to),
            None => b"?",
        }
    }

    /// Returns how many term parameters the definition has whose head has this index.
    pub fn terms_of_head(&self, head: usize) -> usize {
        self.heads.get(head).map_or(0, |head| head.terms)
    }

    /// Whether two definitions have the same name, whatever their numbers of parameters are.
    pub fn have_one_name(&self, one: usize, other: usize) -> bool {
        one == other || self.name_of(one) == self.name_of(other)
    }

    /// Whether the name of a definition begins with this byte.
    pub fn is_head(&self, offset: usize) -> bool {
        match self.head_before(offset) {
            Some(index) => self.heads.get(index).map(|head| head.from) == Some(offset),
            None => false,
        }
    }

    /// How many alternatives the definition has whose head has this index, if that is the last one of them.
    pub fn alternatives_before(&self, head: usize) -> Option<usize> {
        let last = self.heads.get(head)?;
        let mut count: usize = 0;
        for (index, other) in self.heads.iter().enumerate() {
            if self.are_alternatives(last, other) {
                if index > head {
                    return None;
                }
                count = count.saturating_add(1);
            }
        }
        Some(count)
    }

    /// Whether a rule in backslashes begins with this byte.
    pub fn is_lambda(&self, offset: usize) -> bool {
        match self
            .token_at(offset)
            .and_then(|index| self.tokens.get(index))
        {
            Some(token) => is_mark(token, Mark::Backslash),
            None => false,
        }
    }

    /// The pattern in which the last token stands that is not after this byte, with the sign in front of it if there is one. After a backslash
    /// or the `<` of an application it is the one to which these lead. Nothing if no token begins there or before.
    pub fn pattern_at(&self, offset: usize) -> Option<Phrase> {
        let after = self.tokens.partition_point(|token| token.from <= offset);
        let named = after.checked_sub(1)?;
        Some(self.phrase_from(first_of_pattern(&self.tokens, named)))
    }

    /// The left side of the rule whose name begins with this byte. Nothing for a definition, or if no token begins with this byte.
    pub fn left_side(&self, offset: usize) -> Option<Phrase> {
        let first = after_mark(&self.tokens, self.token_at(offset)?, Mark::Colon)?;
        Some(self.phrase_from(first))
    }

    /// The right side of the rule that begins with this byte, or whose name does. Nothing for a definition, or if no token begins with this
    /// byte.
    pub fn right_side(&self, offset: usize) -> Option<Phrase> {
        let first = after_mark(&self.tokens, self.token_at(offset)?, Mark::Arrow)?;
        Some(self.phrase_from(first))
    }

    /// The call or congruence whose name begins with this byte. Nothing if no token begins with it.
    pub fn call_at(&self, offset: usize) -> Option<Phrase> {
        Some(self.phrase_from(self.token_at(offset)?))
    }

    /// The call of the primitive of this name in the definition of a head. Nothing if there is none or more than one.
    pub fn primitive_in(&self, head: usize, name: &[u8]) -> Option<Phrase> {
        let mut found = None;
        for index in self.tokens_of(head) {
            if calls_primitive(&self.tokens, index, name) {
                if found.is_some() {
                    return None;
                }
                found = Some(index);
            }
        }
        Some(self.phrase_from(found?))
    }

    /// The strategy in the definition of a head that begins with one or the other of two keywords. Nothing if there is none or more than one.
    pub fn form_in(&self, head: usize, one: Keyword, other: Keyword) -> Option<Phrase> {
        let mut found = None;
        for index in self.tokens_of(head) {
            if is_keyword(&self.tokens, index, one) || is_keyword(&self.tokens, index, other) {
                if found.is_some() {
                    return None;
                }
                found = Some(index);
            }
        }
        Some(self.phrase_from(found?))
    }

    /// The byte with which a phrase begins.
    pub fn offset_of(&self, phrase: Phrase) -> usize {
        match self.tokens.get(phrase.first) {
            Some(token) => token.from,
            None => self.text.len(),
        }
    }

    /// The text of a phrase.
    pub fn text_of(&self, phrase: Phrase) -> &[u8] {
        let from = self.offset_of(phrase);
        match phrase
            .after
            .checked_sub(1)
            .and_then(|last| self.tokens.get(last))
        {
            Some(last) => piece(self.text, from, last.to),
            None => b"",
        }
    }

    /// The term arguments of a call: what stands after its first bar.
    pub fn terms_of(&self, call: Phrase) -> Phrase {
        let tokens = self.tokens.as_slice();
        let mut depth: usize = 0;
        for index in call.first..call.after.min(tokens.len()) {
            let token = &tokens[index];
            if depth == 1 && is_mark(token, Mark::Bar) {
                return Phrase {
                    first: index,
                    after: call.after,
                };
            }
            depth = depth_after(depth, token);
        }
        Phrase {
            first: call.after,
            after: call.after,
        }
    }

    /// The variables of patterns in a phrase, in the order in which they stand: the names that no parenthesis follows and, each as a whole,
    /// the applications `<s> p` of a build.
    pub fn variables_in(&self, alloc: Global, phrase: Phrase) -> Result<Vec<Phrase>, AllocError> {
        let tokens = self.tokens.as_slice();
        let mut found = Vec::new(alloc);
        let mut next = phrase.first;
        for index in phrase.first..phrase.after.min(tokens.len()) {
            if index < next {
                continue;
            }
            let is_application = is_mark(&tokens[index], Mark::Less);
            next = if is_application {
                end_of_phrase(tokens, index)
            } else {
                index.saturating_add(1)
            };
            if is_application || self.is_variable(index) {
                found.push(Phrase {
                    first: index,
                    after: next,
                })?;
            }
        }
        Ok(found)
    }

    /// Whether two heads are those of alternatives of one definition.
    fn are_alternatives(&self, one: &Head, other: &Head) -> bool {
        one.strategies == other.strategies
            && one.terms == other.terms
            && piece(self.text, one.from, one.to) == piece(self.text, other.from, other.to)
    }

    /// The phrase that begins with the token at an index.
    fn phrase_from(&self, first: usize) -> Phrase {
        let after = end_of_phrase(&self.tokens, first);
        Phrase { first, after }
    }

    /// The indexes of the tokens from a head up to the next one.
    fn tokens_of(&self, head: usize) -> Range<usize> {
        self.first_token_of(head)..self.first_token_of(head.saturating_add(1))
    }

    /// The index of the token that a head is, or of the end where there is no such head.
    fn first_token_of(&self, head: usize) -> usize {
        match self.heads.get(head) {
            Some(head) => self.tokens.partition_point(|token| token.from < head.from),
            None => self.tokens.len(),
        }
    }

    /// Whether the token at an index is a name that no parenthesis follows.
    fn is_variable(&self, index: usize) -> bool {
        match self.tokens.get(index) {
            Some(token) => is_name(token) && !next_is(&self.tokens, index, Mark::OpenParenthesis),
            None => false,
        }
    }

    /// The index of the token that begins with this byte.
    fn token_at(&self, offset: usize) -> Option<usize> {
        let index = self.tokens.partition_point(|token| token.from < offset);
        let token = self.tokens.get(index)?;
        if token.from == offset {
            Some(index)
        } else {
            None
        }
    }
}

/// The heads of the rules and definitions of the file.
fn heads_of(alloc: Global, file: &File) -> Result<Vec<Head>, AllocError> {
    let mut heads = Vec::new(alloc);
    for section in &file.sections {
        match section {
            Section::Signature(_) => {}
            Section::Rules(definitions) => add_heads(definitions, &mut heads)?,
            Section::Strategies(definitions) => add_heads(definitions, &mut heads)?,
        }
    }
    Ok(heads)
}

fn add_heads(definitions: &[Definition], heads: &mut Vec<Head>) -> Result<(), AllocError> {
    for definition in definitions {
        heads.push(Head::of_definition(head_of(&definition.form)))?;
    }
    Ok(())
}

/// The name and the parameters of a rule or a definition.
pub(crate) fn head_of(form: &DefinitionForm) -> &DefinitionHead {
    match form {
        DefinitionForm::Rule(rule) => &rule.head,
        DefinitionForm::Strategy(definition) => &definition.head,
    }
}
