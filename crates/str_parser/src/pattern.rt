//! Patterns from tokens.
ghost use Rattle.std.specs.Prelude.{◌≡◌, ◌+◌, ◌≤◌, ◌∷◌, Bool, ℕ, List, false, IfOk};
ghost use Rattle.str_lexer.specs.declared.token.Mark.TheVariants as M;
ghost use Rattle.str_syntax.specs.Views.{pattern_of, optional_pattern_of};
ghost use Rattle.str_parser.specs.Items.{max_level};
ghost use Rattle.str_parser.specs.Lexemes.{Lexeme as L, name, mark as mark_lexeme, first_begins};
ghost use Rattle.str_parser.specs.Phrases.{pattern_part, is_constructor as has_no_quote};
ghost use Rattle.str_parser.specs.Readings.{AtMost, Found, IsReading};
ghost use Rattle.str_parser.specs.Parts.{inner_pattern, plain_pattern as plain, IsLeading, IsOther, Anything, some_patterns, EndsPatterns, patterns_from, patterns_in_parentheses, pattern_list_end, closing_mark, closed_patterns};

use crate::descent::{beyond, strategy_before};
use crate::expected::{Candidate, SyntaxReason, SyntaxRule};
use crate::file::MAX_LEVEL;
use crate::input::{Input, Lexeme};
use crate::refusal::ParseRefusal;
use std::alloc::{AllocError, Global};
use str_lexer::Mark;
use str_syntax::{Name, Pattern, Text};

/// How a pattern begins: as one of the two forms that take no annotations, or otherwise.
enum Leading<'a> {
    /// `x@`
    Alias(&'a [u8], Input<'a>),
    /// `<`, in a build
    Applied(Input<'a>),
    /// as neither, or as no pattern
    Other,
}

/// The mark after patterns with commas between.
#[derive(Clone, Copy)]
pub(crate) enum Closing {
    Parenthesis,
    Brace,
}

impl Closing {
    fn mark(self) -> Mark
        ensures { result ≡ closing_mark self }
    {
        match self {
            Closing::Parenthesis => Mark::CloseParenthesis,
            Closing::Brace => Mark::CloseBrace,
        }
    }

    /// What could stand after one of the patterns.
    fn expected(self) -> &'static [Candidate] {
        match self {
            Closing::Parenthesis => &[Candidate::Comma, Candidate::CloseParenthesis],
            Closing::Brace => &[Candidate::Comma, Candidate::CloseBrace],
        }
    }
}

/// Tells whether the name can be a constructor's: whether there is no ' in it.
pub(crate) fn is_constructor(name: &[u8]) -> bool
    ensures { result ≡ has_no_quote name.now }
{
    for byte in name {
        if *byte == b'\'' {
            return false;
        }
    }
    true
}

/// Tells whether the first token can begin a pattern, in a match or in a build.
fn begins_pattern(input: &Input<'_>, in_match: bool) -> bool
    ensures { result ≡ first_begins (pattern_part in_match) input.now }
{
    let Some((first, _)) = input.first() else {
        return false;
    };
    match first {
        Lexeme::Name(_) => true,
        Lexeme::Wildcard => true,
        Lexeme::Integer(_) => true,
        Lexeme::Quoted(_) => true,
        Lexeme::Mark(mark) => match mark {
            Mark::OpenParenthesis => true,
            Mark::OpenBracket => true,
            Mark::Less => !in_match,
            _ => false,
        },
        Lexeme::Keyword(_) => false,
        Lexeme::LeftOut => false,
    }
}

/// Tells which of the two forms that take no annotations the tokens begin with, if either, in a match or in a build.
fn leading_of<'a>(input: &Input<'a>, in_match: bool) -> Leading<'a>
    ensures { IsLeading in_match input.now result }
{
    let Some((first, rest)) = input.first() else {
        return Leading::Other;
    };
    match first {
        Lexeme::Name(name) => match rest.after(Mark::At) {
            Some(following) => Leading::Alias(name, following),
            None => Leading::Other,
        },
        Lexeme::Mark(Mark::Less) if !in_match => Leading::Applied(rest),
        _ => Leading::Other,
    }
}

/// Refuses annotations after this pattern, by this rule; where none follow, returns the pattern and the tokens after it.
fn refuse_annotations<'a>(
    pattern: Pattern,
    input: Input<'a>,
    rule: SyntaxRule,
) -> Result<(Pattern, Input<'a>), ParseRefusal>
    ensures { (in_match : Bool) (k : ℕ) (ts : List L) →
        Found (inner_pattern in_match k) (AtMost 3) ts (pattern_of pattern) input.entry →
        IsReading (inner_pattern in_match k) (AtMost 3) pattern_of ts result }
{
    if input.after(Mark::OpenBrace).is_some() {
        return Err(input.refusal(SyntaxReason::of_rule(rule)));
    }
    Ok((pattern, input))
}

/// Makes the pattern that these patterns in parentheses are.
fn parenthesize(alloc: Global, parts: Vec<Pattern>) -> Result<Pattern, AllocError>
    ensures { IfOk result (λ made. pattern_of made ≡
        patterns_in_parentheses (patterns_from parts)) }
{
    let mut parts = parts;
    if parts.len() != 1 {
        return Ok(Pattern::Tuple(parts));
    }
    match parts.pop() {
        Some(part) => Ok(Pattern::Parenthesized(Box::new(alloc, part)?)),
        None => Ok(Pattern::Tuple(parts)),
    }
}

/// Reads the pattern at this level that the tokens begin with, in a match or in a build; also returns the tokens after it.
#[cycle(phrase)]
pub(crate) fn pattern<'a>(
    alloc: Global,
    input: Input<'a>,
    in_match: bool,
    level: u32,
) -> Result<(Pattern, Input<'a>), ParseRefusal>
    requires { level ≤ max_level + 1 }
    ensures { IsReading (inner_pattern in_match level) (AtMost 3) pattern_of input.entry result }
{
    if level > MAX_LEVEL {
        return Err(beyond(
            &input,
            begins_pattern(&input, in_match),
            &[Candidate::Pattern],
        ));
    }
    match leading_of(&input, in_match) {
        Leading::Alias(name, rest) => alias(alloc, name, input.at(), rest, in_match, level),
        Leading::Applied(rest) => applied_strategy(alloc, rest, level),
        Leading::Other => with_annotations(alloc, input, in_match, level),
    }
}

/// Reads the alias at this level of which the name, at this byte, and `@` stand before the tokens; also returns the tokens after it.
#[cycle(phrase)]
fn alias<'a>(
    alloc: Global,
    bytes: &'a [u8],
    at: u64,
    input: Input<'a>,
    in_match: bool,
    level: u32,
) -> Result<(Pattern, Input<'a>), ParseRefusal>
    requires { level ≤ max_level }
    ensures { IsReading (inner_pattern in_match level) (AtMost 3) pattern_of
        (name bytes.now ∷ mark_lexeme M.At ∷ input.entry) result }
{
    let name = Name::new(alloc, bytes, at)?;
    let (part, rest) = pattern(alloc, input, in_match, level + 1)?;
    let part = Box::new(alloc, part)?;
    Ok((Pattern::Alias(name, part), rest))
}

/// Reads the applied strategy at this level whose `<` stands before the tokens, in a build, with the pattern to which it is applied, if
/// any; also returns the tokens after it.
#[cycle(phrase)]
fn applied_strategy<'a>(
    alloc: Global,
    input: Input<'a>,
    level: u32,
) -> Result<(Pattern, Input<'a>), ParseRefusal>
    requires { level ≤ max_level }
    ensures { IsReading (inner_pattern false level) (AtMost 3) pattern_of
        (mark_lexeme M.Less ∷ input.entry) result }
{
    let (strategy, rest) = strategy_before(
        alloc,
        input,
        level + 1,
        Mark::Greater,
        &[Candidate::Greater],
    )?;
    if !begins_pattern(&rest, false) {
        let rule = SyntaxRule::ParenthesesAroundApplied;
        return refuse_annotations(Pattern::Applied(strategy), rest, rule);
    }
    let (part, rest) = pattern(alloc, rest, false, level + 1)?;
    Ok((Pattern::AppliedTo(strategy, Box::new(alloc, part)?), rest))
}

/// Reads the pattern at this level that the tokens begin with, which is neither an alias nor an applied strategy, with its annotations,
/// if any; also returns the tokens after it.
#[cycle(phrase)]
fn with_annotations<'a>(
    alloc: Global,
    input: Input<'a>,
    in_match: bool,
    level: u32,
) -> Result<(Pattern, Input<'a>), ParseRefusal>
    requires within { level ≤ max_level }
    requires other { IsOther in_match input }
    ensures { IsReading (inner_pattern in_match level) (AtMost 3) pattern_of input.entry result }
{
    let (bare, rest) = plain_pattern(alloc, input, in_match, level)?;
    let Some(following) = rest.after(Mark::OpenBrace) else {
        return Ok((bare, rest));
    };
    let bare = Box::new(alloc, bare)?;
    let (annotations, rest) = patterns_before(
        alloc,
        following,
        in_match,
        level + 1,
        Closing::Brace,
    )?;
    let made = Pattern::Annotated(bare, annotations);
    refuse_annotations(made, rest, SyntaxRule::OneListOfAnnotations)
}

/// Reads the pattern at this level that the tokens begin with, without annotations; also returns the tokens after it.
#[cycle(phrase)]
fn plain_pattern<'a>(
    alloc: Global,
    input: Input<'a>,
    in_match: bool,
    level: u32,
) -> Result<(Pattern, Input<'a>), ParseRefusal>
    requires { level ≤ max_level }
    ensures { IsReading (plain in_match level) (AtMost 4) pattern_of input.entry result }
{
    let Some((first, rest)) = input.first() else {
        return Err(input.syntax(&[Candidate::Pattern]));
    };
    match first {
        Lexeme::Name(name) => variable_or_application(
            alloc,
            name,
            input.at(),
            rest,
            in_match,
            level,
        ),
        Lexeme::Wildcard => Ok((Pattern::Wildcard(input.at()), rest)),
        Lexeme::Integer(value) => Ok((Pattern::Integer(value), rest)),
        Lexeme::Quoted(text) => Ok((Pattern::Quoted(Text::new(alloc, text)?), rest)),
        Lexeme::Mark(mark) => pattern_after_mark(alloc, mark, input.at(), rest, in_match, level),
        _ => Err(input.syntax(&[Candidate::Pattern])),
    }
}

/// Reads the pattern at this level whose mark, at this byte, stands before the tokens, without annotations; also returns the tokens
/// after it.
#[cycle(phrase)]
fn pattern_after_mark<'a>(
    alloc: Global,
    mark: Mark,
    at: u64,
    input: Input<'a>,
    in_match: bool,
    level: u32,
) -> Result<(Pattern, Input<'a>), ParseRefusal>
    requires { level ≤ max_level }
    ensures { IsReading (plain in_match level) (AtMost 4) pattern_of
        (mark_lexeme mark ∷ input.entry) result }
{
    match mark {
        Mark::OpenParenthesis => pattern_in_parentheses(alloc, input, in_match, level),
        Mark::OpenBracket => list(alloc, input, in_match, level),
        _ => {
            let reason = SyntaxReason::any_of(&[Candidate::Pattern]);
            Err(ParseRefusal::Syntax { at, reason })
        }
    }
}

/// Reads the variable or the application at this level whose name, at this byte, stands before the tokens; also returns the tokens
/// after it.
#[cycle(phrase)]
fn variable_or_application<'a>(
    alloc: Global,
    bytes: &'a [u8],
    at: u64,
    input: Input<'a>,
    in_match: bool,
    level: u32,
) -> Result<(Pattern, Input<'a>), ParseRefusal>
    requires { level ≤ max_level }
    ensures { IsReading (plain in_match level) (AtMost 4) pattern_of
        (name bytes.now ∷ input.entry) result }
{
    let name = Name::new(alloc, bytes, at)?;
    let Some(following) = input.after(Mark::OpenParenthesis) else {
        return Ok((Pattern::Variable(name), input));
    };
    if !is_constructor(bytes) {
        return Ok((Pattern::Variable(name), input));
    }
    let (parts, rest) = patterns_before(
        alloc,
        following,
        in_match,
        level + 1,
        Closing::Parenthesis,
    )?;
    Ok((Pattern::Application(name, parts), rest))
}

/// Reads the pattern at this level whose `(` stands before the tokens; also returns the tokens after it.
#[cycle(phrase)]
fn pattern_in_parentheses<'a>(
    alloc: Global,
    input: Input<'a>,
    in_match: bool,
    level: u32,
) -> Result<(Pattern, Input<'a>), ParseRefusal>
    requires { level ≤ max_level }
    ensures { IsReading (plain in_match level) (AtMost 4) pattern_of
        (mark_lexeme M.OpenParenthesis ∷ input.entry) result }
{
    let (parts, rest) = patterns_before(alloc, input, in_match, level + 1, Closing::Parenthesis)?;
    Ok((parenthesize(alloc, parts)?, rest))
}

/// Reads the list at this level whose `[` stands before the tokens; also returns the tokens after it.
#[cycle(phrase)]
fn list<'a>(
    alloc: Global,
    input: Input<'a>,
    in_match: bool,
    level: u32,
) -> Result<(Pattern, Input<'a>), ParseRefusal>
    requires { level ≤ max_level }
    ensures { IsReading (plain in_match level) (AtMost 4) pattern_of
        (mark_lexeme M.OpenBracket ∷ input.entry) result }
{
    if let Some(rest) = input.after(Mark::CloseBracket) {
        return Ok((Pattern::List(Vec::new(alloc), None), rest));
    }
    let (parts, rest) = patterns(alloc, input, in_match, level + 1)?;
    let (tail, rest) = list_end(alloc, rest, in_match, level + 1)?;
    Ok((Pattern::List(parts, tail), rest))
}

/// Reads the `]` of a list, or `|` and a pattern at this level before it, that the tokens begin with; also returns the tokens after it.
#[cycle(phrase)]
fn list_end<'a>(
    alloc: Global,
    input: Input<'a>,
    in_match: bool,
    level: u32,
) -> Result<(Option<Box<Pattern>>, Input<'a>), ParseRefusal>
    requires { level ≤ max_level + 1 }
    ensures { IsReading (pattern_list_end in_match level) Anything optional_pattern_of
        input.entry result }
{
    if let Some(rest) = input.after(Mark::CloseBracket) {
        return Ok((None, rest));
    }
    let Some(following) = input.after(Mark::Bar) else {
        return Err(input.syntax(&[Candidate::Comma, Candidate::Bar, Candidate::CloseBracket]));
    };
    let (tail, rest) = pattern(alloc, following, in_match, level)?;
    let Some(rest) = rest.after(Mark::CloseBracket) else {
        return Err(rest.syntax(&[Candidate::CloseBracket]));
    };
    Ok((Some(Box::new(alloc, tail)?), rest))
}

/// Reads the patterns at this level with commas between, if any, and the mark after them that the tokens begin with; also returns the
/// tokens after the mark.
#[cycle(phrase)]
pub(crate) fn patterns_before<'a>(
    alloc: Global,
    input: Input<'a>,
    in_match: bool,
    level: u32,
    closing: Closing,
) -> Result<(Vec<Pattern>, Input<'a>), ParseRefusal>
    requires { level ≤ max_level + 1 }
    ensures { IsReading (closed_patterns (closing_mark closing) in_match level) Anything
        patterns_from input.entry result }
{
    if let Some(rest) = input.after(closing.mark()) {
        return Ok((Vec::new(alloc), rest));
    }
    let (parts, rest) = patterns(alloc, input, in_match, level)?;
    let Some(rest) = rest.after(closing.mark()) else {
        return Err(rest.syntax(closing.expected()));
    };
    Ok((parts, rest))
}

/// Reads the patterns at this level with commas between that the tokens begin with, one at least; also returns the tokens after them.
#[cycle(phrase)]
pub(crate) fn patterns<'a>(
    alloc: Global,
    input: Input<'a>,
    in_match: bool,
    level: u32,
) -> Result<(Vec<Pattern>, Input<'a>), ParseRefusal>
    requires { level ≤ max_level + 1 }
    ensures { IsReading (some_patterns in_match level) EndsPatterns patterns_from
        input.entry result }
{
    let (first, mut rest) = pattern(alloc, input, in_match, level)?;
    let mut parts = Vec::with_capacity(alloc, 1)?;
    parts.push(first)?;
    while let Some(following) = rest.after(Mark::Comma) {
        let (other, following) = pattern(alloc, following, in_match, level)?;
        parts.push(other)?;
        rest = following;
    }
    Ok((parts, rest))
}
