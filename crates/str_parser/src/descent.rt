//! Strategies from tokens, by recursive descent with one token of look-ahead.
ghost use Rattle.std.specs.Prelude.{◌≡◌, ◌+◌, ◌≤◌, List, ◌∷◌};
ghost use Rattle.str_lexer.specs.declared.token.Mark.TheVariants as M;
ghost use Rattle.str_syntax.specs.Views.{sequence_of, step_of, strategy_of};
ghost use Rattle.str_parser.specs.Items.{max_level};
ghost use Rattle.str_parser.specs.Lexemes.{Lexeme as L, mark, keyword as keyword_lexeme, strategy_part, first_begins};
ghost use Rattle.str_parser.specs.Phrases.{step, primary};
ghost use Rattle.str_parser.specs.Readings.{AtMost, Found, IsReading, mark_strength};
ghost use Rattle.str_parser.specs.Parts.{inner_strategy, inner_sequence, boxed_primary_of, boxed_strategy_of, strategies_from, Anything, closed_strategy, some_strategies, EndsStrategies};
ghost use Rattle.str_parser.specs.Beyond.{IsBeyondFault};

use crate::expected::Candidate;
use crate::file::MAX_LEVEL;
use crate::input::{Input, Lexeme};
use crate::pattern::pattern;
use crate::primary::primary;
use crate::refusal::ParseRefusal;
use std::alloc::Global;
use str_lexer::{Keyword, Mark};
use str_syntax::{Primary, Sequence, Step, Strategy, build};

/// The fault where a part would stand beyond the greatest level: whether the tokens can begin it decides.
pub(crate) fn beyond(
    input: &Input<'_>,
    begins: bool,
    expected: &'static [Candidate],
) -> ParseRefusal
    ensures { IsBeyondFault begins result }
{
    if begins {
        return ParseRefusal::Nesting { at: input.at() };
    }
    input.syntax(expected)
}

/// Tells whether the first token can begin a strategy.
fn begins_strategy(input: &Input<'_>) -> bool
    ensures { result ≡ first_begins strategy_part input.now }
{
    let Some((first, _)) = input.first() else {
        return false;
    };
    match first {
        Lexeme::Name(_) => true,
        Lexeme::Mark(mark) => matches!(
            mark,
            Mark::Question
                | Mark::Exclamation
                | Mark::Less
                | Mark::OpenParenthesis
                | Mark::OpenBracket
                | Mark::OpenBrace
                | Mark::Backslash
        ),
        Lexeme::Keyword(keyword) => matches!(
            keyword,
            Keyword::Id
                | Keyword::Fail
                | Keyword::Where
                | Keyword::Not
                | Keyword::All
                | Keyword::One
                | Keyword::Some
                | Keyword::If
                | Keyword::Rec
                | Keyword::Let
                | Keyword::Prim
        ),
        _ => false,
    }
}

/// Reads the strategy at this level that the tokens begin with; also returns the tokens after it.
#[cycle(phrase)]
pub(crate) fn strategy<'a>(
    alloc: Global,
    input: Input<'a>,
    level: u32,
) -> Result<(Strategy, Input<'a>), ParseRefusal>
    requires { level ≤ max_level + 1 }
    ensures { IsReading (inner_strategy level) (AtMost 0) strategy_of input.entry result }
{
    if level > MAX_LEVEL {
        return Err(beyond(&input, begins_strategy(&input), &[Candidate::Strategy]));
    }
    let (first, rest) = sequence(alloc, input, level)?;
    if let Some(following) = rest.after(Mark::LeftChoice) {
        return left_choice(alloc, first, following, level);
    }
    let Some(following) = rest.after(Mark::Less) else {
        return Ok((Strategy::Sequence(first), rest));
    };
    guarded_choice(alloc, first, following, level)
}

/// Reads the left choice at this level of which the first sequence and `<+` stand before the tokens; also returns the tokens after it.
#[cycle(phrase)]
#[inline(never)]
fn left_choice<'a>(
    alloc: Global,
    first: Sequence,
    input: Input<'a>,
    level: u32,
) -> Result<(Strategy, Input<'a>), ParseRefusal>
    requires { level ≤ max_level }
    ensures { (ts : List L) → Found (inner_sequence level) (AtMost 1) ts (sequence_of first)
        (mark M.LeftChoice ∷ input.entry) →
        IsReading (inner_strategy level) (AtMost 0) strategy_of ts result }
{
    let (other, rest) = strategy(alloc, input, level + 1)?;
    Ok((Strategy::LeftChoice(first, Box::new(alloc, other)?), rest))
}

/// Reads the guarded choice at this level of which the first sequence and `<` stand before the tokens; also returns the tokens after it.
#[cycle(phrase)]
#[inline(never)]
fn guarded_choice<'a>(
    alloc: Global,
    first: Sequence,
    input: Input<'a>,
    level: u32,
) -> Result<(Strategy, Input<'a>), ParseRefusal>
    requires { level ≤ max_level }
    ensures { (ts : List L) → Found (inner_sequence level) (AtMost 1) ts (sequence_of first)
        (mark M.Less ∷ input.entry) →
        IsReading (inner_strategy level) (AtMost 0) strategy_of ts result }
{
    let (then, rest) = strategy(alloc, input, level + 1)?;
    let Some(following) = rest.after(Mark::Plus) else {
        return Err(rest.syntax(&[Candidate::Plus]));
    };
    let (other, rest) = strategy(alloc, following, level + 1)?;
    let made = build::guarded_choice(alloc, first, then, other)?;
    Ok((made, rest))
}

/// Reads the sequence at this level that the tokens begin with; also returns the tokens after it.
#[cycle(phrase)]
fn sequence<'a>(
    alloc: Global,
    input: Input<'a>,
    level: u32,
) -> Result<(Sequence, Input<'a>), ParseRefusal>
    requires { level ≤ max_level + 1 }
    ensures { IsReading (inner_sequence level) (AtMost 1) sequence_of input.entry result }
{
    if level > MAX_LEVEL {
        return Err(beyond(&input, begins_strategy(&input), &[Candidate::Strategy]));
    }
    let (first, rest) = step(alloc, input, level)?;
    let Some(following) = rest.after(Mark::Semicolon) else {
        return Ok((Sequence::Last(first), rest));
    };
    then(alloc, first, following, level)
}

/// Reads the sequence at this level of which the first step and `;` stand before the tokens; also returns the tokens after it.
#[cycle(phrase)]
#[inline(never)]
fn then<'a>(
    alloc: Global,
    first: Step,
    input: Input<'a>,
    level: u32,
) -> Result<(Sequence, Input<'a>), ParseRefusal>
    requires { level ≤ max_level }
    ensures { (ts : List L) → Found (step level) (AtMost 2) ts (step_of first)
        (mark M.Semicolon ∷ input.entry) →
        IsReading (inner_sequence level) (AtMost 1) sequence_of ts result }
{
    let (others, rest) = sequence(alloc, input, level + 1)?;
    Ok((Sequence::Then(first, Box::new(alloc, others)?), rest))
}

/// Reads the step at this level that the tokens begin with; also returns the tokens after it.
#[cycle(phrase)]
fn step<'a>(alloc: Global, input: Input<'a>, level: u32) -> Result<(Step, Input<'a>), ParseRefusal>
    requires { level ≤ max_level }
    ensures { IsReading (step level) (AtMost 2) step_of input.entry result }
{
    let at = input.at();
    let (first, rest) = primary(alloc, input, level)?;
    let Some(following) = rest.after(Mark::DoubleArrow) else {
        return Ok((Step::Plain(at, first), rest));
    };
    matching(alloc, at, first, following, level)
}

/// Reads the step at this level that begins at this byte and of which the primary and `=>` stand before the tokens; also returns the
/// tokens after it.
#[cycle(phrase)]
#[inline(never)]
fn matching<'a>(
    alloc: Global,
    at: u64,
    first: Box<Primary>,
    input: Input<'a>,
    level: u32,
) -> Result<(Step, Input<'a>), ParseRefusal>
    requires { level ≤ max_level }
    ensures { (ts : List L) → Found (primary level) (AtMost 3) ts (boxed_primary_of first)
        (mark M.DoubleArrow ∷ input.entry) → IsReading (step level) (AtMost 2) step_of ts result }
{
    let there = input.at();
    let (matched, rest) = pattern(alloc, input, true, level + 1)?;
    Ok((
        Step::Matching(at, first, there, Box::new(alloc, matched)?),
        rest,
    ))
}

/// Reads the strategy at this level and this mark after it that the tokens begin with; also returns the tokens after the mark. Where
/// another token stands there, that is what was expected.
#[cycle(phrase)]
pub(crate) fn strategy_before<'a>(
    alloc: Global,
    input: Input<'a>,
    level: u32,
    closing: Mark,
    expected: &'static [Candidate],
) -> Result<(Box<Strategy>, Input<'a>), ParseRefusal>
    requires within { level ≤ max_level + 1 }
    requires weak { mark_strength closing ≡ 0 }
    ensures { IsReading (closed_strategy (mark closing) level) Anything boxed_strategy_of
        input.entry result }
{
    let (part, rest) = strategy(alloc, input, level)?;
    let Some(rest) = rest.after(closing) else {
        return Err(rest.syntax(expected));
    };
    Ok((Box::new(alloc, part)?, rest))
}

/// The same with a keyword after the strategy.
#[cycle(phrase)]
pub(crate) fn strategy_before_keyword<'a>(
    alloc: Global,
    input: Input<'a>,
    level: u32,
    closing: Keyword,
    expected: &'static [Candidate],
) -> Result<(Box<Strategy>, Input<'a>), ParseRefusal>
    requires { level ≤ max_level + 1 }
    ensures { IsReading (closed_strategy (keyword_lexeme closing) level) Anything
        boxed_strategy_of input.entry result }
{
    let (part, rest) = strategy(alloc, input, level)?;
    let Some(rest) = rest.after_keyword(closing) else {
        return Err(rest.syntax(expected));
    };
    Ok((Box::new(alloc, part)?, rest))
}

/// Reads the strategies at this level with commas between that the tokens begin with, one at least; also returns the tokens after them.
#[cycle(phrase)]
pub(crate) fn strategies<'a>(
    alloc: Global,
    input: Input<'a>,
    level: u32,
) -> Result<(Vec<Strategy>, Input<'a>), ParseRefusal>
    requires { level ≤ max_level + 1 }
    ensures { IsReading (some_strategies level) EndsStrategies strategies_from input.entry result }
{
    let (first, mut rest) = strategy(alloc, input, level)?;
    let mut parts = Vec::with_capacity(alloc, 1)?;
    parts.push(first)?;
    while let Some(following) = rest.after(Mark::Comma) {
        let (other, following) = strategy(alloc, following, level)?;
        parts.push(other)?;
        rest = following;
    }
    Ok((parts, rest))
}
