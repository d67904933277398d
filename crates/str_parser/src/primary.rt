//! Primaries from tokens: the choice of the form by the first token, and the forms that have no module of their own.
ghost use Rattle.std.specs.Prelude.{◌+◌, ◌≤◌, ◌∷◌};
ghost use Rattle.str_lexer.specs.declared.token.Mark.TheVariants as M;
ghost use Rattle.str_lexer.specs.declared.token.Keyword.TheVariants as K;
ghost use Rattle.str_syntax.specs.Views.{optional_strategy_of};
ghost use Rattle.str_parser.specs.Items.{max_level};
ghost use Rattle.str_parser.specs.Lexemes.{mark as mark_lexeme, keyword as keyword_lexeme};
ghost use Rattle.str_parser.specs.Phrases.{primary as written, keyword_of};
ghost use Rattle.str_parser.specs.Readings.{AtMost, IsReading};
ghost use Rattle.str_parser.specs.Parts.{boxed_primary_of, boxed_strategy_of, Anything, written_operand, conditional_end as written_end};

use crate::call::{call, primitive};
use crate::congruence::{list_congruence, strategies_in_parentheses};
use crate::descent::{strategy, strategy_before, strategy_before_keyword};
use crate::expected::{Candidate, SyntaxReason};
use crate::input::{Input, Lexeme};
use crate::let_in::let_in;
use crate::names::{name, names};
use crate::pattern::pattern;
use crate::refusal::ParseRefusal;
use crate::rule::lambda;
use std::alloc::Global;
use str_lexer::{Keyword, Mark};
use str_syntax::{Operator, Primary, Strategy};

/// Reads the primary at this level that the tokens begin with; also returns the tokens after it.
#[cycle(phrase)]
pub(crate) fn primary<'a>(
    alloc: Global,
    input: Input<'a>,
    level: u32,
) -> Result<(Box<Primary>, Input<'a>), ParseRefusal>
    requires { level ≤ max_level }
    ensures { IsReading (written level) (AtMost 3) boxed_primary_of input.entry result }
{
    let Some((first, rest)) = input.first() else {
        return Err(input.syntax(&[Candidate::Strategy]));
    };
    match first {
        Lexeme::Name(name) => call(alloc, name, input.at(), rest, level),
        Lexeme::Mark(mark) => primary_after_mark(alloc, mark, input.at(), rest, level),
        Lexeme::Keyword(keyword) => primary_after_keyword(alloc, keyword, input.at(), rest, level),
        _ => Err(input.syntax(&[Candidate::Strategy])),
    }
}

/// Reads the primary at this level whose mark, at this byte, stands before the tokens; also returns the tokens after it.
#[cycle(phrase)]
fn primary_after_mark<'a>(
    alloc: Global,
    mark: Mark,
    at: u64,
    input: Input<'a>,
    level: u32,
) -> Result<(Box<Primary>, Input<'a>), ParseRefusal>
    requires { level ≤ max_level }
    ensures { IsReading (written level) (AtMost 3) boxed_primary_of
        (mark_lexeme mark ∷ input.entry) result }
{
    match mark {
        Mark::Question => pattern_match(alloc, input, level),
        Mark::Exclamation => pattern_build(alloc, input, level),
        Mark::Backslash => lambda(alloc, input, level),
        Mark::Less => strategy_application(alloc, input, level),
        Mark::OpenParenthesis => strategies_in_parentheses(alloc, input, level),
        Mark::OpenBracket => list_congruence(alloc, input, level),
        Mark::OpenBrace => scope(alloc, input, level),
        _ => {
            let reason = SyntaxReason::any_of(&[Candidate::Strategy]);
            Err(ParseRefusal::Syntax { at, reason })
        }
    }
}

/// Reads the primary at this level whose keyword, at this byte, stands before the tokens; also returns the tokens after it.
#[cycle(phrase)]
#[inline(never)]
fn primary_after_keyword<'a>(
    alloc: Global,
    keyword: Keyword,
    at: u64,
    input: Input<'a>,
    level: u32,
) -> Result<(Box<Primary>, Input<'a>), ParseRefusal>
    requires { level ≤ max_level }
    ensures { IsReading (written level) (AtMost 3) boxed_primary_of
        (keyword_lexeme keyword ∷ input.entry) result }
{
    match keyword {
        Keyword::Id => Ok((Box::new(alloc, Primary::Id)?, input)),
        Keyword::Fail => Ok((Box::new(alloc, Primary::Fail)?, input)),
        Keyword::Where => operator_call(alloc, Operator::Where, input, level),
        Keyword::Not => operator_call(alloc, Operator::Not, input, level),
        Keyword::All => operator_call(alloc, Operator::All, input, level),
        Keyword::One => operator_call(alloc, Operator::One, input, level),
        Keyword::Some => operator_call(alloc, Operator::Some, input, level),
        Keyword::If => conditional(alloc, input, level),
        Keyword::Rec => recursion(alloc, input, level),
        Keyword::Let => let_in(alloc, input, level),
        Keyword::Prim => primitive(alloc, input, level),
        _ => {
            let reason = SyntaxReason::any_of(&[Candidate::Strategy]);
            Err(ParseRefusal::Syntax { at, reason })
        }
    }
}

/// Reads the match at this level whose `?` stands before the tokens; also returns the tokens after it.
#[cycle(phrase)]
fn pattern_match<'a>(
    alloc: Global,
    input: Input<'a>,
    level: u32,
) -> Result<(Box<Primary>, Input<'a>), ParseRefusal>
    requires { level ≤ max_level }
    ensures { IsReading (written level) (AtMost 3) boxed_primary_of
        (mark_lexeme M.Question ∷ input.entry) result }
{
    let (part, rest) = pattern(alloc, input, true, level + 1)?;
    Ok((Box::new(alloc, Primary::Match(part))?, rest))
}

/// Reads the build at this level whose `!` stands before the tokens; also returns the tokens after it.
#[cycle(phrase)]
fn pattern_build<'a>(
    alloc: Global,
    input: Input<'a>,
    level: u32,
) -> Result<(Box<Primary>, Input<'a>), ParseRefusal>
    requires { level ≤ max_level }
    ensures { IsReading (written level) (AtMost 3) boxed_primary_of
        (mark_lexeme M.Exclamation ∷ input.entry) result }
{
    let (part, rest) = pattern(alloc, input, false, level + 1)?;
    Ok((Box::new(alloc, Primary::Build(part))?, rest))
}

/// Reads the strategy at this level that is applied to a pattern and whose `<` stands before the tokens; also returns the tokens after
/// the pattern.
#[cycle(phrase)]
fn strategy_application<'a>(
    alloc: Global,
    input: Input<'a>,
    level: u32,
) -> Result<(Box<Primary>, Input<'a>), ParseRefusal>
    requires { level ≤ max_level }
    ensures { IsReading (written level) (AtMost 3) boxed_primary_of
        (mark_lexeme M.Less ∷ input.entry) result }
{
    let (applied, rest) = strategy_before(
        alloc,
        input,
        level + 1,
        Mark::Greater,
        &[Candidate::Greater],
    )?;
    let (part, rest) = pattern(alloc, rest, false, level + 1)?;
    let made = Primary::Apply(applied, Box::new(alloc, part)?);
    Ok((Box::new(alloc, made)?, rest))
}

/// Reads the scope at this level whose `{` stands before the tokens; also returns the tokens after it.
#[cycle(phrase)]
fn scope<'a>(
    alloc: Global,
    input: Input<'a>,
    level: u32,
) -> Result<(Box<Primary>, Input<'a>), ParseRefusal>
    requires { level ≤ max_level }
    ensures { IsReading (written level) (AtMost 3) boxed_primary_of
        (mark_lexeme M.OpenBrace ∷ input.entry) result }
{
    let (variables, rest) = names(alloc, input)?;
    let Some(following) = rest.after(Mark::Colon) else {
        return Err(rest.syntax(&[Candidate::Comma, Candidate::Colon]));
    };
    let expected = &[Candidate::CloseBrace];
    let (part, rest) = strategy_before(alloc, following, level + 1, Mark::CloseBrace, expected)?;
    Ok((Box::new(alloc, Primary::Scope(variables, part))?, rest))
}

/// Reads the parenthesis, the strategy at this level and the parenthesis after it that the tokens begin with; also returns the tokens
/// after them.
#[cycle(phrase)]
fn operand<'a>(
    alloc: Global,
    input: Input<'a>,
    level: u32,
) -> Result<(Box<Strategy>, Input<'a>), ParseRefusal>
    requires { level ≤ max_level + 1 }
    ensures { IsReading (written_operand level) Anything boxed_strategy_of input.entry result }
{
    let Some(following) = input.after(Mark::OpenParenthesis) else {
        return Err(input.syntax(&[Candidate::OpenParenthesis]));
    };
    let expected = &[Candidate::CloseParenthesis];
    strategy_before(alloc, following, level, Mark::CloseParenthesis, expected)
}

/// Reads the call at this level of the operator whose keyword stands before the tokens; also returns the tokens after it.
#[cycle(phrase)]
fn operator_call<'a>(
    alloc: Global,
    operator: Operator,
    input: Input<'a>,
    level: u32,
) -> Result<(Box<Primary>, Input<'a>), ParseRefusal>
    requires { level ≤ max_level }
    ensures { IsReading (written level) (AtMost 3) boxed_primary_of
        (keyword_lexeme (keyword_of operator) ∷ input.entry) result }
{
    let (part, rest) = operand(alloc, input, level + 1)?;
    Ok((Box::new(alloc, Primary::Operator(operator, part))?, rest))
}

/// Reads the recursive strategy at this level whose `rec` stands before the tokens; also returns the tokens after it.
#[cycle(phrase)]
fn recursion<'a>(
    alloc: Global,
    input: Input<'a>,
    level: u32,
) -> Result<(Box<Primary>, Input<'a>), ParseRefusal>
    requires { level ≤ max_level }
    ensures { IsReading (written level) (AtMost 3) boxed_primary_of
        (keyword_lexeme K.Rec ∷ input.entry) result }
{
    let (name, rest) = name(alloc, input, &[Candidate::Name])?;
    let (part, rest) = operand(alloc, rest, level + 1)?;
    Ok((Box::new(alloc, Primary::Recursive(name, part))?, rest))
}

/// Reads the conditional at this level whose `if` stands before the tokens; also returns the tokens after it.
#[cycle(phrase)]
fn conditional<'a>(
    alloc: Global,
    input: Input<'a>,
    level: u32,
) -> Result<(Box<Primary>, Input<'a>), ParseRefusal>
    requires { level ≤ max_level }
    ensures { IsReading (written level) (AtMost 3) boxed_primary_of
        (keyword_lexeme K.If ∷ input.entry) result }
{
    let expected = &[Candidate::ThenKeyword];
    let (condition, rest) = strategy_before_keyword(
        alloc,
        input,
        level + 1,
        Keyword::Then,
        expected,
    )?;
    let (then, rest) = strategy(alloc, rest, level + 1)?;
    let then = Box::new(alloc, then)?;
    let (other, rest) = conditional_end(alloc, rest, level + 1)?;
    Ok((Box::new(alloc, Primary::If(condition, then, other))?, rest))
}

/// Reads the `end` of a conditional, or `else` and a strategy at this level before it, that the tokens begin with; also returns the
/// tokens after it.
#[cycle(phrase)]
fn conditional_end<'a>(
    alloc: Global,
    input: Input<'a>,
    level: u32,
) -> Result<(Option<Box<Strategy>>, Input<'a>), ParseRefusal>
    requires { level ≤ max_level + 1 }
    ensures { IsReading (written_end level) Anything optional_strategy_of input.entry result }
{
    if let Some(rest) = input.after_keyword(Keyword::End) {
        return Ok((None, rest));
    }
    let Some(following) = input.after_keyword(Keyword::Else) else {
        return Err(input.syntax(&[Candidate::ElseKeyword, Candidate::EndKeyword]));
    };
    let expected = &[Candidate::EndKeyword];
    let (part, rest) = strategy_before_keyword(alloc, following, level, Keyword::End, expected)?;
    Ok((Some(part), rest))
}
