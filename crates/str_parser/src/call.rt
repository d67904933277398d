//! Calls of strategies and primitives from tokens.
ghost use Rattle.std.specs.Prelude.{◌≡◌, ◌+◌, ◌≤◌, ◌∷◌};
ghost use Rattle.str_lexer.specs.declared.token.Keyword.TheVariants as K;
ghost use Rattle.str_syntax.specs.Views.{arguments_of};
ghost use Rattle.str_parser.specs.Items.{max_level};
ghost use Rattle.str_parser.specs.Lexemes.{name, keyword as keyword_lexeme};
ghost use Rattle.str_parser.specs.Phrases.{primary as written, arguments as written_arguments, strategy_list};
ghost use Rattle.str_parser.specs.Readings.{AtMost, IsReading, itself};
ghost use Rattle.str_parser.specs.Runs.{IsReadingAny};
ghost use Rattle.str_parser.specs.Parts.{boxed_primary_of, strategies_from, patterns_from, Anything, EndsArguments, first_ends_strategies, arguments_inside as written_inside, primitive_name as written_name, primitive_patterns as written_patterns};

use crate::descent::strategies;
use crate::expected::Candidate;
use crate::input::{Input, Lexeme};
use crate::pattern::{Closing, patterns, patterns_before};
use crate::refusal::ParseRefusal;
use std::alloc::Global;
use str_lexer::Mark;
use str_syntax::{Arguments, Name, Pattern, Primary, Strategy, Text};

/// Reads the call at this level whose name, at this byte, stands before the tokens; also returns the tokens after it.
#[cycle(phrase)]
#[inline(never)]
pub(crate) fn call<'a>(
    alloc: Global,
    bytes: &'a [u8],
    at: u64,
    input: Input<'a>,
    level: u32,
) -> Result<(Box<Primary>, Input<'a>), ParseRefusal>
    requires { level ≤ max_level }
    ensures { IsReading (written level) (AtMost 3) boxed_primary_of
        (name bytes.now ∷ input.entry) result }
{
    let called = Name::new(alloc, bytes, at)?;
    let (arguments, rest) = arguments(alloc, input, level + 1)?;
    Ok((Box::new(alloc, Primary::Call(called, arguments))?, rest))
}

/// Reads the arguments at this level, if any, that the tokens begin with; also returns the tokens after them.
#[cycle(phrase)]
fn arguments<'a>(
    alloc: Global,
    input: Input<'a>,
    level: u32,
) -> Result<(Arguments, Input<'a>), ParseRefusal>
    requires { level ≤ max_level + 1 }
    ensures { IsReadingAny (written_arguments level) (AtMost 3) arguments_of input.entry result }
{
    let Some(following) = input.after(Mark::OpenParenthesis) else {
        return Ok((Arguments::Absent, input));
    };
    arguments_inside(alloc, following, level)
}

/// Reads the arguments at this level whose `(` stands before the tokens; also returns the tokens after them.
#[cycle(phrase)]
fn arguments_inside<'a>(
    alloc: Global,
    input: Input<'a>,
    level: u32,
) -> Result<(Arguments, Input<'a>), ParseRefusal>
    requires { level ≤ max_level + 1 }
    ensures { IsReading (written_inside level) Anything arguments_of input.entry result }
{
    let (strategies, rest) = any_strategies(alloc, input, level)?;
    if let Some(rest) = rest.after(Mark::CloseParenthesis) {
        return Ok((Arguments::Strategies(strategies), rest));
    }
    let Some(following) = rest.after(Mark::Bar) else {
        return Err(rest.syntax(&[
            Candidate::Comma,
            Candidate::Bar,
            Candidate::CloseParenthesis,
        ]));
    };
    let (terms, rest) = patterns_before(alloc, following, false, level, Closing::Parenthesis)?;
    Ok((
        Arguments::WithTerms(strategies, Box::new(alloc, terms)?),
        rest,
    ))
}

/// Tells whether the strategies of a call end before these tokens: whether the first is `)` or `|`.
fn ends_here(input: &Input<'_>) -> bool
    ensures { result ≡ first_ends_strategies input.now }
{
    let Some((Lexeme::Mark(mark), _)) = input.first() else {
        return false;
    };
    matches!(mark, Mark::CloseParenthesis | Mark::Bar)
}

/// Reads the strategies at this level with commas between, if any, that the tokens of a call begin with; also returns the tokens after
/// them.
#[cycle(phrase)]
fn any_strategies<'a>(
    alloc: Global,
    input: Input<'a>,
    level: u32,
) -> Result<(Vec<Strategy>, Input<'a>), ParseRefusal>
    requires { level ≤ max_level + 1 }
    ensures { IsReadingAny (strategy_list level) EndsArguments strategies_from input.entry result }
{
    if ends_here(&input) {
        return Ok((Vec::new(alloc), input));
    }
    strategies(alloc, input, level)
}

/// Reads the parenthesis and the name of a primitive that the tokens begin with; also returns the tokens after it.
fn primitive_name<'a>(alloc: Global, input: Input<'a>) -> Result<(Text, Input<'a>), ParseRefusal>
    ensures { IsReading written_name Anything itself input.entry result }
{
    let Some(following) = input.after(Mark::OpenParenthesis) else {
        return Err(input.syntax(&[Candidate::OpenParenthesis]));
    };
    let Some((Lexeme::Quoted(text), rest)) = following.first() else {
        return Err(following.syntax(&[Candidate::QuotedText]));
    };
    Ok((Text::new(alloc, text)?, rest))
}

/// Reads the call of a primitive at this level whose `prim` stands before the tokens; also returns the tokens after it.
#[cycle(phrase)]
pub(crate) fn primitive<'a>(
    alloc: Global,
    input: Input<'a>,
    level: u32,
) -> Result<(Box<Primary>, Input<'a>), ParseRefusal>
    requires { level ≤ max_level }
    ensures { IsReading (written level) (AtMost 3) boxed_primary_of
        (keyword_lexeme K.Prim ∷ input.entry) result }
{
    let (text, rest) = primitive_name(alloc, input)?;
    let (terms, rest) = primitive_patterns(alloc, rest, level + 1)?;
    Ok((Box::new(alloc, Primary::Primitive(text, terms))?, rest))
}

/// Reads the patterns at this level with a comma before each, if any, and the parenthesis after them that the tokens begin with; also
/// returns the tokens after it.
#[cycle(phrase)]
fn primitive_patterns<'a>(
    alloc: Global,
    input: Input<'a>,
    level: u32,
) -> Result<(Vec<Pattern>, Input<'a>), ParseRefusal>
    requires { level ≤ max_level + 1 }
    ensures { IsReading (written_patterns level) Anything patterns_from input.entry result }
{
    if let Some(rest) = input.after(Mark::CloseParenthesis) {
        return Ok((Vec::new(alloc), rest));
    }
    let Some(following) = input.after(Mark::Comma) else {
        return Err(input.syntax(&[Candidate::Comma, Candidate::CloseParenthesis]));
    };
    let (terms, rest) = patterns(alloc, following, false, level)?;
    let Some(rest) = rest.after(Mark::CloseParenthesis) else {
        return Err(rest.syntax(&[Candidate::Comma, Candidate::CloseParenthesis]));
    };
    Ok((terms, rest))
}
