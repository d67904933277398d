//! Congruences of tuples and lists, and strategies in parentheses, from tokens.
ghost use Rattle.std.specs.Prelude.{◌≡◌, ◌+◌, ◌≤◌, ◌∷◌, IfOk};
ghost use Rattle.str_lexer.specs.declared.token.Mark.TheVariants as M;
ghost use Rattle.str_syntax.specs.Views.{primary_of, optional_strategy_of};
ghost use Rattle.str_parser.specs.Items.{max_level};
ghost use Rattle.str_parser.specs.Lexemes.{mark as mark_lexeme};
ghost use Rattle.str_parser.specs.Phrases.{primary as written};
ghost use Rattle.str_parser.specs.Readings.{AtMost, IsReading};
ghost use Rattle.str_parser.specs.Parts.{boxed_primary_of, strategies_from, in_parentheses as written_in_parentheses, Anything, strategy_list_end};

use crate::descent::{strategies, strategy_before};
use crate::expected::Candidate;
use crate::input::Input;
use crate::refusal::ParseRefusal;
use std::alloc::{AllocError, Global};
use str_lexer::Mark;
use str_syntax::{Primary, Strategy};

/// Makes the primary that these strategies in parentheses are.
fn parenthesize(alloc: Global, parts: Vec<Strategy>) -> Result<Primary, AllocError>
    ensures { IfOk result (λ made. primary_of made ≡
        written_in_parentheses (strategies_from parts)) }
{
    let mut parts = parts;
    if parts.len() != 1 {
        return Ok(Primary::TupleCongruence(parts));
    }
    match parts.pop() {
        Some(part) => Ok(Primary::Parenthesized(Box::new(alloc, part)?)),
        None => Ok(Primary::TupleCongruence(parts)),
    }
}

/// Reads the primary at this level whose `(` stands before the tokens; also returns the tokens after it.
#[cycle(phrase)]
pub(crate) fn strategies_in_parentheses<'a>(
    alloc: Global,
    input: Input<'a>,
    level: u32,
) -> Result<(Box<Primary>, Input<'a>), ParseRefusal>
    requires { level ≤ max_level }
    ensures { IsReading (written level) (AtMost 3) boxed_primary_of
        (mark_lexeme M.OpenParenthesis ∷ input.entry) result }
{
    if let Some(rest) = input.after(Mark::CloseParenthesis) {
        let made = Primary::TupleCongruence(Vec::new(alloc));
        return Ok((Box::new(alloc, made)?, rest));
    }
    let (parts, rest) = strategies(alloc, input, level + 1)?;
    let Some(rest) = rest.after(Mark::CloseParenthesis) else {
        return Err(rest.syntax(&[Candidate::Comma, Candidate::CloseParenthesis]));
    };
    let made = parenthesize(alloc, parts)?;
    Ok((Box::new(alloc, made)?, rest))
}

/// Reads the congruence at this level whose `[` stands before the tokens; also returns the tokens after it.
#[cycle(phrase)]
pub(crate) fn list_congruence<'a>(
    alloc: Global,
    input: Input<'a>,
    level: u32,
) -> Result<(Box<Primary>, Input<'a>), ParseRefusal>
    requires { level ≤ max_level }
    ensures { IsReading (written level) (AtMost 3) boxed_primary_of
        (mark_lexeme M.OpenBracket ∷ input.entry) result }
{
    if let Some(rest) = input.after(Mark::CloseBracket) {
        let made = Primary::ListCongruence(Vec::new(alloc), None);
        return Ok((Box::new(alloc, made)?, rest));
    }
    let (parts, rest) = strategies(alloc, input, level + 1)?;
    let (tail, rest) = list_end(alloc, rest, level + 1)?;
    Ok((Box::new(alloc, Primary::ListCongruence(parts, tail))?, rest))
}

/// Reads the `]` of a list, or `|` and a strategy at this level before it, that the tokens begin with; also returns the tokens after it.
#[cycle(phrase)]
fn list_end<'a>(
    alloc: Global,
    input: Input<'a>,
    level: u32,
) -> Result<(Option<Box<Strategy>>, Input<'a>), ParseRefusal>
    requires { level ≤ max_level + 1 }
    ensures { IsReading (strategy_list_end level) Anything optional_strategy_of input.entry result }
{
    if let Some(rest) = input.after(Mark::CloseBracket) {
        return Ok((None, rest));
    }
    let Some(following) = input.after(Mark::Bar) else {
        return Err(input.syntax(&[Candidate::Comma, Candidate::Bar, Candidate::CloseBracket]));
    };
    let expected = &[Candidate::CloseBracket];
    let (tail, rest) = strategy_before(alloc, following, level, Mark::CloseBracket, expected)?;
    Ok((Some(tail), rest))
}
