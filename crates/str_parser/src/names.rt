//! Names and parameters from tokens.
ghost use Rattle.std.specs.Prelude.{◌≡◌};
ghost use Rattle.str_syntax.specs.Views.{parameters_of, head_of};
ghost use Rattle.str_parser.specs.Phrases.{some_names, names as any_names, parameters as written_parameters, headed};
ghost use Rattle.str_parser.specs.Readings.{IsReading, AtMost, one_name, itself, names_of};
ghost use Rattle.str_parser.specs.Runs.{IsReadingAny, NoneOf, is_comma, is_comma_or_name};
ghost use Rattle.str_parser.specs.Parsing.{begins_name as first_is_name};

use crate::expected::Candidate;
use crate::input::{Input, Lexeme};
use crate::refusal::ParseRefusal;
use std::alloc::Global;
use str_lexer::Mark;
use str_syntax::{DefinitionHead, Name, Parameters};

/// Reads the name that the tokens begin with; also returns the tokens after it. Where there is none, that is what was expected.
pub(crate) fn name<'a>(
    alloc: Global,
    input: Input<'a>,
    expected: &'static [Candidate],
) -> Result<(Name, Input<'a>), ParseRefusal>
    ensures { IsReading one_name (AtMost 5) itself input.entry result }
{
    let Some((Lexeme::Name(bytes), rest)) = input.first() else {
        return Err(input.syntax(expected));
    };
    Ok((Name::new(alloc, bytes, input.at())?, rest))
}

/// Reads the names with commas between that the tokens begin with, one at least; also returns the tokens after them.
pub(crate) fn names<'a>(
    alloc: Global,
    input: Input<'a>,
) -> Result<(Vec<Name>, Input<'a>), ParseRefusal>
    ensures { IsReading some_names (NoneOf is_comma) names_of input.entry result }
{
    let (first, mut rest) = name(alloc, input, &[Candidate::Name])?;
    let mut found = Vec::with_capacity(alloc, 1)?;
    found.push(first)?;
    while let Some(following) = rest.after(Mark::Comma) {
        let (other, following) = name(alloc, following, &[Candidate::Name])?;
        found.push(other)?;
        rest = following;
    }
    Ok((found, rest))
}

/// Reads the names with commas between that the tokens begin with, if any; also returns the tokens after them.
fn names_up_to<'a>(alloc: Global, input: Input<'a>) -> Result<(Vec<Name>, Input<'a>), ParseRefusal>
    ensures { IsReadingAny any_names (NoneOf is_comma_or_name) names_of input.entry result }
{
    match input.first() {
        Some((Lexeme::Name(_), _)) => names(alloc, input),
        _ => Ok((Vec::new(alloc), input)),
    }
}

/// Returns what could stand after these strategy parameters.
fn after_strategies(names: &[Name]) -> &'static [Candidate] {
    if names.is_empty() {
        return &[Candidate::Name, Candidate::Bar, Candidate::CloseParenthesis];
    }
    &[
        Candidate::Comma,
        Candidate::Bar,
        Candidate::CloseParenthesis,
    ]
}

/// Returns what could stand after these term parameters.
fn after_terms(names: &[Name]) -> &'static [Candidate] {
    if names.is_empty() {
        return &[Candidate::Name, Candidate::CloseParenthesis];
    }
    &[Candidate::Comma, Candidate::CloseParenthesis]
}

/// Reads the parameters that the tokens begin with; also returns the tokens after them.
pub(crate) fn parameters<'a>(
    alloc: Global,
    input: Input<'a>,
) -> Result<(Parameters, Input<'a>), ParseRefusal>
    ensures { IsReadingAny written_parameters (AtMost 3) parameters_of input.entry result }
{
    let Some(following) = input.after(Mark::OpenParenthesis) else {
        return Ok((Parameters::Absent, input));
    };
    let (strategies, rest) = names_up_to(alloc, following)?;
    if let Some(rest) = rest.after(Mark::CloseParenthesis) {
        return Ok((Parameters::Strategies(strategies), rest));
    }
    let Some(following) = rest.after(Mark::Bar) else {
        return Err(rest.syntax(after_strategies(&strategies)));
    };
    let (terms, rest) = names_up_to(alloc, following)?;
    let Some(rest) = rest.after(Mark::CloseParenthesis) else {
        return Err(rest.syntax(after_terms(&terms)));
    };
    Ok((Parameters::WithTerms(strategies, terms), rest))
}

/// Reads the name and the parameters that the tokens begin with; also returns the tokens after them.
pub(crate) fn head<'a>(
    alloc: Global,
    input: Input<'a>,
) -> Result<(DefinitionHead, Input<'a>), ParseRefusal>
    ensures { IsReading headed (AtMost 3) head_of input.entry result }
{
    let (name, rest) = name(alloc, input, &[Candidate::Name])?;
    let (parameters, rest) = parameters(alloc, rest)?;
    Ok((DefinitionHead { name, parameters }, rest))
}

/// Tells whether the first token is a name, as each rule and definition begins.
pub(crate) fn begins_name(input: &Input<'_>) -> bool
    ensures { result ≡ first_is_name input.now }
{
    matches!(input.first(), Some((Lexeme::Name(_), _)))
}
