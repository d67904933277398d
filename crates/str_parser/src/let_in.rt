//! Local definitions from tokens.
ghost use Rattle.std.specs.Prelude.{◌+◌, ◌≤◌, ◌∷◌};
ghost use Rattle.str_lexer.specs.declared.token.Keyword.TheVariants as K;
ghost use Rattle.str_syntax.specs.Views.{definition_of};
ghost use Rattle.str_parser.specs.Items.{max_level};
ghost use Rattle.str_parser.specs.Lexemes.{keyword as keyword_lexeme};
ghost use Rattle.str_parser.specs.Phrases.{primary as written, defined};
ghost use Rattle.str_parser.specs.Readings.{AtMost, IsReading};
ghost use Rattle.str_parser.specs.Parts.{boxed_primary_of, definitions_from, some_definitions, EndsDefinitions};

use crate::descent::{strategy, strategy_before_keyword};
use crate::expected::Candidate;
use crate::input::Input;
use crate::names::{begins_name, head};
use crate::refusal::ParseRefusal;
use std::alloc::Global;
use str_lexer::{Keyword, Mark};
use str_syntax::{Primary, StrategyDefinition, build};

/// Reads the let at this level whose keyword stands before the tokens; also returns the tokens after it.
#[cycle(phrase)]
pub(crate) fn let_in<'a>(
    alloc: Global,
    input: Input<'a>,
    level: u32,
) -> Result<(Box<Primary>, Input<'a>), ParseRefusal>
    requires { level ≤ max_level }
    ensures { IsReading (written level) (AtMost 3) boxed_primary_of
        (keyword_lexeme K.Let ∷ input.entry) result }
{
    let (definitions, rest) = definitions(alloc, input, level + 1)?;
    let Some(following) = rest.after_keyword(Keyword::In) else {
        return Err(rest.syntax(&[Candidate::Name, Candidate::InKeyword]));
    };
    let expected = &[Candidate::EndKeyword];
    let (body, rest) = strategy_before_keyword(
        alloc,
        following,
        level + 1,
        Keyword::End,
        expected,
    )?;
    Ok((Box::new(alloc, Primary::Let(definitions, body))?, rest))
}

/// Reads the definitions at this level that the tokens begin with, one at least; also returns the tokens after them.
#[cycle(phrase)]
fn definitions<'a>(
    alloc: Global,
    input: Input<'a>,
    level: u32,
) -> Result<(Vec<StrategyDefinition>, Input<'a>), ParseRefusal>
    requires { level ≤ max_level + 1 }
    ensures { IsReading (some_definitions level) EndsDefinitions definitions_from
        input.entry result }
{
    let (first, mut rest) = definition(alloc, input, level)?;
    let mut found = Vec::new(alloc);
    found.push(first)?;
    'definitions: while begins_name(&rest) {
        let (other, following) = definition(alloc, rest, level)?;
        found.push(other)?;
        rest = following;
    }
    Ok((found, rest))
}

/// Reads the definition at this level that the tokens begin with; also returns the tokens after it.
#[cycle(phrase)]
fn definition<'a>(
    alloc: Global,
    input: Input<'a>,
    level: u32,
) -> Result<(StrategyDefinition, Input<'a>), ParseRefusal>
    requires { level ≤ max_level + 1 }
    ensures { IsReading (defined level) (AtMost 0) definition_of input.entry result }
{
    let (head, rest) = head(alloc, input)?;
    let Some(following) = rest.after(Mark::Equals) else {
        return Err(rest.syntax(&[Candidate::Equals]));
    };
    let (body, rest) = strategy(alloc, following, level)?;
    Ok((build::definition(alloc, head, body)?, rest))
}
