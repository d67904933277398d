//! Rules from tokens.
ghost use Rattle.std.specs.Prelude.{◌+◌, ◌≤◌, ◌∷◌};
ghost use Rattle.str_lexer.specs.declared.token.Mark.TheVariants as M;
ghost use Rattle.str_lexer.specs.declared.token.Keyword.TheVariants as K;
ghost use Rattle.str_syntax.specs.Views.{rule_of, optional_strategy_of};
ghost use Rattle.str_parser.specs.Items.{max_level};
ghost use Rattle.str_parser.specs.Lexemes.{mark as mark_lexeme};
ghost use Rattle.str_parser.specs.Phrases.{primary as written, rule as written_rule, led_by};
ghost use Rattle.str_parser.specs.Readings.{AtMost, IsReading};
ghost use Rattle.str_parser.specs.Runs.{IsReadingAny};
ghost use Rattle.str_parser.specs.Parsing.{EndsRule};
ghost use Rattle.str_parser.specs.Parts.{boxed_primary_of};

use crate::descent::strategy;
use crate::expected::Candidate;
use crate::input::Input;
use crate::pattern::pattern;
use crate::refusal::ParseRefusal;
use std::alloc::Global;
use str_lexer::{Keyword, Mark};
use str_syntax::{Primary, Rule, Strategy};

/// Returns what could stand after a rule between backslashes that has this condition.
fn after_condition(condition: &Option<Box<Strategy>>) -> &'static [Candidate] {
    match condition {
        Some(_) => &[Candidate::Backslash],
        None => &[Candidate::WhereKeyword, Candidate::Backslash],
    }
}

/// Reads the rule at this level whose `\\` stands before the tokens, and the one after it; also returns the tokens after that.
#[cycle(phrase)]
pub(crate) fn lambda<'a>(
    alloc: Global,
    input: Input<'a>,
    level: u32,
) -> Result<(Box<Primary>, Input<'a>), ParseRefusal>
    requires { level ≤ max_level }
    ensures { IsReading (written level) (AtMost 3) boxed_primary_of
        (mark_lexeme M.Backslash ∷ input.entry) result }
{
    let (rule, rest) = rule(alloc, input, level + 1)?;
    let Some(rest) = rest.after(Mark::Backslash) else {
        return Err(rest.syntax(after_condition(&rule.condition)));
    };
    let rule = Box::new(alloc, rule)?;
    Ok((Box::new(alloc, Primary::Lambda(rule))?, rest))
}

/// Reads the rule at this level that the tokens begin with; also returns the tokens after it.
#[cycle(phrase)]
pub(crate) fn rule<'a>(
    alloc: Global,
    input: Input<'a>,
    level: u32,
) -> Result<(Rule, Input<'a>), ParseRefusal>
    requires { level ≤ max_level + 1 }
    ensures { IsReading (written_rule level) EndsRule rule_of input.entry result }
{
    let (left, rest) = pattern(alloc, input, true, level)?;
    let Some(following) = rest.after(Mark::Arrow) else {
        return Err(rest.syntax(&[Candidate::Arrow]));
    };
    let left = Box::new(alloc, left)?;
    let (right, rest) = pattern(alloc, following, false, level)?;
    let right = Box::new(alloc, right)?;
    let (condition, rest) = condition(alloc, rest, level)?;
    let made = Rule {
        left,
        right,
        condition,
    };
    Ok((made, rest))
}

/// Reads `where` and the strategy at this level after it, if the tokens begin so; also returns the tokens after it.
#[cycle(phrase)]
fn condition<'a>(
    alloc: Global,
    input: Input<'a>,
    level: u32,
) -> Result<(Option<Box<Strategy>>, Input<'a>), ParseRefusal>
    requires { level ≤ max_level + 1 }
    ensures { IsReadingAny (led_by K.Where level) EndsRule optional_strategy_of
        input.entry result }
{
    let Some(following) = input.after_keyword(Keyword::Where) else {
        return Ok((None, input));
    };
    let (part, rest) = strategy(alloc, following, level)?;
    Ok((Some(Box::new(alloc, part)?), rest))
}
