//! The rules and the definitions of sections, from tokens.
ghost use Rattle.std.specs.Prelude.{◌≡◌};
ghost use Rattle.str_syntax.specs.Views.{head_of, rule_of, form_of, top_of};
ghost use Rattle.str_parser.specs.Phrases;
ghost use Rattle.str_parser.specs.Readings.{IsReading, AtMost};
ghost use Rattle.str_parser.specs.Runs.{IsReadingAny};
ghost use Rattle.str_parser.specs.Parsing.{EndsRule, EndsForms, one_top, tops_of, begins_name};

use crate::descent::strategy;
use crate::expected::Candidate;
use crate::input::Input;
use crate::names::{begins_name, head};
use crate::refusal::ParseRefusal;
use crate::rule::rule;
use std::alloc::Global;
use str_lexer::{Keyword, Mark};
use str_syntax::{Definition, DefinitionForm, DefinitionHead, Origin, Rule, RuleDefinition, build};

/// Reads the rule or the definition that the tokens begin with; also returns the tokens after it.
fn form<'a>(alloc: Global, input: Input<'a>) -> Result<(DefinitionForm, Input<'a>), ParseRefusal>
    ensures { IsReading Phrases.form EndsRule form_of input.entry result }
{
    let (head, rest) = head(alloc, input)?;
    if let Some(following) = rest.after(Mark::Colon) {
        let (rule, rest) = rule(alloc, following, 1)?;
        let definition = RuleDefinition { head, rule };
        return Ok((DefinitionForm::Rule(definition), rest));
    }
    let Some(following) = rest.after(Mark::Equals) else {
        return Err(rest.syntax(&[Candidate::Colon, Candidate::Equals]));
    };
    let (body, rest) = strategy(alloc, following, 1)?;
    let definition = build::definition(alloc, head, body)?;
    Ok((DefinitionForm::Strategy(definition), rest))
}

/// The same, as a definition of the file.
fn definition<'a>(alloc: Global, input: Input<'a>) -> Result<(Definition, Input<'a>), ParseRefusal>
    ensures { IsReading one_top EndsRule top_of input.entry result }
{
    let (form, rest) = form(alloc, input)?;
    let origin = Origin::File;
    Ok((Definition { origin, form }, rest))
}

/// Reads the rules and the definitions up to the first token that begins none; also returns the tokens after them.
pub(crate) fn definitions<'a>(
    alloc: Global,
    input: Input<'a>,
) -> Result<(Vec<Definition>, Input<'a>), ParseRefusal>
    ensures { IsReadingAny Phrases.top_forms EndsForms tops_of input.entry result }
{
    let mut definitions = Vec::new(alloc);
    let mut rest = input;
    while begins_name(&rest) {
        let (definition, following) = definition(alloc, rest)?;
        definitions.push(definition)?;
        rest = following;
    }
    Ok((definitions, rest))
}
