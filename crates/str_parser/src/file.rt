//! The sections of files, and whole files, from tokens.
ghost use Rattle.std.specs.Prelude.{◌≡◌};
ghost use Rattle.str_syntax.specs.Views.{section_of};
ghost use Rattle.str_lexer.specs.Lexing.{AreSlices};
ghost use Rattle.str_parser.specs.Lexemes.{lexemes};
ghost use Rattle.str_parser.specs.Phrases;
ghost use Rattle.str_parser.specs.Readings.{IsReading};
ghost use Rattle.str_parser.specs.Parsing.{EndsSection, AtEnd, IsReadingAll, sections_of, IsParsing};
ghost use Rattle.str_parser.specs.Refusals.{fault_of, map_err};

use crate::expected::{Candidate, after_sections};
use crate::form::definitions;
use crate::input::Input;
use crate::refusal::ParseRefusal;
use crate::sorts::signature_parts;
use std::alloc::Global;
use str_lexer::{Keyword, Token};
use str_syntax::{File, Section};
use term_model::Fault;

/// Reads the section that the tokens begin with; also returns the tokens after it. Where none begins, that is what was expected.
fn section<'a>(
    alloc: Global,
    input: Input<'a>,
    expected: &'static [Candidate],
) -> Result<(Section, Input<'a>), ParseRefusal>
    ensures { IsReading Phrases.section EndsSection section_of input.entry result }
{
    if let Some(following) = input.after_keyword(Keyword::Signature) {
        let (parts, rest) = signature_parts(alloc, following)?;
        return Ok((Section::Signature(parts), rest));
    }
    if let Some(following) = input.after_keyword(Keyword::Rules) {
        let (definitions, rest) = definitions(alloc, following)?;
        return Ok((Section::Rules(definitions), rest));
    }
    let Some(following) = input.after_keyword(Keyword::Strategies) else {
        return Err(input.syntax(expected));
    };
    let (definitions, rest) = definitions(alloc, following)?;
    Ok((Section::Strategies(definitions), rest))
}

/// The sections that the tokens are.
fn sections<'a>(alloc: Global, input: Input<'a>) -> Result<Vec<Section>, ParseRefusal>
    ensures { IsReadingAll Phrases.sections sections_of input.entry result }
{
    let mut sections = Vec::new(alloc);
    let mut rest = input;
    while !rest.is_empty() {
        let expected = after_sections(&sections);
        let (section, following) = section(alloc, rest, expected)?;
        sections.push(section)?;
        rest = following;
    }
    Ok(sections)
}

/// The greatest nesting level of a part of a definition file.
pub const MAX_LEVEL: u32 = 200;

/// Returns the file whose phrase these tokens of this text are; each of its definitions is marked as the file's.
///
/// `Syntax` where they are the phrase of no file: at the first token that makes the tokens up to it the beginning of none, or at the
/// length of the text where more tokens would have to follow. `Nesting` where a part begins one level beyond `MAX_LEVEL` before any fault of syntax:
/// at the first token of that part. `Memory` where a growth is refused.
pub fn parse(alloc: Global, text: &[u8], tokens: &[Token]) -> Result<File, Fault>
    requires { AreSlices text.now 0 tokens.now }
    ensures { IsParsing (lexemes text.now tokens.now) result }
{
    let file = parse_file(alloc, text, tokens)?;
    Ok(file)
}

/// Returns the file as `parse` does. The error is the fault of `parse`, and of `Syntax` also the reason.
pub fn parse_file(alloc: Global, text: &[u8], tokens: &[Token]) -> Result<File, ParseRefusal>
    requires { AreSlices text.now 0 tokens.now }
    ensures { IsParsing (lexemes text.now tokens.now) (map_err fault_of result) }
{
    let sections = sections(alloc, Input::new(text, tokens))?;
    Ok(File { sections })
}
