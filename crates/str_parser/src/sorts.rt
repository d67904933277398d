//! Sorts, declarations and the parts of signatures from tokens.
ghost use Rattle.std.specs.Prelude.{◌≡◌, ◌+◌, ◌≤◌, ◌∷◌};
ghost use Rattle.str_syntax.specs.Views.{sort_tree_of, sorts_of, declaration_of, signature_of};
ghost use Rattle.str_parser.specs.Items.{max_level};
ghost use Rattle.str_parser.specs.Lexemes.{mark, begins_sort};
ghost use Rattle.str_parser.specs.Phrases.{sort_run as written_run, declaration as written_declaration, declarations as written_declarations, signature_part as written_part, signature_parts as written_parts};
ghost use Rattle.str_parser.specs.Readings.{IsReading};
ghost use Rattle.str_parser.specs.Runs.{IsReadingAny, NoneOf};
ghost use Rattle.str_parser.specs.Sorts.{inner_sort, some_sorts, some_factors, typed, type_of, sorts_from, declarations_from, signatures_from, IsSole, first_is, IsFirstName, begins_declaration, begins_signature_part, sort_goes_on, sort_list_goes_on, sort_run_goes_on, factors_go_on, declaration_goes_on, signature_part_goes_on, signature_goes_on};

use crate::expected::Candidate;
use crate::file::MAX_LEVEL;
use crate::input::{Input, Lexeme};
use crate::pattern::is_constructor;
use crate::refusal::ParseRefusal;
use std::alloc::Global;
use str_lexer::{Keyword, Mark};
use str_syntax::{Declaration, Name, SignaturePart, Sort};

/// What stands after the colon of a declaration.
#[derive(Drop)]
enum SortType {
    /// `A`
    Plain(Sort),
    /// `A * B -> D`
    Mapping(Vec<Sort>, Sort),
}

/// Reads the name that the tokens begin with, where they do; also returns the tokens after it.
fn first_name<'a>(input: &Input<'a>) -> Option<(&'a [u8], Input<'a>)>
    ensures { IsFirstName input.now result }
{
    let (first, rest) = input.first()?;
    match first {
        Lexeme::Name(bytes) => Some((bytes, rest)),
        _ => None,
    }
}

/// Tells whether a declaration can begin with the first of the tokens.
fn at_declaration(input: &Input) -> bool
    ensures { result ≡ first_is begins_declaration input.now }
{
    let Some((first, _)) = input.first() else {
        return false;
    };
    match first {
        Lexeme::Name(_) => true,
        Lexeme::Mark(Mark::Colon) => true,
        _ => false,
    }
}

/// Tells whether a part of a signature can begin with the first of the tokens.
fn at_signature_part(input: &Input) -> bool
    ensures { result ≡ first_is begins_signature_part input.now }
{
    let Some((first, _)) = input.first() else {
        return false;
    };
    match first {
        Lexeme::Keyword(Keyword::Sorts) => true,
        Lexeme::Keyword(Keyword::Constructors) => true,
        _ => false,
    }
}

/// Tells whether a sort can begin with the first of the tokens.
fn at_sort(input: &Input) -> bool
    ensures { result ≡ first_is begins_sort input.now }
{
    let Some((first, _)) = input.first() else {
        return false;
    };
    match first {
        Lexeme::Name(_) => true,
        _ => false,
    }
}

/// Reads the sort at this level that the tokens begin with; also returns the tokens after it.
#[cycle(sort)]
fn sort<'a>(alloc: Global, input: Input<'a>, level: u32) -> Result<(Sort, Input<'a>), ParseRefusal>
    requires { level ≤ max_level + 1 }
    ensures { IsReading (inner_sort level) (NoneOf sort_goes_on) sort_tree_of input.entry result }
{
    let Some((bytes, following)) = first_name(&input) else {
        return Err(input.syntax(&[Candidate::Sort]));
    };
    if level > MAX_LEVEL {
        return Err(ParseRefusal::Nesting { at: input.at() });
    }
    let name = Name::new(alloc, bytes, input.at())?;
    let Some(inner) = following.after(Mark::OpenParenthesis) else {
        return Ok((Sort::Named(name), following));
    };
    let (parts, rest) = sort_list(alloc, inner, level + 1)?;
    let Some(rest) = rest.after(Mark::CloseParenthesis) else {
        return Err(rest.syntax(&[Candidate::Comma, Candidate::CloseParenthesis]));
    };
    Ok((Sort::Applied(name, parts), rest))
}

/// Reads the sorts at this level with commas between that the tokens begin with, one at least; also returns the tokens after them.
#[cycle(sort)]
fn sort_list<'a>(
    alloc: Global,
    input: Input<'a>,
    level: u32,
) -> Result<(Vec<Sort>, Input<'a>), ParseRefusal>
    requires { level ≤ max_level + 1 }
    ensures { IsReading (some_sorts level) (NoneOf sort_list_goes_on)
        sorts_from input.entry result }
{
    let (first, mut rest) = sort(alloc, input, level)?;
    let mut parts = Vec::new(alloc);
    parts.push(first)?;
    while let Some(following) = rest.after(Mark::Comma) {
        let (other, following) = sort(alloc, following, level)?;
        parts.push(other)?;
        rest = following;
    }
    Ok((parts, rest))
}

/// Reads the sorts that the tokens begin with, one after the other; also returns the tokens after them.
fn sort_run<'a>(alloc: Global, input: Input<'a>) -> Result<(Vec<Sort>, Input<'a>), ParseRefusal>
    ensures { IsReadingAny written_run (NoneOf sort_run_goes_on) sorts_from input.entry result }
{
    let mut found = Vec::new(alloc);
    let mut rest = input;
    'sorts: while at_sort(&rest) {
        let (other, following) = sort(alloc, rest, 1)?;
        found.push(other)?;
        rest = following;
    }
    Ok((found, rest))
}

/// Reads the sorts with * between that the tokens begin with, one at least; also returns the tokens after them.
fn factors<'a>(alloc: Global, input: Input<'a>) -> Result<(Vec<Sort>, Input<'a>), ParseRefusal>
    ensures { IsReading some_factors (NoneOf factors_go_on) sorts_from input.entry result }
{
    let (first, mut rest) = sort(alloc, input, 1)?;
    let mut parts = Vec::new(alloc);
    parts.push(first)?;
    while let Some(following) = rest.after(Mark::Star) {
        let (other, following) = sort(alloc, following, 1)?;
        parts.push(other)?;
        rest = following;
    }
    Ok((parts, rest))
}

/// The one sort, where there is one only.
fn sole(parts: Vec<Sort>) -> Option<Sort>
    ensures { IsSole (sorts_of parts.items) result }
{
    let mut parts = parts;
    if parts.len() != 1 {
        return None;
    }
    parts.pop()
}

/// What the tokens after the colon of a declaration begin with, and the tokens after that.
fn sort_type<'a>(alloc: Global, input: Input<'a>) -> Result<(SortType, Input<'a>), ParseRefusal>
    ensures { IsReading typed (NoneOf declaration_goes_on) type_of input.entry result }
{
    let (parts, rest) = factors(alloc, input)?;
    if let Some(following) = rest.after(Mark::Arrow) {
        let (made, rest) = sort(alloc, following, 1)?;
        return Ok((SortType::Mapping(parts, made), rest));
    }
    let Some(made) = sole(parts) else {
        return Err(rest.syntax(&[Candidate::Star, Candidate::Arrow]));
    };
    Ok((SortType::Plain(made), rest))
}

/// Reads the injection whose colon stands before the tokens; also returns the tokens after it.
fn injection<'a>(alloc: Global, input: Input<'a>) -> Result<(Declaration, Input<'a>), ParseRefusal>
    ensures { IsReading written_declaration (NoneOf declaration_goes_on)
        declaration_of (mark Mark.Colon ∷ input.entry) result }
{
    let (found, rest) = sort_type(alloc, input)?;
    match found {
        SortType::Plain(_) => Err(rest.syntax(&[Candidate::Star, Candidate::Arrow])),
        SortType::Mapping(parts, made) => Ok((Declaration::Injection(parts, made), rest)),
    }
}

/// Reads the declaration that the tokens begin with; also returns the tokens after it.
fn declaration<'a>(
    alloc: Global,
    input: Input<'a>,
) -> Result<(Declaration, Input<'a>), ParseRefusal>
    ensures { IsReading written_declaration (NoneOf declaration_goes_on)
        declaration_of input.entry result }
{
    if let Some(following) = input.after(Mark::Colon) {
        return injection(alloc, following);
    }
    let Some((bytes, following)) = first_name(&input) else {
        return Err(input.syntax(&[Candidate::Constructor]));
    };
    if !is_constructor(bytes) {
        return Err(input.syntax(&[Candidate::Constructor]));
    }
    let Some(following) = following.after(Mark::Colon) else {
        return Err(following.syntax(&[Candidate::Colon]));
    };
    let name = Name::new(alloc, bytes, input.at())?;
    let (found, rest) = sort_type(alloc, following)?;
    match found {
        SortType::Plain(made) => Ok((Declaration::Constant(name, made), rest)),
        SortType::Mapping(parts, made) => Ok((Declaration::Constructor(name, parts, made), rest)),
    }
}

/// Reads the declarations that the tokens begin with; also returns the tokens after them.
fn declarations<'a>(
    alloc: Global,
    input: Input<'a>,
) -> Result<(Vec<Declaration>, Input<'a>), ParseRefusal>
    ensures { IsReadingAny written_declarations (NoneOf signature_part_goes_on)
        declarations_from input.entry result }
{
    let mut found = Vec::new(alloc);
    let mut rest = input;
    'declarations: while at_declaration(&rest) {
        let (other, following) = declaration(alloc, rest)?;
        found.push(other)?;
        rest = following;
    }
    Ok((found, rest))
}

/// Reads the part of a signature that the tokens begin with; also returns the tokens after it.
fn signature_part<'a>(
    alloc: Global,
    input: Input<'a>,
) -> Result<(SignaturePart, Input<'a>), ParseRefusal>
    ensures { IsReading written_part (NoneOf signature_part_goes_on)
        signature_of input.entry result }
{
    if let Some(following) = input.after_keyword(Keyword::Sorts) {
        let (found, rest) = sort_run(alloc, following)?;
        return Ok((SignaturePart::Sorts(found), rest));
    }
    let Some(following) = input.after_keyword(Keyword::Constructors) else {
        return Err(input.syntax(&[
            Candidate::SortsKeyword,
            Candidate::ConstructorsKeyword,
            Candidate::Section,
        ]));
    };
    let (found, rest) = declarations(alloc, following)?;
    Ok((SignaturePart::Constructors(found), rest))
}

/// Reads the parts of a signature that the tokens begin with; also returns the tokens after them.
pub(crate) fn signature_parts<'a>(
    alloc: Global,
    input: Input<'a>,
) -> Result<(Vec<SignaturePart>, Input<'a>), ParseRefusal>
    ensures { IsReadingAny written_parts (NoneOf signature_goes_on)
        signatures_from input.entry result }
{
    let mut found = Vec::new(alloc);
    let mut rest = input;
    'parts: while at_signature_part(&rest) {
        let (other, following) = signature_part(alloc, rest)?;
        found.push(other)?;
        rest = following;
    }
    Ok((found, rest))
}
