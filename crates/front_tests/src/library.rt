//! The library beside its text.
use crate::checks::is_refused_so;
use crate::front::read;
use std::alloc::Global;
use std::test::Fail;
use str_syntax::{
    Arguments, Definition, DefinitionForm, DefinitionHead, File, Origin, Parameters, Primary,
    Section, Sequence, Step, Strategy,
};
use strategy_lib::with_library;

const LIBRARY: &str = "strategies
  try(s) = s <+ id
  repeat(s) = try(s; repeat(s))
  topdown(s) = s; all(topdown(s))
  bottomup(s) = all(bottomup(s)); s
  oncetd(s) = s <+ one(oncetd(s))
  oncebu(s) = one(oncebu(s)) <+ s
  alltd(s) = s <+ all(alltd(s))
  innermost(s) = bottomup(try(s; innermost(s)))
  map(s) = [] <+ [s | map(s)]
";

/// Whether two strategies are the same. Forms that the library does not have are never the same here.
#[cycle(compare)]
fn same_strategy(left: &Strategy, right: &Strategy) -> bool {
    match (left, right) {
        (Strategy::Sequence(a), Strategy::Sequence(b)) => same_sequence(a, b),
        (Strategy::LeftChoice(a, s), Strategy::LeftChoice(b, t)) => {
            same_sequence(a, b) && same_strategy(s, t)
        }
        _ => false,
    }
}

#[cycle(compare)]
fn same_sequence(left: &Sequence, right: &Sequence) -> bool {
    match (left, right) {
        (Sequence::Last(s), Sequence::Last(t)) => same_step(s, t),
        (Sequence::Then(s, a), Sequence::Then(t, b)) => same_step(s, t) && same_sequence(a, b),
        _ => false,
    }
}

#[cycle(compare)]
fn same_step(left: &Step, right: &Step) -> bool {
    match (left, right) {
        (Step::Plain(_, s), Step::Plain(_, t)) => same_primary(s, t),
        _ => false,
    }
}

#[cycle(compare)]
fn same_primary(left: &Primary, right: &Primary) -> bool {
    match (left, right) {
        (Primary::Id, Primary::Id) => true,
        (Primary::Operator(a, s), Primary::Operator(b, t)) => a == b && same_strategy(s, t),
        (Primary::Call(f, a), Primary::Call(g, b)) => f == g && same_arguments(a, b),
        (Primary::ListCongruence(a, None), Primary::ListCongruence(b, None)) => {
            same_strategies(a, b)
        }
        (Primary::ListCongruence(a, Some(s)), Primary::ListCongruence(b, Some(t))) => {
            same_strategies(a, b) && same_strategy(s, t)
        }
        _ => false,
    }
}

#[cycle(compare)]
fn same_arguments(left: &Arguments, right: &Arguments) -> bool {
    match (left, right) {
        (Arguments::Absent, Arguments::Absent) => true,
        (Arguments::Strategies(a), Arguments::Strategies(b)) => same_strategies(a, b),
        _ => false,
    }
}

/// No strategy or one: the library has no more in a row.
#[cycle(compare)]
fn same_strategies(left: &[Strategy], right: &[Strategy]) -> bool {
    match (left, right) {
        ([], []) => true,
        ([s], [t]) => same_strategy(s, t),
        _ => false,
    }
}

fn same_head(left: &DefinitionHead, right: &DefinitionHead) -> bool {
    match (&left.parameters, &right.parameters) {
        (Parameters::Strategies(a), Parameters::Strategies(b)) => {
            left.name == right.name && a == b
        }
        _ => false,
    }
}

/// Whether a definition of the library is one of a file, but for where they come from.
fn is_read_as(made: &Definition, read: &Definition) -> bool {
    let (DefinitionForm::Strategy(left), DefinitionForm::Strategy(right)) = (&made.form, &read.form)
    else {
        return false;
    };
    made.origin == Origin::Library
        && read.origin == Origin::File
        && same_head(&left.head, &right.head)
        && same_strategy(&left.body, &right.body)
}

/// The definitions of a file that has one section, of strategies.
fn definitions(file: &File) -> Option<&[Definition]> {
    match file.sections.as_slice() {
        [Section::Strategies(definitions)] => Some(definitions.as_slice()),
        _ => None,
    }
}

/// Whether the definitions are the same one by one, and 9 in number.
fn are_read_as(made: &File, read: &File) -> bool {
    let (Some(left), Some(right)) = (definitions(made), definitions(read)) else {
        return false;
    };
    left.len() == 9
        && right.len() == 9
        && left
            .iter()
            .zip(right)
            .all(|(one, other)| is_read_as(one, other))
}

/// The library alone.
fn library(alloc: Global) -> Result<File, Fail> {
    let sections = Vec::new(alloc);
    Ok(with_library(alloc, File { sections })?)
}

#[test]
fn the_library_is_its_text(rt: HostRuntime) -> Result<(), Fail> {
    let read = read(rt.alloc(), LIBRARY)?;
    let made = library(rt.alloc())?;
    if !are_read_as(&made, &read) {
        return Err("other definitions".into());
    }
    Ok(())
}

#[test]
fn the_library_has_no_main(rt: HostRuntime) -> Result<(), Fail> {
    let expected = "NoMain: strategy main without parameters is not defined";
    if !is_refused_so(rt.alloc(), library(rt.alloc())?, expected)? {
        return Err("another refusal".into());
    }
    Ok(())
}

/// Whether the sections are strategies of one definition, a signature, rules, and the strategies of the library.
fn ends_with_library(file: &File) -> bool {
    let [
        Section::Strategies(own),
        Section::Signature(_),
        Section::Rules(_),
        Section::Strategies(library),
    ] = file.sections.as_slice()
    else {
        return false;
    };
    own.len() == 1 && own[0].origin == Origin::File && library.len() == 9
}

#[test]
fn the_library_comes_after_the_file(rt: HostRuntime) -> Result<(), Fail> {
    let file = read(rt.alloc(), "strategies try = id signature rules")?;
    let made = with_library(rt.alloc(), file)?;
    if !ends_with_library(&made) {
        return Err("other sections".into());
    }
    Ok(())
}
