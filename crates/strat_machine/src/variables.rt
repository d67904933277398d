//! The variables in the patterns of instructions.
use core_lang::{Coordinate, CorePattern};
use std::alloc::{AllocError, Global};
use strat_code::Instr;

/// The variables in the patterns of an instruction, in the order in which they are written, each as often as it is written.
pub(crate) fn variables_of(alloc: Global, instr: &Instr) -> Result<Vec<Coordinate>, AllocError> {
    let mut variables = Vec::new(alloc);
    match instr {
        Instr::Match { pattern, .. } => add_variables(pattern, &mut variables)?,
        Instr::Build { pattern, .. } => add_variables(pattern, &mut variables)?,
        Instr::CallDefinition { terms, .. } => add_all(terms, &mut variables)?,
        Instr::ApplyPrimitive { terms, .. } => add_all(terms, &mut variables)?,
        _ => {}
    }
    Ok(variables)
}

/// Adds the variables in a pattern. The variable of `Like` is not written.
#[cycle(variables)]
fn add_variables(pattern: &CorePattern, variables: &mut Vec<Coordinate>) -> Result<(), AllocError> {
    match pattern {
        CorePattern::Anything => Ok(()),
        CorePattern::Integer(_) => Ok(()),
        CorePattern::Variable(x) => {
            variables.push(*x)?;
            Ok(())
        }
        CorePattern::Alias(x, part) => {
            variables.push(*x)?;
            add_variables(part, variables)
        }
        CorePattern::Applied(_, parts) => add_all(parts, variables),
        CorePattern::List(elements, rest) => {
            add_all(elements, variables)?;
            add_rest(rest, variables)
        }
        CorePattern::Like(part, _) => add_variables(part, variables),
        CorePattern::Annotated(part, annotations) => {
            add_variables(part, variables)?;
            add_all(annotations, variables)
        }
    }
}

/// Adds the variables in the rest of a list, if it has one.
#[cycle(variables)]
fn add_rest(
    rest: &Option<Box<CorePattern>>,
    variables: &mut Vec<Coordinate>,
) -> Result<(), AllocError> {
    match rest {
        None => Ok(()),
        Some(part) => add_variables(part, variables),
    }
}

/// Adds the variables in several patterns.
#[cycle(variables)]
fn add_all(patterns: &[CorePattern], variables: &mut Vec<Coordinate>) -> Result<(), AllocError> {
    for part in patterns {
        add_variables(part, variables)?;
    }
    Ok(())
}
