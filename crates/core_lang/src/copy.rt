//! Copies of patterns.
ghost use Rattle.std.specs.Prelude.{◌≡◌, IfOk, map};
ghost use Rattle.core_lang.specs.Views.{pattern_of, rest_of};

use crate::program::CorePattern;
use std::alloc::{AllocError, Global};

impl CorePattern {
    /// Returns a copy of the pattern, and `AllocError` where the memory for it is refused.
    #[cycle(copy)]
    pub fn copy(&self, alloc: Global) -> Result<CorePattern, AllocError>
        ensures { IfOk result (λ made. pattern_of made ≡ pattern_of self.now) }
    {
        match self {
            CorePattern::Anything => Ok(CorePattern::Anything),
            CorePattern::Variable(x) => Ok(CorePattern::Variable(*x)),
            CorePattern::Alias(x, part) => Ok(CorePattern::Alias(*x, boxed_copy(alloc, part)?)),
            CorePattern::Integer(value) => Ok(CorePattern::Integer(*value)),
            CorePattern::Applied(symbol, parts) => {
                let parts = patterns(alloc, parts)?;
                Ok(CorePattern::Applied(symbol.clone()?, parts))
            }
            CorePattern::List(elements, rest) => {
                let elements = patterns(alloc, elements)?;
                Ok(CorePattern::List(elements, optional(alloc, rest)?))
            }
            CorePattern::Like(part, x) => Ok(CorePattern::Like(boxed_copy(alloc, part)?, *x)),
            CorePattern::Annotated(part, annotations) => {
                let annotations = patterns(alloc, annotations)?;
                Ok(CorePattern::Annotated(boxed_copy(alloc, part)?, annotations))
            }
        }
    }
}

#[cycle(copy)]
fn boxed_copy(alloc: Global, source: &CorePattern) -> Result<Box<CorePattern>, AllocError>
    ensures { IfOk result (λ made. pattern_of made.value ≡ pattern_of source.now) }
{
    Ok(Box::new(alloc, source.copy(alloc)?)?)
}

#[cycle(copy)]
fn optional(
    alloc: Global,
    source: &Option<Box<CorePattern>>,
) -> Result<Option<Box<CorePattern>>, AllocError>
    ensures { IfOk result (λ made. rest_of made ≡ rest_of source.now) }
{
    match source {
        None => Ok(None),
        Some(p) => Ok(Some(boxed_copy(alloc, p)?)),
    }
}

#[cycle(copy)]
fn patterns(alloc: Global, source: &[CorePattern]) -> Result<Vec<CorePattern>, AllocError>
    ensures { IfOk result (λ made. map pattern_of made.items ≡ map pattern_of source.now) }
{
    let mut made = Vec::new(alloc);
    for p in source {
        made.push(p.copy(alloc)?)?;
    }
    Ok(made)
}
