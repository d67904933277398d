//! The trees of signatures.
ghost use Rattle.std.specs.Prelude.{◌≡◌, IfOk, map};
ghost use Rattle.str_syntax.specs.Views.{declaration_of, signature_of, sort_tree_of};

use crate::text::Name;
use std::alloc::{AllocError, Global};

/// A sort: a name, or a name applied to sorts.
#[derive(Drop)]
pub enum Sort {
    /// `A`
    Named(Name),
    /// `A(B, ..)`, with one sort or more in the parentheses.
    Applied(Name, Vec<Sort>),
}

/// A declaration of a signature.
#[derive(Drop)]
pub enum Declaration {
    /// `C : A`, a constructor without parts.
    Constant(Name, Sort),
    /// `C : A * B -> D`, with one sort or more before the arrow.
    Constructor(Name, Vec<Sort>, Sort),
    /// `: A * B -> D`, which declares no constructor; with one sort or more before the arrow.
    Injection(Vec<Sort>, Sort),
}

/// A part of a signature.
#[derive(Drop)]
pub enum SignaturePart {
    /// `sorts A B ..`
    Sorts(Vec<Sort>),
    /// `constructors C : A D : B ..`
    Constructors(Vec<Declaration>),
}

impl Sort {
    /// Copies the sort. `AllocError` where the memory for it is refused.
    #[cycle(copy)]
    pub fn copy(&self, alloc: Global) -> Result<Sort, AllocError>
        ensures { IfOk result (λ made. sort_tree_of made ≡ sort_tree_of self.now) }
    {
        match self {
            Sort::Named(a) => Ok(Sort::Named(a.copy(alloc)?)),
            Sort::Applied(a, parts) => Ok(Sort::Applied(a.copy(alloc)?, sorts(alloc, parts)?)),
        }
    }
}

#[cycle(copy)]
fn sorts(alloc: Global, source: &[Sort]) -> Result<Vec<Sort>, AllocError>
    ensures { IfOk result (λ made. map sort_tree_of made.items ≡ map sort_tree_of source.now) }
{
    let mut made = Vec::with_capacity(alloc, source.len())?;
    for sort in source {
        made.push(sort.copy(alloc)?)?;
    }
    Ok(made)
}

impl Declaration {
    /// Copies the declaration. `AllocError` where the memory for it is refused.
    pub fn copy(&self, alloc: Global) -> Result<Declaration, AllocError>
        ensures { IfOk result (λ made. declaration_of made ≡ declaration_of self.now) }
    {
        match self {
            Declaration::Constant(c, a) => {
                Ok(Declaration::Constant(c.copy(alloc)?, a.copy(alloc)?))
            }
            Declaration::Constructor(c, parts, a) => {
                let name = c.copy(alloc)?;
                Ok(Declaration::Constructor(name, sorts(alloc, parts)?, a.copy(alloc)?))
            }
            Declaration::Injection(parts, a) => {
                Ok(Declaration::Injection(sorts(alloc, parts)?, a.copy(alloc)?))
            }
        }
    }
}

impl SignaturePart {
    /// Copies the part. `AllocError` where the memory for it is refused.
    pub fn copy(&self, alloc: Global) -> Result<SignaturePart, AllocError>
        ensures { IfOk result (λ made. signature_of made ≡ signature_of self.now) }
    {
        match self {
            SignaturePart::Sorts(all) => Ok(SignaturePart::Sorts(sorts(alloc, all)?)),
            SignaturePart::Constructors(all) => {
                Ok(SignaturePart::Constructors(declarations(alloc, all)?))
            }
        }
    }
}

fn declarations(alloc: Global, source: &[Declaration]) -> Result<Vec<Declaration>, AllocError>
    ensures { IfOk result (λ made. map declaration_of made.items ≡ map declaration_of source.now) }
{
    let mut made = Vec::with_capacity(alloc, source.len())?;
    for declaration in source {
        made.push(declaration.copy(alloc)?)?;
    }
    Ok(made)
}
