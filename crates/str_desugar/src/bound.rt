//! Names that are bound around a part of a file.
ghost use Rattle.std.specs.Prelude.{◌≡◌, OnOk};
ghost use Rattle.str_desugar.specs.Gathered.{bound_names, has_name, noted};

use crate::marks::Wanted;
use crate::names::Names;
use std::alloc::{AllocError, Global};
use str_syntax::Name;

/// Names that are bound around a part of a file, innermost first.
#[derive(Clone, Copy)]
pub(crate) enum Bound<'a> {
    /// No names.
    Nothing,
    /// The term parameters of the definition, and no others.
    Terms(&'a Names),
    /// The names that a scope, a definition or a rule in backslashes binds, and those that are bound further out.
    Scope {
        names: &'a Names,
        outer: &'a Bound<'a>,
    },
}

impl<'a> Bound<'a> {
    /// Whether the name is bound.
    pub(crate) fn has(&self, wanted: &Wanted) -> bool
        ensures { result ≡ has_name (bound_names self.now) wanted.now }
    {
        match self {
            Bound::Nothing => false,
            Bound::Terms(names) => names.contains(&*wanted),
            Bound::Scope { names, outer } => {
                if names.contains(&*wanted) {
                    return true;
                }
                outer.has(&*wanted)
            }
        }
    }
}

/// Puts a copy of the name after those that were found, where it is new and not bound. `AllocError` where the memory for it is refused.
pub(crate) fn note(
    alloc: Global,
    name: &Name,
    bound: &Bound,
    found: &mut Names,
) -> Result<(), AllocError>
    ensures { OnOk result (found.new ≡ noted (bound_names bound.now) found.old name.now) }
{
    let wanted = Wanted::new(found.hashing(), name);
    if bound.has(&wanted) {
        return Ok(());
    }
    found.insert_new(alloc, &wanted)
}
