//! What is wrong at a place of a file, in words for a person.
ghost use Rattle.std.specs.Prelude.{◌≡◌};
ghost use Rattle.scope_check.specs.Complaint.{fault_of};
ghost use Rattle.scope_check.specs.Found.{complaint_of};
ghost use Rattle.scope_check.specs.OfChecks.{IsOfChecks};

use std::fmt;
use term_model::Fault;

/// What is wrong at a place of a file, with the numbers that matter there.
#[derive(Clone, Copy)]
pub enum Detail {
    /// The constructor is declared again with the same sorts.
    DeclaredAgain,
    /// The constructor is not declared with this number of parts. The number of its first declaration, where there is one.
    Undeclared {
        parts: usize,
        declared: Option<usize>,
    },
    /// The name stands twice among parameters or in a scope.
    Repeated,
    /// An alternative has other parameters than the first of its key.
    OtherParameters,
    /// The key has over 1,000 alternatives.
    ManyAlternatives,
    /// A declared constructor and a strategy have the name.
    Clash,
    /// A definition of the file has the key of one of the library's.
    OfLibrary,
    /// No strategy of this name with these numbers of parameters is seen. The numbers with which one is seen, where there is one.
    UnknownStrategy {
        strategies: usize,
        terms: usize,
        seen: Option<(usize, usize)>,
    },
    /// A wildcard is built.
    BuiltWildcard,
    /// A pattern with `@` is built. The name is that in front of it.
    BuiltAlias,
    /// There is no primitive of this name with this number of terms.
    UnknownPrimitive {
        terms: usize,
    },
    /// No definition at top level has the name and no parameters.
    NoMain,
}

impl Detail {
    /// Returns the fault that this is, one of the eight that the checks report.
    pub fn fault(&self) -> Fault
        ensures fault { result ≡ fault_of (complaint_of self.now) }
        ensures eight { IsOfChecks result }
    {
        match self {
            Detail::DeclaredAgain => Fault::DuplicateDeclaration,
            Detail::Undeclared { .. } => Fault::Undeclared,
            Detail::Repeated | Detail::OtherParameters | Detail::ManyAlternatives => {
                Fault::Parameters
            }
            Detail::Clash | Detail::OfLibrary => Fault::Clash,
            Detail::UnknownStrategy { .. } => Fault::UnknownStrategy,
            Detail::BuiltWildcard | Detail::BuiltAlias => Fault::NotBuildable,
            Detail::UnknownPrimitive { .. } => Fault::UnknownPrimitive,
            Detail::NoMain => Fault::NoMain,
        }
    }

    /// What the name is a name of.
    pub(crate) fn subject(&self) -> &'static str {
        match self {
            Detail::DeclaredAgain | Detail::Undeclared { .. } => "constructor",
            Detail::Repeated => "duplicate name",
            Detail::Clash => "name",
            Detail::OtherParameters | Detail::ManyAlternatives | Detail::OfLibrary => "strategy",
            Detail::UnknownStrategy { .. } | Detail::NoMain => "strategy",
            Detail::BuiltWildcard | Detail::BuiltAlias => "pattern",
            Detail::UnknownPrimitive { .. } => "primitive",
        }
    }
}

/// What is said of the name.
impl fmt::Display for Detail {
    fn fmt<W: fmt::Write>(&self, f: &mut fmt::Formatter<W>) -> fmt::Result {
        match self {
            Detail::DeclaredAgain => write!(f, " is declared twice with the same sorts"),
            Detail::Undeclared { parts, declared } => {
                let s = plural(*parts);
                write!(f, " with {parts} part{s} is not declared")?;
                write_declared(f, *declared)
            }
            Detail::Repeated => Ok(()),
            Detail::OtherParameters => write!(f, " has alternatives with other parameters"),
            Detail::ManyAlternatives => write!(f, " has over 1000 alternatives"),
            Detail::Clash => write!(f, " is that of a declared constructor and of a strategy"),
            Detail::OfLibrary => write!(f, " is a definition of the library"),
            Detail::UnknownStrategy {
                strategies,
                terms,
                seen,
            } => {
                write!(f, " with {strategies} strategy and {terms} term parameters")?;
                write!(f, " is not defined")?;
                write_seen(f, *seen)
            }
            Detail::BuiltWildcard => write!(f, " cannot be built"),
            Detail::BuiltAlias => write!(f, "@ cannot be built"),
            Detail::UnknownPrimitive { terms } => {
                let s = plural(*terms);
                write!(f, " with {terms} term{s} is unknown")
            }
            Detail::NoMain => write!(f, " without parameters is not defined"),
        }
    }
}

/// Writes with which number the constructor is declared, if it is.
fn write_declared<W: fmt::Write>(
    f: &mut fmt::Formatter<W>,
    declared: Option<usize>,
) -> fmt::Result {
    match declared {
        Some(number) => write!(f, " (it is declared with {number})"),
        None => Ok(()),
    }
}

/// Writes with which numbers the strategy is defined, if it is.
fn write_seen<W: fmt::Write>(
    f: &mut fmt::Formatter<W>,
    seen: Option<(usize, usize)>,
) -> fmt::Result {
    match seen {
        Some((strategies, terms)) => write!(f, " (it is defined with {strategies} and {terms})"),
        None => Ok(()),
    }
}

/// The ending of a word that is counted.
fn plural(number: usize) -> &'static str {
    if number == 1 { "" } else { "s" }
}
