//! The refusals: why a call gave no result.
ghost use Rattle.std.specs.Prelude.{◌≡◌, codes};
ghost use Rattle.term_model.specs.Fault.{number_of, word_of};

use std::alloc::{AllocError, AllocFailed};
use thiserror::Error;

/// A refusal. An offset `at` is the place of the fault in its text, in bytes from its beginning.
#[derive(Clone, Debug, Drop, PartialEq, Eq, Error)]
pub enum Fault {
    /// A growth of memory was refused.
    #[error("out of memory")]
    Memory,
    /// A reader failed.
    #[error("the input cannot be read")]
    Read,
    /// A writer failed, or took no byte of a text that was not empty.
    #[error("the output cannot be written")]
    Write,
    /// The definitions have over 1,048,576 bytes.
    #[error("the definitions are longer than 1048576 bytes")]
    DefsTooLong,
    /// The definitions cannot be cut into tokens.
    #[error("the definitions have no token at byte {at}")]
    Lexical { at: u64 },
    /// A token of the definitions is a word of a part of the language that is left out.
    #[error("a word of a part of the language that is left out, at byte {at} of the definitions")]
    ReservedWord { at: u64 },
    /// The tokens of the definitions are no phrase of the grammar.
    #[error("the definitions are no phrase of the grammar at byte {at}")]
    Syntax { at: u64 },
    /// A part of the definitions begins at a nesting level above 200, before any fault of syntax.
    #[error("the definitions are nested too deeply at byte {at}")]
    Nesting { at: u64 },
    /// A constructor is declared twice with the same sorts, or a primitive's name is registered already.
    #[error("a constructor is declared twice, or a primitive registered twice")]
    DuplicateDeclaration,
    /// A pattern has a constructor that is not declared with this number of sorts.
    #[error("a constructor is not declared with this number of arguments")]
    Undeclared,
    /// Names of parameters or of a scope are repeated, alternatives of one key name their parameters otherwise, or a key has over 1,000 alternatives.
    #[error("parameters repeat a name or differ between alternatives, or there are too many alternatives")]
    Parameters,
    /// A constructor has the name of a strategy, or a definition the key of one of the library.
    #[error("one name has two uses: as a constructor and a strategy, or in the definitions and the library")]
    Clash,
    /// A strategy is called that is not defined where it is called.
    #[error("a strategy is called that is not defined with these numbers of parameters")]
    UnknownStrategy,
    /// A pattern that is built has `_` or `@`.
    #[error("a term to be built has a wildcard or an at-pattern")]
    NotBuildable,
    /// No primitive has this name with this number of arguments.
    #[error("there is no primitive of this name and number of arguments")]
    UnknownPrimitive,
    /// No definition has the asked name without parameters.
    #[error("the definitions have no strategy of the asked name without parameters")]
    NoMain,
    /// The text of the term has over 16,777,216 bytes.
    #[error("the term is longer than 16777216 bytes")]
    TermTooLong,
    /// The bytes spell no term, and the fault is not `TermOversize`.
    #[error("the bytes spell no term: the fault is at byte {at}")]
    TermSyntax { at: u64 },
    /// The bytes spell a term that does not fit, or a term at depth 1,001 begins before any other fault.
    #[error("the term is too heavy or too deep at byte {at}")]
    TermOversize { at: u64 },
    /// The term has an application that is not declared, where only declared ones are accepted.
    #[error("the term has an application that is not declared")]
    TermUndeclared,
}

impl Fault {
    /// The number of the refusal, from 1 to 20.
    pub fn number(&self) -> u8
        ensures { result ≡ number_of self.now }
    {
        match self {
            Fault::Memory => 1,
            Fault::Read => 2,
            Fault::Write => 3,
            Fault::DefsTooLong => 4,
            Fault::Lexical { .. } => 5,
            Fault::ReservedWord { .. } => 6,
            Fault::Syntax { .. } => 7,
            Fault::Nesting { .. } => 8,
            Fault::DuplicateDeclaration => 9,
            Fault::Undeclared => 10,
            Fault::Parameters => 11,
            Fault::Clash => 12,
            Fault::UnknownStrategy => 13,
            Fault::NotBuildable => 14,
            Fault::UnknownPrimitive => 15,
            Fault::NoMain => 16,
            Fault::TermTooLong => 17,
            Fault::TermSyntax { .. } => 18,
            Fault::TermOversize { .. } => 19,
            Fault::TermUndeclared => 20,
        }
    }

    /// The word of the refusal, as it is printed after `#refused `.
    pub fn word(&self) -> &'static str
        ensures { result.now ≡ word_of self.now }
    {
        match self {
            Fault::Memory => "Memory",
            Fault::Read => "Read",
            Fault::Write => "Write",
            Fault::DefsTooLong => "DefsTooLong",
            Fault::Lexical { .. } => "Lexical",
            Fault::ReservedWord { .. } => "ReservedWord",
            Fault::Syntax { .. } => "Syntax",
            Fault::Nesting { .. } => "Nesting",
            Fault::DuplicateDeclaration => "DuplicateDeclaration",
            Fault::Undeclared => "Undeclared",
            Fault::Parameters => "Parameters",
            Fault::Clash => "Clash",
            Fault::UnknownStrategy => "UnknownStrategy",
            Fault::NotBuildable => "NotBuildable",
            Fault::UnknownPrimitive => "UnknownPrimitive",
            Fault::NoMain => "NoMain",
            Fault::TermTooLong => "TermTooLong",
            Fault::TermSyntax { .. } => "TermSyntax",
            Fault::TermOversize { .. } => "TermOversize",
            Fault::TermUndeclared => "TermUndeclared",
        }
    }
}

/// A refused growth is the fault `Memory`.
impl From<AllocError> for Fault {
    ghost use Rattle.std.specs.Prelude.{◌≡◌};
    ghost use Rattle.term_model.specs.declared.fault.Fault.TheVariants.{Memory};

    ghost from_gives = { λ _ fault. fault ≡ Memory };

    fn from(_: AllocError) -> Fault {
        Self::Memory
    }
}

/// So is a refused growth that gives a value back, which is dropped.
impl<T: Drop> From<AllocFailed<T>> for Fault {
    ghost use Rattle.std.specs.Prelude.{◌≡◌};
    ghost use Rattle.term_model.specs.declared.fault.Fault.TheVariants.{Memory};

    ghost from_gives = { λ _ fault. fault ≡ Memory };

    fn from(_: AllocFailed<T>) -> Fault {
        Fault::from(AllocError)
    }
}
