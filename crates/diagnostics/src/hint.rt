//! What was probably meant where a text is refused, in words.

use crate::advice::Advice;
use crate::context::Context;
use crate::explanation::{NamedLine, Position};
use crate::fault_places::OtherPlace;
use crate::operations::Operation;
use crate::shown::Shown;
use std::fmt;

/// What was probably meant where a text is refused.
#[derive(Clone, Copy)]
pub enum Hint {
    /// What to write, or what the text seems to be.
    Advice(Advice),
    /// The name of a definition was taken as the operand of a `<..>` that ends on this line.
    TakenAsOperand {
        name: Shown,
        line: usize,
    },
    /// The operator on this line made the name of a definition a part of the definition before it.
    JoinedByOperator {
        name: Shown,
        operator: Shown,
        line: usize,
    },
    /// The bracket at this place is never closed.
    NeverClosed {
        bracket: Shown,
        place: Position,
    },
    /// A keyword stands where a name is expected.
    KeywordAsName(Shown),
    /// A primitive does what the operator there does in other languages.
    Operation {
        operation: Operation,
        context: Context,
    },
    /// The primitive with this name, in quotes, is called in a build.
    PrimitiveInBuild {
        name: Shown,
        context: Context,
    },
    /// A term stands among the strategies of a call of this name. The definition has terms and, maybe, strategies.
    TermsAfterBar {
        name: Shown,
        has_strategies: bool,
    },
    /// Another place that the fault is about.
    Elsewhere(OtherPlace),
    /// What is known of the name.
    OnName(NameHint),
}

/// What is known of a name that the checks do not find.
#[derive(Clone, Copy)]
pub enum NameHint {
    /// A name like it is known.
    Similar(Shown),
    /// A constructor has the name, with this number of parts.
    OfConstructor {
        name: Shown,
        parts: usize,
    },
    /// What seems to be a definition is declared as a constructor of this name.
    AmongConstructors(Shown),
    /// The prelude, which is not read, defines the name.
    InPrelude(Shown),
    /// A primitive has the name, with another number of terms.
    OfPrimitive {
        name: Shown,
        terms: usize,
    },
    /// A definition has the name, with these numbers of parameters.
    OfDefinition {
        name: Shown,
        strategies: usize,
        terms: usize,
    },
    /// A variable has the name, which stands in `<..>` or as another strategy.
    OfVariable {
        name: Shown,
        is_applied: bool,
    },
    /// Definitions with these names have no parameters, where one without parameters is needed.
    WithoutParameters(Shown),
}

/// The ending of a noun after this number: "s", or nothing after 1.
pub(crate) fn plural(number: usize) -> &'static str {
    if number == 1 { "" } else { "s" }
}

impl Hint {
    /// The line of the text that the hint names, from 1, if it names one.
    pub fn line(&self) -> Option<usize> {
        match self {
            Hint::TakenAsOperand { line, .. } | Hint::JoinedByOperator { line, .. } => Some(*line),
            Hint::NeverClosed { place, .. } => Some(place.line),
            Hint::Elsewhere(place) => Some(place.line),
            _ => None,
        }
    }

    /// The name of the primitive with two arguments that the hint needs, if it needs one that is not named at the place itself.
    pub fn primitive(&self) -> Option<&'static str> {
        match self {
            Hint::Advice(advice) => advice.primitive(),
            Hint::Operation { operation, .. } => Some(operation.primitive()),
            _ => None,
        }
    }

    /// The hint with this line in place of the one that it names. A hint that names none stays as it is.
    pub fn on_line(self, line: NamedLine<'_>) -> HintOnLine<'_> {
        HintOnLine { hint: self, line }
    }
}

/// A hint, and what is written in place of the line that it names.
#[derive(Clone, Copy)]
pub struct HintOnLine<'a> {
    hint: Hint,
    line: NamedLine<'a>,
}

/// A part of a sentence, without a full stop.
impl fmt::Display for Hint {
    fn fmt<W: fmt::Write>(&self, f: &mut fmt::Formatter<W>) -> fmt::Result {
        let own = NamedLine {
            line: self.line().unwrap_or(0),
            text_name: None,
        };
        let hint = self.on_line(own);
        write!(f, "{hint}")
    }
}

/// A part of a sentence, without a full stop.
impl fmt::Display for HintOnLine<'_> {
    fn fmt<W: fmt::Write>(&self, f: &mut fmt::Formatter<W>) -> fmt::Result {
        let line = self.line;
        match &self.hint {
            Hint::Advice(advice) => f.write_str(advice.words()),
            Hint::TakenAsOperand { name, .. } => write!(
                f,
                "'{name}' was taken as the operand of '<..>' on {line}; write (<..>)"
            ),
            Hint::JoinedByOperator { name, operator, .. } => write!(
                f,
                "the '{operator}' on {line} made '{name}' part of the definition before it"
            ),
            Hint::NeverClosed { bracket, place } => {
                let (shown, column) = (*bracket, place.column);
                write!(f, "the '{shown}' on {line}, column {column} is not closed")
            }
            Hint::KeywordAsName(word) => write!(f, "'{word}' is a keyword and cannot be a name"),
            Hint::Operation { operation, context } => {
                let (words, primitive) = (operation.words(), operation.primitive());
                let (open, close) = context.around_strategy();
                write!(f, "{words} with {open}prim(\"{primitive}\", x, y){close}")
            }
            Hint::PrimitiveInBuild { name, context } => {
                let (open, close) = context.around_strategy();
                write!(f, "in a build, write {open}prim({name}, ..){close}")
            }
            Hint::TermsAfterBar {
                name,
                has_strategies,
            } => {
                let strategies = if *has_strategies { ".. " } else { "" };
                write!(f, "terms come after a bar: {name}({strategies}| ..)")
            }
            Hint::Elsewhere(place) => write!(f, "{place} on {line}"),
            Hint::OnName(hint) => write!(f, "{hint}"),
        }
    }
}

/// Writes what to write in place of the name of a variable that is called.
fn write_variable<W: fmt::Write>(
    name: &Shown,
    is_applied: bool,
    f: &mut fmt::Formatter<W>,
) -> fmt::Result {
    write!(f, "'{name}' is a variable here: ")?;
    if is_applied {
        write!(f, "write {name} without < >")
    } else {
        write!(f, "to build its value write !{name}")
    }
}

/// A part of a sentence, without a full stop.
impl fmt::Display for NameHint {
    fn fmt<W: fmt::Write>(&self, f: &mut fmt::Formatter<W>) -> fmt::Result {
        match self {
            NameHint::Similar(name) => write!(f, "did you mean {name}?"),
            NameHint::OfConstructor { name, parts } => {
                if *parts == 0 {
                    return write!(f, "{name} is a constructor: write {name}() or !{name}()");
                }
                let s = plural(*parts);
                write!(f, "the constructor {name} has {parts} part{s}")
            }
            NameHint::AmongConstructors(name) => write!(
                f,
                "{name} is declared as a constructor; definitions come after 'rules' or 'strategies'"
            ),
            NameHint::InPrelude(name) => write!(f, "{name} is in the prelude: use --with prelude"),
            NameHint::OfPrimitive { name, terms } => {
                let s = plural(*terms);
                write!(f, "the primitive {name} has {terms} term{s}")
            }
            NameHint::OfDefinition {
                name,
                strategies,
                terms,
            } => write!(
                f,
                "{name} is defined with {strategies} strategy and {terms} term parameters"
            ),
            NameHint::OfVariable { name, is_applied } => write_variable(name, *is_applied, f),
            NameHint::WithoutParameters(names) => {
                write!(
                    f,
                    "defined without parameters: {names}; choose one with --main"
                )
            }
        }
    }
}
