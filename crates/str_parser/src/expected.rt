//! Why no phrase goes on with a token, for a person. No contract of the parser speaks of it.

use std::fmt;
use str_syntax::{Declaration, Definition, DefinitionForm, Section, SignaturePart};

/// Why no phrase goes on with a token: the rule that it breaks, and what could stand there. It has eight bytes and no gap between them, since
/// each result of the parser has room for it.
#[derive(Clone, Copy, Debug, PartialEq, Eq)]
pub struct SyntaxReason {
    rule: SyntaxRule,
    expected: Expected,
}

/// The rule that a token breaks.
#[derive(Clone, Copy, Debug, PartialEq, Eq)]
pub(crate) enum SyntaxRule {
    /// Only what is expected can stand there.
    Expected,
    /// No `{`: the pattern has annotations already.
    OneListOfAnnotations,
    /// No `{`: it would follow `<s>`, which has no annotations without parentheses around it.
    ParenthesesAroundApplied,
}

impl SyntaxReason {
    /// One of these could stand there.
    pub(crate) fn any_of(candidates: &[Candidate]) -> SyntaxReason {
        SyntaxReason {
            rule: SyntaxRule::Expected,
            expected: Expected::any_of(candidates),
        }
    }

    /// The token breaks this rule about annotations.
    pub(crate) fn of_rule(rule: SyntaxRule) -> SyntaxReason {
        SyntaxReason {
            rule,
            expected: Expected::any_of(&[]),
        }
    }

    /// Returns what could stand there, which is nothing where another rule is broken.
    pub fn expected(&self) -> Expected {
        self.expected
    }
}

/// What could stand there, as `expected ',' or ')'`, or the rule that the token breaks.
impl fmt::Display for SyntaxReason {
    fn fmt<W: fmt::Write>(&self, f: &mut fmt::Formatter<W>) -> fmt::Result {
        match self.rule {
            SyntaxRule::Expected => write!(f, "expected {}", self.expected),
            SyntaxRule::OneListOfAnnotations => f.write_str(
                "a pattern has one list of annotations",
            ),
            SyntaxRule::ParenthesesAroundApplied => {
                f.write_str("'<..>' takes annotations only in parentheses")
            }
        }
    }
}

/// The most things that are expected at a place.
const MOST: usize = 6;

/// What could stand at a place, each thing once: that with which the innermost part goes on or ends that is open there. An operator may be
/// possible as well.
#[derive(Clone, Copy, Debug, PartialEq, Eq)]
pub struct Expected {
    /// The first of these, as many as `count` says.
    candidates: [Candidate; MOST],
    count: u8,
}

impl Expected {
    /// Any of the first six of these.
    #[inline(never)]
    fn any_of(candidates: &[Candidate]) -> Expected {
        let mut expected = Expected {
            candidates: [Candidate::Name; MOST],
            count: 0,
        };
        for candidate in candidates {
            let at = usize::from(expected.count);
            if let Some(place) = expected.candidates.get_mut(at) {
                *place = *candidate;
                expected.count = expected.count.saturating_add(1);
            }
        }
        expected
    }

    /// Tells whether this could stand there.
    pub fn has(&self, candidate: Candidate) -> bool {
        self.candidates
            .iter()
            .take(usize::from(self.count))
            .any(|other| *other == candidate)
    }

    /// Tells whether this could stand there, and nothing else.
    pub fn is_only(&self, candidate: Candidate) -> bool {
        self.count == 1 && self.has(candidate)
    }
}

/// The list of what could stand there: `',', '|' or ')'`.
impl fmt::Display for Expected {
    fn fmt<W: fmt::Write>(&self, f: &mut fmt::Formatter<W>) -> fmt::Result {
        let count = usize::from(self.count);
        for (index, candidate) in self.candidates.iter().take(count).enumerate() {
            f.write_str(match index {
                0 => "",
                _ if index.saturating_add(1) == count => " or ",
                _ => ", ",
            })?;
            f.write_str(candidate.words())?;
        }
        Ok(())
    }
}

/// One thing that could stand at a place.
#[derive(Clone, Copy, Debug, PartialEq, Eq)]
pub enum Candidate {
    Arrow,
    Backslash,
    Bar,
    CloseBrace,
    CloseBracket,
    CloseParenthesis,
    Colon,
    Comma,
    Equals,
    Greater,
    OpenParenthesis,
    Plus,
    Star,
    ConstructorsKeyword,
    ElseKeyword,
    EndKeyword,
    InKeyword,
    RulesKeyword,
    SignatureKeyword,
    SortsKeyword,
    StrategiesKeyword,
    ThenKeyword,
    WhereKeyword,
    Name,
    /// The name of a constructor.
    Constructor,
    Sort,
    Strategy,
    Pattern,
    QuotedText,
    Declaration,
    /// A rule or the definition of a strategy.
    Definition,
    Section,
    Operator,
}

impl Candidate {
    /// A mark or a keyword between quotes, or the name of a part: `a pattern`.
    fn words(self) -> &'static str {
        match self {
            Candidate::Arrow => "'->'",
            Candidate::Backslash => "'\\'",
            Candidate::Bar => "'|'",
            Candidate::CloseBrace => "'}'",
            Candidate::CloseBracket => "']'",
            Candidate::CloseParenthesis => "')'",
            Candidate::Colon => "':'",
            Candidate::Comma => "','",
            Candidate::Equals => "'='",
            Candidate::Greater => "'>'",
            Candidate::OpenParenthesis => "'('",
            Candidate::Plus => "'+'",
            Candidate::Star => "'*'",
            Candidate::ConstructorsKeyword => "'constructors'",
            Candidate::ElseKeyword => "'else'",
            Candidate::EndKeyword => "'end'",
            Candidate::InKeyword => "'in'",
            Candidate::RulesKeyword => "'rules'",
            Candidate::SignatureKeyword => "'signature'",
            Candidate::SortsKeyword => "'sorts'",
            Candidate::StrategiesKeyword => "'strategies'",
            Candidate::ThenKeyword => "'then'",
            Candidate::WhereKeyword => "'where'",
            Candidate::Name => "a name",
            Candidate::Constructor => "the name of a constructor",
            Candidate::Sort => "a sort",
            Candidate::Strategy => "a strategy",
            Candidate::Pattern => "a pattern",
            Candidate::QuotedText => "a quoted text",
            Candidate::Declaration => "a declaration",
            Candidate::Definition => "a definition",
            Candidate::Section => "a section",
            Candidate::Operator => "an operator",
        }
    }
}

/// Returns what could stand after these sections.
pub(crate) fn after_sections(sections: &[Section]) -> &'static [Candidate] {
    match sections.last() {
        None => &[
            Candidate::SignatureKeyword,
            Candidate::RulesKeyword,
            Candidate::StrategiesKeyword,
        ],
        Some(Section::Signature(parts)) => after_parts(parts),
        Some(Section::Rules(definitions)) => after_definitions(definitions),
        Some(Section::Strategies(definitions)) => after_definitions(definitions),
    }
}

/// Returns what could stand after these parts of a signature.
fn after_parts(parts: &[SignaturePart]) -> &'static [Candidate] {
    match parts.last() {
        None => &[
            Candidate::SortsKeyword,
            Candidate::ConstructorsKeyword,
            Candidate::Section,
        ],
        Some(SignaturePart::Sorts(_)) => &[
            Candidate::Sort,
            Candidate::ConstructorsKeyword,
            Candidate::Section,
        ],
        Some(SignaturePart::Constructors(declarations)) => match declarations.last() {
            Some(Declaration::Constant(_, _)) => &[
                Candidate::Star,
                Candidate::Arrow,
                Candidate::Declaration,
                Candidate::Section,
            ],
            _ => &[Candidate::Declaration, Candidate::Section],
        },
    }
}

/// Returns what could stand after these rules and definitions.
fn after_definitions(definitions: &[Definition]) -> &'static [Candidate] {
    let Some(last) = definitions.last() else {
        return &[Candidate::Definition, Candidate::Section];
    };
    match &last.form {
        DefinitionForm::Rule(defined) if defined.rule.condition.is_none() => &[
            Candidate::WhereKeyword,
            Candidate::Definition,
            Candidate::Section,
        ],
        _ => &[
            Candidate::Operator,
            Candidate::Definition,
            Candidate::Section,
        ],
    }
}
