//! What is said of a run or of a check beside its result.

use std::fmt;

/// A line and a column of a text, both from 1. A column counts bytes.
#[derive(Clone, Copy, Debug, PartialEq, Eq)]
pub struct Position {
    pub line: usize,
    pub column: usize,
}

/// A line of a text, from 1, and the name of the text where that has to be said.
#[derive(Clone, Copy, Debug, PartialEq, Eq)]
pub struct NamedLine<'a> {
    pub line: usize,
    pub text_name: Option<&'a str>,
}

/// As in `line 3`, or `line 3 of rules.str`.
impl fmt::Display for NamedLine<'_> {
    fn fmt<W: fmt::Write>(&self, f: &mut fmt::Formatter<W>) -> fmt::Result {
        let line = self.line;
        match self.text_name {
            Some(name) => write!(f, "line {line} of {name}"),
            None => write!(f, "line {line}"),
        }
    }
}

/// One line of an explanation.
#[derive(Drop)]
pub struct Remark {
    /// Where in the definitions it stands, if it stands there.
    pub position: Option<Position>,
    /// The line, without its line feed, or its beginning.
    pub text: Vec<u8>,
    /// The line of the definitions that the remark also is about: after the text come ` on line ` and its number.
    pub on_line: Option<usize>,
}

/// Remarks, in the order in which they are written: why a run has no result, the faults that a check found, and warnings.
#[derive(Drop)]
pub struct Explanation {
    remarks: Vec<Remark>,
}

impl Explanation {
    /// The explanation that has these remarks.
    pub fn new(remarks: Vec<Remark>) -> Explanation {
        Explanation { remarks }
    }

    /// The remarks, in the order in which they are to be written.
    pub fn remarks(&self) -> &[Remark] {
        self.remarks.as_slice()
    }
}
