//! Cases: programs with a term and a budget.
use std::alloc::{AllocError, Global};
use std::str;

/// Definitions and a term, the name of the definition that is run, and the budget, in rules.
#[derive(Drop)]
pub(crate) struct Case {
    pub(crate) budget: u32,
    pub(crate) main: Vec<u8>,
    pub(crate) definitions: Vec<u8>,
    pub(crate) term: Vec<u8>,
    in_term: bool,
}

impl Case {
    /// The case that a line begins, or `None` where the line is no `#case BUDGET MAIN`.
    fn from_line(alloc: Global, line: &[u8]) -> Result<Option<Case>, AllocError> {
        let Some((budget, main)) = header_of(line) else {
            return Ok(None);
        };
        Ok(Some(Case {
            budget,
            main: main.as_bytes().to_vec(alloc)?,
            definitions: Vec::new(alloc),
            term: Vec::new(alloc),
            in_term: false,
        }))
    }

    /// Adds the next line of the case: the definitions end at a line `#term`.
    fn add(&mut self, line: &[u8]) -> Result<(), AllocError> {
        if !self.in_term && line == b"#term".as_slice() {
            self.in_term = true;
            return Ok(());
        }
        let text = if self.in_term {
            &mut self.term
        } else {
            &mut self.definitions
        };
        text.extend_from_slice(line)?;
        text.push(b'\n')?;
        Ok(())
    }
}

/// The budget and the name on the first line of a case.
fn header_of(line: &[u8]) -> Option<(u32, &str)> {
    let header = str::from_utf8(line.strip_prefix(b"#case ")?).ok()?;
    let (budget, main) = header.split_once(' ')?;
    let budget = budget.parse::<u32>().ok()?;
    Some((budget, main))
}

/// The cases of a text. Lines before the first case belong to none.
pub(crate) fn cases_in(alloc: Global, text: &[u8]) -> Result<Vec<Case>, AllocError> {
    let mut cases = Vec::new(alloc);
    for line in text.split(|byte| *byte == b'\n') {
        if let Some(case) = Case::from_line(alloc, line)? {
            cases.push(case)?;
        } else if let Some(case) = cases.last_mut() {
            case.add(line)?;
        }
    }
    Ok(cases)
}
