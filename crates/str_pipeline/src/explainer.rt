//! The remarks of an explanation: what failed, on which term, and which definitions waited.

use crate::callers::{call_sites, callers_line, is_of_library, search_site};
use crate::causes::{
    Leaf, is_negation, push_excess, push_failure, push_phrase, search_failure, variables,
};
use crate::failures::{Failure, FailureKind};
use crate::rerun::Evidence;
use crate::usage::usage_line;
use aterm_text::write_term;
use diagnostics::{Listing, MOST_OF_NAME, Phrase, Remark, push_cut, push_number};
use std::alloc::{AllocError, Global};
use strat_code::Code;
use strat_machine::{Ending, Stand};
use term_model::Term;

/// The most bytes of the text of a term that are shown.
const MOST_OF_TERM: usize = 100;

/// The most variables whose terms are shown.
const MOST_VARIABLES: usize = 8;

/// What the term is called on which a strategy of the file stands.
const CURRENT: &[u8] = b"the current term: ";

/// What the term is called that the strategy of a `not` made.
const MADE: &[u8] = b"the term that its strategy made: ";

/// What the last term is called to which a search of the library came.
const LAST_TRIED: &[u8] = b"the last term that was tried: ";

/// Makes the remarks of an explanation.
#[derive(Clone, Copy)]
pub(crate) struct Explainer<'a> {
    pub(crate) alloc: Global,
    pub(crate) listing: &'a Listing<'a>,
    pub(crate) code: &'a Code,
    pub(crate) run: &'a Evidence,
    /// How many of the first bytes of the definitions are those of files in front of DEFS.
    pub(crate) library: usize,
    /// Whether the run was followed for fewer rules than it may use.
    pub(crate) is_short: bool,
}

impl<'a> Explainer<'a> {
    /// Adds the remarks.
    pub(crate) fn explain(&self, remarks: &mut Vec<Remark>) -> Result<(), AllocError> {
        if self.run.account.ending != Ending::Spent {
            return match &self.run.last {
                Some(stand) => self.add_last(stand, remarks),
                None => Ok(()),
            };
        }
        if self.is_short {
            let text = b"only its first 100000000 rules are followed".to_vec(self.alloc)?;
            push_line(text, remarks)?;
        }
        let rules = self.run.account.rules.as_slice();
        let usage = usage_line(self.alloc, self.listing, self.code, rules)?;
        push_line(usage, remarks)?;
        match &self.run.last {
            Some(stand) => self.add_end(stand, remarks),
            None => Ok(()),
        }
    }

    /// Adds where the run was in the end: at the innermost strategy of DEFS.
    fn add_end(&self, stand: &Stand, remarks: &mut Vec<Remark>) -> Result<(), AllocError> {
        let sites = call_sites(self.alloc, self.code, &stand.waiting)?;
        let leaf = Leaf::new(self.listing, self.code, stand).and_then(|leaf| leaf.offset());
        let leaf = leaf.filter(|offset| !is_of_library(Some(*offset), self.library));
        let innermost = sites
            .iter()
            .rposition(|site| !is_of_library(*site, self.library));
        let waiting = match leaf {
            Some(_) => sites.len(),
            None => innermost.unwrap_or(0),
        };
        let called = innermost.and_then(|index| sites.get(index).copied().flatten());
        let Some(offset) = leaf.or(called) else {
            return Ok(());
        };
        let mut text = self.beginning_at(offset)?;
        text.extend_from_slice(if self.is_short {
            b"the run was here after these rules".as_slice()
        } else {
            b"the run was here when the rules were spent".as_slice()
        })?;
        self.push_at(offset, text, remarks)?;
        self.add_term(CURRENT, &stand.term, remarks)?;
        self.add_callers(&sites[..waiting.min(sites.len())], remarks)
    }

    /// Adds what there is to say of the last instruction, and of the deepest failure in front of it.
    fn add_last(&self, stand: &'a Stand, remarks: &mut Vec<Remark>) -> Result<(), AllocError> {
        let kind = FailureKind::Last;
        let Some(failure) = self.failure_at(kind, stand, &self.run.call_of_last)? else {
            return Ok(());
        };
        let offset = failure.leaf.offset();
        let search = match self.run.account.ending {
            Ending::Oversize if !is_of_library(offset, self.library) => None,
            _ => search_site(&failure.sites, offset, self.library),
        };
        let from = match search {
            Some(index) if failure.call_index(self.library) != search => {
                self.add_search(&failure.sites, index, remarks)?;
                index.saturating_add(1)
            }
            _ => 0,
        };
        self.add_failure(&failure, from, remarks)?;
        match &self.run.deepest {
            Some(deepest) if offset.is_some() => self.add_deepest(deepest, &failure, remarks),
            _ => Ok(()),
        }
    }

    /// Adds what there is to say of the deepest failure in front of the last one, if it came in a strategy of the file and not in the same
    /// call of a file in front of DEFS.
    fn add_deepest(
        &self,
        stand: &'a Stand,
        last: &Failure<'_>,
        remarks: &mut Vec<Remark>,
    ) -> Result<(), AllocError> {
        let kind = FailureKind::Deepest;
        let Some(failure) = self.failure_at(kind, stand, &self.run.call_of_deepest)? else {
            return Ok(());
        };
        if failure.leaf.offset().is_none() || failure.is_in_call_of(last, self.library) {
            return Ok(());
        }
        self.add_failure(&failure, 0, remarks)
    }

    /// The failure of the instruction before which the run stood.
    fn failure_at(
        &self,
        kind: FailureKind,
        stand: &'a Stand,
        call: &'a Option<Stand>,
    ) -> Result<Option<Failure<'a>>, AllocError> {
        let Some(leaf) = Leaf::new(self.listing, self.code, stand) else {
            return Ok(None);
        };
        let sites = call_sites(self.alloc, self.code, &stand.waiting)?;
        Ok(Some(Failure {
            kind,
            leaf,
            stand,
            call: call.as_ref(),
            sites,
        }))
    }

    /// Adds a failure and the calls that wait from an index on: the call of DEFS, if it came in a file in front of it, and the instruction.
    fn add_failure(
        &self,
        failure: &Failure<'_>,
        from: usize,
        remarks: &mut Vec<Remark>,
    ) -> Result<(), AllocError> {
        let note = failure.kind.note(from > 0);
        let Some(index) = failure.call_index(self.library) else {
            self.add_leaf(&failure.leaf, failure.stand, note, remarks)?;
            return self.add_callers(failure.sites_from(from), remarks);
        };
        let Some(offset) = failure.sites.get(index).copied().flatten() else {
            return Ok(());
        };
        self.add_failing_call(offset, note, remarks)?;
        if let Some(call) = failure.call {
            self.add_term(CURRENT, &call.term, remarks)?;
            self.add_arguments(call, remarks)?;
        }
        let around = failure.sites.get(from..index).unwrap_or(&[]);
        self.add_callers(around, remarks)?;
        self.add_leaf(
            &failure.leaf,
            failure.stand,
            failure.kind.inner_note(),
            remarks,
        )?;
        self.add_callers(failure.sites_from(index.saturating_add(1)), remarks)
    }

    /// Adds what an instruction does, if it is one of the file, its term and its variables. The note comes after what it does.
    fn add_leaf(
        &self,
        leaf: &Leaf<'_>,
        stand: &Stand,
        note: &[u8],
        remarks: &mut Vec<Remark>,
    ) -> Result<(), AllocError> {
        if let Some(offset) = leaf.offset() {
            self.add_effect(leaf, offset, stand, note, remarks)?;
        }
        self.add_term(self.name_of_term(leaf), &stand.term, remarks)?;
        self.add_variables(leaf, stand, remarks)
    }

    /// What the term is called that stands where an instruction is.
    fn name_of_term(&self, leaf: &Leaf<'_>) -> &'static [u8] {
        if self.run.account.ending != Ending::Failed {
            CURRENT
        } else if leaf.offset().is_none() {
            LAST_TRIED
        } else if is_negation(self.listing, leaf) {
            MADE
        } else {
            CURRENT
        }
    }

    /// Adds that the call at this index fails, in which the library searches, and what waits for it.
    fn add_search(
        &self,
        sites: &[Option<usize>],
        index: usize,
        remarks: &mut Vec<Remark>,
    ) -> Result<(), AllocError> {
        let Some(offset) = sites.get(index).copied().flatten() else {
            return Ok(());
        };
        self.add_failing_call(offset, b"", remarks)?;
        self.add_callers(&sites[..index.min(sites.len())], remarks)
    }

    /// Adds that the call at this byte fails. The note comes after that.
    fn add_failing_call(
        &self,
        offset: usize,
        note: &[u8],
        remarks: &mut Vec<Remark>,
    ) -> Result<(), AllocError> {
        let mut text = self.beginning_at(offset)?;
        let call = self.listing.call_at(offset);
        match call {
            Some(phrase) => push_phrase(self.listing, phrase, &mut text)?,
            None => text.extend_from_slice(b"a call")?,
        }
        text.extend_from_slice(match self.run.account.ending {
            Ending::Oversize => b" makes the term".as_slice(),
            _ => search_failure(self.listing, call),
        })?;
        text.extend_from_slice(note)?;
        self.push_at(offset, text, remarks)
    }

    /// Adds what the variables among the arguments of a call have.
    fn add_arguments(&self, call: &Stand, remarks: &mut Vec<Remark>) -> Result<(), AllocError> {
        match Leaf::new(self.listing, self.code, call) {
            Some(leaf) => self.add_variables(&leaf, call, remarks),
            None => Ok(()),
        }
    }

    /// Adds what an instruction does.
    fn add_effect(
        &self,
        leaf: &Leaf<'_>,
        offset: usize,
        stand: &Stand,
        note: &[u8],
        remarks: &mut Vec<Remark>,
    ) -> Result<(), AllocError> {
        let offset = match leaf.phrase {
            Some(phrase) => self.listing.offset_of(phrase),
            None => offset,
        };
        let mut text = self.beginning_at(offset)?;
        match self.run.account.ending {
            Ending::Oversize => push_excess(self.listing, leaf, &mut text)?,
            _ => push_failure(self.alloc, self.listing, leaf, stand, &mut text)?,
        }
        text.extend_from_slice(note)?;
        self.push_at(offset, text, remarks)?;
        self.add_alternatives(offset, remarks)
    }

    /// Adds that the definition at this byte has other alternatives, if it has.
    fn add_alternatives(&self, offset: usize, remarks: &mut Vec<Remark>) -> Result<(), AllocError> {
        let Some(head) = self.listing.head_before(offset) else {
            return Ok(());
        };
        let Some(count) = self.listing.alternatives_before(head) else {
            return Ok(());
        };
        if count < 2 {
            return Ok(());
        }
        let mut text = b"the last of ".to_vec(self.alloc)?;
        push_number(count as u64, &mut text)?;
        text.extend_from_slice(b" alternatives of ")?;
        push_cut(self.listing.name_of(head), MOST_OF_NAME, &mut text)?;
        text.extend_from_slice(b"; those before it failed, too")?;
        push_line(text, remarks)
    }

    /// Adds the text of the term, as much as stands on a line, after what it is called.
    fn add_term(
        &self,
        name: &[u8],
        term: &Term,
        remarks: &mut Vec<Remark>,
    ) -> Result<(), AllocError> {
        let mut text = name.to_vec(self.alloc)?;
        push_term(self.alloc, term, &mut text)?;
        push_line(text, remarks)
    }

    /// Adds what the variables of an instruction have.
    fn add_variables(
        &self,
        leaf: &Leaf<'_>,
        stand: &Stand,
        remarks: &mut Vec<Remark>,
    ) -> Result<(), AllocError> {
        let names = variables(self.alloc, self.listing, leaf)?;
        if names.len() != stand.values.len() {
            return Ok(());
        }
        for (index, value) in stand.values.iter().take(MOST_VARIABLES).enumerate() {
            let (Some(name), Some(term)) = (names.get(index), value) else {
                continue;
            };
            if self.is_repeated(&names, index) {
                continue;
            }
            self.add_variable(*name, term, remarks)?;
        }
        Ok(())
    }

    /// Whether the variable at an index stands in front of it, too.
    fn is_repeated(&self, names: &[Phrase], index: usize) -> bool {
        let Some(name) = names.get(index) else {
            return true;
        };
        let name = self.listing.text_of(*name);
        names
            .iter()
            .take(index)
            .any(|other| self.listing.text_of(*other) == name)
    }

    fn add_variable(
        &self,
        name: Phrase,
        term: &Term,
        remarks: &mut Vec<Remark>,
    ) -> Result<(), AllocError> {
        let mut text = Vec::new(self.alloc);
        push_phrase(self.listing, name, &mut text)?;
        text.extend_from_slice(b" = ")?;
        push_term(self.alloc, term, &mut text)?;
        push_line(text, remarks)
    }

    /// Adds the definitions in which the calls stand, if there are any.
    fn add_callers(
        &self,
        sites: &[Option<usize>],
        remarks: &mut Vec<Remark>,
    ) -> Result<(), AllocError> {
        match callers_line(self.alloc, self.listing, sites)? {
            Some(text) => push_line(text, remarks),
            None => Ok(()),
        }
    }

    /// The beginning of a remark: the definition in which this byte stands.
    fn beginning_at(&self, offset: usize) -> Result<Vec<u8>, AllocError> {
        let mut text = b"in ".to_vec(self.alloc)?;
        if let Some(head) = self.listing.head_before(offset) {
            push_cut(self.listing.name_of(head), MOST_OF_NAME, &mut text)?;
        }
        text.extend_from_slice(b": ")?;
        Ok(text)
    }

    /// Adds a remark on what stands at this byte.
    fn push_at(
        &self,
        offset: usize,
        text: Vec<u8>,
        remarks: &mut Vec<Remark>,
    ) -> Result<(), AllocError> {
        remarks.push(Remark {
            position: Some(self.listing.position(offset)),
            text,
            on_line: None,
        })?;
        Ok(())
    }
}

/// Adds a remark without a place.
fn push_line(text: Vec<u8>, remarks: &mut Vec<Remark>) -> Result<(), AllocError> {
    remarks.push(Remark {
        position: None,
        text,
        on_line: None,
    })?;
    Ok(())
}

/// Puts the text of a term on a line, as much of it as is shown.
pub(crate) fn push_term(alloc: Global, term: &Term, line: &mut Vec<u8>) -> Result<(), AllocError> {
    let mut text = Vec::new(alloc);
    write_term(term, &mut text)?;
    push_cut(&text, MOST_OF_TERM, line)
}
