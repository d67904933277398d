//! What was found in a file.
ghost use Rattle.std.specs.Prelude.{◌≡◌, ◌⊎◌, is_some, true, Some, IsSome};
ghost use Rattle.scope_check.specs.Complaint.{complaints, first_of};
ghost use Rattle.scope_check.specs.Found.{complaint_of, fault_noted, found_if, has_found, joined, none};
ghost use Rattle.scope_check.specs.declared.detail.Detail.TheVariants as details;

use crate::collected::Collected;
use crate::detail::Detail;
use crate::note::{Note, place_of};
use std::alloc::Global;
use std::marker::Model;
use str_syntax::Name;

/// What was found in a file: for each complaint that occurs, the note that is reported for it, which is the first in the text. That the
/// note is there says that the complaint occurs. If notes are collected, also the first hundred in the text.
#[derive(Drop)]
pub(crate) struct Findings {
    duplicate_declaration: Option<Note>,
    undeclared: Option<Note>,
    bad_parameters: Option<Note>,
    clash: Option<Note>,
    unknown_strategy: Option<Note>,
    not_buildable: Option<Note>,
    unknown_primitive: Option<Note>,
    no_main: Option<Note>,
    collected: Option<Collected>,
}

/// The complaints that were found.
impl Model for Findings {
    ghost use Rattle.std.specs.Prelude.{is_some};
    ghost use Rattle.scope_check.specs.Complaint as complaints;
    ghost use Rattle.scope_check.specs.Found.{Found, IsAbout};

    ghost Value = { Found };

    ghost view = { λ f. record {
      duplicate_declaration = is_some f.duplicate_declaration;
      undeclared = is_some f.undeclared;
      bad_parameters = is_some f.bad_parameters;
      clash = is_some f.clash;
      unknown_strategy = is_some f.unknown_strategy;
      not_buildable = is_some f.not_buildable;
      unknown_primitive = is_some f.unknown_primitive;
      no_main = is_some f.no_main;
    } };

    ghost invariant = { λ f.
        IsAbout complaints.duplicate_declaration f.duplicate_declaration ×
        (IsAbout complaints.undeclared f.undeclared ×
        (IsAbout complaints.bad_parameters f.bad_parameters ×
        (IsAbout complaints.clash f.clash ×
        (IsAbout complaints.unknown_strategy f.unknown_strategy ×
        (IsAbout complaints.not_buildable f.not_buildable ×
        (IsAbout complaints.unknown_primitive f.unknown_primitive ×
        IsAbout complaints.no_main f.no_main)))))) };
}

impl Findings {
    /// Nothing was found. Notes are collected, if a place for them is given.
    fn empty(collected: Option<Collected>) -> Findings
        ensures { result ≡ none }
    {
        Findings {
            duplicate_declaration: None,
            undeclared: None,
            bad_parameters: None,
            clash: None,
            unknown_strategy: None,
            not_buildable: None,
            unknown_primitive: None,
            no_main: None,
            collected,
        }
    }

    /// Nothing was found, and no notes are collected, so that no memory is taken.
    pub(crate) fn none() -> Findings
        ensures { result ≡ none }
    {
        Findings::empty(None)
    }

    /// Nothing was found, and notes are collected.
    pub(crate) fn collecting(alloc: Global) -> Findings
        ensures { result ≡ none }
    {
        Findings::empty(Some(Collected::new(alloc)))
    }

    /// The note of the complaint of the least number, if one was found.
    pub(crate) fn least(&self) -> Option<Note>
        ensures { fault_noted result ≡ first_of (has_found self.now) complaints }
    {
        self.duplicate_declaration
            .or(self.undeclared)
            .or(self.bad_parameters)
            .or(self.clash)
            .or(self.unknown_strategy)
            .or(self.not_buildable)
            .or(self.unknown_primitive)
            .or(self.no_main)
    }

    /// Whether a clash was found.
    pub(crate) fn has_clash(&self) -> bool
        ensures { result ≡ self.now.clash }
    {
        self.clash.is_some()
    }

    /// Whether a note of an unknown strategy of this name would be kept.
    pub(crate) fn wants_unknown(&self, name: &Name) -> bool {
        match &self.collected {
            Some(collected) => collected.has_room_at(name.offset()),
            None => self.unknown_strategy.is_none(),
        }
    }

    /// The notes that were collected.
    pub(crate) fn collected(&self) -> &[Note] {
        match &self.collected {
            Some(collected) => &collected.notes,
            None => &[],
        }
    }

    /// How many notes there were to collect.
    pub(crate) fn count(&self) -> usize {
        match &self.collected {
            Some(collected) => collected.count,
            None => 0,
        }
    }

    /// Notes what is wrong with a name that stands in the file or in the library. Of the library nothing is collected.
    pub(crate) fn note(&mut self, name: &Name, detail: Detail)
        ensures { self.new ≡ joined self.old (found_if (complaint_of detail) true) }
    {
        let offset = place_of(name);
        let note = Note::new(detail, offset, name.bytes());
        if offset.is_some() {
            self.collect(note);
        }
        self.keep(note);
    }

    /// Notes that a wildcard that stands at the offset is built.
    pub(crate) fn note_wildcard(&mut self, offset: u64)
        ensures { self.new ≡ joined self.old (found_if (complaint_of details.BuiltWildcard) true) }
    {
        let note = Note::new(Detail::BuiltWildcard, Some(offset), b"_");
        self.collect(note);
        self.keep(note);
    }

    /// Notes what is wrong with a name of which no place is known.
    pub(crate) fn note_anywhere(&mut self, name: &[u8], detail: Detail)
        ensures { self.new ≡ joined self.old (found_if (complaint_of detail) true) }
    {
        let note = Note::new(detail, None, name);
        self.collect(note);
        self.keep(note);
    }

    /// Puts the note among those that are collected, if they are.
    fn collect(&mut self, note: Note)
        ensures { self.new ≡ self.old }
    {
        if let Some(collected) = &mut self.collected {
            collected.add(note);
        }
    }

    /// Keeps the note, unless one of its complaint is kept that stands before it.
    fn keep(&mut self, note: Note)
        ensures { self.new ≡ joined self.old (found_if (complaint_of note.detail) true) }
    {
        match note.detail() {
            Detail::DeclaredAgain => keep_first(&mut self.duplicate_declaration, note),
            Detail::Undeclared { .. } => keep_first(&mut self.undeclared, note),
            Detail::Repeated | Detail::OtherParameters | Detail::ManyAlternatives => {
                keep_first(&mut self.bad_parameters, note)
            }
            Detail::Clash | Detail::OfLibrary => keep_first(&mut self.clash, note),
            Detail::UnknownStrategy { .. } => keep_first(&mut self.unknown_strategy, note),
            Detail::BuiltWildcard | Detail::BuiltAlias => keep_first(&mut self.not_buildable, note),
            Detail::UnknownPrimitive { .. } => keep_first(&mut self.unknown_primitive, note),
            Detail::NoMain => keep_first(&mut self.no_main, note),
        }
    }
}

/// Keeps the note in the place of one that stands after it, or of none. What has no place comes after what has one.
fn keep_first(kept: &mut Option<Note>, note: Note)
    ensures found { is_some kept.new ≡ true }
    ensures one { (kept.new ≡ Some note) ⊎ (kept.new ≡ kept.old) }
{
    let is_first = match &*kept {
        Some(first) => note.order() < first.order(),
        None => true,
    };
    if is_first {
        *kept = Some(note);
    }
}
