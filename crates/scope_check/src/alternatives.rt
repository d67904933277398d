//! Alternatives: heads of one key.
ghost use Rattle.std.specs.Prelude.{◌≡◌, ◌⊎◌, Bool, [], cond, is_some, true, IfOk, IsNone};
ghost use Rattle.indexmap.specs.IndexMap.{get};
ghost use Rattle.scope_check.specs.Complaint.{bad_parameters, same_parameters};
ghost use Rattle.scope_check.specs.Found.{found_group, found_if, joined};
ghost use Rattle.scope_check.specs.Groups.{with_head};
ghost use Rattle.scope_check.specs.Seen as spec;
ghost use Rattle.scope_check.specs.Seen.{key_of, same_key};
ghost use Rattle.scope_check.specs.Tables.{Adds, heads_of};
ghost use Rattle.str_syntax.specs.Views.{head_of};

use crate::detail::Detail;
use crate::findings::Findings;
use crate::note::place_of;
use indexmap::IndexMap;
use keyed_hash::HashKeys;
use std::alloc::{AllocError, Global};
use std::marker::Model;
use str_syntax::{DefinitionHead, DefinitionKey, Name};

/// The most heads of one key.
const MOST: usize = 1000;

/// The first head of a key, and how many heads it has.
#[derive(Drop)]
pub(crate) struct Group<'a> {
    first: &'a DefinitionHead,
    number: usize,
}

impl<'a> Model for Group<'a> {
    ghost use Rattle.scope_check.specs.Groups.{Group};
    ghost use Rattle.str_syntax.specs.Views.{head_of};

    ghost Value = { Group };

    ghost view = { λ g. record { first = head_of g.first.now; number = g.number } };
}

/// The groups of heads, by their keys.
#[derive(Drop)]
pub(crate) struct Groups<'a> {
    by_key: IndexMap<DefinitionKey<'a>, Group<'a>, HashKeys>,
}

impl<'a> Groups<'a> {
    /// No groups.
    fn new(alloc: Global, hashing: HashKeys) -> Groups<'a>
        ensures { result.by_key.entries ≡ [] }
    {
        Groups {
            by_key: IndexMap::with_hasher(alloc, hashing),
        }
    }

    /// The group of the head with the head in it, if it may stand there.
    fn with(&self, head: &'a DefinitionHead) -> Option<Group<'a>>
        ensures { result ≡ with_head (head_of head.now)
            (get same_key self.now.by_key (key_of (head_of head.now))) }
    {
        let Some(group) = self.by_key.get(&head.key()) else {
            let number = 1;
            return Some(Group {
                first: head,
                number,
            });
        };
        if group.number >= MOST || !same_parameters(group.first, head) {
            return None;
        }
        let number = group.number + 1;
        let first = group.first;
        Some(Group { first, number })
    }

    /// Notes why the head may not stand in its group, unless that is what was wrong with the last that was refused: both are too many of
    /// their key. A head of the library has no place in the file, but the first of its group may have one.
    fn note_refusal(
        &self,
        head: &'a DefinitionHead,
        last: Option<&DefinitionHead>,
        findings: &mut Findings,
    )
        ensures first { IsNone last.entry →
            findings.new ≡ joined findings.old (found_if bad_parameters true) }
        ensures others { (findings.new ≡ findings.old) ⊎
            (findings.new ≡ joined findings.old (found_if bad_parameters true)) }
    {
        let has_room = self.has_room(head);
        if let Some(last) = last {
            if !has_room && last.key() == head.key() {
                return;
            }
        }
        let name = self.name_to_note(head);
        if has_room {
            findings.note(name, Detail::OtherParameters);
        } else {
            findings.note(name, Detail::ManyAlternatives);
        }
    }

    /// The name of the head or, where that is of the library, of the first of its group.
    fn name_to_note(&self, head: &'a DefinitionHead) -> &'a Name {
        match self.by_key.get(&head.key()) {
            Some(group) if place_of(&head.name).is_none() => &group.first.name,
            _ => &head.name,
        }
    }

    /// Whether the group of the head may have more heads.
    fn has_room(&self, head: &DefinitionHead) -> bool {
        match self.by_key.get(&head.key()) {
            Some(group) => group.number < MOST,
            None => true,
        }
    }

    /// Adds the head to its group, and returns whether it may stand there.
    fn add(&mut self, head: &'a DefinitionHead) -> Result<bool, AllocError>
        ensures fits { IfOk result (λ fits. fits ≡
            is_some (with_head (head_of head.now)
            (get same_key self.old.by_key (key_of (head_of head.now))))) }
        ensures added { IfOk result (λ fits. fits ≡ true → (k : spec.Key) →
            get same_key self.new.by_key k
            ≡ cond (same_key (key_of (head_of head.now)) k)
            (with_head (head_of head.now)
            (get same_key self.old.by_key (key_of (head_of head.now))))
            (get same_key self.old.by_key k)) }
    {
        let Some(group) = self.with(head) else {
            return Ok(false);
        };
        self.by_key.insert(head.key(), group)?;
        Ok(true)
    }
}

/// Finds that two heads of one key have different parameters, and that a key has too many heads: each head that has other parameters is
/// noted, and the first of those that are too many. `AllocError` where a growth is refused.
pub(crate) fn find_in_group(
    alloc: Global,
    hashing: HashKeys,
    heads: &[&DefinitionHead],
    findings: &mut Findings,
) -> Result<(), AllocError>
    ensures { Adds result findings.old (found_group (heads_of heads.now)) findings.new }
{
    let mut groups = Groups::new(alloc, hashing);
    let mut refused = None;
    for head in heads {
        let fits = groups.add(head)?;
        if fits {
            continue;
        }
        groups.note_refusal(head, refused, findings);
        refused = Some(*head);
    }
    Ok(())
}

fn same_parameters(head: &DefinitionHead, other: &DefinitionHead) -> bool
    ensures { result ≡ same_parameters (head_of head.now) (head_of other.now) }
{
    head.parameters.strategy_names() == other.parameters.strategy_names()
        && head.parameters.term_names() == other.parameters.term_names()
}
