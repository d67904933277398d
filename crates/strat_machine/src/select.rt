//! Selections: the first case of a table that has a term's root.
ghost use Rattle.std.specs.Prelude.{◌≡◌, ◌≤◌, ℕ, IsTrue, drop, length, map};
ghost use Rattle.term_model.specs.Flat.{Meaning};
ghost use Rattle.strat_code.specs.Code.{select};
ghost use Rattle.strat_machine.specs.Indexing.{IsIndex};
ghost use Rattle.strat_machine.specs.Selecting.{Selects};
ghost use Rattle.strat_machine.specs.Tables.{CasesKnown, TableKnown, TablesKnown, case_meant, cases_meant};

use crate::index::{Index, find_case};
use crate::roots::has_root;
use crate::stacks::{Position, Stacks};
use crate::tables::{LoadedCase, LoadedTable};
use term_model::TermSpace;

/// What a selection comes to.
pub(crate) enum Selected {
    /// No case has the term's root: the position is at the last address.
    NoCase,
    /// The budget does not suffice for the cases that are passed by.
    Spent,
    /// The position is at the body of a case. A failure of the case goes on at this address.
    Case(usize),
}

/// Goes to the first case of the table, from number `skipped` on, that has the term's root; those before it are paid for. Where
/// none has it, or there is no such table, goes on at the last address.
pub(crate) fn perform_select<S: TermSpace>(
    space: &S,
    stacks: &mut Stacks<S::Ref, S::Mark>,
    tables: &[LoadedTable<S::Name>],
    table: usize,
    skipped: usize,
    last: usize,
    position: &mut Position<S::Ref>,
) -> Selected
    requires known { TablesKnown (S.space.knows space.now) S.space.number_of tables.now }
    requires stands { IsTrue (S.space.stands space.now position.old.term) }
    ensures term { position.new.term ≡ position.old.term }
    ensures selects { (M : Meaning) (n i : ℕ) →
        Selects S.space M (select n (cases_meant (S.space.symbol_of space.now) tables.now table
        skipped) last) i position.old space.now stacks.old result position.new stacks.new }
{
    match tables.get(table) {
        Some(found) => select_in(space, stacks, found, skipped, last, position),
        None => {
            position.address = last;
            Selected::NoCase
        }
    }
}

/// Goes to the first case of this table.
fn select_in<S: TermSpace>(
    space: &S,
    stacks: &mut Stacks<S::Ref, S::Mark>,
    table: &LoadedTable<S::Name>,
    skipped: usize,
    last: usize,
    position: &mut Position<S::Ref>,
) -> Selected
    requires known { TableKnown (S.space.knows space.now) S.space.number_of table.now }
    requires stands { IsTrue (S.space.stands space.now position.old.term) }
    ensures term { position.new.term ≡ position.old.term }
    ensures selects { (M : Meaning) (n i : ℕ) →
        Selects S.space M (select n (drop skipped
        (map (case_meant (S.space.symbol_of space.now)) table.now.cases.items)) last) i
        position.old space.now stacks.old result position.new stacks.new }
{
    let cases = table.cases.as_slice();
    if skipped >= cases.len() {
        position.address = last;
        return Selected::NoCase;
    }
    match &table.index {
        Some(index) => select_by(space, stacks, cases, index, skipped, last, position),
        None => walk_cases(space, stacks, &cases[skipped..], last, position),
    }
}

/// Goes to the first of the cases by their index.
fn select_by<S: TermSpace>(
    space: &S,
    stacks: &mut Stacks<S::Ref, S::Mark>,
    cases: &[LoadedCase<S::Name>],
    index: &Index,
    skipped: usize,
    last: usize,
    position: &mut Position<S::Ref>,
) -> Selected
    requires known { CasesKnown (S.space.knows space.now) cases.now }
    requires index { IsIndex S.space.number_of cases.now index.now }
    requires skipped { skipped ≤ length cases.now }
    requires stands { IsTrue (S.space.stands space.now position.old.term) }
    ensures term { position.new.term ≡ position.old.term }
    ensures selects { (M : Meaning) (n i : ℕ) →
        Selects S.space M (select n (drop skipped
        (map (case_meant (S.space.symbol_of space.now)) cases.now)) last) i position.old
        space.now stacks.old result position.new stacks.new }
{
    let found = find_case(space, cases, index, skipped, &position.term);
    let nodes = index.sums[found] - index.sums[skipped];
    if stacks.left < nodes {
        // The walk ends at the case that cannot be paid for.
        return walk_cases(space, stacks, &cases[skipped..], last, position);
    }
    stacks.left -= nodes;
    match cases.get(found) {
        Some(case) => {
            position.address = case.body;
            Selected::Case(case.otherwise)
        }
        None => {
            position.address = last;
            Selected::NoCase
        }
    }
}

/// Goes to the first of the cases that has the term's root, one after another.
fn walk_cases<S: TermSpace>(
    space: &S,
    stacks: &mut Stacks<S::Ref, S::Mark>,
    cases: &[LoadedCase<S::Name>],
    last: usize,
    position: &mut Position<S::Ref>,
) -> Selected
    requires known { CasesKnown (S.space.knows space.now) cases.now }
    requires stands { IsTrue (S.space.stands space.now position.old.term) }
    ensures term { position.new.term ≡ position.old.term }
    ensures selects { (M : Meaning) (n i : ℕ) →
        Selects S.space M (select n (map (case_meant (S.space.symbol_of space.now)) cases.now)
        last) i position.old space.now stacks.old result position.new stacks.new }
{
    for case in cases {
        if has_root(space, &case.root, &position.term) {
            position.address = case.body;
            return Selected::Case(case.otherwise);
        }
        if stacks.left < case.nodes {
            return Selected::Spent;
        }
        stacks.left -= case.nodes;
    }
    position.address = last;
    Selected::NoCase
}
