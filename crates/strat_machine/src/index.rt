//! An index of a table's cases, by which the first case that has a term's root is found without a walk.
ghost use Rattle.std.specs.Prelude.{◌≡◌, ◌<◌, ◌≤◌, ℕ, true, [], length, Some, IfOk, OnOk, IfSome, IsTrue};
ghost use Rattle.std.specs.List.Sorted.{IsNonDecreasing};
ghost use Rattle.core_lang.specs.Roots as roots;
ghost use Rattle.strat_machine.specs.Indexing.{AreGrouped, IsFirst, IsFirstIn, IsIndex, PutsInto, group_at, number_in, sums_from};
ghost use Rattle.strat_machine.specs.Tables.{CasesKnown, RootKnown, case_has, root_meant};
ghost use Rattle.strat_machine.specs.declared.tables.LoadedRoot.{LoadedRoot};

use crate::roots::has_root;
use crate::tables::{LoadedCase, LoadedRoot};
use std::alloc::{AllocError, Global};
use term_model::TermSpace;

/// So few cases are found by a walk.
const FEW: usize = 4;

/// The cases by the numbers of their roots, each in one list. A list rises.
#[derive(Drop)]
pub(crate) struct Groups {
    /// A case whose root has a number is in the list at the remainder of the number by how many lists there are.
    closed: Vec<Vec<usize>>,
    /// The others: terms of several numbers have their roots.
    open: Vec<usize>,
}

/// An index of cases.
#[derive(Drop)]
pub(crate) struct Index {
    /// For each number of cases, from none to all, the nodes of that many of the first ones.
    pub(crate) sums: Vec<usize>,
    groups: Groups,
}

/// The index of the cases; none where they are few, or where all their nodes are no `usize`.
pub(crate) fn index_cases<S: TermSpace>(
    space: &S,
    alloc: Global,
    cases: &[LoadedCase<S::Name>],
) -> Result<Option<Index>, AllocError>
    requires known { CasesKnown (S.space.knows space.now) cases.now }
    ensures { IfOk result (λ x. IfSome x (IsIndex S.space.number_of cases.now)) }
{
    if cases.len() <= FEW {
        return Ok(None);
    }
    let Some(sums) = sums_of(alloc, cases)? else {
        return Ok(None);
    };
    let groups = group_cases(space, alloc, cases)?;
    Ok(Some(Index { sums, groups }))
}

/// For each number of cases, from none to all, the nodes of that many of the first ones, if they are numbers of 64 bits.
fn sums_of<N>(alloc: Global, cases: &[LoadedCase<N>]) -> Result<Option<Vec<usize>>, AllocError>
    ensures { IfOk result (λ x. IfSome x (λ s. s.items ≡ sums_from 0 cases.now)) }
{
    let mut sums = Vec::new(alloc);
    let mut sum: usize = 0;
    for case in cases {
        sums.push(sum)?;
        let Some(next) = sum.checked_add(case.nodes) else {
            return Ok(None);
        };
        sum = next;
    }
    sums.push(sum)?;
    Ok(Some(sums))
}

/// Puts each case into the group of its number.
fn group_cases<S: TermSpace>(
    space: &S,
    alloc: Global,
    cases: &[LoadedCase<S::Name>],
) -> Result<Groups, AllocError>
    requires known { CasesKnown (S.space.knows space.now) cases.now }
    requires some { 0 < length cases.now }
    ensures { IfOk result (AreGrouped S.space.number_of cases.now) }
{
    let closed = empty_groups(alloc, cases.len())?;
    let mut groups = Groups {
        closed,
        open: Vec::new(alloc),
    };
    for (entry, case) in cases.iter().enumerate() {
        let number = number_of_root(space, &case.root);
        put_into(&mut groups, number, entry)?;
    }
    Ok(groups)
}

/// So many empty groups.
fn empty_groups(alloc: Global, count: usize) -> Result<Vec<Vec<usize>>, AllocError>
    ensures many { IfOk result (λ gs. length gs.items ≡ count) }
    ensures empty { IfOk result (λ gs. (k : ℕ) → group_at gs.items k ≡ []) }
{
    let mut groups = Vec::new(alloc);
    for _i in 0..count {
        groups.push(Vec::new(alloc))?;
    }
    Ok(groups)
}

/// Puts a case into the group of its number.
fn put_into(groups: &mut Groups, number: Option<usize>, entry: usize) -> Result<(), AllocError>
    requires { 0 < length groups.old.closed.items }
    ensures { OnOk result (PutsInto groups.old number entry groups.new) }
{
    let Some(number) = number else {
        groups.open.push(entry)?;
        return Ok(());
    };
    let at = number % groups.closed.len();
    groups.closed[at].push(entry)?;
    Ok(())
}

/// The number by which a root is found.
fn number_of_root<S: TermSpace>(space: &S, root: &LoadedRoot<S::Name>) -> Option<usize>
    requires { RootKnown (S.space.knows space.now) root.now }
    ensures { result ≡ number_in S.space.number_of root.now }
{
    match root {
        LoadedRoot::Any => None,
        LoadedRoot::Integer(value) => Some(value.unsigned_abs() as usize),
        LoadedRoot::Symbol(name, _) => Some(space.number(name)),
        LoadedRoot::List(count, open) => {
            if *open {
                return None;
            }
            Some(*count)
        }
    }
}

/// The number of a term: that of each root with a number that it has.
fn number_of_term<S: TermSpace>(space: &S, at: &S::Ref) -> usize
    requires { IsTrue (S.space.stands space.now at.now) }
    ensures { (r : LoadedRoot S.Name) (n : ℕ) → RootKnown (S.space.knows space.now) r →
        number_in S.space.number_of r ≡ Some n →
        roots.has_root (root_meant (S.space.symbol_of space.now) r)
        (S.space.term_of space.now at.now) ≡ true → n ≡ result }
{
    if let Some(value) = space.int_of(at) {
        return value.unsigned_abs() as usize;
    }
    if let Some(count) = space.list_len(at) {
        return count;
    }
    space.root_number(at).unwrap_or(0)
}

/// The number of the first case, from `skipped` on, that has the term's root; how many cases there are where none has it.
pub(crate) fn find_case<S: TermSpace>(
    space: &S,
    cases: &[LoadedCase<S::Name>],
    index: &Index,
    skipped: usize,
    term: &S::Ref,
) -> usize
    requires known { CasesKnown (S.space.knows space.now) cases.now }
    requires index { IsIndex S.space.number_of cases.now index.now }
    requires skipped { skipped ≤ length cases.now }
    requires stands { IsTrue (S.space.stands space.now term.now) }
    ensures { IsFirst (case_has (S.space.symbol_of space.now) (S.space.term_of space.now term.now))
        cases.now skipped result }
{
    let groups = &index.groups;
    let limit = first_in(space, cases, &groups.open, skipped, cases.len(), term);
    let number = number_of_term(space, term);
    let group = &groups.closed[number % groups.closed.len()];
    first_in(space, cases, group, skipped, limit, term)
}

/// The first entry of the list, from `skipped` on and below the limit, whose case has the term's root; the limit where there is
/// none.
fn first_in<S: TermSpace>(
    space: &S,
    cases: &[LoadedCase<S::Name>],
    list: &[usize],
    skipped: usize,
    limit: usize,
    term: &S::Ref,
) -> usize
    requires known { CasesKnown (S.space.knows space.now) cases.now }
    requires rising { IsNonDecreasing list.now }
    requires limit { limit ≤ length cases.now }
    requires stands { IsTrue (S.space.stands space.now term.now) }
    ensures { IsFirstIn (case_has (S.space.symbol_of space.now)
        (S.space.term_of space.now term.now)) cases.now list.now skipped limit result }
{
    if list.is_empty() {
        return limit;
    }
    first_after(space, cases, list, skipped, limit, term)
}

/// The same in a list of any length.
fn first_after<S: TermSpace>(
    space: &S,
    cases: &[LoadedCase<S::Name>],
    list: &[usize],
    skipped: usize,
    limit: usize,
    term: &S::Ref,
) -> usize
    requires known { CasesKnown (S.space.knows space.now) cases.now }
    requires rising { IsNonDecreasing list.now }
    requires limit { limit ≤ length cases.now }
    requires stands { IsTrue (S.space.stands space.now term.now) }
    ensures { IsFirstIn (case_has (S.space.symbol_of space.now)
        (S.space.term_of space.now term.now)) cases.now list.now skipped limit result }
{
    let start = list.partition_point(|entry| *entry < skipped);
    first_of(space, cases, &list[start..], limit, term)
}

/// The first entry of the list below the limit whose case has the term's root; the limit where there is none.
fn first_of<S: TermSpace>(
    space: &S,
    cases: &[LoadedCase<S::Name>],
    list: &[usize],
    limit: usize,
    term: &S::Ref,
) -> usize
    requires known { CasesKnown (S.space.knows space.now) cases.now }
    requires rising { IsNonDecreasing list.now }
    requires limit { limit ≤ length cases.now }
    requires stands { IsTrue (S.space.stands space.now term.now) }
    ensures { IsFirstIn (case_has (S.space.symbol_of space.now)
        (S.space.term_of space.now term.now)) cases.now list.now 0 limit result }
{
    for entry in list {
        if *entry >= limit {
            return limit;
        }
        if has_root(space, &cases[*entry].root, term) {
            return *entry;
        }
    }
    limit
}
