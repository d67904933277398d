//! The tables that selections select from, with the space's names in place of symbols.
ghost use Rattle.std.specs.Prelude.{IfOk, map};
ghost use Rattle.term_model.specs.Space.{Keeps, MakesNone};
ghost use Rattle.strat_code.specs.CodeOf.{case_of, root_of};
ghost use Rattle.strat_machine.specs.Tables.{AreLoadedCases, AreLoadedTables, IsLoadedRoot, IsLoadedTable};

use crate::index::{Index, index_cases};
use std::alloc::{AllocError, Global};
use strat_code::{Case, Root};
use term_model::TermSpace;

/// What a case asks of a term's root, as in code, with the names of a space.
#[derive(Drop)]
pub(crate) enum LoadedRoot<N> {
    Any,
    Integer(i64),
    Symbol(N, usize),
    List(usize, bool),
}

/// A case, as in code, with the names of a space.
#[derive(Drop)]
pub(crate) struct LoadedCase<N> {
    pub(crate) root: LoadedRoot<N>,
    pub(crate) nodes: usize,
    pub(crate) body: usize,
    pub(crate) otherwise: usize,
}

/// A table of cases, with an index unless they are few.
#[derive(Drop)]
pub(crate) struct LoadedTable<N> {
    pub(crate) cases: Vec<LoadedCase<N>>,
    pub(crate) index: Option<Index>,
}

/// Brings the names of tables in, and makes their indexes.
pub(crate) fn load_tables<S: TermSpace>(
    space: &mut S,
    alloc: Global,
    tables: &[Vec<Case>],
) -> Result<Vec<LoadedTable<S::Name>>, AllocError>
    ensures keeps { Keeps S.space space.old space.new }
    ensures none { MakesNone S.space space.old space.new }
    ensures loaded { IfOk result (λ ts. AreLoadedTables (S.space.knows space.new)
        (S.space.symbol_of space.new) S.space.number_of ts.items tables.now) }
{
    let mut loaded = Vec::new(alloc);
    for table in tables {
        let table = load_table(space, alloc, table)?;
        loaded.push(table)?;
    }
    Ok(loaded)
}

/// Brings the names of a table in, and makes its index.
fn load_table<S: TermSpace>(
    space: &mut S,
    alloc: Global,
    cases: &[Case],
) -> Result<LoadedTable<S::Name>, AllocError>
    ensures keeps { Keeps S.space space.old space.new }
    ensures none { MakesNone S.space space.old space.new }
    ensures loaded { IfOk result (λ t. IsLoadedTable (S.space.knows space.new)
        (S.space.symbol_of space.new) S.space.number_of t (map case_of cases.now)) }
{
    let loaded = load_cases(space, alloc, cases)?;
    let index = index_cases(space, alloc, &loaded)?;
    Ok(LoadedTable {
        cases: loaded,
        index,
    })
}

/// Brings the names of cases in.
fn load_cases<S: TermSpace>(
    space: &mut S,
    alloc: Global,
    cases: &[Case],
) -> Result<Vec<LoadedCase<S::Name>>, AllocError>
    ensures keeps { Keeps S.space space.old space.new }
    ensures none { MakesNone S.space space.old space.new }
    ensures loaded { IfOk result (λ cs. AreLoadedCases (S.space.knows space.new)
        (S.space.symbol_of space.new) cs.items (map case_of cases.now)) }
{
    let mut loaded = Vec::new(alloc);
    for case in cases {
        let root = load_root(space, alloc, &case.root)?;
        loaded.push(LoadedCase {
            root,
            nodes: case.nodes,
            body: case.body,
            otherwise: case.otherwise,
        })?;
    }
    Ok(loaded)
}

/// Brings the name of a root in, if it has one.
fn load_root<S: TermSpace>(
    space: &mut S,
    alloc: Global,
    root: &Root,
) -> Result<LoadedRoot<S::Name>, AllocError>
    ensures keeps { Keeps S.space space.old space.new }
    ensures none { MakesNone S.space space.old space.new }
    ensures loaded { IfOk result (λ r. IsLoadedRoot (S.space.knows space.new)
        (S.space.symbol_of space.new) r (root_of root.now)) }
{
    match root {
        Root::Any => Ok(LoadedRoot::Any),
        Root::Integer(value) => Ok(LoadedRoot::Integer(*value)),
        Root::Symbol(symbol, count) => {
            let name = space.name(alloc, symbol)?;
            Ok(LoadedRoot::Symbol(name, *count))
        }
        Root::List(count, open) => Ok(LoadedRoot::List(*count, *open)),
    }
}
