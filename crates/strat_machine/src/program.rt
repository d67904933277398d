//! A loaded program: code whose instructions hold all that they need of a space and a registry.
ghost use Rattle.std.specs.Prelude.{◌≡◌, IfOk, List, Vec};
ghost use Rattle.std.specs.declared.alloc.Global.{Global};
ghost use Rattle.term_model.specs.Space.{Keeps, MakesNone};
ghost use Rattle.prim_registry.specs.Entries.{entries_of};
ghost use Rattle.strat_code.specs.declared.instr.Case.{Case};
ghost use Rattle.strat_code.specs.Code.{nodes_of};
ghost use Rattle.strat_code.specs.CodeOf.{instr_of};
ghost use Rattle.strat_machine.specs.Actions.{AreLoadedInstrs, IsAction, IsLoadedProgram};

use crate::calls::Callee;
use crate::tables::{LoadedTable, load_tables};
use core_lang::Coordinate;
use prim_registry::{PrimMeaning, Registry};
use std::alloc::{AllocError, Global};
use strat_code::{Argument, Code, Instr, Traversal};
use strat_patterns::{LoadedPattern, load_pattern, load_patterns};
use term_model::TermSpace;

/// An instruction of a loaded program: the nodes that it is charged, and what it does.
#[derive(Drop)]
pub(crate) struct LoadedInstr<N> {
    pub(crate) nodes: usize,
    pub(crate) action: Action<N>,
}

/// What an instruction does, as in code, but with names of a space in patterns, and with the place of a primitive in the registry, if it is
/// there.
#[derive(Drop)]
pub(crate) enum Action<N> {
    Count,
    GiveUp,
    Match(LoadedPattern<N>),
    Build(LoadedPattern<N>),
    Enter {
        places: usize,
    },
    Leave,
    Extend {
        places: usize,
    },
    Shrink {
        places: usize,
    },
    Try {
        otherwise: usize,
    },
    Commit {
        next_address: usize,
    },
    Select {
        table: usize,
        skipped: usize,
        last: usize,
    },
    Jump {
        next_address: usize,
    },
    Traverse {
        traversal: Traversal,
        next_address: usize,
    },
    PartDone,
    CallDefinition {
        callee: Callee,
        arguments: Vec<Argument>,
        terms: Vec<LoadedPattern<N>>,
    },
    CallClosure {
        closure: Coordinate,
    },
    EndDefinition,
    EndArgument,
    ApplyPrimitive {
        index: Option<usize>,
        terms: Vec<LoadedPattern<N>>,
    },
    Finish,
}

/// The instructions of code, loaded, and the tables that they select from.
#[derive(Drop)]
pub(crate) struct LoadedProgram<N> {
    pub(crate) instrs: Vec<LoadedInstr<N>>,
    pub(crate) tables: Vec<LoadedTable<N>>,
}

/// Brings the names of code in, and looks its primitives up.
pub(crate) fn load_program<S: TermSpace, M: PrimMeaning>(
    space: &mut S,
    alloc: Global,
    code: &Code,
    registry: &Registry<M>,
) -> Result<LoadedProgram<S::Name>, AllocError>
    ensures keeps { Keeps S.space space.old space.new }
    ensures none { MakesNone S.space space.old space.new }
    ensures loaded { IfOk result (λ l. IsLoadedProgram (S.space.knows space.new)
        (S.space.symbol_of space.new)
        (entries_of registry.now) S.space.number_of l code.now.tables code.now.instrs) }
{
    let tables = load_tables(space, alloc, code.tables())?;
    let instrs = load_instrs(space, alloc, code.instrs(), registry)?;
    Ok(LoadedProgram { instrs, tables })
}

/// Loads instructions.
fn load_instrs<S: TermSpace, M: PrimMeaning>(
    space: &mut S,
    alloc: Global,
    instrs: &[Instr],
    registry: &Registry<M>,
) -> Result<Vec<LoadedInstr<S::Name>>, AllocError>
    ensures keeps { Keeps S.space space.old space.new }
    ensures none { MakesNone S.space space.old space.new }
    ensures loaded { IfOk result (λ xs. AreLoadedInstrs (S.space.knows space.new)
        (S.space.symbol_of space.new)
        (entries_of registry.now) xs.items instrs.now) }
{
    let mut loaded = Vec::new(alloc);
    for instr in instrs {
        let action = load_action(space, alloc, instr, registry)?;
        loaded.push(LoadedInstr {
            nodes: nodes(instr),
            action,
        })?;
    }
    Ok(loaded)
}

/// Loads what an instruction does.
fn load_action<S: TermSpace, M: PrimMeaning>(
    space: &mut S,
    alloc: Global,
    instr: &Instr,
    registry: &Registry<M>,
) -> Result<Action<S::Name>, AllocError>
    ensures keeps { Keeps S.space space.old space.new }
    ensures none { MakesNone S.space space.old space.new }
    ensures loaded { IfOk result (λ action.
        IsAction (S.space.knows space.new) (S.space.symbol_of space.new)
        (entries_of registry.now) action instr.now) }
{
    match instr {
        Instr::Count { .. } => Ok(Action::Count),
        Instr::GiveUp { .. } => Ok(Action::GiveUp),
        Instr::Match { pattern, .. } => {
            let pattern = load_pattern(space, alloc, pattern)?;
            Ok(Action::Match(pattern))
        }
        Instr::Build { pattern, .. } => {
            let pattern = load_pattern(space, alloc, pattern)?;
            Ok(Action::Build(pattern))
        }
        Instr::Enter { places, .. } => Ok(Action::Enter { places: *places }),
        Instr::Leave => Ok(Action::Leave),
        Instr::Extend { places, .. } => Ok(Action::Extend { places: *places }),
        Instr::Shrink { places } => Ok(Action::Shrink { places: *places }),
        Instr::Try { otherwise, .. } => Ok(Action::Try {
            otherwise: *otherwise,
        }),
        Instr::Commit { next_address, .. } => Ok(Action::Commit {
            next_address: *next_address,
        }),
        Instr::Select {
            table,
            skipped,
            last,
            ..
        } => Ok(Action::Select {
            table: *table,
            skipped: *skipped,
            last: *last,
        }),
        Instr::Jump { next_address } => Ok(Action::Jump {
            next_address: *next_address,
        }),
        Instr::Traverse {
            traversal,
            next_address,
            ..
        } => Ok(Action::Traverse {
            traversal: *traversal,
            next_address: *next_address,
        }),
        Instr::PartDone => Ok(Action::PartDone),
        Instr::CallDefinition {
            frames,
            entry,
            room,
            next_address,
            arguments,
            terms,
            ..
        } => {
            let callee = Callee {
                frames: *frames,
                entry: *entry,
                room: *room,
                next_address: *next_address,
            };
            let arguments = Vec::from_slice(alloc, arguments)?;
            let terms = load_patterns(space, alloc, terms)?;
            Ok(Action::CallDefinition {
                callee,
                arguments,
                terms,
            })
        }
        Instr::CallClosure { closure, .. } => Ok(Action::CallClosure { closure: *closure }),
        Instr::EndDefinition => Ok(Action::EndDefinition),
        Instr::EndArgument => Ok(Action::EndArgument),
        Instr::ApplyPrimitive { name, terms, .. } => {
            let index = registry.position(name, terms.len());
            let terms = load_patterns(space, alloc, terms)?;
            Ok(Action::ApplyPrimitive { index, terms })
        }
        Instr::Finish => Ok(Action::Finish),
    }
}

/// The nodes that an instruction is charged.
fn nodes(instr: &Instr) -> usize
    ensures { (tables : List (Vec Case Global)) → result ≡ nodes_of (instr_of tables instr.now) }
{
    match instr {
        Instr::Count { nodes } => *nodes,
        Instr::GiveUp { nodes } => *nodes,
        Instr::Match { nodes, .. } => *nodes,
        Instr::Build { nodes, .. } => *nodes,
        Instr::Enter { nodes, .. } => *nodes,
        Instr::Leave => 0,
        Instr::Extend { nodes, .. } => *nodes,
        Instr::Shrink { .. } => 0,
        Instr::Try { nodes, .. } => *nodes,
        Instr::Commit { nodes, .. } => *nodes,
        Instr::Select { nodes, .. } => *nodes,
        Instr::Jump { .. } => 0,
        Instr::Traverse { nodes, .. } => *nodes,
        Instr::PartDone => 0,
        Instr::CallDefinition { nodes, .. } => *nodes,
        Instr::CallClosure { nodes, .. } => *nodes,
        Instr::EndDefinition => 0,
        Instr::EndArgument => 0,
        Instr::ApplyPrimitive { nodes, .. } => *nodes,
        Instr::Finish => 0,
    }
}
