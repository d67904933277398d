//! From places and labels to addresses, when all is emitted.
ghost use Rattle.std.specs.Prelude.{◌≡◌, IfOk, map, slice_get};
ghost use Rattle.strat_code.specs.CodeOf.{argument_of, case_of, instr_of};
ghost use Rattle.strat_compile.specs.Located.{AreLocated, address, address_if, argument_located, case_located};
ghost use Rattle.strat_compile.specs.Located as spec;

use std::alloc::{AllocError, Global};
use strat_code::{Argument, Case, Instr};

/// The address of a place, in code of `count` instructions.
fn address_of(place: usize, count: usize) -> usize
    ensures { result ≡ address count place }
{
    count.saturating_sub(place)
}

/// The address where the code of a definition starts.
fn address_of_label(label: usize, count: usize, starts: &[usize]) -> usize
    ensures { result ≡ address_if count (slice_get starts.now label) }
{
    match starts.get(label) {
        Some(place) => address_of(*place, count),
        None => 0,
    }
}

fn located_argument(argument: Argument, count: usize) -> Argument
    ensures { argument_of result ≡ argument_located count (argument_of argument) }
{
    match argument {
        Argument::Code(place) => Argument::Code(address_of(place, count)),
        Argument::Parameter(at) => Argument::Parameter(at),
    }
}

fn located_arguments(
    alloc: Global,
    arguments: &[Argument],
    count: usize,
) -> Result<Vec<Argument>, AllocError>
    ensures { IfOk result (λ made. map argument_of made.items ≡
        map (argument_located count) (map argument_of arguments.now)) }
{
    let mut made = Vec::with_capacity(alloc, arguments.len())?;
    for argument in arguments {
        made.push(located_argument(*argument, count))?;
    }
    Ok(made)
}

fn located_case(case: Case, count: usize) -> Case
    ensures { case_of result ≡ case_located count (case_of case) }
{
    let Case {
        root,
        nodes,
        body,
        otherwise,
    } = case;
    Case {
        root,
        nodes,
        body: address_of(body, count),
        otherwise: address_of(otherwise, count),
    }
}

fn located_cases(alloc: Global, cases: Vec<Case>, count: usize) -> Result<Vec<Case>, AllocError>
    ensures { IfOk result (λ made. map case_of made.items ≡
        map (case_located count) (map case_of cases.items)) }
{
    let mut made = Vec::with_capacity(alloc, cases.len())?;
    for case in cases {
        made.push(located_case(case, count))?;
    }
    Ok(made)
}

/// The tables with addresses in place of places, in code of `count` instructions.
#[tactic(auto, using(crate::proofs::TableLaws::are_located))]
pub(crate) fn located_tables(
    alloc: Global,
    tables: Vec<Vec<Case>>,
    count: usize,
) -> Result<Vec<Vec<Case>>, AllocError>
    ensures { IfOk result (λ made. AreLocated count tables.items made.items) }
{
    let mut made = Vec::with_capacity(alloc, tables.len())?;
    for cases in tables {
        made.push(located_cases(alloc, cases, count)?)?;
    }
    Ok(made)
}

/// The instruction with addresses in place of places and labels, in code of `count` instructions; those in tables
/// are put in there.
pub(crate) fn locate(
    alloc: Global,
    instr: Instr,
    count: usize,
    starts: &[usize],
) -> Result<Instr, AllocError>
    ensures { IfOk result (λ made. (ts us : _) → AreLocated count ts us → instr_of us made ≡
        spec.located count starts.now (instr_of ts instr)) }
{
    let made = match instr {
        Instr::Try { nodes, otherwise } => {
            let otherwise = address_of(otherwise, count);
            Instr::Try { nodes, otherwise }
        }
        Instr::Commit {
            nodes,
            next_address,
        } => {
            let next_address = address_of(next_address, count);
            Instr::Commit {
                nodes,
                next_address,
            }
        }
        Instr::Select {
            nodes,
            table,
            skipped,
            last,
        } => {
            let last = address_of(last, count);
            Instr::Select {
                nodes,
                table,
                skipped,
                last,
            }
        }
        Instr::Jump { next_address } => {
            let next_address = address_of(next_address, count);
            Instr::Jump { next_address }
        }
        Instr::Traverse {
            nodes,
            traversal,
            next_address,
        } => {
            let next_address = address_of(next_address, count);
            Instr::Traverse {
                nodes,
                traversal,
                next_address,
            }
        }
        Instr::CallDefinition {
            nodes,
            frames,
            entry,
            room,
            next_address,
            arguments,
            terms,
        } => {
            let arguments = located_arguments(alloc, arguments.as_slice(), count)?;
            Instr::CallDefinition {
                nodes,
                frames,
                entry: address_of_label(entry, count, starts),
                room,
                next_address: address_of(next_address, count),
                arguments,
                terms,
            }
        }
        other => other,
    };
    Ok(made)
}
