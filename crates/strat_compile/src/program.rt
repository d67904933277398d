//! From cores to code.
ghost use Rattle.std.specs.Prelude.{◌≡◌, ◌≤◌, ◌+◌, ◌*◌, IfOk, IfSome};
ghost use Rattle.core_lang.specs.Core.{program_of};
ghost use Rattle.core_lang.specs.Views.{definitions_of};
ghost use Rattle.strat_code.specs.CodeOf.{code_of};
ghost use Rattle.strat_code.specs.StandsFor.{StandsFor};
ghost use Rattle.strat_compile.specs.Emission.{EmitsProgram};
ghost use Rattle.strat_compile.specs.Output.{emitted_of};
ghost use Rattle.strat_compile.specs.Size as spec;
ghost use Rattle.strat_compile.specs.Size.{IsLinear, code_allowance, code_growth, code_size};

use crate::callee::entry_at;
use crate::calls::emit_ordinary_call;
use crate::code_size::code_fits;
use crate::emit::{DEEPEST, emit_bodies};
use crate::layers::Layers;
use crate::names::copy_names;
use crate::output::Output;
use crate::program_size::program_size;
use crate::recursion::recursive_definitions;
use crate::sources::{Marked, Sources};
use core_lang::{Coordinate, Core, CoreDef};
use std::alloc::{AllocError, Global};
use strat_code::{Code, Instr};

/// Returns code that stands for the core: it runs as the core's program does, with as many rules. Its primitives are those of
/// the core.
///
/// The code begins with the call of main and the end of the run; then come the bodies of the definitions. Where the strategy
/// arguments of a call are known, it may be made in place or as a call of a specialization; code is at most 10 times as large as the core,
/// and 12,400. Compiling takes one step for each part of the core and of what is made in place, at most 1,800 further steps for each call,
/// to see how large that would be, and a number of further steps that is the same for all programs at most, to look through alternatives.
/// It recurses where parts are nested and along what is in place, at most 64 parts deep, not along sequences, alternatives or arguments.
/// `AllocError` where memory is refused, or where code would be larger even with each call as a call, which does not happen.
pub fn compile(alloc: Global, core: &Core) -> Result<Code, AllocError>
    ensures stands { IfOk result (λ code.
        StandsFor (code_of code.tables code.instrs) (program_of core.now) core.now.main) }
    ensures prims { IfOk result (λ code. code.prims ≡ core.now.prims) }
    ensures bounded { IfOk result (λ code.
        IsLinear (code_of code.tables code.instrs) (program_of core.now)) }
{
    let most = largest_code(core);
    if let Some(code) = code_within(alloc, core, most, false, None)? {
        return Ok(code);
    }
    let Some(code) = code_within(alloc, core, most, true, None)? else {
        return Err(AllocError);
    };
    Ok(code)
}

/// Makes code by which a run can be explained: as `compile` does, but each call of the core is a call of the code, and the code has marks of
/// where its strategies stand in the definition file. `AllocError` in the same cases.
pub fn compile_with_marks(alloc: Global, core: &Core) -> Result<Code, AllocError>
    ensures stands { IfOk result (λ code.
        StandsFor (code_of code.tables code.instrs) (program_of core.now) core.now.main) }
    ensures prims { IfOk result (λ code. code.prims ≡ core.now.prims) }
    ensures bounded { IfOk result (λ code.
        IsLinear (code_of code.tables code.instrs) (program_of core.now)) }
{
    let sources = Sources::new(alloc, core, false)?;
    compile_marked(alloc, core, sources)
}

/// Makes code by which a run can be counted: as `compile_with_marks` does, but no selection passes a call by. So each alternative of a
/// definition is tried as often as the derivation tries it. `AllocError` where the memory for it is refused.
pub fn compile_for_counts(alloc: Global, core: &Core) -> Result<Code, AllocError>
    ensures stands { IfOk result (λ code.
        StandsFor (code_of code.tables code.instrs) (program_of core.now) core.now.main) }
    ensures prims { IfOk result (λ code. code.prims ≡ core.now.prims) }
    ensures bounded { IfOk result (λ code.
        IsLinear (code_of code.tables code.instrs) (program_of core.now)) }
{
    let sources = Sources::new(alloc, core, true)?;
    compile_marked(alloc, core, sources)
}

/// Makes code that keeps each call, and marks in it what the sources say.
fn compile_marked(alloc: Global, core: &Core, sources: Sources) -> Result<Code, AllocError>
    ensures stands { IfOk result (λ code.
        StandsFor (code_of code.tables code.instrs) (program_of core.now) core.now.main) }
    ensures prims { IfOk result (λ code. code.prims ≡ core.now.prims) }
    ensures bounded { IfOk result (λ code.
        IsLinear (code_of code.tables code.instrs) (program_of core.now)) }
{
    let most = largest_code(core);
    let Some(code) = code_within(alloc, core, most, true, Some(sources))? else {
        return Err(AllocError);
    };
    Ok(code)
}

/// How many times as large as its core code is at most, beside [`ALLOWANCE`]: 5 times outside of expansions, since each strategy is emitted
/// once there and has 5 instructions at most, those of a conditional in place of an open call; and the code of expansions is at most as large
/// as that, beside the allowance.
const GROWTH: usize = 10;

/// How large code is at most beside that: 10,000 for expansions, and 2,400 for the last of them, which begins while there is room for the 600
/// strategies and nodes that it may have, each with 5 instructions at most.
const ALLOWANCE: usize = 12_400;

/// Returns how large the code of a core may be.
fn largest_code(core: &Core) -> usize
    ensures { result ≤ code_growth * spec.program_size (program_of core.now) + code_allowance }
{
    let size = program_size(core.defs());
    size.saturating_mul(GROWTH).saturating_add(ALLOWANCE)
}

/// Returns the code of a core, unless it is larger than `most`.
fn code_within(
    alloc: Global,
    core: &Core,
    most: usize,
    keeps_calls: bool,
    sources: Option<Sources>,
) -> Result<Option<Code>, AllocError>
    ensures stands { IfOk result (λ found. IfSome found (λ code.
        StandsFor (code_of code.tables code.instrs) (program_of core.now) core.now.main)) }
    ensures prims { IfOk result (λ found. IfSome found (λ code. code.prims ≡ core.now.prims)) }
    ensures within { IfOk result (λ found. IfSome found (λ code.
        code_size (code_of code.tables code.instrs) ≤ most)) }
{
    let code = compile_with_sources(alloc, core, keeps_calls, sources)?;
    let mut left = most;
    if !code_fits(code.instrs(), &mut left) {
        return Ok(None);
    }
    Ok(Some(code))
}

fn compile_with_sources(
    alloc: Global,
    core: &Core,
    keeps_calls: bool,
    sources: Option<Sources>,
) -> Result<Code, AllocError>
    ensures stands { IfOk result (λ code.
        StandsFor (code_of code.tables code.instrs) (program_of core.now) core.now.main) }
    ensures prims { IfOk result (λ code. code.prims ≡ core.now.prims) }
{
    let prims = copy_names(alloc, core.prims())?;
    let output = emit_program(alloc, core.defs(), core.main(), keeps_calls, sources)?;
    let finished = output.finish(alloc)?;
    let Marked { marks, entries } = finished.marked;
    Ok(Code::new(finished.instrs, finished.tables, prims, marks, entries))
}

fn emit_program(
    alloc: Global,
    defs: &[CoreDef],
    main: usize,
    keeps_calls: bool,
    sources: Option<Sources>,
) -> Result<Output, AllocError>
    ensures { IfOk result (λ made. EmitsProgram (definitions_of defs.now) main (emitted_of made)) }
{
    let recursive = recursive_definitions(alloc, defs)?;
    let mut out = Output::new(alloc, recursive, keeps_calls, sources);
    let outermost = Layers::Outermost;
    let program = Layers::Defining {
        defs: &*defs,
        first_label: 0,
        outer: &outermost,
    };
    let main = Coordinate {
        layers_up: 0,
        slot: main,
    };
    out.add_labels(defs.len())?;
    let entry = entry_at(defs, 0, main.slot)?;
    emit_bodies(alloc, &mut out, &program, 0, defs, DEEPEST)?;
    out.emit(Instr::Finish)?;
    emit_ordinary_call(alloc, &mut out, &program, 0, main, &[], &[], entry, DEEPEST)?;
    Ok(out)
}
