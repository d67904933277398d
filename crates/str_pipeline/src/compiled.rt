//! From the bytes of definitions to their code.
ghost use Rattle.std.specs.Prelude.{◌≡◌, IfOk};
ghost use Rattle.core_lang.specs.Core.{program_of};
ghost use Rattle.strat_code.specs.CodeOf.{code_of};
ghost use Rattle.strat_code.specs.StandsFor.{StandsFor};
ghost use Rattle.prim_registry.specs.RegistryNames.{Covers};
ghost use Rattle.str_parser.specs.Refusals.{map_err};
ghost use Rattle.diagnostics.specs.Refusals.{fault_of};
ghost use Rattle.str_pipeline.specs.Setting.{setting_of};
ghost use Rattle.str_pipeline.specs.Steps.{IsCompiled};

use crate::status::Options;
use core_lang::Core;
use diagnostics::{Refusal, RunNotes};
use keyed_hash::HashKeys;
use prim_registry::{PrimMeaning, Registry};
use scope_check::{Checked, judge};
use std::alloc::{AllocError, Global};
use str_desugar::to_core;
use str_lexer::lex;
use str_parser::parse_file;
use strat_code::Code;
use strat_compile::{compile, compile_for_counts, compile_with_marks};
use strategy_lib::with_library;
use term_model::{Fault, PrimNames};

/// A file in which nothing is wrong, and its code.
#[derive(Drop)]
pub(crate) struct CompiledFile {
    pub(crate) checked: Checked,
    pub(crate) code: Code,
}

/// What code is for.
#[derive(Clone, Copy, Debug, PartialEq, Eq)]
pub(crate) enum Purpose {
    /// To be run.
    Run,
    /// To be explained: its code has marks of where strategies stand.
    Explanation,
    /// To be counted: its selections pass no call by, too.
    Counts,
}

/// Compiles a definition file with the library after it, of which the definition that the options name is run, where there are the
/// primitives of the registry. The refusal is `Memory`, or the first of these: `Lexical` or `ReservedWord`, as `lex` says; `Syntax` or
/// `Nesting`, as `parse` says; and what `check` finds in the file with the library.
pub(crate) fn compile_file<M: PrimMeaning>(
    alloc: Global,
    keys: HashKeys,
    definitions: &[u8],
    options: &Options,
    registry: &Registry<M>,
    purpose: Purpose,
) -> Result<CompiledFile, Refusal>
    ensures program { IsCompiled (setting_of M.answer registry.now options.now)
        definitions.now (map_err fault_of result) }
    ensures covers { IfOk result (λ compiled. Covers registry.now compiled.code.prims) }
{
    let primitives = registry.names(alloc)?;
    let tokens = lex(alloc, definitions)?;
    let file = parse_file(alloc, definitions, &tokens)?;
    let file = with_library(alloc, file)?;
    let checked = judge(alloc, keys, file, &primitives, &options.main)?;
    let core = to_core(alloc, keys, &checked)?;
    // For its contract: these are the primitives that occur in the core.
    let _ = core.prims();
    let code = compile_for(alloc, &core, purpose)?;
    Ok(CompiledFile { checked, code })
}

/// Compiles a definition file to be run, and notes why the file is refused if it is.
pub(crate) fn compile_to_run<M: PrimMeaning>(
    alloc: Global,
    keys: HashKeys,
    definitions: &[u8],
    options: &Options,
    registry: &Registry<M>,
    notes: &mut RunNotes,
) -> Result<CompiledFile, Fault>
    ensures program { IsCompiled (setting_of M.answer registry.now options.now)
        definitions.now result }
    ensures covers { IfOk result (λ compiled. Covers registry.now compiled.code.prims) }
{
    match compile_file(alloc, keys, definitions, options, registry, Purpose::Run) {
        Ok(compiled) => Ok(compiled),
        Err(refusal) => {
            let primitives = registry.names(alloc).unwrap_or(PrimNames::new(alloc));
            notes.note_definitions(alloc, definitions, &refusal, &primitives);
            Err(Fault::from(refusal))
        }
    }
}

/// The code of a core for a purpose.
fn compile_for(alloc: Global, core: &Core, purpose: Purpose) -> Result<Code, AllocError>
    ensures stands { IfOk result (λ code.
        StandsFor (code_of code.tables code.instrs) (program_of core.now) core.now.main) }
    ensures prims { IfOk result (λ code. code.prims ≡ core.now.prims) }
{
    match purpose {
        Purpose::Run => compile(alloc, core),
        Purpose::Explanation => compile_with_marks(alloc, core),
        Purpose::Counts => compile_for_counts(alloc, core),
    }
}
