//! The step of the machine.
ghost use Rattle.std.specs.Prelude.{◌≡◌, ◌<◌, length, IfOk, IsTrue};
ghost use Rattle.prim_registry.specs.Entries.{IsHonest, entries_of};
ghost use Rattle.prim_registry.specs.Registered.{meaning_of};
ghost use Rattle.term_model.specs.Space.{Keeps, KeepsNames};
ghost use Rattle.strat_code.specs.CodeOf.{code_of};
ghost use Rattle.strat_steps.specs.Counted.{StateCounted};
ghost use Rattle.strat_steps.specs.Marks.{Holds, Lasts};
ghost use Rattle.strat_steps.specs.References.{state_tree};
ghost use Rattle.strat_machine.specs.Actions.{IsLoadedProgram};
ghost use Rattle.strat_machine.specs.Opened.{StateOpened, StepOpened};
ghost use Rattle.strat_machine.specs.Running.{GoesOn};
ghost use Rattle.strat_machine.specs.Stacks.{state_of};
ghost use Rattle.strat_machine.specs.declared.stacks.Next.TheVariants.{Running};

use crate::failing::fail;
use crate::patterns::{perform_build, perform_call, perform_match};
use crate::primitives::perform_primitive;
use crate::program::{Action, LoadedInstr, LoadedProgram};
use crate::select::{Selected, perform_select};
use crate::stacks::{Next, Position, Scratch, Stacks};
use crate::steps::{
    call_parameter, commit_choice, enter_scope, extend_scope, leave_argument, leave_definition,
    leave_scope, put_choice, shrink_scope,
};
use crate::traversals::{end_part, traverse_parts};
use prim_registry::{PrimMeaning, Registry};
use std::alloc::{AllocError, Global};
use strat_code::Code;
use term_model::TermSpace;

/// Takes a step: performs the instruction at the position, or deals with a failure. A run that has ended stays.
pub(crate) fn step<S: TermSpace, M: PrimMeaning>(
    space: &mut S,
    alloc: Global,
    stacks: &mut Stacks<S::Ref, S::Mark>,
    code: &Code,
    program: &LoadedProgram<S::Name>,
    registry: &Registry<M>,
    next: Next,
    position: &mut Position<S::Ref>,
    scratch: &mut Scratch<S::Ref>,
) -> Result<Next, AllocError>
    requires going { GoesOn next }
    requires holds { Holds S.space space.old (state_of next position.old stacks.old) }
    requires counted { StateCounted (state_tree (S.space.term_of space.old)
        (state_of next position.old stacks.old)) }
    requires opened { StateOpened S.space space.old (state_of next position.old stacks.old) }
    requires honest { IsHonest M.answer registry.now }
    requires loaded { IsLoadedProgram (S.space.knows space.old) (S.space.symbol_of space.old)
        (entries_of registry.now)
        S.space.number_of program.now code.now.tables code.now.instrs }
    ensures names { KeepsNames S.space space.old space.new }
    ensures lasting { (r : S.Ref) → Lasts S.space r space.old
        (state_of next position.old stacks.old) →
        IsTrue (S.space.stands space.new r) ×
        (S.space.term_of space.new r ≡ S.space.term_of space.old r) }
    ensures step { IfOk result (λ after. StepOpened S.space
        (code_of code.now.tables code.now.instrs) (meaning_of M.answer registry.now)
        space.old (state_of next position.old stacks.old)
        space.new (state_of after position.new stacks.new)) }
{
    match next {
        Next::Running => {
            let instrs = program.instrs.as_slice();
            if position.address >= instrs.len() {
                return Ok(Next::Stuck);
            }
            perform(
                space, alloc, stacks, code, program, instrs, registry, position, scratch,
            )
        }
        Next::Failing => fail(space, stacks, position),
        _ => Ok(next),
    }
}

/// Performs the instruction at the position, if the budget suffices for it. The instructions are those of the program.
pub(crate) fn perform<S: TermSpace, M: PrimMeaning>(
    space: &mut S,
    alloc: Global,
    stacks: &mut Stacks<S::Ref, S::Mark>,
    code: &Code,
    program: &LoadedProgram<S::Name>,
    instrs: &[LoadedInstr<S::Name>],
    registry: &Registry<M>,
    position: &mut Position<S::Ref>,
    scratch: &mut Scratch<S::Ref>,
) -> Result<Next, AllocError>
    requires instrs { instrs.now ≡ program.now.instrs.items }
    requires in_range { position.old.address < length instrs.now }
    requires holds { Holds S.space space.old (state_of Running position.old stacks.old) }
    requires counted { StateCounted (state_tree (S.space.term_of space.old)
        (state_of Running position.old stacks.old)) }
    requires opened { StateOpened S.space space.old (state_of Running position.old stacks.old) }
    requires honest { IsHonest M.answer registry.now }
    requires loaded { IsLoadedProgram (S.space.knows space.old) (S.space.symbol_of space.old)
        (entries_of registry.now)
        S.space.number_of program.now code.now.tables code.now.instrs }
    ensures keeps { Keeps S.space space.old space.new }
    ensures step { IfOk result (λ after. StepOpened S.space
        (code_of code.now.tables code.now.instrs) (meaning_of M.answer registry.now)
        space.old (state_of Running position.old stacks.old)
        space.new (state_of after position.new stacks.new)) }
{
    let instr = &instrs[position.address];
    if stacks.left < instr.nodes {
        return Ok(Next::Spent);
    }
    stacks.left -= instr.nodes;
    position.address += 1;
    match &instr.action {
        Action::Count => Ok(Next::Running),
        Action::GiveUp => Ok(Next::Failing),
        Action::Match(pattern) => perform_match(space, alloc, stacks, pattern, position),
        Action::Build(pattern) => perform_build(space, alloc, stacks, pattern, position, scratch),
        Action::Enter { places } => {
            enter_scope::<S>(stacks, *places, position)?;
            Ok(Next::Running)
        }
        Action::Leave => Ok(leave_scope::<S>(stacks, position)),
        Action::Extend { places } => {
            extend_scope::<S>(stacks, *places, position)?;
            Ok(Next::Running)
        }
        Action::Shrink { places } => Ok(shrink_scope::<S>(stacks, *places, position)),
        Action::Try { .. } | Action::Select { .. } => {
            let otherwise = match &instr.action {
                Action::Try { otherwise } => *otherwise,
                Action::Select {
                    table,
                    skipped,
                    last,
                } => {
                    let tables = program.tables.as_slice();
                    match perform_select(space, stacks, tables, *table, *skipped, *last, position) {
                        Selected::NoCase => return Ok(Next::Running),
                        Selected::Spent => return Ok(Next::Spent),
                        Selected::Case(otherwise) => otherwise,
                    }
                }
                _ => unreachable!(),
            };
            put_choice(space, stacks, otherwise, position)?;
            Ok(Next::Running)
        }
        Action::Commit { next_address } => {
            Ok(commit_choice::<S>(stacks, *next_address, position))
        }
        Action::Jump { next_address } => {
            position.address = *next_address;
            Ok(Next::Running)
        }
        Action::Traverse {
            traversal,
            next_address,
        } => traverse_parts(space, alloc, stacks, *traversal, *next_address, position),
        Action::PartDone => end_part(space, alloc, stacks, position),
        Action::CallDefinition {
            callee,
            arguments,
            terms,
        } => perform_call(
            space, alloc, stacks, callee, arguments, terms, position, scratch,
        ),
        Action::CallClosure { closure } => {
            call_parameter::<S>(stacks, *closure, position)?;
            Ok(Next::Running)
        }
        Action::EndDefinition => Ok(leave_definition::<S>(stacks, position)),
        Action::EndArgument => Ok(leave_argument::<S>(stacks, position)),
        Action::ApplyPrimitive { index, terms } => perform_primitive(
            space, alloc, stacks, registry, *index, terms, position, scratch,
        ),
        Action::Finish => Ok(Next::Rewritten),
    }
}
