//! The code of a small program, which was worked out by hand.
ghost use Rattle.std.specs.Prelude.{◌≡◌, [], IfOk, map};
ghost use Rattle.core_lang.specs.Program.{no_patterns};
ghost use Rattle.core_lang.specs.Views.{pattern_of};
ghost use Rattle.strat_code.specs.Code.{call_definition, match_term};
ghost use Rattle.strat_code.specs.CodeOf.{argument_of, code_of, instr_of};
ghost use Rattle.strat_code.specs.Worked.{match_of_small, small_code};

use core_lang::{CallTarget, Coordinate, Core, CoreDef, CorePattern, CoreStrategy, SourcePattern};
use std::alloc::{AllocError, Global};
use std::test::Fail;
use strat_code::{Argument, Code, Instr, small_code_stands};
use strat_compile::compile;
use term_model::{PrimNames, Sym};

const HERE: Coordinate = Coordinate {
    layers_up: 0,
    slot: 0,
};

const ONE_LAYER_UP: Coordinate = Coordinate {
    layers_up: 1,
    slot: 0,
};

/// F(x)
fn f_of_x(alloc: Global) -> Result<CorePattern, AllocError>
    ensures { IfOk result (λ made. match_term 3 (pattern_of made) ≡ match_of_small) }
{
    let parts = vec![in alloc; CorePattern::Variable(HERE)]?;
    Ok(CorePattern::Applied(Sym::named(alloc, b"F")?, parts))
}

/// A call without term arguments.
fn call(alloc: Global, at: Coordinate, strategies: Vec<CoreStrategy>) -> CoreStrategy {
    CoreStrategy::Call(CallTarget::new(at, None), strategies, Vec::new(alloc))
}

/// {x: ?F(x); !x; s}
fn body_of_f(alloc: Global) -> Result<CoreStrategy, AllocError> {
    let matching = Box::new(
        alloc,
        CoreStrategy::Match(SourcePattern::new(f_of_x(alloc)?, None)),
    )?;
    let building = CoreStrategy::Build(SourcePattern::new(CorePattern::Variable(HERE), None));
    let building = Box::new(alloc, building)?;
    let rest = vec![in alloc; call(alloc, ONE_LAYER_UP, Vec::new(alloc))]?;
    let sequence = CoreStrategy::Sequence(matching, building, rest);
    let body = Box::new(alloc, sequence)?;
    Ok(CoreStrategy::Scope(1, body))
}

/// f(s) = {x: ?F(x); !x; s}, main = f(id)
fn small_core(alloc: Global) -> Result<Core, Fail> {
    let arguments = vec![in alloc; CoreStrategy::Id]?;
    let body = call(alloc, ONE_LAYER_UP, arguments);
    let defs = vec![in alloc;
        CoreDef {
            strats: 1,
            terms: 0,
            body: body_of_f(alloc)?
        },
        CoreDef {
            strats: 0,
            terms: 0,
            body
        },
    ]?;
    if !Core::in_range(defs.as_slice(), 1) {
        return Err(Fail::new("the program is in range"));
    }
    Ok(Core::new(alloc, defs, 1)?)
}

/// A call in code without term arguments.
fn call_in_code(
    alloc: Global,
    frames: usize,
    entry: usize,
    room: usize,
    next_address: usize,
    arguments: Vec<Argument>,
) -> Instr
    ensures { instr_of [] result ≡
        call_definition 1 frames entry room next_address (map argument_of arguments.items)
        no_patterns }
{
    Instr::CallDefinition {
        nodes: 1,
        frames,
        entry,
        room,
        next_address,
        arguments,
        terms: Vec::new(alloc),
    }
}

/// Code of it: main's call and the end of the run, the body of main with the code of its argument, the body of f.
fn small_instrs(alloc: Global) -> Result<Vec<Instr>, AllocError>
    ensures { IfOk result (λ made. code_of [] made.items ≡ small_code) }
{
    let begin = call_in_code(alloc, 0, 2, 0, 1, Vec::new(alloc));
    let argument = vec![in alloc; Argument::Code(3)]?;
    let body = call_in_code(alloc, 1, 6, 1, 5, argument);
    let pattern = f_of_x(alloc)?;
    let made = vec![in alloc;
        begin,
        Instr::Finish,
        body,
        Instr::Count { nodes: 1 },
        Instr::EndArgument,
        Instr::EndDefinition,
        Instr::Match { nodes: 3, pattern },
        Instr::Build {
            nodes: 2,
            pattern: CorePattern::Variable(HERE)
        },
        Instr::CallClosure {
            nodes: 1,
            closure: HERE
        },
        Instr::EndDefinition,
    ]?;
    Ok(made)
}

/// What it is compiled to: main's call and the end of the run, the body of main with that of f in place, the body of f.
fn instrs_in_place(alloc: Global) -> Result<Vec<Instr>, AllocError> {
    let in_place = f_of_x(alloc)?;
    let pattern = f_of_x(alloc)?;
    let made = vec![in alloc;
        call_in_code(alloc, 0, 2, 0, 1, Vec::new(alloc)),
        Instr::Finish,
        Instr::Extend {
            nodes: 2,
            places: 1
        },
        Instr::Match {
            nodes: 2,
            pattern: in_place
        },
        Instr::Build {
            nodes: 2,
            pattern: CorePattern::Variable(HERE)
        },
        Instr::Count { nodes: 2 },
        Instr::Shrink { places: 1 },
        Instr::EndDefinition,
        Instr::Match { nodes: 3, pattern },
        Instr::Build {
            nodes: 2,
            pattern: CorePattern::Variable(HERE)
        },
        Instr::CallClosure {
            nodes: 1,
            closure: HERE
        },
        Instr::EndDefinition,
    ]?;
    Ok(made)
}

#[test]
fn code_of_a_small_program(rt: HostRuntime) -> Result<(), Fail> {
    let alloc = rt.alloc();
    let core = small_core(alloc)?;
    let code = compile(alloc, &core)?;
    let expected = instrs_in_place(alloc)?;
    if code.instrs() != expected.as_slice() || !code.prims().is_empty() {
        return Err(Fail::new("the code is the one that was worked out"));
    }
    Ok(())
}

#[test]
fn code_of_instructions(rt: HostRuntime) -> Result<(), Fail> {
    small_code_stands();
    let alloc = rt.alloc();
    let code = Code::new(
        small_instrs(alloc)?,
        Vec::new(alloc),
        PrimNames::new(alloc),
        Vec::new(alloc),
        Vec::new(alloc),
    );
    if code.len() != 10 || !code.prims().is_empty() {
        return Err(Fail::new("the code of ten instructions has no primitives"));
    }
    if code.at(3) != &(Instr::Count { nodes: 1 }) || code.at(9) != &Instr::EndDefinition {
        return Err(Fail::new("each instruction has its address"));
    }
    Ok(())
}
