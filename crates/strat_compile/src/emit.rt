//! What is emitted for a strategy: each row of `specs/Emission`, from the end of the code to its beginning. What is emitted in
//! place stands elsewhere in the core, so each function is given a depth, which falls from strategy to strategy.
ghost use Rattle.std.specs.Prelude.{◌≡◌, suc, IfOk, OnOk, Some, map};
ghost use Rattle.core_lang.specs.Program.{scope};
ghost use Rattle.core_lang.specs.Views.{def_of, definitions_of, strategy_of};
ghost use Rattle.strat_code.specs.Code.{end_definition};
ghost use Rattle.strat_code.specs.CodeOf.{traversal_of};
ghost use Rattle.strat_compile.specs.Emission.{Emits, EmitsBodies, EmitsBody, EmitsDefinitions, EmitsRest, traversed};
ghost use Rattle.strat_compile.specs.Layers.{site_of};
ghost use Rattle.strat_compile.specs.Output.{emitted_of, onto};
ghost use Rattle.strat_compile.specs.Sites.{in_frame};

use crate::calls::emit_call;
use crate::chain::Chain;
use crate::choices::{emit_arms, emit_first};
use crate::layers::{Layers, successor, sum};
use crate::leaves::{emit_build, emit_fail, emit_id, emit_match, emit_primitive};
use crate::output::Output;
use core_lang::{CoreDef, CoreStrategy};
use std::alloc::{AllocError, Global};
use strat_code::{Instr, Traversal};

/// How deep strategies may be nested: deeper than any that memory holds.
pub(crate) const DEEPEST: usize = usize::MAX;

/// The depth of a part. `Err` where there is none, since no memory holds strategies that are nested so deep.
fn inner_depth(depth: usize) -> Result<usize, AllocError>
    ensures { IfOk result (λ inner. suc inner ≡ depth) }
{
    depth.checked_sub(1).ok_or(AllocError)
}

/// Emits the code for a strategy in these layers. `places` says how many places the innermost frame has, where they are the
/// last ones that there are, so that it can be given more; the first instruction is charged `charged` further nodes.
#[cycle(emission)]
pub(crate) fn emit(
    alloc: Global,
    out: &mut Output,
    layers: &Layers,
    places: Option<usize>,
    charged: usize,
    s: &CoreStrategy,
    depth: usize,
) -> Result<(), AllocError>
    ensures { OnOk result (Emits places (site_of layers.now) charged
        (strategy_of s.now) (emitted_of out.old) (emitted_of out.new)) }
{
    let depth = inner_depth(depth)?;
    match s {
        CoreStrategy::Id => emit_id(out, charged),
        CoreStrategy::Fail => emit_fail(out, charged),
        CoreStrategy::Sequence(first, second, rest) => {
            let following = emit_rest(alloc, out, layers, places, rest.as_slice(), depth)?;
            emit(alloc, out, layers, places, following, second, depth)?;
            let nodes = successor(charged)?;
            emit(alloc, out, layers, places, nodes, first, depth)
        }
        CoreStrategy::Choice(arm, more, otherwise) => {
            let end = out.place();
            emit(alloc, out, layers, places, 0, otherwise, depth)?;
            let last = out.place();
            let mut chain = Chain::new(alloc, last);
            let more = more.as_slice();
            emit_arms(alloc, out, layers, places, more, end, &mut chain, depth)?;
            emit_first(
                alloc, out, layers, places, charged, arm, end, &mut chain, depth,
            )
        }
        CoreStrategy::Match(p) => {
            emit_match(alloc, out, layers, charged, p.pattern())?;
            out.mark(p.offset())
        }
        CoreStrategy::Build(p) => {
            emit_build(alloc, out, layers, charged, p.pattern())?;
            out.mark(p.offset())
        }
        CoreStrategy::Scope(more, body) => match places {
            Some(size) => emit_inner_scope(alloc, out, layers, size, charged, *more, body, depth),
            None => emit_scope(alloc, out, layers, charged, *more, body, depth),
        },
        CoreStrategy::All(body) => {
            emit_traversal(
                alloc,
                out,
                layers,
                places,
                charged,
                Traversal::All,
                body,
                depth,
            )
        }
        CoreStrategy::One(body) => {
            emit_traversal(
                alloc,
                out,
                layers,
                places,
                charged,
                Traversal::One,
                body,
                depth,
            )
        }
        CoreStrategy::Some(body) => {
            emit_traversal(
                alloc,
                out,
                layers,
                places,
                charged,
                Traversal::Some,
                body,
                depth,
            )
        }
        CoreStrategy::LetIn(defs, body) => {
            let end = out.place();
            let first_label = out.labels();
            let inner = Layers::Defining {
                defs: defs.as_slice(),
                first_label,
                outer: &*layers,
            };
            emit_definitions(alloc, out, &inner, first_label, defs.as_slice(), end, depth)?;
            let nodes = successor(charged)?;
            emit(alloc, out, &inner, places, nodes, body, depth)
        }
        CoreStrategy::Call(target, strategies, terms) => {
            let at = target.coordinate();
            let strategies = strategies.as_slice();
            let terms = terms.as_slice();
            emit_call(
                alloc, out, layers, places, charged, at, strategies, terms, depth,
            )?;
            out.mark(target.offset())
        }
        CoreStrategy::Primitive(name, terms) => {
            let name = name.as_slice();
            emit_primitive(alloc, out, layers, charged, name, terms.as_slice())
        }
    }
}

/// The rest of a chain, which is emitted first, and the further nodes of what stands in front of it.
#[cycle(emission)]
#[tactic(auto, using(crate::proofs::EmissionLaws::rest_next))]
fn emit_rest(
    alloc: Global,
    out: &mut Output,
    layers: &Layers,
    places: Option<usize>,
    rest: &[CoreStrategy],
    depth: usize,
) -> Result<usize, AllocError>
    ensures { IfOk result (λ charged. EmitsRest places (site_of layers.now) charged
        (map strategy_of rest.now) (emitted_of out.old) (emitted_of out.new)) }
{
    let mut charged = 0;
    for index in (0..rest.len()).rev() {
        emit(alloc, out, layers, places, charged, &rest[index], depth)?;
        charged = 1;
    }
    Ok(charged)
}

#[cycle(emission)]
#[tactic(auto, using(crate::proofs::RowLaws::scope_row))]
fn emit_scope(
    alloc: Global,
    out: &mut Output,
    layers: &Layers,
    charged: usize,
    variables: usize,
    body: &CoreStrategy,
    depth: usize,
) -> Result<(), AllocError>
    ensures { OnOk result ((w : _) → Emits w (site_of layers.now) charged
        (scope variables (strategy_of body.now)) (emitted_of out.old) (emitted_of out.new)) }
{
    let nodes = successor(charged)?;
    let inner = Layers::Framed {
        parameters: 0,
        variables,
        outer: &*layers,
    };
    out.emit(Instr::Leave)?;
    emit(alloc, out, &inner, Some(variables), 0, body, depth)?;
    out.emit(Instr::Enter {
        nodes,
        places: variables,
    })
}

/// A scope whose places are in the innermost frame, which has `size` places without them.
#[cycle(emission)]
#[tactic(auto, using(crate::proofs::RowLaws::inner_row))]
fn emit_inner_scope(
    alloc: Global,
    out: &mut Output,
    layers: &Layers,
    size: usize,
    charged: usize,
    variables: usize,
    body: &CoreStrategy,
    depth: usize,
) -> Result<(), AllocError>
    ensures { OnOk result (Emits (Some size) (site_of layers.now) charged
        (scope variables (strategy_of body.now)) (emitted_of out.old) (emitted_of out.new)) }
{
    let nodes = successor(charged)?;
    let places = sum(size, variables)?;
    let inner = Layers::Within {
        variables,
        offset: size,
        outer: &*layers,
    };
    out.emit(Instr::Shrink { places: variables })?;
    emit(alloc, out, &inner, Some(places), 0, body, depth)?;
    out.emit(Instr::Extend {
        nodes,
        places: variables,
    })
}

#[cycle(emission)]
#[tactic(auto, using(crate::proofs::RowLaws::traversal_row))]
#[inline(never)]
fn emit_traversal(
    alloc: Global,
    out: &mut Output,
    layers: &Layers,
    places: Option<usize>,
    charged: usize,
    traversal: Traversal,
    body: &CoreStrategy,
    depth: usize,
) -> Result<(), AllocError>
    ensures { OnOk result (Emits places (site_of layers.now) charged
        (traversed (traversal_of traversal) (strategy_of body.now))
        (emitted_of out.old) (emitted_of out.new)) }
{
    let nodes = successor(charged)?;
    let next_address = out.place();
    out.emit(Instr::PartDone)?;
    emit(alloc, out, layers, places, 0, body, depth)?;
    out.emit(Instr::Traverse {
        nodes,
        traversal,
        next_address,
    })
}

/// The bodies of the definitions of a let, after a jump past them.
#[cycle(emission)]
#[tactic(auto, using(crate::proofs::RowLaws::definitions_row))]
fn emit_definitions(
    alloc: Global,
    out: &mut Output,
    layers: &Layers,
    first_label: usize,
    defs: &[CoreDef],
    end: usize,
    depth: usize,
) -> Result<(), AllocError>
    ensures { OnOk result (EmitsDefinitions (site_of layers.now) first_label
        (definitions_of defs.now) end (emitted_of out.old) (emitted_of out.new)) }
{
    out.add_labels(defs.len())?;
    emit_bodies(alloc, out, layers, first_label, defs, depth)?;
    out.emit(Instr::Jump { next_address: end })
}

/// Emits the bodies of definitions in these layers, whose labels begin with this one.
#[cycle(emission)]
#[tactic(auto, using(crate::proofs::FormLaws::bodies_next))]
pub(crate) fn emit_bodies(
    alloc: Global,
    out: &mut Output,
    layers: &Layers,
    first_label: usize,
    defs: &[CoreDef],
    depth: usize,
) -> Result<(), AllocError>
    ensures { OnOk result (EmitsBodies (site_of layers.now) first_label
        (definitions_of defs.now) (emitted_of out.old) (emitted_of out.new)) }
{
    let mut label = first_label;
    for def in defs {
        emit_definition(alloc, out, layers, def, depth)?;
        out.start(label);
        out.mark_start(label)?;
        label = successor(label)?;
    }
    Ok(())
}

#[cycle(emission)]
fn emit_definition(
    alloc: Global,
    out: &mut Output,
    layers: &Layers,
    def: &CoreDef,
    depth: usize,
) -> Result<(), AllocError>
    ensures { OnOk result (EmitsBody
        (in_frame (def_of def.now).strats (def_of def.now).terms (site_of layers.now))
        (def_of def.now).terms (def_of def.now).body (emitted_of out.old) (emitted_of out.new)) }
{
    let frame = Layers::Framed {
        parameters: def.strats,
        variables: def.terms,
        outer: &*layers,
    };
    emit_body(alloc, out, &frame, def.terms, &def.body, depth)
}

/// Emits the body of a definition and its end, in a frame with this number of term parameters.
#[cycle(emission)]
#[tactic(auto, using(crate::proofs::RowLaws::plain_body))]
pub(crate) fn emit_body(
    alloc: Global,
    out: &mut Output,
    frame: &Layers,
    variables: usize,
    body: &CoreStrategy,
    depth: usize,
) -> Result<(), AllocError>
    ensures { OnOk result (EmitsBody (site_of frame.now) variables
        (strategy_of body.now) (emitted_of out.old) (emitted_of out.new)) }
{
    match body {
        CoreStrategy::Scope(more, inside) => {
            let inner = Layers::Within {
                variables: *more,
                offset: variables,
                outer: &*frame,
            };
            let places = sum(variables, *more)?;
            emit_ended(alloc, out, &inner, places, 1, inside, depth)
        }
        body => emit_ended(alloc, out, frame, variables, 0, body, depth),
    }
}

/// Code with the end of a definition after it.
#[cycle(emission)]
#[tactic(auto, using(crate::proofs::RowLaws::ended_row))]
fn emit_ended(
    alloc: Global,
    out: &mut Output,
    layers: &Layers,
    places: usize,
    charged: usize,
    body: &CoreStrategy,
    depth: usize,
) -> Result<(), AllocError>
    ensures { OnOk result (Emits (Some places) (site_of layers.now) charged
        (strategy_of body.now) (onto end_definition (emitted_of out.old)) (emitted_of out.new)) }
{
    out.emit(Instr::EndDefinition)?;
    emit(alloc, out, layers, Some(places), charged, body, depth)
}
