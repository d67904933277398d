//! The evaluator, by recursion on the budget.
ghost use Rattle.std.specs.Prelude.{ℕ, ◌≡◌, ◌+◌, ◌∷◌, ◌<◌, IfOk, Some, length, map, slice_set};
ghost use Rattle.core_lang.specs.Ending.{Ending, ok, failed, oversize};
ghost use Rattle.core_lang.specs.Environment.{Bindings, definition};
ghost use Rattle.core_lang.specs.Program.{scope, all, one, some, call, with_definitions};
ghost use Rattle.core_lang.specs.Program as program;
ghost use Rattle.core_lang.specs.Resolved.{layers_up, callee_in};
ghost use Rattle.core_lang.specs.Settled.{ends};
ghost use Rattle.core_lang.specs.Views.{strategy_of, strategies_of, pattern_of, patterns_of, arm_of, def_of, definitions_of, chain, first_of};
ghost use Rattle.core_eval.specs.Frame.{environment_of};
ghost use Rattle.term_model.specs.Flat.{Meaning};
ghost use Rattle.core_eval.specs.Evaluates.{Evaluates, verdict_of};

use crate::bindings::{push_empty, push_terms, save};
use crate::callee::{Callee, callee_at, closures_of};
use crate::frame::Frame;
use crate::instance::{instance, instances};
use crate::making::build_outcome;
use crate::matching::matches;
use crate::primitive::evaluate_primitive;
use crate::primitives::Primitives;
use crate::state::State;
use core_lang::{Coordinate, CoreArm, CoreDef, CorePattern, CoreStrategy, Outcome};
use std::alloc::{AllocError, Global};
use term_model::{Made, Term};

/// Evaluates the strategy on the term, each node of the derivation for one of the budget.
#[cycle(eval)]
pub(crate) fn evaluate<P: Primitives>(
    primitives: &P,
    s: &CoreStrategy,
    frame: &Frame,
    t: &Term,
    state: &mut State,
) -> Result<Outcome<Term>, AllocError>
    requires { P.honest primitives.now }
    ensures { IfOk result (λ r. Evaluates (P.meaning primitives.now) (environment_of frame.now)
        (strategy_of s.now) t.now state.old.places.items state.old.budget
        (verdict_of r state.new.places.items) state.new.budget) }
{
    if state.budget == 0 {
        return Ok(Outcome::Spent);
    }
    state.budget -= 1;
    match s {
        CoreStrategy::Id => Ok(Outcome::Rewritten(t.clone()?)),
        CoreStrategy::Fail => Ok(Outcome::Failed),
        CoreStrategy::Sequence(first, second, rest) => {
            evaluate_sequence(primitives, first, second, rest.as_slice(), frame, t, state)
        }
        CoreStrategy::Choice(arm, more, otherwise) => {
            evaluate_arms(primitives, arm, more.as_slice(), otherwise, frame, t, state)
        }
        CoreStrategy::Match(p) => {
            let ending = evaluate_match(p.pattern(), frame, t, state)?;
            Ok(ending)
        }
        CoreStrategy::Build(p) => {
            let p = p.pattern();
            let made = instance(state.alloc, p, None, frame, state.places.as_slice())?;
            Ok(build_outcome(made))
        }
        CoreStrategy::Scope(count, body) => evaluate_scope(
            primitives, *count, body, frame, t, state,
        ),
        CoreStrategy::All(body) => evaluate_all(primitives, body, frame, t, state),
        CoreStrategy::One(body) => evaluate_one(primitives, body, frame, t, state),
        CoreStrategy::Some(body) => evaluate_some(primitives, body, frame, t, state),
        CoreStrategy::LetIn(defs, body) => evaluate_let(
            primitives,
            defs.as_slice(),
            body,
            frame,
            t,
            state,
        ),
        CoreStrategy::Call(target, strategies, terms) => {
            evaluate_call(
                primitives,
                target.coordinate(),
                strategies.as_slice(),
                terms.as_slice(),
                frame,
                t,
                state,
            )
        }
        CoreStrategy::Primitive(name, terms) => {
            let ending = evaluate_primitive(
                primitives,
                name.as_slice(),
                terms.as_slice(),
                frame,
                state,
            )?;
            Ok(ending)
        }
    }
}

/// Matches the pattern with the term; the node of the match is paid.
fn evaluate_match(
    p: &CorePattern,
    frame: &Frame,
    t: &Term,
    state: &mut State,
) -> Result<Outcome<Term>, AllocError>
    ensures { IfOk result (λ r. (M : Meaning) →
        Evaluates M (environment_of frame.now) (program.match (pattern_of p.now))
        t.now state.old.places.items (1 + state.old.budget) (verdict_of r state.new.places.items)
        state.new.budget) }
{
    if !matches(state.alloc, p, frame, t, &mut state.places)? {
        return Ok(Outcome::Failed);
    }
    Ok(Outcome::Rewritten(t.clone()?))
}

/// Evaluates a strategy that sees definitions; their node is paid.
#[cycle(eval)]
fn evaluate_let<P: Primitives>(
    primitives: &P,
    defs: &[CoreDef],
    body: &CoreStrategy,
    frame: &Frame,
    t: &Term,
    state: &mut State,
) -> Result<Outcome<Term>, AllocError>
    requires { P.honest primitives.now }
    ensures { IfOk result (λ r. Evaluates (P.meaning primitives.now) (environment_of frame.now)
        (with_definitions (definitions_of defs.now) (strategy_of body.now))
        t.now state.old.places.items (1 + state.old.budget) (verdict_of r state.new.places.items)
        state.new.budget) }
{
    let inner = Frame::Definitions {
        defs,
        outer: &*frame,
    };
    let ending = evaluate(primitives, body, &inner, t, state)?;
    Ok(ending)
}

/// Evaluates a sequence, whose first node is paid.
#[cycle(eval)]
fn evaluate_sequence<P: Primitives>(
    primitives: &P,
    first: &CoreStrategy,
    second: &CoreStrategy,
    rest: &[CoreStrategy],
    frame: &Frame,
    t: &Term,
    state: &mut State,
) -> Result<Outcome<Term>, AllocError>
    requires { P.honest primitives.now }
    ensures { IfOk result (λ r. Evaluates (P.meaning primitives.now) (environment_of frame.now)
        (chain (strategy_of first.now) (strategy_of second.now ∷ map strategy_of rest.now))
        t.now state.old.places.items (1 + state.old.budget) (verdict_of r state.new.places.items)
        state.new.budget) }
{
    match evaluate(primitives, first, frame, t, state)? {
        Outcome::Rewritten(u) => match rest.split_first() {
            None => {
                let ending = evaluate(primitives, second, frame, &u, state)?;
                Ok(ending)
            }
            Some((next, more)) => {
                if state.budget == 0 {
                    return Ok(Outcome::Spent);
                }
                state.budget -= 1;
                let ending = evaluate_sequence(primitives, second, next, more, frame, &u, state)?;
                Ok(ending)
            }
        },
        other => Ok(other),
    }
}

/// Evaluates a choice, whose first node is paid.
#[cycle(eval)]
fn evaluate_arms<P: Primitives>(
    primitives: &P,
    arm: &CoreArm,
    more: &[CoreArm],
    otherwise: &CoreStrategy,
    frame: &Frame,
    t: &Term,
    state: &mut State,
) -> Result<Outcome<Term>, AllocError>
    requires { P.honest primitives.now }
    ensures { IfOk result (λ r. Evaluates (P.meaning primitives.now) (environment_of frame.now)
        (first_of (arm_of arm.now ∷ map arm_of more.now) (strategy_of otherwise.now))
        t.now state.old.places.items (1 + state.old.budget) (verdict_of r state.new.places.items)
        state.new.budget) }
{
    let before = save(state.alloc, state.places.as_slice())?;
    match evaluate(primitives, &arm.guard, frame, t, state)? {
        Outcome::Rewritten(u) => {
            let ending = evaluate(primitives, &arm.then, frame, &u, state)?;
            Ok(ending)
        }
        Outcome::Failed => {
            state.places = before;
            match more.split_first() {
                None => {
                    let ending = evaluate(primitives, otherwise, frame, t, state)?;
                    Ok(ending)
                }
                Some((next, rest)) => {
                    if state.budget == 0 {
                        return Ok(Outcome::Spent);
                    }
                    state.budget -= 1;
                    let ending = evaluate_arms(primitives, next, rest, otherwise, frame, t, state)?;
                    Ok(ending)
                }
            }
        }
        other => Ok(other),
    }
}

/// Evaluates a scope, whose node is paid.
#[cycle(eval)]
fn evaluate_scope<P: Primitives>(
    primitives: &P,
    count: usize,
    body: &CoreStrategy,
    frame: &Frame,
    t: &Term,
    state: &mut State,
) -> Result<Outcome<Term>, AllocError>
    requires { P.honest primitives.now }
    ensures { IfOk result (λ r. Evaluates (P.meaning primitives.now) (environment_of frame.now)
        (scope count (strategy_of body.now)) t.now state.old.places.items (1 + state.old.budget)
        (verdict_of r state.new.places.items) state.new.budget) }
{
    let base = state.places.len();
    push_empty(&mut state.places, count)?;
    let inner = Frame::Layer {
        base,
        parameters: 0,
        variables: count,
        closures: &[],
        outer: &*frame,
    };
    let ending = evaluate(primitives, body, &inner, t, state)?;
    state.places.truncate(base);
    Ok(ending)
}

/// Evaluates a strategy on each part of the term; its own node is paid.
#[cycle(eval)]
fn evaluate_all<P: Primitives>(
    primitives: &P,
    s: &CoreStrategy,
    frame: &Frame,
    t: &Term,
    state: &mut State,
) -> Result<Outcome<Term>, AllocError>
    requires { P.honest primitives.now }
    ensures { IfOk result (λ r. Evaluates (P.meaning primitives.now) (environment_of frame.now)
        (all (strategy_of s.now)) t.now state.old.places.items (1 + state.old.budget)
        (verdict_of r state.new.places.items) state.new.budget) }
{
    let parts = t.children();
    let mut done = Vec::new(state.alloc);
    for part in parts {
        match evaluate(primitives, s, frame, part, state)? {
            Outcome::Rewritten(u) => {
                done.push(u)?;
            }
            other => return Ok(other),
        }
    }
    let made = t.rebuild(state.alloc, done)?;
    Ok(build_outcome(Some(made)))
}

/// Evaluates a strategy on the first part of the term where it does not fail; its own node is paid.
#[cycle(eval)]
fn evaluate_one<P: Primitives>(
    primitives: &P,
    s: &CoreStrategy,
    frame: &Frame,
    t: &Term,
    state: &mut State,
) -> Result<Outcome<Term>, AllocError>
    requires { P.honest primitives.now }
    ensures { IfOk result (λ r. Evaluates (P.meaning primitives.now) (environment_of frame.now)
        (one (strategy_of s.now)) t.now state.old.places.items (1 + state.old.budget)
        (verdict_of r state.new.places.items) state.new.budget) }
{
    let parts = t.children();
    for (i, part) in parts.iter().enumerate() {
        let saved = save(state.alloc, state.places.as_slice())?;
        match evaluate(primitives, s, frame, part, state)? {
            Outcome::Rewritten(u) => {
                let changed = replace_at(state.alloc, parts, i, u)?;
                let made = t.rebuild(state.alloc, changed)?;
                return Ok(build_outcome(Some(made)));
            }
            Outcome::Failed => {
                state.places = saved;
            }
            other => return Ok(other),
        }
    }
    Ok(Outcome::Failed)
}

/// Evaluates a strategy on each part of the term where it does not fail, one at least; its own node is paid.
#[cycle(eval)]
fn evaluate_some<P: Primitives>(
    primitives: &P,
    s: &CoreStrategy,
    frame: &Frame,
    t: &Term,
    state: &mut State,
) -> Result<Outcome<Term>, AllocError>
    requires { P.honest primitives.now }
    ensures { IfOk result (λ r. Evaluates (P.meaning primitives.now) (environment_of frame.now)
        (some (strategy_of s.now)) t.now state.old.places.items (1 + state.old.budget)
        (verdict_of r state.new.places.items) state.new.budget) }
{
    let parts = t.children();
    let mut results = Vec::new(state.alloc);
    let mut found = false;
    for part in parts {
        let kept = save(state.alloc, state.places.as_slice())?;
        match evaluate(primitives, s, frame, part, state)? {
            Outcome::Rewritten(u) => {
                found = true;
                results.push(u)?;
            }
            Outcome::Failed => {
                state.places = kept;
                results.push(part.clone()?)?;
            }
            other => return Ok(other),
        }
    }
    if !found {
        return Ok(Outcome::Failed);
    }
    let made = t.rebuild(state.alloc, results)?;
    Ok(build_outcome(Some(made)))
}

/// Evaluates a call, whose node is paid. Where it is of nothing there is no derivation.
#[cycle(eval)]
fn evaluate_call<P: Primitives>(
    primitives: &P,
    x: Coordinate,
    strategies: &[CoreStrategy],
    terms: &[CorePattern],
    frame: &Frame,
    t: &Term,
    state: &mut State,
) -> Result<Outcome<Term>, AllocError>
    requires { P.honest primitives.now }
    ensures { IfOk result (λ r. Evaluates (P.meaning primitives.now) (environment_of frame.now)
        (call x (strategies_of strategies.now) (patterns_of terms.now))
        t.now state.old.places.items (1 + state.old.budget) (verdict_of r state.new.places.items)
        state.new.budget) }
{
    match callee_at(&*frame, x) {
        None => Ok(Outcome::Spent),
        Some(Callee::Parameter(closure)) => {
            let ending = evaluate(primitives, closure.strategy, closure.frame, t, state)?;
            Ok(ending)
        }
        Some(Callee::Definition(def, home)) => {
            let ending = evaluate_definition(
                primitives, def, home, strategies, terms, frame, t, state,
            )?;
            Ok(ending)
        }
    }
}

/// Evaluates a call of a definition, whose node is paid.
#[cycle(eval)]
fn evaluate_definition<P: Primitives>(
    primitives: &P,
    def: &CoreDef,
    home: &Frame,
    strategies: &[CoreStrategy],
    terms: &[CorePattern],
    frame: &Frame,
    t: &Term,
    state: &mut State,
) -> Result<Outcome<Term>, AllocError>
    requires { P.honest primitives.now }
    ensures { IfOk result (λ r. (x : Coordinate) →
        callee_in (layers_up (environment_of frame.now) x.layers_up) x.slot ≡
        Some (definition (def_of def.now).strats (def_of def.now).terms (def_of def.now).body
        (environment_of home.now)) →
        Evaluates (P.meaning primitives.now) (environment_of frame.now)
        (call x (strategies_of strategies.now) (patterns_of terms.now))
        t.now state.old.places.items (1 + state.old.budget)
        (verdict_of r state.new.places.items) state.new.budget) }
{
    let closures = closures_of(state.alloc, &*strategies, &*frame)?;
    match instances(state.alloc, terms, frame, state.places.as_slice())? {
        None => Ok(Outcome::Failed),
        Some(Made::Oversize) => Ok(Outcome::Oversize),
        Some(Made::Fits(values)) => {
            let first = state.places.len();
            push_terms(&mut state.places, values.as_slice())?;
            let closures = closures.as_slice();
            let inner = Frame::Layer {
                base: first,
                parameters: def.strats,
                variables: def.terms,
                closures,
                outer: &*home,
            };
            let ending = evaluate(primitives, &def.body, &inner, t, state)?;
            state.places.truncate(first);
            Ok(ending)
        }
    }
}

/// Returns the terms, with another one at this position.
fn replace_at(alloc: Global, terms: &[Term], at: usize, t: Term) -> Result<Vec<Term>, AllocError>
    requires { at < length terms.now }
    ensures { IfOk result (λ all. all.items ≡ slice_set terms.now at t) }
{
    let mut all = Vec::from_clones(alloc, terms)?;
    all[at] = t;
    Ok(all)
}
