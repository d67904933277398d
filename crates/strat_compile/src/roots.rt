//! What strategies ask of a term's root, by the matches with which they and their alternatives begin.
ghost use Rattle.std.specs.Prelude.{◌≡◌, ◌+◌, ◌∷◌, ◌≤◌, IfOk, IfSome, IsTrue, MatchOption, OnOk, map, suc};
ghost use Rattle.core_lang.specs.Program.{call, id, no_patterns};
ghost use Rattle.core_lang.specs.Roots as spec;
ghost use Rattle.core_lang.specs.Roots.{Begins};
ghost use Rattle.core_lang.specs.Views.{arm_of, first_of, pattern_of, strategies_of, strategy_of};
ghost use Rattle.strat_code.specs.CodeOf.{root_of};
ghost use Rattle.strat_compile.specs.ChainOf.{Finds, FindsInside, roots_of};
ghost use Rattle.strat_compile.specs.Chains as chains;
ghost use Rattle.strat_compile.specs.Emission.{BeginsNot, Joins};
ghost use Rattle.strat_compile.specs.Layers.{context_of};
ghost use Rattle.strat_compile.specs.Output.{emitted_of};
ghost use Rattle.term_model.specs.Results.{Returns};

use crate::callee::{callee, program_definition};
use crate::known::known_arguments;
use crate::layers::{Callee, Layers, successor, sum};
use crate::output::Output;
use core_lang::{Coordinate, CoreArm, CorePattern, CoreStrategy};
use std::alloc::{AllocError, Global};
use strat_code::Root;

/// A match at the beginning of a strategy: what it asks of a term's root, and the nodes of the strategy's derivation where
/// the term has another root.
#[derive(Drop)]
struct Beginning {
    root: Root,
    nodes: usize,
}

/// The roots that a strategy asks for, one at least, and the nodes of its derivation where the term has none of them.
#[derive(Drop)]
pub(crate) struct Asked {
    /// The last one first.
    pub(crate) roots: Vec<Root>,
    pub(crate) nodes: usize,
}

/// What a pattern asks of a term's root.
#[tactic(auto, using(crate::proofs::BeginningLaws::asked_alias, crate::proofs::BeginningLaws::asked_annotated, crate::proofs::BeginningLaws::asked_symbol, crate::proofs::BeginningLaws::asked_list))]
fn root_asked(pattern: &CorePattern) -> Result<Root, AllocError>
    ensures { IfOk result (λ root. root_of root ≡ spec.root_of (pattern_of pattern.now)) }
{
    match pattern {
        CorePattern::Anything => Ok(Root::Any),
        CorePattern::Variable(_) => Ok(Root::Any),
        CorePattern::Alias(_, part) => { root_asked(part) }
        CorePattern::Integer(value) => Ok(Root::Integer(*value)),
        CorePattern::Applied(symbol, parts) => {
            let symbol = symbol.clone()?;
            Ok(Root::Symbol(symbol, parts.len()))
        }
        CorePattern::List(elements, rest) => Ok(Root::List(elements.len(), rest.is_some())),
        CorePattern::Like(_, _) => Ok(Root::Any),
        CorePattern::Annotated(part, _) => { root_asked(part) }
    }
}

/// The match at the beginning of a strategy, alone, in scopes and in sequences, if there is one.
#[tactic(auto, using(crate::proofs::BeginningLaws::match_begins, crate::proofs::BeginningLaws::sequence_begins, crate::proofs::BeginningLaws::scope_begins, crate::proofs::BeginningLaws::sequence_not, crate::proofs::BeginningLaws::scope_not, crate::proofs::BeginningLaws::other_not))]
fn begins_with(strategy: &CoreStrategy) -> Result<Option<Beginning>, AllocError>
    ensures { IfOk result (λ found. MatchOption found (BeginsNot (strategy_of strategy.now))
        (λ b. Begins (strategy_of strategy.now) (root_of b.root) b.nodes)) }
{
    match strategy {
        CoreStrategy::Match(pattern) => {
            let root = root_asked(pattern.pattern())?;
            Ok(Some(Beginning { root, nodes: 1 }))
        }
        CoreStrategy::Sequence(first, _, _) => {
            let Some(Beginning { root, nodes }) = begins_with(first)? else {
                return Ok(None);
            };
            let nodes = successor(nodes)?;
            Ok(Some(Beginning { root, nodes }))
        }
        CoreStrategy::Scope(_, body) => {
            let Some(Beginning { root, nodes }) = begins_with(body)? else {
                return Ok(None);
            };
            let nodes = successor(nodes)?;
            Ok(Some(Beginning { root, nodes }))
        }
        _ => Ok(None),
    }
}

/// The roots that a strategy asks for come in front of the others, each that of a match with which one of its alternatives begins.
/// The nodes are those of its derivation where the term has none of them; `None` where no such roots are found.
#[cycle(asking)]
#[tactic(auto, using(crate::proofs::AskLaws::fail_asks, crate::proofs::AskLaws::match_asks, crate::proofs::AskLaws::sequence_asks))]
fn roots_asked(
    alloc: Global,
    layers: &Layers,
    strategy: &CoreStrategy,
    limit: &mut usize,
    roots: &mut Vec<Root>,
) -> Result<Option<usize>, AllocError>
    ensures asks { IfOk result (Finds (context_of layers.now)
        (strategy_of strategy.now) roots.old roots.new) }
    ensures limit { limit.new ≤ limit.old }
{
    if *limit == 0 {
        return Ok(None);
    }
    *limit -= 1;
    match strategy {
        CoreStrategy::Fail => Ok(Some(1)),
        CoreStrategy::Match(pattern) => {
            let root = root_asked(pattern.pattern())?;
            if !asks(&root) {
                return Ok(None);
            }
            roots.push(root)?;
            Ok(Some(1))
        }
        CoreStrategy::Sequence(first, _, _) => {
            let Some(nodes) = roots_asked(alloc, layers, first, limit, roots)? else {
                return Ok(None);
            };
            let nodes = successor(nodes)?;
            Ok(Some(nodes))
        }
        CoreStrategy::Choice(arm, more, otherwise) => {
            let more = more.as_slice();
            choice_asked(alloc, layers, arm, more, otherwise, limit, roots)
        }
        CoreStrategy::Scope(_, body) => inside_asked(alloc, layers, body, limit, roots),
        CoreStrategy::LetIn(_, body) => inside_asked(alloc, layers, body, limit, roots),
        CoreStrategy::Call(target, strategies, terms) => {
            if !terms.is_empty() {
                return Ok(None);
            }
            let at = target.coordinate();
            call_asked(alloc, layers, at, strategies.as_slice(), limit, roots)
        }
        _ => Ok(None),
    }
}

/// The same of a choice: of its guards, and of what is done where none of them succeeds.
#[cycle(asking)]
fn choice_asked(
    alloc: Global,
    layers: &Layers,
    first: &CoreArm,
    more: &[CoreArm],
    otherwise: &CoreStrategy,
    limit: &mut usize,
    roots: &mut Vec<Root>,
) -> Result<Option<usize>, AllocError>
    ensures asks { IfOk result (Finds (context_of layers.now)
        (first_of (arm_of first.now ∷ map arm_of more.now) (strategy_of otherwise.now))
        roots.old roots.new) }
    ensures limit { limit.new ≤ limit.old }
{
    let Some(others) = arms_asked(alloc, layers, more, otherwise, limit, roots)? else {
        return Ok(None);
    };
    let Some(nodes) = roots_asked(alloc, layers, &first.guard, limit, roots)? else {
        return Ok(None);
    };
    let nodes = choice_nodes(nodes, others)?;
    Ok(Some(nodes))
}

/// The same of the further arms of a choice and what is done where none of their guards succeeds.
#[cycle(asking)]
#[tactic(auto, using(crate::proofs::AskLaws::no_arm_asks, crate::proofs::AskLaws::arm_asks))]
fn arms_asked(
    alloc: Global,
    layers: &Layers,
    arms: &[CoreArm],
    otherwise: &CoreStrategy,
    limit: &mut usize,
    roots: &mut Vec<Root>,
) -> Result<Option<usize>, AllocError>
    ensures asks { IfOk result (Finds (context_of layers.now)
        (first_of (map arm_of arms.now) (strategy_of otherwise.now)) roots.old roots.new) }
    ensures limit { limit.new ≤ limit.old }
{
    let Some(mut nodes) = roots_asked(alloc, layers, otherwise, limit, roots)? else {
        return Ok(None);
    };
    for index in (0..arms.len()).rev() {
        let Some(first) = roots_asked(alloc, layers, &arms[index].guard, limit, roots)? else {
            return Ok(None);
        };
        nodes = choice_nodes(first, nodes)?;
    }
    Ok(Some(nodes))
}

/// The same of what is around a strategy, by one node and one layer of which nothing is looked at.
#[cycle(asking)]
#[tactic(auto, using(crate::proofs::LayerLaws::context_hidden, crate::proofs::AskLaws::inside_asks))]
fn inside_asked(
    alloc: Global,
    layers: &Layers,
    body: &CoreStrategy,
    limit: &mut usize,
    roots: &mut Vec<Root>,
) -> Result<Option<usize>, AllocError>
    ensures asks { IfOk result (FindsInside (context_of layers.now)
        (strategy_of body.now) roots.old roots.new) }
    ensures limit { limit.new ≤ limit.old }
{
    let inner = Layers::Called {
        arguments: &[],
        outer: &*layers,
    };
    let Some(nodes) = roots_asked(alloc, &inner, body, limit, roots)? else {
        return Ok(None);
    };
    let nodes = successor(nodes)?;
    Ok(Some(nodes))
}

/// The same of a call without term arguments.
#[cycle(asking)]
#[tactic(auto, using(crate::proofs::AskLaws::known_asks))]
fn call_asked(
    alloc: Global,
    layers: &Layers,
    at: Coordinate,
    strategies: &[CoreStrategy],
    limit: &mut usize,
    roots: &mut Vec<Root>,
) -> Result<Option<usize>, AllocError>
    ensures asks { IfOk result (Finds (context_of layers.now)
        (call at (strategies_of strategies.now) no_patterns) roots.old roots.new) }
    ensures limit { limit.new ≤ limit.old }
{
    match callee(&*layers, at)? {
        Callee::Unknown => Ok(None),
        Callee::Definition(_) => defined_asked(alloc, layers, at, strategies, limit, roots),
        Callee::Given(known) => {
            let found = roots_asked(alloc, known.layers, known.strategy, limit, roots)?;
            let Some(nodes) = found else {
                return Ok(None);
            };
            let nodes = successor(nodes)?;
            Ok(Some(nodes))
        }
    }
}

/// The same of a call of a definition of the program whose strategy arguments are known.
#[cycle(asking)]
#[tactic(auto, using(crate::proofs::AskLaws::defined_asks))]
fn defined_asked(
    alloc: Global,
    layers: &Layers,
    at: Coordinate,
    strategies: &[CoreStrategy],
    limit: &mut usize,
    roots: &mut Vec<Root>,
) -> Result<Option<usize>, AllocError>
    ensures asks { IfOk result (Finds (context_of layers.now)
        (call at (strategies_of strategies.now) no_patterns) roots.old roots.new) }
    ensures limit { limit.new ≤ limit.old }
{
    let Some(definition) = program_definition(&*layers, at) else {
        return Ok(None);
    };
    if definition.def.terms > 0 {
        return Ok(None);
    }
    let frameless = Layers::Frameless { inner: &*layers };
    let Some(arguments) = known_arguments(alloc, &*layers, &frameless, strategies, limit)? else {
        return Ok(None);
    };
    let inner = Layers::Called {
        arguments: arguments.as_slice(),
        outer: definition.layer,
    };
    let Some(nodes) = roots_asked(alloc, &inner, &definition.def.body, limit, roots)? else {
        return Ok(None);
    };
    let nodes = successor(nodes)?;
    Ok(Some(nodes))
}

/// The nodes of a choice of which both sides fail.
fn choice_nodes(first: usize, others: usize) -> Result<usize, AllocError>
    ensures { Returns result (suc (first + others)) }
{
    let both = sum(first, others)?;
    successor(both)
}

/// What an arm asks for that joins a chain of alternatives: nothing follows its guard, and the guard begins with a match or is
/// looked through. A match that fits every term joins no empty chain, since a table of it alone would find nothing out.
pub(crate) fn joining(
    alloc: Global,
    out: &mut Output,
    layers: &Layers,
    arm: &CoreArm,
    is_chain: bool,
) -> Result<Option<Asked>, AllocError>
    ensures joins { IfOk result (λ found. IfSome found (λ asked.
        Joins (context_of layers.now) (arm_of arm.now) (roots_of asked.roots.items) asked.nodes)) }
    ensures view { OnOk result (emitted_of out.new ≡ emitted_of out.old) }
{
    if !does_nothing(&arm.then) {
        return Ok(None);
    }
    let mut roots = Vec::new(alloc);
    if let Some(Beginning { root, nodes }) = begins_with(&arm.guard)? {
        if !is_chain && !asks(&root) {
            return Ok(None);
        }
        roots.push(root)?;
        return Ok(Some(Asked { roots, nodes }));
    }
    if out.performs_calls() {
        return Ok(None);
    }
    let most = out.visits_left();
    let mut limit = most;
    let found = roots_asked(alloc, layers, &arm.guard, &mut limit, &mut roots)?;
    out.count_visits(most - limit);
    let Some(nodes) = found else {
        return Ok(None);
    };
    if roots.len() == 0 {
        return Ok(None);
    }
    Ok(Some(Asked { roots, nodes }))
}

/// Whether the strategy is the one that does nothing.
fn does_nothing(strategy: &CoreStrategy) -> bool
    ensures { IsTrue result → strategy_of strategy.now ≡ id }
{
    match strategy {
        CoreStrategy::Id => true,
        _ => false,
    }
}

/// Whether anything is asked of a root.
fn asks(root: &Root) -> bool
    ensures { result ≡ chains.asks (root_of root.now) }
{
    match root {
        Root::Any => false,
        Root::Integer(_) => true,
        Root::Symbol(_, _) => true,
        Root::List(_, _) => true,
    }
}
