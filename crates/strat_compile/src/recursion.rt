//! Which definitions of the program may reach themselves by calls.
ghost use Rattle.std.specs.Prelude.{◌≡◌, IfOk, length};

use core_lang::{Coordinate, CoreArm, CoreDef, CoreStrategy};
use std::alloc::{AllocError, Global};

/// How often the definitions are gone through.
const MOST_PASSES: usize = 16;

/// Returns of each definition of the program whether it may reach itself by calls. It may where it both calls one that may and is
/// called by one that may, and where not all of this is found out in the passes that are made.
pub(crate) fn recursive_definitions(
    alloc: Global,
    defs: &[CoreDef],
) -> Result<Vec<bool>, AllocError>
    ensures { IfOk result (λ made. length made.items ≡ length defs.now) }
{
    let mut recursive = vec![in alloc; true; defs.len()]?;
    let mut called = vec![in alloc; false; defs.len()]?;
    for pass in 0..MOST_PASSES {
        let has_callers_left = settle_callers(defs, pass % 2 == 1, &mut recursive, &mut called);
        let has_called_left = settle_called(&mut recursive, &mut called);
        if !has_callers_left && !has_called_left {
            return Ok(recursive);
        }
    }
    Ok(recursive)
}

/// Goes through all definitions once, from the first one or from the last one. Returns whether one more is not recursive, since it
/// calls none that may be; those that the others call are marked.
fn settle_callers(
    defs: &[CoreDef],
    from_last: bool,
    recursive: &mut Vec<bool>,
    called: &mut Vec<bool>,
) -> bool
    ensures recursive { length recursive.new.items ≡ length recursive.old.items }
    ensures called { length called.new.items ≡ length called.old.items }
{
    let mut has_changed = false;
    for count in 0..defs.len() {
        let position = if from_last {
            defs.len() - 1 - count
        } else {
            count
        };
        if settle(&defs[position], position, recursive, called) {
            has_changed = true;
        }
    }
    has_changed
}

/// Returns whether this definition is found out not to be recursive: its body calls none that may be.
fn settle(def: &CoreDef, position: usize, recursive: &mut Vec<bool>, called: &mut Vec<bool>) -> bool
    ensures recursive { length recursive.new.items ≡ length recursive.old.items }
    ensures called { length called.new.items ≡ length called.old.items }
{
    if position >= recursive.len() || !recursive[position] {
        return false;
    }
    if reaches(&def.body, 1, recursive.as_slice(), called) {
        return false;
    }
    recursive[position] = false;
    true
}

/// Returns whether one more is not recursive, since none that may be calls it. The marks are taken away.
fn settle_called(recursive: &mut Vec<bool>, called: &mut Vec<bool>) -> bool
    ensures recursive { length recursive.new.items ≡ length recursive.old.items }
    ensures called { length called.new.items ≡ length called.old.items }
{
    let mut has_changed = false;
    for position in 0..recursive.len() {
        let is_called = take_mark(called, position);
        if recursive[position] && !is_called {
            recursive[position] = false;
            has_changed = true;
        }
    }
    has_changed
}

fn take_mark(called: &mut Vec<bool>, position: usize) -> bool
    ensures { length called.new.items ≡ length called.old.items }
{
    if position >= called.len() {
        return false;
    }
    let was_called = called[position];
    called[position] = false;
    was_called
}

/// Whether a strategy calls a definition of the program that may be recursive: `up` layers up are the definitions of the program. All
/// such definitions that it calls are marked.
#[cycle(reaching)]
fn reaches(s: &CoreStrategy, up: usize, recursive: &[bool], called: &mut Vec<bool>) -> bool
    ensures { length called.new.items ≡ length called.old.items }
{
    match s {
        CoreStrategy::Id => false,
        CoreStrategy::Fail => false,
        CoreStrategy::Match(_) => false,
        CoreStrategy::Build(_) => false,
        CoreStrategy::Primitive(_, _) => false,
        CoreStrategy::Sequence(first, second, rest) => {
            let in_first = reaches(first, up, recursive, called);
            let in_second = reaches(second, up, recursive, called);
            let in_rest = any_reaches(rest.as_slice(), up, recursive, called);
            in_first || in_second || in_rest
        }
        CoreStrategy::Choice(arm, more, otherwise) => {
            let in_first = arm_reaches(arm, up, recursive, called);
            let in_more = any_arm_reaches(more.as_slice(), up, recursive, called);
            let in_last = reaches(otherwise, up, recursive, called);
            in_first || in_more || in_last
        }
        CoreStrategy::Scope(_, body) => reaches(body, up.saturating_add(1), recursive, called),
        CoreStrategy::All(body) => reaches(body, up, recursive, called),
        CoreStrategy::One(body) => reaches(body, up, recursive, called),
        CoreStrategy::Some(body) => reaches(body, up, recursive, called),
        CoreStrategy::LetIn(defs, body) => {
            let in_defs = any_body_reaches(
                defs.as_slice(),
                up.saturating_add(2),
                recursive,
                called,
            );
            let in_body = reaches(body, up.saturating_add(1), recursive, called);
            in_defs || in_body
        }
        CoreStrategy::Call(target, strategies, _) => {
            let at = target.coordinate();
            let in_arguments = any_reaches(strategies.as_slice(), up, recursive, called);
            at.layers_up == up && mark(at.slot, recursive, called) || in_arguments
        }
    }
}

#[cycle(reaching)]
fn any_reaches(
    strategies: &[CoreStrategy],
    up: usize,
    recursive: &[bool],
    called: &mut Vec<bool>,
) -> bool
    ensures { length called.new.items ≡ length called.old.items }
{
    let mut any = false;
    for s in strategies {
        if reaches(s, up, recursive, called) {
            any = true;
        }
    }
    any
}

#[cycle(reaching)]
fn arm_reaches(arm: &CoreArm, up: usize, recursive: &[bool], called: &mut Vec<bool>) -> bool
    ensures { length called.new.items ≡ length called.old.items }
{
    let in_guard = reaches(&arm.guard, up, recursive, called);
    let in_rest = reaches(&arm.then, up, recursive, called);
    in_guard || in_rest
}

#[cycle(reaching)]
fn any_arm_reaches(arms: &[CoreArm], up: usize, recursive: &[bool], called: &mut Vec<bool>) -> bool
    ensures { length called.new.items ≡ length called.old.items }
{
    let mut any = false;
    for arm in arms {
        if arm_reaches(arm, up, recursive, called) {
            any = true;
        }
    }
    any
}

#[cycle(reaching)]
fn any_body_reaches(defs: &[CoreDef], up: usize, recursive: &[bool], called: &mut Vec<bool>) -> bool
    ensures { length called.new.items ≡ length called.old.items }
{
    let mut any = false;
    for def in defs {
        if reaches(&def.body, up, recursive, called) {
            any = true;
        }
    }
    any
}

/// Returns whether the definition at a position may be recursive, and marks it then as called.
fn mark(position: usize, recursive: &[bool], called: &mut Vec<bool>) -> bool
    ensures { length called.new.items ≡ length called.old.items }
{
    if !may_recurse(recursive, position) {
        return false;
    }
    if position < called.len() {
        called[position] = true;
    }
    true
}

/// Whether the definition at a position may reach itself by calls, by what was found of each.
fn may_recurse(recursive: &[bool], position: usize) -> bool {
    match recursive.get(position) {
        Some(found) => *found,
        None => true,
    }
}

/// Which definitions of the program are made in place where they are called.
#[derive(Clone, Copy)]
pub(crate) struct Inlining<'a> {
    /// For each definition whether it may reach itself by calls. Such a definition is never made in place.
    pub(crate) recursive: &'a [bool],
    /// Whether only definitions with strategy parameters are.
    pub(crate) is_sparing: bool,
}

impl<'a> Inlining<'a> {
    /// Whether the definition at a position is made in place, where it is called with so many strategies and no terms.
    pub(crate) fn is_in_place(&self, position: usize, strategies: usize) -> bool {
        if self.is_sparing && strategies == 0 {
            return false;
        }
        !may_recurse(self.recursive, position)
    }
}
