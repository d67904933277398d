//! The frames of calls and scopes, and the closures of their strategy parameters.
ghost use Rattle.std.specs.Prelude.{◌≡◌, ◌+◌, ◌<◌, ◌≤◌, ℕ, Some, MatchOption, IfOk, OnOk, OnErr, [], ◌∷◌, ◌++◌, length, map, take, slice_get};
ghost use Rattle.strat_code.specs.CodeOf.{argument_of};
ghost use Rattle.strat_steps.specs.State as state;
ghost use Rattle.strat_steps.specs.State.{around, frames_up, place_at, closure_in, closed};
ghost use Rattle.strat_patterns.specs.Frames.{closure_of, frames_in, IsBaseOf, AreLaid};

use crate::memory::{narrow, push_on, release_spare};
use core_lang::Coordinate;
use std::alloc::{AllocError, Global};
use std::marker::Model;
use strat_code::Argument;

/// The closure of a strategy parameter: the address of its code, and the position of the frame that the code runs in.
#[derive(Clone, Copy)]
pub struct Closure {
    /// The address of the code.
    pub entry: u32,
    /// The position of the frame.
    pub frame: u32,
}

/// A frame: its first place, the position of the frame around it, and which closures are those of its strategy parameters.
#[derive(Clone, Copy)]
struct Frame {
    base: u32,
    up: u32,
    first: u32,
    count: u32,
}

/// The frames, the oldest first, with the closures of all of them in one vector. Positions and addresses are held in 32
/// bits; memory is out where one needs more.
#[derive(Drop)]
pub struct Frames {
    frames: Vec<Frame>,
    closures: Vec<Closure>,
}

impl Model for Frames {
    ghost use Rattle.std.specs.Prelude.{List, length};
    ghost use Rattle.strat_steps.specs.State as model;
    ghost use Rattle.strat_patterns.specs.Frames.{frames_in, AreLaid};

    ghost Value = { List model.Frame };

    ghost view = { λ a. frames_in a.closures.items a.frames.items };

    ghost invariant = { λ a. AreLaid 0 a.frames.items (length a.closures.items) };
}

impl Frames {
    /// Returns frames without any frame; this takes no memory.
    pub fn new(alloc: Global) -> Frames
        ensures { result ≡ [] }
    {
        Frames {
            frames: Vec::new(alloc),
            closures: Vec::new(alloc),
        }
    }

    /// Returns the number of frames.
    pub fn len(&self) -> usize
        ensures { result ≡ length self.now }
    {
        self.frames.len()
    }

    /// Removes all frames; the memory is kept.
    pub fn clear(&mut self)
        ensures { self.new ≡ [] }
    {
        self.frames.clear();
        self.closures.clear();
    }

    /// Gives back memory that fewer frames than before have no use for.
    pub fn release_spare(&mut self)
        ensures { self.new ≡ self.old }
    {
        release_spare(&mut self.frames);
        release_spare(&mut self.closures);
    }

    /// Returns the first place of the frame at a position and the position of the frame around it, or `None` if there is no such frame.
    pub fn base_of(&self, here: usize) -> Option<(usize, usize)>
        ensures { IsBaseOf result (slice_get self.now here) }
    {
        let frame = self.frames.get(here)?;
        Some((frame.base as usize, frame.up as usize))
    }

    /// Returns the position of the frame `count` frames up from the one at `here`. Where a frame on the way does not exist, this is the
    /// position at which it was looked for.
    pub fn frames_up(&self, here: usize, count: usize) -> usize
        ensures { result ≡ frames_up self.now here count }
    {
        up_from(&self.frames[..], &self.closures[..], here, count)
    }

    /// Returns the place of a variable, seen from the frame at `here`, if it is below `count`.
    pub(crate) fn place_of(&self, here: usize, variable: Coordinate, count: usize) -> Option<usize>
        ensures { MatchOption result ((i : ℕ) → place_at self.now here variable ≡ Some i →
            count ≤ i) (λ i. (place_at self.now here variable ≡ Some i) × (i < count)) }
    {
        let home = if variable.layers_up == 0 {
            here
        } else {
            self.frames_up(here, variable.layers_up)
        };
        let (base, _) = self.base_of(home)?;
        let place = base.checked_add(variable.slot)?;
        if place < count { Some(place) } else { None }
    }

    /// Returns the closure of a strategy parameter, seen from the frame at `here`. Where there is no such parameter, its entry and frame are
    /// 0.
    pub fn closure_of(&self, here: usize, parameter: Coordinate) -> Closure
        ensures { closure_of result ≡ closure_in self.now here parameter }
    {
        closure_from(&self.frames[..], &self.closures[..], here, parameter)
    }

    /// Adds the frame of a scope, with its first place and the position of the frame around it.
    ///
    /// # Errors
    ///
    /// Returns an error if there is no memory, or if a number needs more than 32 bits. The frames then stay as they are.
    pub fn push_scope(&mut self, base: usize, up: usize) -> Result<(), AllocError>
        ensures pushed { OnOk result (self.new ≡ self.old ++ state.frame base up [] ∷ []) }
        ensures err { OnErr result (self.new ≡ self.old) }
    {
        let first = self.closures.len();
        narrow(base.max(up).max(first))?;
        let frame = Frame {
            base: base as u32,
            up: up as u32,
            first: first as u32,
            count: 0,
        };
        push_on(&mut self.frames, frame)?;
        Ok(())
    }

    /// Adds the frame of a call, with its first place and the position of the frame around it. It has the closures of the arguments, which
    /// are those of the frame at `here`.
    ///
    /// # Errors
    ///
    /// Returns an error if there is no memory, or if a number needs more than 32 bits. The frames then stay as they are.
    #[inline]
    pub fn push_call(
        &mut self,
        base: usize,
        up: usize,
        here: usize,
        arguments: &[Argument],
    ) -> Result<(), AllocError>
        ensures pushed { OnOk result (self.new ≡ self.old ++
            state.frame base up (closed self.old here (map argument_of arguments.now)) ∷ []) }
        ensures err { OnErr result (self.new ≡ self.old) }
    {
        let first = self.closures.len();
        let count = arguments.len();
        narrow(base.max(up).max(first).max(count))?;
        let frame = Frame {
            base: base as u32,
            up: up as u32,
            first: first as u32,
            count: count as u32,
        };
        if count > 0 {
            push_closures(&self.frames[..], &mut self.closures, here, arguments)?;
        }
        if let Err(error) = push_on(&mut self.frames, frame) {
            self.closures.truncate(first);
            return Err(error);
        }
        Ok(())
    }

    /// Removes all frames except the first `count`.
    pub fn cut(&mut self, count: usize)
        ensures { self.new ≡ take count self.old }
    {
        if count >= self.frames.len() {
            return;
        }
        let frame = self.frames[count];
        self.frames.truncate(count);
        self.closures.truncate(frame.first as usize);
    }
}

/// The frame `count` frames up.
fn up_from(frames: &[Frame], closures: &[Closure], here: usize, count: usize) -> usize
    ensures { result ≡ frames_up (frames_in closures.now frames.now) here count }
{
    let _ = closures;
    let mut position = here;
    for _ in 0..count {
        let Some(frame) = frames.get(position) else {
            return position;
        };
        position = frame.up as usize;
    }
    position
}

/// The closure of a strategy parameter.
fn closure_from(
    frames: &[Frame],
    closures: &[Closure],
    here: usize,
    parameter: Coordinate,
) -> Closure
    ensures { closure_of result ≡ closure_in (frames_in closures.now frames.now) here parameter }
{
    let home = up_from(frames, closures, here, parameter.layers_up);
    let none = Closure { entry: 0, frame: 0 };
    let Some(frame) = frames.get(home) else {
        return none;
    };
    if parameter.slot >= frame.count as usize {
        return none;
    }
    let Some(position) = (frame.first as usize).checked_add(parameter.slot) else {
        return none;
    };
    match closures.get(position) {
        Some(closure) => *closure,
        None => none,
    }
}

/// The closure of an argument.
fn closure_of_argument(
    frames: &[Frame],
    closures: &[Closure],
    here: usize,
    argument: &Argument,
) -> Result<Closure, AllocError>
    ensures { IfOk result (λ c. closed (frames_in closures.now frames.now) here
        (argument_of argument.now ∷ []) ≡ closure_of c ∷ []) }
{
    match argument {
        Argument::Code(entry) => {
            narrow((*entry).max(here))?;
            Ok(Closure {
                entry: *entry as u32,
                frame: here as u32,
            })
        }
        Argument::Parameter(parameter) => Ok(closure_from(frames, closures, here, *parameter)),
    }
}

/// Puts the closures of the arguments after those that there are, one for each. After an error there are those that there were.
#[inline(never)]
fn push_closures(
    frames: &[Frame],
    closures: &mut Vec<Closure>,
    here: usize,
    arguments: &[Argument],
) -> Result<(), AllocError>
    requires { AreLaid 0 frames.now (length closures.old.items) }
    ensures closures { OnOk result (map closure_of closures.new.items ≡
        map closure_of closures.old.items ++
        closed (frames_in closures.old.items frames.now) here (map argument_of arguments.now)) }
    ensures kept { take (length closures.old.items) closures.new.items ≡ closures.old.items }
    ensures err { OnErr result (closures.new.items ≡ closures.old.items) }
{
    let count = closures.len();
    if let Err(error) = push_each(frames, closures, here, arguments) {
        closures.truncate(count);
        return Err(error);
    }
    Ok(())
}

/// Puts the closures of the arguments after those that there are. After an error there may be some of them.
#[tactic(auto, using(crate::proofs::FrameLaws::pushing))]
fn push_each(
    frames: &[Frame],
    closures: &mut Vec<Closure>,
    here: usize,
    arguments: &[Argument],
) -> Result<(), AllocError>
    requires { AreLaid 0 frames.now (length closures.old.items) }
    ensures closures { OnOk result (map closure_of closures.new.items ≡
        map closure_of closures.old.items ++
        closed (frames_in closures.old.items frames.now) here (map argument_of arguments.now)) }
    ensures kept { take (length closures.old.items) closures.new.items ≡ closures.old.items }
{
    for argument in arguments {
        let closure = closure_of_argument(frames, &closures[..], here, argument)?;
        push_on(closures, closure)?;
    }
    Ok(())
}
