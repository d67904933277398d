//! How a call of a definition of the program is made whose strategy arguments are known.
ghost use Rattle.std.specs.Prelude.{◌≡◌, IfOk, OnOk};
ghost use Rattle.strat_compile.specs.Output.{emitted_of};
ghost use Rattle.strat_compile.specs.Ways.{AllowsWay};

use crate::expansion::body_fits;
use crate::layers::{Known, ProgramDefinition};
use crate::output::Output;
use crate::recursion::Inlining;
use core_lang::CorePattern;
use std::alloc::{AllocError, Global};

/// How a call is made.
#[derive(Clone, Copy)]
pub(crate) enum Way {
    /// By the definition's body, in place.
    InPlace,
    /// By a call of a specialization.
    Specialized,
    /// As any other call.
    Ordinary,
}

/// How many strategies and nodes of patterns an expansion has at most: what is emitted in place of a call, or for a specialization and
/// what is in place there.
pub(crate) const EXPANSION_LIMIT: usize = 600;

/// How deep strategies are nested at most in an expansion, so that emitting it takes little of the call stack.
const EXPANSION_DEPTH: usize = 64;

/// How large the code of all expansions is at most, beside one for each other instruction, before the last expansion is emitted: so code is
/// linear in the program, with a small factor.
const FREE_EXPANSIONS: usize = 10_000;

/// How a call is made: in place, where the definition has no term parameters and does not call itself, by a specialization, where
/// it has strategy parameters, and else as any other call, as it is, too, where the code would be too large.
pub(crate) fn way_of<'a>(
    alloc: Global,
    out: &mut Output,
    slot: usize,
    definition: ProgramDefinition<'a>,
    arguments: &'a [Known<'a>],
    terms: &[CorePattern],
) -> Result<Way, AllocError>
    ensures view { OnOk result (emitted_of out.new ≡ emitted_of out.old) }
    ensures way { IfOk result (λ way. AllowsWay way definition.entry terms.now) }
{
    if out.keeps_calls {
        return Ok(Way::Ordinary);
    }
    let has_terms = !terms.is_empty();
    if !out.is_expanding && !out.may_expand(alloc, slot, definition, arguments, has_terms)? {
        return Ok(Way::Ordinary);
    }
    if !has_terms && definition.def.terms == 0 {
        if out.inlining().is_in_place(slot, arguments.len()) {
            return Ok(Way::InPlace);
        }
    }
    if arguments.is_empty() {
        return Ok(Way::Ordinary);
    }
    Ok(Way::Specialized)
}

impl Output {
    /// Which definitions are made in place.
    fn inlining(&self) -> Inlining<'_> {
        Inlining {
            recursive: self.recursive.as_slice(),
            is_sparing: self.is_sparing,
        }
    }

    /// Whether an expansion is small enough, if need be with definitions in place that have strategy parameters alone.
    fn may_expand<'a>(
        &mut self,
        alloc: Global,
        slot: usize,
        definition: ProgramDefinition<'a>,
        arguments: &'a [Known<'a>],
        has_terms: bool,
    ) -> Result<bool, AllocError>
        ensures { emitted_of self.new ≡ emitted_of self.old }
    {
        self.set_sparing(false);
        if self.fits_within(alloc, slot, definition, arguments, has_terms)? {
            return Ok(true);
        }
        self.set_sparing(true);
        self.fits_within(alloc, slot, definition, arguments, has_terms)
    }

    #[tactic(auto, unfolding(crate::specs::Output::emitted_of))]
    fn set_sparing(&mut self, is_sparing: bool)
        ensures { emitted_of self.new ≡ emitted_of self.old }
    {
        self.is_sparing = is_sparing;
    }

    /// Whether an expansion is small enough.
    fn fits_within<'a>(
        &self,
        alloc: Global,
        slot: usize,
        definition: ProgramDefinition<'a>,
        arguments: &'a [Known<'a>],
        has_terms: bool,
    ) -> Result<bool, AllocError> {
        let mut left = EXPANSION_LIMIT;
        let depth = EXPANSION_DEPTH;
        let inlining = self.inlining();
        if !body_fits(
            alloc, definition, slot, arguments, has_terms, &inlining, depth, &mut left,
        )? {
            return Ok(false);
        }
        Ok(self.has_room(EXPANSION_LIMIT.saturating_sub(left)))
    }

    /// Returns whether an expansion of so many strategies and nodes of patterns may begin.
    fn has_room(&self, more: usize) -> bool {
        let others = self.instrs.len().saturating_sub(self.expanded);
        let allowed = others.saturating_add(FREE_EXPANSIONS);
        self.expanded.saturating_add(more) <= allowed
    }
}
