//! The layers around a part of a file, and where an identifier stands in them.
ghost use Rattle.std.specs.Prelude.{◌≡◌, ◌+◌, ◌<◌, [], ◌∷◌, map, IfOk, IfSome};
ghost use Rattle.std.specs.Option.{option_map};
ghost use Rattle.core_lang.specs.Named.{brought, parameter_position, written};
ghost use Rattle.str_desugar.specs.Frames.{around, key_position};
ghost use Rattle.str_desugar.specs.Frames.{callee_at, callee_slot, variable_at, variable_slot};
ghost use Rattle.str_desugar.specs.Layers.{layers_of};
ghost use Rattle.str_desugar.specs.declared.scopes.Scopes.{size-Scopes};
ghost use Rattle.term_model.specs.Results.{Returns};

use crate::keys::Keys;
use crate::marks::Wanted;
use crate::names::{Names, same};
use core_lang::Coordinate;
use keyed_hash::HashKeys;
use std::alloc::AllocError;
use str_syntax::Name;

/// The layers around a part of a file, innermost first. Keys stand in the tree of the file, and layers on the stack.
#[derive(Clone, Copy)]
pub(crate) enum Scopes<'a, 't> {
    /// No layer.
    Outermost,
    /// So many names that the equations bring.
    Brought {
        count: usize,
        outer: &'a Scopes<'a, 't>,
    },
    /// The variables of a scope.
    Variables {
        names: &'a Names,
        outer: &'a Scopes<'a, 't>,
    },
    /// The strategy and term parameters of a definition.
    Parameters {
        strategies: &'a Names,
        terms: &'a Names,
        outer: &'a Scopes<'a, 't>,
    },
    /// The one definition of a `rec`.
    Recursive {
        name: &'a Name,
        outer: &'a Scopes<'a, 't>,
    },
    /// The definitions of the file or of a `let`.
    Defined {
        keys: &'a Keys<'t>,
        outer: &'a Scopes<'a, 't>,
    },
}

/// One more layer. `AllocError` where that leaves 64 bits; memory has no room for so many layers.
fn one_more(layers_up: usize) -> Result<usize, AllocError>
    ensures { Returns result (layers_up + 1) }
{
    layers_up.checked_add(1).ok_or(AllocError)
}

/// The slot of the strategy parameter that is called by this name with these numbers of strategies and terms.
fn parameter(parameters: &Names, wanted: &Wanted, strategies: usize, terms: usize) -> Option<usize>
    ensures { result ≡ parameter_position (map written parameters.now) (written wanted.now)
        strategies terms }
{
    if strategies == 0 && terms == 0 {
        return parameters.position(&*wanted);
    }
    None
}

/// The slot of the definition of a `rec` of the one name, where the other is called with these numbers of strategies and terms.
fn only_definition(
    defined: &Name,
    wanted: &Wanted,
    strategies: usize,
    terms: usize,
) -> Option<usize>
    ensures { result ≡ key_position
        (record { name = written defined.now; strategies = 0; terms = 0 } ∷ []) (written wanted.now)
        strategies terms }
{
    if same(wanted.name(), defined) && strategies == 0 && terms == 0 {
        return Some(0);
    }
    None
}

impl<'a, 't> Scopes<'a, 't> {
    /// The layers around the innermost one. `None` where there is no layer.
    fn outer(&self) -> Option<&'a Scopes<'a, 't>>
        ensures layers { option_map (λ s. layers_of s.now) result ≡ around (layers_of self.now) }
        ensures fewer { IfSome result (λ outer. size-Scopes outer.now < size-Scopes self.now) }
    {
        match self {
            Scopes::Outermost => None,
            Scopes::Brought { outer, .. } => Some(outer),
            Scopes::Variables { outer, .. } => Some(outer),
            Scopes::Parameters { outer, .. } => Some(outer),
            Scopes::Recursive { outer, .. } => Some(outer),
            Scopes::Defined { outer, .. } => Some(outer),
        }
    }

    /// The slot of the variable of this name in the innermost layer.
    fn own_variable(&self, wanted: &Wanted) -> Option<usize>
        ensures { result ≡ variable_slot (layers_of self.now) (written wanted.now) }
    {
        match self {
            Scopes::Outermost => None,
            Scopes::Brought { .. } => None,
            Scopes::Variables { names, .. } => names.position(&*wanted),
            Scopes::Parameters { terms, .. } => terms.position(&*wanted),
            Scopes::Recursive { .. } | Scopes::Defined { .. } => None,
        }
    }

    /// The slot of the ith name that the equations bring in the innermost layer.
    fn own_brought(&self, index: usize) -> Option<usize>
        ensures { result ≡ variable_slot (layers_of self.now) (brought index) }
    {
        match self {
            Scopes::Outermost => None,
            Scopes::Brought { count, .. } => {
                if index < *count {
                    return Some(index);
                }
                None
            }
            Scopes::Variables { .. } => None,
            Scopes::Parameters { .. } => None,
            Scopes::Recursive { .. } | Scopes::Defined { .. } => None,
        }
    }

    /// The slot in the innermost layer of what is called by this name with these numbers of
    /// strategies and terms.
    fn own_callee(&self, wanted: &Wanted, strategies: usize, terms: usize) -> Option<usize>
        ensures { result ≡ callee_slot (layers_of self.now) (written wanted.now) strategies terms }
    {
        match self {
            Scopes::Outermost | Scopes::Brought { .. } | Scopes::Variables { .. } => None,
            Scopes::Parameters {
                strategies: parameters,
                ..
            } => parameter(parameters, &*wanted, strategies, terms),
            Scopes::Recursive { name: only, .. } => only_definition(
                only, &*wanted, strategies, terms,
            ),
            Scopes::Defined { keys, .. } => keys.position(&*wanted, strategies, terms),
        }
    }

    /// Where the variable of this name stands. The keys are those of the tables.
    pub(crate) fn variable(&self, hashing: HashKeys, name: &Name) -> Result<Coordinate, AllocError>
        ensures { Returns result (variable_at (layers_of self.now) (written name.now)) }
    {
        let wanted = Wanted::new(hashing, name);
        let mut layers_up = 0;
        let mut layer = *self;
        while let Some(outer) = layer.outer() {
            if let Some(slot) = layer.own_variable(&wanted) {
                return Ok(Coordinate { layers_up, slot });
            }
            layers_up = one_more(layers_up)?;
            layer = *outer;
        }
        Ok(Coordinate { layers_up, slot: 0 })
    }

    /// Where the ith name that the equations bring stands.
    pub(crate) fn equation_coordinate(&self, index: usize) -> Result<Coordinate, AllocError>
        ensures { Returns result (variable_at (layers_of self.now) (brought index)) }
    {
        let mut layers_up = 0;
        let mut layer = *self;
        while let Some(outer) = layer.outer() {
            if let Some(slot) = layer.own_brought(index) {
                return Ok(Coordinate { layers_up, slot });
            }
            layers_up = one_more(layers_up)?;
            layer = *outer;
        }
        Ok(Coordinate { layers_up, slot: 0 })
    }

    /// Where that stands which is called by this name with these numbers of strategies and terms.
    pub(crate) fn callee(
        &self,
        hashing: HashKeys,
        name: &Name,
        strategies: usize,
        terms: usize,
    ) -> Result<Coordinate, AllocError>
        ensures { IfOk result (λ made. made ≡
            callee_at (layers_of self.now) (written name.now) strategies terms) }
    {
        let wanted = Wanted::new(hashing, name);
        let mut layers_up = 0;
        let mut layer = *self;
        while let Some(outer) = layer.outer() {
            if let Some(slot) = layer.own_callee(&wanted, strategies, terms) {
                return Ok(Coordinate { layers_up, slot });
            }
            layers_up = one_more(layers_up)?;
            layer = *outer;
        }
        Ok(Coordinate { layers_up, slot: 0 })
    }
}
