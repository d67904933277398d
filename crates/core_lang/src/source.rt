//! Parts of a program, each with the byte of the definition file at which it stands, for messages. Contracts see the parts alone.
ghost use Rattle.std.specs.Prelude.{◌≡◌};

use crate::coordinate::Coordinate;
use crate::program::CorePattern;
use std::marker::Model;

/// The pattern of a match or of a build, and where it stands in the definition file. Contracts see it as the pattern alone.
#[derive(Debug, Drop)]
pub struct SourcePattern {
    pattern: CorePattern,
    offset: Option<u64>,
}

impl Model for SourcePattern {
    ghost use Rattle.core_lang.specs.declared.program.CorePattern.{CorePattern};

    ghost Value = { CorePattern };

    ghost use Rattle.core_lang.specs.contracts.program.CorePattern as patterns;
    ghost use Rattle.std.specs.Coded.{codes};

    ghost coded = { Prim.hlevel (codes, patterns.the_row.coded) };

    ghost view = { λ source. source.pattern };
}

impl SourcePattern {
    /// The pattern, which stands at this byte of the definition file, or at none that is known. A pattern of the library stands at 0.
    pub fn new(pattern: CorePattern, offset: Option<u64>) -> SourcePattern
        ensures { result ≡ pattern }
    {
        SourcePattern { pattern, offset }
    }

    /// The pattern.
    pub fn pattern(&self) -> &CorePattern
        ensures { result.now ≡ self.now }
    {
        &self.pattern
    }

    /// The byte of the definition file at which the pattern stands, where one is known. No contract speaks of it.
    pub fn offset(&self) -> Option<u64> {
        self.offset
    }
}

/// What a call is of: its coordinate, and where its name stands in the definition file. Contracts see it as the coordinate alone.
#[derive(Debug, Drop)]
pub struct CallTarget {
    coordinate: Coordinate,
    offset: Option<u64>,
}

impl Model for CallTarget {
    ghost use Rattle.core_lang.specs.declared.coordinate.Coordinate.{Coordinate};

    ghost Value = { Coordinate };

    ghost view = { λ target. target.coordinate };
}

impl CallTarget {
    /// The target at this coordinate, whose name stands at this byte of the definition file, or at none that is known. A name of the
    /// library stands at 0.
    pub fn new(coordinate: Coordinate, offset: Option<u64>) -> CallTarget
        ensures { result ≡ coordinate }
    {
        CallTarget { coordinate, offset }
    }

    /// The coordinate.
    pub fn coordinate(&self) -> Coordinate
        ensures { result ≡ self.now }
    {
        self.coordinate
    }

    /// The byte of the definition file at which the name stands, where one is known. No contract speaks of it.
    pub fn offset(&self) -> Option<u64> {
        self.offset
    }
}
