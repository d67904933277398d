//! Instructions.
use core_lang::{Coordinate, CorePattern};
use term_model::Sym;

/// A strategy argument of a call.
#[derive(Clone, Copy, Debug, PartialEq, Eq)]
pub enum Argument {
    /// The address of its code, which runs in the caller's frame.
    Code(usize),
    /// A strategy parameter, whose closure is handed on.
    Parameter(Coordinate),
}

/// Which parts a traversal goes through: those of `all(s)`, `one(s)` or `some(s)`.
#[derive(Clone, Copy, Debug, PartialEq, Eq)]
pub enum Traversal {
    All,
    One,
    Some,
}

/// What a pattern asks of a term's root.
#[derive(Debug, Drop, PartialEq, Eq)]
pub enum Root {
    Any,
    Integer(i64),
    /// A symbol with this number of parts.
    Symbol(Sym, usize),
    /// A list of this number of elements or, where it is open, of at least this number.
    List(usize, bool),
}

/// An alternative in a table of code.
#[derive(Debug, Drop, PartialEq, Eq)]
pub struct Case {
    /// What the alternative asks of a term's root.
    pub root: Root,
    /// The nodes that are charged where the term has another root.
    pub nodes: usize,
    /// The address of the alternative's code.
    pub body: usize,
    /// The address where a failure in that code goes on.
    pub otherwise: usize,
}

/// An instruction. A coordinate in it counts frames, where one in a core counts layers.
///
/// The nodes are those of the derivation that an instruction is charged; one without this number is charged none. It
/// goes on at the next address, unless it says where.
#[derive(Debug, Drop, PartialEq, Eq)]
pub enum Instr {
    /// Goes on.
    Count {
        nodes: usize,
    },
    /// Fails.
    GiveUp {
        nodes: usize,
    },
    /// Matches the term with the pattern.
    Match {
        nodes: usize,
        pattern: CorePattern,
    },
    /// Builds the instance of the pattern.
    Build {
        nodes: usize,
        pattern: CorePattern,
    },
    /// A new frame with this number of places.
    Enter {
        nodes: usize,
        places: usize,
    },
    /// The end of that frame.
    Leave,
    /// This number of places more in the innermost frame.
    Extend {
        nodes: usize,
        places: usize,
    },
    /// The end of these places.
    Shrink {
        places: usize,
    },
    /// Puts on a choice record: a failure goes on at this address.
    Try {
        nodes: usize,
        otherwise: usize,
    },
    /// Takes the choice record off.
    Commit {
        nodes: usize,
        next_address: usize,
    },
    /// Tries the first case that has the term's root, of those of a table without its first `skipped` ones; where none has,
    /// goes on at the last address.
    Select {
        nodes: usize,
        table: usize,
        skipped: usize,
        last: usize,
    },
    Jump {
        next_address: usize,
    },
    /// Runs the code from the next address on, up to its [`Instr::PartDone`], on the parts of the term.
    Traverse {
        nodes: usize,
        traversal: Traversal,
        next_address: usize,
    },
    /// The end of the code for a part.
    PartDone,
    /// Calls the definition whose code is at `entry` and whose layer is that of the frame `frames` frames up; its frame
    /// has `room` further places.
    CallDefinition {
        nodes: usize,
        frames: usize,
        entry: usize,
        room: usize,
        next_address: usize,
        arguments: Vec<Argument>,
        terms: Vec<CorePattern>,
    },
    /// Calls a strategy parameter.
    CallClosure {
        nodes: usize,
        closure: Coordinate,
    },
    /// The end of a definition's code.
    EndDefinition,
    /// The end of an argument's code.
    EndArgument,
    /// Applies the primitive of this name to the instances of the patterns.
    ApplyPrimitive {
        nodes: usize,
        name: Vec<u8>,
        terms: Vec<CorePattern>,
    },
    /// The end of a run.
    Finish,
}
