//! Where an identifier of a resolved program stands.

/// The coordinate of a variable or of what is called: how many layers up it is, and its slot in that layer.
///
/// Layers are counted from the innermost one, which is 0 layers up. In a layer of variables the slots are those of the
/// variables for a variable, and those of the strategy parameters for a call; in a layer of definitions they are those
/// of the definitions. Both begin at 0. A *place* is something else: a position in the bindings.
#[derive(Clone, Copy, Debug, PartialEq, Eq)]
pub struct Coordinate {
    /// How many layers up.
    pub layers_up: usize,
    /// The position there.
    pub slot: usize,
}
