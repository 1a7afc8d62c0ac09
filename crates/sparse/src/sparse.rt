//! The sparse store: nodes that it was handed, one for each filled cell.
ghost use Rattle.std.specs.Prelude.{◌≤◌};

mod fill;
pub mod ops;

use crate::nodes::Nodes;

/// Cells by their places, and how many blank ones can still be filled.
/// No node is ever given a blank cell, so that is the number of free nodes; one that held such a cell would count as none.
// Kept: a number beside the nodes, and no ghost field that no node is blank. Such a field speaks of the value's zero test, and so asks of whoever names the type that `V` be a `Value`.
#[derive(Drop)]
pub struct Sparse<V> {
    nodes: Nodes<V>,
    spare: u32,
    ghost room: { spare ≤ nodes.loose },
}
