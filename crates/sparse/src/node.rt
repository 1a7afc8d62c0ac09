//! What the sparse store is made of.
ghost use Rattle.std.specs.Prelude.{◌≡◌};
ghost use Rattle.stores.specs.Cells.{cell};
ghost use Rattle.sparse.specs.Listing.{empty_tip};
ghost use Rattle.sparse.specs.Parts.{child, with_child};

use crate::part::Side;
use stores::cell::Cell;
use values::value::Value;

/// A place, and the cell that stands there.
#[derive(Clone, Copy)]
pub struct Node<V> {
    pub(crate) place: u32,
    pub(crate) cell: Cell<V>,
}

/// A node of a tree by places: it holds the least place of its part, and its branches hold the rest, the lower half to the left.
#[derive(Clone, Copy)]
pub struct Tip<V> {
    pub(crate) node: Node<V>,
    pub(crate) left: u32,
    pub(crate) right: u32,
}

impl<V: Value> Tip<V> {
    /// A node to hand over to a store.
    pub fn empty() -> Self
        ensures { result ≡ empty_tip V.Value.ops.zero }
    {
        let node = Node {
            place: 0,
            cell: Cell::blank(),
        };
        Tip {
            node,
            left: 0,
            right: 0,
        }
    }
}

impl<V: Copy> Tip<V> {
    /// The index of its child at a side, or one of no node.
    pub(crate) fn child(self, side: Side) -> u32
        ensures { result ≡ child side self }
    {
        match side {
            Side::Left => self.left,
            Side::Right => self.right,
        }
    }

    /// The same node with another child at a side.
    pub(crate) fn with(self, side: Side, child: u32) -> Self
        ensures { result ≡ with_child side child self }
    {
        match side {
            Side::Left => Tip {
                left: child,
                ..self
            },
            Side::Right => Tip {
                right: child,
                ..self
            },
        }
    }
}

/// What is left of a part of a tree, and the node that came free.
#[derive(Clone, Copy)]
pub struct Cut {
    pub(crate) root: u32,
    pub(crate) free: u32,
}

/// An index of no node, past every row.
// Kept: a number for none, since an Option<u32>, and here also an Option<NonZeroU32>, takes twice the room in memory that is handed over.
pub(crate) const NO_NODE: u32 = u32::MAX;
