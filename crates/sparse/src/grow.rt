//! A node more in a tree by places, and another cell in one that is there.
ghost use Rattle.std.specs.Prelude.{◌≡◌, ℕ, ◌<◌, length, ◌≢◌, slice_set};
ghost use Rattle.std.specs.List.{slice_get};
ghost use Rattle.sparse.specs.Listing.{Absent, ins, over, lesser, greater};
ghost use Rattle.sparse.specs.Parts.{InPart, TreeOf, KeptApart};
ghost use Rattle.sparse.specs.Trees.{listed, Above, Apart};

use crate::node::{Node, Tip};
use crate::part::Part;
use crate::seek::tip_at;
use stores::cell::Cell;

/// Two nodes, the one of the lesser place first.
fn in_order<V: Copy>(one: Node<V>, other: Node<V>) -> (Node<V>, Node<V>)
    ensures first { result.0 ≡ lesser one other }
    ensures second { result.1 ≡ greater one other }
{
    if other.place < one.place {
        (other, one)
    } else {
        (one, other)
    }
}

/// Puts a node at an index.
pub(crate) fn place_at<V: Copy>(tips: &mut [Tip<V>], at: u32, tip: Tip<V>)
    requires { at < length tips.old }
    ensures { tips.new ≡ slice_set tips.old at tip }
{
    tips[at as usize] = tip;
}

/// Puts a node into the tree of a part at an index; a free node takes what moves down last. Gives the index of the tree.
pub(crate) fn insert<V: Copy>(
    tips: &mut [Tip<V>],
    at: u32,
    part: Part,
    node: Node<V>,
    free: u32,
) -> u32
    requires tree { TreeOf part tips.old at }
    requires place { InPart part node.place }
    requires absent { Absent node.place (listed part.level tips.old at) }
    requires free { Above part.end (slice_get tips.old free) }
    ensures list { listed part.level tips.new result ≡ ins node (listed part.level tips.old at) }
    ensures tree { TreeOf part tips.new result }
    ensures frame { (j : ℕ) → (j ≢ free) → Apart part.low part.end (slice_get tips.old j) → slice_get tips.new j ≡ slice_get tips.old j }
{
    let Some(here) = tip_at(tips, at) else {
        // No node is at this index, and so none below the new one.
        let leaf = Tip {
            node,
            left: at,
            right: at,
        };
        place_at(tips, free, leaf);
        return free;
    };
    let (first, second) = in_order(here.node, node);
    let here = Tip {
        node: first,
        ..here
    };
    // The lesser node is written before the other goes down: below it only what lies past it may change.
    place_at(tips, at, here);
    let side = part.side(second.place);
    let half = part.half(side, first.place);
    let child = insert(tips, here.child(side), half, second, free);
    place_at(tips, at, here.with(side, child));
    at
}

/// Puts another cell into the node of the place, in the tree of a part at an index.
pub(crate) fn overwrite<V: Copy>(
    tips: &mut [Tip<V>],
    at: u32,
    part: Part,
    place: u32,
    cell: Cell<V>,
)
    requires { TreeOf part tips.old at }
    ensures list { listed part.level tips.new at ≡ over place cell (listed part.level tips.old at) }
    ensures tree { TreeOf part tips.new at }
    ensures frame { KeptApart part tips.old tips.new }
{
    let Some(here) = tip_at(tips, at) else {
        return;
    };
    if here.node.place == place {
        let node = Node { place, cell };
        place_at(tips, at, Tip { node, ..here });
    } else {
        let side = part.side(place);
        let half = part.half(side, here.node.place);
        overwrite(tips, here.child(side), half, place, cell);
    }
}
