//! What a tree by places holds, told in one walk down. An index past the row is no node.
ghost use Rattle.std.specs.Prelude.{◌≡◌};
ghost use Rattle.std.specs.List.{slice_get};
ghost use Rattle.sparse.specs.Listing.{found, first_from};
ghost use Rattle.sparse.specs.Parts.{TreeOf};
ghost use Rattle.sparse.specs.Trees.{listed};

use crate::node::{Node, Tip};
use crate::part::{Part, Side};
use stores::cell::Cell;

/// The node at an index, if there is one.
pub(crate) fn tip_at<V: Copy>(tips: &[Tip<V>], at: u32) -> Option<Tip<V>>
    ensures { result ≡ slice_get tips.now at }
{
    tips.get(at as usize).copied()
}

/// The cell of the node of the place, in the tree of a part at an index.
// Kept: the row, an index and its part as three parameters. What reads borrows the row by `&` and what writes by `&mut`, so a struct of the three would be two types.
pub(crate) fn find<V: Copy>(tips: &[Tip<V>], at: u32, part: Part, place: u32) -> Option<Cell<V>>
    requires { TreeOf part tips.now at }
    ensures { result ≡ found place (listed part.level tips.now at) }
{
    let here = tip_at(tips, at)?;
    if here.node.place == place {
        return Some(here.node.cell);
    }
    let side = part.side(place);
    let half = part.half(side, here.node.place);
    find(tips, here.child(side), half, place)
}

/// The first node at or past the place, in the tree of a part at an index.
pub(crate) fn first_from<V: Copy>(
    tips: &[Tip<V>],
    at: u32,
    part: Part,
    place: u32,
) -> Option<Node<V>>
    requires { TreeOf part tips.now at }
    ensures { result ≡ first_from place (listed part.level tips.now at) }
{
    let here = tip_at(tips, at)?;
    let past = here.node.place;
    if place <= past {
        return Some(here.node);
    }
    if place < part.middle() {
        let left = part.half(Side::Left, past);
        if let Some(node) = first_from(tips, here.left, left, place) {
            return Some(node);
        }
    }
    first_from(tips, here.right, part.half(Side::Right, past), place)
}
