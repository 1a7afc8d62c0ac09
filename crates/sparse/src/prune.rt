//! A node less in a tree by places.
ghost use Rattle.std.specs.Prelude.{◌≡◌, ◌≢◌, Some, None};
ghost use Rattle.std.specs.List.{slice_get};
ghost use Rattle.sparse.specs.Listing.{behind, del, found};
ghost use Rattle.sparse.specs.Parts.{TreeOf, KeptApart, IsLower};
ghost use Rattle.sparse.specs.Trees.{listed, Inside};

use crate::grow::place_at;
use crate::node::{Cut, Tip};
use crate::part::{Part, Side};
use crate::seek::tip_at;

/// The side of the least node below another, if there is one: the left, unless no node is there.
fn lower<V: Copy>(tips: &[Tip<V>], here: Tip<V>) -> Side
    ensures { IsLower result (slice_get tips.now here.left) }
{
    match tip_at(tips, here.left) {
        Some(_) => Side::Left,
        None => Side::Right,
    }
}

/// Takes the least node, which is here, out of the tree of a part at an index; the node that comes free is left as `spent`.
fn unroot<V: Copy>(tips: &mut [Tip<V>], at: u32, here: Tip<V>, part: Part, spent: Tip<V>) -> Cut
    requires tree { TreeOf part tips.old at }
    requires here { slice_get tips.old at ≡ Some here }
    ensures list { listed part.level tips.new result.root ≡ behind (listed part.level tips.old at) }
    ensures tree { TreeOf part tips.new result.root }
    ensures spent { slice_get tips.new result.free ≡ Some spent }
    ensures inside { Inside part.low part.end (slice_get tips.old result.free) }
    ensures frame { KeptApart part tips.old tips.new }
{
    let side = lower(tips, here);
    let child = here.child(side);
    let Some(next) = tip_at(tips, child) else {
        place_at(tips, at, spent);
        // No node is below, so the index of none is what is left.
        return Cut {
            root: child,
            free: at,
        };
    };
    let half = part.half(side, here.node.place);
    let cut = unroot(tips, child, next, half, spent);
    let risen = Tip {
        node: next.node,
        ..here
    };
    place_at(tips, at, risen.with(side, cut.root));
    Cut { root: at, ..cut }
}

/// Takes the node of the place out of the tree of a part at an index; the node that comes free is left as `spent`.
pub(crate) fn remove<V: Copy>(
    tips: &mut [Tip<V>],
    at: u32,
    part: Part,
    place: u32,
    spent: Tip<V>,
) -> Cut
    requires tree { TreeOf part tips.old at }
    requires held { found place (listed part.level tips.old at) ≢ None }
    ensures list { listed part.level tips.new result.root ≡ del place (listed part.level tips.old at) }
    ensures tree { TreeOf part tips.new result.root }
    ensures spent { slice_get tips.new result.free ≡ Some spent }
    ensures inside { Inside part.low part.end (slice_get tips.old result.free) }
    ensures frame { KeptApart part tips.old tips.new }
{
    let here = tips[at as usize];
    if here.node.place == place {
        return unroot(tips, at, here, part, spent);
    }
    let side = part.side(place);
    let half = part.half(side, here.node.place);
    let cut = remove(tips, here.child(side), half, place, spent);
    place_at(tips, at, here.with(side, cut.root));
    Cut { root: at, ..cut }
}
