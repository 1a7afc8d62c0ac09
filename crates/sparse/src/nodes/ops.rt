//! What is done with a store's nodes.
ghost use Rattle.std.specs.Prelude.{◌≡◌, ◌+◌, ◌<◌, ◌≤◌, min, true, [], length, Some, vec_len};
ghost use Rattle.tokens.specs.Limits.{top_reach};
ghost use Rattle.sparse.specs.Listing.{ins, del, over, found, first_from, Absent};
ghost use Rattle.sparse.specs.Chain.{top_nodes, chained};
ghost use Rattle.sparse.specs.Held.{held};

use crate::grow::{insert, overwrite};
use crate::node::{NO_NODE, Node, Tip};
use crate::nodes::Nodes;
use crate::part::{PLACES, Part};
use crate::prune::remove;
use crate::seek::{find, first_from};
use stores::cell::Cell;

/// The most nodes that a store uses.
const MAX_NODES: usize = 65_535;

/// A free node of the rank, with the next one behind it; what it held is left in it.
// Kept: a free node is told by a place past all others, and its next stands for its left branch: one record for all nodes, since the row is handed over with as many as there are.
fn freed<V: Copy>(cell: Cell<V>, rank: u32, next: u32) -> Tip<V>
    requires { rank ≤ top_nodes }
    ensures place { result.node.place ≡ top_reach + rank }
    ensures left { result.left ≡ next }
{
    let node = Node {
        place: PLACES + rank,
        cell,
    };
    Tip {
        node,
        left: next,
        right: NO_NODE,
    }
}

/// Makes one chain of all nodes of a row, and gives the index of its head.
fn chain_up<V: Copy>(tips: &mut [Tip<V>]) -> u32
    requires { length tips.old ≤ top_nodes }
    ensures { chained (length tips.old) tips.new result ≡ true }
{
    let mut head = NO_NODE;
    for (at, tip) in tips.iter_mut().enumerate() {
        *tip = freed(tip.node.cell, at as u32, head);
        head = at as u32;
    }
    head
}

impl<V: Copy> Nodes<V> {
    /// Nodes that are all free, whatever they held, for places below the reach. More of either than there may be is left out.
    pub(crate) fn new(mut tips: Vec<Tip<V>>, reach: u32) -> Self
        ensures reach { result.reach ≡ min reach top_reach }
        ensures loose { result.loose ≡ min (vec_len tips) top_nodes }
        ensures held { held result ≡ [] }
    {
        tips.truncate(MAX_NODES);
        let loose = tips.len() as u32;
        let free = chain_up(&mut tips);
        Nodes {
            tips,
            reach: reach.min(PLACES),
            root: NO_NODE,
            free,
            loose,
        }
    }

    /// The cell of the node of the place, if that has one.
    pub(crate) fn get(&self, place: u32) -> Option<Cell<V>>
        ensures { result ≡ found place (held self.now) }
    {
        find(&self.tips, self.root, Part::whole(self.reach), place)
    }

    /// The first node at or past the place.
    pub(crate) fn next(&self, place: u32) -> Option<Node<V>>
        ensures { result ≡ first_from place (held self.now) }
    {
        first_from(&self.tips, self.root, Part::whole(self.reach), place)
    }

    // Kept: that the reach stays is a clause of each of these three. A model of the nodes would say it in no fewer words.

    /// Frees the node of the place, which holds the cell.
    pub(crate) fn take(&mut self, place: u32, cell: Cell<V>)
        requires { found place (held self.old) ≡ Some cell }
        ensures list { held self.new ≡ del place (held self.old) }
        ensures loose { self.new.loose ≡ self.old.loose + 1 }
        ensures reach { self.new.reach ≡ self.old.reach }
    {
        let spent = freed(cell, self.loose, self.free);
        let part = Part::whole(self.reach);
        let cut = remove(&mut self.tips, self.root, part, place, spent);
        self.root = cut.root;
        self.free = cut.free;
        self.loose += 1;
    }

    /// Puts a cell at a place that has no node.
    pub(crate) fn put(&mut self, node: Node<V>)
        requires reach { node.place < self.old.reach }
        requires loose { 0 < self.old.loose }
        requires absent { Absent node.place (held self.old) }
        ensures list { held self.new ≡ ins node (held self.old) }
        ensures loose { self.new.loose + 1 ≡ self.old.loose }
        ensures reach { self.new.reach ≡ self.old.reach }
    {
        let part = Part::whole(self.reach);
        let next = self.tips[self.free as usize].left;
        self.root = insert(&mut self.tips, self.root, part, node, self.free);
        self.free = next;
        self.loose -= 1;
    }

    /// Puts another cell into the node of the place.
    pub(crate) fn set(&mut self, place: u32, cell: Cell<V>)
        ensures list { held self.new ≡ over place cell (held self.old) }
        ensures loose { self.new.loose ≡ self.old.loose }
        ensures reach { self.new.reach ≡ self.old.reach }
    {
        let part = Part::whole(self.reach);
        overwrite(&mut self.tips, self.root, part, place, cell);
    }
}
