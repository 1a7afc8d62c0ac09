//! How the sparse store reads and fills one place.
ghost use Rattle.std.specs.Prelude.{◌≡◌, ◌<◌, false, Some, None};
ghost use Rattle.stores.specs.Cells.{is_blank};
ghost use Rattle.stores.specs.Stores.{full, written};
ghost use Rattle.sparse.specs.Listing.{found};
ghost use Rattle.sparse.specs.Held.{held};
ghost use Rattle.sparse.specs.Sparses.{sparse_store, Exact};

use crate::node::Node;
use crate::sparse::Sparse;
use stores::cell::Cell;
use values::value::Value;

impl<V: Value> Sparse<V> {
    /// The cell at the place: that of its node, or a blank one.
    pub(crate) fn read(&self, place: u32) -> Cell<V>
        ensures { result ≡ (sparse_store V.Value.ops self.now).cells place }
    {
        // Kept: made even where it is not needed. `unwrap_or_else(Cell::blank)`, whose result is of the type parameter, gets no generated proof.
        self.nodes.get(place).unwrap_or(Cell::blank())
    }

    /// Puts a cell at a place that has no node.
    pub(crate) fn fill(&mut self, place: u32, cell: Cell<V>)
        requires near { place < self.old.nodes.reach }
        requires room { full V.Value.ops.is_zero (sparse_store V.Value.ops self.old) place (is_blank V.Value.ops.is_zero cell) ≡ false }
        requires none { found place (held self.old.nodes) ≡ None }
        ensures store { sparse_store V.Value.ops self.new ≡ written V.Value.ops.is_zero (sparse_store V.Value.ops self.old) place cell }
        ensures exact { Exact V.Value.ops self.old → Exact V.Value.ops self.new }
    {
        if !cell.is_blank() {
            self.spare -= 1;
            self.nodes.put(Node { place, cell });
        }
    }

    /// Puts another cell at a place that has a node, which holds the old one. A blank cell gives the node back.
    pub(crate) fn refill(&mut self, place: u32, old: Cell<V>, cell: Cell<V>)
        requires near { place < self.old.nodes.reach }
        requires room { full V.Value.ops.is_zero (sparse_store V.Value.ops self.old) place (is_blank V.Value.ops.is_zero cell) ≡ false }
        requires old { found place (held self.old.nodes) ≡ Some old }
        ensures store { sparse_store V.Value.ops self.new ≡ written V.Value.ops.is_zero (sparse_store V.Value.ops self.old) place cell }
        ensures exact { Exact V.Value.ops self.old → Exact V.Value.ops self.new }
    {
        let was_blank = old.is_blank();
        if cell.is_blank() {
            self.nodes.take(place, old);
            if !was_blank {
                self.spare += 1;
            }
        } else {
            self.nodes.set(place, cell);
            if was_blank {
                self.spare -= 1;
            }
        }
    }
}
