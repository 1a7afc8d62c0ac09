//! What the sparse store does.
ghost use Rattle.std.specs.Prelude.{◌≡◌, min, vec_len};
ghost use Rattle.tokens.specs.Limits.{top_reach};
ghost use Rattle.stores.specs.Cells.{blank, cell as cell_of};
ghost use Rattle.stores.specs.Stores.{verdict, writes};
ghost use Rattle.sparse.specs.Chain.{top_nodes};
ghost use Rattle.sparse.specs.Sparses.{sparse_store, blank_store, Exact};

use crate::node::Tip;
use crate::nodes::Nodes;
use crate::sparse::Sparse;
use stores::cell::Cell;
use stores::fault::StoreFault;
use stores::store::Store;
use values::value::Value;

impl<V: Value> Sparse<V> {
    /// A blank store over the nodes, whatever they held. More places or nodes than a store may have are left alone.
    pub fn new(nodes: Vec<Tip<V>>, reach: u32) -> Self
        ensures store { sparse_store V.Value.ops result ≡ blank_store V.Value.ops (min reach top_reach) (min (vec_len nodes) top_nodes) }
        ensures exact { Exact V.Value.ops result }
    {
        let nodes = Nodes::new(nodes, reach);
        let spare = nodes.loose;
        Sparse { nodes, spare }
    }
}

impl<V: Value> Store<V> for Sparse<V> {
    ghost model = { λ s. sparse_store V.Value.ops s };

    fn reach(&self) -> u32 {
        self.nodes.reach
    }

    fn spare(&self) -> u32 {
        self.spare
    }

    fn cell(&self, place: u32) -> Option<Cell<V>> {
        (place < self.nodes.reach).then(|| self.read(place))
    }

    fn may_write(&self, place: u32, blank: bool) -> Result<(), StoreFault> {
        let old = self.cell(place).ok_or(StoreFault::Beyond { place })?;
        if old.is_blank() && !blank && self.spare == 0 {
            return Err(StoreFault::Full { place });
        }
        Ok(())
    }

    // The trait's two clauses, and that a store that was exact still is.
    fn write(&mut self, place: u32, value: V, level: u8) -> Result<(), StoreFault>
        ensures result { result ≡ verdict V.Value.ops.is_zero (sparse_store V.Value.ops self.old) place (blank V.Value.ops.is_zero value level) }
        ensures after { sparse_store V.Value.ops self.new ≡ writes V.Value.ops.is_zero (sparse_store V.Value.ops self.old) place (cell_of value level) }
        ensures exact { Exact V.Value.ops self.old → Exact V.Value.ops self.new }
    {
        let cell = Cell { value, level };
        self.may_write(place, cell.is_blank())?;
        match self.nodes.get(place) {
            Some(old) => self.refill(place, old, cell),
            None => self.fill(place, cell),
        }
        Ok(())
    }

    fn next_filled(&self, from: u32) -> Option<u32> {
        let mut at = from;
        while let Some(node) = self.nodes.next(at) {
            if !node.cell.is_blank() {
                return Some(node.place);
            }
            at = node.place + 1;
        }
        None
    }
}
