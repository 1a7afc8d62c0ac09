//! The trait of a store.
ghost use Rattle.std.specs.Prelude.{◌≡◌, ◌<◌, ◌≤◌, Some, None};
ghost use Rattle.tokens.specs.Limits.{top_reach};
ghost use Rattle.stores.specs.Cells.{cell as cell_of, blank};
ghost use Rattle.stores.specs.Stores.{StoreModel, cell_at, verdict, writes, next_filled};

use crate::cell::Cell;
use crate::fault::StoreFault;
use values::value::Value;

/// Cells by their places.
pub trait Store<V: Value> {
    ghost model: { Self → StoreModel V };

    /// How many places there are.
    fn reach(&self) -> u32
        ensures value { result ≡ (model self.now).reach }
        ensures near { result ≤ top_reach };

    /// How many blank cells can still be filled.
    fn spare(&self) -> u32
        ensures { result ≡ (model self.now).spare };

    /// The cell at the place, if that is below the reach.
    fn cell(&self, place: u32) -> Option<Cell<V>>
        ensures { result ≡ cell_at (model self.now) place };

    /// Whether a cell that is blank, or not, may be written at the place: told without counting.
    // Kept: whether it is blank is all that the answer depends on; a caller that asks has no cell yet.
    fn may_write(&self, place: u32, blank: bool) -> Result<(), StoreFault>
        ensures { result ≡ verdict V.Value.ops.is_zero (model self.now) place blank };

    /// Makes the place hold the value at the level, unless that is refused.
    // Kept: value and level apart. A trait's method that takes a `Cell<V>` by value gets its clauses only where each impl repeats them.
    fn write(&mut self, place: u32, value: V, level: u8) -> Result<(), StoreFault>
        ensures result { result ≡ verdict V.Value.ops.is_zero (model self.old) place (blank V.Value.ops.is_zero value level) }
        ensures after { model self.new ≡ writes V.Value.ops.is_zero (model self.old) place (cell_of value level) };

    /// The least filled place at or after the given one.
    fn next_filled(&self, from: u32) -> Option<u32>
        ensures value { result ≡ next_filled V.Value.ops.is_zero (model self.now) from }
        ensures near { elim result [ Some p ↦ p < top_reach | None ↦ Unit {0} ] };
}
