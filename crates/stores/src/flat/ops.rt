//! What the flat store does.
ghost use Rattle.std.specs.Prelude.{◌≡◌, ◌<◌, min, length, Some, None};
ghost use Rattle.tokens.specs.Limits.{top_reach};
ghost use Rattle.stores.specs.Cells.{is_blank};
ghost use Rattle.stores.specs.Stores.{next_filled};
ghost use Rattle.stores.specs.Flats.{count, row, blank_row};

use crate::cell::Cell;
use crate::fault::StoreFault;
use crate::flat::Flat;
use crate::store::Store;
use tokens::limits::MAX_REACH;
use values::value::Value;

impl<'a, V: Value> Flat<'a, V> {
    /// A store over the cells, which it blanks. What lies past the largest reach is left alone.
    pub fn new(cells: &'a mut [Cell<V>]) -> Self
        ensures { row V.Value.ops result.cells.now ≡ blank_row V.Value.ops (min (length cells.old) top_reach) }
    {
        let reach = cells.len().min(MAX_REACH);
        let cells = &mut cells[..reach];
        // Not `fill`: that asks for a clone that cannot fail, which a `Value` does not promise.
        let blank = Cell::blank();
        cells.fill_with(|| blank);
        Flat { cells }
    }
}

impl<'a, V: Value> Store<V> for Flat<'a, V> {
    ghost model = { λ f. row V.Value.ops f.cells.now };

    fn reach(&self) -> u32 {
        self.cells.len() as u32
    }

    fn spare(&self) -> u32 {
        // Kept: a `for` that counts, over cells that are each read whole. `filter` and `count` take 1.6 to 2.1 times the time; `map` and `sum` take 2.3 times the instructions.
        let cells: &[Cell<V>] = self.cells;
        let mut blanks: u32 = 0;
        for &cell in cells {
            if cell.is_blank() {
                blanks += 1;
            }
        }
        blanks
    }

    fn cell(&self, place: u32) -> Option<Cell<V>> {
        self.cells.get(place as usize).copied()
    }

    // A blank cell that is there is itself spare, so the flat store is never full.
    fn may_write(&self, place: u32, blank: bool) -> Result<(), StoreFault> {
        if place < self.reach() {
            Ok(())
        } else {
            Err(StoreFault::Beyond { place })
        }
    }

    fn write(&mut self, place: u32, value: V, level: u8) -> Result<(), StoreFault> {
        let cell = Cell { value, level };
        self.may_write(place, cell.is_blank())?;
        self.cells[place as usize] = cell;
        Ok(())
    }

    fn next_filled(&self, from: u32) -> Option<u32> {
        // Kept: a `for` over places. As a `find` over them its proof didn't close.
        for place in from..self.reach() {
            let cell = self.cells[place as usize];
            if !cell.is_blank() {
                return Some(place);
            }
        }
        None
    }
}
