//! What stands at a place.
ghost use Rattle.std.specs.Prelude.{◌≡◌};
ghost use Rattle.stores.specs.Cells.{cell, is_blank};

use values::value::Value;

/// A value, and the level at which it was assigned, from 1 to 255.
#[derive(Clone, Copy)]
pub struct Cell<V> {
    pub value: V,
    pub level: u8,
}

impl<V: Value> Cell<V> {
    /// The blank cell: zero at level 1.
    pub fn blank() -> Self
        ensures { result ≡ cell V.Value.ops.zero 1 }
    {
        Cell {
            value: V::zero(),
            level: 1,
        }
    }

    /// Whether it is blank: zero at level 1.
    pub fn is_blank(&self) -> bool
        ensures { result ≡ is_blank V.Value.ops.is_zero self.now }
    {
        self.value.is_zero() && self.level == 1
    }
}
