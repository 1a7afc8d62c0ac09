//! The flat store: a lent row of cells, each of which can be filled.
ghost use Rattle.std.specs.Prelude.{◌≤◌, length};
ghost use Rattle.tokens.specs.Limits.{top_reach};

pub mod ops;

use crate::cell::Cell;

/// A row of cells by their places.
#[derive(Drop)]
pub struct Flat<'a, V> {
    cells: &'a mut [Cell<V>],
    ghost near: { length cells.now ≤ top_reach },
}
