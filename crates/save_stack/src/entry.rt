//! What the save stack holds.
ghost use Rattle.std.specs.Prelude.{◌≡◌};
ghost use Rattle.save_stack.specs.Entries.{is_held as is_held_entry, is_boundary as is_boundary_entry};

use stores::cell::Cell;
use tokens::group::Group;

/// An entry of the save stack.
#[derive(Clone, Copy)]
pub enum Entry<V> {
    /// A cell that a local assignment replaced, and its place.
    Saved(u32, Cell<V>),
    /// A token that is held back until the group closes.
    Held(u16),
    /// Where a group begins; it keeps the outer group, if there is one.
    Boundary(Option<Group>),
}

impl<V> Entry<V> {
    /// Whether it is a token that is held back.
    pub fn is_held(&self) -> bool
        ensures { result ≡ is_held_entry self.now }
    {
        matches!(self, Entry::Held(_))
    }

    /// Whether a group begins here.
    pub fn is_boundary(&self) -> bool
        ensures { result ≡ is_boundary_entry self.now }
    {
        matches!(self, Entry::Boundary(_))
    }
}
