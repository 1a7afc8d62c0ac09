//! How deep the table is in groups.
ghost use Rattle.std.specs.Prelude.{◌≡◌, ◌&&◌, ◌==◌, nat_lt};
ghost use Rattle.engine.specs.Nestings.{bottom, in_group};

use tokens::group::{Group, GroupKind};

/// The level, 1 outside all groups, and the current group, if there is one.
#[derive(Clone, Copy, PartialEq, Eq, Debug)]
pub struct Nesting {
    pub level: u8,
    pub group: Option<Group>,
}

impl Nesting {
    /// Outside all groups.
    pub fn new() -> Nesting
        ensures { result ≡ bottom }
    {
        Nesting {
            level: 1,
            group: None,
        }
    }

    /// Whether the current group is of the kind, with the level inside it.
    pub fn is_at(&self, kind: GroupKind, level: u8) -> bool
        ensures { result ≡ (nat_lt 1 self.now.level && (in_group self.now.group kind && level == self.now.level)) }
    {
        self.level > 1 && self.group.is_some_and(|group| group.kind == kind) && level == self.level
    }
}
