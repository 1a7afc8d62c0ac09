//! Handles of open groups.
use engine::fault::EngineFault;
use tokens::group::GroupKind;

/// An open group: its kind, and the level inside it. It is not let go: the group is closed or unwound with it.
pub struct GroupHandle {
    pub(crate) kind: GroupKind,
    pub(crate) level: u8,
}

/// A refused close: why, and the handle back.
pub struct StillOpen {
    pub fault: EngineFault,
    pub handle: GroupHandle,
}
