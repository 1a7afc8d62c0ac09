//! The largest of everything that has a largest. `specs/Limits.antt` has the same numbers for contracts.

/// The highest level: inside 254 groups.
pub const MAX_LEVEL: u8 = 255;
/// The most places that a store reaches.
pub const MAX_REACH: usize = 131_072;
/// The most entries of a save stack that are used.
pub const MAX_ENTRIES: usize = 65_535;
/// The most uses that a shared list can have.
pub const MAX_USES: u32 = u32::MAX;
/// The largest size of a number.
pub const MAX_NUMBER: i32 = i32::MAX;
/// The largest size of a dimension, in scaled points.
pub const MAX_DIMENSION: i32 = 1_073_741_823;
