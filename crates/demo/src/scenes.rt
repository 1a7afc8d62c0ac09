//! The scenes, in the order in which they are played.
pub mod close_refused;
pub mod dimension_restored;
pub mod held_back;
pub mod large_memory_small;
pub mod lines_lost;
pub mod lists_shared;
pub mod memory_small;
pub mod restored;
pub mod unwound;
