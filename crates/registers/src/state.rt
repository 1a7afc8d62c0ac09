//! What a table is besides its store, its pool and its save stack.
pub use engine::state::State;
