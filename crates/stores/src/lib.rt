//! Where registers keep their cells: the trait of a store, and the flat store.
#![tactic(auto)]

pub mod cell;
pub mod fault;
pub mod flat;
pub mod store;
