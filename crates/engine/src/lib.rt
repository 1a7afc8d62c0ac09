//! Groups and registers: what the calls do, without handles.
#![tactic(auto)]

// Kept: store, pool, save stack, state and output are lent to each call one by one, and public calls keep their parameters. A table is never one struct: the save stack stands beside the store and the pool, and never in one value with them.

pub mod assign;
pub mod close;
pub mod demand;
pub mod fault;
pub mod hold;
pub mod listing;
pub mod nesting;
pub mod open_group;
pub mod restore;
pub mod state;
pub mod target;
