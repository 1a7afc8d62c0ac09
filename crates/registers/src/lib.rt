//! The library's face: the calls on a table, with handles for open groups.
//!
//! A table is a store, a pool, a save stack and a state; each call is lent those that it uses, and the output of the trace.
#![tactic(auto)]

pub mod assign;
pub mod group;
pub mod handle;
pub mod listing;
pub mod state;
