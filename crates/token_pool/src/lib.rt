//! Counted, shared token lists in nodes that are handed over once.
#![tactic(auto)]

mod chain;
pub mod cursor;
pub mod iter;
pub mod node;
pub mod pool;
