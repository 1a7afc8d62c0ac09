//! The save stack: what groups have to put back, over a lent row of entries.
#![tactic(auto)]

pub mod entry;
pub mod held;
pub mod row;
pub mod stack;
