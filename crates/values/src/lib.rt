//! What a register can hold: the trait of a kind of value, and plain numbers.
#![tactic(auto)]

pub mod name;
pub mod plain;
pub mod scalar;
pub mod value;
