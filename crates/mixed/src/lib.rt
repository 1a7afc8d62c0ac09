//! The large model's values: zero, a number, a dimension, or a shared list of tokens.
#![tactic(auto)]

pub mod kind;
pub mod mixed;
pub mod text;
