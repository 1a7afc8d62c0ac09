//! Words, codes, kinds of group, refusals and limits: each name and each number that crates share has its one home here.
#![tactic(auto)]

pub mod class;
pub mod code;
pub mod group;
pub mod limits;
pub mod refusal;
pub mod word;
