//! The sparse store: any place below its reach may be filled, and only filled cells take memory, one node each.
//! The nodes are a tree over the bits of places, so that each call takes a few steps for each of 18 levels at most.
#![tactic(auto)]

mod grow;
pub mod node;
mod nodes;
mod part;
mod prune;
mod seek;
pub mod sparse;
