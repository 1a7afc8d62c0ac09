//! The lines of the trace and of the listing.
#![tactic(auto)]

pub mod groups;
mod line;
mod parts;
pub mod registers;
