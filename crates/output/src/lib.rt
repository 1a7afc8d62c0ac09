//! Text in lent memory: a printer fills a room as far as it goes, and the writer hands it the rest of an output.
#![tactic(auto)]

pub mod room;
pub mod writer;
