//! What a table is besides its store, its pool and its save stack.
ghost use Rattle.std.specs.Prelude.{◌≡◌, length};
ghost use Rattle.engine.specs.Nestings.{bottom};
ghost use Rattle.output.specs.Writers.{fresh};
ghost use Rattle.save_stack.specs.Meanings.{stack_of};
ghost use Rattle.save_stack.specs.Stacks.{empty};

use crate::nesting::Nesting;
use output::writer::Writer;
use save_stack::stack::{Pending, Stack};

/// The current group, the tokens that wait to be read, and how far the trace is written.
#[derive(Drop)]
pub struct State<'a> {
    pub nesting: Nesting,
    pub pending: Pending<'a>,
    pub trace: Writer,
}

impl<'a> State<'a> {
    /// Outside all groups, with nothing pending in the words, at the start of the trace.
    pub fn new(words: &'a mut [u16]) -> Self
        ensures { (result.nesting ≡ bottom) × (stack_of result.pending ≡ empty (length words.old)) × (result.trace ≡ fresh) }
    {
        State {
            nesting: Nesting::new(),
            pending: Stack::new(words),
            trace: Writer::new(),
        }
    }
}
