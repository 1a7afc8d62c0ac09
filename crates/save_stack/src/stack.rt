//! Stacks over lent rows of entries.
ghost use Rattle.std.specs.Prelude.{◌≡◌, min, not, [], length, Some, None};
ghost use Rattle.tokens.specs.Limits.{top_entries};
ghost use Rattle.save_stack.specs.Stacks.{row_of, empty, is_full, pushed, newest, under};
ghost use Rattle.save_stack.specs.Meanings.{stack_of};
ghost use Rattle.save_stack.specs.Entries.{held_in};

use crate::entry::Entry;
use crate::{held, row};
use tokens::limits::MAX_ENTRIES;

/// A stack of entries, whatever they are, in a row that is lent to it.
// Kept: a row with a length beside it, since the row is lent when the stack is made and never grows; the functions of `row` are handed it.
#[derive(Drop)]
pub struct Stack<'a, E> {
    entries: &'a mut [E],
    top: usize,
}

/// What groups put back when they close.
pub type SaveStack<'a, V> = Stack<'a, Entry<V>>;

/// Tokens that wait to be read, the next on top.
pub type Pending<'a> = Stack<'a, u16>;

impl<'a, E: Copy> Stack<'a, E> {
    /// An empty stack in the row.
    pub fn new(entries: &'a mut [E]) -> Self
        ensures { stack_of result ≡ empty (length entries.old) }
    {
        Stack { entries, top: 0 }
    }

    /// An empty stack that uses no more of the row than a save stack may.
    pub fn limited(entries: &'a mut [E]) -> Self
        ensures { stack_of result ≡ empty (min (length entries.old) top_entries) }
    {
        let used = entries.len().min(MAX_ENTRIES);
        Stack::new(&mut entries[..used])
    }

    /// How many more entries it takes.
    pub fn room(&self) -> usize
        ensures { result ≡ (stack_of self.now).room }
    {
        self.entries.len().saturating_sub(self.top)
    }

    /// Whether it takes no more.
    pub fn is_full(&self) -> bool
        ensures { result ≡ is_full (stack_of self.now) }
    {
        self.room() == 0
    }

    /// Puts an entry on top; false, and nothing, if it takes no more.
    pub fn push(&mut self, entry: E) -> bool
        ensures result { result ≡ not (is_full (stack_of self.old)) }
        ensures after { stack_of self.new ≡ pushed (stack_of self.old) entry }
    {
        let Some(more) = row::push(self.entries, self.top, entry) else {
            return false;
        };
        self.top = more;
        true
    }

    /// Takes the newest entry off.
    pub fn pop(&mut self) -> Option<E>
        ensures result { result ≡ newest (stack_of self.old).held }
        ensures after { stack_of self.new ≡ under (stack_of self.old) (stack_of self.old).held }
    {
        let (entry, top) = self.last()?;
        self.top = top;
        Some(entry)
    }

    /// The newest entry, and the top without it.
    // Kept: apart from `pop`. Where the row is lent on through a `&mut self`, a proof loses what stands in it.
    fn last(&self) -> Option<(E, usize)>
        ensures { elim result [
          | Some p ↦ (Some p.0 ≡ newest (stack_of self.now).held) × (row_of p.1 self.now.entries.now ≡ under (stack_of self.now) (stack_of self.now).held)
          | None ↦ (stack_of self.now).held ≡ []
        ] }
    {
        row::pop(self.entries, self.top)
    }
}

impl<'a, V: Copy> Stack<'a, Entry<V>> {
    /// How many tokens are held back in the innermost group.
    pub fn held_in_group(&self) -> usize
        ensures { result ≡ held_in (stack_of self.now).held }
    {
        held::count(self.entries, self.top)
    }
}
