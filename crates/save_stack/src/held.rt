//! Tokens that are held back.
ghost use Rattle.std.specs.Prelude.{◌≡◌};
ghost use Rattle.save_stack.specs.Entries.{held_in};
ghost use Rattle.save_stack.specs.Stacks.{row_of};

use crate::entry::Entry;

/// How many tokens the row holds since the newest group began.
pub fn count<V: Copy>(entries: &[Entry<V>], top: usize) -> usize
    ensures { result ≡ held_in (row_of top entries.now).held }
{
    let used = top.min(entries.len());
    // Kept: a `for` that counts, from the row's end. A chain of `take_while`, `filter` and `count` takes twice the time, at each close.
    let mut held = 0;
    for entry in entries[..used].iter().rev() {
        match entry {
            Entry::Boundary(_) => return held,
            Entry::Held(_) => held += 1,
            Entry::Saved(_, _) => {}
        }
    }
    held
}
