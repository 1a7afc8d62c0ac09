//! A row of entries of which the first `top` are in use: the newest is the last of these. A top past the end counts as the end.
ghost use Rattle.std.specs.Prelude.{◌≡◌, true, false, [], Some, None};
ghost use Rattle.save_stack.specs.Stacks.{row_of, is_full, pushed, newest, under};

/// Puts an entry on top, if one is free: the new top.
pub fn push<E: Copy>(entries: &mut [E], top: usize, entry: E) -> Option<usize>
    ensures { elim result [
      | Some n ↦ (is_full (row_of top entries.old) ≡ false) × (row_of n entries.new ≡ pushed (row_of top entries.old) entry)
      | None ↦ (is_full (row_of top entries.old) ≡ true) × (entries.new ≡ entries.old)
    ] }
{
    // Kept: a test and an index. After `*entries.get_mut(top)? = entry` a proof knows the row's length, and none of its entries.
    if top < entries.len() {
        entries[top] = entry;
        Some(top + 1)
    } else {
        None
    }
}

/// The newest entry, and the top without it.
pub fn pop<E: Copy>(entries: &[E], top: usize) -> Option<(E, usize)>
    ensures { elim result [
      | Some p ↦ (Some p.0 ≡ newest (row_of top entries.now).held) × (row_of p.1 entries.now ≡ under (row_of top entries.now) (row_of top entries.now).held)
      | None ↦ (row_of top entries.now).held ≡ []
    ] }
{
    let used = top.min(entries.len());
    let (newest, rest) = entries[..used].split_last()?;
    Some((*newest, rest.len()))
}
