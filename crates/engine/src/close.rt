//! The end of groups.
ghost use Rattle.std.specs.Prelude.{◌≡◌, ◌-◌, replicate};
ghost use Rattle.output.specs.Text.{told};
ghost use Rattle.output.specs.Writers.{out_of};
ghost use Rattle.save_stack.specs.Meanings.{stack_of};
ghost use Rattle.engine.specs.Acts.{closes, drops, cause_of, pops, tried, after, unwound_to};
ghost use Rattle.engine.specs.Faults.{answer_of};
ghost use Rattle.engine.specs.HeldTokens.{is_kept};
ghost use Rattle.engine.specs.Nestings.{inside};
ghost use Rattle.engine.specs.Tables.{table_of};
ghost use Rattle.engine.specs.Traces.{pop_lines, leaving_lines, lines_of, all_lines};

use crate::fault::EngineFault;
use crate::nesting::Nesting;
use crate::restore::restore;
use crate::state::State;
use output::writer::Writer;
use save_stack::entry::Entry;
use save_stack::stack::SaveStack;
use stores::store::Store;
use tokens::group::{Group, GroupKind};
use tokens::refusal::Refusal;
use trace::groups::{GroupEvent, group_line};
use values::value::Value;

/// What becomes of the tokens that a group held back.
// Kept: an enum and a test. A closure that is handed in is no plainer: its clauses would say of pending what the definition of a close says by the same two cases.
#[derive(Clone, Copy, PartialEq, Eq)]
pub(crate) enum HeldTokens {
    /// They go onto pending.
    Kept,
    /// They are dropped.
    Dropped,
}

/// Leaves the current group: the outer one is the current one again.
fn leave(nesting: &mut Nesting, writer: &mut Writer, out: &mut [u8], outer: Option<Group>)
    ensures nesting { nesting.new ≡ inside (nesting.old.level - 1) outer }
    ensures traced { out_of writer.new out.new
        ≡ told (out_of writer.old out.old) (leaving_lines nesting.old.group nesting.old.level) }
{
    if let Some(group) = nesting.group {
        group_line(writer, out, GroupEvent::Leaving, group, nesting.level);
    }
    *nesting = Nesting {
        level: nesting.level.saturating_sub(1),
        group: outer,
    };
}

/// Takes the entries of the current group off the stack, newest first. The tokens that it held back go onto pending, or are dropped.
fn pop_group<S: Store<V>, V: Value>(
    store: &mut S,
    pool: &mut V::Pool,
    saves: &mut SaveStack<V>,
    state: &mut State,
    out: &mut [u8],
    held: HeldTokens,
)
    ensures table { table_of (S.Store.model store.new) (V.Value.meaning pool.new) state.new.nesting (stack_of saves.new) (stack_of state.new.pending)
        ≡ pops V.Value.ops (is_kept held) (stack_of saves.old).held
        (table_of (S.Store.model store.old) (V.Value.meaning pool.old) state.old.nesting (stack_of saves.old) (stack_of state.old.pending)) }
    ensures traced { out_of state.new.trace out.new
        ≡ told (out_of state.old.trace out.old) (pop_lines V.Value.ops (is_kept held) (stack_of saves.old).held
        (table_of (S.Store.model store.old) (V.Value.meaning pool.old) state.old.nesting (stack_of saves.old) (stack_of state.old.pending))) }
{
    while let Some(entry) = saves.pop() {
        match entry {
            Entry::Saved(place, cell) => restore(store, pool, &mut state.trace, out, place, cell),
            Entry::Held(code) => {
                if held == HeldTokens::Kept {
                    state.pending.push(code);
                }
            }
            Entry::Boundary(outer) => {
                leave(&mut state.nesting, &mut state.trace, out, outer);
                return;
            }
        }
    }
    let outer = state.nesting.group;
    leave(&mut state.nesting, &mut state.trace, out, outer);
}

/// Closes the current group, if it is of the kind and level; the tokens that it held back go onto pending.
// Kept: kind and level, and no handle: the engine knows of none.
pub fn close_group<S: Store<V>, V: Value>(
    store: &mut S,
    pool: &mut V::Pool,
    saves: &mut SaveStack<V>,
    state: &mut State,
    out: &mut [u8],
    kind: GroupKind,
    level: u8,
) -> Result<(), EngineFault>
    ensures answer { result ≡ answer_of tt state.old.nesting (cause_of V.Value.ops (closes kind level)
        (table_of (S.Store.model store.old) (V.Value.meaning pool.old) state.old.nesting (stack_of saves.old) (stack_of state.old.pending))) }
    ensures table { table_of (S.Store.model store.new) (V.Value.meaning pool.new) state.new.nesting (stack_of saves.new) (stack_of state.new.pending)
        ≡ tried V.Value.ops (closes kind level)
        (table_of (S.Store.model store.old) (V.Value.meaning pool.old) state.old.nesting (stack_of saves.old) (stack_of state.old.pending)) }
    ensures traced { out_of state.new.trace out.new
        ≡ told (out_of state.old.trace out.old) (lines_of V.Value.ops (closes kind level)
        (table_of (S.Store.model store.old) (V.Value.meaning pool.old) state.old.nesting (stack_of saves.old) (stack_of state.old.pending))) }
{
    let nesting = state.nesting;
    if !nesting.is_at(kind, level) {
        return Err(EngineFault::of_call(Refusal::OtherGroup, nesting));
    }
    if state.pending.room() < saves.held_in_group() {
        return Err(EngineFault::of_call(Refusal::NoWords, nesting));
    }
    pop_group(store, pool, saves, state, out, HeldTokens::Kept);
    Ok(())
}

/// Closes groups while the level is at least the given one, and drops the tokens that they held back: how many it closed.
pub fn unwind<S: Store<V>, V: Value>(
    store: &mut S,
    pool: &mut V::Pool,
    saves: &mut SaveStack<V>,
    state: &mut State,
    out: &mut [u8],
    level: u8,
) -> u8
    ensures answer { result ≡ unwound_to level state.old.nesting.level }
    ensures table { table_of (S.Store.model store.new) (V.Value.meaning pool.new) state.new.nesting (stack_of saves.new) (stack_of state.new.pending)
        ≡ after V.Value.ops (replicate (unwound_to level state.old.nesting.level) drops)
        (table_of (S.Store.model store.old) (V.Value.meaning pool.old) state.old.nesting (stack_of saves.old) (stack_of state.old.pending)) }
    ensures traced { out_of state.new.trace out.new
        ≡ told (out_of state.old.trace out.old) (all_lines V.Value.ops (replicate (unwound_to level state.old.nesting.level) drops)
        (table_of (S.Store.model store.old) (V.Value.meaning pool.old) state.old.nesting (stack_of saves.old) (stack_of state.old.pending))) }
{
    let from = state.nesting.level;
    while state.nesting.level > 1 && state.nesting.level >= level {
        pop_group(store, pool, saves, state, out, HeldTokens::Dropped);
    }
    from - state.nesting.level
}
