//! Opening and closing groups.
ghost use Rattle.std.specs.Prelude.{◌≡◌, replicate};
ghost use Rattle.output.specs.Text.{told};
ghost use Rattle.output.specs.Writers.{out_of};
ghost use Rattle.stores.specs.Stores.{StoreModel};
ghost use Rattle.save_stack.specs.Meanings.{stack_of};
ghost use Rattle.engine.specs.Acts.{opens, closes, drops, holds, cause_of, tried, after, unwound_to};
ghost use Rattle.engine.specs.Faults.{answer_of};
ghost use Rattle.engine.specs.Tables.{table_of};
ghost use Rattle.engine.specs.Traces.{lines_of, all_lines};
ghost use Rattle.registers.specs.Handles.{open_answer, close_answer};

use crate::handle::{GroupHandle, StillOpen};
use crate::state::State;
use engine::fault::EngineFault;
use engine::{close, hold, open_group};
use save_stack::stack::SaveStack;
use stores::store::Store;
use tokens::group::{Group, GroupKind};
use values::value::Value;

/// Opens a group of the kind at the line, and hands out its handle.
pub fn open_group<V: Value>(
    saves: &mut SaveStack<V>,
    state: &mut State,
    out: &mut [u8],
    kind: GroupKind,
    line: u16,
) -> Result<GroupHandle, EngineFault>
    ensures answer { (s : StoreModel V) (m : V.Value.Meaning) → result ≡ open_answer kind state.old.nesting
        (cause_of V.Value.ops (opens (record { kind = kind; line = line })) (table_of s m state.old.nesting (stack_of saves.old) (stack_of state.old.pending))) }
    ensures table { (s : StoreModel V) (m : V.Value.Meaning) → table_of s m state.new.nesting (stack_of saves.new) (stack_of state.new.pending)
        ≡ tried V.Value.ops (opens (record { kind = kind; line = line })) (table_of s m state.old.nesting (stack_of saves.old) (stack_of state.old.pending)) }
    ensures traced { (s : StoreModel V) (m : V.Value.Meaning) → out_of state.new.trace out.new
        ≡ told (out_of state.old.trace out.old)
        (lines_of V.Value.ops (opens (record { kind = kind; line = line })) (table_of s m state.old.nesting (stack_of saves.old) (stack_of state.old.pending))) }
{
    let level = open_group::open_group(saves, state, out, Group { kind, line })?;
    Ok(GroupHandle { kind, level })
}

/// Closes the group of the handle; a refused close gives the handle back.
pub fn close_group<S: Store<V>, V: Value>(
    store: &mut S,
    pool: &mut V::Pool,
    saves: &mut SaveStack<V>,
    state: &mut State,
    out: &mut [u8],
    handle: GroupHandle,
) -> Result<(), StillOpen>
    ensures answer { result ≡ close_answer handle state.old.nesting (cause_of V.Value.ops (closes handle.kind handle.level)
        (table_of (S.Store.model store.old) (V.Value.meaning pool.old) state.old.nesting (stack_of saves.old) (stack_of state.old.pending))) }
    ensures table { table_of (S.Store.model store.new) (V.Value.meaning pool.new) state.new.nesting (stack_of saves.new) (stack_of state.new.pending)
        ≡ tried V.Value.ops (closes handle.kind handle.level)
        (table_of (S.Store.model store.old) (V.Value.meaning pool.old) state.old.nesting (stack_of saves.old) (stack_of state.old.pending)) }
    ensures traced { out_of state.new.trace out.new
        ≡ told (out_of state.old.trace out.old) (lines_of V.Value.ops (closes handle.kind handle.level)
        (table_of (S.Store.model store.old) (V.Value.meaning pool.old) state.old.nesting (stack_of saves.old) (stack_of state.old.pending))) }
{
    let GroupHandle { kind, level } = handle;
    close::close_group(store, pool, saves, state, out, kind, level).map_err(|fault| StillOpen {
        fault,
        handle: GroupHandle { kind, level },
    })
}

/// Closes groups while the level is at least the handle's, and drops the tokens that they held back: how many it closed. It is never refused.
pub fn unwind<S: Store<V>, V: Value>(
    store: &mut S,
    pool: &mut V::Pool,
    saves: &mut SaveStack<V>,
    state: &mut State,
    out: &mut [u8],
    handle: GroupHandle,
) -> u8
    ensures answer { result ≡ unwound_to handle.level state.old.nesting.level }
    ensures table { table_of (S.Store.model store.new) (V.Value.meaning pool.new) state.new.nesting (stack_of saves.new) (stack_of state.new.pending)
        ≡ after V.Value.ops (replicate (unwound_to handle.level state.old.nesting.level) drops)
        (table_of (S.Store.model store.old) (V.Value.meaning pool.old) state.old.nesting (stack_of saves.old) (stack_of state.old.pending)) }
    ensures traced { out_of state.new.trace out.new
        ≡ told (out_of state.old.trace out.old) (all_lines V.Value.ops (replicate (unwound_to handle.level state.old.nesting.level) drops)
        (table_of (S.Store.model store.old) (V.Value.meaning pool.old) state.old.nesting (stack_of saves.old) (stack_of state.old.pending))) }
{
    let GroupHandle { kind: _, level } = handle;
    close::unwind(store, pool, saves, state, out, level)
}

/// Holds a token back until the current group closes; outside all groups it does nothing.
// Kept: a call of its own and no `pub use` of the engine's: its contract and its must-fail edit stand at the face, as those of the other calls.
pub fn save_for_after<V: Value>(
    saves: &mut SaveStack<V>,
    state: &State,
    code: u16,
) -> Result<(), EngineFault>
    ensures answer { (s : StoreModel V) (m : V.Value.Meaning) → result ≡ answer_of tt state.now.nesting
        (cause_of V.Value.ops (holds code) (table_of s m state.now.nesting (stack_of saves.old) (stack_of state.now.pending))) }
    ensures table { (s : StoreModel V) (m : V.Value.Meaning) → table_of s m state.now.nesting (stack_of saves.new) (stack_of state.now.pending)
        ≡ tried V.Value.ops (holds code) (table_of s m state.now.nesting (stack_of saves.old) (stack_of state.now.pending)) }
{
    hold::save_for_after(saves, state, code)
}
