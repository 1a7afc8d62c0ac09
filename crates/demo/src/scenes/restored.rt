//! A local assignment is undone when its group closes, a global one is not. The library's calls stand here as a caller writes them; the other scenes make them through a table of their own.
use crate::refused::Refused;
use crate::report::{print_registers, print_written};
use engine::fault::EngineFault;
use laws::small_scopes_and_counts;
use registers::assign::{assign, assign_globally};
use registers::group::{close_group, open_group, unwind};
use registers::handle::StillOpen;
use registers::state::State;
use save_stack::entry::Entry;
use save_stack::stack::{SaveStack, Stack};
use stores::cell::Cell;
use stores::flat::Flat;
use tokens::group::GroupKind;
use values::plain::{NoPool, PLAIN_COUNTS, Plain};

/// `\count1=7 \global\count1=9 \count1=8 `
fn three_times(
    store: &mut Flat<Plain>,
    pool: &mut NoPool,
    saves: &mut SaveStack<Plain>,
    state: &State,
) -> Result<(), EngineFault> {
    assign(store, pool, saves, state, 1, Plain::from(7))?;
    assign_globally(store, pool, saves, state, 1, Plain::from(9))?;
    assign(store, pool, saves, state, 1, Plain::from(8))
}

/// `\count1=5 {\count1=7 \global\count1=9 \count1=8 }`
fn calls(
    store: &mut Flat<Plain>,
    pool: &mut NoPool,
    saves: &mut SaveStack<Plain>,
    state: &mut State,
    out: &mut [u8],
) -> Result<(), EngineFault> {
    assign(store, pool, saves, state, 1, Plain::from(5))?;
    let group = open_group(saves, state, out, GroupKind::Simple, 1)?;
    let inside = three_times(store, pool, saves, state);
    // A refused close gives the handle back. It can't be let go, so the group is unwound.
    if let Err(StillOpen { fault, handle }) = close_group(store, pool, saves, state, out, group) {
        unwind(store, pool, saves, state, out, handle);
        return Err(fault);
    }
    inside
}

/// The calls on a table of the small model, and what they come to.
pub(crate) fn play(rt: &HostRuntime) -> anyhow::Result<()> {
    let mut cells = [Cell::blank(); PLAIN_COUNTS as usize];
    let mut entries = [Entry::<Plain>::Held(0); 16];
    let mut words = [0u16; 16];
    let mut out = [0u8; 1024];
    // A table made of this memory obeys the law of scopes and counts.
    small_scopes_and_counts(&mut cells, &mut entries, &mut words);
    let mut store = Flat::new(&mut cells);
    let mut pool = NoPool;
    let mut saves = Stack::limited(&mut entries);
    let mut state = State::new(&mut words);
    calls(&mut store, &mut pool, &mut saves, &mut state, &mut out).map_err(Refused::from)?;
    print_written(rt, &out, &state.trace)?;
    print_registers(rt, &store, &pool)
}
