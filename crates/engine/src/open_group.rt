//! The beginning of a group.
ghost use Rattle.std.specs.Prelude.{◌≡◌, ◌+◌};
ghost use Rattle.output.specs.Text.{told};
ghost use Rattle.output.specs.Writers.{out_of};
ghost use Rattle.stores.specs.Stores.{StoreModel};
ghost use Rattle.save_stack.specs.Meanings.{stack_of};
ghost use Rattle.engine.specs.Acts.{opens, cause_of, tried};
ghost use Rattle.engine.specs.Faults.{answer_of};
ghost use Rattle.engine.specs.Tables.{table_of};
ghost use Rattle.engine.specs.Traces.{lines_of};

use crate::fault::EngineFault;
use crate::nesting::Nesting;
use crate::state::State;
use save_stack::entry::Entry;
use save_stack::stack::SaveStack;
use tokens::group::Group;
use tokens::limits::MAX_LEVEL;
use tokens::refusal::Refusal;
use trace::groups::{GroupEvent, group_line};
use values::value::Value;

/// Opens a group: the level inside it.
pub fn open_group<V: Value>(
    saves: &mut SaveStack<V>,
    state: &mut State,
    out: &mut [u8],
    group: Group,
) -> Result<u8, EngineFault>
    ensures answer { (s : StoreModel V) (m : V.Value.Meaning) → result ≡ answer_of (state.old.nesting.level + 1) state.old.nesting
        (cause_of V.Value.ops (opens group) (table_of s m state.old.nesting (stack_of saves.old) (stack_of state.old.pending))) }
    ensures table { (s : StoreModel V) (m : V.Value.Meaning) → table_of s m state.new.nesting (stack_of saves.new) (stack_of state.new.pending)
        ≡ tried V.Value.ops (opens group) (table_of s m state.old.nesting (stack_of saves.old) (stack_of state.old.pending)) }
    ensures traced { (s : StoreModel V) (m : V.Value.Meaning) → out_of state.new.trace out.new
        ≡ told (out_of state.old.trace out.old) (lines_of V.Value.ops (opens group) (table_of s m state.old.nesting (stack_of saves.old) (stack_of state.old.pending))) }
    ensures pending { state.new.pending ≡ state.old.pending }
{
    let nesting = state.nesting;
    if nesting.level >= MAX_LEVEL {
        return Err(EngineFault::of_call(Refusal::TooDeep, nesting));
    }
    if saves.is_full() {
        return Err(EngineFault::of_call(Refusal::NoEntry, nesting));
    }
    saves.push(Entry::Boundary(nesting.group));
    let level = nesting.level + 1;
    state.nesting = Nesting {
        level,
        group: Some(group),
    };
    group_line(&mut state.trace, out, GroupEvent::Entering, group, level);
    Ok(level)
}
