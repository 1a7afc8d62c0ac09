//! Tokens held back until a group closes.
ghost use Rattle.std.specs.Prelude.{◌≡◌};
ghost use Rattle.stores.specs.Stores.{StoreModel};
ghost use Rattle.save_stack.specs.Meanings.{stack_of};
ghost use Rattle.engine.specs.Acts.{holds, cause_of, tried};
ghost use Rattle.engine.specs.Faults.{answer_of};
ghost use Rattle.engine.specs.Tables.{table_of};

use crate::fault::EngineFault;
use crate::state::State;
use save_stack::entry::Entry;
use save_stack::stack::SaveStack;
use tokens::code::is_code;
use tokens::refusal::Refusal;
use values::value::Value;

/// Holds a token back until the current group closes; outside all groups it does nothing.
pub fn save_for_after<V: Value>(
    saves: &mut SaveStack<V>,
    state: &State,
    code: u16,
) -> Result<(), EngineFault>
    ensures answer { (s : StoreModel V) (m : V.Value.Meaning) → result ≡ answer_of tt state.now.nesting
        (cause_of V.Value.ops (holds code) (table_of s m state.now.nesting (stack_of saves.old) (stack_of state.now.pending))) }
    ensures table { (s : StoreModel V) (m : V.Value.Meaning) → table_of s m state.now.nesting (stack_of saves.new) (stack_of state.now.pending)
        ≡ tried V.Value.ops (holds code) (table_of s m state.now.nesting (stack_of saves.old) (stack_of state.now.pending)) }
{
    let nesting = state.nesting;
    if !is_code(code) {
        return Err(EngineFault::of_call(Refusal::OutOfBounds, nesting));
    }
    if nesting.level <= 1 {
        return Ok(());
    }
    if saves.is_full() {
        return Err(EngineFault::of_call(Refusal::NoEntry, nesting));
    }
    saves.push(Entry::Held(code));
    Ok(())
}
