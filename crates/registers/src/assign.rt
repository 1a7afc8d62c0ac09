//! Assignments to registers.
ghost use Rattle.std.specs.Prelude.{◌≡◌, ℕ, true, false, is_ok};
ghost use Rattle.save_stack.specs.Meanings.{stack_of};
ghost use Rattle.engine.specs.Acts.{given, fresh, sets, cause_of, tried};
ghost use Rattle.engine.specs.Faults.{answer_of};
ghost use Rattle.engine.specs.Tables.{table_of};

use crate::state::State;
use engine::fault::EngineFault;
use engine::target::Scope;
use save_stack::stack::SaveStack;
use stores::store::Store;
use values::value::Value;

// Kept: a local and a global name for each function of the engine. They are calls of their own, as TeX has two procedures (sections 277 and 279), the face keeps its names, and a body is but the scope.

/// Assigns the value until the current group closes.
pub fn assign<S: Store<V>, V: Value>(
    store: &mut S,
    pool: &mut V::Pool,
    saves: &mut SaveStack<V>,
    state: &State,
    place: u32,
    value: V,
) -> Result<(), EngineFault>
    ensures answer { result ≡ answer_of tt state.now.nesting (cause_of V.Value.ops (sets false place (given value))
        (table_of (S.Store.model store.old) (V.Value.meaning pool.old) state.now.nesting (stack_of saves.old) (stack_of state.now.pending))) }
    ensures table { table_of (S.Store.model store.new) (V.Value.meaning pool.new) state.now.nesting (stack_of saves.new) (stack_of state.now.pending)
        ≡ tried V.Value.ops (sets false place (given value))
        (table_of (S.Store.model store.old) (V.Value.meaning pool.old) state.now.nesting (stack_of saves.old) (stack_of state.now.pending)) }
{
    engine::assign::assign(store, pool, saves, state, Scope::Local, place, value)
}

/// Assigns the value in all groups.
pub fn assign_globally<S: Store<V>, V: Value>(
    store: &mut S,
    pool: &mut V::Pool,
    saves: &mut SaveStack<V>,
    state: &State,
    place: u32,
    value: V,
) -> Result<(), EngineFault>
    ensures answer { result ≡ answer_of tt state.now.nesting (cause_of V.Value.ops (sets true place (given value))
        (table_of (S.Store.model store.old) (V.Value.meaning pool.old) state.now.nesting (stack_of saves.old) (stack_of state.now.pending))) }
    ensures table { table_of (S.Store.model store.new) (V.Value.meaning pool.new) state.now.nesting (stack_of saves.new) (stack_of state.now.pending)
        ≡ tried V.Value.ops (sets true place (given value))
        (table_of (S.Store.model store.old) (V.Value.meaning pool.old) state.now.nesting (stack_of saves.old) (stack_of state.now.pending)) }
{
    engine::assign::assign(store, pool, saves, state, Scope::Global, place, value)
}

/// Makes a list of the tokens and assigns it until the current group closes. Which list of the pool it becomes is left open.
pub fn assign_list<S: Store<V>, V: Value>(
    store: &mut S,
    pool: &mut V::Pool,
    saves: &mut SaveStack<V>,
    state: &State,
    place: u32,
    list: &[u16],
) -> Result<(), EngineFault>
    ensures answer { (b : ℕ) → result ≡ answer_of tt state.now.nesting (cause_of V.Value.ops (sets false place (fresh list.now b))
        (table_of (S.Store.model store.old) (V.Value.meaning pool.old) state.now.nesting (stack_of saves.old) (stack_of state.now.pending))) }
    ensures table { (b : ℕ) × (is_ok result ≡ true → V.Value.ops.there (V.Value.meaning pool.old) b ≡ false) × (table_of (S.Store.model store.new) (V.Value.meaning pool.new) state.now.nesting (stack_of saves.new) (stack_of state.now.pending)
        ≡ tried V.Value.ops (sets false place (fresh list.now b))
        (table_of (S.Store.model store.old) (V.Value.meaning pool.old) state.now.nesting (stack_of saves.old) (stack_of state.now.pending))) }
{
    engine::assign::assign_list(store, pool, saves, state, Scope::Local, place, list)
}

/// Makes a list of the tokens and assigns it in all groups. Which list of the pool it becomes is left open.
pub fn assign_list_globally<S: Store<V>, V: Value>(
    store: &mut S,
    pool: &mut V::Pool,
    saves: &mut SaveStack<V>,
    state: &State,
    place: u32,
    list: &[u16],
) -> Result<(), EngineFault>
    ensures answer { (b : ℕ) → result ≡ answer_of tt state.now.nesting (cause_of V.Value.ops (sets true place (fresh list.now b))
        (table_of (S.Store.model store.old) (V.Value.meaning pool.old) state.now.nesting (stack_of saves.old) (stack_of state.now.pending))) }
    ensures table { (b : ℕ) × (is_ok result ≡ true → V.Value.ops.there (V.Value.meaning pool.old) b ≡ false) × (table_of (S.Store.model store.new) (V.Value.meaning pool.new) state.now.nesting (stack_of saves.new) (stack_of state.now.pending)
        ≡ tried V.Value.ops (sets true place (fresh list.now b))
        (table_of (S.Store.model store.old) (V.Value.meaning pool.old) state.now.nesting (stack_of saves.old) (stack_of state.now.pending))) }
{
    engine::assign::assign_list(store, pool, saves, state, Scope::Global, place, list)
}
