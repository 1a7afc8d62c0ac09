//! Assignments to registers.
ghost use Rattle.std.specs.Prelude.{◌≡◌, ℕ, true, false, is_ok, Ok, Err};
ghost use Rattle.save_stack.specs.Meanings.{stack_of};
ghost use Rattle.save_stack.specs.Stacks.{StackModel};
ghost use Rattle.engine.specs.Acts.{given, fresh, sets, cause_of, assign_checks, assigned, tried};
ghost use Rattle.engine.specs.Faults.{answer_of, first_of};
ghost use Rattle.engine.specs.Scopes.{is_global};
ghost use Rattle.engine.specs.Tables.{table_of};

use crate::demand::Demand;
use crate::fault::{EngineFault, raised};
use crate::state::State;
use crate::target::{Scope, Target};
use save_stack::entry::Entry;
use save_stack::stack::SaveStack;
use stores::cell::Cell;
use stores::fault::StoreFault;
use stores::store::Store;
use tokens::refusal::Refusal;
use values::value::Value;

/// The cell that an assignment replaces, or why it is refused.
fn ready<S: Store<V>, V: Value>(
    store: &S,
    saves: &SaveStack<V>,
    target: Target,
    demand: Demand,
) -> Result<Cell<V>, EngineFault>
    ensures { (m : V.Value.Meaning) (q : StackModel ℕ) → result ≡ answer_of ((S.Store.model store.now).cells target.place) target.nesting
        (first_of (assign_checks V.Value.ops demand (is_global target.scope) (table_of (S.Store.model store.now) m target.nesting (stack_of saves.now) q) target.place)) }
{
    let Target { nesting, place, .. } = target;
    if !demand.bounded {
        return Err(target.refused(Refusal::OutOfBounds));
    }
    let old = raised(
        store.cell(place).ok_or(StoreFault::Beyond { place }),
        nesting,
    )?;
    if !demand.fits {
        return Err(target.refused(Refusal::NoPlace));
    }
    if target.saves_old(old.level) && saves.is_full() {
        return Err(target.refused(Refusal::NoEntry));
    }
    if !demand.affordable {
        return Err(target.refused(Refusal::NoNodes));
    }
    raised(
        store.may_write(place, demand.zero && target.level() == 1),
        nesting,
    )?;
    Ok(old)
}

/// Puts the value in its place: its use is taken first; then the old cell is saved, or its use is dropped.
fn put_in<S: Store<V>, V: Value>(
    store: &mut S,
    pool: &mut V::Pool,
    saves: &mut SaveStack<V>,
    target: Target,
    value: V,
    old: Cell<V>,
)
    ensures { old ≡ (S.Store.model store.old).cells target.place → (q : StackModel ℕ) →
        table_of (S.Store.model store.new) (V.Value.meaning pool.new) target.nesting (stack_of saves.new) q
        ≡ assigned V.Value.ops (is_global target.scope) (table_of (S.Store.model store.old) (V.Value.meaning pool.old) target.nesting (stack_of saves.old) q) target.place (given value) }
{
    let saving = target.saves_old(old.level);
    value.take_use(pool);
    let _ = store.write(target.place, value, target.level());
    if saving {
        saves.push(Entry::Saved(target.place, old));
    } else {
        old.value.drop_use(pool);
    }
}

/// Assigns a value, at the current level or globally.
pub fn assign<S: Store<V>, V: Value>(
    store: &mut S,
    pool: &mut V::Pool,
    saves: &mut SaveStack<V>,
    state: &State,
    scope: Scope,
    place: u32,
    value: V,
) -> Result<(), EngineFault>
    ensures answer { result ≡ answer_of tt state.now.nesting (cause_of V.Value.ops (sets (is_global scope) place (given value))
        (table_of (S.Store.model store.old) (V.Value.meaning pool.old) state.now.nesting (stack_of saves.old) (stack_of state.now.pending))) }
    ensures table { table_of (S.Store.model store.new) (V.Value.meaning pool.new) state.now.nesting (stack_of saves.new) (stack_of state.now.pending)
        ≡ tried V.Value.ops (sets (is_global scope) place (given value))
        (table_of (S.Store.model store.old) (V.Value.meaning pool.old) state.now.nesting (stack_of saves.old) (stack_of state.now.pending)) }
{
    let nesting = state.nesting;
    let target = Target {
        nesting,
        scope,
        place,
    };
    let demand = Demand::of_value(&value, pool, place);
    let old = ready(store, saves, target, demand)?;
    put_in(store, pool, saves, target, value, old);
    Ok(())
}

/// Makes a list and assigns it, at the current level or globally. Which list of the pool it becomes is left open.
// Kept: beside `assign`, which has its value at hand: this one makes it between the checks and the change, and its contract leaves a choice open.
pub fn assign_list<S: Store<V>, V: Value>(
    store: &mut S,
    pool: &mut V::Pool,
    saves: &mut SaveStack<V>,
    state: &State,
    scope: Scope,
    place: u32,
    list: &[u16],
) -> Result<(), EngineFault>
    ensures answer { (b : ℕ) → result ≡ answer_of tt state.now.nesting (cause_of V.Value.ops (sets (is_global scope) place (fresh list.now b))
        (table_of (S.Store.model store.old) (V.Value.meaning pool.old) state.now.nesting (stack_of saves.old) (stack_of state.now.pending))) }
    ensures table { (b : ℕ) × (is_ok result ≡ true → V.Value.ops.there (V.Value.meaning pool.old) b ≡ false)
        × (table_of (S.Store.model store.new) (V.Value.meaning pool.new) state.now.nesting (stack_of saves.new) (stack_of state.now.pending)
        ≡ tried V.Value.ops (sets (is_global scope) place (fresh list.now b))
        (table_of (S.Store.model store.old) (V.Value.meaning pool.old) state.now.nesting (stack_of saves.old) (stack_of state.now.pending))) }
{
    let nesting = state.nesting;
    let target = Target {
        nesting,
        scope,
        place,
    };
    let demand = Demand::of_list::<V>(list, pool, place);
    let old = ready(store, saves, target, demand)?;
    // The nodes were counted among the checks, so the list is always made.
    let Some(value) = V::make_list(list, pool) else {
        return Err(target.refused(Refusal::NoNodes));
    };
    put_in(store, pool, saves, target, value, old);
    Ok(())
}
