//! Laws over whole sequences of calls.
#![tactic(auto)]

ghost use Rattle.std.specs.Prelude.{length, vec_len};
ghost use Rattle.save_stack.specs.Meanings.{stack_of};
ghost use Rattle.engine.specs.Tables.{table_of};
ghost use Rattle.laws.specs.Law.{Law};
ghost use Rattle.laws.specs.Made.{small_table, large_table, NewAndLawful};
ghost use Rattle.mixed.specs.Mixeds.{mixed_ops};
ghost use Rattle.values.specs.Plains.{plain_ops};
ghost use Rattle.laws.specs.Order.{RefusalLaws};
ghost use Rattle.laws.specs.Writes.{StoreLaws};

use engine::state::State;
use mixed::mixed::Mixed;
use save_stack::entry::Entry;
use save_stack::stack::{SaveStack, Stack};
use sparse::node::Tip;
use sparse::sparse::Sparse;
use stores::cell::Cell;
use stores::flat::Flat;
use stores::store::Store;
use token_pool::node::Node;
use token_pool::pool::TokenPool;
use values::plain::{NoPool, Plain};
use values::value::Value;

/// The law of scopes and counts, for every store and every kind of value: it holds of the table that these parts make up, if that is new, and of any calls on it.
pub fn scopes_and_counts<S: Store<V>, V: Value>(
    store: &S,
    pool: &V::Pool,
    saves: &SaveStack<V>,
    state: &State,
)
    ensures { Law V.Value.ops (table_of (S.Store.model store.now) (V.Value.meaning pool.now) state.now.nesting (stack_of saves.now) (stack_of state.now.pending)) }
{}

/// The law for the small model: a table made of this memory is new, and obeys the law of scopes and counts.
pub fn small_scopes_and_counts(
    cells: &mut [Cell<Plain>],
    entries: &mut [Entry<Plain>],
    words: &mut [u16],
)
    ensures { NewAndLawful plain_ops (small_table (length cells.old) (length entries.old) (length words.old)) }
{
    let store = Flat::new(cells);
    let saves = Stack::limited(entries);
    let state = State::new(words);
    scopes_and_counts(&store, &NoPool, &saves, &state);
}

/// The law for the large model: a table made of this memory is new, and obeys the law of scopes and counts.
// Kept: beside the one for the small model. They differ in how a table is made; what they have in common is `scopes_and_counts`.
pub fn large_scopes_and_counts(
    nodes: Vec<Tip<Mixed>>,
    reach: u32,
    lists: Vec<Node>,
    entries: &mut [Entry<Mixed>],
    words: &mut [u16],
)
    ensures { NewAndLawful mixed_ops (large_table reach (vec_len nodes) (vec_len lists) (length entries.old) (length words.old)) }
{
    let store = Sparse::new(nodes, reach);
    let pool = TokenPool::new(lists);
    let saves = Stack::limited(entries);
    let state = State::new(words);
    scopes_and_counts(&store, &pool, &saves, &state);
}

/// What users of a store rely on: spare and filled places add up, what is written is read, a refused write changes nothing, the next filled place is the least.
pub fn store_laws<S: Store<V>, V: Value>(store: &S)
    ensures { StoreLaws V.Value.ops.is_zero (S.Store.model store.now) }
{}

/// The answer of a refused call is the first refusal, by its number, whose condition holds; and nothing is changed.
pub fn refusal_laws<V: Value>()
    ensures { RefusalLaws V.Value.ops }
{}
