//! A sequence of calls on a table, whatever its store and its kind of value.
use crate::model::Model;
use crate::script::Step;
use engine::assign::assign;
use engine::close::{close_group, unwind};
use engine::hold::save_for_after;
use engine::open_group::open_group;
use engine::state::State;
use save_stack::entry::Entry;
use save_stack::stack::{SaveStack, Stack};
use std::alloc::{AllocError, Global};
use std::array;
use stores::store::Store;
use values::plain::PLAIN_COUNTS;
use values::scalar::Scalar;

/// The room of each save stack: enough that no call is refused for want of it.
const ENTRIES: usize = 256;

/// The room for the tokens that wait to be read.
const WORDS: usize = 256;

/// The room for the trace.
const TRACE: usize = 8192;

/// What a sequence of calls comes to: how many were carried out, what the registers read as, the whole room of the trace, how far it was written, and how many of its lines were lost.
// Kept: the room with its mark, and no text cut there: tables that write past their mark are to differ.
#[derive(PartialEq, Eq, Drop)]
pub struct Outcome {
    pub carried_out: usize,
    pub numbers: [Option<i32>; PLAIN_COUNTS as usize],
    pub trace: Vec<u8>,
    pub mark: usize,
    pub lost: u32,
}

/// A table but for its save stack, which is lent to each call beside it, and the output of its trace.
#[derive(Drop)]
struct Table<'a, S, V: Model>
where
    V::Pool: Drop,
{
    store: S,
    pool: V::Pool,
    state: State<'a>,
    out: Vec<u8>,
}

impl<'a, S: Store<V>, V: Model> Table<'a, S, V>
where
    V::Pool: Drop,
{
    /// Works a call: whether it is carried out.
    fn work(&mut self, saves: &mut SaveStack<V>, step: Step) -> bool {
        let Table {
            store,
            pool,
            state,
            out,
        } = self;
        match step {
            Step::Open(group) => open_group(saves, state, out, group).is_ok(),
            Step::Close(kind) => {
                let level = state.nesting.level;
                close_group(store, pool, saves, state, out, kind, level).is_ok()
            }
            Step::Unwind(level) => {
                unwind(store, pool, saves, state, out, level);
                true
            }
            Step::Assign {
                scope,
                register,
                number,
            } => {
                let place = V::place(register);
                let value = V::of_scalar(Scalar::Number(number));
                assign(store, pool, saves, state, scope, place, value).is_ok()
            }
            Step::Hold(code) => save_for_after(saves, state, code).is_ok(),
        }
    }

    /// Works the calls, one after the other: how many are carried out.
    fn work_all(&mut self, saves: &mut SaveStack<V>, steps: &[Step]) -> usize {
        steps.iter().filter(|step| self.work(saves, **step)).count()
    }

    /// The number that a register reads as, if it reads as one.
    fn read(&self, register: u8) -> Option<i32> {
        let place = V::place(register);
        let cell = self.store.cell(place)?;
        match cell.value.scalar(&self.pool, place) {
            Some(Scalar::Number(number)) => Some(number),
            _ => None,
        }
    }
}

/// Plays the calls on a new table over the store.
pub(crate) fn play<S: Store<V> + Drop, V: Model>(
    heap: Global,
    store: S,
    steps: &[Step],
) -> Result<Outcome, AllocError>
where
    V::Pool: Drop,
{
    let mut entries = vec![in heap; Entry::<V>::Held(0); ENTRIES]?;
    let mut words = vec![in heap; 0; WORDS]?;
    let out = vec![in heap; 0; TRACE]?;
    let state = State::new(&mut words);
    let mut table = Table {
        store,
        pool: V::pool(heap),
        state,
        out,
    };
    let mut saves = Stack::limited(&mut entries);
    let carried_out = table.work_all(&mut saves, steps);
    let numbers = array::from_fn(|register| table.read(register as u8));
    let Table { state, out, .. } = table;
    Ok(Outcome {
        carried_out,
        numbers,
        trace: out,
        mark: state.trace.mark,
        lost: state.trace.lost,
    })
}
