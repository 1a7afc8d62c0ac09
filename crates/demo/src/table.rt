//! A table to play with, for every store and every kind of value.
use crate::refused::Refused;
use crate::report::{print_registers, print_written};
use registers::assign::{assign, assign_list};
use registers::group::{close_group, open_group, save_for_after, unwind};
use registers::handle::{GroupHandle, StillOpen};
use registers::state::State;
use save_stack::stack::SaveStack;
use stores::store::Store;
use tokens::group::GroupKind;
use values::value::Value;

/// A table but for its save stack, which is lent to each call beside it, with the output of the trace.
#[derive(Drop)]
pub struct Table<'a, S, V: Value>
where
    V::Pool: Drop,
{
    pub store: S,
    pub pool: V::Pool,
    pub state: State<'a>,
    out: &'a mut [u8],
}

impl<'a, S: Store<V> + Drop, V: Value> Table<'a, S, V>
where
    V::Pool: Drop,
{
    // Kept: each scene makes its memory and hands it over in lines of its own, as a user of the library does.
    /// A new table over the store and the pool, with words for pending tokens and an output for the trace.
    pub(crate) fn new(store: S, pool: V::Pool, words: &'a mut [u16], out: &'a mut [u8]) -> Self {
        let state = State::new(words);
        Table {
            store,
            pool,
            state,
            out,
        }
    }

    /// What a register holds.
    pub(crate) fn held(&self, place: u32) -> V {
        self.store.cell(place).map_or(V::zero(), |cell| cell.value)
    }

    /// Assigns the value until the current group closes.
    pub(crate) fn assign(
        &mut self,
        saves: &mut SaveStack<V>,
        place: u32,
        value: V,
    ) -> Result<(), Refused> {
        assign(
            &mut self.store,
            &mut self.pool,
            saves,
            &self.state,
            place,
            value,
        )?;
        Ok(())
    }

    /// Makes a list of the tokens and assigns it until the current group closes.
    pub(crate) fn assign_list(
        &mut self,
        saves: &mut SaveStack<V>,
        place: u32,
        list: &[u16],
    ) -> Result<(), Refused> {
        assign_list(
            &mut self.store,
            &mut self.pool,
            saves,
            &self.state,
            place,
            list,
        )?;
        Ok(())
    }

    /// Holds a token back until the current group closes.
    pub(crate) fn hold(&mut self, saves: &mut SaveStack<V>, code: u16) -> Result<(), Refused> {
        save_for_after(saves, &self.state, code)?;
        Ok(())
    }

    /// Opens a group.
    pub(crate) fn open(
        &mut self,
        saves: &mut SaveStack<V>,
        kind: GroupKind,
        line: u16,
    ) -> Result<GroupHandle, Refused> {
        Ok(open_group(saves, &mut self.state, self.out, kind, line)?)
    }

    /// Closes the group; a refused close gives its handle back.
    pub(crate) fn close(
        &mut self,
        saves: &mut SaveStack<V>,
        group: GroupHandle,
    ) -> Result<(), StillOpen> {
        close_group(
            &mut self.store,
            &mut self.pool,
            saves,
            &mut self.state,
            self.out,
            group,
        )
    }

    /// Closes the group and those that are open in it: how many.
    pub(crate) fn unwind(&mut self, saves: &mut SaveStack<V>, group: GroupHandle) -> u8 {
        unwind(
            &mut self.store,
            &mut self.pool,
            saves,
            &mut self.state,
            self.out,
            group,
        )
    }

    /// Closes the group. If that is refused it is unwound, since its handle must not be let go.
    pub(crate) fn end(
        &mut self,
        saves: &mut SaveStack<V>,
        group: GroupHandle,
    ) -> Result<(), Refused> {
        let Err(StillOpen { fault, handle }) = self.close(saves, group) else {
            return Ok(());
        };
        self.unwind(saves, handle);
        Err(Refused::from(fault))
    }

    /// Opens a group, works in it, and closes it.
    pub(crate) fn in_group<F: FnOnce(&mut Self, &mut SaveStack<V>) -> Result<(), Refused>>(
        &mut self,
        saves: &mut SaveStack<V>,
        kind: GroupKind,
        line: u16,
        work: F,
    ) -> Result<(), Refused>
        requires { F.IsAlwaysCallable work }
    {
        let group = self.open(saves, kind, line)?;
        let worked = work(self, saves);
        self.end(saves, group)?;
        worked
    }

    /// Prints what is written of the trace.
    pub(crate) fn print_trace(&self, rt: &HostRuntime) -> anyhow::Result<()> {
        print_written(rt, self.out, &self.state.trace)
    }

    /// Prints every filled register.
    pub(crate) fn print_registers(&self, rt: &HostRuntime) -> anyhow::Result<()> {
        print_registers(rt, &self.store, &self.pool)
    }
}
