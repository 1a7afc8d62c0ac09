//! A list that two registers share, one of them emptied in a group; and a list assigned to its own register.
use crate::models::{Large, place, pool_of, store_of};
use crate::table::Table;
use mixed::mixed::Mixed;
use save_stack::entry::Entry;
use save_stack::stack::Stack;
use tokens::class::Class;
use tokens::group::GroupKind;

/// Prints the count of the list that a register holds, and how many nodes all lists take.
fn print_list(rt: &HostRuntime, table: &Large, place: u32) -> anyhow::Result<()> {
    let pool = &table.pool;
    let count = match table.held(place) {
        Mixed::List(list) => pool.count(list),
        _ => 0,
    };
    let taken = pool.nodes_add_up() - pool.free_nodes();
    println!(rt; "count {count}, {taken} nodes")?;
    Ok(())
}

/// `\toks1={ab}\toks2=\toks1 {\toks1={}}`: one list, with count 2
pub(crate) fn play(rt: &HostRuntime) -> anyhow::Result<()> {
    let heap = rt.alloc();
    let mut entries = [Entry::<Mixed>::Held(0); 16];
    let mut stack = Stack::limited(&mut entries);
    let saves = &mut stack;
    let mut words = [0u16; 16];
    let mut out = [0u8; 1024];
    let mut table = Table::new(
        store_of(heap, 16)?,
        pool_of(heap, 16)?,
        &mut words,
        &mut out,
    );
    table.assign_list(saves, place(Class::Toks, 1), &b"ab".map(u16::from))?;
    table.assign(
        saves,
        place(Class::Toks, 2),
        table.held(place(Class::Toks, 1)),
    )?;
    table.in_group(saves, GroupKind::Simple, 1, |table, saves| {
        table.assign_list(saves, place(Class::Toks, 1), &[])
    })?;
    table.print_trace(rt)?;
    table.print_registers(rt)?;
    print_list(rt, &table, place(Class::Toks, 1))?;
    keeps_itself(rt)
}

/// `\toks1={x}\toks1=\toks1`: the list keeps its token, with count 1
fn keeps_itself(rt: &HostRuntime) -> anyhow::Result<()> {
    let heap = rt.alloc();
    let mut entries = [Entry::<Mixed>::Held(0); 1];
    let mut stack = Stack::limited(&mut entries);
    let saves = &mut stack;
    let mut words = [0u16; 1];
    let mut out = [0u8; 0];
    let mut table = Table::new(
        store_of(heap, 16)?,
        pool_of(heap, 16)?,
        &mut words,
        &mut out,
    );
    table.assign_list(saves, place(Class::Toks, 1), &b"x".map(u16::from))?;
    table.assign(
        saves,
        place(Class::Toks, 1),
        table.held(place(Class::Toks, 1)),
    )?;
    table.print_registers(rt)?;
    print_list(rt, &table, place(Class::Toks, 1))
}
