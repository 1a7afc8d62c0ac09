//! Memory that is too small for a list, and for a cell.
use crate::models::{place, pool_of, store_of};
use crate::refused::number_of;
use crate::table::Table;
use mixed::mixed::Mixed;
use save_stack::entry::Entry;
use save_stack::stack::Stack;
use tokens::class::Class;

/// A store of one node and a pool of two: a list of two tokens needs three, and a second register a second node.
pub(crate) fn play(rt: &HostRuntime) -> anyhow::Result<()> {
    let heap = rt.alloc();
    let mut entries = [Entry::<Mixed>::Held(0); 1];
    let mut stack = Stack::limited(&mut entries);
    let saves = &mut stack;
    let mut words = [0u16; 1];
    let mut out = [0u8; 0];
    let mut table = Table::new(store_of(heap, 1)?, pool_of(heap, 2)?, &mut words, &mut out);
    let list = number_of(
        table
            .assign_list(saves, place(Class::Toks, 1), &b"ab".map(u16::from))
            .err(),
    )?;
    table.assign(saves, place(Class::Count, 0), Mixed::Number(5))?;
    let cell = number_of(
        table
            .assign_list(saves, place(Class::Toks, 1), &[u16::from(b'a')])
            .err(),
    )?;
    let free = table.pool.free_nodes();
    println!(rt; "no list nodes: refused {list}, no cell: refused {cell}, {free} list nodes free")?;
    table.print_registers(rt)
}
