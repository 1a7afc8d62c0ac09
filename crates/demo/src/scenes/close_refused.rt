//! A close is refused by its kind, and the handle that comes back is used again.
use crate::table::Table;
use anyhow::anyhow;
use registers::handle::StillOpen;
use save_stack::entry::Entry;
use save_stack::stack::Stack;
use stores::cell::Cell;
use stores::flat::Flat;
use tokens::group::GroupKind;
use values::plain::{NoPool, PLAIN_COUNTS, Plain};

/// `{\begingroup}` is refused at `}`; `\endgroup}` then closes both
pub(crate) fn play(rt: &HostRuntime) -> anyhow::Result<()> {
    let mut cells = [Cell::<Plain>::blank(); PLAIN_COUNTS as usize];
    let mut entries = [Entry::<Plain>::Held(0); 16];
    let mut stack = Stack::limited(&mut entries);
    let saves = &mut stack;
    let mut words = [0u16; 16];
    let mut out = [0u8; 1024];
    let mut table = Table::new(Flat::new(&mut cells), NoPool, &mut words, &mut out);
    let outer = table.open(saves, GroupKind::Simple, 4)?;
    let inner = table.open(saves, GroupKind::SemiSimple, 5);
    let closed = table.close(saves, outer);
    let inner_closed = inner.map(|group| table.unwind(saves, group));
    match closed {
        Ok(()) => Err(anyhow!("the outer group was closed while the inner one was open")),
        Err(StillOpen { fault, handle }) => {
            table.end(saves, handle)?;
            inner_closed?;
            let number = fault.refusal().number();
            println!(rt; "close refused {number}, then carried out")?;
            table.print_trace(rt)
        }
    }
}
