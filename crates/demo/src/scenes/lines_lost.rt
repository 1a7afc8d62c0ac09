//! A trace that is too small: the lines that do not fit are lost and counted, those before them stand.
use crate::table::Table;
use save_stack::entry::Entry;
use save_stack::stack::Stack;
use stores::cell::Cell;
use stores::flat::Flat;
use tokens::group::GroupKind;
use values::plain::{NoPool, PLAIN_COUNTS, Plain};

/// Two groups in a trace of 60 bytes
pub(crate) fn play(rt: &HostRuntime) -> anyhow::Result<()> {
    let mut cells = [Cell::<Plain>::blank(); PLAIN_COUNTS as usize];
    let mut entries = [Entry::<Plain>::Held(0); 16];
    let mut stack = Stack::limited(&mut entries);
    let saves = &mut stack;
    let mut words = [0u16; 16];
    let mut out = [0u8; 60];
    let mut table = Table::new(Flat::new(&mut cells), NoPool, &mut words, &mut out);
    table.in_group(saves, GroupKind::Simple, 8, |table, saves| {
        table.in_group(saves, GroupKind::Hbox, 9, |_, _| Ok(()))
    })?;
    table.print_trace(rt)?;
    let lost = table.state.trace.lost;
    println!(rt; "lost {lost}")?;
    Ok(())
}
