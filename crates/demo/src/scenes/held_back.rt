//! Tokens held back in a group land in pending when it closes, in the order in which they were given.
use crate::table::Table;
use save_stack::entry::Entry;
use save_stack::stack::{Pending, Stack};
use stores::cell::Cell;
use stores::flat::Flat;
use tokens::class::Class;
use tokens::group::GroupKind;
use values::plain::{NoPool, PLAIN_COUNTS, Plain};

/// Prints the tokens that wait to be read, in the order in which they will be.
fn print_pending(rt: &HostRuntime, pending: &mut Pending) -> anyhow::Result<()> {
    print!(rt; "pending")?;
    while let Some(code) = pending.pop() {
        print!(rt; " {code}")?;
    }
    println!(rt; "")?;
    Ok(())
}

/// `\hbox{\aftergroup\count\aftergroup3\aftergroup=\aftergroup4}`
pub(crate) fn play(rt: &HostRuntime) -> anyhow::Result<()> {
    let mut cells = [Cell::<Plain>::blank(); PLAIN_COUNTS as usize];
    let mut entries = [Entry::<Plain>::Held(0); 16];
    let mut stack = Stack::limited(&mut entries);
    let saves = &mut stack;
    let mut words = [0u16; 16];
    let mut out = [0u8; 1024];
    let mut table = Table::new(Flat::new(&mut cells), NoPool, &mut words, &mut out);
    table.in_group(saves, GroupKind::Hbox, 7, |table, saves| {
        table.hold(saves, Class::Count.code())?;
        table.hold(saves, u16::from(b'3'))?;
        table.hold(saves, u16::from(b'='))?;
        table.hold(saves, u16::from(b'4'))
    })?;
    print_pending(rt, &mut table.state.pending)
}
