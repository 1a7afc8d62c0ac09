//! Groups of all four kinds are unwound at once, with the handle of the outermost.
use crate::models::Small;
use crate::refused::Refused;
use crate::table::Table;
use registers::handle::GroupHandle;
use save_stack::entry::Entry;
use save_stack::stack::{SaveStack, Stack};
use stores::cell::Cell;
use stores::flat::Flat;
use tokens::group::GroupKind;
use values::plain::{NoPool, PLAIN_COUNTS, Plain};

/// Opens a group, and assigns to `\count2` in it; if that is refused, the group is unwound again.
fn enter(
    table: &mut Small,
    saves: &mut SaveStack<Plain>,
    kind: GroupKind,
    line: u16,
    count: i32,
) -> Result<GroupHandle, Refused> {
    let group = table.open(saves, kind, line)?;
    match table.assign(saves, 2, Plain::from(count)) {
        Ok(()) => Ok(group),
        Err(refused) => {
            table.unwind(saves, group);
            Err(refused)
        }
    }
}

/// `\count2=1 {\count2=2 \begingroup\count2=3 \hbox{\count2=4 \cell\count2=5 `, and all of it unwound
pub(crate) fn play(rt: &HostRuntime) -> anyhow::Result<()> {
    let mut cells = [Cell::blank(); PLAIN_COUNTS as usize];
    let mut entries = [Entry::<Plain>::Held(0); 16];
    let mut stack = Stack::limited(&mut entries);
    let saves = &mut stack;
    let mut words = [0u16; 16];
    let mut out = [0u8; 1024];
    let mut table = Table::new(Flat::new(&mut cells), NoPool, &mut words, &mut out);
    table.assign(saves, 2, Plain::from(1))?;
    let simple = enter(&mut table, saves, GroupKind::Simple, 1, 2);
    let semi_simple = enter(&mut table, saves, GroupKind::SemiSimple, 2, 3);
    let hbox = enter(&mut table, saves, GroupKind::Hbox, 3, 4);
    let align = enter(&mut table, saves, GroupKind::Align, 0, 5);
    let first = simple.map(|group| table.unwind(saves, group));
    // The groups of the inner handles are gone: unwinding with these closes nothing.
    let second = semi_simple.map(|group| table.unwind(saves, group));
    let third = hbox.map(|group| table.unwind(saves, group));
    let fourth = align.map(|group| table.unwind(saves, group));
    table.print_trace(rt)?;
    println!(rt;
        "unwound {}, then {}, {}, {}",
        first?, second?, third?, fourth?
    )?;
    table.print_registers(rt)
}
