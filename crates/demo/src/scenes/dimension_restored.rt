//! A dimension is restored.
use crate::models::{place, pool_of, store_of};
use crate::table::Table;
use mixed::mixed::Mixed;
use save_stack::entry::Entry;
use save_stack::stack::Stack;
use tokens::class::Class;
use tokens::group::GroupKind;

/// A point, in scaled points.
const POINT: i32 = 65_536;

/// `\dimen0=-1.5pt \begingroup\dimen0=2pt \endgroup`
pub(crate) fn play(rt: &HostRuntime) -> anyhow::Result<()> {
    let heap = rt.alloc();
    let mut entries = [Entry::<Mixed>::Held(0); 16];
    let mut stack = Stack::limited(&mut entries);
    let saves = &mut stack;
    let mut words = [0u16; 16];
    let mut out = [0u8; 1024];
    let mut table = Table::new(store_of(heap, 16)?, pool_of(heap, 0)?, &mut words, &mut out);
    table.assign(
        saves,
        place(Class::Dimen, 0),
        Mixed::Dimension(-3 * POINT / 2),
    )?;
    table.in_group(saves, GroupKind::SemiSimple, 2, |table, saves| {
        table.assign(saves, place(Class::Dimen, 0), Mixed::Dimension(2 * POINT))
    })?;
    table.print_trace(rt)?;
    table.print_registers(rt)
}
