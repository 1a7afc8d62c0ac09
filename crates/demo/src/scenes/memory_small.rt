//! Memory that is too small, and groups that are too deep.
ghost use Rattle.std.specs.Prelude.{◌≤◌};

use crate::models::Small;
use crate::refused::{Refused, number_of};
use crate::table::Table;
use save_stack::entry::Entry;
use save_stack::stack::{SaveStack, Stack};
use stores::cell::Cell;
use stores::flat::Flat;
use tokens::group::GroupKind;
use values::plain::{NoPool, PLAIN_COUNTS, Plain};

/// How many groups were opened in one another, and why no more, if one more was wanted.
#[derive(Clone, Copy)]
struct Depth {
    opened: u16,
    refused: Option<Refused>,
}

/// Opens groups in one another, as many as are wanted and can be, and unwinds them. A handle can't be let go, so each call keeps one.
fn deepen(table: &mut Small, saves: &mut SaveStack<Plain>, wanted: u16) -> Depth
    ensures { result.opened ≤ wanted }
{
    if wanted == 0 {
        return Depth {
            opened: 0,
            refused: None,
        };
    }
    match table.open(saves, GroupKind::Simple, 0) {
        Err(refused) => Depth {
            opened: 0,
            refused: Some(refused),
        },
        Ok(group) => {
            let inner = deepen(table, saves, wanted - 1);
            table.unwind(saves, group);
            Depth {
                opened: inner.opened + 1,
                ..inner
            }
        }
    }
}

/// One entry, which the group takes: the assignment in it has none. Then as many groups as the level allows.
pub(crate) fn play(rt: &HostRuntime) -> anyhow::Result<()> {
    let mut cells = [Cell::blank(); PLAIN_COUNTS as usize];
    let mut entries = [Entry::<Plain>::Held(0); 1];
    let mut stack = Stack::limited(&mut entries);
    let saves = &mut stack;
    let mut words = [0u16; 1];
    let mut out = [0u8; 100];
    let mut table = Table::new(Flat::new(&mut cells), NoPool, &mut words, &mut out);
    let group = table.open(saves, GroupKind::Simple, 1)?;
    let assigned = table.assign(saves, 1, Plain::from(7));
    table.end(saves, group)?;
    let number = number_of(assigned.err())?;
    println!(rt; "no entry: refused {number}")?;
    table.print_registers(rt)?;
    too_deep(rt)
}

/// Entries for 400 groups: more than the levels allow
fn too_deep(rt: &HostRuntime) -> anyhow::Result<()> {
    let mut cells = [Cell::blank(); PLAIN_COUNTS as usize];
    let mut entries = [Entry::<Plain>::Held(0); 400];
    let mut stack = Stack::limited(&mut entries);
    let saves = &mut stack;
    let mut words = [0u16; 400];
    let mut out = [0u8; 100];
    let mut table = Table::new(Flat::new(&mut cells), NoPool, &mut words, &mut out);
    let Depth { opened, refused } = deepen(&mut table, saves, 400);
    let number = number_of(refused)?;
    println!(rt; "{opened} groups: refused {number}")?;
    Ok(())
}
