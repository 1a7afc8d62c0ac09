//! How long the sparse store takes, few cells against many. Without the word `measure` it only says how it is used, since times differ from run to run.
#![tactic(auto)]

ghost use Rattle.std.specs.Prelude.{◌<◌};

use anyhow::anyhow;
use sparse::node::Tip;
use sparse::sparse::Sparse;
use std::env;
use std::time::Instant;
use stores::store::Store;
use tokens::limits::MAX_REACH;
use values::plain::Plain;

/// How many places the stores reach.
const REACH: u32 = MAX_REACH as u32;

/// How many turns are timed: each reads twice, blanks a cell and fills it again.
const TURNS: u32 = 250_000;

/// The cells of the small store.
const FEW: u32 = 512;

/// The cells of the large one: the most of which there is one at every second place.
const MANY: u32 = 65_535;

/// A store whose filled places are so many multiples of a step, from 0 on.
#[derive(Drop)]
struct Filled {
    store: Sparse<Plain>,
    cells: u32,
    step: u32,
    ghost some: { 0 < cells },
}

impl Filled {
    /// A store with so many cells, as far apart as its reach allows.
    fn new(rt: &HostRuntime, cells: u32) -> anyhow::Result<Filled>
        requires { 0 < cells }
    {
        let nodes = vec![in rt.alloc(); Tip::<Plain>::empty(); cells as usize]?;
        let mut filled = Filled {
            store: Sparse::new(nodes, REACH),
            cells,
            step: REACH / cells,
        };
        for n in 0..cells {
            filled.write(filled.place(n), 1, 2)?;
        }
        Ok(filled)
    }

    /// One of the filled places, whatever the number.
    fn place(&self, n: u32) -> u32 {
        (n % self.cells).saturating_mul(self.step)
    }

    /// Writes a number at the level.
    fn write(&mut self, place: u32, number: i32, level: u8) -> anyhow::Result<()> {
        self.store.write(place, number.into(), level).map_err(|_| anyhow!(
            "the store refused a write: it was given too few nodes"
        ))
    }

    /// The number at a place; 0 past the reach.
    fn number_at(&self, place: u32) -> i32 {
        self.store.cell(place).map_or(0, |cell| cell.value.number)
    }

    /// A million calls at places in no order: the sum of what was read.
    fn work(&mut self) -> anyhow::Result<i32> {
        let mut sum: i32 = 0;
        for turn in 0..TURNS {
            let near = self.place(turn.wrapping_mul(2_654_435_769));
            let far = self.place(turn.wrapping_mul(2_246_822_519));
            sum = sum.saturating_add(self.number_at(near));
            sum = sum.saturating_add(self.number_at(far));
            self.write(near, 0, 1)?;
            self.write(near, 1, 2)?;
        }
        Ok(sum)
    }
}

/// Times the calls on a store of so many cells, in milliseconds.
fn timed(rt: &HostRuntime, cells: u32) -> anyhow::Result<u128>
    requires { 0 < cells }
{
    let mut filled = Filled::new(rt, cells)?;
    let start = Instant::now(rt)?;
    let sum = filled.work()?;
    let time = start.elapsed(rt)?.as_millis();
    println!(rt; "{cells} cells: a million calls in {time} ms, the sum of what was read is {sum}")?;
    Ok(time)
}

/// Times both stores, and holds the times against each other.
fn measure(rt: &HostRuntime) -> anyhow::Result<()> {
    let few = timed(rt, FEW)?;
    let many = timed(rt, MANY)?;
    let ratio = many.saturating_mul(100) / few.max(1);
    println!(rt; "ratio times 100: {ratio}")?;
    Ok(())
}

/// Whether the program was given the word `measure`.
fn is_asked(rt: &HostRuntime) -> anyhow::Result<bool> {
    let word = env::args(rt)?.nth(1);
    Ok(word.is_some_and(|word| word.as_str() == "measure"))
}

fn main(rt: HostRuntime) -> anyhow::Result<()> {
    if is_asked(&rt)? {
        return measure(&rt);
    }
    println!(rt; "timing: give the word 'measure' to time the sparse store")?;
    Ok(())
}
