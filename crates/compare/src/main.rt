//! Both stores and both kinds of value are worked by the same calls, some thousand sequences of them, and held against each other and against a naive judge.
#![tactic(auto)]

mod judge;
mod model;
mod play;
mod script;
mod tables;

use script::Dice;
use tables::agree;

/// How many sequences are played.
const SEQUENCES: u32 = 2000;

/// How many calls each sequence has.
const CALLS: usize = 60;

/// Plays all sequences: how many calls were carried out.
fn play_all(rt: &HostRuntime) -> anyhow::Result<usize> {
    let mut dice = Dice::new(20_261_117);
    (0..SEQUENCES).try_fold(0usize, |sum, _| {
        Ok(sum.saturating_add(agree(rt.alloc(), &mut dice, CALLS)?))
    })
}

fn main(rt: HostRuntime) -> anyhow::Result<()> {
    let carried_out = play_all(&rt)?;
    println!(rt;
        "{SEQUENCES} sequences of {CALLS} calls, {carried_out} carried out: four tables and the judge agree"
    )?;
    Ok(())
}
