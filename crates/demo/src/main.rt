//! Work with registers and groups by calls on both models: what was done is printed, scene by scene.
#![tactic(auto)]

mod models;
mod refused;
mod report;
mod scenes;
mod table;

use scenes::{
    close_refused, dimension_restored, held_back, large_memory_small, lines_lost, lists_shared,
    memory_small, restored, unwound,
};

fn main(rt: HostRuntime) -> anyhow::Result<()> {
    restored::play(&rt)?;
    unwound::play(&rt)?;
    held_back::play(&rt)?;
    close_refused::play(&rt)?;
    lines_lost::play(&rt)?;
    memory_small::play(&rt)?;
    lists_shared::play(&rt)?;
    dimension_restored::play(&rt)?;
    large_memory_small::play(&rt)
}
