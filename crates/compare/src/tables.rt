//! The tables that are held against each other.
use crate::judge::judged;
use crate::model::Model;
use crate::play::{Outcome, play};
use crate::script::{Dice, Step};
use anyhow::ensure;
use mixed::mixed::Mixed;
use sparse::node::Tip;
use sparse::sparse::Sparse;
use std::alloc::{AllocError, Global};
use stores::cell::Cell;
use stores::flat::Flat;
use values::plain::Plain;

/// The nodes of each sparse store: enough that no call is refused for want of them.
const NODES: usize = 64;

/// Plays the calls on a table with a flat store.
fn flat<V: Model>(heap: Global, steps: &[Step]) -> Result<Outcome, AllocError>
where
    V::Pool: Drop,
{
    let mut cells = vec![in heap; Cell::<V>::blank(); V::REACH as usize]?;
    play(heap, Flat::new(&mut cells), steps)
}

/// Plays them on a table with a sparse store.
fn sparse<V: Model>(heap: Global, steps: &[Step]) -> Result<Outcome, AllocError>
where
    V::Pool: Drop,
{
    let nodes = vec![in heap; Tip::<V>::empty(); NODES]?;
    play(heap, Sparse::new(nodes, V::REACH), steps)
}

/// Draws a sequence and plays it everywhere: how many calls were carried out, or what differs.
pub(crate) fn agree(heap: Global, dice: &mut Dice, calls: usize) -> anyhow::Result<usize> {
    let steps: Vec<Step> = (0..calls).map(|_| dice.step()).collect(heap)?;
    let first = flat::<Plain>(heap, &steps)?;
    let verdict = judged(heap, &steps)?;
    ensure!(
        first.carried_out == verdict.carried_out,
        "the judge carries out other calls"
    );
    ensure!(
        first.numbers == verdict.numbers.map(Some),
        "the judge reads other numbers"
    );
    ensure!(first.lost == 0, "a trace does not fit");
    // One after the other, so that no more than two outcomes are held at once.
    ensure!(
        flat::<Mixed>(heap, &steps)? == first,
        "the flat store of mixed values differs"
    );
    ensure!(
        sparse::<Plain>(heap, &steps)? == first,
        "the sparse store of plain numbers differs"
    );
    ensure!(
        sparse::<Mixed>(heap, &steps)? == first,
        "the sparse store of mixed values differs"
    );
    Ok(first.carried_out)
}
