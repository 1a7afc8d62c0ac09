//! A store's nodes: a tree by places of those in use, and a chain of the free ones.
ghost use Rattle.std.specs.Prelude.{◌≡◌, ◌+◌, ◌≤◌, true, length, vec_len};
ghost use Rattle.tokens.specs.Limits.{top_reach};
ghost use Rattle.sparse.specs.Trees.{listed};
ghost use Rattle.sparse.specs.Chain.{top_nodes, chained, treed};

pub(crate) mod ops;

use crate::node::Tip;

/// The nodes that a store was handed, of which so many are free.
// Kept: indices in one row, since a store allocates nothing: it is handed one node for each filled cell.
#[derive(Drop)]
pub struct Nodes<V> {
    tips: Vec<Tip<V>>,
    pub(crate) reach: u32,
    root: u32,
    free: u32,
    pub(crate) loose: u32,
    ghost near: { reach ≤ top_reach },
    ghost row: { vec_len tips ≤ top_nodes },
    ghost few: { loose + length (listed 18 tips.items root) ≤ top_nodes },
    ghost chain: { chained loose tips.items free ≡ true },
    ghost tree: { treed 18 tips.items 0 reach root ≡ true },
}
