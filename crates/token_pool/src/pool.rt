//! A pool of shared token lists.
ghost use Rattle.token_pool.specs.Nodes.{Sound};
ghost use Rattle.token_pool.specs.Props.{Sound-prop};

pub mod changes;
pub mod reading;

use crate::chain::FreeNodes;
use crate::node::Node;

/// Token lists with their reference counts, in nodes that the pool owns and never adds to.
#[derive(Drop)]
pub struct TokenPool {
    nodes: Vec<Node>,
    free: FreeNodes,
    ghost whole: { Sound nodes.items free } by { Sound-prop _ _ },
}
