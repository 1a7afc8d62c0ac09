//! The nodes that a pool is handed.

/// The most nodes that a pool uses, so that each has an index of 32 bits below `FREE`.
pub const MAX_NODES: usize = FREE as usize;

/// The owner of a free node: no list has that number.
pub(crate) const FREE: u32 = u32::MAX;

/// A node of the memory of a pool. Every node stands in one chain: that of the free nodes, or that of a token list, which begins with its head.
// Kept: chains by index and an owner that may be `FREE`, since the nodes are handed over once, and a list of t tokens takes t + 1 of them; an `Option<u32>` would make each node larger. One record for the three sorts of node, since a chain is told by owner and rest alone.
#[derive(Clone, Copy)]
pub struct Node {
    /// The list whose chain this is, by its number, which is the index of its head; or `FREE`.
    pub(crate) owner: u32,
    /// How many nodes of the chain come after this one.
    pub(crate) left: u32,
    /// The next node of the chain, if there is one.
    pub(crate) next: u32,
    /// The token, but for a head and a free node.
    pub(crate) token: u16,
    /// The reference count of the list, at its head.
    pub(crate) count: u32,
}

impl Node {
    /// A node with nothing in it, to make memory of; a pool writes each before it reads it.
    pub const EMPTY: Node = Node {
        owner: 0,
        left: 0,
        next: 0,
        token: 0,
        count: 0,
    };
}
