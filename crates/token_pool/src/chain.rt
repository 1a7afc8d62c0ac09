//! The chain of the free nodes, and the chains that lists are made of.
ghost use Rattle.std.specs.Prelude.{◌≡◌, ℕ, ◌+◌, ◌-◌, ◌<◌, ◌≤◌, false, length, slice_set};
ghost use Rattle.token_pool.specs.Pools.{there, made};
ghost use Rattle.token_pool.specs.Nodes.{top_nodes, at, freed, Frees, Chain, tokens_from, nodes_pool, Sound, Moved};

use crate::node::{FREE, Node};

/// The chain of the free nodes of a slice.
// Kept: each call is handed the row of nodes, and no struct holds both: the pool's invariant is of both, and does not hold between two of these calls.
#[derive(Clone, Copy)]
pub struct FreeNodes {
    /// The first of them, if there is one.
    pub first: u32,
    /// How many there are.
    pub count: u32,
}

impl FreeNodes {
    /// Makes one chain of free nodes of the whole slice, whatever the nodes held.
    pub fn of_all(nodes: &mut [Node]) -> FreeNodes
        requires { length nodes.old ≤ top_nodes }
        ensures chain { Frees nodes.new result }
        ensures all { result.count ≡ length nodes.new }
        ensures owners { (j : ℕ) → j < length nodes.new → (at nodes.new j).owner ≡ top_nodes }
    {
        let mut free = FreeNodes { first: 0, count: 0 };
        // Kept: a `for` over indices, since each turn lends the whole row on to `push`.
        for i in 0..nodes.len() as u32 {
            free.push(nodes, i);
        }
        free
    }

    /// Puts a node before the free ones.
    fn push(&mut self, nodes: &mut [Node], i: u32)
        requires inside { i < length nodes.old }
        requires room { self.old.count < top_nodes }
        ensures node { nodes.new ≡ slice_set nodes.old i (freed self.old) }
        ensures after { self.new ≡ record { first = i; count = self.old.count + 1 } }
    {
        nodes[i as usize] = Node {
            owner: FREE,
            left: self.count,
            next: self.first,
            ..Node::EMPTY
        };
        *self = FreeNodes {
            first: i,
            count: self.count + 1,
        };
    }

    /// Takes off the first free node, to be written next: its index.
    fn pop(&mut self, nodes: &[Node]) -> u32
        requires inside { self.old.first < length nodes.now }
        requires some { 0 < self.old.count }
        ensures first { result ≡ self.old.first }
        ensures after { self.new ≡ record { first = (at nodes.now self.old.first).next; count = self.old.count - 1 } }
    {
        let i = self.first;
        *self = FreeNodes {
            first: nodes[i as usize].next,
            count: self.count - 1,
        };
        i
    }

    /// Makes a list of the tokens: its number, which is the index of its head.
    pub fn build(&mut self, nodes: &mut [Node], tokens: &[u16]) -> u32
        requires sound { Sound nodes.old self.old }
        requires some { 0 < length tokens.now }
        requires room { length tokens.now < self.old.count }
        ensures first { result ≡ self.old.first }
        ensures sound { Sound nodes.new self.new }
        ensures absent { there (nodes_pool nodes.old self.old.count) result ≡ false }
        ensures after { nodes_pool nodes.new self.new.count ≡ made (nodes_pool nodes.old self.old.count) result tokens.now }
    {
        let list = self.pop(nodes);
        nodes[list as usize] = Node {
            owner: list,
            left: tokens.len() as u32,
            ..Node::EMPTY
        };
        let first = self.fill(nodes, list, tokens);
        nodes[list as usize].next = first;
        list
    }

    /// Takes a free node for each token, and makes a chain of `owner` of them that holds the tokens: its first node.
    fn fill(&mut self, nodes: &mut [Node], owner: u32, tokens: &[u16]) -> u32
        requires owned { owner < top_nodes }
        requires frees { Frees nodes.old self.old }
        requires enough { length tokens.now ≤ self.old.count }
        ensures frees { Frees nodes.new self.new }
        ensures left { self.new.count ≡ self.old.count - length tokens.now }
        ensures chain { Chain nodes.new owner result (length tokens.now) }
        ensures holds { tokens_from nodes.new result (length tokens.now) ≡ tokens.now }
        ensures moved { Moved nodes.old nodes.new top_nodes owner }
    {
        let mut first = 0;
        for (left, token) in tokens.iter().rev().enumerate() {
            let i = self.pop(nodes);
            nodes[i as usize] = Node {
                owner,
                left: left as u32,
                next: first,
                token: *token,
                count: 0,
            };
            first = i;
        }
        first
    }

    /// Gives the `count` nodes of a list, from its head on, to the free ones.
    pub fn release(&mut self, nodes: &mut [Node], list: u32, count: u32)
        requires owned { list < top_nodes }
        requires frees { Frees nodes.old self.old }
        requires chain { Chain nodes.old list list count }
        requires room { self.old.count + count ≤ top_nodes }
        ensures frees { Frees nodes.new self.new }
        ensures more { self.new.count ≡ self.old.count + count }
        ensures moved { Moved nodes.old nodes.new list top_nodes }
        ensures gone { 0 < count → (at nodes.new list).owner ≡ top_nodes }
    {
        let mut i = list;
        // Kept: a `for` that counts, since the chain is read from the nodes that each turn writes.
        for _ in 0..count {
            let next = nodes[i as usize].next;
            self.push(nodes, i);
            i = next;
        }
    }
}
