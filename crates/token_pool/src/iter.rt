//! Reading a list token by token.
ghost use Rattle.std.specs.Iterator.{YieldsFirst, item_count};

use crate::node::Node;
use std::marker::Model;

/// The tokens of a list, seen as the list of those that are still to be read.
#[derive(Drop)]
pub struct Tokens<'a> {
    pub(crate) nodes: &'a [Node],
    // The node of the next token, if there is one, and how many tokens are left.
    pub(crate) next: u32,
    pub(crate) left: u32,
}

impl<'a> Model for Tokens<'a> {
    ghost use Rattle.std.specs.Prelude.{ℕ, List};
    ghost use Rattle.token_pool.specs.Nodes.{tokens_from, Chain};

    ghost Value = { List ℕ };

    ghost view = { λ t. tokens_from t.nodes.now t.next t.left };

    ghost invariant = { λ t. (list : ℕ) × Chain t.nodes.now list t.next t.left };
}

impl Iterator for Tokens<'_> {
    type Item = u16;

    ghost next_gives = { YieldsFirst (λ rest. rest) };

    ghost remaining = { item_count (λ rest. rest) };

    fn next(&mut self) -> Option<u16> {
        self.left = self.left.checked_sub(1)?;
        let node = self.nodes[self.next as usize];
        self.next = node.next;
        Some(node.token)
    }
}
