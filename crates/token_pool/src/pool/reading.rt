//! Reading a pool and its lists.
ghost use Rattle.std.specs.Prelude.{◌≡◌, ℕ, ◌+◌, ◌≤◌, false, [], length, is_some, MatchOption, ⊤};
ghost use Rattle.token_pool.specs.Pools.{there, nodes_taken};
ghost use Rattle.tokens.specs.Copies.{fitted, copied};
ghost use Rattle.token_pool.specs.Nodes.{Chain, tokens_from};
ghost use Rattle.token_pool.specs.Meanings.{pool_of, rest_of};
ghost use Rattle.token_pool.specs.Readings.{Reads};

use crate::cursor::{self, Cursor, Token};
use crate::iter::Tokens;
use crate::node::Node;
use crate::pool::TokenPool;

impl TokenPool {
    /// How many nodes are free.
    #[tactic(auto, unfolding(crate::specs::Meanings::pool_of, crate::specs::Nodes::nodes_pool))]
    pub fn free_nodes(&self) -> u32
        ensures { result ≡ (pool_of self.now).free }
    {
        self.free.count
    }

    /// How many nodes the pool was handed: the free ones, and those that the lists take.
    #[tactic(auto, using(crate::proofs::Models::adds_up, crate::proofs::Models::there_past), unfolding(crate::specs::Meanings::pool_of))]
    pub fn nodes_add_up(&self) -> u32
        ensures sum { (pool_of self.now).free + nodes_taken (pool_of self.now) result ≡ result }
        ensures past { (b : ℕ) → result ≤ b → there (pool_of self.now) b ≡ false }
    {
        self.nodes.len() as u32
    }

    /// The head of a list, if it is there.
    pub(super) fn head(&self, list: u32) -> Option<Node>
        ensures there { there (pool_of self.now) list ≡ is_some result }
        ensures count { MatchOption result ((pool_of self.now).count list ≡ 0) (λ n. (pool_of self.now).count list ≡ n.count) }
        ensures tokens { MatchOption result ((pool_of self.now).list list ≡ []) (λ n. (pool_of self.now).list list ≡ tokens_from self.now.nodes.items n.next n.left) }
        ensures length { MatchOption result (length ((pool_of self.now).list list) ≡ 0) (λ n. length ((pool_of self.now).list list) ≡ n.left) }
        ensures chain { MatchOption result ⊤ (λ n. Chain self.now.nodes.items list n.next n.left) }
    {
        self.nodes
            .get(list as usize)
            .copied()
            .filter(|node| node.owner == list)
    }

    /// The reference count of a list, 0 if it is not there.
    pub fn count(&self, list: u32) -> u32
        ensures { result ≡ (pool_of self.now).count list }
    {
        self.head(list).map_or(0, |head| head.count)
    }

    /// How many tokens a list has, 0 if it is not there.
    pub fn length(&self, list: u32) -> u32
        ensures { result ≡ length ((pool_of self.now).list list) }
    {
        self.head(list).map_or(0, |head| head.left)
    }

    /// Whether a list is there: a list has a token at least.
    pub fn is_there(&self, list: u32) -> bool
        ensures { result ≡ there (pool_of self.now) list }
    {
        self.length(list) > 0
    }

    /// The tokens of a list, none if it is not there.
    pub fn tokens(&self, list: u32) -> Tokens<'_>
        ensures { result ≡ (pool_of self.now).list list }
    {
        let head = self.head(list).unwrap_or(Node::EMPTY);
        Tokens {
            nodes: &self.nodes,
            next: head.next,
            left: head.left,
        }
    }

    /// A cursor before the first token of a list, and at the end if the list is not there.
    #[tactic(auto, using(crate::proofs::Cursors::rest_all), unfolding(crate::specs::Meanings::pool_of, crate::specs::Meanings::rest_of))]
    pub fn first(&self, list: u32) -> Cursor
        ensures { rest_of self.now result ≡ (pool_of self.now).list list }
    {
        let head = self.head(list).unwrap_or(Node::EMPTY);
        let node = head.next;
        let left = head.left;
        Cursor { list, node, left }
    }

    /// The token that a cursor stands before, with a cursor after it; None at the end. A cursor may be kept while the pool changes: it reads what its nodes then hold for its list.
    pub fn token(&self, cursor: Cursor) -> Option<Token>
        ensures { Reads (rest_of self.now) cursor result }
    {
        cursor::read(&self.nodes, cursor)
    }

    /// Copies the tokens of a list to the front of the words; false, and nothing, if they do not fit.
    pub fn copy_tokens(&self, list: u32, words: &mut [u16]) -> bool
        ensures result { result ≡ fitted ((pool_of self.now).list list) words.old }
        ensures after { words.new ≡ copied ((pool_of self.now).list list) words.old }
    {
        if self.length(list) as usize > words.len() {
            return false;
        }
        // Kept: the words by index, since no contract says what a slice holds after a `zip` over its `iter_mut`.
        for (i, token) in self.tokens(list).enumerate() {
            words[i] = token;
        }
        true
    }
}
