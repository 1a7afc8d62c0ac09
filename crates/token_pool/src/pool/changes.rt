//! Making a pool and its lists, and counting references to them.
ghost use Rattle.std.specs.Prelude.{◌≡◌, ◌<◌, ◌≤◌, min, false, ◌⊎◌, length, Some, None, vec_len, slice_set, IsTrue};
ghost use Rattle.token_pool.specs.Pools.{there, empty_pool, made, recount, removed, takes, taken, dropped};
ghost use Rattle.token_pool.specs.Nodes.{top_nodes, at, recounted};
ghost use Rattle.token_pool.specs.Meanings.{pool_of};

use crate::chain::FreeNodes;
use crate::node::{MAX_NODES, Node};
use crate::pool::TokenPool;
use tokens::limits::MAX_USES;

impl TokenPool {
    /// A pool with no list, whatever the nodes held. What lies past the most nodes that a pool uses is let go.
    pub fn new(mut nodes: Vec<Node>) -> Self
        ensures { pool_of result ≡ empty_pool (min (vec_len nodes) top_nodes) }
    {
        nodes.truncate(MAX_NODES);
        let free = FreeNodes::of_all(&mut nodes);
        TokenPool { nodes, free }
    }

    /// A new list of the tokens, which nothing refers to yet: its number. None, and nothing, if there is no token or too few nodes are free.
    pub fn make(&mut self, tokens: &[u16]) -> Option<u32>
        ensures { elim result [
          | Some b ↦ (0 < length tokens.now)
              × (there (pool_of self.old) b ≡ false)
              × (length tokens.now < (pool_of self.old).free)
              × (pool_of self.new ≡ made (pool_of self.old) b tokens.now)
          | None ↦ (pool_of self.new ≡ pool_of self.old)
              × ((length tokens.now ≡ 0) ⊎ ((pool_of self.old).free ≤ length tokens.now))
        ] }
    {
        if tokens.is_empty() || tokens.len() >= self.free.count as usize {
            return None;
        }
        Some(self.free.build(&mut self.nodes, tokens))
    }

    /// Counts one reference to a list more; false, and nothing, if it is not there or has all that can be counted.
    pub fn take_use(&mut self, list: u32) -> bool
        ensures result { result ≡ takes (pool_of self.old) list }
        ensures after { pool_of self.new ≡ taken (pool_of self.old) list }
    {
        let Some(head) = self.head(list) else {
            return false;
        };
        if head.count == MAX_USES {
            return false;
        }
        self.recount(list, head.count + 1);
        true
    }

    /// Counts one reference to a list less, which goes if that was the last, or if it had none; false, and nothing, if it is not there.
    pub fn drop_use(&mut self, list: u32) -> bool
        ensures result { result ≡ there (pool_of self.old) list }
        ensures after { pool_of self.new ≡ dropped (pool_of self.old) list }
    {
        let Some(head) = self.head(list) else {
            return false;
        };
        if head.count > 1 {
            self.recount(list, head.count - 1);
        } else {
            self.remove(list);
        }
        true
    }

    /// Writes the reference count of a list.
    fn recount(&mut self, list: u32, count: u32)
        requires { IsTrue (there (pool_of self.old) list) }
        ensures pool { pool_of self.new ≡ recount (pool_of self.old) list count }
        ensures nodes { self.new.nodes.items ≡ slice_set self.old.nodes.items list (recounted (at self.old.nodes.items list) count) }
    {
        self.nodes[list as usize].count = count;
    }

    /// Frees the nodes of a list.
    fn remove(&mut self, list: u32)
        requires { IsTrue (there (pool_of self.old) list) }
        ensures { pool_of self.new ≡ removed (pool_of self.old) list }
    {
        let count = self.length(list) + 1;
        self.free.release(&mut self.nodes, list, count);
    }
}
