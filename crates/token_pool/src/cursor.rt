//! A place in a list that can be kept while the pool changes.
ghost use Rattle.token_pool.specs.Readings.{Reads};
ghost use Rattle.token_pool.specs.Nodes.{rest_at};

use crate::node::Node;

/// A place in a token list: the list, the node of the next token, and how many tokens are left.
#[derive(Clone, Copy)]
pub struct Cursor {
    pub list: u32,
    pub node: u32,
    pub left: u32,
}

/// A token that was read, and the place after it.
#[derive(Clone, Copy)]
pub struct Token {
    pub code: u16,
    pub rest: Cursor,
}

/// The token that a cursor stands before, with a cursor after it; None at the end, or where the node is no longer what the cursor says.
pub(crate) fn read(nodes: &[Node], cursor: Cursor) -> Option<Token>
    ensures { Reads (rest_at nodes.now) cursor result }
{
    // Kept: tests and an index. A chain of `checked_sub`, `get` and `filter` says the same three tests in no fewer words.
    let i = cursor.node as usize;
    if cursor.left == 0 || i >= nodes.len() {
        return None;
    }
    let node = nodes[i];
    if node.owner != cursor.list || node.left != cursor.left - 1 {
        return None;
    }
    Some(Token {
        code: node.token,
        rest: Cursor {
            list: cursor.list,
            node: node.next,
            left: node.left,
        },
    })
}
