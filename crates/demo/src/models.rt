//! The stores and the pools of the scenes: a small table has plain numbers in a flat store, a large one mixed values in a sparse store.
use crate::table::Table;
use mixed::mixed::Mixed;
use sparse::node::Tip;
use sparse::sparse::Sparse;
use std::alloc::{AllocError, Global};
use stores::flat::Flat;
use token_pool::node::Node;
use token_pool::pool::TokenPool;
use tokens::class::Class;
use tokens::limits::MAX_REACH;
use values::plain::Plain;

/// A table of the small model.
pub type Small<'a> = Table<'a, Flat<'a, Plain>, Plain>;

/// A table of the large model.
pub type Large<'a> = Table<'a, Sparse<Mixed>, Mixed>;

/// How many places the large model has.
const REACH: u32 = MAX_REACH as u32;

/// A store of the large model over so many nodes.
pub(crate) fn store_of(heap: Global, nodes: usize) -> Result<Sparse<Mixed>, AllocError> {
    Ok(Sparse::new(vec![in heap; Tip::empty(); nodes]?, REACH))
}

/// A pool over so many nodes.
pub(crate) fn pool_of(heap: Global, nodes: usize) -> Result<TokenPool, AllocError> {
    Ok(TokenPool::new(vec![in heap; Node::EMPTY; nodes]?))
}

/// The place of a register in the large model.
pub(crate) fn place(class: Class, register: u8) -> u32 {
    let slot = match class {
        Class::Count => 0,
        Class::Dimen => 1,
        Class::Toks => 3,
    };
    4 * u32::from(register) + slot
}
