//! The two models, by their kinds of value.
use mixed::mixed::Mixed;
use std::alloc::Global;
use token_pool::pool::TokenPool;
use values::plain::{NoPool, PLAIN_COUNTS, Plain};
use values::value::Value;

/// A kind of value, with what a table of its model needs so that its count registers can be played with.
pub trait Model: Value {
    /// How many places the registers take that are played with.
    const REACH: u32;

    /// The place of a count register.
    fn place(register: u8) -> u32;

    /// A pool without nodes: the calls make no list.
    fn pool(heap: Global) -> Self::Pool;
}

impl Model for Plain {
    const REACH: u32 = PLAIN_COUNTS;

    fn place(register: u8) -> u32 {
        u32::from(register)
    }

    fn pool(_heap: Global) -> NoPool {
        NoPool
    }
}

impl Model for Mixed {
    const REACH: u32 = 4 * PLAIN_COUNTS;

    fn place(register: u8) -> u32 {
        4 * u32::from(register)
    }

    fn pool(heap: Global) -> TokenPool {
        TokenPool::new(Vec::new(heap))
    }
}
