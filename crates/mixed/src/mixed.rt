//! A value of the large model.

/// Zero of every class, a number, a dimension in scaled points, or a shared list of tokens, by its number in the pool.
#[derive(Clone, Copy)]
pub enum Mixed {
    Zero,
    Number(i32),
    Dimension(i32),
    List(u32),
}
