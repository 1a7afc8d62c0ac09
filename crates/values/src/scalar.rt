//! Readings of one word.

/// What a register reads as that holds no list.
#[derive(Clone, Copy)]
pub enum Scalar {
    /// A number.
    Number(i32),
    /// A dimension, in scaled points.
    Dimension(i32),
}
