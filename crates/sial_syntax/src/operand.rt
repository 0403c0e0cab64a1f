//! Targets and right sides of assignments.

use crate::tuple::Tuple;

/// A block: an array, and an index for each of its dimensions.
#[derive(PartialEq, Drop)]
pub struct BlockRef {
    pub array: u16,
    pub at: Tuple,
}

/// What an assignment writes.
#[derive(PartialEq, Drop)]
pub enum Target {
    Scalar(u16),
    Block(BlockRef),
}

/// How an assignment combines its target's old value with the right side.
#[derive(Clone, Copy, PartialEq, Eq)]
pub enum Op {
    /// `=`
    Set,
    /// `+=`
    Add,
    /// `-=`
    Subtract,
    /// `*=`
    Scale,
}

/// What stands between two operands.
#[derive(Clone, Copy, PartialEq, Eq)]
pub enum Bin {
    /// `+`
    Plus,
    /// `-`
    Minus,
    /// `*`: a product, a scaling or a contraction.
    Times,
    /// `^`: the outer product.
    Outer,
}

/// A number, a scalar or a block.
#[derive(PartialEq, Drop)]
pub enum Operand {
    Number(u64),
    Scalar(u16),
    Block(BlockRef),
}

/// One operand, or two.
#[derive(PartialEq, Drop)]
pub enum Right {
    One(Operand),
    Two(Operand, Bin, Operand),
}

/// A dimension of `allocate`: the segment that an index has, or all of them.
#[derive(Clone, Copy, PartialEq, Eq)]
pub enum Slot {
    At(u16),
    All,
}
