//! One dimension of a contraction.

/// A dimension's length and its strides in the two sources and in the target.
#[derive(Clone, Copy)]
pub struct Axis {
    /// How many numbers it has.
    pub len: u32,
    /// Its stride in the first source.
    pub a: u32,
    /// Its stride in the second source.
    pub b: u32,
    /// Its stride in the target.
    pub to: u32,
}

impl Axis {
    // one number, and no strides
    pub(crate) const ONE: Axis = Axis {
        len: 1,
        a: 0,
        b: 0,
        to: 0,
    };
}
