//! One dimension of a block that is read along strides.

/// How many positions the dimension has, and how far apart two neighbours lie.
#[derive(Clone, Copy, Debug)]
pub struct Axis {
    pub len: usize,
    pub stride: usize,
}
