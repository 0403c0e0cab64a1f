//! The blocks of one array.

use sial_syntax::{ArrayKind, Tuple};

/// An array's kind and indices, how many blocks it has, and how many the arrays of its kind before it have.
#[derive(Drop)]
pub struct Blocks {
    pub kind: ArrayKind,
    pub dims: Tuple,
    pub count: u32,
    pub first: u32,
}
