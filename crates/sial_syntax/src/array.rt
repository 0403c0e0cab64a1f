//! Declarations of arrays.

use crate::text::Text;
use crate::tuple::Tuple;

/// Where an array's blocks live, and for how long.
#[derive(Clone, Copy, PartialEq, Eq)]
pub enum ArrayKind {
    /// Every worker has all blocks, from the beginning on.
    Static,
    /// Every worker has at most one block at a time.
    Temp,
    /// Every worker has the blocks that it allocated.
    Local,
    /// Blocks are spread over the workers while the array is created.
    Distributed,
    /// Blocks are kept by the servers.
    Served,
}

/// An array with one declared index for each dimension.
#[derive(PartialEq, Drop)]
pub struct ArrayDecl {
    pub name: Text,
    /// The text line of the declaration, counted from 1.
    pub line: u32,
    pub kind: ArrayKind,
    pub dims: Tuple,
}
