//! Blocks as they are named.

use exec_names::Extent;

/// The indices of a named block, and what each lies on.
#[derive(Clone, Copy)]
pub struct Shape<'a> {
    pub at: &'a [u16],
    pub extents: &'a [Extent],
}

/// A block that was read: its shape and its numbers, the last index fastest.
#[derive(Clone, Copy)]
pub struct Seen<'a> {
    pub shape: Shape<'a>,
    pub words: &'a [u64],
}
