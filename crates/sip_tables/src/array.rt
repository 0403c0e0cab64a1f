//! Entries of arrays.

use sial_syntax::{ArrayKind, Tuple};

/// An array with one declared index for each dimension.
#[derive(Drop)]
pub struct ArrayEntry {
    /// The number of its name among the texts.
    pub text: u32,
    /// The text line of the declaration, counted from 1.
    pub line: u32,
    pub kind: ArrayKind,
    pub dims: Tuple,
}
