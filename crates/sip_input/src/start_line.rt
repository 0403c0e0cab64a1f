//! Start values, each with the line of the input where it stands, counted from 1.

use sial_syntax::Text;

/// The number with which a scalar begins.
#[derive(Drop)]
pub struct ScalarLine {
    pub line: u32,
    pub name: Text,
    pub value: u64,
}

/// The elements with which a block of an array begins, the last index fastest.
#[derive(Drop)]
pub struct BlockLine {
    pub line: u32,
    pub name: Text,
    /// The numbers of the block's segments.
    pub segments: Vec<u32>,
    pub elements: Vec<u64>,
}
