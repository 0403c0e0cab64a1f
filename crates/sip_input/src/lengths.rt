//! How the indices of a kind are cut.

use sial_syntax::Kind;

/// The lengths of a kind's segments, in order.
#[derive(Drop)]
pub struct SegmentLengths {
    pub kind: Kind,
    pub lengths: Vec<u32>,
}

/// The length of the pieces into which subindices cut the segments of a kind.
#[derive(Drop)]
pub struct PieceLength {
    pub kind: Kind,
    pub length: u32,
}
