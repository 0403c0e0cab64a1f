//! Whole inputs.

use crate::constant::Constant;
use crate::lengths::{PieceLength, SegmentLengths};
use crate::start_line::{BlockLine, ScalarLine};

/// All that an input gives, each list in the order of its lines.
#[derive(Drop)]
pub struct Input {
    pub constants: Vec<Constant>,
    pub segments: Vec<SegmentLengths>,
    pub pieces: Vec<PieceLength>,
    pub scalars: Vec<ScalarLine>,
    pub blocks: Vec<BlockLine>,
}
