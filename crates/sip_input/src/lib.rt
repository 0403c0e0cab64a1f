//! What an input gives a program: constants, lengths of segments and pieces, start values.
#![tactic(auto)]

mod constant;
mod input;
mod lengths;
mod start_line;

pub use constant::Constant;
pub use input::Input;
pub use lengths::{PieceLength, SegmentLengths};
pub use start_line::{BlockLine, ScalarLine};
