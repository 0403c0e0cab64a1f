//! What a line says.

use crate::numbers::Numbers;
use crate::values::{Value, Values};
use sial_syntax::{Kind, Text};

/// What a line says.
#[derive(Drop)]
pub enum Said {
    /// The line is empty.
    Nothing,
    /// The number of a constant; none where it is above 2^64 - 1.
    Constant {
        name: Text,
        value: Option<u64>,
    },
    /// The lengths of a kind's segments.
    Segments {
        kind: Kind,
        lengths: Numbers,
    },
    /// The length of the pieces of a kind's segments.
    Subsegment {
        kind: Kind,
        size: u32,
    },
    /// The number with which a scalar begins.
    Scalar {
        name: Text,
        value: Value,
    },
    /// The elements with which a block begins.
    Block {
        name: Text,
        segments: Numbers,
        elements: Values,
    },
}
