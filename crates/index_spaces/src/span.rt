//! What one index runs over.

use sial_syntax::Kind;

/// So many segments of a kind from the first on, or the pieces of the segment that another index has.
#[derive(Clone, Copy)]
pub enum Span {
    Segments { kind: Kind, first: u32, count: u32 },
    Pieces { super_index: u16 },
}
