//! Where something lies.

/// The first position of a segment or a piece, counted from 1, and how many positions it has.
#[derive(Clone, Copy)]
pub struct Extent {
    pub start: u32,
    pub len: u32,
}
