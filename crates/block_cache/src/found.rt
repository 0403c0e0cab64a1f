//! Whether a block is in a cache.

/// What a cache has of a block.
#[derive(Clone, Copy, Debug, PartialEq, Eq)]
pub enum Found {
    Cached,
    Awaited,
    Absent,
}
