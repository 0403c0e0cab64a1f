//! How a shared block is touched, and which of the two kinds of shared array it belongs to.

/// What one access does to its block.
#[derive(Clone, Copy, Debug, PartialEq, Eq)]
pub enum Access {
    /// The block is read.
    Read,
    /// A block is added to it, element by element.
    Add,
    /// It becomes the greater of itself and a block, element by element.
    Max,
    /// A block replaces it.
    Store,
}

/// The two kinds of shared array, each with epochs of its own.
#[derive(Clone, Copy, Debug, Default, PartialEq, Eq)]
pub enum Class {
    /// Spread over the workers.
    #[default]
    Distributed,
    /// Kept by the servers.
    Served,
}
