//! Entries of indices.

use sial_syntax::Kind;

/// An end of a range: a number, or a constant by the number of its name among the texts.
#[derive(Clone, Copy)]
pub enum BoundEntry {
    Number(u64),
    Named(u64),
}

/// The segments of an index, or the index whose segments a subindex cuts.
#[derive(Clone, Copy)]
pub enum RangeEntry {
    Segments {
        kind: Kind,
        lo: BoundEntry,
        hi: BoundEntry,
    },
    Sub {
        super_index: u64,
    },
}

/// An index and what it runs over.
#[derive(Clone, Copy)]
pub struct IndexEntry {
    /// The number of its name among the texts.
    pub text: u32,
    /// The text line of the declaration, counted from 1.
    pub line: u32,
    pub range: RangeEntry,
}
