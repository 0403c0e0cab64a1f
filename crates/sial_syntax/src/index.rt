//! Declarations of indices.

use crate::text::Text;

/// What an index counts: orbitals of one of four kinds, or plain numbers.
#[derive(Clone, Copy, PartialEq, Eq)]
pub enum Kind {
    Ao,
    Mo,
    Moa,
    Mob,
    /// 4,096 segments of length 1.
    Index,
}

/// An end of a range: a number, or a constant that the input gives.
#[derive(PartialEq, Drop)]
pub enum Bound {
    Number(u64),
    Named(Text),
}

/// The segments of an index, or the index whose segments a subindex cuts.
#[derive(PartialEq, Drop)]
pub enum Range {
    /// Segments `lo` to `hi`, counted from 1; none where `hi` is below `lo`.
    Segments { kind: Kind, lo: Bound, hi: Bound },
    /// The pieces of the segment that the super index has.
    Sub { super_index: u16 },
}

/// An index and what it runs over.
#[derive(PartialEq, Drop)]
pub struct IndexDecl {
    pub name: Text,
    /// The text line of the declaration, counted from 1.
    pub line: u32,
    pub range: Range,
}
