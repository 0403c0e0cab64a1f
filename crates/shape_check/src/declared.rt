//! What a program declares: the kinds and ranges of its indices, and its arrays.

ghost use Rattle.std.specs.Prelude.{◌≡◌};
ghost use Rattle.sial_syntax.specs.Agreeing as spec;
ghost use Rattle.shape_check.specs.Known.{IsKnown, tree_of};

use sial_syntax::{ArrayKind, Kind, Program, Range};

/// A program with the kinds of its indices. What isn't declared has the kind of plain numbers, and no dimensions.
#[derive(Drop)]
pub struct Declared<'a> {
    pub program: &'a Program,
    pub kinds: &'a [Kind],
}

impl Declared<'_> {
    /// Whether an index is a subindex.
    pub fn is_sub(&self, index: u16) -> bool
        ensures { result ≡ spec.is_sub (tree_of self.now) index }
    {
        match self.program.indices.get(index as usize) {
            Some(index) => matches!(index.range, Range::Sub { .. }),
            None => false,
        }
    }

    /// Whether the first is a subindex of the second.
    pub fn is_sub_of(&self, sub: u16, index: u16) -> bool
        ensures { result ≡ spec.is_sub_of (tree_of self.now) sub index }
    {
        match self.program.indices.get(sub as usize) {
            Some(sub) => match sub.range {
                Range::Sub { super_index } => super_index == index,
                Range::Segments { .. } => false,
            },
            None => false,
        }
    }

    // The kind of an index.
    fn kind(&self, index: u16) -> Kind
        requires { IsKnown self.now }
        ensures { result ≡ spec.index_kind (tree_of self.now) index }
    {
        self.kinds
            .get(index as usize)
            .copied()
            .unwrap_or(Kind::Index)
    }

    /// Whether an index may stand where another is declared.
    pub fn may_stand_for(&self, used: u16, declared: u16) -> bool
        requires { IsKnown self.now }
        ensures { result ≡ spec.may_stand_for (tree_of self.now) used declared }
    {
        is_kind(self.kind(used), self.kind(declared))
            && same_flag(self.is_sub(used), self.is_sub(declared))
    }

    /// The kind of an array.
    pub fn array_kind(&self, array: u16) -> ArrayKind
        ensures { result ≡ (spec.array_in (tree_of self.now) array).kind }
    {
        match self.program.arrays.get(array as usize) {
            Some(array) => array.kind,
            None => ArrayKind::Temp,
        }
    }

    /// The declared indices of an array.
    pub fn dims(&self, array: u16) -> &[u16]
        ensures { result.now ≡ (spec.array_in (tree_of self.now) array).dims }
    {
        match self.program.arrays.get(array as usize) {
            Some(array) => array.dims.as_slice(),
            None => &[],
        }
    }

    /// Whether an array is a worker's own.
    pub fn is_own(&self, array: u16) -> bool
        ensures { result ≡ spec.is_own (spec.array_in (tree_of self.now) array).kind }
    {
        match self.array_kind(array) {
            ArrayKind::Static | ArrayKind::Temp | ArrayKind::Local => true,
            ArrayKind::Distributed | ArrayKind::Served => false,
        }
    }
}

// Whether two kinds are one.
fn is_kind(kind: Kind, other: Kind) -> bool
    ensures { result ≡ spec.is_kind kind other }
{
    matches!(
        (kind, other),
        (Kind::Ao, Kind::Ao)
            | (Kind::Mo, Kind::Mo)
            | (Kind::Moa, Kind::Moa)
            | (Kind::Mob, Kind::Mob)
            | (Kind::Index, Kind::Index)
    )
}

// Whether two flags are the same.
fn same_flag(flag: bool, other: bool) -> bool
    ensures { result ≡ spec.same_flag flag other }
{
    if flag { other } else { !other }
}
