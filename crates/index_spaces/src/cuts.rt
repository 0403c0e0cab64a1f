//! The segments of a kind.

ghost use Rattle.std.specs.Prelude.{◌≡◌, ◌<◌, ◌≤◌, ◌^◌, length, IfOk, IsTrue, nat_le};
ghost use Rattle.std.specs.List.{list_all};
ghost use Rattle.sial_syntax.specs.Spaces.{among, length_among};
ghost use Rattle.index_spaces.specs.Placed.{extent_of, lengths_of, follow_from, are_near};

use crate::extent::Extent;
use std::alloc::{AllocError, Global};
use std::marker::Model;

/// A kind's segments, and the length of the pieces that subindices cut.
#[derive(Drop)]
pub struct Cuts {
    segments: Vec<Extent>,
    piece: u32,
}

impl Model for Cuts {
    ghost use Rattle.std.specs.Prelude.{◌≤◌, IsTrue, length};
    ghost use Rattle.sial_syntax.specs.Spaces.{Cut};
    ghost use Rattle.index_spaces.specs.Placed.{lengths_of, follow_from, are_near};

    ghost Value = { Cut };

    ghost view = { λ c. record { segments = lengths_of c.segments.items; piece = c.piece } };

    ghost invariant = { λ c. IsTrue (follow_from 1 c.segments.items) × IsTrue (are_near c.segments.items) × (length c.segments.items ≤ 4096) × (c.piece ≤ 1024) };
}

impl Cuts {
    /// Segments of these lengths, one behind the other, and pieces of this length.
    pub fn of(alloc: Global, lengths: &[u32], piece: u32) -> Result<Cuts, AllocError>
        requires few { length lengths.now ≤ 4096 }
        requires short { IsTrue (list_all (λ len. nat_le len 1024) lengths.now) }
        requires piece { piece ≤ 1024 }
        ensures { IfOk result (λ cuts. cuts ≡ record { segments = lengths.now; piece = piece }) }
    {
        let segments = extents(alloc, lengths)?;
        Ok(Cuts { segments, piece })
    }

    /// How many segments there are.
    pub fn count(&self) -> u32
        ensures value { result ≡ length self.now.segments }
        ensures few { result ≤ 4096 }
    {
        self.segments.len() as u32
    }

    /// The length of a segment, 0 where none has this number.
    pub fn len_at(&self, number: u32) -> u32
        ensures { result ≡ length_among self.now.segments number }
    {
        len_among(self.segments.as_slice(), number)
    }

    /// A segment, numbered from 1.
    pub fn segment(&self, number: u32) -> Extent
        requires some { 0 < number }
        requires within { number ≤ length self.now.segments }
        ensures value { extent_of result ≡ among self.now.segments number }
        ensures near { result.start < 2 ^ 31 }
        ensures short { result.len ≤ 1024 }
    {
        self.segments[number as usize - 1]
    }

    /// The length of the pieces.
    pub fn piece(&self) -> u32
        ensures value { result ≡ self.now.piece }
        ensures short { result ≤ 1024 }
    {
        self.piece
    }
}

// The length of a segment among some, 0 where none has this number.
#[tactic(auto, using(crate::proofs::SegmentLemmas::is_length))]
fn len_among(segments: &[Extent], number: u32) -> u32
    ensures { result ≡ length_among (lengths_of segments.now) number }
{
    if number == 0 {
        return 0;
    }
    match segments.get(number as usize - 1) {
        Some(segment) => segment.len,
        None => 0,
    }
}

// Segments of these lengths, one behind the other.
fn extents(alloc: Global, lengths: &[u32]) -> Result<Vec<Extent>, AllocError>
    requires few { length lengths.now ≤ 4096 }
    requires short { IsTrue (list_all (λ len. nat_le len 1024) lengths.now) }
    ensures lengths { IfOk result (λ segments. lengths_of segments.items ≡ lengths.now) }
    ensures follow { IfOk result (λ segments. IsTrue (follow_from 1 segments.items)) }
    ensures near { IfOk result (λ segments. IsTrue (are_near segments.items)) }
    ensures few { IfOk result (λ segments. length segments.items ≤ 4096) }
{
    let mut segments = Vec::with_capacity(alloc, lengths.len())?;
    let mut start = 1;
    for len in lengths {
        segments.push(Extent { start, len: *len })?;
        start += *len;
    }
    Ok(segments)
}
