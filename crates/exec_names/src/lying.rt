//! What indices lie on.

ghost use Rattle.std.specs.Prelude.{◌≡◌, ◌+◌, ◌^◌, ◌<◌, ◌≤◌, length, map};
ghost use Rattle.sial_syntax.specs.Spaces as sp;
ghost use Rattle.exec_names.specs.Cutting.{IsCutAs};
ghost use Rattle.exec_names.specs.Naming.{extent_of};

use crate::extent::Extent;
use crate::naming::value_of;
use crate::supers::super_of;
use index_spaces::Spaces;
use sial_syntax::{IndexDecl, Kind};

/// What an index lies on now: a segment, or a piece of the segment that its super index has.
pub fn extent_now(spaces: &Spaces, indices: &[IndexDecl], values: &[u32], index: u16) -> Extent
    requires { IsCutAs spaces.now.spaces indices.now }
    ensures { extent_of result ≡ sp.extent spaces.now.spaces values.now index }
{
    let number = value_of(values, index);
    match super_of(indices, index) {
        None => segment_of(spaces, index, number),
        Some(super_index) => piece_of(spaces, index, value_of(values, super_index), number),
    }
}

/// Writes what each index lies on now.
pub fn extents_now(
    spaces: &Spaces,
    indices: &[IndexDecl],
    values: &[u32],
    at: &[u16],
    into: &mut [Extent],
)
    requires cut { IsCutAs spaces.now.spaces indices.now }
    requires len { length into.old ≡ length at.now }
    ensures { map extent_of into.new ≡ map (sp.extent spaces.now.spaces values.now) at.now }
{
    for k in 0..at.len() {
        into[k] = extent_now(spaces, indices, values, at[k]);
    }
}

// A segment of an index's kind; by 0 and by a number past the last it is empty, but for plain numbers.
fn segment_of(spaces: &Spaces, index: u16, number: u32) -> Extent
    ensures value { extent_of result ≡ sp.segment spaces.now.spaces (sp.kind_of spaces.now.spaces index) number }
    ensures near { result.start < 2 ^ 33 }
{
    let kind = spaces.kind(index);
    if number == 0 {
        return before_first(kind);
    }
    if number > spaces.segments(kind) {
        return past_last(spaces, index, number);
    }
    let (start, len) = spaces.segment(index, number);
    Extent {
        start: start as u64,
        len,
    }
}

// What stands for segment 0 of a kind.
fn before_first(kind: Kind) -> Extent
    ensures value { (spaces : sp.Spaces) → extent_of result ≡ sp.segment spaces kind 0 }
    ensures near { result.start < 2 ^ 33 }
{
    match kind {
        Kind::Index => Extent { start: 0, len: 0 },
        _ => Extent { start: 1, len: 0 },
    }
}

// What stands for a segment past the last: it begins where the last one ends.
fn past_last(spaces: &Spaces, index: u16, number: u32) -> Extent
    requires { sp.segments_of spaces.now.spaces (sp.kind_of spaces.now.spaces index) < number }
    ensures value { extent_of result ≡ sp.segment spaces.now.spaces (sp.kind_of spaces.now.spaces index) number }
    ensures near { result.start < 2 ^ 33 }
{
    let kind = spaces.kind(index);
    let last = spaces.segments(kind);
    if let Kind::Index = kind {
        return Extent {
            start: number as u64,
            len: 1,
        };
    }
    if last == 0 {
        return Extent { start: 1, len: 0 };
    }
    let (start, len) = spaces.segment(index, last);
    Extent {
        start: start as u64 + len as u64,
        len: 0,
    }
}

// A piece of a subindex in a segment of its super index.
fn piece_of(spaces: &Spaces, sub: u16, segment: u32, number: u32) -> Extent
    ensures { extent_of result ≡ sp.piece_of spaces.now.spaces sub segment number }
{
    let whole = segment_of(spaces, sub, segment);
    let piece = spaces.piece_len(spaces.kind(sub));
    piece_at(whole, piece, number)
}

// A piece of a segment; by 0 and by a number past the last it is empty.
fn piece_at(whole: Extent, piece: u32, number: u32) -> Extent
    requires short { piece ≤ 1024 }
    requires near { whole.start < 2 ^ 33 }
    ensures { extent_of result ≡ sp.piece_at (extent_of whole) piece number }
{
    if number == 0 {
        return Extent {
            start: whole.start,
            len: 0,
        };
    }
    let before = (number as u64 - 1) * piece as u64;
    Extent {
        start: whole.start + before,
        len: piece.min((whole.len as u64).saturating_sub(before) as u32),
    }
}
