//! Boxes of tuples of segment numbers, the last index fastest.

ghost use Rattle.std.specs.Prelude.{◌≡◌, ◌<◌, ◌^◌, length, IsTrue};
ghost use Rattle.sial_syntax.specs.BoxLaws.{AreSegments};
ghost use Rattle.sial_syntax.specs.Boxes.{volume};
ghost use Rattle.sial_syntax.specs.Spaces as sp;
ghost use Rattle.index_spaces.specs.Placed.{span_of, spans_of, are_short};
ghost use Rattle.index_spaces.specs.Laid.{over};

use crate::ranges::row_of;
use crate::span::Span;

// A place in a box, and how many there are.
#[derive(Clone, Copy)]
pub struct Rank {
    pub place: u64,
    pub places: u64,
}

/// The place of a tuple of segment numbers in the box of their indices, and how many places there are.
pub fn rank_in(spans: &[Span], indices: &[u16], tuple: &[u32]) -> Rank
    requires within { AreSegments (over (spans_of spans.now)) indices.now tuple.now }
    requires fits { volume (sp.box_of (over (spans_of spans.now)) indices.now) < 2 ^ 64 }
    ensures place { result.place ≡ sp.rank_of (over (spans_of spans.now)) indices.now tuple.now }
    ensures places { result.places ≡ volume (sp.box_of (over (spans_of spans.now)) indices.now) }
    ensures below { result.place < result.places }
{
    match indices {
        [] => Rank {
            place: 0,
            places: 1,
        },
        [index, indices @ ..] => match tuple {
            [] => unreachable!(),
            [number, numbers @ ..] => {
                let row = row_of(spans, *index);
                let behind = rank_in(spans, indices, numbers);
                Rank {
                    place: (*number - row.first) as u64 * behind.places + behind.place,
                    places: row.count as u64 * behind.places,
                }
            }
        },
    }
}

/// Writes the tuple of segment numbers at a place of the box of some indices.
pub fn write_tuple(spans: &[Span], indices: &[u16], rank: u64, into: &mut [u32])
    requires len { length into.old ≡ length indices.now }
    requires within { rank < volume (sp.box_of (over (spans_of spans.now)) indices.now) }
    requires short { IsTrue (are_short spans.now) }
    ensures { into.new ≡ sp.numbers_at (over (spans_of spans.now)) indices.now rank }
{
    let mut left = rank;
    for k in (0..indices.len()).rev() {
        let row = row_of(spans, indices[k]);
        into[k] = row.first + (left % row.count as u64) as u32;
        left /= row.count as u64;
    }
}
