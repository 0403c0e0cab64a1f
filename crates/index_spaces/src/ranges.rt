//! What indices run over, and how large their boxes are.

ghost use Rattle.std.specs.Prelude.{◌≡◌, ◌+◌, ◌-◌, ◌<◌, ◌^◌, min, IsTrue};
ghost use Rattle.sial_syntax.specs.Boxes.{volume};
ghost use Rattle.sial_syntax.specs.Spaces as sp;
ghost use Rattle.index_spaces.specs.Laid.{over};
ghost use Rattle.index_spaces.specs.Placed.{are_short, is_short, span_of, spans_of};

use crate::span::Span;
use sial_syntax::Kind;

/// What an index runs over; one that isn't declared runs over nothing.
#[tactic(auto, using(crate::proofs::SegmentLemmas::short_at))]
pub fn span_at(spans: &[Span], index: u16) -> Span
    ensures span { span_of result ≡ sp.span_of (over (spans_of spans.now)) index }
    ensures short { IsTrue (are_short spans.now) → IsTrue (is_short result) }
{
    match spans.get(index as usize) {
        Some(span) => *span,
        None => Span::Segments {
            kind: Kind::Index,
            first: 1,
            count: 0,
        },
    }
}

/// The first segment of an index, and how many it has.
#[derive(Clone, Copy)]
pub struct Row {
    pub first: u32,
    pub count: u32,
}

/// The segments of an index.
pub fn row_of(spans: &[Span], index: u16) -> Row
    ensures first { result.first ≡ sp.first_of (over (spans_of spans.now)) index }
    ensures count { result.count ≡ sp.count_of (over (spans_of spans.now)) index }
    ensures short { IsTrue (are_short spans.now) → result.first + result.count < 2 ^ 32 }
{
    match span_at(spans, index) {
        Span::Segments { first, count, .. } => Row { first, count },
        Span::Pieces { .. } => Row { first: 1, count: 0 },
    }
}

/// How many tuples the box of some indices has, as far as a `u64` goes.
#[tactic(auto, using(crate::proofs::BoundLemmas::min_product))]
pub fn box_len(spans: &[Span], indices: &[u16]) -> u64
    ensures { result ≡ min (volume (sp.box_of (over (spans_of spans.now)) indices.now)) (2 ^ 64 - 1) }
{
    match indices {
        [] => 1,
        [index, others @ ..] => {
            (row_of(spans, *index).count as u64).saturating_mul(box_len(spans, others))
        }
    }
}
