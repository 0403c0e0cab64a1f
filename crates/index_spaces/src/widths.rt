//! How wide the blocks of arrays can be, by the lengths of segments and pieces.

ghost use Rattle.std.specs.Prelude.{◌≡◌, ◌+◌, ◌-◌, ◌^◌, ◌<◌, ◌≤◌, map, min};
ghost use Rattle.sial_syntax.specs.Spaces as sp;
ghost use Rattle.sial_syntax.specs.Widths.{widest_block, width_of_span};
ghost use Rattle.index_spaces.specs.Widest as spec;

use crate::spaces::Spaces;
use crate::span::Span;
use sial_syntax::Kind;

impl Spaces {
    /// How many segments a kind has.
    pub fn segments(&self, kind: Kind) -> u32
        ensures value { result ≡ sp.segments_of self.now.spaces kind }
        ensures few { result ≤ 4096 }
    {
        match kind {
            Kind::Ao => self.ao.count(),
            Kind::Mo => self.mo.count(),
            Kind::Moa => self.moa.count(),
            Kind::Mob => self.mob.count(),
            Kind::Index => 4096,
        }
    }

    /// The length of a kind's segment, 0 where none has this number.
    pub(crate) fn len_of(&self, kind: Kind, number: u32) -> u32
        ensures { result ≡ (sp.segment self.now.spaces kind number).len }
    {
        match kind {
            Kind::Ao => self.ao.len_at(number),
            Kind::Mo => self.mo.len_at(number),
            Kind::Moa => self.moa.len_at(number),
            Kind::Mob => self.mob.len_at(number),
            Kind::Index => number.min(1),
        }
    }

    // The greatest length of so many segments.
    #[tactic(auto, using(crate::proofs::WidthLemmas::one_turn))]
    fn widest_segment(&self, kind: Kind, first: u32, count: u32) -> u32
        requires { first + count < 2 ^ 32 }
        ensures { result ≡ spec.widest_segment self.now.spaces kind first count }
    {
        let mut widest = 0;
        for k in 0..count {
            widest = self.len_of(kind, first + k).max(widest);
        }
        widest
    }

    // The greatest length of pieces of so many segments.
    #[tactic(auto, using(crate::proofs::WidthLemmas::one_turn))]
    fn widest_piece(&self, kind: Kind, first: u32, count: u32) -> u32
        requires { first + count < 2 ^ 32 }
        ensures { result ≡ spec.widest_piece self.now.spaces kind first count }
    {
        let piece = self.piece_len(kind);
        let mut widest = 0;
        for k in 0..count {
            widest = piece.min(self.len_of(kind, first + k)).max(widest);
        }
        widest
    }

    // The greatest length of an index's segments, or of its pieces.
    fn width(&self, index: u16) -> u32
        ensures { result ≡ width_of_span self.now.spaces index (sp.span_of self.now.spaces index) }
    {
        match self.span(index) {
            Span::Segments { kind, first, count } => self.widest_segment(kind, first, count),
            Span::Pieces { super_index } => {
                let (first, count) = self.range(super_index);
                self.widest_piece(self.kind(index), first, count)
            }
        }
    }

    /// How many words the widest block over some indices has, as far as a `u64` goes.
    #[tactic(auto, using(crate::proofs::BoundLemmas::min_product))]
    pub fn widest_block(&self, indices: &[u16]) -> u64
        ensures { result ≡ min (widest_block self.now.spaces indices.now) (2 ^ 64 - 1) }
    {
        match indices {
            [] => 1,
            [index, others @ ..] => {
                (self.width(*index) as u64).saturating_mul(self.widest_block(others))
            }
        }
    }
}
