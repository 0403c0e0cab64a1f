//! The spaces of a program, index by index.

ghost use Rattle.std.specs.Prelude.{◌≡◌, ◌+◌, ◌-◌, ◌^◌, ◌<◌, ◌≤◌, length, min, false, map, IfOk, IsTrue};
ghost use Rattle.sial_syntax.specs.BoxLaws.{AreSegments};
ghost use Rattle.sial_syntax.specs.Boxes.{volume};
ghost use Rattle.sial_syntax.specs.Spaces as sp;
ghost use Rattle.index_spaces.specs.Opened.{placed};
ghost use Rattle.index_spaces.specs.Laid.{AreFewTogether, are_few};
ghost use Rattle.index_spaces.specs.Placed.{are_short, array_among, bare, is_short, extent_of, is_temp, pair_of, span_of, spans_of};

use crate::blocks::Blocks;
use crate::boxes::{rank_in, write_tuple};
use crate::cuts::Cuts;
use crate::extent::Extent;
use crate::kinds::Kinds;
use crate::laying::laid_out;
use crate::ranges::{box_len, span_at};
use crate::span::Span;
use sial_syntax::{ArrayDecl, Kind};
use std::alloc::{AllocError, Global};
use std::marker::Model;

/// The segments of the four kinds, what each index runs over, and the blocks of each array. No reader takes memory.
#[derive(Drop)]
pub struct Spaces {
    pub(crate) ao: Cuts,
    pub(crate) mo: Cuts,
    pub(crate) moa: Cuts,
    pub(crate) mob: Cuts,
    spans: Vec<Span>,
    blocks: Vec<Blocks>,
}

impl Model for Spaces {
    ghost use Rattle.std.specs.Prelude.{[], IsTrue};
    ghost use Rattle.index_spaces.specs.Placed.{Placed, are_short, spans_of};
    ghost use Rattle.index_spaces.specs.Laid.{are_laid, decls_of};

    ghost Value = { Placed };

    ghost view = { λ s. record { spaces = record { ao = s.ao; mo = s.mo; moa = s.moa; mob = s.mob; spans = spans_of s.spans.items }; arrays = decls_of s.blocks.items } };

    ghost invariant = { λ s. IsTrue (are_short s.spans.items) × IsTrue (are_laid (spans_of s.spans.items) [] s.blocks.items) };
}

impl Spaces {
    /// The spaces of these segments and spans, and the blocks of these arrays.
    pub fn open(
        alloc: Global,
        kinds: Kinds,
        spans: Vec<Span>,
        arrays: &[ArrayDecl],
    ) -> Result<Spaces, AllocError>
        requires short { IsTrue (are_short spans.items) }
        requires few { IsTrue (are_few (spans_of spans.items) arrays.now) }
        requires together { AreFewTogether (spans_of spans.items) arrays.now }
        ensures { IfOk result (λ s. s ≡ placed kinds spans.items arrays.now) }
    {
        let blocks = laid_out(alloc, spans.as_slice(), arrays)?;
        let Kinds { ao, mo, moa, mob } = kinds;
        Ok(Spaces {
            ao,
            mo,
            moa,
            mob,
            spans,
            blocks,
        })
    }

    /// The same spaces, with the blocks of these arrays.
    pub(crate) fn with_arrays(
        self,
        alloc: Global,
        arrays: &[ArrayDecl],
    ) -> Result<Spaces, AllocError>
        requires few { IsTrue (are_few self.spaces.spans arrays.now) }
        requires together { AreFewTogether self.spaces.spans arrays.now }
        ensures { IfOk result (λ s. s ≡ record { spaces = self.spaces; arrays = map bare arrays.now }) }
    {
        let blocks = laid_out(alloc, self.spans.as_slice(), arrays)?;
        Ok(Spaces { blocks, ..self })
    }

    // What an index runs over.
    pub(crate) fn span(&self, index: u16) -> Span
        ensures span { span_of result ≡ sp.span_of self.now.spaces index }
        ensures short { IsTrue (is_short result) }
    {
        span_at(self.spans.as_slice(), index)
    }

    /// The kind of an index; a subindex has that of its super index.
    pub fn kind(&self, index: u16) -> Kind
        ensures { result ≡ sp.kind_of self.now.spaces index }
    {
        match self.span(index) {
            Span::Segments { kind, .. } => kind,
            Span::Pieces { super_index } => self.own_kind(super_index),
        }
    }

    // The kind of an index over segments.
    fn own_kind(&self, index: u16) -> Kind
        ensures { result ≡ sp.own_kind (sp.span_of self.now.spaces index) }
    {
        match self.span(index) {
            Span::Segments { kind, .. } => kind,
            Span::Pieces { .. } => Kind::Index,
        }
    }

    /// The first segment of an index, and how many it has: 1 and 0 where its range is empty.
    pub fn range(&self, index: u16) -> (u32, u32)
        ensures first { result.0 ≡ sp.first_of self.now.spaces index }
        ensures count { result.1 ≡ sp.count_of self.now.spaces index }
        ensures short { result.0 + result.1 < 2 ^ 32 }
    {
        match self.span(index) {
            Span::Segments { first, count, .. } => (first, count),
            Span::Pieces { .. } => (1, 0),
        }
    }

    // A segment of a kind, numbered from 1.
    fn segment_of(&self, kind: Kind, number: u32) -> Extent
        requires some { 0 < number }
        requires within { number ≤ sp.segments_of self.now.spaces kind }
        ensures value { extent_of result ≡ sp.segment self.now.spaces kind number }
        ensures near { result.start < 2 ^ 31 }
        ensures short { result.len ≤ 1024 }
    {
        match kind {
            Kind::Ao => self.ao.segment(number),
            Kind::Mo => self.mo.segment(number),
            Kind::Moa => self.moa.segment(number),
            Kind::Mob => self.mob.segment(number),
            Kind::Index => Extent {
                start: number,
                len: 1,
            },
        }
    }

    /// The first position of an index's segment, and how many it has.
    pub fn segment(&self, index: u16, number: u32) -> (u32, u32)
        requires some { 0 < number }
        requires within { number ≤ sp.segments_of self.now.spaces (sp.kind_of self.now.spaces index) }
        ensures { result ≡ pair_of (sp.segment self.now.spaces (sp.kind_of self.now.spaces index) number) }
    {
        let segment = self.segment_of(self.kind(index), number);
        (segment.start, segment.len)
    }

    /// The length of the pieces of a kind's segments, 0 where they aren't cut.
    pub fn piece_len(&self, kind: Kind) -> u32
        ensures value { result ≡ (sp.cut_of self.now.spaces kind).piece }
        ensures short { result ≤ 1024 }
    {
        match kind {
            Kind::Ao => self.ao.piece(),
            Kind::Mo => self.mo.piece(),
            Kind::Moa => self.moa.piece(),
            Kind::Mob => self.mob.piece(),
            Kind::Index => 1,
        }
    }

    /// How many pieces a subindex has in a segment of its super index.
    pub fn pieces(&self, sub: u16, segment: u32) -> u32
        requires some { 0 < segment }
        requires within { segment ≤ sp.segments_of self.now.spaces (sp.kind_of self.now.spaces sub) }
        requires cut { 0 < (sp.cut_of self.now.spaces (sp.kind_of self.now.spaces sub)).piece }
        ensures { result ≡ sp.pieces_of self.now.spaces sub segment }
    {
        let kind = self.kind(sub);
        let piece = self.piece_len(kind);
        (self.segment_of(kind, segment).len + (piece - 1)) / piece
    }

    /// The first position of a piece of a subindex in a segment of its super index, and how many it has.
    #[tactic(auto, using(crate::proofs::BoundLemmas::piece_bound))]
    pub fn piece(&self, sub: u16, segment: u32, number: u32) -> (u32, u32)
        requires some { 0 < segment }
        requires within { segment ≤ sp.segments_of self.now.spaces (sp.kind_of self.now.spaces sub) }
        requires cut { 0 < (sp.cut_of self.now.spaces (sp.kind_of self.now.spaces sub)).piece }
        requires first { 0 < number }
        requires last { number ≤ sp.pieces_of self.now.spaces sub segment }
        ensures { result ≡ pair_of (sp.piece_of self.now.spaces sub segment number) }
    {
        let kind = self.kind(sub);
        let whole = self.segment_of(kind, segment);
        let piece = self.piece_len(kind);
        let before = (number - 1) * piece;
        (
            whole.start + before,
            piece.min(whole.len.saturating_sub(before)),
        )
    }

    /// How many tuples the box of some indices has; counts above 2^64 - 1 are kept as 2^64 - 1.
    pub fn box_len(&self, indices: &[u16]) -> u64
        ensures { result ≡ min (volume (sp.box_of self.now.spaces indices.now)) (2 ^ 64 - 1) }
    {
        box_len(self.spans.as_slice(), indices)
    }

    /// The place of a tuple of segment numbers in the box of their indices.
    pub fn rank_of(&self, indices: &[u16], tuple: &[u32]) -> u64
        requires within { AreSegments self.now.spaces indices.now tuple.now }
        requires fits { volume (sp.box_of self.now.spaces indices.now) < 2 ^ 64 }
        ensures { result ≡ sp.rank_of self.now.spaces indices.now tuple.now }
    {
        rank_in(self.spans.as_slice(), indices, tuple).place
    }

    /// Writes the tuple of segment numbers at a place of the box of their indices.
    pub fn tuple_at(&self, indices: &[u16], rank: u64, into: &mut [u32])
        requires len { length into.old ≡ length indices.now }
        requires within { rank < volume (sp.box_of self.now.spaces indices.now) }
        ensures { into.new ≡ sp.numbers_at self.now.spaces indices.now rank }
    {
        write_tuple(self.spans.as_slice(), indices, rank, into);
    }

    /// How many blocks an array has that isn't temp.
    pub fn blocks_of(&self, array: u16) -> u32
        requires declared { array < length self.now.arrays }
        requires counted { is_temp (array_among self.now.arrays array) ≡ false }
        ensures { result ≡ sp.blocks_of self.now.spaces (array_among self.now.arrays array) }
    {
        self.blocks[array as usize].count
    }

    /// The number of an array's first block among all blocks of arrays of its kind, which isn't temp.
    pub fn first_block(&self, array: u16) -> u32
        requires declared { array < length self.now.arrays }
        requires counted { is_temp (array_among self.now.arrays array) ≡ false }
        ensures { result ≡ sp.first_block self.now.spaces self.now.arrays array (array_among self.now.arrays array).kind }
    {
        self.blocks[array as usize].first
    }

    /// The declared indices of an array.
    pub fn dims(&self, array: u16) -> &[u16]
        ensures { result.now ≡ (array_among self.now.arrays array).dims }
    {
        match self.blocks.get(array as usize) {
            Some(blocks) => blocks.dims.as_slice(),
            None => &[],
        }
    }
}
