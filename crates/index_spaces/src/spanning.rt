//! What the indices of a program run over, by an input.

ghost use Rattle.std.specs.Prelude.{◌≡◌, ◌≤◌, IfOk, IsTrue};
ghost use Rattle.sial_syntax.specs.Spaces as sp;
ghost use Rattle.sip_input.specs.Given.{named_numbers};
ghost use Rattle.index_spaces.specs.Given.{span_between, span_given, spans_given};
ghost use Rattle.index_spaces.specs.Opened.{cuts_of};
ghost use Rattle.index_spaces.specs.Placed.{are_short, is_short, span_of, spans_of};

use crate::given::number_of;
use crate::kinds::Kinds;
use crate::span::Span;
use sial_syntax::{IndexDecl, Kind, Range};
use sip_input::Constant;
use std::alloc::{AllocError, Global};

/// What each index runs over.
pub fn spans(
    alloc: Global,
    kinds: &Kinds,
    constants: &[Constant],
    indices: &[IndexDecl],
) -> Result<Vec<Span>, AllocError>
    ensures spans { IfOk result (λ s. spans_of s.items ≡ spans_given (named_numbers constants.now) (cuts_of kinds.now) indices.now) }
    ensures short { IfOk result (λ s. IsTrue (are_short s.items)) }
{
    let mut spans = Vec::with_capacity(alloc, indices.len())?;
    for index in indices {
        spans.push(span(kinds, constants, &index.range))?;
    }
    Ok(spans)
}

// What an index of this range runs over.
fn span(kinds: &Kinds, constants: &[Constant], range: &Range) -> Span
    ensures span { span_of result ≡ span_given (named_numbers constants.now) (cuts_of kinds.now) range.now }
    ensures short { IsTrue (is_short result) }
{
    match range {
        Range::Segments { kind, lo, hi } => between(
            segments(kinds, *kind),
            *kind,
            number_of(constants, lo),
            number_of(constants, hi),
        ),
        Range::Sub { super_index } => Span::Pieces {
            super_index: *super_index,
        },
    }
}

// How many segments a kind has.
fn segments(kinds: &Kinds, kind: Kind) -> u32
    ensures value { result ≡ sp.segments_of (cuts_of kinds.now) kind }
    ensures few { result ≤ 4096 }
{
    match kind {
        Kind::Ao => kinds.ao.count(),
        Kind::Mo => kinds.mo.count(),
        Kind::Moa => kinds.moa.count(),
        Kind::Mob => kinds.mob.count(),
        Kind::Index => 4096,
    }
}

// The segments between two bounds.
fn between(segments: u32, kind: Kind, lo: Option<u64>, hi: Option<u64>) -> Span
    requires { segments ≤ 4096 }
    ensures span { span_of result ≡ span_between segments kind lo hi }
    ensures short { IsTrue (is_short result) }
{
    match (lo, hi) {
        (Some(lo), Some(hi)) if lo <= hi && hi <= segments as u64 => Span::Segments {
            kind,
            first: lo as u32,
            count: (hi + 1 - lo) as u32,
        },
        _ => Span::Segments {
            kind,
            first: 1,
            count: 0,
        },
    }
}
