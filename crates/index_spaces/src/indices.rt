//! The first round of refusals: indices in order of declaration.

ghost use Rattle.std.specs.Prelude.{◌≡◌, ◌==◌};
ghost use Rattle.sial_syntax.specs.Spaces as sp;
ghost use Rattle.sip_input.specs.Given.{named_numbers};
ghost use Rattle.index_spaces.specs.Found.{fault_of, seen};
ghost use Rattle.index_spaces.specs.Refusing as spec;

use crate::fault::{Refusal, SpaceKind};
use crate::given::number_of;
use crate::spaces::Spaces;
use sial_syntax::{IndexDecl, Range};
use sip_input::Constant;

/// The first refusal of indices.
pub fn indices_refused<'a>(
    spaces: &Spaces,
    constants: &[Constant],
    indices: &'a [IndexDecl],
) -> Option<Refusal<'a>>
    ensures { seen result ≡ spec.indices_refusal (named_numbers constants.now) spaces.now.spaces indices.now }
{
    for index in indices {
        if let Some(refusal) = range_refused(
            spaces,
            constants,
            index.name.as_slice(),
            &index.range,
        ) {
            return Some(refusal);
        }
    }
    None
}

// The refusal of an index.
fn range_refused<'a>(
    spaces: &Spaces,
    constants: &[Constant],
    name: &'a [u8],
    range: &Range,
) -> Option<Refusal<'a>>
    ensures { seen result ≡ spec.range_refusal (named_numbers constants.now) spaces.now.spaces name.now range.now }
{
    match range {
        Range::Segments { kind, lo, hi } => bounds_refused(
            name,
            spaces.segments(*kind),
            number_of(constants, lo),
            number_of(constants, hi),
        ),
        Range::Sub { super_index } => {
            pieces_refused(name, spaces.piece_len(spaces.kind(*super_index)))
        }
    }
}

// The refusal of a subindex whose pieces have this length.
fn pieces_refused(name: &[u8], piece: u32) -> Option<Refusal<'_>>
    ensures { seen result ≡ spec.fault_if (piece == 0) (spec.fault SpaceKind.NoSegment name.now 0) }
{
    if piece == 0 {
        Some(no_segment(name, 0))
    } else {
        None
    }
}

// The refusal of a range with these bounds.
fn bounds_refused(
    name: &[u8],
    segments: u32,
    lo: Option<u64>,
    hi: Option<u64>,
) -> Option<Refusal<'_>>
    ensures { seen result ≡ spec.bounds_refusal name.now segments lo hi }
{
    match (lo, hi) {
        (Some(lo), Some(hi)) => between_refused(name, segments, lo, hi),
        _ => Some(Refusal {
            kind: SpaceKind::NoConstant,
            name,
            value: 0,
        }),
    }
}

// The refusal of a range between two numbers.
fn between_refused(name: &[u8], segments: u32, lo: u64, hi: u64) -> Option<Refusal<'_>>
    ensures { seen result ≡ spec.between_refusal name.now segments lo hi }
{
    if segments == 0 || lo == 0 {
        Some(no_segment(name, 0))
    } else if hi > segments as u64 {
        Some(no_segment(name, hi))
    } else {
        None
    }
}

fn no_segment(name: &[u8], value: u64) -> Refusal<'_>
    ensures { fault_of result ≡ spec.fault SpaceKind.NoSegment name.now value }
{
    Refusal {
        kind: SpaceKind::NoSegment,
        name,
        value,
    }
}
