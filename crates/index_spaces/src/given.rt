//! What an input gives, looked up by name and by kind.

ghost use Rattle.std.specs.Prelude.{◌≡◌, IfOk};
ghost use Rattle.sial_syntax.specs.Agreeing.{is_kind};
ghost use Rattle.sial_syntax.specs.Resolved.{bound_number, constant_of};
ghost use Rattle.sip_input.specs.Given.{IsInput, cut_given, lengths_among, named_numbers, piece_among};
ghost use Rattle.index_spaces.specs.Given.{cuts_given};
ghost use Rattle.index_spaces.specs.Opened.{cuts_of};

use crate::cuts::Cuts;
use crate::kinds::Kinds;
use crate::names::same_name;
use sial_syntax::{Bound, Kind};
use sip_input::{Constant, Input, PieceLength, SegmentLengths};
use std::alloc::{AllocError, Global};

/// The number of a bound, where the constant is given that it names.
pub fn number_of(constants: &[Constant], bound: &Bound) -> Option<u64>
    ensures { result ≡ bound_number (named_numbers constants.now) bound.now }
{
    match bound {
        Bound::Number(number) => Some(*number),
        Bound::Named(name) => constant(constants, name.as_slice()),
    }
}

// The number of a constant, where it is given.
fn constant(constants: &[Constant], name: &[u8]) -> Option<u64>
    ensures { result ≡ constant_of (named_numbers constants.now) name.now }
{
    for constant in constants {
        if same_name(constant.name.as_slice(), name) {
            return Some(constant.value);
        }
    }
    None
}

// Whether two kinds are one.
fn is_kind(kind: Kind, other: Kind) -> bool
    ensures { result ≡ is_kind kind other }
{
    matches!(
        (kind, other),
        (Kind::Ao, Kind::Ao)
            | (Kind::Mo, Kind::Mo)
            | (Kind::Moa, Kind::Moa)
            | (Kind::Mob, Kind::Mob)
            | (Kind::Index, Kind::Index)
    )
}

// The lengths of a kind's segments.
fn lengths_among(segments: &[SegmentLengths], kind: Kind) -> &[u32]
    ensures { result.now ≡ lengths_among segments.now kind }
{
    for cut in segments {
        if is_kind(cut.kind, kind) {
            return cut.lengths.as_slice();
        }
    }
    &[]
}

// The length of a kind's pieces.
fn piece_among(pieces: &[PieceLength], kind: Kind) -> u32
    ensures { result ≡ piece_among pieces.now kind }
{
    for cut in pieces {
        if is_kind(cut.kind, kind) {
            return cut.length;
        }
    }
    0
}

// The segments of a kind.
fn cut(alloc: Global, input: &Input, kind: Kind) -> Result<Cuts, AllocError>
    requires { IsInput input.now }
    ensures { IfOk result (λ cut. cut ≡ cut_given input.now kind) }
{
    let lengths = lengths_among(input.segments.as_slice(), kind);
    let piece = piece_among(input.pieces.as_slice(), kind);
    Cuts::of(alloc, lengths, piece)
}

/// The segments of the four kinds.
pub fn kinds(alloc: Global, input: &Input) -> Result<Kinds, AllocError>
    requires { IsInput input.now }
    ensures { IfOk result (λ kinds. cuts_of kinds ≡ cuts_given input.now) }
{
    Ok(Kinds {
        ao: cut(alloc, input, Kind::Ao)?,
        mo: cut(alloc, input, Kind::Mo)?,
        moa: cut(alloc, input, Kind::Moa)?,
        mob: cut(alloc, input, Kind::Mob)?,
    })
}
