//! What is given already.

ghost use Rattle.std.specs.Prelude.{◌≡◌, map};
ghost use Rattle.sial_syntax.specs.Agreeing.{is_kind};
ghost use Rattle.input_text.specs.Adding as spec;

use sial_syntax::Kind;
use sip_input::{Constant, PieceLength, SegmentLengths};

/// Whether a constant is given.
pub fn has_constant(constants: &[Constant], name: &[u8]) -> bool
    ensures { result ≡ spec.has_constant constants.now name.now }
{
    for constant in constants {
        if name == constant.name.as_slice() {
            return true;
        }
    }
    false
}

/// Whether the segments of a kind are given.
pub fn has_lengths(segments: &[SegmentLengths], kind: Kind) -> bool
    ensures { result ≡ spec.has_lengths (map spec.lengths_of segments.now) kind }
{
    for cut in segments {
        if is_kind(cut.kind, kind) {
            return true;
        }
    }
    false
}

/// Whether the length of the pieces of a kind is given.
pub fn has_piece(pieces: &[PieceLength], kind: Kind) -> bool
    ensures { result ≡ spec.has_piece pieces.now kind }
{
    for cut in pieces {
        if is_kind(cut.kind, kind) {
            return true;
        }
    }
    false
}

// Whether two kinds are one.
fn is_kind(kind: Kind, other: Kind) -> bool
    ensures { result ≡ is_kind kind other }
{
    matches!(
        (kind, other),
        (Kind::Ao, Kind::Ao)
            | (Kind::Mo, Kind::Mo)
            | (Kind::Moa, Kind::Moa)
            | (Kind::Mob, Kind::Mob)
            | (Kind::Index, Kind::Index)
    )
}
