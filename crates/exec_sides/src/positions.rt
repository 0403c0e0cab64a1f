//! Numbers worked out from whole positions.

ghost use Rattle.std.specs.Prelude.{◌≡◌, ◌+◌, ◌*◌, ◌%◌, ◌^◌, ◌<◌, length, map};
ghost use Rattle.sial_syntax.specs.Boxes.{tuple_at, tuples, volume};
ghost use Rattle.sial_meaning.specs.LocalStep.{integral, integrals, whole_positions};
ghost use Rattle.sial_meaning.specs.Sight.{lengths};
ghost use Rattle.exec_sides.specs.Seen.{extents_of, lengths_of, sight_of};

use crate::indices::product_of;
use crate::seen::Shape;
use exec_names::Extent;

/// Makes a target's numbers integrals: 1, 3, 5, .. times the first, the second, the third, .. whole position, added up modulo 2^64.
pub fn integrals(to: &Shape, into: &mut [u64])
    requires words { length into.old ≡ volume (lengths_of to.now) }
    requires most { length to.now.extents.now < 2 ^ 16 }
    requires few { length into.old < 2 ^ 32 }
    ensures value { into.new ≡ integrals (sight_of to.now into.old) }
{
    write_integrals(to.extents, into);
}

// Writes the integral at each place.
fn write_integrals(extents: &[Extent], into: &mut [u64])
    requires words { length into.old ≡ volume (lengths (extents_of extents.now)) }
    requires most { length extents.now < 2 ^ 16 }
    requires few { length into.old < 2 ^ 32 }
    ensures { into.new ≡ map (λ t. integral 1 (whole_positions (extents_of extents.now) t) % 2 ^ 64) (tuples (lengths (extents_of extents.now))) }
{
    for place in 0..into.len() {
        into[place] = integral_at(extents, 1, place as u64);
    }
}

// The integral at a place of a block.
fn integral_at(extents: &[Extent], weight: u64, place: u64) -> u64
    requires within { place < volume (lengths (extents_of extents.now)) }
    requires few { volume (lengths (extents_of extents.now)) < 2 ^ 32 }
    requires light { weight + 2 * length extents.now < 2 ^ 32 }
    ensures { result ≡ integral weight (whole_positions (extents_of extents.now) (tuple_at (lengths (extents_of extents.now)) place)) % 2 ^ 64 }
{
    match extents {
        [] => 0,
        [extent, rest @ ..] => {
            let width = product_of(rest) as u64;
            let position = extent.start + place / width;
            let others = integral_at(rest, weight + 2, place % width);
            weight.wrapping_mul(position).wrapping_add(others)
        }
    }
}
