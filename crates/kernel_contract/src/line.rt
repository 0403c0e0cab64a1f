//! The sum of products over all shared positions, axis by axis.

ghost use Rattle.std.specs.Prelude.{◌≡◌, ◌+◌, ◌∷◌, [], length};
ghost use Rattle.kernel_contract.specs.Parts.{Reaches, sum_from};
ghost use Rattle.kernel_contract.specs.Positions.{offset_a, offset_b};

use crate::axis::Axis;
use crate::packing::number_at;

/// The sum, from two offsets on, of the products over the positions of all axes.
pub fn sum_along(a: &[u64], b: &[u64], from_a: usize, from_b: usize, shared: &[Axis]) -> u64
    requires in_a { Reaches offset_a shared.now from_a (length a.now) }
    requires in_b { Reaches offset_b shared.now from_b (length b.now) }
    ensures { result ≡ sum_from a.now b.now shared.now from_a from_b }
{
    match shared {
        [] => number_at(a, from_a, 0).wrapping_mul(number_at(b, from_b, 0)),
        [axis] => sum_of_line(a, b, from_a, from_b, axis),
        [axis, rest @ ..] => {
            let mut sum = 0u64;
            for n in 0..axis.len {
                let at_a = from_a.wrapping_add(n as usize * axis.a as usize);
                let at_b = from_b.wrapping_add(n as usize * axis.b as usize);
                sum = sum.wrapping_add(sum_along(a, b, at_a, at_b, rest));
            }
            sum
        }
    }
}

fn sum_of_line(a: &[u64], b: &[u64], from_a: usize, from_b: usize, axis: &Axis) -> u64
    requires in_a { Reaches offset_a (axis.now ∷ []) from_a (length a.now) }
    requires in_b { Reaches offset_b (axis.now ∷ []) from_b (length b.now) }
    ensures { result ≡ sum_from a.now b.now (axis.now ∷ []) from_a from_b }
{
    let mut sum = 0u64;
    for n in 0..axis.len {
        let left = number_at(a, from_a, n as usize * axis.a as usize);
        let right = number_at(b, from_b, n as usize * axis.b as usize);
        sum = sum.wrapping_add(left.wrapping_mul(right));
    }
    sum
}
