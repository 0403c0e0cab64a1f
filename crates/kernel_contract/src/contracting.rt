//! The contraction, by panels where that pays and else by tiles.

ghost use Rattle.std.specs.Prelude.{◌≡◌, ◌-◌, ◌^◌, ◌<◌, IsTrue, length, min};
ghost use Rattle.kernel_contract.specs.Contraction.{Contracted, Fits};
ghost use Rattle.kernel_contract.specs.Walks.{count};

use crate::axis::Axis;
use crate::by_panels::by_panels;
use crate::laws::contract_plain;
use crate::tiled::by_tiles;
use kernel_permute::How;

/// Contracts `a` and `b` along the shared axes: for each position m of `free_a` and each position i of `free_b`,
///
///     to[m, i] = how(to[m, i], sum over the positions l of `shared` of a[m, l] * b[l, i])     modulo 2^64
///
/// A position has one number for each axis, below its length. Where its element lies in an operand is the sum of these
/// numbers, each times the axis's stride there; an axis that an operand doesn't have has stride 0 in it. Lengths and
/// strides count elements. A block lies with its last dimension fastest: that one has stride 1, and each other has the
/// product of the lengths of those behind it.
///
/// For `p(m,i) = v(m,l) * t(l,i)`, with M, I and L elements along the indices:
///
///     free_a: [Axis { len: M, a: L, b: 0, to: I }]
///     free_b: [Axis { len: I, a: 0, b: 1, to: 1 }]
///     shared: [Axis { len: L, a: 1, b: I, to: 0 }]
///
/// The condition is that all elements lie in their operands, and that those of the target differ.
///
/// A large contraction packs parts of both operands once and uses them for all rows and columns, a small
/// one goes over its positions in runs of up to four, and one with few rows or few columns number by number.
pub fn contract<const FA: usize, const FB: usize, const S: usize>(
    a: &[u64],
    b: &[u64],
    to: &mut [u64],
    free_a: &[Axis; FA],
    free_b: &[Axis; FB],
    shared: &[Axis; S],
    how: How,
)
    requires { Fits (length a.now) (length b.now) (length to.old)
        free_a.now free_b.now shared.now }
    ensures { Contracted a.now b.now to.old to.new free_a.now free_b.now shared.now how }
{
    let (rows, columns) = (size(free_a), size(free_b));
    if rows < 4 || columns < 4 {
        contract_plain(a, b, to, free_a, free_b, shared, how);
    } else if pays(rows, columns, size(shared)) {
        by_panels(a, b, to, free_a, free_b, shared, how);
    } else {
        by_tiles(a, b, to, free_a, free_b, shared, how);
    }
}

// Panels cost some thousand writes before the first product.
fn pays(rows: u64, columns: u64, positions: u64) -> bool
    ensures rows { IsTrue result → 0 < rows }
    ensures positions { IsTrue result → 0 < positions }
{
    rows >= 1 && positions >= 1 && rows.saturating_mul(columns).saturating_mul(positions) >= LEAST
}

const LEAST: u64 = 4096;

// how many positions there are, as far as a `u64` goes
fn size(axes: &[Axis]) -> u64
    ensures { result ≡ min (count axes.now) (2 ^ 64 - 1) }
{
    match axes {
        [] => 1,
        [axis, rest @ ..] => (axis.len as u64).saturating_mul(size(rest)),
    }
}
