//! The plain contraction: what `contract` does, one number of the target after the other. It is also what
//! `contract` does where there are few rows or few columns.

ghost use Rattle.std.specs.Prelude.{◌≡◌, ◌+◌, ◌%◌, ◌^◌, ◌<◌, ◌≤◌, ℕ, length};
ghost use Rattle.kernel_contract.specs.Contraction.{Contracted, Fits};
ghost use Rattle.kernel_contract.specs.Parts.{AreTargets, Reaches, Replaced, sum_from};
ghost use Rattle.kernel_contract.specs.Positions.{offset_a, offset_b, offset_to};
ghost use Rattle.kernel_contract.specs.Walks.{count, position_at};

use crate::axis::Axis;
use crate::line::sum_along;
use crate::storing::meet;
use crate::walk::{Offsets, Walk};
use kernel_permute::How;

/// Contracts as `contract` does, without tiles.
pub fn contract_plain<const FA: usize, const FB: usize, const S: usize>(
    a: &[u64],
    b: &[u64],
    to: &mut [u64],
    free_a: &[Axis; FA],
    free_b: &[Axis; FB],
    shared: &[Axis; S],
    how: How,
)
    requires { Fits (length a.now) (length b.now) (length to.old)
        free_a.now free_b.now shared.now }
    ensures { Contracted a.now b.now to.old to.new free_a.now free_b.now shared.now how }
{
    let mut row = Walk::start(free_a);
    while row.left {
        let here = row.step(free_a);
        plain_row(a, b, to, here, free_b, shared, how);
    }
}

// one row of the target
fn plain_row<const FB: usize, const S: usize>(
    a: &[u64],
    b: &[u64],
    to: &mut [u64],
    row: Offsets,
    free_b: &[Axis; FB],
    shared: &[Axis; S],
    how: How,
)
    requires in_a { (j : ℕ) → j < count free_b.now
        → Reaches offset_a shared.now row.a (length a.now) }
    requires in_b { (j : ℕ) → j < count free_b.now
        → Reaches offset_b shared.now (offset_b free_b.now (position_at free_b.now j)) (length b.now) }
    requires targets { AreTargets
        (λ i j. (row.to + offset_to free_b.now (position_at free_b.now j)) % 2 ^ 64)
        1 (count free_b.now) (length to.old) }
    ensures { Replaced how
        (λ i j. (row.to + offset_to free_b.now (position_at free_b.now j)) % 2 ^ 64)
        (λ i j. sum_from a.now b.now shared.now row.a
        (offset_b free_b.now (position_at free_b.now j)))
        1 (count free_b.now) to.old to.new }
{
    let mut column = Walk::start(free_b);
    while column.left {
        let here = column.step(free_b);
        let value = sum_along(a, b, row.a, here.b, shared);
        meet(to, row.to, here.to, value, how);
    }
}
