//! The contraction by tiles of up to four rows and four columns.

ghost use Rattle.std.specs.Prelude.{◌≡◌, ◌+◌, ◌%◌, ◌^◌, ◌<◌, ◌≤◌, ℕ, length, slice_index};
ghost use Rattle.kernel_contract.specs.Contraction.{Contracted, Fits};
ghost use Rattle.kernel_contract.specs.Parts.{AreTargets, Reaches, Replaced, sum_from};
ghost use Rattle.kernel_contract.specs.Positions.{offset_a, offset_b, offset_to};
ghost use Rattle.kernel_contract.specs.Walks.{IsFilled, count, position_at};

use crate::axis::Axis;
use crate::run::Run;
use crate::storing::store;
use crate::tile_sums::products;
use crate::walk::Walk;
use kernel_permute::How;

/// Contracts as `contract` does: it goes over the positions in runs of up to four, packs the parts of both
/// operands that belong to them, and multiplies tiles.
pub fn by_tiles<const FA: usize, const FB: usize, const S: usize>(
    a: &[u64],
    b: &[u64],
    to: &mut [u64],
    free_a: &[Axis; FA],
    free_b: &[Axis; FB],
    shared: &[Axis; S],
    how: How,
)
    requires { Fits (length a.now) (length b.now) (length to.old)
        free_a.now free_b.now shared.now }
    ensures { Contracted a.now b.now to.old to.new free_a.now free_b.now shared.now how }
{
    let mut rows = Walk::start(free_a);
    while rows.left {
        let run = rows.run(free_a);
        across(a, b, to, &run, free_b, shared, how);
    }
}

// up to four rows of the target, whole
fn across<const FB: usize, const S: usize>(
    a: &[u64],
    b: &[u64],
    to: &mut [u64],
    rows: &Run<4>,
    free_b: &[Axis; FB],
    shared: &[Axis; S],
    how: How,
)
    requires some_rows { 1 ≤ rows.now.len }
    requires few_rows { rows.now.len ≤ 4 }
    requires filled_rows { IsFilled rows.now }
    requires in_a { (i j : ℕ) → i < rows.now.len → j < count free_b.now
        → Reaches offset_a shared.now (slice_index rows.now.a i) (length a.now) }
    requires in_b { (j : ℕ) → j < count free_b.now
        → Reaches offset_b shared.now (offset_b free_b.now (position_at free_b.now j)) (length b.now) }
    requires targets { AreTargets
        (λ i j. (slice_index rows.now.to i + offset_to free_b.now (position_at free_b.now j)) % 2 ^ 64)
        rows.now.len (count free_b.now) (length to.old) }
    ensures { Replaced how
        (λ i j. (slice_index rows.now.to i + offset_to free_b.now (position_at free_b.now j)) % 2 ^ 64)
        (λ i j. sum_from a.now b.now shared.now (slice_index rows.now.a i)
        (offset_b free_b.now (position_at free_b.now j)))
        rows.now.len (count free_b.now) to.old to.new }
{
    let mut columns = Walk::start(free_b);
    while columns.left {
        let run = columns.run(free_b);
        let sums = products(a, b, rows, &run, shared);
        store(to, rows, &run, &sums, how);
    }
}
