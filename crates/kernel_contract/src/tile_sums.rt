//! The sums of one tile of the target, over all shared positions.

ghost use Rattle.std.specs.Prelude.{◌≡◌, ◌+◌, ◌%◌, ◌^◌, ◌<◌, ◌≤◌, ℕ, length, slice_index};
ghost use Rattle.kernel_contract.specs.Parts.{Reaches, sum_from};
ghost use Rattle.kernel_contract.specs.Positions.{offset_a, offset_b};
ghost use Rattle.kernel_contract.specs.Product.{entry};
ghost use Rattle.kernel_contract.specs.Walks.{IsFilled};

use crate::axis::Axis;
use crate::packing::packed;
use crate::run::Run;
use crate::tiles::tile_any;
use crate::walk::Walk;

/// The sum for each of up to four rows and up to four columns.
pub fn products<const S: usize>(
    a: &[u64],
    b: &[u64],
    rows: &Run<4>,
    columns: &Run<4>,
    shared: &[Axis; S],
) -> [[u64; 4]; 4]
    requires some_rows { 1 ≤ rows.now.len }
    requires few_rows { rows.now.len ≤ 4 }
    requires some_columns { 1 ≤ columns.now.len }
    requires few_columns { columns.now.len ≤ 4 }
    requires filled_rows { IsFilled rows.now }
    requires filled_columns { IsFilled columns.now }
    requires in_a { (i : ℕ) → i < rows.now.len
        → Reaches offset_a shared.now (slice_index rows.now.a i) (length a.now) }
    requires in_b { (j : ℕ) → j < columns.now.len
        → Reaches offset_b shared.now (slice_index columns.now.b j) (length b.now) }
    ensures { (i j : ℕ) → i < rows.now.len → j < columns.now.len → entry result i j
        ≡ sum_from a.now b.now shared.now (slice_index rows.now.a i) (slice_index columns.now.b j) }
{
    let mut sums = [[0u64; 4]; 4];
    let mut walk = Walk::start(shared);
    while walk.left {
        let run = walk.run(shared);
        let part_a = packed(a, &rows.a, &run.a);
        let part_b = packed(b, &run.b, &columns.b);
        tile_any(
            rows.len as u32,
            columns.len as u32,
            run.len as u32,
            &part_a,
            &part_b,
            &mut sums,
        );
    }
    sums
}
