//! One tile of the target, met with its values.

ghost use Rattle.std.specs.Prelude.{◌≡◌, ◌+◌, ◌%◌, ◌^◌, ◌<◌, ◌≤◌, ℕ, length, slice_index, slice_set};
ghost use Rattle.kernel_permute.specs.How.{combined};
ghost use Rattle.kernel_contract.specs.Parts.{AreTargets, Replaced};
ghost use Rattle.kernel_contract.specs.Product.{entry};

use crate::run::Run;
use kernel_permute::How;

/// Each number of the tile meets its value.
pub fn store(to: &mut [u64], rows: &Run<4>, columns: &Run<4>, values: &[[u64; 4]; 4], how: How)
    requires few_rows { rows.now.len ≤ 4 }
    requires few_columns { columns.now.len ≤ 4 }
    requires targets { AreTargets
        (λ i j. (slice_index rows.now.to i + slice_index columns.now.to j) % 2 ^ 64)
        rows.now.len columns.now.len (length to.old) }
    ensures { Replaced how
        (λ i j. (slice_index rows.now.to i + slice_index columns.now.to j) % 2 ^ 64)
        (entry values.now) rows.now.len columns.now.len to.old to.new }
{
    // One loop for each way, so that the way is not looked at for each number.
    match how {
        How::Set => store_rows(to, rows, columns, values, How::Set),
        How::Add => store_rows(to, rows, columns, values, How::Add),
        How::Subtract => store_rows(to, rows, columns, values, How::Subtract),
    }
}

#[inline(always)]
fn store_rows(to: &mut [u64], rows: &Run<4>, columns: &Run<4>, values: &[[u64; 4]; 4], how: How)
    requires few_rows { rows.now.len ≤ 4 }
    requires few_columns { columns.now.len ≤ 4 }
    requires targets { AreTargets
        (λ i j. (slice_index rows.now.to i + slice_index columns.now.to j) % 2 ^ 64)
        rows.now.len columns.now.len (length to.old) }
    ensures { Replaced how
        (λ i j. (slice_index rows.now.to i + slice_index columns.now.to j) % 2 ^ 64)
        (entry values.now) rows.now.len columns.now.len to.old to.new }
{
    for i in 0..rows.len {
        store_row(to, rows.to[i], columns, &values[i], how);
    }
}

#[inline(always)]
fn store_row(to: &mut [u64], row: usize, columns: &Run<4>, values: &[u64; 4], how: How)
    requires few_columns { columns.now.len ≤ 4 }
    requires targets { AreTargets (λ i j. (row + slice_index columns.now.to j) % 2 ^ 64)
        1 columns.now.len (length to.old) }
    ensures { Replaced how (λ i j. (row + slice_index columns.now.to j) % 2 ^ 64)
        (λ i j. slice_index values.now j) 1 columns.now.len to.old to.new }
{
    for j in 0..columns.len {
        meet(to, row, columns.to[j], values[j], how);
    }
}

/// The number at a sum of two offsets meets a value.
pub fn meet(to: &mut [u64], row: usize, column: usize, value: u64, how: How)
    requires { (row + column) % 2 ^ 64 < length to.old }
    ensures { let at = (row + column) % 2 ^ 64 in
        to.new ≡ slice_set to.old at (combined how (slice_index to.old at) value) }
{
    let at = row.wrapping_add(column);
    to[at] = how.combine(to[at], value);
}
