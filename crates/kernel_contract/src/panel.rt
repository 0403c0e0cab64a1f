//! Panels: the numbers of four rows, or of four columns, at each shared position of a part.

ghost use Rattle.std.specs.Prelude.{◌≡◌, ◌+◌, ◌*◌, ◌%◌, ◌^◌, ◌<◌, ◌≤◌, ℕ, length, slice_index};
ghost use Rattle.kernel_contract.specs.Panels.{IsPanel, ArePanels, Loads};
ghost use Rattle.kernel_contract.specs.Product.{entry};
ghost use Rattle.kernel_contract.specs.Sum.{sum_to};
ghost use Rattle.kernel_contract.specs.Walks.{IsFilled};

use crate::packing::packed_row;
use crate::run::Run;

/// The numbers of four rows, or of four columns, at each position of a part.
pub type Panel = [[u64; 4]; 64];

/// Packs the panel of four offsets at the positions of a part.
pub fn pack(
    from: &[u64],
    lanes: &[usize; 4],
    positions: &[usize; 64],
    len: usize,
    panel: &mut Panel,
)
    requires few { len ≤ 64 }
    requires within { Loads lanes.now positions.now 4 len (length from.now) }
    ensures { IsPanel from.now lanes.now positions.now len panel.new }
{
    for k in 0..len {
        panel[k] = packed_row(from, positions[k], lanes);
    }
}

/// Packs a panel for each four columns at the positions of a part.
pub fn pack_columns(from: &[u64], columns: &Run<64>, part: &Run<64>, panels: &mut [Panel; 16])
    requires some { 0 < columns.now.len }
    requires few { columns.now.len ≤ 64 }
    requires filled { IsFilled columns.now }
    requires few_positions { part.now.len ≤ 64 }
    requires within { Loads columns.now.b part.now.b columns.now.len part.now.len (length from.now) }
    ensures { ArePanels from.now columns.now.b part.now.b columns.now.len part.now.len panels.new }
{
    for q in 0..16usize {
        if 4 * q < columns.len {
            pack(
                from,
                &columns.four(4 * q).b,
                &part.b,
                part.len,
                &mut panels[q],
            );
        }
    }
}

/// The sum of the products of the first rows of one panel with the first columns of another, over all positions.
///
/// A tile of one row or of one column, as the last one often is, takes no more than its own products.
pub fn front_sums(a: &[[u64; 4]], b: &[[u64; 4]], rows: usize, columns: usize) -> [[u64; 4]; 4]
    requires { length a.now ≡ length b.now }
    ensures { (i j : ℕ) → i < 4 → j < 4 → i < rows → j < columns → entry result i j
        ≡ sum_to (length a.now) (λ k. entry a.now k i * entry b.now k j) % 2 ^ 64 }
{
    if columns == 1 {
        column_sums(a, b)
    } else if rows == 1 {
        row_sums(a, b)
    } else {
        panel_sums(a, b)
    }
}

// the same for the first column alone
fn column_sums(a: &[[u64; 4]], b: &[[u64; 4]]) -> [[u64; 4]; 4]
    requires { length a.now ≡ length b.now }
    ensures { (i : ℕ) → i < 4 → entry result i 0
        ≡ sum_to (length a.now) (λ k. entry a.now k i * entry b.now k 0) % 2 ^ 64 }
{
    let mut sums = [0u64; 4];
    for (position, rows) in a.iter().enumerate() {
        sums = with_column(&sums, rows, b[position][0]);
    }
    [
        [sums[0], 0, 0, 0],
        [sums[1], 0, 0, 0],
        [sums[2], 0, 0, 0],
        [sums[3], 0, 0, 0],
    ]
}

// the same for the first row alone
fn row_sums(a: &[[u64; 4]], b: &[[u64; 4]]) -> [[u64; 4]; 4]
    requires { length a.now ≡ length b.now }
    ensures { (j : ℕ) → j < 4 → entry result 0 j
        ≡ sum_to (length a.now) (λ k. entry a.now k 0 * entry b.now k j) % 2 ^ 64 }
{
    let mut sums = [0u64; 4];
    for (position, rows) in a.iter().enumerate() {
        sums = with_row(&sums, rows[0], &b[position]);
    }
    [sums, [0; 4], [0; 4], [0; 4]]
}

// the same for all four rows and columns
fn panel_sums(a: &[[u64; 4]], b: &[[u64; 4]]) -> [[u64; 4]; 4]
    requires { length a.now ≡ length b.now }
    ensures { (i j : ℕ) → i < 4 → j < 4 → entry result i j
        ≡ sum_to (length a.now) (λ k. entry a.now k i * entry b.now k j) % 2 ^ 64 }
{
    let mut sums = [[0u64; 4]; 4];
    for (position, rows) in a.iter().enumerate() {
        sums = with_products(&sums, rows, &b[position]);
    }
    sums
}

// sums with the products of all rows and all columns at one position
fn with_products(sums: &[[u64; 4]; 4], rows: &[u64; 4], columns: &[u64; 4]) -> [[u64; 4]; 4]
    ensures { (i j : ℕ) → i < 4 → j < 4 → entry result i j
        ≡ (entry sums.now i j + slice_index rows.now i * slice_index columns.now j % 2 ^ 64) % 2 ^ 64 }
{
    [
        with_row(&sums[0], rows[0], columns),
        with_row(&sums[1], rows[1], columns),
        with_row(&sums[2], rows[2], columns),
        with_row(&sums[3], rows[3], columns),
    ]
}

fn with_column(sums: &[u64; 4], rows: &[u64; 4], column: u64) -> [u64; 4]
    ensures { (i : ℕ) → i < 4 → slice_index result i
        ≡ (slice_index sums.now i + slice_index rows.now i * column % 2 ^ 64) % 2 ^ 64 }
{
    [
        sums[0].wrapping_add(rows[0].wrapping_mul(column)),
        sums[1].wrapping_add(rows[1].wrapping_mul(column)),
        sums[2].wrapping_add(rows[2].wrapping_mul(column)),
        sums[3].wrapping_add(rows[3].wrapping_mul(column)),
    ]
}

fn with_row(sums: &[u64; 4], row: u64, columns: &[u64; 4]) -> [u64; 4]
    ensures { (j : ℕ) → j < 4 → slice_index result j
        ≡ (slice_index sums.now j + row * slice_index columns.now j % 2 ^ 64) % 2 ^ 64 }
{
    [
        sums[0].wrapping_add(row.wrapping_mul(columns[0])),
        sums[1].wrapping_add(row.wrapping_mul(columns[1])),
        sums[2].wrapping_add(row.wrapping_mul(columns[2])),
        sums[3].wrapping_add(row.wrapping_mul(columns[3])),
    ]
}
