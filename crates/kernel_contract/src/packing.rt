//! Parts of a list of numbers, packed into small matrices.

ghost use Rattle.std.specs.Prelude.{◌≡◌, ◌+◌, ◌%◌, ◌^◌, ◌<◌, ℕ, length, slice_index};
ghost use Rattle.kernel_contract.specs.Product.{entry};

/// The numbers at each of four offsets plus each of four others, by rows.
pub fn packed(from: &[u64], rows: &[usize; 4], columns: &[usize; 4]) -> [[u64; 4]; 4]
    requires { (i j : ℕ) → i < 4 → j < 4
        → (slice_index rows.now i + slice_index columns.now j) % 2 ^ 64 < length from.now }
    ensures { (i j : ℕ) → i < 4 → j < 4 → entry result i j
        ≡ slice_index from.now ((slice_index rows.now i + slice_index columns.now j) % 2 ^ 64) }
{
    [
        packed_row(from, rows[0], columns),
        packed_row(from, rows[1], columns),
        packed_row(from, rows[2], columns),
        packed_row(from, rows[3], columns),
    ]
}

/// The numbers at an offset plus each of four others.
pub fn packed_row(from: &[u64], row: usize, columns: &[usize; 4]) -> [u64; 4]
    requires { (j : ℕ) → j < 4
        → (row + slice_index columns.now j) % 2 ^ 64 < length from.now }
    ensures { (j : ℕ) → j < 4 → slice_index result j
        ≡ slice_index from.now ((row + slice_index columns.now j) % 2 ^ 64) }
{
    [
        number_at(from, row, columns[0]),
        number_at(from, row, columns[1]),
        number_at(from, row, columns[2]),
        number_at(from, row, columns[3]),
    ]
}

/// The number at a sum of two offsets.
pub fn number_at(from: &[u64], row: usize, column: usize) -> u64
    requires { (row + column) % 2 ^ 64 < length from.now }
    ensures { result ≡ slice_index from.now ((row + column) % 2 ^ 64) }
{
    from[row.wrapping_add(column)]
}
