//! Products of small matrices of fixed sizes.

ghost use Rattle.std.specs.Prelude.{◌≡◌, ◌+◌, ◌*◌, ◌%◌, ◌^◌, ◌<◌, ◌≤◌, ℕ, slice_index};
ghost use Rattle.kernel_contract.specs.Product.{Multiplied, SameBehind, entry, row_by};

use crate::fronts::{front, set_front};

/// Adds the product of `a` and `b` to `to`, modulo 2^64.
pub fn tile<const M: usize, const N: usize, const S: usize>(
    a: &[[u64; S]; M],
    b: &[[u64; N]; S],
    to: &mut [[u64; N]; M],
)
    ensures { Multiplied M N S a.now b.now to.old to.new }
{
    for i in 0..M {
        to[i] = tile_row(&a[i], b, &to[i]);
    }
}

// a row of the target with the product of one row
fn tile_row<const N: usize, const S: usize>(
    row: &[u64; S],
    b: &[[u64; N]; S],
    to: &[u64; N],
) -> [u64; N]
    ensures { (j : ℕ) → j < N → slice_index result j
        ≡ (slice_index to.now j + row_by row.now b.now S j) % 2 ^ 64 }
{
    let mut sums = [0u64; N];
    for k in 0..S {
        sums = with_scaled(&sums, row[k], &b[k]);
    }
    added(to, &sums)
}

fn added<const N: usize>(to: &[u64; N], sums: &[u64; N]) -> [u64; N]
    ensures { (j : ℕ) → j < N → slice_index result j
        ≡ (slice_index to.now j + slice_index sums.now j) % 2 ^ 64 }
{
    let mut more = *to;
    for j in 0..N {
        more[j] = to[j].wrapping_add(sums[j]);
    }
    more
}

// sums with a row that is scaled
fn with_scaled<const N: usize>(sums: &[u64; N], factor: u64, row: &[u64; N]) -> [u64; N]
    ensures { (j : ℕ) → j < N → slice_index result j
        ≡ (slice_index sums.now j + factor * slice_index row.now j % 2 ^ 64) % 2 ^ 64 }
{
    let mut more = *sums;
    for j in 0..N {
        more[j] = sums[j].wrapping_add(factor.wrapping_mul(row[j]));
    }
    more
}

/// Adds the product of the front `m` by `s` part of `a` and the front `s` by `n` part of `b` to the
/// front `m` by `n` part of `to`, modulo 2^64.
pub fn tile_any(
    m: u32,
    n: u32,
    s: u32,
    a: &[[u64; 4]; 4],
    b: &[[u64; 4]; 4],
    to: &mut [[u64; 4]; 4],
)
    requires some_rows { 1 ≤ m }
    requires few_rows { m ≤ 4 }
    requires some_columns { 1 ≤ n }
    requires few_columns { n ≤ 4 }
    requires some_shared { 1 ≤ s }
    requires few_shared { s ≤ 4 }
    ensures front { Multiplied m n s a.now b.now to.old to.new }
    ensures behind { SameBehind m n to.old to.new }
{
    macro_rules! cases {
        ($(($m:literal, $n:literal, $s:literal))*) => {
            match (m, n, s) {
                $(($m, $n, $s) => tile_front::<$m, $n, $s>(a, b, to),)*
                _ => unreachable!(),
            }
        };
    }
    cases!(
        (1, 1, 1)(1, 1, 2)(1, 1, 3)(1, 1, 4)(1, 2, 1)(1, 2, 2)(1, 2, 3)(1, 2, 4)(1, 3, 1)(1, 3, 2)(
            1, 3, 3
        )(1, 3, 4)(1, 4, 1)(1, 4, 2)(1, 4, 3)(1, 4, 4)(2, 1, 1)(2, 1, 2)(2, 1, 3)(2, 1, 4)(2, 2, 1)(
            2, 2, 2
        )(2, 2, 3)(2, 2, 4)(2, 3, 1)(2, 3, 2)(2, 3, 3)(2, 3, 4)(2, 4, 1)(2, 4, 2)(2, 4, 3)(2, 4, 4)(
            3, 1, 1
        )(3, 1, 2)(3, 1, 3)(3, 1, 4)(3, 2, 1)(3, 2, 2)(3, 2, 3)(3, 2, 4)(3, 3, 1)(3, 3, 2)(3, 3, 3)(
            3, 3, 4
        )(3, 4, 1)(3, 4, 2)(3, 4, 3)(3, 4, 4)(4, 1, 1)(4, 1, 2)(4, 1, 3)(4, 1, 4)(4, 2, 1)(4, 2, 2)(
            4, 2, 3
        )(4, 2, 4)(4, 3, 1)(4, 3, 2)(4, 3, 3)(4, 3, 4)(4, 4, 1)(4, 4, 2)(4, 4, 3)(4, 4, 4)
    )
}

// the product of front parts of these sizes
fn tile_front<const M: usize, const N: usize, const S: usize>(
    a: &[[u64; 4]; 4],
    b: &[[u64; 4]; 4],
    to: &mut [[u64; 4]; 4],
)
    requires rows { M ≤ 4 }
    requires columns { N ≤ 4 }
    requires shared { S ≤ 4 }
    ensures front { Multiplied M N S a.now b.now to.old to.new }
    ensures behind { SameBehind M N to.old to.new }
{
    let mut sums = front::<M, N>(to);
    tile(&front::<M, S>(a), &front::<S, N>(b), &mut sums);
    set_front(&sums, to);
}
