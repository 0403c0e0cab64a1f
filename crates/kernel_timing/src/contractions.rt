//! Contractions of blocks, by how their axes lie.

ghost use Rattle.std.specs.Prelude.{◌+◌, ◌≤◌, length};

use crate::blocks::numbers;
use crate::report::report;
use kernel_contract::{Axis, contract_any, is_by_rows};
use kernel_permute::How;
use std::io;
use std::time::Instant;

/// Times each contraction: matrices of pairs of axes first, then the forms that share little, share all,
/// or lie the other way round.
pub fn time(rt: &HostRuntime) -> io::Result<()> {
    time_pairs(rt, "contraction_6", [6, 6, 6], 4)?;
    time_pairs(rt, "contraction_7", [7, 7, 7], 4)?;
    time_pairs(rt, "contraction_8", [8, 8, 8], 2)?;
    time_pairs(rt, "contraction_10", [10, 10, 10], 2)?;
    time_matrix(rt, "matrix_4", [4, 4, 4], 1000)?;
    time_matrix(rt, "matrix_20_400", [20, 20, 400], 2)?;
    time_outer(rt)?;
    time_scalar(rt)?;
    time_turned(rt)
}

// an axis of the first free list, of the second, and a shared one
fn left(len: u32, a: u32, to: u32) -> Axis {
    Axis { len, a, b: 0, to }
}

fn right(len: u32, b: u32, to: u32) -> Axis {
    Axis { len, a: 0, b, to }
}

fn shared(len: u32, a: u32, b: u32) -> Axis {
    Axis { len, a, b, to: 0 }
}

// how many numbers lie in a block, or in a part of its dimensions
fn size(dims: &[u32]) -> u32 {
    dims.iter()
        .fold(1, |size: u32, len| size.saturating_mul(*len))
}

// [i, j, k, l] with [k, l, m, n], where both axes of a pair have one length
fn time_pairs(rt: &HostRuntime, case: &str, lengths: [u32; 3], calls: u32) -> io::Result<()>
    requires some { 1 ≤ calls }
{
    let [i, m, k] = lengths;
    time_one(
        rt,
        case,
        calls,
        [
            size(&[i, i, k, k]),
            size(&[k, k, m, m]),
            size(&[i, i, m, m]),
        ],
        &[
            left(i, size(&[i, k, k]), size(&[i, m, m])),
            left(i, size(&[k, k]), size(&[m, m])),
        ],
        &[right(m, m, m), right(m, 1, 1)],
        &[shared(k, k, size(&[k, m, m])), shared(k, 1, size(&[m, m]))],
    )
}

// [i, k] with [k, m]
fn time_matrix(rt: &HostRuntime, case: &str, lengths: [u32; 3], calls: u32) -> io::Result<()>
    requires some { 1 ≤ calls }
{
    let [i, m, k] = lengths;
    time_one(
        rt,
        case,
        calls,
        [size(&[i, k]), size(&[k, m]), size(&[i, m])],
        &[left(i, k, m)],
        &[right(m, 1, 1)],
        &[shared(k, 1, m)],
    )
}

// [i, j, k] with [l, m, n], which share nothing
fn time_outer(rt: &HostRuntime) -> io::Result<()> {
    time_one(
        rt,
        "outer_7",
        2,
        [343, 343, 117_649],
        &[left(7, 49, 16_807), left(7, 7, 2401), left(7, 1, 343)],
        &[right(7, 49, 49), right(7, 7, 7), right(7, 1, 1)],
        &[],
    )
}

// two blocks of rank 6 that share all
fn time_scalar(rt: &HostRuntime) -> io::Result<()> {
    time_one(
        rt,
        "scalar_6",
        4,
        [46_656, 46_656, 1],
        &[],
        &[],
        &[
            shared(6, 7776, 7776),
            shared(6, 1296, 1296),
            shared(6, 216, 216),
            shared(6, 36, 36),
            shared(6, 6, 6),
            shared(6, 1, 1),
        ],
    )
}

// [k, l, i, j] with [m, n, k, l]: the shared axes are the slowest of one, and the fastest of the other
fn time_turned(rt: &HostRuntime) -> io::Result<()> {
    time_one(
        rt,
        "turned_8",
        2,
        [4096, 4096, 4096],
        &[left(8, 8, 512), left(8, 1, 64)],
        &[right(8, 512, 8), right(8, 64, 1)],
        &[shared(8, 512, 8), shared(8, 64, 1)],
    )
}

fn time_one(
    rt: &HostRuntime,
    case: &str,
    calls: u32,
    counts: [u32; 3],
    free_a: &[Axis],
    free_b: &[Axis],
    shared: &[Axis],
) -> io::Result<()>
    requires some { 1 ≤ calls }
    requires dimensions_a { length free_a.now + length shared.now ≤ 6 }
    requires dimensions_b { length free_b.now + length shared.now ≤ 6 }
    requires dimensions_to { length free_a.now + length free_b.now ≤ 6 }
{
    let a = numbers(rt, counts[0] as usize, 1)?;
    let b = numbers(rt, counts[1] as usize, 2)?;
    let mut to = numbers(rt, counts[2] as usize, 3)?;
    let start = Instant::now(rt)?;
    repeat(calls, &a, &b, &mut to, free_a, free_b, shared);
    report(rt, case, "contract_any", start, calls, &to)
}

#[inline(never)]
fn repeat(
    calls: u32,
    a: &[u64],
    b: &[u64],
    to: &mut [u64],
    free_a: &[Axis],
    free_b: &[Axis],
    shared: &[Axis],
)
    requires dimensions_a { length free_a.now + length shared.now ≤ 6 }
    requires dimensions_b { length free_b.now + length shared.now ≤ 6 }
    requires dimensions_to { length free_a.now + length free_b.now ≤ 6 }
{
    for _ in 0..calls {
        if is_by_rows(a.len(), b.len(), to.len(), free_a, free_b, shared) {
            contract_any(a, b, to, free_a, free_b, shared, How::Add);
        }
    }
}
