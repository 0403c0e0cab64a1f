//! Permutations of blocks of rank 4.

ghost use Rattle.std.specs.Prelude.{◌≡◌, length, take};
ghost use Rattle.kernel_permute.specs.Permuting.{IsOrder, picked};
ghost use Rattle.kernel_permute.specs.Positions.{product};

use crate::blocks::numbers;
use crate::report::report;
use kernel_permute::{How, permute, permute_any};
use std::io;
use std::time::Instant;

const CALLS: u32 = 100;

/// Times each permutation for a rank known when the program is built, and when it runs.
pub fn time(rt: &HostRuntime) -> io::Result<()> {
    time_rank(
        rt,
        "permutation_2031",
        &[7, 8, 9, 10],
        &[2, 0, 3, 1],
        How::Set,
    )?;
    time_any(
        rt,
        "permutation_2031",
        &[7, 8, 9, 10, 0, 0],
        &[2, 0, 3, 1, 0, 0],
        How::Set,
    )?;
    time_rank(
        rt,
        "permutation_3210",
        &[7, 8, 9, 10],
        &[3, 2, 1, 0],
        How::Set,
    )?;
    time_any(
        rt,
        "permutation_3210",
        &[7, 8, 9, 10, 0, 0],
        &[3, 2, 1, 0, 0, 0],
        How::Set,
    )?;
    time_rank(
        rt,
        "permutation_1023",
        &[7, 8, 9, 10],
        &[1, 0, 2, 3],
        How::Set,
    )?;
    time_any(
        rt,
        "permutation_1023",
        &[7, 8, 9, 10, 0, 0],
        &[1, 0, 2, 3, 0, 0],
        How::Set,
    )?;
    time_rank(rt, "added_2031", &[7, 8, 9, 10], &[2, 0, 3, 1], How::Add)?;
    time_any(
        rt,
        "added_2031",
        &[7, 8, 9, 10, 0, 0],
        &[2, 0, 3, 1, 0, 0],
        How::Add,
    )
}

fn time_rank(
    rt: &HostRuntime,
    case: &str,
    dims: &[u32; 4],
    order: &[u8; 4],
    how: How,
) -> io::Result<()>
    requires order { IsOrder order.now }
    requires numbers { product dims.now ≡ 5040 }
    requires same { product (picked order.now dims.now) ≡ 5040 }
{
    let from = numbers(rt, 5040, 1)?;
    let mut to = numbers(rt, 5040, 2)?;
    let start = Instant::now(rt)?;
    by_rank(&from, dims, order, &mut to, how);
    report(rt, case, "permute", start, CALLS, &to)
}

fn time_any(
    rt: &HostRuntime,
    case: &str,
    dims: &[u32; 6],
    order: &[u8; 6],
    how: How,
) -> io::Result<()>
    requires order { IsOrder (take 4 order.now) }
    requires numbers { product (take 4 dims.now) ≡ 5040 }
    requires same { product (picked (take 4 order.now) (take 4 dims.now)) ≡ 5040 }
{
    let from = numbers(rt, 5040, 1)?;
    let mut to = numbers(rt, 5040, 2)?;
    let start = Instant::now(rt)?;
    by_any(&from, dims, order, &mut to, how);
    report(rt, case, "permute_any", start, CALLS, &to)
}

#[inline(never)]
fn by_rank(from: &[u64], dims: &[u32; 4], order: &[u8; 4], to: &mut [u64], how: How)
    requires order { IsOrder order.now }
    requires from_length { length from.now ≡ product dims.now }
    requires same { length from.now ≡ product (picked order.now dims.now) }
{
    for _ in 0..CALLS {
        if to.len() == from.len() {
            permute(from, dims, order, to, how);
        }
    }
}

#[inline(never)]
fn by_any(from: &[u64], dims: &[u32; 6], order: &[u8; 6], to: &mut [u64], how: How)
    requires order { IsOrder (take 4 order.now) }
    requires from_length { length from.now ≡ product (take 4 dims.now) }
    requires same { length from.now ≡ product (picked (take 4 order.now) (take 4 dims.now)) }
{
    for _ in 0..CALLS {
        if to.len() == from.len() {
            permute_any(4, from, dims, order, to, how);
        }
    }
}
