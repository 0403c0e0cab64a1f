//! Parts of rank 4, taken out of a block and put in.

ghost use Rattle.std.specs.Prelude.{◌≡◌, length, take};
ghost use Rattle.kernel_permute.specs.Positions.{product};
ghost use Rattle.kernel_permute.specs.Slicing.{IsPart};

use crate::blocks::numbers;
use crate::report::report;
use kernel_permute::{How, put_in, put_in_any, slice_out, slice_out_any};
use std::io;
use std::time::Instant;

const CALLS: u32 = 100;

/// Times slices and insertions, each for a rank known when the program is built, and when it runs.
pub fn time(rt: &HostRuntime) -> io::Result<()> {
    let block = numbers(rt, 10_000, 1)?;
    let part = numbers(rt, 3024, 2)?;
    time_slices(rt, "slice", &block, How::Set)?;
    time_slices(rt, "slice_added", &block, How::Add)?;
    time_insertions(rt, "insertion", &part, How::Set)?;
    time_insertions(rt, "insertion_added", &part, How::Add)
}

fn time_slices(rt: &HostRuntime, case: &str, block: &[u64], how: How) -> io::Result<()>
    requires { length block.now ≡ 10000 }
{
    let mut to = numbers(rt, 3024, 3)?;
    let start = Instant::now(rt)?;
    slices(
        block,
        &[10, 10, 10, 10],
        &[1, 2, 0, 1],
        &[6, 7, 8, 9],
        &mut to,
        3024,
        how,
    );
    report(rt, case, "slice_out", start, CALLS, &to)?;
    let mut to = numbers(rt, 3024, 3)?;
    let start = Instant::now(rt)?;
    slices_any(
        block,
        &[10, 10, 10, 10, 0, 0],
        &[1, 2, 0, 1, 0, 0],
        &[6, 7, 8, 9, 0, 0],
        &mut to,
        3024,
        how,
    );
    report(rt, case, "slice_out_any", start, CALLS, &to)
}

fn time_insertions(rt: &HostRuntime, case: &str, part: &[u64], how: How) -> io::Result<()>
    requires { length part.now ≡ 3024 }
{
    let mut to = numbers(rt, 10_000, 3)?;
    let start = Instant::now(rt)?;
    insertions(
        part,
        &[6, 7, 8, 9],
        &mut to,
        &[10, 10, 10, 10],
        &[1, 2, 0, 1],
        10_000,
        how,
    );
    report(rt, case, "put_in", start, CALLS, &to)?;
    let mut to = numbers(rt, 10_000, 3)?;
    let start = Instant::now(rt)?;
    insertions_any(
        part,
        &[6, 7, 8, 9, 0, 0],
        &mut to,
        &[10, 10, 10, 10, 0, 0],
        &[1, 2, 0, 1, 0, 0],
        10_000,
        how,
    );
    report(rt, case, "put_in_any", start, CALLS, &to)
}

#[inline(never)]
fn slices(
    from: &[u64],
    dims: &[u32; 4],
    at: &[u32; 4],
    size: &[u32; 4],
    to: &mut [u64],
    count: usize,
    how: How,
)
    requires part { IsPart at.now size.now dims.now }
    requires from_length { length from.now ≡ product dims.now }
    requires count { product size.now ≡ count }
{
    for _ in 0..CALLS {
        if to.len() == count {
            slice_out(from, dims, at, size, to, how);
        }
    }
}

#[inline(never)]
fn slices_any(
    from: &[u64],
    dims: &[u32; 6],
    at: &[u32; 6],
    size: &[u32; 6],
    to: &mut [u64],
    count: usize,
    how: How,
)
    requires part { IsPart (take 4 at.now) (take 4 size.now) (take 4 dims.now) }
    requires from_length { length from.now ≡ product (take 4 dims.now) }
    requires count { product (take 4 size.now) ≡ count }
{
    for _ in 0..CALLS {
        if to.len() == count {
            slice_out_any(4, from, dims, at, size, to, how);
        }
    }
}

#[inline(never)]
fn insertions(
    from: &[u64],
    size: &[u32; 4],
    to: &mut [u64],
    dims: &[u32; 4],
    at: &[u32; 4],
    count: usize,
    how: How,
)
    requires part { IsPart at.now size.now dims.now }
    requires from_length { length from.now ≡ product size.now }
    requires count { product dims.now ≡ count }
{
    for _ in 0..CALLS {
        if to.len() == count {
            put_in(from, size, to, dims, at, how);
        }
    }
}

#[inline(never)]
fn insertions_any(
    from: &[u64],
    size: &[u32; 6],
    to: &mut [u64],
    dims: &[u32; 6],
    at: &[u32; 6],
    count: usize,
    how: How,
)
    requires part { IsPart (take 4 at.now) (take 4 size.now) (take 4 dims.now) }
    requires from_length { length from.now ≡ product (take 4 size.now) }
    requires count { product (take 4 dims.now) ≡ count }
{
    for _ in 0..CALLS {
        if to.len() == count {
            put_in_any(4, from, size, to, dims, at, how);
        }
    }
}
