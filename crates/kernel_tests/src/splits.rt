//! One case of each split, by digests of the target.

ghost use Rattle.std.specs.Prelude.{◌+◌, ◌≤◌};

use crate::digests::DIGESTS;
use crate::numbers::{HOWS, digest, numbers};
use kernel_contract::{Axis, contract_any, is_by_rows};
use kernel_permute::How;
use std::alloc::{AllocError, Global};
use std::process::Abort;
use std::test::Fail;

// In each split all axes have different lengths.
const LENGTHS_A: [u32; 6] = [2, 7, 9, 8, 5, 3];

const LENGTHS_B: [u32; 6] = [3, 5, 8, 9, 6, 2];

const LENGTHS_SHARED: [u32; 6] = [4, 6, 10, 8, 5, 3];

const NUMBERS: usize = 32_768;

fn with_lengths(lengths: &[u32; 6]) -> [Axis; 6] {
    lengths.map(|len| Axis {
        len,
        a: 0,
        b: 0,
        to: 0,
    })
}

// in the first source the axes are turned by one, the first free one fastest: from three axes on an
// order that is not its own inverse
fn lay_a(free: &mut [Axis], shared: &mut [Axis]) {
    let mut stride = 1u32;
    let (first, others) = free.split_at_mut(free.len().min(1));
    for axis in first.iter_mut() {
        axis.a = stride;
        stride = stride.wrapping_mul(axis.len);
    }
    for axis in shared.iter_mut().rev() {
        axis.a = stride;
        stride = stride.wrapping_mul(axis.len);
    }
    for axis in others.iter_mut().rev() {
        axis.a = stride;
        stride = stride.wrapping_mul(axis.len);
    }
}

// the second has the shared ones before, the last of all fastest
fn lay_b(shared: &mut [Axis], free: &mut [Axis]) {
    let mut stride = 1u32;
    for axis in free.iter_mut().rev() {
        axis.b = stride;
        stride = stride.wrapping_mul(axis.len);
    }
    for axis in shared.iter_mut().rev() {
        axis.b = stride;
        stride = stride.wrapping_mul(axis.len);
    }
}

// every second number of the target, the axes of both lists in turn, the last fastest
fn lay_to(free_a: &mut [Axis], free_b: &mut [Axis]) {
    let mut stride = 2u32;
    for k in (0..6).rev() {
        if let Some(axis) = free_b.get_mut(k) {
            axis.to = stride;
            stride = stride.wrapping_mul(axis.len);
        }
        if let Some(axis) = free_a.get_mut(k) {
            axis.to = stride;
            stride = stride.wrapping_mul(axis.len);
        }
    }
}

// the digest of the target after one contraction
fn split(
    rt: &impl Abort,
    alloc: Global,
    first: usize,
    second: usize,
    third: usize,
    how: How,
) -> Result<u64, AllocError>
    requires first { first + third ≤ 6 }
    requires second { second + third ≤ 6 }
    requires both { first + second ≤ 6 }
{
    let mut axes_a = with_lengths(&LENGTHS_A);
    let mut axes_b = with_lengths(&LENGTHS_B);
    let mut axes_shared = with_lengths(&LENGTHS_SHARED);
    let free_a = &mut axes_a[..first];
    let free_b = &mut axes_b[..second];
    let shared = &mut axes_shared[..third];
    lay_a(free_a, shared);
    lay_b(shared, free_b);
    lay_to(free_a, free_b);
    let a = numbers(alloc, NUMBERS, 0x9e37_79b9_7f4a_7c15, 1)?;
    let b = numbers(alloc, NUMBERS, 0xbf58_476d_1ce4_e5b9, 3)?;
    let mut to = numbers(alloc, NUMBERS, 0x94d0_49bb_1331_11eb, 5)?;
    assert!(rt; is_by_rows(a.len(), b.len(), to.len(), free_a, free_b, shared));
    contract_any(
        a.as_slice(),
        b.as_slice(),
        to.as_mut_slice(),
        free_a,
        free_b,
        shared,
        how,
    );
    Ok(digest(to.as_slice()))
}

#[test]
fn each_split(rt: HostRuntime) -> Result<(), Fail> {
    let mut count = 0usize;
    for third in 0..7usize {
        for first in 0..7 - third {
            for second in 0..7 - third {
                if first + second <= 6 {
                    let how = HOWS[count % 3];
                    let found = split(&rt, rt.alloc(), first, second, third, how)?;
                    assert_eq!(rt;
                        DIGESTS.get(count),
                        Some(&found),
                        "{first} {second} {third}"
                    );
                    count = count.wrapping_add(1);
                }
            }
        }
    }
    assert_eq!(rt; count, 106);
    Ok(())
}
