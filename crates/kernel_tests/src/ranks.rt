//! One case of each rank: the digest of the target, worked out from positions by a script of its own.

ghost use Rattle.std.specs.Prelude.{◌≡◌, ◌≤◌, IfOk, length, take};
ghost use Rattle.kernel_permute.specs.Permuting.{IsOrder, picked};
ghost use Rattle.kernel_permute.specs.Positions.{product};
ghost use Rattle.kernel_permute.specs.Slicing.{IsPart};

use crate::numbers::{digest, numbers};
use kernel_permute::{How, permute, permute_any, put_in, put_in_any, slice_out, slice_out_any};
use std::alloc::{AllocError, Global};
use std::process::Abort;
use std::test::Fail;

fn source(alloc: Global, count: usize) -> Result<Vec<u64>, AllocError>
    ensures { IfOk result (λ block. length block.items ≡ count) }
{
    numbers(alloc, count, 0x9e37_79b9_7f4a_7c15, 1)
}

fn target(alloc: Global, count: usize) -> Result<Vec<u64>, AllocError>
    ensures { IfOk result (λ block. length block.items ≡ count) }
{
    numbers(alloc, count, 0x94d0_49bb_1331_11eb, 5)
}

fn permutes<const R: usize>(
    rt: &impl Abort,
    alloc: Global,
    dims: &[u32; 6],
    order: &[u8; 6],
    count: usize,
    how: How,
    wanted: u64,
) -> Result<(), AllocError>
    requires some { 1 ≤ R }
    requires most { R ≤ 6 }
    requires order { IsOrder (take R order.now) }
    requires count { product (take R dims.now) ≡ count }
    requires same { product (picked (take R order.now) (take R dims.now)) ≡ count }
{
    let from = source(alloc, count)?;
    let mut to = target(alloc, count)?;
    permute::<R>(
        &from,
        dims.first_chunk().unwrap(),
        order.first_chunk().unwrap(),
        &mut to,
        how,
    );
    assert_eq!(rt; digest(&to), wanted, "permute at rank {}", R);
    let mut to = target(alloc, count)?;
    permute_any(R as u32, &from, dims, order, &mut to, how);
    assert_eq!(rt; digest(&to), wanted, "permute_any at rank {}", R);
    Ok(())
}

fn cuts<const R: usize>(
    rt: &impl Abort,
    alloc: Global,
    dims: &[u32; 6],
    at: &[u32; 6],
    size: &[u32; 6],
    block: usize,
    piece: usize,
    how: How,
    wanted: u64,
) -> Result<(), AllocError>
    requires some { 1 ≤ R }
    requires most { R ≤ 6 }
    requires part { IsPart (take R at.now) (take R size.now) (take R dims.now) }
    requires block { product (take R dims.now) ≡ block }
    requires piece { product (take R size.now) ≡ piece }
{
    let from = source(alloc, block)?;
    let mut to = target(alloc, piece)?;
    slice_out::<R>(
        &from,
        dims.first_chunk().unwrap(),
        at.first_chunk().unwrap(),
        size.first_chunk().unwrap(),
        &mut to,
        how,
    );
    assert_eq!(rt; digest(&to), wanted, "slice_out at rank {}", R);
    let mut to = target(alloc, piece)?;
    slice_out_any(R as u32, &from, dims, at, size, &mut to, how);
    assert_eq!(rt; digest(&to), wanted, "slice_out_any at rank {}", R);
    Ok(())
}

fn patches<const R: usize>(
    rt: &impl Abort,
    alloc: Global,
    dims: &[u32; 6],
    at: &[u32; 6],
    size: &[u32; 6],
    block: usize,
    piece: usize,
    how: How,
    wanted: u64,
) -> Result<(), AllocError>
    requires some { 1 ≤ R }
    requires most { R ≤ 6 }
    requires part { IsPart (take R at.now) (take R size.now) (take R dims.now) }
    requires block { product (take R dims.now) ≡ block }
    requires piece { product (take R size.now) ≡ piece }
{
    let from = source(alloc, piece)?;
    let mut to = target(alloc, block)?;
    put_in::<R>(
        &from,
        size.first_chunk().unwrap(),
        &mut to,
        dims.first_chunk().unwrap(),
        at.first_chunk().unwrap(),
        how,
    );
    assert_eq!(rt; digest(&to), wanted, "put_in at rank {}", R);
    let mut to = target(alloc, block)?;
    put_in_any(R as u32, &from, size, &mut to, dims, at, how);
    assert_eq!(rt; digest(&to), wanted, "put_in_any at rank {}", R);
    Ok(())
}

// All lengths of a block differ, and so do all lengths of its part.
const DIMS: [u32; 6] = [5, 4, 8, 3, 7, 6];

const AT: [u32; 6] = [2, 0, 3, 1, 5, 0];

const SIZE: [u32; 6] = [3, 4, 5, 2, 1, 6];

macro_rules! permuted {
    ($rt:ident; $($rank:literal: $order:expr, $count:literal, $how:ident, $wanted:literal;)*) => {
        $(permutes::<$rank>(&$rt, $rt.alloc(), &DIMS, &$order, $count, How::$how, $wanted)?;)*
    };
}

// Orders that from three dimensions on are not their own inverse.
#[test]
fn each_rank_is_permuted(rt: HostRuntime) -> Result<(), Fail> {
    permuted!(rt;
        1: [0, 0, 0, 0, 0, 0], 5, Set, 14145409057333837015;
        2: [1, 0, 0, 0, 0, 0], 20, Add, 17189187803510436280;
        3: [1, 2, 0, 0, 0, 0], 160, Subtract, 2677856710178683424;
        4: [2, 0, 3, 1, 0, 0], 480, Set, 10130119255543814288;
        5: [4, 0, 3, 1, 2, 0], 3360, Add, 11563926574776794304;
        6: [2, 0, 5, 1, 3, 4], 20160, Subtract, 9360770798969607296;
    );
    Ok(())
}

macro_rules! parts {
    ($check:ident, $rt:ident; $($rank:literal: $block:literal, $piece:literal, $how:ident, $wanted:literal;)*) => {
        $($check::<$rank>(&$rt, $rt.alloc(), &DIMS, &AT, &SIZE, $block, $piece, How::$how, $wanted)?;)*
    };
}

#[test]
fn each_rank_is_cut(rt: HostRuntime) -> Result<(), Fail> {
    parts!(cuts, rt;
        1: 5, 3, Set, 11902690648071671224;
        2: 20, 12, Add, 497408671168434168;
        3: 160, 60, Subtract, 8307060124730856154;
        4: 480, 120, Set, 17429680138143991684;
        5: 3360, 120, Add, 8433091885694395944;
        6: 20160, 720, Subtract, 11985761577475511856;
    );
    Ok(())
}

#[test]
fn each_rank_is_patched(rt: HostRuntime) -> Result<(), Fail> {
    parts!(patches, rt;
        1: 5, 3, Set, 453669546176987383;
        2: 20, 12, Add, 4967003434290419172;
        3: 160, 60, Subtract, 11836613596406631058;
        4: 480, 120, Set, 16279901819176555232;
        5: 3360, 120, Add, 5797011234576221644;
        6: 20160, 720, Subtract, 12235696680386556280;
    );
    Ok(())
}
