//! Element loops over long blocks.

use crate::blocks::numbers;
use crate::report::report;
use block_math::{add, dot, greatest};
use kernel_permute::gather;
use std::alloc::AllocError;
use std::io;
use std::time::Instant;

const CALLS: u32 = 10;

const LENGTH: usize = 65_536;

/// Times each loop over two blocks of one length.
pub fn time(rt: &HostRuntime) -> io::Result<()> {
    let from = numbers(rt, LENGTH, 1)?;
    let mut to = numbers(rt, LENGTH, 2)?;
    let start = Instant::now(rt)?;
    adds(&mut to, &from);
    report(rt, "add", "add", start, CALLS, &to)?;
    let start = Instant::now(rt)?;
    dots(&mut to, &from);
    report(rt, "dot", "dot", start, CALLS, &to)?;
    let start = Instant::now(rt)?;
    keeps_greatest(&mut to, &from);
    report(rt, "greatest", "greatest", start, CALLS, &to)?;
    let places = places(rt)?;
    let start = Instant::now(rt)?;
    gathers(&from, &places, &mut to);
    report(rt, "gather", "gather", start, CALLS, &to)
}

// The places of a long block in a scattered order.
fn places(rt: &HostRuntime) -> Result<Vec<u32>, AllocError> {
    let mut places = vec![in rt.alloc(); 0u32; LENGTH]?;
    let mut next = 1u16;
    for place in places.iter_mut() {
        next = next.wrapping_mul(25_173).wrapping_add(13_849);
        *place = next as u32;
    }
    Ok(places)
}

#[inline(never)]
fn adds(to: &mut [u64], from: &[u64]) {
    for _ in 0..CALLS {
        if to.len() == from.len() {
            add(to, from);
        }
    }
}

// Each product is written back, so that no two calls are the same.
#[inline(never)]
fn dots(to: &mut [u64], from: &[u64]) {
    for _ in 0..CALLS {
        if to.len() == from.len() {
            let product = dot(to, from);
            if let Some(first) = to.first_mut() {
                *first = product;
            }
        }
    }
}

#[inline(never)]
fn keeps_greatest(to: &mut [u64], from: &[u64]) {
    for _ in 0..CALLS {
        if to.len() == from.len() {
            greatest(to, from);
        }
    }
}

#[inline(never)]
fn gathers(from: &[u64], places: &[u32], to: &mut [u64]) {
    if !places.iter().all(|place| (*place as usize) < from.len()) {
        return;
    }
    for _ in 0..CALLS {
        if to.len() == places.len() {
            gather(from, places, to);
        }
    }
}
