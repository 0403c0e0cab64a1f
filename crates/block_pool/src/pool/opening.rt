//! The openings of a pool.

ghost use Rattle.std.specs.Prelude.{◌≡◌, ◌<◌, ◌≤◌, ℕ, length, slice_index, IfOk};
ghost use Rattle.block_pool.specs.Memory.{class_count, free_in};
ghost use Rattle.block_pool.specs.Changes.{IsMemory, HasWidth};
ghost use Rattle.block_pool.specs.Opened.{opened, opened_classes, started, widest_of as highest_wide, IsWidest};

use crate::class::{CLASSES, LAST_CLASS};
use crate::out_of_memory::OutOfMemory;
use crate::pool::Pool;
use crate::rows::zero_rows;
use crate::runs::width_of;
use crate::slots::Slots;
use std::alloc::{AllocError, Global};

// Each class names its own slots.
const EACH_CLASS: [u32; CLASSES] = [0, 1, 2, 3, 4, 5, 6, 7, 8, 9, 10, 11, 12, 13, 14, 15, 16];

impl Pool {
    /// So many slots, all so wide: those of the last class, which every class names.
    pub fn open(alloc: Global, slots: u32, words: u32) -> Result<Pool, OutOfMemory>
        ensures start { IfOk result (λ p. p ≡ opened slots words) }

        // What the start means to a caller.
        ensures sound { IfOk result IsMemory }
        ensures free { IfOk result (λ p. (class : ℕ) → class < class_count → free_in p class ≡ slots) }
        ensures wide { IfOk result (λ p. (class : ℕ) → HasWidth p class words) }
    {
        let mut counts = [0; CLASSES];
        let mut widths = [0; CLASSES];
        counts[LAST_CLASS as usize] = slots;
        widths[LAST_CLASS as usize] = words;
        let pool = new_pool(
            alloc,
            counts.as_slice(),
            widths.as_slice(),
            &[LAST_CLASS; CLASSES],
            LAST_CLASS,
        )?;
        Ok(pool)
    }

    /// For each class so many slots, so wide.
    pub fn open_classes(
        alloc: Global,
        slots: &[u32; CLASSES],
        widths: &[u32; CLASSES],
    ) -> Result<Pool, OutOfMemory>
        ensures start { IfOk result (λ p. p ≡ opened_classes slots.now widths.now) }

        // What the start means to a caller.
        ensures sound { IfOk result IsMemory }
        ensures free { IfOk result (λ p. (class : ℕ) → class < class_count → free_in p class ≡ slice_index slots.now class) }
        ensures wide { IfOk result (λ p. (class : ℕ) → class < class_count → HasWidth p class (slice_index widths.now class)) }
        ensures widest { IfOk result (λ p. IsWidest widths.now p.widest) }
    {
        let widest = widest_of(widths.as_slice());
        let pool = new_pool(
            alloc,
            slots.as_slice(),
            widths.as_slice(),
            &EACH_CLASS,
            widest,
        )?;
        Ok(pool)
    }
}

// Slots of each class, all free and zeros.
fn new_pool(
    alloc: Global,
    counts: &[u32],
    widths: &[u32],
    groups: &[u32; CLASSES],
    widest: u32,
) -> Result<Pool, AllocError>
    requires { length counts.now ≤ class_count }
    ensures { IfOk result (λ p. p ≡ started counts.now widths.now groups.now widest) }
{
    let slots = Slots::open(alloc, counts)?;
    let rows = zero_rows(alloc, counts, widths)?;
    let most = width_of(widths, widest) as usize;
    let buffer = Some(vec![in alloc; 0u64; most]?);
    Ok(Pool {
        slots,
        rows,
        groups: *groups,
        buffer,
        widest,
        most,
    })
}

// The highest class that is wider than 0; one that no slot has where there is none.
fn widest_of(widths: &[u32]) -> u32
    requires { length widths.now ≤ class_count }
    ensures { result ≡ highest_wide widths.now }
{
    let mut widest = CLASSES as u32;
    for class in 0..widths.len() {
        if widths[class] != 0 {
            widest = class as u32;
        }
    }
    widest
}
