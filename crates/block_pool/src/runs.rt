//! Runs of slots: how wide each slot is, and where its words stand.
#![tactic(auto)]

ghost use Rattle.block_pool.specs.Memory.{class_count};
ghost use Rattle.std.specs.Prelude.{◌≡◌, ◌+◌, ◌^◌, ◌<◌, ◌≤◌, length, map, take, slice_index, IfOk, IfSome};
ghost use Rattle.block_pool.specs.Opened.{classes_from};
ghost use Rattle.block_pool.specs.Cut.{total};
ghost use Rattle.block_pool.specs.Runs.{widths_of};

use std::alloc::{AllocError, Global};
use std::ops::Range;

/// Slots that stand one after another and are equally wide.
#[derive(Clone, Copy)]
pub(crate) struct Run {
    count: usize,
    width: usize,
}

// A run for each class.
pub(crate) fn runs_of(alloc: Global, counts: &[u32], widths: &[u32]) -> Result<Vec<Run>, AllocError>
    requires { length counts.now ≤ class_count }
    ensures { IfOk result (λ runs. widths_of runs.items ≡ map (slice_index widths.now) (classes_from 0 counts.now)) }
{
    let mut runs = Vec::with_capacity(alloc, counts.len())?;
    for class in 0..counts.len() {
        let count = counts[class] as usize;
        let width = width_of(widths, class as u32) as usize;
        runs.push(Run { count, width })?;
    }
    Ok(runs)
}

// The width of a class; 0 where there is no such class.
pub(crate) fn width_of(widths: &[u32], class: u32) -> u32
    ensures { result ≡ slice_index widths.now class }
{
    widths.get(class as usize).copied().unwrap_or(0)
}

// How many words all slots have, where that is an address.
pub(crate) fn count_words(runs: &[Run]) -> Option<usize>
    ensures { IfSome result (λ count. count ≡ total (widths_of runs.now)) }
{
    let mut count = 0usize;
    for run in runs {
        count = run.count.checked_mul(run.width)?.checked_add(count)?;
    }
    Some(count)
}

// Where the words of a slot stand.
pub(crate) fn place_of(runs: &[Run], slot: usize) -> Range<usize>
    requires within { slot < length (widths_of runs.now) }
    requires fits { total (widths_of runs.now) < 2 ^ 63 }
    ensures start { result.start ≡ total (take slot (widths_of runs.now)) }
    ensures end { result.end ≡ total (take slot (widths_of runs.now)) + slice_index (widths_of runs.now) slot }
{
    let mut left = slot;
    let mut start = 0;
    for run in runs {
        if left < run.count {
            let start = start + left * run.width;
            return start..start + run.width;
        }
        left -= run.count;
        start += run.count * run.width;
    }
    start..start
}
