//! What a run needs at the most.

use crate::numbers::Numbers;

/// The memory and the steps of every run of a program under some options.
#[derive(Drop)]
pub struct Counts {
    /// The width of each of the 17 size classes.
    pub widths: Numbers,
    /// For each worker, how many slots of each size class its pool has.
    pub worker_slots: Vec<Numbers>,
    /// The words of the widest block, at least 1.
    pub words: u32,
    /// The words of all pools.
    pub pool_words: u64,
    /// The words of the store.
    pub store_words: u64,
    /// The entries of a run at the most.
    pub steps: u64,
}
