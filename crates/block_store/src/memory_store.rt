//! A store in memory.

ghost use Rattle.std.specs.Prelude.{◌≡◌, ◌<◌, ℕ, List, [], Some, length, slice_index, slice_index_or, slice_set, IfOk};
ghost use Rattle.std.specs.Borrow.{sem};
ghost use Rattle.block_store.specs.Memory.{blocks_of, sizes_of, zeros, begin_of};
ghost use Rattle.block_store.specs.Lent.{written_back};
ghost use Rattle.sip_files.specs.Kept.{stands_alone};

use crate::store::Store;
use sip_files::{Failed, OutOfMemory};
use std::alloc::Global;
use std::marker::Model;
use std::ops::Range;

/// A store in memory. It tells its content, and never fails.
#[derive(Drop)]
pub struct MemoryStore {
    // The numbers of all blocks, one block after another.
    words: Vec<u64>,
    // Where each block ends.
    ends: Vec<usize>,
}

impl Model for MemoryStore {
    ghost use Rattle.std.specs.Prelude.{ℕ, List, length};
    ghost use Rattle.block_store.specs.Memory.{blocks_from, InOrder};

    ghost Value = { List (List ℕ) };

    ghost view = { λ s. blocks_from 0 s.ends.items s.words.items };

    ghost invariant = { λ s. InOrder 0 s.ends.items (length s.words.items) };
}

impl MemoryStore {
    ghost use Rattle.block_store.specs.LendsBlock.{lends_block};

    /// Takes a block of zeros for each size.
    pub fn open(alloc: Global, sizes: &[u32]) -> Result<MemoryStore, OutOfMemory>
        ensures { IfOk result (λ store. store ≡ zeros sizes.now) }
    {
        let mut ends = Vec::with_capacity(alloc, sizes.len())?;
        let mut end = 0usize;
        for size in sizes {
            // No memory has room for more numbers than a `usize` counts.
            end = end.checked_add(*size as usize).ok_or(OutOfMemory)?;
            ends.push(end)?;
        }
        let words = vec![in alloc; 0u64; end]?;
        Ok(MemoryStore { words, ends })
    }

    /// The words of a block.
    pub fn words(&self, block: u32) -> &[u64]
        requires { block < length self.now }
        ensures { result.now ≡ slice_index_or self.now block [] }
    {
        &self.words[place_of(&self.ends, block as usize)]
    }

    /// The words of a block, to be written.
    pub fn words_mut(&mut self, block: u32) -> &mut [u64]
        requires { block < length self.old }
        ensures* writes_back { sem 𝓛 (lends_block self.entry block result) }
        ensures value { result.now ≡ slice_index_or self.old block [] }

        // As many words as the block has are its new ones, and no other block changes.
        ensures same { (ws : List ℕ) → length ws ≡ length result.now → written_back self.old block ws ≡ slice_set self.old block ws }
    {
        let place = place_of(&self.ends, block as usize);
        self.words.slice_mut(place)
    }
}

impl Store for MemoryStore {
    ghost sizes = { sizes_of };

    ghost told = { λ blocks. Some (blocks_of blocks) };

    ghost faults = { λ _. 0 };

    ghost kept = { λ _. stands_alone };

    fn read(&mut self, block: u32, into: &mut [u64]) -> Result<(), Failed> {
        let place = place_of(&self.ends, block as usize);
        into.copy_from_slice(&self.words[place]);
        Ok(())
    }

    fn write(&mut self, block: u32, from: &[u64]) -> Result<(), Failed> {
        let place = place_of(&self.ends, block as usize);
        self.words[place].copy_from_slice(from);
        Ok(())
    }
}

// Where a block stands.
fn place_of(ends: &[usize], block: usize) -> Range<usize>
    requires { block < length ends.now }
    ensures start { result.start ≡ begin_of ends.now block }
    ensures end { result.end ≡ slice_index ends.now block }
{
    let start = if block == 0 { 0 } else { ends[block - 1] };
    start..ends[block]
}
