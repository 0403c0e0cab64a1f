//! Arrays that are created.

ghost use Rattle.std.specs.Prelude.{◌≡◌, ◌<◌, [], true, length, replicate, slice_index_or, slice_set};
ghost use Rattle.sip_setting.specs.Seen.{setting_of};
ghost use Rattle.sial_meaning.specs.Own.{Own, for_each, with_created};
ghost use Rattle.sial_meaning.specs.Setting.{array_kind, block_count, first_of_class, zeros};
ghost use Rattle.sial_meaning.specs.State.{Shared, with_run, with_zeros};
ghost use Rattle.shared_blocks.specs.Standing.{AreWhole, SharedStand};

use crate::blocks::SharedBlocks;
use crate::numbers::{block_count, first_block};
use block_math::fill;
use block_store::MemoryStore;
use exec_job::Job;
use sial_syntax::{ArrayKind, Class};

impl SharedBlocks {
    /// All blocks of a distributed array are zeros.
    pub fn create(&mut self, job: &Job, array: u16)
        requires kind { array_kind (setting_of job.now) array ≡ ArrayKind.Distributed }
        requires whole { AreWhole (setting_of job.now) ArrayKind.Distributed self.old.distributed }
        ensures value { self.new ≡ with_zeros (setting_of job.now) array Class.Distributed self.old }

        // They stand for each state that they stood for, with the array created.
        ensures stands { (own : Own) (shared : Shared) → SharedStand (setting_of job.now) self.old own shared
            → SharedStand (setting_of job.now) self.new (with_created array true own)
            (with_zeros (setting_of job.now) array Class.Distributed shared) }
    {
        self.zero_array(job, array);
    }

    // All blocks of a distributed array are zeros.
    fn zero_array(&mut self, job: &Job, array: u16)
        requires kind { array_kind (setting_of job.now) array ≡ ArrayKind.Distributed }
        requires whole { AreWhole (setting_of job.now) ArrayKind.Distributed self.old.distributed }
        ensures { self.new ≡ with_zeros (setting_of job.now) array Class.Distributed self.old }
    {
        zero_blocks(&mut self.distributed, job, array);
    }
}

// Zeros in all blocks of an array, one after another.
fn zero_blocks(blocks: &mut MemoryStore, job: &Job, array: u16)
    requires kind { array_kind (setting_of job.now) array ≡ ArrayKind.Distributed }
    requires whole { AreWhole (setting_of job.now) ArrayKind.Distributed blocks.old }
    ensures { blocks.new ≡ with_run (first_of_class (setting_of job.now) array)
        (for_each (block_count (setting_of job.now) array) (zeros (setting_of job.now) array)) blocks.old }
{
    let first = first_block(job, array);
    for number in 0..block_count(job, array) {
        zero_block(blocks, first + number);
    }
}

// A block's words are zeros.
fn zero_block(blocks: &mut MemoryStore, block: u32)
    requires { block < length blocks.old }
    ensures { blocks.new ≡ slice_set blocks.old block (replicate (length (slice_index_or blocks.old block [])) 0) }
{
    fill(blocks.words_mut(block), 0);
}
