//! The blocks as a program begins.

ghost use Rattle.std.specs.Prelude.{◌≡◌, ◌++◌, ◌<◌, false, IfOk, OnOk};
ghost use Rattle.sip_setting.specs.Seen.{setting_of};
ghost use Rattle.sial_syntax.specs.Spaces.{same_kind};
ghost use Rattle.sial_meaning.specs.Own.{for_each, start_own};
ghost use Rattle.sial_meaning.specs.Setting.{array_kind, block_count, block_words};
ghost use Rattle.sial_meaning.specs.State.{start_state};
ghost use Rattle.block_store.specs.Memory as memory;
ghost use Rattle.shared_blocks.specs.Lengths.{lengths_if, lengths_of};
ghost use Rattle.shared_blocks.specs.Standing.{SharedStand};

use crate::blocks::SharedBlocks;
use crate::lengths::block_len;
use crate::numbers::block_count;
use crate::starting::put_given;
use block_store::MemoryStore;
use exec_job::Job;
use sial_syntax::ArrayKind;
use sip_files::OutOfMemory;
use std::alloc::{AllocError, Global};

impl SharedBlocks {
    /// Takes all blocks: those of served arrays begin as the input gives them, else as zeros.
    pub fn open(alloc: Global, job: &Job) -> Result<SharedBlocks, OutOfMemory>
        ensures { IfOk result (λ b. SharedStand (setting_of job.now) b (start_own (setting_of job.now))
            (start_state (setting_of job.now)).shared) }
    {
        let distributed = zeros(alloc, job, ArrayKind::Distributed)?;
        let mut served = zeros(alloc, job, ArrayKind::Served)?;
        put_given(&mut served, job);
        Ok(SharedBlocks {
            distributed,
            served,
        })
    }
}

// Zeros for each block of the arrays of a kind.
fn zeros(alloc: Global, job: &Job, kind: ArrayKind) -> Result<MemoryStore, OutOfMemory>
    requires { same_kind kind ArrayKind.Temp ≡ false }
    ensures { IfOk result (λ store. store ≡ memory.zeros (lengths_of (setting_of job.now) kind)) }
{
    let lengths = lengths_of(alloc, job, kind)?;
    MemoryStore::open(alloc, lengths.as_slice())
}

// The length of each block of the arrays of a kind.
fn lengths_of(alloc: Global, job: &Job, kind: ArrayKind) -> Result<Vec<u32>, AllocError>
    requires { same_kind kind ArrayKind.Temp ≡ false }
    ensures { IfOk result (λ lengths. lengths.items ≡ lengths_of (setting_of job.now) kind) }
{
    let mut lengths = Vec::new(alloc);
    for array in 0..job.arrays_len() {
        push_if(&mut lengths, job, array as u16, kind)?;
    }
    Ok(lengths)
}

// The lengths of an array's blocks, if it is of the kind.
fn push_if(lengths: &mut Vec<u32>, job: &Job, array: u16, kind: ArrayKind) -> Result<(), AllocError>
    requires { same_kind kind ArrayKind.Temp ≡ false }
    ensures { OnOk result (lengths.new.items ≡ lengths.old.items ++ lengths_if (setting_of job.now) kind array) }
{
    if job.array_kind(array) == kind {
        push_lengths(lengths, job, array)
    } else {
        Ok(())
    }
}

// The lengths of an array's blocks.
fn push_lengths(lengths: &mut Vec<u32>, job: &Job, array: u16) -> Result<(), AllocError>
    requires { same_kind (array_kind (setting_of job.now) array) ArrayKind.Temp ≡ false }
    ensures { OnOk result (lengths.new.items
        ≡ lengths.old.items ++ for_each (block_count (setting_of job.now) array) (block_words (setting_of job.now) array)) }
{
    for number in 0..block_count(job, array) {
        lengths.push(block_len(job, array, number))?;
    }
    Ok(())
}
