//! A worker's own blocks as its program begins.

ghost use Rattle.std.specs.Prelude.{◌≡◌, ◌*◌, ◌^◌, ◌<◌, ◌≤◌, ℕ, [], false, length, slice_index_or, IfOk, OnErr};
ghost use Rattle.sip_setting.specs.Seen.{setting_of};
ghost use Rattle.sial_syntax.specs.Spaces.{blocks_together, same_kind};
ghost use Rattle.sial_meaning.specs.Own.{start_own};
ghost use Rattle.sial_meaning.specs.Setting.{array_of, dims_of};
ghost use Rattle.block_pool.specs.Changes.{IsMemory};
ghost use Rattle.block_pool.specs.Memory.{free_in, last_class};
ghost use Rattle.block_seats.specs.Leaving.{Leaves};
ghost use Rattle.block_seats.specs.Seated.{empty};
ghost use Rattle.exec_blocks.specs.Beginning.{IsWideFor, static_blocks};
ghost use Rattle.exec_blocks.specs.Standing.{AreIn, BlocksStand, IsLaidOut};
ghost use Rattle.exec_blocks.specs.Counting.{count_if};
ghost use Rattle.exec_blocks.specs.Tuples.{tuples_of};

use crate::beginning::put_statics;
use crate::blocks::Blocks;
use block_pool::Pool;
use block_seats::Seats;
use exec_job::Job;
use exec_names::Member;
use sial_syntax::ArrayKind;
use sip_files::OutOfMemory;
use std::alloc::{AllocError, Global};

impl Blocks {
    /// The blocks that a worker has as its program begins: static ones as the input gives them, else zeros, and no others.
    pub fn open(alloc: Global, job: &Job, pool: &mut Pool) -> Result<Blocks, OutOfMemory>
        requires sound { IsMemory pool.old }
        requires wide { IsWideFor (setting_of job.now) pool.old ArrayKind.Static }

        // A slot for each block of a static array.
        requires room { static_blocks (setting_of job.now) ≤ free_in pool.old last_class }
        ensures stands { IfOk result (λ b. AreIn (setting_of job.now) pool.new b) }
        ensures begins { IfOk result (λ b. BlocksStand (setting_of job.now) pool.new b (start_own (setting_of job.now))) }
        ensures leaves { IfOk result (λ b. Leaves pool.old pool.new [] b.seats.slots) }
        ensures failed { OnErr result (pool.new ≡ pool.old) }
    {
        let mut blocks = Blocks::places(alloc, job)?;
        put_statics(&mut blocks.seats, job, pool);
        Ok(blocks)
    }

    // Places for the blocks of a program, with no block at any.
    fn places(alloc: Global, job: &Job) -> Result<Blocks, AllocError>
        ensures laid { IfOk result (IsLaidOut (setting_of job.now)) }
        ensures none { IfOk result (λ b. b.seats ≡ empty (length b.seats.slots)) }
    {
        let tuples = no_tuples(alloc, job)?;
        let locals_at = together(job, ArrayKind::Static);
        let temps_at = locals_at + together(job, ArrayKind::Local);
        let seats = Seats::open(alloc, temps_at + job.arrays_len())?;
        Ok(Blocks {
            seats,
            tuples,
            locals_at,
            temps_at,
        })
    }
}

// A tuple for each array, as long as the array has dimensions.
fn no_tuples(alloc: Global, job: &Job) -> Result<Vec<Vec<Member>>, AllocError>
    ensures len { IfOk result (λ tuples. length tuples.items ≡ length (setting_of job.now).program.arrays) }
    ensures ranks { IfOk result (λ tuples. (array : ℕ) → array < length (setting_of job.now).program.arrays → length (slice_index_or (tuples_of tuples.items) array []) ≡ length (dims_of (setting_of job.now) array)) }
{
    let arrays = job.arrays_len();
    let mut tuples = Vec::with_capacity(alloc, arrays)?;
    for array in 0..arrays {
        let rank = job.dims(array as u16).len();
        tuples.push(vec![in alloc; Member {
            segment: 0,
            piece: 0
        }; rank]?)?;
    }
    Ok(tuples)
}

// How many blocks the arrays of a kind have together.
fn together(job: &Job, kind: ArrayKind) -> usize
    requires { same_kind kind ArrayKind.Temp ≡ false }
    ensures value { result ≡ blocks_together (setting_of job.now).spaces kind (setting_of job.now).program.arrays }
    ensures few { result ≤ 2 ^ 40 }
{
    let mut total = 0;
    for array in 0..job.arrays_len() {
        total += blocks_if(job, array as u16, kind) as usize;
    }
    total
}

// How many blocks an array of this kind has; one of another kind counts none.
fn blocks_if(job: &Job, array: u16, kind: ArrayKind) -> u32
    requires declared { array < length (setting_of job.now).program.arrays }
    requires counted { same_kind kind ArrayKind.Temp ≡ false }
    ensures { result ≡ count_if (setting_of job.now).spaces kind (array_of (setting_of job.now) array) }
{
    if job.array_kind(array) == kind {
        job.spaces().blocks_of(array)
    } else {
        0
    }
}
