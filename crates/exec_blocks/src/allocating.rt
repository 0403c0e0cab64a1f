//! Blocks of local arrays allocated.

ghost use Rattle.std.specs.Prelude.{◌≡◌, ◌+◌, ◌<◌, ◌^◌, ℕ, List, OnErr, length, map};
ghost use Rattle.sip_setting.specs.Seen.{setting_of};
ghost use Rattle.index_spaces.specs.Placed.{bare};
ghost use Rattle.sial_meaning.specs.LocalStep.{all_allocated, allocated, matched};
ghost use Rattle.sial_meaning.specs.Own.{Own};
ghost use Rattle.sial_meaning.specs.Setting.{array_kind, block_count};
ghost use Rattle.block_seats.specs.Counted.{HasRunRoom};
ghost use Rattle.block_seats.specs.Leaving.{Leaves};
ghost use Rattle.block_seats.specs.Seated.{SeatsStand};
ghost use Rattle.exec_names.specs.Matching.{MatchBlocks};
ghost use Rattle.exec_blocks.specs.Allocating.{Answers, HasLocalRoom};
ghost use Rattle.exec_blocks.specs.Beginning.{IsWideFor};
ghost use Rattle.exec_blocks.specs.Kept.{Kept, place_by};
ghost use Rattle.exec_blocks.specs.Standing.{AreIn, BlocksStand, IsLaidOut};

use crate::beginning::zero_block;
use crate::blocks::Blocks;
use crate::locals::any_is;
use block_pool::Pool;
use block_seats::Seats;
use exec_job::Job;
use exec_names::{matched_count, matched_number};
use sial_meaning::TrapKind;
use sial_syntax::{ArrayKind, Slot};

impl Blocks {
    /// Allocates the blocks of a local array that slots match, as zeros; a trap where one of them is allocated already.
    pub fn allocate(
        &mut self,
        job: &Job,
        pool: &mut Pool,
        values: &[u32],
        array: u16,
        slots: &[Slot],
    ) -> Result<(), TrapKind>
        requires stands { AreIn (setting_of job.now) pool.old self.old }
        requires local { array_kind (setting_of job.now) array ≡ ArrayKind.Local }
        requires fits { MatchBlocks (record { spaces = (setting_of job.now).spaces; arrays = map bare (setting_of job.now).program.arrays }) values.now array slots.now }
        requires wide { IsWideFor (setting_of job.now) pool.old ArrayKind.Local }

        // A slot for each block of the array that isn't allocated.
        requires room { HasLocalRoom (setting_of job.now) pool.old self.old array }
        ensures stands { AreIn (setting_of job.now) pool.new self.new }
        ensures leaves { Leaves pool.old pool.new self.old.seats.slots self.new.seats.slots }
        ensures does { (own : Own) (partials : List ℕ) → own.values ≡ values.now → BlocksStand (setting_of job.now) pool.old self.old own
            → Answers (allocated (setting_of job.now) array (matched (setting_of job.now) own array slots.now) own partials) (BlocksStand (setting_of job.now) pool.new self.new) result }
        ensures trapped { OnErr result ((pool.new ≡ pool.old) × (self.new ≡ self.old)) }
    {
        let first = self.first_local(job, array);
        if any_is(&self.seats, job, values, array, slots, first, true) {
            Err(TrapKind::LocalTwice)
        } else {
            zero_matched(&mut self.seats, job, pool, values, array, slots, first);
            Ok(())
        }
    }
}

// Zeros for each of the blocks that slots match.
fn zero_matched(
    seats: &mut Seats,
    job: &Job,
    pool: &mut Pool,
    values: &[u32],
    array: u16,
    slots: &[Slot],
    first: usize,
)
    requires local { array_kind (setting_of job.now) array ≡ ArrayKind.Local }
    requires fits { MatchBlocks (record { spaces = (setting_of job.now).spaces; arrays = map bare (setting_of job.now).program.arrays }) values.now array slots.now }
    requires room { HasRunRoom pool.old seats.old first (block_count (setting_of job.now) array) }
    requires wide { IsWideFor (setting_of job.now) pool.old ArrayKind.Local }
    requires short { first + block_count (setting_of job.now) array < 2 ^ 63 }
    ensures stands { SeatsStand pool.new seats.new }
    ensures places { length seats.new.slots ≡ length seats.old.slots }
    ensures leaves { Leaves pool.old pool.new seats.old.slots seats.new.slots }
    ensures does { (b : Kept) (own : Own) → b.seats ≡ seats.old → IsLaidOut (setting_of job.now) b → first ≡ place_by (setting_of job.now) b array 0 ArrayKind.Local
        → own.values ≡ values.now → BlocksStand (setting_of job.now) pool.old b own
        → BlocksStand (setting_of job.now) pool.new (record b { seats = seats.new }) (all_allocated (setting_of job.now) array (matched (setting_of job.now) own array slots.now) own) }
{
    let spaces = job.spaces();
    for turn in 0..matched_count(spaces, values, array, slots) {
        let number = matched_number(spaces, values, array, slots, turn);
        zero_block(seats, job, pool, array, number, first + number as usize);
    }
}
