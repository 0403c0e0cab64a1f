//! What the beginning of a pardo makes unset.

ghost use Rattle.std.specs.Prelude.{◌≡◌, ◌+◌, ◌^◌, ◌<◌, ◌≤◌, length};
ghost use Rattle.sip_setting.specs.Seen.{setting_of};
ghost use Rattle.sial_meaning.specs.Own.{Own, unset};
ghost use Rattle.sial_meaning.specs.Setting.{array_kind, block_count};
ghost use Rattle.block_pool.specs.Memory.{Memory};
ghost use Rattle.block_seats.specs.Leaving.{Leaves};
ghost use Rattle.block_seats.specs.Seated.{Seated, SeatsStand};
ghost use Rattle.exec_blocks.specs.Kept.{place_by};
ghost use Rattle.exec_blocks.specs.Clearing.{Clears, Forgets};
ghost use Rattle.exec_blocks.specs.Standing.{AreIn, BlocksStand};

use crate::blocks::Blocks;
use block_pool::Pool;
use block_seats::Seats;
use exec_job::Job;
use sial_syntax::{ArrayKind, Side};

// Takes the blocks at so many places from one on away.
fn clear_run(seats: &mut Seats, pool: &mut Pool, from: usize, count: usize)
    requires stands { SeatsStand pool.old seats.old }
    requires within { from + count ≤ length seats.old.slots }
    requires short { from + count < 2 ^ 64 }
    ensures { Clears pool.old pool.new seats.old seats.new from count }
{
    for turn in 0..count {
        seats.clear(pool, from + turn);
    }
}

impl Blocks {
    /// Takes away what a pardo's beginning makes unset: the blocks of temps, and of the local arrays that are used inside pardos.
    pub fn unset(&mut self, job: &Job, pool: &mut Pool)
        requires stands { AreIn (setting_of job.now) pool.old self.old }
        ensures stands { AreIn (setting_of job.now) pool.new self.new }
        ensures leaves { Leaves pool.old pool.new self.old.seats.slots self.new.seats.slots }
        ensures does { (own : Own) → BlocksStand (setting_of job.now) pool.old self.old own → BlocksStand (setting_of job.now) pool.new self.new (unset (setting_of job.now) own) }
    {
        let arrays = job.arrays_len();
        let _places = self.seats.len();
        self.unset_locals(job, pool, arrays);
        clear_run(&mut self.seats, pool, self.temps_at, arrays);
    }

    // The local arrays among the first so many.
    fn unset_locals(&mut self, job: &Job, pool: &mut Pool, arrays: usize)
        requires stands { AreIn (setting_of job.now) pool.old self.old }
        requires few { arrays ≤ length (setting_of job.now).program.arrays }
        requires short { arrays ≤ 256 }
        ensures forgets { Forgets (setting_of job.now) self.old pool.old pool.new self.old.seats self.new.seats arrays }
        ensures same { self.new ≡ record self.old { seats = self.new.seats } }
    {
        for array in 0..arrays {
            self.unset_local(job, pool, array as u16);
        }
    }

    // One array, if it is local and used inside pardos.
    fn unset_local(&mut self, job: &Job, pool: &mut Pool, array: u16)
        requires stands { AreIn (setting_of job.now) pool.old self.old }
        requires declared { array < length (setting_of job.now).program.arrays }
        ensures forgets { (p : Memory) (s : Seated) → Forgets (setting_of job.now) self.old p pool.old s self.old.seats array → Forgets (setting_of job.now) self.old p pool.new s self.new.seats (array + 1) }
        ensures stands { AreIn (setting_of job.now) pool.new self.new }
        ensures same { self.new ≡ record self.old { seats = self.new.seats } }
    {
        match job.array_kind(array) {
            ArrayKind::Local => match job.side(array) {
                Side::Outer => {}
                Side::Inner => self.clear_local(job, pool, array),
                Side::Unused => {}
            },
            _ => {}
        }
    }

    // All blocks of a local array.
    fn clear_local(&mut self, job: &Job, pool: &mut Pool, array: u16)
        requires stands { AreIn (setting_of job.now) pool.old self.old }
        requires declared { array < length (setting_of job.now).program.arrays }
        requires local { array_kind (setting_of job.now) array ≡ ArrayKind.Local }
        ensures clears { Clears pool.old pool.new self.old.seats self.new.seats (place_by (setting_of job.now) self.old array 0 ArrayKind.Local) (block_count (setting_of job.now) array) }
        ensures same { self.new ≡ record self.old { seats = self.new.seats } }
    {
        let spaces = job.spaces();
        let first = spaces.first_block(array) as usize;
        let count = spaces.blocks_of(array) as usize;
        let _places = self.seats.len();
        clear_run(&mut self.seats, pool, self.locals_at + first, count);
    }
}
