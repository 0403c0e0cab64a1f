//! Whether blocks of local arrays that slots match are allocated, and where they stand.

ghost use Rattle.std.specs.Prelude.{◌≡◌, ◌+◌, ◌<◌, ◌≤◌, ◌^◌, ℕ, length, map};
ghost use Rattle.std.specs.List.{list_any};
ghost use Rattle.sip_setting.specs.Seen.{setting_of};
ghost use Rattle.index_spaces.specs.Placed.{bare};
ghost use Rattle.sial_meaning.specs.LocalStep.{is_allocated, matched};
ghost use Rattle.sial_meaning.specs.Own.{Own};
ghost use Rattle.sial_meaning.specs.Setting.{array_kind, block_count};
ghost use Rattle.block_pool.specs.Memory.{Memory};
ghost use Rattle.exec_names.specs.Matching.{MatchBlocks};
ghost use Rattle.exec_blocks.specs.Allocating.{is_as};
ghost use Rattle.exec_blocks.specs.Kept.{Kept, place_by};
ghost use Rattle.exec_blocks.specs.Standing.{BlocksStand, IsLaidOut};

use crate::blocks::Blocks;
use block_seats::Seats;
use exec_job::Job;
use exec_names::{matched_count, matched_number};
use sial_syntax::{ArrayKind, Slot};

impl Blocks {
    // Where the blocks of a local array begin.
    pub(crate) fn first_local(&self, job: &Job, array: u16) -> usize
        requires laid { IsLaidOut (setting_of job.now) self.now }
        requires local { array_kind (setting_of job.now) array ≡ ArrayKind.Local }
        ensures first { result ≡ place_by (setting_of job.now) self.now array 0 ArrayKind.Local }
        ensures within { result + block_count (setting_of job.now) array ≤ length self.now.seats.slots }
        ensures short { result + block_count (setting_of job.now) array < 2 ^ 63 }
    {
        let _places = self.seats.len();
        let spaces = job.spaces();
        self.locals_at + spaces.first_block(array) as usize
    }
}

/// Whether one of the blocks that slots match is allocated, or whether one isn't.
pub fn any_is(
    seats: &Seats,
    job: &Job,
    values: &[u32],
    array: u16,
    slots: &[Slot],
    first: usize,
    allocated: bool,
) -> bool
    requires local { array_kind (setting_of job.now) array ≡ ArrayKind.Local }
    requires fits { MatchBlocks (record { spaces = (setting_of job.now).spaces; arrays = map bare (setting_of job.now).program.arrays }) values.now array slots.now }
    requires within { first + block_count (setting_of job.now) array ≤ length seats.now.slots }
    requires short { first + block_count (setting_of job.now) array < 2 ^ 63 }
    ensures { (p : Memory) (b : Kept) (own : Own) → b.seats ≡ seats.now → first ≡ place_by (setting_of job.now) b array 0 ArrayKind.Local
        → own.values ≡ values.now → BlocksStand (setting_of job.now) p b own
        → result ≡ list_any (λ (n : ℕ). is_as allocated (is_allocated own array n)) (matched (setting_of job.now) own array slots.now) }
{
    let spaces = job.spaces();
    for turn in 0..matched_count(spaces, values, array, slots) {
        let number = matched_number(spaces, values, array, slots, turn);
        if is_wanted(allocated, seats.is_held(first + number as usize)) {
            return true;
        }
    }
    false
}

// A test, or its contrary.
fn is_wanted(wanted: bool, held: bool) -> bool
    ensures { result ≡ is_as wanted held }
{
    if wanted { held } else { !held }
}
