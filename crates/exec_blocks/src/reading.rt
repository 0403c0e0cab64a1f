//! The words of named blocks.

ghost use Rattle.std.specs.Prelude.{◌≡◌, ◌<◌, Ok, Err, Some, None, [], length, IfOk, IfErr};
ghost use Rattle.sip_setting.specs.Seen.{setting_of};
ghost use Rattle.sial_meaning.specs.LocalStep.{words_of};
ghost use Rattle.sial_meaning.specs.Own.{Own};
ghost use Rattle.sial_meaning.specs.Setting.{array_kind};
ghost use Rattle.block_seats.specs.Seated.{SeatsStand, block_at};
ghost use Rattle.exec_blocks.specs.Standing.{AreIn, BlocksStand, IsNamed};

use crate::blocks::Blocks;
use block_pool::Pool;
use block_seats::Seats;
use exec_job::Job;
use sial_meaning::TrapKind;
use sial_syntax::{ArrayKind, BlockRef};

// The words of the block at a place, or a trap where no block is.
fn words_at<'a>(
    seats: &Seats,
    pool: &'a Pool,
    place: usize,
    missing: TrapKind,
) -> Result<&'a [u64], TrapKind>
    requires stands { SeatsStand pool.now seats.now }
    requires at { place < length seats.now.slots }
    ensures ok { IfOk result (λ words. block_at pool.now seats.now place ≡ Some words.now) }
    ensures err { IfErr result (λ trap. (trap ≡ missing) × (block_at pool.now seats.now place ≡ None)) }
{
    if seats.is_held(place) {
        Ok(seats.words(pool, place))
    } else {
        Err(missing)
    }
}

impl Blocks {
    /// The words of a named block, where they stand; a shared block has none here.
    pub fn words<'a>(
        &self,
        job: &Job,
        pool: &'a Pool,
        values: &[u32],
        block: &BlockRef,
    ) -> Result<&'a [u64], TrapKind>
        requires stands { AreIn (setting_of job.now) pool.now self.now }
        requires named { IsNamed (setting_of job.now) values.now block.now }
        ensures ok { (own : Own) → own.values ≡ values.now → BlocksStand (setting_of job.now) pool.now self.now own → IfOk result (λ words. words_of (setting_of job.now) own block.now [] ≡ Ok words.now) }
        ensures err { (own : Own) → own.values ≡ values.now → BlocksStand (setting_of job.now) pool.now self.now own → IfErr result (λ trap. words_of (setting_of job.now) own block.now [] ≡ Err trap) }
    {
        match job.array_kind(block.array) {
            ArrayKind::Static => {
                let place = self.place(job, values, block);
                words_at(&self.seats, pool, place, TrapKind::UnsetBlock)
            }
            ArrayKind::Local => {
                let place = self.place(job, values, block);
                words_at(&self.seats, pool, place, TrapKind::LocalMissing)
            }
            ArrayKind::Temp => self.temp_words(job, pool, values, block),
            _ => Ok(&[]),
        }
    }

    // The words of the block that a temp holds, where it is the named one.
    fn temp_words<'a>(
        &self,
        job: &Job,
        pool: &'a Pool,
        values: &[u32],
        block: &BlockRef,
    ) -> Result<&'a [u64], TrapKind>
        requires stands { AreIn (setting_of job.now) pool.now self.now }
        requires named { IsNamed (setting_of job.now) values.now block.now }
        requires temp { array_kind (setting_of job.now) block.now.array ≡ ArrayKind.Temp }
        ensures ok { (own : Own) → own.values ≡ values.now → BlocksStand (setting_of job.now) pool.now self.now own → IfOk result (λ words. words_of (setting_of job.now) own block.now [] ≡ Ok words.now) }
        ensures err { (own : Own) → own.values ≡ values.now → BlocksStand (setting_of job.now) pool.now self.now own → IfErr result (λ trap. words_of (setting_of job.now) own block.now [] ≡ Err trap) }
    {
        let place = self.place(job, values, block);
        if self.is_tuple(job, values, block) {
            words_at(&self.seats, pool, place, TrapKind::UnsetBlock)
        } else {
            Err(TrapKind::UnsetBlock)
        }
    }
}
