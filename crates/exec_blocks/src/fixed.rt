//! Static blocks by their numbers.

ghost use Rattle.std.specs.Prelude.{◌≡◌, ◌<◌};
ghost use Rattle.sip_setting.specs.Seen.{setting_of};
ghost use Rattle.sial_meaning.specs.Own.{Own, static_block};
ghost use Rattle.sial_meaning.specs.Setting.{array_kind, block_count};
ghost use Rattle.exec_blocks.specs.Standing.{AreIn, BlocksStand};

use crate::blocks::Blocks;
use block_pool::Pool;
use exec_job::Job;
use sial_syntax::ArrayKind;

impl Blocks {
    /// A block of a static array, by its number within the array.
    pub fn fixed<'a>(&self, job: &Job, pool: &'a Pool, array: u16, number: u32) -> &'a [u64]
        requires stands { AreIn (setting_of job.now) pool.now self.now }
        requires fixed { array_kind (setting_of job.now) array ≡ ArrayKind.Static }
        requires below { number < block_count (setting_of job.now) array }
        ensures { (own : Own) → BlocksStand (setting_of job.now) pool.now self.now own → result.now ≡ static_block own array number }
    {
        let _places = self.seats.len();
        let spaces = job.spaces();
        let first = spaces.first_block(array) as usize;
        self.seats.words(pool, first + number as usize)
    }
}
