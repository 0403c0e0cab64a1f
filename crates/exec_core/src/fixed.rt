//! Static blocks by their numbers.

ghost use Rattle.std.specs.Prelude.{◌≡◌, ◌<◌};
ghost use Rattle.exec_blocks.specs.Standing.{AreIn};
ghost use Rattle.exec_core.specs.Stands.{OfWorks};
ghost use Rattle.sial_meaning.specs.Own.{static_block};
ghost use Rattle.sial_meaning.specs.Setting.{array_kind, block_count};
ghost use Rattle.sial_syntax.specs.declared.array.ArrayKind.TheVariants as kind;
ghost use Rattle.sip_setting.specs.Seen.{setting_of};

use crate::local::Local;
use block_pool::Pool;
use exec_job::Job;

impl Local {
    /// A block of a static array, by its number within the array.
    pub fn fixed<'a>(&self, job: &Job, pool: &'a Pool, array: u16, number: u32) -> &'a [u64]
        requires seated { AreIn (setting_of job.now) pool.now self.now.blocks }
        requires fixed { array_kind (setting_of job.now) array ≡ kind.Static }
        requires below { number < block_count (setting_of job.now) array }
        ensures { OfWorks (setting_of job.now) pool.now self.now (λ rest own partials. result.now ≡ static_block own array number) }
    {
        self.blocks.fixed(job, pool, array, number)
    }
}
