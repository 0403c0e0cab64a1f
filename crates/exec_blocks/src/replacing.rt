//! The words that stand at a block that an assignment is about to replace.

ghost use Rattle.std.specs.Prelude.{◌≡◌, Ok, Err, IfOk, IfErr};
ghost use Rattle.sip_setting.specs.Seen.{setting_of};
ghost use Rattle.sial_meaning.specs.LocalStep.{old_words};
ghost use Rattle.sial_meaning.specs.Own.{Own};
ghost use Rattle.sial_meaning.specs.Setting.{array_kind};
ghost use Rattle.exec_blocks.specs.Standing.{AreIn, BlocksStand, IsNamed};

use crate::blocks::Blocks;
use block_pool::Pool;
use exec_job::Job;
use sial_meaning::TrapKind;
use sial_syntax::BlockRef;

impl Blocks {
    /// The words of a target before an assignment, where they stand. A static block has them, a local one where it is
    /// allocated; of a temp that doesn't hold the named block there are none, which is a trap where they are needed.
    pub fn old<'a>(
        &self,
        job: &Job,
        pool: &'a Pool,
        values: &[u32],
        block: &BlockRef,
        needed: bool,
    ) -> Result<&'a [u64], TrapKind>
        requires stands { AreIn (setting_of job.now) pool.now self.now }
        requires named { IsNamed (setting_of job.now) values.now block.now }
        ensures ok { (own : Own) → own.values ≡ values.now → BlocksStand (setting_of job.now) pool.now self.now own
            → IfOk result (λ words. old_words (setting_of job.now) own block.now needed (array_kind (setting_of job.now) block.now.array) ≡ Ok words.now) }
        ensures err { (own : Own) → own.values ≡ values.now → BlocksStand (setting_of job.now) pool.now self.now own
            → IfErr result (λ trap. old_words (setting_of job.now) own block.now needed (array_kind (setting_of job.now) block.now.array) ≡ Err trap) }
    {
        match self.words(job, pool, values, block) {
            Ok(words) => Ok(words),
            Err(TrapKind::UnsetBlock) if !needed => Ok(&[]),
            Err(kind) => Err(kind),
        }
    }
}
