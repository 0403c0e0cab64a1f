//! What `put` and `prepare` send.

ghost use Rattle.std.specs.Prelude.{◌≡◌, [], Some, Ok, Err, IfOk, IfErr};
ghost use Rattle.exec_blocks.specs.Standing.{AreIn, BlocksStand, IsNamed};
ghost use Rattle.exec_core.specs.Runs.{AtWork};
ghost use Rattle.exec_core.specs.Sending.{at_line, sending, sent_next};
ghost use Rattle.exec_core.specs.Stands.{OfWorks};
ghost use Rattle.sial_meaning.specs.LocalStep.{words_of};
ghost use Rattle.sial_meaning.specs.Next.{next_of};
ghost use Rattle.sial_meaning.specs.Own.{Own};
ghost use Rattle.sial_syntax.specs.declared.operand.BlockRef.{BlockRef};
ghost use Rattle.sip_setting.specs.Seen.{setting_of};

use crate::local::Local;
use block_pool::Pool;
use exec_job::Job;
use sial_meaning::Trap;
use sial_syntax::BlockRef;
use sip_tables::Operation;

impl Local {
    /// The elements that a `put` or `prepare` at the cursor sends, where they stand, or its trap.
    pub fn source<'a>(&self, job: &Job, pool: &'a Pool) -> Result<&'a [u64], Trap>
        requires sends { (work : AtWork (setting_of job.now) pool.now self.now) × (from : BlockRef) × (sent_next (next_of work.rest) ≡ Some from) }
        ensures ok { OfWorks (setting_of job.now) pool.now self.now (λ rest own partials.
            IfOk result (λ words. sending (setting_of job.now) (next_of rest) own ≡ Ok words.now)) }
        ensures err { OfWorks (setting_of job.now) pool.now self.now (λ rest own partials.
            IfErr result (λ trap. sending (setting_of job.now) (next_of rest) own ≡ Err trap)) }
    {
        let _spaces = job.spaces();
        let instruction = job.instruction(self.control.at());
        match &instruction.operation {
            Operation::Put { from, .. } => self.sent(job, pool, instruction.line, from),
            Operation::Prepare { from, .. } => self.sent(job, pool, instruction.line, from),
            _ => unreachable!(),
        }
    }

    // The elements of a block, or a trap at a line.
    fn sent<'a>(
        &self,
        job: &Job,
        pool: &'a Pool,
        line: u32,
        from: &BlockRef,
    ) -> Result<&'a [u64], Trap>
        requires seated { AreIn (setting_of job.now) pool.now self.now.blocks }
        requires named { IsNamed (setting_of job.now) self.now.control.values from.now }
        ensures ok { (own : Own) → own.values ≡ self.now.control.values → BlocksStand (setting_of job.now) pool.now self.now.blocks own
            → IfOk result (λ words. at_line line (words_of (setting_of job.now) own from.now []) ≡ Ok words.now) }
        ensures err { (own : Own) → own.values ≡ self.now.control.values → BlocksStand (setting_of job.now) pool.now self.now.blocks own
            → IfErr result (λ trap. at_line line (words_of (setting_of job.now) own from.now []) ≡ Err trap) }
    {
        match self.blocks.words(job, pool, self.control.values(), from) {
            Ok(words) => Ok(words),
            Err(kind) => Err(Trap { kind, line }),
        }
    }
}
