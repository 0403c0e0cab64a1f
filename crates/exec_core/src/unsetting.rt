//! What the beginning of a pardo unsets.

ghost use Rattle.std.specs.Prelude.{◌≡◌, ℕ, List};
ghost use Rattle.block_seats.specs.Leaving.{Leaves};
ghost use Rattle.exec_blocks.specs.Standing.{AreIn, BlocksStand};
ghost use Rattle.exec_scalars.specs.Numbers.{AreNumbers};
ghost use Rattle.sial_meaning.specs.Own.{Own, unset};
ghost use Rattle.sip_setting.specs.Seen.{setting_of};

use crate::local::Local;
use block_pool::Pool;
use exec_job::Job;

impl Local {
    // Private scalars, temps, and the local arrays that are used inside pardos.
    pub(crate) fn unset(&mut self, job: &Job, pool: &mut Pool)
        requires seated { AreIn (setting_of job.now) pool.old self.old.blocks }
        ensures same { self.new ≡ record self.old { scalars = self.new.scalars; blocks = self.new.blocks } }
        ensures seated { AreIn (setting_of job.now) pool.new self.new.blocks }
        ensures leaves { Leaves pool.old pool.new self.old.blocks.seats.slots self.new.blocks.seats.slots }
        ensures scalars { (own : Own) (partials : List ℕ) → AreNumbers self.old.scalars own partials
            → AreNumbers self.new.scalars (unset (setting_of job.now) own) partials }
        ensures blocks { (own : Own) → BlocksStand (setting_of job.now) pool.old self.old.blocks own
            → BlocksStand (setting_of job.now) pool.new self.new.blocks (unset (setting_of job.now) own) }
    {
        self.scalars.unset_private(job);
        self.blocks.unset(job, pool);
    }
}
