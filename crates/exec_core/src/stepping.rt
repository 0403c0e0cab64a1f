//! Loops, branches, calls and the heads of pardos.

ghost use Rattle.std.specs.Prelude.{◌≡◌};
ghost use Rattle.block_seats.specs.Leaving.{Leaves};
ghost use Rattle.exec_control.specs.Stands.{IsControl};
ghost use Rattle.exec_control.specs.Needs.{MayGo};
ghost use Rattle.exec_core.specs.Moves.{GoesOn};
ghost use Rattle.exec_core.specs.Runs.{AtWork};
ghost use Rattle.exec_core.specs.Stands.{OfWorks};
ghost use Rattle.exec_blocks.specs.Standing.{AreIn};
ghost use Rattle.sial_meaning.specs.Control.{control};
ghost use Rattle.sial_meaning.specs.Next.{next_of};
ghost use Rattle.sial_meaning.specs.Next as next;
ghost use Rattle.sip_setting.specs.Seen.{setting_of};

use crate::local::Local;
use block_pool::Pool;
use exec_job::Job;
use sial_meaning::Trap;
use sip_tables::Operation;

impl Local {
    /// Does a loop, a branch, a call, their ends, or the head of a pardo.
    pub fn go(&mut self, job: &Job, pool: &mut Pool) -> Result<(), Trap>
        requires at_work { AtWork (setting_of job.now) pool.old self.old }
        ensures does { OfWorks (setting_of job.now) pool.old self.old (λ rest own partials. IsControl (next_of rest)
            → GoesOn (setting_of job.now) pool.old pool.new self.old self.new partials (control (setting_of job.now) rest own) result) }
        ensures leaves { Leaves pool.old pool.new self.old.blocks.seats.slots self.new.blocks.seats.slots }
    {
        let _spaces = job.spaces();
        let instruction = job.instruction(self.control.at());
        match &instruction.operation {
            Operation::Pardo { .. } => self.enter(job, pool),
            _ => self.control.go(job, &self.scalars),
        }
    }

    // Enters a pardo, all unset that it begins without.
    fn enter(&mut self, job: &Job, pool: &mut Pool) -> Result<(), Trap>
        requires may_go { MayGo (setting_of job.now) self.old.control }
        requires seated { AreIn (setting_of job.now) pool.old self.old.blocks }
        ensures does { OfWorks (setting_of job.now) pool.old self.old (λ rest own partials. next_of rest ≡ next.Pardo
            → GoesOn (setting_of job.now) pool.old pool.new self.old self.new partials (control (setting_of job.now) rest own) result) }
        ensures leaves { Leaves pool.old pool.new self.old.blocks.seats.slots self.new.blocks.seats.slots }
    {
        let entered = self.control.go(job, &self.scalars);
        self.unset(job, pool);
        entered
    }
}
