//! A pardo in progress.

ghost use Rattle.std.specs.Prelude.{◌≡◌, ℕ, ◌-◌, ◌^◌, min, List};
ghost use Rattle.block_pool.specs.Memory.{Memory};
ghost use Rattle.block_seats.specs.Leaving.{Leaves};
ghost use Rattle.exec_blocks.specs.Standing.{AreIn};
ghost use Rattle.exec_control.specs.Needs.{IsAtPardoEnd, MayTakeUp};
ghost use Rattle.exec_core.specs.Moves.{TakesUp};
ghost use Rattle.exec_core.specs.Stands.{LocalStands};
ghost use Rattle.sial_meaning.specs.Control.{taken};
ghost use Rattle.sial_meaning.specs.Meaning.{left};
ghost use Rattle.sial_meaning.specs.Own.{Own};
ghost use Rattle.sial_meaning.specs.Rest.{PardoAt, Rest, Within};
ghost use Rattle.sial_syntax.specs.Boxes.{volume};
ghost use Rattle.sial_syntax.specs.Spaces.{box_of};
ghost use Rattle.sip_setting.specs.Seen.{setting_of};

use crate::local::Local;
use block_pool::Pool;
use exec_job::Job;

impl Local {
    /// How many tuples the box has of the pardo at whose end the cursor is.
    pub fn tuples(&self, job: &Job) -> u64
        requires at_end { IsAtPardoEnd (setting_of job.now) self.now.control }
        ensures { (p : Memory) (pardo : PardoAt) (last : ℕ) (more : Rest) (own : Own) (partials : List ℕ)
            → LocalStands (setting_of job.now) p self.now (Within pardo last more) own partials
            → result ≡ min (volume (box_of (setting_of job.now).spaces pardo.indices)) (2 ^ 64 - 1) }
    {
        self.control.tuples(job)
    }

    /// Takes up the tuple at a place of the box of the pardo at whose end the cursor is, and tells whether its `where` lines
    /// hold. Then the cursor goes to its body, else it stays.
    pub fn take_up(&mut self, job: &Job, pool: &mut Pool, number: u64) -> bool
        requires may_take_up { MayTakeUp (setting_of job.now) self.old.control number }
        requires seated { AreIn (setting_of job.now) pool.old self.old.blocks }
        ensures does { (pardo : PardoAt) (last : ℕ) (more : Rest) (own : Own) (partials : List ℕ)
            → LocalStands (setting_of job.now) pool.old self.old (Within pardo last more) own partials
            → TakesUp (setting_of job.now) pool.new self.new pardo partials (taken (setting_of job.now) pardo number more own) result }
        ensures leaves { Leaves pool.old pool.new self.old.blocks.seats.slots self.new.blocks.seats.slots }
    {
        self.unset(job, pool);
        self.control.take_up(job, &self.scalars, number)
    }

    /// Leaves the pardo at whose end the cursor is.
    pub fn leave(&mut self, job: &Job, pool: &mut Pool)
        requires at_end { IsAtPardoEnd (setting_of job.now) self.old.control }
        requires seated { AreIn (setting_of job.now) pool.old self.old.blocks }
        ensures does { (pardo : PardoAt) (last : ℕ) (more : Rest) (own : Own) (partials : List ℕ)
            → LocalStands (setting_of job.now) pool.old self.old (Within pardo last more) own partials
            → LocalStands (setting_of job.now) pool.new self.new more (left (setting_of job.now) pardo.indices own) partials }
        ensures leaves { Leaves pool.old pool.new self.old.blocks.seats.slots self.new.blocks.seats.slots }
    {
        self.unset(job, pool);
        self.control.leave(job);
    }
}
