//! Where a worker is in the boxes of the pardos in progress.

ghost use Rattle.std.specs.Prelude.{◌≡◌, ℕ, ◌+◌, ◌-◌, ◌^◌, ◌<◌, ◌≤◌, List, [], ◌∷◌, ◌++◌, IfErr, OnErr, OnOk};
ghost use Rattle.block_pool.specs.Memory.{Memory};
ghost use Rattle.block_seats.specs.Leaving.{Leaves};
ghost use Rattle.exec_alone.specs.Alone.{AloneAtWork, AloneStands, GoesAlone, IsLed, LedTo, halted};
ghost use Rattle.exec_core.specs.Stands.{LocalStands};
ghost use Rattle.sial_meaning.specs.Control.{control};
ghost use Rattle.sial_meaning.specs.Next as next;
ghost use Rattle.sial_meaning.specs.Next.{next_of};
ghost use Rattle.sial_meaning.specs.Own.{Own};
ghost use Rattle.sial_meaning.specs.Rest.{Rest};
ghost use Rattle.sip_setting.specs.Seen.{setting_of};

use crate::halt::Halt;
use block_pool::Pool;
use exec_core::Local;
use exec_job::Job;
use sial_meaning::Trap;
use sip_tables::Operation;
use std::alloc::Global;
use std::marker::Model;

/// For each pardo in progress the place, in its box, of the tuple that is taken up next.
#[derive(Drop)]
pub struct Turns {
    places: Vec<u64>,
}

impl Model for Turns {
    ghost use Rattle.std.specs.Prelude.{ℕ, List};

    ghost Value = { List ℕ };

    ghost view = { λ t. t.places.items };
}

impl Turns {
    /// No pardo is in progress.
    pub fn new(alloc: Global) -> Turns
        ensures { result ≡ [] }
    {
        Turns {
            places: Vec::new(alloc),
        }
    }

    /// Leads a worker through a loop, a branch, a call or a pardo, or the end of one: the tuples of a pardo's box are taken up
    /// in order, each once, and then the pardo is left. Takes memory for one more pardo in progress alone.
    pub fn go(&mut self, job: &Job, local: &mut Local, pool: &mut Pool) -> Result<(), Halt>
        requires at_work { AloneAtWork (setting_of job.now) pool.old local.old self.old }
        ensures does { (rest : Rest) (own : Own) (partials : List ℕ)
            → AloneStands (setting_of job.now) pool.old local.old self.old rest own partials → IsLed (next_of rest)
            → GoesAlone (setting_of job.now) pool.old pool.new local.old local.new self.old self.new partials (control (setting_of job.now) rest own) result }
        ensures leaves { Leaves pool.old pool.new local.old.blocks.seats.slots local.new.blocks.seats.slots }
    {
        let _spaces = job.spaces();
        let instruction = job.instruction(local.place());
        match &instruction.operation {
            Operation::EndPardo { .. } => {
                self.turn(job, local, pool);
                Ok(())
            }
            Operation::Pardo { .. } => self.enter(job, local, pool),
            _ => halting(local.go(job, pool)),
        }
    }

    // Enters a pardo.
    fn enter(&mut self, job: &Job, local: &mut Local, pool: &mut Pool) -> Result<(), Halt>
        requires at_work { (work : AloneAtWork (setting_of job.now) pool.old local.old self.old) × (next_of work.rest ≡ next.Pardo) }
        ensures does { (rest : Rest) (own : Own) (partials : List ℕ)
            → AloneStands (setting_of job.now) pool.old local.old self.old rest own partials → next_of rest ≡ next.Pardo
            → GoesAlone (setting_of job.now) pool.old pool.new local.old local.new self.old self.new partials (control (setting_of job.now) rest own) result }
        ensures leaves { Leaves pool.old pool.new local.old.blocks.seats.slots local.new.blocks.seats.slots }
    {
        self.begin()?;
        halting(local.go(job, pool))
    }

    // One more pardo in progress, at its first tuple.
    fn begin(&mut self) -> Result<(), Halt>
        ensures ok { OnOk result (self.new ≡ self.old ++ 0 ∷ []) }
        ensures err { OnErr result (self.new ≡ self.old) }
        ensures cause { IfErr result (λ halt. halt ≡ Halt.OutOfMemory) }
    {
        match self.places.push(0) {
            Ok(()) => Ok(()),
            Err(_) => Err(Halt::OutOfMemory),
        }
    }

    // Takes up the next tuple of the pardo at whose end the cursor is, or leaves the pardo.
    fn turn(&mut self, job: &Job, local: &mut Local, pool: &mut Pool)
        requires at_end { (work : AloneAtWork (setting_of job.now) pool.old local.old self.old) × (next_of work.rest ≡ next.End) }
        ensures does { (rest : Rest) (own : Own) (partials : List ℕ)
            → AloneStands (setting_of job.now) pool.old local.old self.old rest own partials → next_of rest ≡ next.End
            → LedTo (setting_of job.now) pool.new local.new self.new partials (control (setting_of job.now) rest own) }
        ensures leaves { Leaves pool.old pool.new local.old.blocks.seats.slots local.new.blocks.seats.slots }
    {
        let number = self.place();
        if number < local.tuples(job) {
            local.take_up(job, pool, number);
            self.advance();
        } else {
            local.leave(job, pool);
            self.places.pop();
        }
    }

    // The place of the pardo that began last.
    fn place(&self) -> u64
        ensures { (outer : List ℕ) (number : ℕ) → self.now ≡ outer ++ number ∷ [] → result ≡ number }
    {
        self.places.last().copied().unwrap_or(0)
    }

    // On to the next place of the pardo that began last.
    fn advance(&mut self)
        ensures { (outer : List ℕ) (number : ℕ) → self.old ≡ outer ++ number ∷ [] → number < 2 ^ 64 - 1 → self.new ≡ outer ++ (number + 1) ∷ [] }
    {
        if let Some(place) = self.places.last_mut() {
            *place = place.saturating_add(1);
        }
    }
}

// What a worker alone answers where the worker answers this.
fn halting(led: Result<(), Trap>) -> Result<(), Halt>
    ensures { result ≡ halted led }
{
    match led {
        Ok(()) => Ok(()),
        Err(trap) => Err(Halt::Trapped(trap)),
    }
}
