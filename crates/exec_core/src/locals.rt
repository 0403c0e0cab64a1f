//! Local blocks allocated and taken away.

ghost use Rattle.std.specs.Prelude.{◌≡◌, ℕ, List, OnErr};
ghost use Rattle.block_seats.specs.Leaving.{Leaves};
ghost use Rattle.exec_blocks.specs.Allocating.{Answers, HasLocalRoom};
ghost use Rattle.exec_blocks.specs.Beginning.{IsWideFor};
ghost use Rattle.exec_blocks.specs.Needing.{MeetsNeed};
ghost use Rattle.exec_blocks.specs.Standing.{AreIn, BlocksStand};
ghost use Rattle.exec_core.specs.Locals.{IsOfLocals, OpMatches, op_changed};
ghost use Rattle.exec_core.specs.Printing.{Does};
ghost use Rattle.exec_core.specs.Runs.{AtWork};
ghost use Rattle.exec_core.specs.Stands.{OfWorks};
ghost use Rattle.sial_meaning.specs.Next.{next_of};
ghost use Rattle.sial_meaning.specs.Own.{Own};
ghost use Rattle.sial_meaning.specs.Setting.{array_kind};
ghost use Rattle.sial_syntax.specs.declared.array.ArrayKind.TheVariants as kind;
ghost use Rattle.sip_setting.specs.Seen.{setting_of};

use crate::local::Local;
use crate::passing::past;
use crate::printed::Printed;
use block_pool::Pool;
use exec_blocks::Blocks;
use exec_job::Job;
use sial_meaning::{Trap, TrapKind};
use sip_tables::Operation;

impl Local {
    /// Does an `allocate` or `deallocate` at the cursor.
    pub fn change_locals(&mut self, job: &Job, pool: &mut Pool) -> Result<Printed, Trap>
        requires of_locals { (work : AtWork (setting_of job.now) pool.old self.old) × IsOfLocals (next_of work.rest) }
        requires wide { IsWideFor (setting_of job.now) pool.old kind.Local }

        // As many slots as the worker's own blocks take at most.
        requires need { MeetsNeed (setting_of job.now) pool.old self.old.blocks }
        ensures does { (values : List (List ℕ)) → OfWorks (setting_of job.now) pool.old self.old (λ rest own partials.
            Does (setting_of job.now) pool.new self.old self.new own partials values result (next_of rest)) }
        ensures need { MeetsNeed (setting_of job.now) pool.new self.new.blocks }
        ensures leaves { Leaves pool.old pool.new self.old.blocks.seats.slots self.new.blocks.seats.slots }
        ensures trapped { OnErr result (pool.new ≡ pool.old) }
    {
        let _spaces = job.spaces();
        let instruction = job.instruction(self.control.at());
        let values = self.control.values();
        let done = change(&mut self.blocks, job, pool, values, &instruction.operation);
        past(&mut self.control, instruction.line, done)
    }
}

// The local blocks that an instruction allocates or takes away.
fn change(
    blocks: &mut Blocks,
    job: &Job,
    pool: &mut Pool,
    values: &[u32],
    operation: &Operation,
) -> Result<(), TrapKind>
    requires stands { AreIn (setting_of job.now) pool.old blocks.old }
    requires matches { OpMatches (setting_of job.now) values.now operation.now }
    requires wide { IsWideFor (setting_of job.now) pool.old kind.Local }
    requires room { (array : ℕ) → array_kind (setting_of job.now) array ≡ kind.Local → HasLocalRoom (setting_of job.now) pool.old blocks.old array }
    ensures stands { AreIn (setting_of job.now) pool.new blocks.new }
    ensures leaves { Leaves pool.old pool.new blocks.old.seats.slots blocks.new.seats.slots }
    ensures does { (own : Own) (partials : List ℕ) → own.values ≡ values.now → BlocksStand (setting_of job.now) pool.old blocks.old own
        → Answers (op_changed (setting_of job.now) operation.now own partials) (BlocksStand (setting_of job.now) pool.new blocks.new) result }
    ensures trapped { OnErr result ((pool.new ≡ pool.old) × (blocks.new ≡ blocks.old)) }
{
    match operation {
        Operation::Allocate { array, at } => {
            blocks.allocate(job, pool, values, *array, at.as_slice())
        }
        Operation::Deallocate { array, at } => {
            blocks.deallocate(job, pool, values, *array, at.as_slice())
        }
        _ => Ok(()),
    }
}
