//! A worker as its program begins.

ghost use Rattle.std.specs.Prelude.{◌≡◌, ◌≤◌, [], IfOk, OnErr};
ghost use Rattle.block_pool.specs.Changes.{IsMemory};
ghost use Rattle.block_pool.specs.Memory.{free_in, last_class};
ghost use Rattle.block_seats.specs.Leaving.{Leaves};
ghost use Rattle.exec_blocks.specs.Beginning.{IsWideFor, static_blocks};
ghost use Rattle.exec_core.specs.Stands.{LocalStands};
ghost use Rattle.sial_meaning.specs.State.{start_state};
ghost use Rattle.sial_meaning.specs.Step.{start_work};
ghost use Rattle.sial_syntax.specs.declared.array.ArrayKind.TheVariants as kind;
ghost use Rattle.sip_setting.specs.Seen.{setting_of};

use crate::local::Local;
use block_pool::Pool;
use exec_blocks::Blocks;
use exec_control::Control;
use exec_job::Job;
use exec_scalars::Scalars;
use sip_files::OutOfMemory;
use std::alloc::Global;

impl Local {
    /// A worker before the first instruction: replicated scalars and static blocks are those that the input gives, and
    /// nothing else is there.
    pub fn open(alloc: Global, job: &Job, pool: &mut Pool) -> Result<Local, OutOfMemory>
        requires sound { IsMemory pool.old }
        requires wide { IsWideFor (setting_of job.now) pool.old kind.Static }

        // A slot for each block of a static array.
        requires room { static_blocks (setting_of job.now) ≤ free_in pool.old last_class }
        ensures begins { IfOk result (λ l. LocalStands (setting_of job.now) pool.new l (start_work (setting_of job.now)).rest
            (start_state (setting_of job.now)).own (start_state (setting_of job.now)).partials) }
        ensures leaves { IfOk result (λ l. Leaves pool.old pool.new [] l.blocks.seats.slots) }
        ensures failed { OnErr result (pool.new ≡ pool.old) }
    {
        let _spaces = job.spaces();
        let control = Control::open(alloc, job)?;
        let scalars = Scalars::open(alloc, job)?;
        let created = vec![in alloc; false; job.arrays_len()]?;
        let blocks = Blocks::open(alloc, job, pool)?;
        Ok(Local {
            control,
            scalars,
            blocks,
            created,
        })
    }
}
