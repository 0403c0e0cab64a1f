//! Assignments to scalars.

ghost use Rattle.sip_setting.specs.Seen.{setting_of};
ghost use Rattle.sial_syntax.specs.declared.operand.Target.TheVariants as target;
ghost use Rattle.sial_syntax.specs.Tree.{Assign};
ghost use Rattle.sial_meaning.specs.LocalStep.{local_step, side_read};
ghost use Rattle.exec_blocks.specs.Standing.{AreIn};
ghost use Rattle.exec_scalars.specs.Answers.{EndsWith};
ghost use Rattle.exec_assign.specs.Answers.{IsValue};
ghost use Rattle.exec_assign.specs.Fitting.{NumberFits};
ghost use Rattle.exec_assign.specs.Lent.{AreLent, side_values};
ghost use Rattle.exec_assign.specs.Naming.{AreNamed};
ghost use Rattle.exec_assign.specs.Standing.{OfStates};

use crate::extents::extents_of;
use crate::leases::Leases;
use crate::reading::read_side;
use block_pool::Pool;
use exec_blocks::Blocks;
use exec_job::Job;
use exec_scalars::Scalars;
use exec_sides::number;
use sial_meaning::TrapKind;
use sial_syntax::{Op, Right};

/// Assigns the number of a right side to a scalar, or traps and changes nothing. Shared blocks are read from their leases.
pub fn assign_scalar(
    job: &Job,
    pool: &Pool,
    scalars: &mut Scalars,
    blocks: &Blocks,
    values: &[u32],
    scalar: u16,
    op: Op,
    right: &Right,
    leases: &Leases<'_>,
) -> Result<(), TrapKind>
    requires seated { AreIn (setting_of job.now) pool.now blocks.now }
    requires named { AreNamed (setting_of job.now) values.now right.now }
    requires lent { AreLent (setting_of job.now) pool.now values.now leases.now right.now }
    requires fits { NumberFits (setting_of job.now) pool.now scalars.old blocks.now values.now leases.now right.now }
    ensures { OfStates (setting_of job.now) pool.now scalars.old blocks.now values.now (λ own partials.
        EndsWith scalars.old scalars.new own
        (local_step (setting_of job.now) (Assign (target.Scalar scalar) op right.now)
        (side_values (setting_of job.now) pool.now values.now leases.now right.now) own partials) result) }
{
    match number_of(job, pool, scalars, blocks, values, right, leases) {
        Ok(number) => scalars.assign(job.scalar_class(scalar), scalar, op, number),
        Err(kind) => Err(kind),
    }
}

// The number of a right side.
fn number_of(
    job: &Job,
    pool: &Pool,
    scalars: &Scalars,
    blocks: &Blocks,
    values: &[u32],
    right: &Right,
    leases: &Leases<'_>,
) -> Result<u64, TrapKind>
    requires seated { AreIn (setting_of job.now) pool.now blocks.now }
    requires named { AreNamed (setting_of job.now) values.now right.now }
    requires lent { AreLent (setting_of job.now) pool.now values.now leases.now right.now }
    requires fits { NumberFits (setting_of job.now) pool.now scalars.now blocks.now values.now leases.now right.now }
    ensures { OfStates (setting_of job.now) pool.now scalars.now blocks.now values.now (λ own partials.
        IsValue (setting_of job.now)
        (side_read (setting_of job.now) own right.now (side_values (setting_of job.now) pool.now values.now leases.now right.now)) result) }
{
    let extents = extents_of(job, values, right);
    match read_side(job, pool, scalars, blocks, values, right, leases, &extents) {
        Ok(side) => Ok(number(&side)),
        Err(kind) => Err(kind),
    }
}
