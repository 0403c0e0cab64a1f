//! Assignments to blocks.

ghost use Rattle.std.specs.Prelude.{◌≡◌, ◌≤◌, ◌<◌, ◌^◌, length, map};
ghost use Rattle.sip_setting.specs.Seen.{setting_of};
ghost use Rattle.sial_syntax.specs.Spaces.{extent};
ghost use Rattle.sial_syntax.specs.declared.operand.Target.TheVariants as target;
ghost use Rattle.sial_syntax.specs.Tree.{Assign};
ghost use Rattle.sial_meaning.specs.LocalStep.{local_step};
ghost use Rattle.block_seats.specs.Leaving.{Leaves};
ghost use Rattle.block_seats.specs.Seated.{IsWide};
ghost use Rattle.exec_blocks.specs.Standing.{AreIn, HasRoom, IsNamed};
ghost use Rattle.exec_sides.specs.Seen.{extents_of as lies_on};
ghost use Rattle.exec_sides.specs.Short.{volume_now};
ghost use Rattle.exec_assign.specs.Fitting.{BlockFits};
ghost use Rattle.exec_assign.specs.Lent.{AreLent, side_values};
ghost use Rattle.exec_assign.specs.Made.{BlocksEnd};
ghost use Rattle.exec_assign.specs.Naming.{AreNamed};
ghost use Rattle.exec_assign.specs.Standing.{OfStates};

use crate::elements::positions;
use crate::extents::block_extents;
use crate::leases::Leases;
use crate::writing::compute;
use block_pool::Pool;
use exec_blocks::Blocks;
use exec_job::Job;
use exec_names::Extent;
use exec_scalars::Scalars;
use sial_meaning::TrapKind;
use sial_syntax::{BlockRef, Op, Right};

/// Assigns a right side to a block, or traps and changes nothing. Shared blocks are read from their leases. The block's
/// elements are computed in a space that is long enough, which has no meaning afterwards, and then put down.
pub fn assign_block(
    job: &Job,
    pool: &mut Pool,
    scalars: &Scalars,
    blocks: &mut Blocks,
    values: &[u32],
    block: &BlockRef,
    op: Op,
    right: &Right,
    leases: &Leases<'_>,
    space: &mut [u64],
) -> Result<(), TrapKind>
    requires seated { AreIn (setting_of job.now) pool.old blocks.old }
    requires named { AreNamed (setting_of job.now) values.now right.now }
    requires target { IsNamed (setting_of job.now) values.now block.now }
    requires lent { AreLent (setting_of job.now) pool.old values.now leases.now right.now }
    requires fits { BlockFits (setting_of job.now) pool.old scalars.now blocks.old values.now leases.now block.now op right.now }
    requires room { HasRoom (setting_of job.now) pool.old blocks.old values.now block.now }
    requires wide { IsWide pool.old (volume_now (setting_of job.now).spaces values.now block.now.at) }
    requires few { volume_now (setting_of job.now).spaces values.now block.now.at < 2 ^ 32 }
    requires space { volume_now (setting_of job.now).spaces values.now block.now.at ≤ length space.old }
    ensures seated { AreIn (setting_of job.now) pool.new blocks.new }
    ensures leaves { Leaves pool.old pool.new blocks.old.seats.slots blocks.new.seats.slots }
    ensures does { OfStates (setting_of job.now) pool.old scalars.now blocks.old values.now (λ own partials.
        BlocksEnd (setting_of job.now) scalars.now values.now pool.old pool.new blocks.old blocks.new own
        (local_step (setting_of job.now) (Assign (target.Block block.now) op right.now)
        (side_values (setting_of job.now) pool.old values.now leases.now right.now) own partials) result) }
{
    let lying = block_extents(job, values, block);
    let extents = &lying[..block.at.len()];
    let into = &mut space[..positions(extents) as usize];
    assign_in(
        job, pool, scalars, blocks, values, block, op, right, leases, extents, into,
    )
}

// The same, of a block that lies on these extents, in a space that is as long.
fn assign_in(
    job: &Job,
    pool: &mut Pool,
    scalars: &Scalars,
    blocks: &mut Blocks,
    values: &[u32],
    block: &BlockRef,
    op: Op,
    right: &Right,
    leases: &Leases<'_>,
    lying: &[Extent],
    into: &mut [u64],
) -> Result<(), TrapKind>
    requires seated { AreIn (setting_of job.now) pool.old blocks.old }
    requires named { AreNamed (setting_of job.now) values.now right.now }
    requires target { IsNamed (setting_of job.now) values.now block.now }
    requires lent { AreLent (setting_of job.now) pool.old values.now leases.now right.now }
    requires fits { BlockFits (setting_of job.now) pool.old scalars.now blocks.old values.now leases.now block.now op right.now }
    requires room { HasRoom (setting_of job.now) pool.old blocks.old values.now block.now }
    requires wide { IsWide pool.old (volume_now (setting_of job.now).spaces values.now block.now.at) }
    requires lies { lies_on lying.now ≡ map (extent (setting_of job.now).spaces values.now) block.now.at }
    requires long { length into.old ≡ volume_now (setting_of job.now).spaces values.now block.now.at }
    ensures seated { AreIn (setting_of job.now) pool.new blocks.new }
    ensures leaves { Leaves pool.old pool.new blocks.old.seats.slots blocks.new.seats.slots }
    ensures does { OfStates (setting_of job.now) pool.old scalars.now blocks.old values.now (λ own partials.
        BlocksEnd (setting_of job.now) scalars.now values.now pool.old pool.new blocks.old blocks.new own
        (local_step (setting_of job.now) (Assign (target.Block block.now) op right.now)
        (side_values (setting_of job.now) pool.old values.now leases.now right.now) own partials) result) }
{
    match compute(
        job, pool, scalars, blocks, values, block, op, right, leases, lying, into,
    ) {
        Ok(()) => {
            blocks.put_down(job, pool, values, block, into);
            Ok(())
        }
        Err(kind) => Err(kind),
    }
}
