//! Integrals computed.

ghost use Rattle.std.specs.Prelude.{◌≡◌, ◌≤◌, ◌<◌, ◌^◌, ℕ, List, length, map};
ghost use Rattle.sip_setting.specs.Seen.{setting_of};
ghost use Rattle.sial_syntax.specs.Spaces.{extent};
ghost use Rattle.sial_syntax.specs.Tree.{Integrals};
ghost use Rattle.sial_meaning.specs.LocalStep.{local_step};
ghost use Rattle.block_seats.specs.Leaving.{Leaves};
ghost use Rattle.block_seats.specs.Seated.{IsWide};
ghost use Rattle.exec_blocks.specs.Standing.{AreIn, HasRoom, IsNamed};
ghost use Rattle.exec_scalars.specs.Numbers.{Numbers};
ghost use Rattle.exec_sides.specs.Seen.{extents_of as lies_on};
ghost use Rattle.exec_sides.specs.Short.{volume_now};
ghost use Rattle.exec_assign.specs.Made.{BlocksEnd};
ghost use Rattle.exec_assign.specs.Standing.{OfStates};

use crate::elements::positions;
use crate::extents::block_extents;
use block_pool::Pool;
use exec_blocks::Blocks;
use exec_job::Job;
use exec_names::Extent;
use exec_sides::{Shape, integrals};
use sial_meaning::TrapKind;
use sial_syntax::BlockRef;

/// Makes a block one of integrals, or traps and changes nothing. They are computed in a space that is long enough, which
/// has no meaning afterwards, and then put down.
pub fn compute_integrals(
    job: &Job,
    pool: &mut Pool,
    blocks: &mut Blocks,
    values: &[u32],
    block: &BlockRef,
    space: &mut [u64],
) -> Result<(), TrapKind>
    requires seated { AreIn (setting_of job.now) pool.old blocks.old }
    requires target { IsNamed (setting_of job.now) values.now block.now }
    requires room { HasRoom (setting_of job.now) pool.old blocks.old values.now block.now }
    requires wide { IsWide pool.old (volume_now (setting_of job.now).spaces values.now block.now.at) }
    requires few { volume_now (setting_of job.now).spaces values.now block.now.at < 2 ^ 32 }
    requires space { volume_now (setting_of job.now).spaces values.now block.now.at ≤ length space.old }
    ensures seated { AreIn (setting_of job.now) pool.new blocks.new }
    ensures leaves { Leaves pool.old pool.new blocks.old.seats.slots blocks.new.seats.slots }
    ensures does { (scalars : Numbers) (shared : List (List ℕ)) → OfStates (setting_of job.now) pool.old scalars blocks.old values.now (λ own partials.
        BlocksEnd (setting_of job.now) scalars values.now pool.old pool.new blocks.old blocks.new own
        (local_step (setting_of job.now) (Integrals block.now) shared own partials) result) }
{
    let lying = block_extents(job, values, block);
    let extents = &lying[..block.at.len()];
    let into = &mut space[..positions(extents) as usize];
    integrals_in(job, pool, blocks, values, block, extents, into)
}

// The same, of a block that lies on these extents, in a space that is as long.
fn integrals_in(
    job: &Job,
    pool: &mut Pool,
    blocks: &mut Blocks,
    values: &[u32],
    block: &BlockRef,
    extents: &[Extent],
    into: &mut [u64],
) -> Result<(), TrapKind>
    requires seated { AreIn (setting_of job.now) pool.old blocks.old }
    requires target { IsNamed (setting_of job.now) values.now block.now }
    requires room { HasRoom (setting_of job.now) pool.old blocks.old values.now block.now }
    requires wide { IsWide pool.old (volume_now (setting_of job.now).spaces values.now block.now.at) }
    requires few { volume_now (setting_of job.now).spaces values.now block.now.at < 2 ^ 32 }
    requires lies { lies_on extents.now ≡ map (extent (setting_of job.now).spaces values.now) block.now.at }
    requires long { length into.old ≡ volume_now (setting_of job.now).spaces values.now block.now.at }
    ensures seated { AreIn (setting_of job.now) pool.new blocks.new }
    ensures leaves { Leaves pool.old pool.new blocks.old.seats.slots blocks.new.seats.slots }
    ensures does { (scalars : Numbers) (shared : List (List ℕ)) → OfStates (setting_of job.now) pool.old scalars blocks.old values.now (λ own partials.
        BlocksEnd (setting_of job.now) scalars values.now pool.old pool.new blocks.old blocks.new own
        (local_step (setting_of job.now) (Integrals block.now) shared own partials) result) }
{
    let at = block.at.as_slice();
    let _spaces = job.spaces();
    match blocks.old(job, pool, values, block, false) {
        Ok(_) => {
            integrals(&Shape { at, extents }, into);
            blocks.put_down(job, pool, values, block, into);
            Ok(())
        }
        Err(kind) => Err(kind),
    }
}
