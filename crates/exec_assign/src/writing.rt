//! What an assignment makes of a block, in a space apart from the pool.

ghost use Rattle.std.specs.Prelude.{◌≡◌, length, map, true, if◌then◌else◌};
ghost use Rattle.sip_setting.specs.Seen.{setting_of};
ghost use Rattle.sial_syntax.specs.Spaces.{extent};
ghost use Rattle.sial_meaning.specs.LocalStep.{and_then, side_read};
ghost use Rattle.sial_meaning.specs.Own.{Own};
ghost use Rattle.exec_blocks.specs.Standing.{AreIn, BlocksStand, IsNamed};
ghost use Rattle.exec_sides.specs.Seen.{extents_of as lies_on, side_of};
ghost use Rattle.exec_sides.specs.Short.{volume_now};
ghost use Rattle.exec_assign.specs.Answers.{answer_of};
ghost use Rattle.exec_assign.specs.Fitting.{BlockFits, SideFits};
ghost use Rattle.exec_assign.specs.Lent.{AreLent, side_values};
ghost use Rattle.exec_assign.specs.Made.{words_made};
ghost use Rattle.exec_assign.specs.Naming.{AreNamed};
ghost use Rattle.exec_assign.specs.Standing.{OfStates};

use crate::extents::extents_of;
use crate::leases::Leases;
use crate::parts::needs_old;
use crate::reading::read_side;
use block_pool::Pool;
use exec_blocks::Blocks;
use exec_job::Job;
use exec_names::Extent;
use exec_scalars::Scalars;
use exec_sides::{Shape, Side, assign};
use sial_meaning::TrapKind;
use sial_syntax::{BlockRef, Op, Right};

/// Computes the elements of a block that lies on these extents, in a space that is as long: its right side is read first,
/// then the elements that it had.
pub fn compute(
    job: &Job,
    pool: &Pool,
    scalars: &Scalars,
    blocks: &Blocks,
    values: &[u32],
    block: &BlockRef,
    op: Op,
    right: &Right,
    leases: &Leases<'_>,
    lying: &[Extent],
    into: &mut [u64],
) -> Result<(), TrapKind>
    requires seated { AreIn (setting_of job.now) pool.now blocks.now }
    requires named { AreNamed (setting_of job.now) values.now right.now }
    requires target { IsNamed (setting_of job.now) values.now block.now }
    requires lent { AreLent (setting_of job.now) pool.now values.now leases.now right.now }
    requires fits { BlockFits (setting_of job.now) pool.now scalars.now blocks.now values.now leases.now block.now op right.now }
    requires lies { lies_on lying.now ≡ map (extent (setting_of job.now).spaces values.now) block.now.at }
    requires long { length into.old ≡ volume_now (setting_of job.now).spaces values.now block.now.at }
    ensures len { length into.new ≡ length into.old }
    ensures made { OfStates (setting_of job.now) pool.now scalars.now blocks.now values.now (λ own partials.
        and_then (side_read (setting_of job.now) own right.now (side_values (setting_of job.now) pool.now values.now leases.now right.now))
        (words_made (setting_of job.now) own block.now op)
        ≡ answer_of (λ done. into.new) result) }
{
    let extents = extents_of(job, values, right);
    match read_side(job, pool, scalars, blocks, values, right, leases, &extents) {
        Ok(side) => write_side(job, pool, blocks, values, block, op, &side, lying, into),
        Err(kind) => Err(kind),
    }
}

// The same, of a right side that was read.
fn write_side(
    job: &Job,
    pool: &Pool,
    blocks: &Blocks,
    values: &[u32],
    block: &BlockRef,
    op: Op,
    side: &Side,
    extents: &[Extent],
    into: &mut [u64],
) -> Result<(), TrapKind>
    requires seated { AreIn (setting_of job.now) pool.now blocks.now }
    requires target { IsNamed (setting_of job.now) values.now block.now }
    requires fits { SideFits (setting_of job.now) pool.now blocks.now values.now block.now op (side_of side.now) }
    requires lies { lies_on extents.now ≡ map (extent (setting_of job.now).spaces values.now) block.now.at }
    requires long { length into.old ≡ volume_now (setting_of job.now).spaces values.now block.now.at }
    ensures len { length into.new ≡ length into.old }
    ensures made { (own : Own) → own.values ≡ values.now → BlocksStand (setting_of job.now) pool.now blocks.now own
        → words_made (setting_of job.now) own block.now op (side_of side.now) ≡ answer_of (λ done. into.new) result }
{
    let at = block.at.as_slice();
    let needed = needs_old(job, op, at, side);
    match blocks.old(job, pool, values, block, needed) {
        Ok(words) => {
            bring(needed, words, into);
            assign(op, &Shape { at, extents }, side, into);
            Ok(())
        }
        Err(kind) => Err(kind),
    }
}

// Words come into a space, if they are needed.
fn bring(needed: bool, words: &[u64], into: &mut [u64])
    requires { needed ≡ true → length words.now ≡ length into.old }
    ensures { into.new ≡ if needed then words.now else into.old }
{
    if needed {
        into.copy_from_slice(words);
    }
}
